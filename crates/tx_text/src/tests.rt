use crate::{Name, Names, Text};
use std::test::Fail;
use tx_expect::expect;

#[test]
fn names_have_1_to_64_bytes(rt: HostRuntime) -> Result<(), Fail> {
    let longest = "a".repeat(rt.alloc(), 64)?;
    let longer = "a".repeat(rt.alloc(), 65)?;
    let cases: [(&str, bool); 16] = [
        ("a", true),
        ("_", true),
        ("Z9", true),
        ("a-b_c9", true),
        ("az", true),
        ("_-", true),
        (longest.as_str(), true),
        (longer.as_str(), false),
        ("", false),
        ("9a", false),
        ("-a", false),
        ("a b", false),
        ("a.b", false),
        ("@", false),
        ("é", false),
        ("aé", false),
    ];
    for (text, is_name) in cases {
        match Name::of(text) {
            Some(name) => {
                assert!(rt; is_name, "{text}");
                assert_eq!(rt; name.as_str(), text);
                assert_eq!(rt; name.as_bytes(), text.as_bytes());
            }
            None => assert!(rt; !is_name, "{text}"),
        }
        assert_eq!(rt; Name::of_bytes(text.as_bytes()), Name::of(text));
    }
    assert_eq!(rt; Name::of_bytes(b"a\xff"), None);
    Ok(())
}

#[test]
fn lists_and_texts_are_copied(rt: HostRuntime) -> Result<(), Fail> {
    let alloc = rt.alloc();
    let text = Text::of(alloc, "two words")?;
    expect(text.copy()?.as_str() == "two words", "the copy of a text")?;
    expect(Text::empty(alloc).as_str().is_empty(), "the empty text")?;
    let first = Name::of("first").ok_or("no name")?;
    let second = Name::of("second").ok_or("no name")?;
    let names = Names::of(vec![in alloc; first, second]?);
    let copy = names.copy()?;
    expect(copy.as_slice() == names.as_slice(), "the copy of a list")?;
    expect(copy.into_vec().len() == 2, "its vector")
}
