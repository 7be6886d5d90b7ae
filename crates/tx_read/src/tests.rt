use crate::{
    behind, capped_value, digit_count, entry, front, number_at_most, push_number, split_once,
    strip_prefix,
};
use std::test::Fail;

#[test]
fn numbers_are_plain_digits_up_to_the_limit(rt: HostRuntime) -> Result<(), Fail> {
    let cases: [(&[u8], u32, Option<u32>); 18] = [
        (b"0", 0, Some(0)),
        (b"7", 9, Some(7)),
        (b"007", 7, Some(7)),
        (b"007", 6, None),
        (b"1203", u32::MAX, Some(1203)),
        (b"100", 100, Some(100)),
        (b"101", 100, None),
        (b"4294967295", u32::MAX, Some(u32::MAX)),
        (b"4294967296", u32::MAX, None),
        (b"18446744073709551617", u32::MAX, None),
        (b"", u32::MAX, None),
        (b"12a", u32::MAX, None),
        (b"a12", u32::MAX, None),
        (b"1 ", u32::MAX, None),
        (b"-1", u32::MAX, None),
        (b"+1", u32::MAX, None),
        (b"/", u32::MAX, None),
        (b":", u32::MAX, None),
    ];
    for (bytes, limit, wanted) in cases {
        assert_eq!(rt;
            number_at_most(bytes, limit),
            wanted,
            "{bytes:?} at most {limit}"
        );
    }
    Ok(())
}

#[test]
fn bytes_split_at_their_first_mark(rt: HostRuntime) -> Result<(), Fail> {
    let cases: [(&[u8], Option<(&[u8], &[u8])>); 6] = [
        (b"one=two=three", Some((b"one", b"two=three"))),
        (b"=two", Some((b"", b"two"))),
        (b"one=", Some((b"one", b""))),
        (b"=", Some((b"", b""))),
        (b"one", None),
        (b"", None),
    ];
    for (bytes, wanted) in cases {
        assert_eq!(rt; split_once(bytes, b'='), wanted, "{bytes:?}");
    }
    Ok(())
}

#[test]
fn a_prefix_is_taken_off(rt: HostRuntime) -> Result<(), Fail> {
    let cases: [(&[u8], &[u8], Option<&[u8]>); 7] = [
        (b"name: x", b"name: ", Some(b"x")),
        (b"name", b"name", Some(b"")),
        (b"x", b"", Some(b"x")),
        (b"", b"", Some(b"")),
        (b"nam", b"name", None),
        (b"Name: x", b"name: ", None),
        (b"", b"n", None),
    ];
    for (bytes, prefix, wanted) in cases {
        assert_eq!(rt;
            strip_prefix(bytes, prefix),
            wanted,
            "{bytes:?} behind {prefix:?}"
        );
    }
    Ok(())
}

#[test]
fn slices_are_cut(rt: HostRuntime) -> Result<(), Fail> {
    let cases: [(usize, &[u8], &[u8]); 4] = [
        (0, b"", b"abc"),
        (2, b"ab", b"c"),
        (3, b"abc", b""),
        (9, b"abc", b""),
    ];
    for (count, first, rest) in cases {
        assert_eq!(rt; front(b"abc", count), first, "{count}");
        assert_eq!(rt; behind(b"abc", count), rest, "{count}");
    }
    Ok(())
}

#[test]
fn words_are_found_in_tables(rt: HostRuntime) -> Result<(), Fail> {
    let table: [(&[u8], u8); 3] = [(b"one", 1), (b"two", 2), (b"one", 3)];
    assert_eq!(rt; entry(&table, b"one"), Some(1));
    assert_eq!(rt; entry(&table, b"two"), Some(2));
    assert_eq!(rt; entry(&table, b"tw"), None);
    Ok(())
}

#[test]
fn digits_are_counted_and_written(rt: HostRuntime) -> Result<(), Fail> {
    let mut out = b"at ".to_vec(rt.alloc())?;
    push_number(&mut out, 0)?;
    push_number(&mut out, u64::MAX)?;
    assert_eq!(rt; out.as_slice(), b"at 018446744073709551615".as_slice());
    assert_eq!(rt; digit_count(b"0123x4"), 4);
    assert_eq!(rt; digit_count(b"x"), 0);
    assert_eq!(rt; capped_value(b"042"), 42);
    assert_eq!(rt; capped_value(b"18446744073709551616"), u64::MAX);
    Ok(())
}
