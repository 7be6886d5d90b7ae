use crate::{
    LexFault, LexKind, Scanned, TokenKind, past_blanks, scan, token_at, token_bytes, tokens,
};
use std::alloc::Global;
use std::test::Fail;
use tx_expect::{each_line, expect};

/// The kind and the length of each token; the kind and the place of the first fault, and the comment
/// in which it lies.
fn answer(alloc: Global, bytes: &[u8]) -> Result<String, Fail> {
    let short = bytes.split_at(bytes.len().min(1000)).0;
    let Scanned { tokens, fault } = scan(alloc, short)?;
    let mut answer = String::new(alloc);
    for token in tokens.as_slice() {
        let len = token.to.saturating_sub(token.from);
        let told = format!(in alloc; "{:?} {len};", token.kind)?;
        answer.push_str(told.as_str())?;
    }
    if let Some(fault) = fault {
        let told = format!(in alloc; "{:?} at {}", fault.kind, fault.place)?;
        answer.push_str(told.as_str())?;
        if let Some(comment) = fault.comment {
            let told = format!(in alloc; " in {} to {}", comment.from, comment.to)?;
            answer.push_str(told.as_str())?;
        }
    }
    Ok(answer)
}

/// The tests that the first token of a text passes.
fn tests_passed(alloc: Global, text: &str) -> Result<String, Fail> {
    let short = text.as_bytes().split_at(text.len().min(1000)).0;
    let Scanned { tokens, fault: _ } = scan(alloc, short)?;
    let kind = token_at(tokens.as_slice(), 0).ok_or("no token")?.kind;
    let tests: [(&str, bool); 8] = [
        ("space;", kind.is_space()),
        ("blank;", kind.is_blank()),
        ("name;", kind.is_name()),
        ("hash;", kind.is_hash()),
        ("variable;", kind.is_variable()),
        ("number;", kind.is_number()),
        ("colon;", kind.is_mark(b':')),
        ("point;", kind.is_mark(b'.')),
    ];
    let mut passed = String::new(alloc);
    for (name, passes) in tests {
        if passes {
            passed.push_str(name)?;
        }
    }
    Ok(passed)
}

#[test]
fn tokens_are_read(rt: HostRuntime) -> Result<(), Fail> {
    let alloc = rt.alloc();
    each_line(
        "\
/**/ => Comment 4;\n\
/*/*/ => Comment 5;\n\
/***/* => Comment 5;Mark(42) 1;\n\
a-b_9 _ => Name 5;Space 1;Name 1;\n\
#0-a.b => Hash 4;Mark(46) 1;Name 1;\n\
$a-1$_ => Variable 4;Variable 2;\n\
:;, => Mark(58) 1;Mark(59) 1;Mark(44) 1;\n\
.>* => Mark(46) 1;Mark(62) 1;Mark(42) 1;\n\
{}()! => Mark(123) 1;Mark(125) 1;Mark(40) 1;Mark(41) 1;Mark(33) 1;\n\
0 => Number 1;\n\
-1.50fr => Number 7;\n\
.5 => Number 2;\n\
1. => Number 1;Mark(46) 1;\n\
1..5 => Number 1;Mark(46) 1;Number 2;\n\
1.2.3 => Number 3;Number 2;\n\
12px-3 => Number 4;Number 2;\n\
5%a => Number 2;Name 1;\n\
1_ => Number 1;Name 1;\n\
123456789.123456789012345678vw => Number 30;\n\
1#a => Number 1;Hash 2;\n\
a /* => Name 1;Space 1;Unclosed at 2\n\
/*/ => Unclosed at 0\n\
/*\u{4e16}*// => Comment 7;BadByte at 7\n\
/ => BadByte at 0\n\
a/b => Name 1;BadByte at 1\n\
- => BadByte at 0\n\
1 -a => Number 1;Space 1;BadByte at 2\n\
-. => BadByte at 0\n\
-.5%% => Number 4;BadByte at 4\n\
5a% => Number 2;BadByte at 2\n\
# => BadByte at 0\n\
a#.b => Name 1;BadByte at 1\n\
$1 => BadByte at 0\n\
a\u{e4} => Name 1;BadByte at 1\n\
a\" => Name 1;BadByte at 1\n\
& => BadByte at 0\n\
[ => BadByte at 0\n\
a 1234567890 => Name 1;Space 1;NumberTooLong at 2\n\
-0000000001 => NumberTooLong at 0\n\
1.1234567890123456780 => NumberTooLong at 0\n\
.1234567890123456789fr => NumberTooLong at 0\n\
1234567890 /* => NumberTooLong at 0",
        |text| answer(alloc, text.as_bytes()),
    )
}

#[test]
fn bytes_that_are_no_text_are_refused(rt: HostRuntime) -> Result<(), Fail> {
    let cases: [(&[u8], &'static str); 8] = [
        (b"", ""),
        (b" \t\n\r", "Space 4;"),
        (b"a\x0bb", "Name 1;BadByte at 1"),
        (b"a\x00", "Name 1;BadByte at 1"),
        (b"\xff", "BadByte at 0"),
        (b"/* \xff", "Unclosed at 0"),
        (b"/* \xff */", "BadByte at 3 in 0 to 7"),
        (b"a/*\xe4\xb8*/", "Name 1;BadByte at 3 in 1 to 7"),
    ];
    for (bytes, wanted) in cases {
        expect(answer(rt.alloc(), bytes)?.as_str() == wanted, wanted)?;
    }
    Ok(())
}

#[test]
fn kinds_are_told(rt: HostRuntime) -> Result<(), Fail> {
    let alloc = rt.alloc();
    each_line(
        "  => space;blank;\n\
/**/ => blank;\n\
a => name;\n\
#a => hash;\n\
$a => variable;\n\
1 => number;\n\
: => colon;\n\
. => point;\n\
* => ",
        |text| tests_passed(alloc, text),
    )
}

#[test]
fn a_text_is_read_or_its_first_fault_told(rt: HostRuntime) -> Result<(), Fail> {
    let read = tokens(rt.alloc(), "a: 1fr;")?;
    let last = read.last().ok_or("no token")?;
    expect(read.len() == 5, "the tokens")?;
    expect(last.kind == TokenKind::Mark(b';'), "the last token")?;
    let fault = LexFault::Text {
        place: 2,
        kind: LexKind::BadByte,
    };
    expect(
        tokens(rt.alloc(), "a \u{4e16}").err() == Some(fault),
        "the fault",
    )
}

#[test]
fn tokens_are_found(rt: HostRuntime) -> Result<(), Fail> {
    let text = "a /**/ bc";
    let read = tokens(rt.alloc(), text)?;
    let found = token_at(&read, 4).ok_or("no token")?;
    expect(
        token_bytes(text.as_bytes(), found) == b"bc".as_slice(),
        "its bytes",
    )?;
    expect(token_at(&read, 5).is_none(), "the end")?;
    let cases: [(usize, usize); 4] = [(0, 0), (1, 4), (4, 4), (5, 5)];
    for (at, wanted) in cases {
        expect(past_blanks(&read, at) == wanted, "behind blanks")?;
    }
    Ok(())
}
