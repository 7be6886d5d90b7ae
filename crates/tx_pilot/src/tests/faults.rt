//! Lines that break two rules: the first from the left, and what comes before all words.
use super::answer;
use crate::{LineFault, LineKind, read_line};
use std::alloc::Global;
use std::test::Fail;
use tx_expect::{each_line, expect};

#[test]
fn the_first_fault_is_told(rt: HostRuntime) -> Result<(), Fail> {
    let alloc = rt.alloc();
    each_line(
        "\
~ => BadByte\n\
press ab~ => BadByte\n\
pause|~ => BadByte\n\
jump ~ => BadByte\n\
press ab| => Expected\n\
text '#' '|' => Expected\n\
resize 0 0 => BadNumber\n\
resize 0 x => BadNumber\n\
resize x => BadNumber\n\
resize 1 x => BadNumber\n\
resize  0 0 => Expected\n\
text '#' '\\t' => BadSelector\n\
text '\\t' '#' => Expected\n\
before '#' '\\t' => BadSelector\n\
before '\\t' '#' => Expected\n\
before '#a' '\\t' => Expected\n\
style '#' { => BadSelector\n\
style '# => Expected\n\
mount '#'  => BadSelector\n\
mount '#s' static {color} => Expected\n\
advance '#' 9999999 => BadSelector\n\
advance '#s' 9999999 '#' => BadNumber\n\
advance '#s'9999999 => Expected\n\
class '#' + => BadSelector\n\
class '#s' + '#' => Expected\n\
press ab '#' => BadKey\n\
press a ab => Expected\n\
pause ab => Expected",
        |given| answer(alloc, given),
    )
}

/// A line of so many bytes, each of which is `a`, and a text behind them.
fn long_line(alloc: Global, count: usize, end: &[u8]) -> Result<Vec<u8>, Fail> {
    let mut line = Vec::new(alloc);
    for _ in 0..count {
        line.push(b'a')?;
    }
    line.extend_from_slice(end)?;
    Ok(line)
}

#[test]
fn long_lines(rt: HostRuntime) -> Result<(), Fail> {
    let alloc = rt.alloc();
    let cases: [(usize, &[u8], LineKind); 5] = [
        (65_536, b"", LineKind::Expected),
        (65_537, b"", LineKind::TooLong),
        (65_536, b"\xff", LineKind::TooLong),
        (65_535, b"\xff", LineKind::BadByte),
        (65_536, b"\n", LineKind::TooLong),
    ];
    for (count, end, wanted) in cases {
        let line = long_line(alloc, count, end)?;
        expect(line.len() < 100_000, "a short line")?;
        let kind = match read_line(alloc, &line) {
            Err(LineFault::Line(kind)) => kind,
            _ => return Err(Fail::from("read")),
        };
        expect(kind == wanted, "the kind")?;
    }
    Ok(())
}
