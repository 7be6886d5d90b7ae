//! How wide and how tall each kind wants to be.

use crate::tests::faces::{kind_of, number_of, text_of};
use crate::{tall, wide};
use std::alloc::Global;
use std::test::Fail;
use tx_expect::{each_line, expect};
use tx_tree::{Kind, Text};

// A kind, a width and a text, and how wide the kind wants to be and how tall at that width.
const MEASURES: &'static str = "\
Static 4 ab cde => 6 2
Static 4  => 0 0
Static 0 a¶b => 1 2
Static 1 世a => 3 2
Label 9 ab¶cdef¶ => 4 3
Button 9 OK => 2 1
Header 3 to be => 5 2
Footer 9 ¶ => 0 2
Checkbox 4 ab¶cdef => 6 1
Checkbox 4  => 4 1
Checkbox 1 世 => 6 1
Input 4 ab => 3 1
Input 4  => 1 1
Input 4 a¶b => 4 1
Input 4 a¦¶b => 4 1
Input 0 世 => 3 1
OptionList 1 ab¶cdef => 4 2
OptionList 1  => 0 0
OptionList 1 ¶ => 0 2
ProgressBar 1 abc => 32 1";

fn measures(alloc: Global, given: &str) -> Result<String, Fail> {
    let Some((word, rest)) = given.split_once(' ') else {
        return Err(Fail::from("no kind"));
    };
    let Some((digits, text)) = rest.split_once(' ') else {
        return Err(Fail::from("no width"));
    };
    let (Some(kind), Some(width)) = (kind_of(word), number_of(digits)) else {
        return Err(Fail::from("no kind or width"));
    };
    let text = text_of(alloc, text)?;
    measured(alloc, &kind, &text, width)
}

fn measured(alloc: Global, kind: &Kind, text: &Text, width: u32) -> Result<String, Fail> {
    if kind.holds_children() || text.as_str().len() > 1_000_000 {
        return Err(Fail::from("no such text"));
    }
    if let Kind::Handed(_) = kind {
        return Err(Fail::from("a kind that is handed in"));
    }
    let columns = wide(kind, text);
    let rows = tall(alloc, kind, text, width)?;
    Ok(format!(in alloc; "{columns} {rows}")?)
}

#[test]
fn kinds_are_measured(rt: HostRuntime) -> Result<(), Fail> {
    let alloc = rt.alloc();
    each_line(MEASURES, |given| measures(alloc, given))
}

#[test]
fn measures_stop_at_their_end(rt: HostRuntime) -> Result<(), Fail> {
    let alloc = rt.alloc();
    let mut columns = String::new(alloc);
    let mut lines = String::new(alloc);
    for _ in 0..65_540 {
        columns.push('a')?;
        lines.push('\n')?;
    }
    let columns = Text::of(alloc, columns.as_str())?;
    let lines = Text::of(alloc, lines.as_str())?;
    for kind in [Kind::Static, Kind::Checkbox, Kind::Input, Kind::OptionList] {
        let found = measured(alloc, &kind, &columns, 1)?;
        let wanted = match kind {
            Kind::Static => "65535 65535",
            _ => "65535 1",
        };
        expect(found.as_str() == wanted, "a long line")?;
    }
    let found = measured(alloc, &Kind::OptionList, &lines, 1)?;
    expect(found.as_str() == "0 65535", "many lines")
}
