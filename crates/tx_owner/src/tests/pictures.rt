//! Who owns each cell of small screens, with a letter for each row.

use super::{map_of, styles_of};
use crate::Owners;
use std::alloc::Global;
use std::rt::HostRuntime;
use std::test::Fail;
use tx_expect::{each_line, expect};
use tx_geom::Size;
use tx_map::{LayoutMap, Scrolls};
use tx_test_kit::{lines_of, number_of, pair_of, sheet_of, tree_of};
use tx_tree::NodeId;

// How many rows the Screen is scrolled down.
fn scrolls_of(alloc: Global, text: &str) -> Result<Scrolls, Fail> {
    let mut scrolls = Scrolls::new(alloc);
    scrolls.insert(NodeId(1), (0, number_of(text)?))?;
    Ok(scrolls)
}

// A size, a tree, a sheet and a scroll, between ` | `.
fn parts_of(line: &str) -> Result<(&str, &str, &str, &str), Fail> {
    let (size, rest) = line.split_once(" | ").ok_or("a size")?;
    let (rows, rest) = rest.split_once(" | ").ok_or("a tree")?;
    let (sheet, scroll) = rest.split_once(" | ").ok_or("a sheet")?;
    Ok((size, rows, sheet, scroll))
}

// The letter of a row by its place in the map.
fn letter(owner: Option<usize>) -> &'static str {
    match owner {
        None => ".",
        Some(0) => "A",
        Some(1) => "B",
        Some(2) => "C",
        Some(3) => "D",
        Some(4) => "E",
        Some(_) => "?",
    }
}

// The letters of a line.
fn line_text(alloc: Global, owners: &Owners, y: u32) -> Result<String, Fail> {
    let mut text = String::new(alloc);
    let Some(line) = owners.line(y) else {
        return Err(Fail::from("a line"));
    };
    for cell in line {
        text.push_str(letter(*cell))?;
    }
    Ok(text)
}

// The letters of all cells, each asked for by itself, with `/` behind each line.
fn cells_text(alloc: Global, owners: &Owners, size: Size) -> Result<String, Fail> {
    let mut text = String::new(alloc);
    for y in 0..size.height {
        for x in 0..size.width {
            text.push_str(letter(owners.at(x, y)))?;
        }
        text.push_str("/")?;
    }
    Ok(text)
}

// The letters of all lines, with `/` behind each.
fn lines_text(alloc: Global, owners: &Owners, size: Size) -> Result<String, Fail> {
    let mut text = String::new(alloc);
    for y in 0..size.height {
        let line = line_text(alloc, owners, y)?;
        text.push_str(line.as_str())?;
        text.push_str("/")?;
    }
    Ok(text)
}

// Each row that owns a cell, with its first one.
fn spots_text(alloc: Global, map: &LayoutMap, owners: &Owners) -> Result<String, Fail> {
    let mut text = String::new(alloc);
    for (place, entry) in map.entries().iter().enumerate() {
        if let Some((x, y)) = owners.spot(entry.node) {
            let row = letter(Some(place));
            let spot = format!(in alloc; " {row} {x} {y}")?;
            text.push_str(spot.as_str())?;
        }
    }
    Ok(text)
}

// The picture and the spots of a map.
fn owners_text(
    alloc: Global,
    map: &LayoutMap,
    owners: &Owners,
    size: Size,
) -> Result<String, Fail> {
    let mut text = cells_text(alloc, owners, size)?;
    let lines = lines_text(alloc, owners, size)?;
    expect(lines.as_str() == text.as_str(), "a line")?;
    let spots = spots_text(alloc, map, owners)?;
    text.push_str(spots.as_str())?;
    Ok(text)
}

// Those of a tree under a sheet.
fn owned_in(
    alloc: Global,
    rows: &str,
    sheet: &str,
    scrolls: &Scrolls,
    size: Size,
) -> Result<String, Fail> {
    let tree = tree_of(alloc, rows)?;
    let sheet = sheet_of(alloc, sheet)?;
    let styles = styles_of(alloc, &sheet, &tree)?;
    let map = map_of(alloc, &tree, &styles, scrolls, size)?;
    let owners = Owners::of(alloc, &map, &styles, size)?;
    owners_text(alloc, &map, &owners, size)
}

// Those of `WIDTH HEIGHT | TREE | SHEET | SCROLL`.
fn owned(alloc: Global, line: &str) -> Result<String, Fail> {
    let (size, rows, sheet, scroll) = parts_of(line)?;
    let lines = lines_of(alloc, rows)?;
    let scrolls = scrolls_of(alloc, scroll)?;
    let (width, height) = pair_of(size)?;
    owned_in(
        alloc,
        lines.as_str(),
        sheet,
        &scrolls,
        Size { width, height },
    )
}

#[test]
fn visible_rows_own_their_cells(rt: HostRuntime) -> Result<(), Fail> {
    let alloc = rt.alloc();
    each_line(
        "\
4 2 | Screen | Label { } | 0 => AAAA/AAAA/ A 0 0
4 3 | Screen/  Static \"ab\"/  Static \"c\" | Label { } | 0 => BBBB/CCCC/AAAA/ A 0 2 B 0 0 C 0 1
4 2 | Screen/  Static #s \"a\" | #s { visibility: hidden; } | 0 => AAAA/AAAA/ A 0 0
4 2 | Screen/  Vertical #v/    Static #s \"a\" | #v { visibility: hidden; } #s { visibility: visible; } | 0 => CCCC/AAAA/ A 0 1 C 0 0
4 2 | Screen/  Vertical #v/    Static \"a\" | #v { visibility: hidden; } | 0 => AAAA/AAAA/ A 0 0
4 2 | Screen/  Static \"a\" | Screen { visibility: hidden; } | 0 => AAAA/AAAA/ A 0 0
4 2 | Screen/  Static #s \"a\" | Screen { visibility: hidden; } #s { visibility: visible; } | 0 => BBBB/AAAA/ A 0 1 B 0 0
4 2 | Screen/  Static #s \"a\" | #s { width: 3; } | 0 => BBBA/AAAA/ A 3 0 B 0 0",
        |line: &str| owned(alloc, line),
    )
}

#[test]
fn greater_keys_are_on_top(rt: HostRuntime) -> Result<(), Fail> {
    let alloc = rt.alloc();
    each_line(
        "\
4 1 | Screen/  Static #x \"x\"/  Static #y \"y\"/  Static #z \"z\" | Screen { layers: a b; } #x { layer: b; width: 1; } #y { layer: a; width: 2; } #z { layer: c; } | 0 => BCDD/ B 0 0 C 1 0 D 2 0
4 2 | Screen/  Static #d \"d\"/  Static \"s\" | #d { dock: top; offset: 0 1; } | 0 => AAAA/BBBB/ A 0 0 B 0 1
4 2 | Screen/  Static #a \"a\"/  Static #b \"b\" | #a { offset: 0 1; width: 2; } | 0 => AAAA/CCCC/ A 0 0 C 0 1
4 2 | Screen/  Static #a \"a\"/  Static #b \"b\" | #b { offset: 1 -1; width: 2; } | 0 => BCCB/AAAA/ A 0 1 B 0 0 C 1 0
4 3 | Screen/  Vertical #v/    Static \"a\"/    Static \"b\"/  Static #c \"c\" | #v { height: 2; } #c { offset: 0 -1; } | 0 => CCCC/EEEE/AAAA/ A 0 2 C 0 0 E 0 1
5 3 | Screen/  Vertical #v/    Static \"a\" | #v { width: 4; height: 3; padding: 1; } | 0 => BBBBA/BCCBA/BBBBA/ A 4 0 B 0 0 C 1 1",
        |line: &str| owned(alloc, line),
    )
}

#[test]
fn rows_own_within_their_clips(rt: HostRuntime) -> Result<(), Fail> {
    let alloc = rt.alloc();
    each_line(
        "\
6 3 | Screen/  Vertical #v/    Static #s \"a\" | #v { width: 3; height: 2; } #s { width: 9; height: 9; } | 0 => CCCAAA/CCCAAA/AAAAAA/ A 3 0 C 0 0
4 2 | Screen/  Static \"a\"/  Static \"b\"/  Static \"c\" | Label { } | 1 => CCAA/DDAA/ A 2 0 C 0 0 D 0 1
4 1 | Screen/  Static #s \"a\" | #s { width: 0; } | 0 => AAAA/ A 0 0
4 1 | Screen/  Static #s \"abcd\" | #s { width: 4; offset: -2 0; } | 0 => BBAA/ A 2 0 B 0 0
4 2 | Screen/  Static #s \"abcd\" | #s { offset: 9 0; } | 0 => AAAA/AAAA/ A 0 0",
        |line: &str| owned(alloc, line),
    )
}
