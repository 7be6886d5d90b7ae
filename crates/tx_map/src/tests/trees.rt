//! The whole maps of small trees.

use super::{entry_text, map_of, map_text};
use crate::{LayoutMap, Scrolls};
use std::alloc::Global;
use std::rt::HostRuntime;
use std::test::Fail;
use tx_expect::each_line;
use tx_geom::Size;
use tx_parse::Sheet;
use tx_test_kit::{sheet_of, tree_of};
use tx_tree::{NodeId, Tree};

// A text with line feeds in place of `/`, and one at its end.
fn lines_of(alloc: Global, text: &str) -> Result<String, Fail> {
    let mut lines = String::new(alloc);
    for line in text.split('/') {
        lines.push_str(line)?;
        lines.push_str("\n")?;
    }
    Ok(lines)
}

fn number_of(word: &str) -> Result<u32, Fail> {
    Ok(word.parse::<u32>().ok().ok_or("a number")?)
}

fn pair_of(text: &str) -> Result<(u32, u32), Fail> {
    let (first, second) = text.split_once(' ').ok_or("two numbers")?;
    Ok((number_of(first)?, number_of(second)?))
}

// Scrolls by nodes: `NODE:COLUMNS ROWS` with `,` between them, or nothing.
fn scrolls_of(alloc: Global, text: &str) -> Result<Scrolls, Fail> {
    let mut scrolls = Scrolls::new(alloc);
    for part in text.split(',') {
        if let Some((node, scroll)) = part.split_once(':') {
            scrolls.insert(NodeId(number_of(node)?), pair_of(scroll)?)?;
        }
    }
    Ok(scrolls)
}

// A size, a tree, a sheet and scrolls, between ` | `.
fn parts_of(line: &str) -> Result<(&str, &str, &str, &str), Fail> {
    let (size, rest) = line.split_once(" | ").ok_or("a size")?;
    let (rows, rest) = rest.split_once(" | ").ok_or("a tree")?;
    let (sheet, scrolls) = rest.split_once(" |").ok_or("a sheet")?;
    Ok((size, rows, sheet, scrolls))
}

// The map of a tree under a sheet, with a size and scrolls as texts.
fn mapped_in(
    alloc: Global,
    tree: &Tree,
    sheet: &Sheet,
    size: &str,
    scrolls: &str,
) -> Result<String, Fail> {
    let scrolls = scrolls_of(alloc, scrolls)?;
    let (width, height) = pair_of(size)?;
    let map = map_of(alloc, sheet, tree, &scrolls, Size { width, height })?;
    map_text(alloc, &map)
}

// The map of a tree: `WIDTH HEIGHT | TREE | SHEET | SCROLLS`.
fn mapped(alloc: Global, line: &str) -> Result<String, Fail> {
    let (size, rows, sheet, scrolls) = parts_of(line)?;
    let lines = lines_of(alloc, rows)?;
    let tree = tree_of(alloc, lines.as_str())?;
    let sheet = sheet_of(alloc, sheet)?;
    mapped_in(alloc, &tree, &sheet, size, scrolls)
}

#[test]
fn rows_stand_below_each_other(rt: HostRuntime) -> Result<(), Fail> {
    let alloc = rt.alloc();
    each_line(
        "\
20 10 | Screen | Label { } | => 1 0 0 20 10 in 0 0 20 10 view 20 10
20 10 | Screen/  Static \"ab\"/  Static \"c\" | Label { } | => 1 0 0 20 10 in 0 0 20 10 view 20 10; 2.0.0.0 0 0 20 1 in 0 0 20 10 view 20 1; 3.0.0.1 0 1 20 1 in 0 0 20 10 view 20 1
20 10 | Screen/  Static \"a\"/  Vertical #v/    Static \"b\"/  Static \"c\" | #v { display: none; } | => 1 0 0 20 10 in 0 0 20 10 view 20 10; 2.0.0.0 0 0 20 1 in 0 0 20 10 view 20 1; 5.0.0.2 0 1 20 1 in 0 0 20 10 view 20 1
20 10 | Screen/  Static \"ab\" | Screen { width: 5; height: 3; margin: 1; display: none; dock: left; offset: 2 2; max-width: 4; } | => 1 0 0 20 10 in 0 0 20 10 view 20 10; 2.0.0.0 0 0 20 1 in 0 0 20 10 view 20 1
20 10 | Screen/  Static \"ab\" | Screen { padding: 1 2; border: solid red; } | => 1 0 0 20 10 in 0 0 20 10 view 14 6; 2.0.0.0 3 2 14 1 in 3 2 14 6 view 14 1
20 10 | Screen/  Vertical #v/    Static #s \"a\" | #v { padding: 1 3; } #s { width: 50%; height: 2; } | => 1 0 0 20 10 in 0 0 20 10 view 20 10; 2.0.0.0 0 0 20 10 in 0 0 20 10 view 14 8; 3.0.0.0.0.0.0 3 1 7 2 in 3 1 14 8 view 7 2
20 10 | Screen/  Grid #g/    Static \"a\"/    Vertical/      Static \"b\"/    Static \"c\" | #g { grid-size: 1 1; } | => 1 0 0 20 10 in 0 0 20 10 view 20 10; 2.0.0.0 0 0 20 10 in 0 0 20 10 view 20 10; 3.0.0.0.0.0.0 0 0 20 1 in 0 0 20 10 view 20 1
1 1 | Screen/  Static \"ab\" | Screen { border: solid red; } | => 1 0 0 1 1 in 0 0 1 1 view 0 0 down over 0 1; 2.0.0.0 1 1 0 1 in 1 1 0 0 view 0 1",
        |line: &str| mapped(alloc, line),
    )
}

#[test]
fn rows_are_clipped_and_scrolled(rt: HostRuntime) -> Result<(), Fail> {
    let alloc = rt.alloc();
    each_line(
        "\
10 4 | Screen/  Vertical #v/    Static #s \"a\" | Screen { overflow: hidden; } #v { height: 6; padding: 1; } #s { height: 9; } | => 1 0 0 10 4 in 0 0 10 4 view 10 4 over 0 2; 2.0.0.0 0 0 10 6 in 0 0 10 4 view 8 4 over 0 5; 3.0.0.0.0.0.0 1 1 8 9 in 1 1 8 3 view 8 9
20 10 | Screen/  Static #s \"a\" | #s { height: 15; } |1:3 4 => 1 0 0 20 10 in 0 0 20 10 view 18 10 down over 0 5 scroll 0 4; 2.0.0.0 0 -4 18 15 in 0 0 18 10 view 18 15
20 10 | Screen/  Static #s \"a\" | #s { height: 15; } |1:0 9 => 1 0 0 20 10 in 0 0 20 10 view 18 10 down over 0 5 scroll 0 5; 2.0.0.0 0 -5 18 15 in 0 0 18 10 view 18 15
20 10 | Screen/  Static #s \"a\" | Screen { overflow: hidden auto; } #s { width: 30; height: 15; } |1:7 9 => 1 0 0 20 10 in 0 0 20 10 view 18 10 down over 12 5 scroll 0 5; 2.0.0.0 0 -5 30 15 in 0 0 18 10 view 30 15
20 10 | Screen/  Header \"h\"/  Static #s \"a\" | #s { height: 15; } |1:0 4 => 1 0 0 20 10 in 0 0 20 10 view 18 10 down over 0 6 scroll 0 4; 2.0.1.0 0 0 18 1 in 0 0 18 10 view 18 1; 3.0.0.1 0 -3 18 15 in 0 0 18 10 view 18 15
20 10 | Screen/  Horizontal #h/    Static #a \"a\"/    Static #b \"b\" | #h { overflow: scroll hidden; } #a { width: 15; } #b { width: 9; } |2:3 2 => 1 0 0 20 10 in 0 0 20 10 view 20 10; 2.0.0.0 0 0 20 10 in 0 0 20 10 view 20 9 across over 4 0 scroll 3 0; 3.0.0.0.0.0.0 -3 0 15 1 in 0 0 20 9 view 15 1; 4.0.0.0.0.0.1 12 0 9 1 in 0 0 20 9 view 9 1
20 10 | Screen/  Static #s \"a\" | #s { width: 30; height: 15; } |1:99 99 => 1 0 0 20 10 in 0 0 20 10 view 18 9 across down over 12 6 scroll 12 6; 2.0.0.0 -12 -6 30 15 in 0 0 18 9 view 30 15
20 4 | Screen/  VerticalScroll #v/    Vertical #w/      Static #s \"a\" | #v { margin: 1 2; padding: 0 1; } #w { height: 5; } #s { margin: 1 0; } |3:0 9,2:0 2 => 1 0 0 20 4 in 0 0 20 4 view 20 4; 2.0.0.0 2 1 16 2 in 0 0 20 4 view 12 2 down over 0 3 scroll 0 2; 3.0.0.0.0.0.0 3 -1 12 5 in 3 1 12 2 view 12 5; 4.0.0.0.0.0.0.0.0.0 3 0 12 1 in 3 1 12 2 view 12 1",
        |line: &str| mapped(alloc, line),
    )
}

#[test]
fn keys_tell_layers_docks_and_places(rt: HostRuntime) -> Result<(), Fail> {
    let alloc = rt.alloc();
    each_line(
        "\
20 10 | Screen/  Static #x \"x\"/  Static #y \"y\"/  Static #z \"z\" | Screen { layers: a b; } #x { layer: b; } #y { layer: a; } #z { layer: c; } | => 1 0 0 20 10 in 0 0 20 10 view 20 10; 2.2.0.0 0 0 20 1 in 0 0 20 10 view 20 1; 3.1.0.1 0 0 20 1 in 0 0 20 10 view 20 1; 4.0.0.2 0 0 20 1 in 0 0 20 10 view 20 1
20 10 | Screen/  Vertical/    Static #x \"x\" | Screen { layers: a b; } #x { layer: b; } | => 1 0 0 20 10 in 0 0 20 10 view 20 10; 2.0.0.0 0 0 20 10 in 0 0 20 10 view 20 10; 3.0.0.0.0.0.0 0 0 20 1 in 0 0 20 10 view 20 1
20 4 | Screen/  Static #a \"a\"/  Static #b \"a\"/  Static \"a\" | #a { dock: left; width: 3; } #b { dock: left; width: 5; offset: 1 -1; } | => 1 0 0 20 4 in 0 0 20 4 view 20 4; 2.0.1.0 0 0 3 1 in 0 0 20 4 view 3 1; 3.0.1.1 1 -1 5 1 in 0 0 20 4 view 5 1; 4.0.0.2 5 0 15 1 in 0 0 20 4 view 15 1",
        |line: &str| mapped(alloc, line),
    )
}

#[test]
fn the_first_undefined_container_is_told(rt: HostRuntime) -> Result<(), Fail> {
    let alloc = rt.alloc();
    each_line(
        "\
100 1 | Screen/  Horizontal #h/    Static .p/    Static #f .big | .p { width: 33.333333333333333333%; } .big { width: 999999999.999999999999999999fr; } | => 2 Width
100 1 | Screen/  Vertical/    Horizontal/      Static .p/      Static .big/  Horizontal/    Static .p/    Static .big | .p { width: 33.333333333333333333%; } .big { width: 999999999.999999999999999999fr; } | => 3 Width
100 1 | Screen/  Horizontal/    Horizontal/      Static .p/      Static .big/    Static .p/    Static .big | .p { width: 33.333333333333333333%; } .big { width: 999999999.999999999999999999fr; } | => 2 Width
100 9 | Screen/  Vertical/    Static .p/    Static .big | .p { height: 33.333333333333333333%; } .big { height: 999999999.999999999999999999fr; } | => 2 Height
100 1 | Screen/  Horizontal #h/    Static .p/    Static .big | #h { display: none; } .p { width: 33.333333333333333333%; } .big { width: 999999999.999999999999999999fr; } | => 1 0 0 100 1 in 0 0 100 1 view 100 1",
        |line: &str| mapped(alloc, line),
    )
}

#[test]
fn rows_stand_as_their_sheets_say(rt: HostRuntime) -> Result<(), Fail> {
    let alloc = rt.alloc();
    each_line(
        "\
20 4 | Screen/  Horizontal/    Static \"x\"/    Static #b \"y\" | #b { width: 3fr; } | => 1 0 0 20 4 in 0 0 20 4 view 20 4; 2.0.0.0 0 0 20 4 in 0 0 20 4 view 20 4; 3.0.0.0.0.0.0 0 0 5 1 in 0 0 20 4 view 5 1; 4.0.0.0.0.0.1 5 0 15 1 in 0 0 20 4 view 15 1
20 10 | Screen/  Static \"abc\" | Screen { align: center middle; } Static { width: 6; height: 2; } | => 1 0 0 20 10 in 0 0 20 10 view 20 10; 2.0.0.0 7 4 6 2 in 0 0 20 10 view 6 2
20 10 | Screen/  Static #a \"a\"/  Static #b \"b\" | Screen { align: right bottom; } #a { width: 4; } #b { width: 7; } | => 1 0 0 20 10 in 0 0 20 10 view 20 10; 2.0.0.0 13 8 4 1 in 0 0 20 10 view 4 1; 3.0.0.1 13 9 7 1 in 0 0 20 10 view 7 1
20 10 | Screen/  Static #a \"a\"/  Static #b \"b\" | #a { margin: 1 2; } #b { margin: 3 0 0 1; } | => 1 0 0 20 10 in 0 0 20 10 view 20 10; 2.0.0.0 2 1 16 1 in 0 0 20 10 view 16 1; 3.0.0.1 1 5 19 1 in 0 0 20 10 view 19 1
20 10 | Screen/  Static #a \"a\"/  Static \"b\" | #a { offset: 3 2; } | => 1 0 0 20 10 in 0 0 20 10 view 20 10; 2.0.0.0 3 2 20 1 in 0 0 20 10 view 20 1; 3.0.0.1 0 1 20 1 in 0 0 20 10 view 20 1
20 6 | Screen/  Footer \"f\"/  Static #r \"r\"/  Static #s \"s\" | #r { dock: right; width: 4; margin: 1; } #s { height: 1fr; } | => 1 0 0 20 6 in 0 0 20 6 view 20 6; 2.0.1.0 0 5 20 1 in 0 0 20 6 view 20 1; 3.0.1.1 15 1 4 1 in 0 0 20 6 view 4 1; 4.0.0.2 0 0 14 5 in 0 0 20 6 view 14 5
20 4 | Screen/  Static #a \"a\"/  Static #b \"b\" | #a { max-width: 6; } #b { width: 2; min-width: 50%; } | => 1 0 0 20 4 in 0 0 20 4 view 20 4; 2.0.0.0 0 0 6 1 in 0 0 20 4 view 6 1; 3.0.0.1 0 1 10 1 in 0 0 20 4 view 10 1
20 6 | Screen/  Static #a \"a\" | #a { width: 4; height: 1; padding: 1 2; box-sizing: content-box; } | => 1 0 0 20 6 in 0 0 20 6 view 20 6; 2.0.0.0 0 0 8 3 in 0 0 20 6 view 4 1",
        |line: &str| mapped(alloc, line),
    )
}

#[test]
fn rows_stand_in_grids_and_beside_bars(rt: HostRuntime) -> Result<(), Fail> {
    let alloc = rt.alloc();
    each_line(
        "\
20 6 | Screen/  Grid/    Static \"a\"/    Static \"b\"/    Static \"c\" | Grid { grid-size: 2; grid-gutter: 1 2; grid-rows: 2; } | => 1 0 0 20 6 in 0 0 20 6 view 20 6; 2.0.0.0 0 0 20 6 in 0 0 20 6 view 20 6; 3.0.0.0.0.0.0 0 0 9 1 in 0 0 20 6 view 9 1; 4.0.0.0.0.0.1 11 0 9 1 in 0 0 20 6 view 9 1; 5.0.0.0.0.0.2 0 3 9 1 in 0 0 20 6 view 9 1
20 4 | Screen/  Grid/    Static #a \"a\"/    Static \"b\"/    Static \"c\" | Grid { grid-size: 2; grid-rows: 1; } #a { column-span: 2; } | => 1 0 0 20 4 in 0 0 20 4 view 20 4; 2.0.0.0 0 0 20 4 in 0 0 20 4 view 20 4; 3.0.0.0.0.0.0 0 0 20 1 in 0 0 20 4 view 20 1; 4.0.0.0.0.0.1 0 1 10 1 in 0 0 20 4 view 10 1; 5.0.0.0.0.0.2 10 1 10 1 in 0 0 20 4 view 10 1
20 10 | Screen/  Static #a \"a\"/  Static #b \"b\" | #a { height: 30%; } #b { height: 25vh; width: 50vw; } | => 1 0 0 20 10 in 0 0 20 10 view 20 10; 2.0.0.0 0 0 20 3 in 0 0 20 10 view 20 3; 3.0.0.1 0 3 10 2 in 0 0 20 10 view 10 2
20 4 | Screen/  Static \"a\" | Screen { overflow: hidden scroll; } | => 1 0 0 20 4 in 0 0 20 4 view 18 4 down; 2.0.0.0 0 0 18 1 in 0 0 18 4 view 18 1
20 4 | Screen/  Static #a \"a\"/  Static \"b\" | #a { visibility: hidden; } | => 1 0 0 20 4 in 0 0 20 4 view 20 4; 2.0.0.0 0 0 20 1 in 0 0 20 4 view 20 1; 3.0.0.1 0 1 20 1 in 0 0 20 4 view 20 1
4 4 | Screen/  Static \"ab cd ef\" | Label { } | => 1 0 0 4 4 in 0 0 4 4 view 4 4; 2.0.0.0 0 0 4 3 in 0 0 4 4 view 4 3
20 4 | Screen/  Label \"abc\" | Static { } | => 1 0 0 20 4 in 0 0 20 4 view 20 4; 2.0.0.0 0 0 3 1 in 0 0 20 4 view 3 1
20 4 | Screen/  Horizontal/    Static #a \"a\"/    Static #b \"b\" | #a { width: 4; dock: right; } #b { height: 50%; } | => 1 0 0 20 4 in 0 0 20 4 view 20 4; 2.0.0.0 0 0 20 4 in 0 0 20 4 view 20 4; 3.0.0.0.0.1.0 16 0 4 1 in 0 0 20 4 view 4 1; 4.0.0.0.0.0.1 0 0 16 2 in 0 0 20 4 view 16 2",
        |line: &str| mapped(alloc, line),
    )
}

// A container with a text of a hundred lines.
fn long_tree(alloc: Global) -> Result<Tree, Fail> {
    let mut text = String::new(alloc);
    text.push_str("Screen\n  VerticalScroll\n    Static \"l1")?;
    for number in 2..101 {
        let line = format!(in alloc; "\\nl{number}")?;
        text.push_str(line.as_str())?;
    }
    text.push_str("\"\n")?;
    Ok(tree_of(alloc, text.as_str())?)
}

// The container at its end.
fn long_text(alloc: Global, line: &str) -> Result<String, Fail> {
    let (width, height) = pair_of(line)?;
    let tree = long_tree(alloc)?;
    let sheet = sheet_of(alloc, "Label { }")?;
    let scrolls = scrolls_of(alloc, "2:0 999")?;
    match map_of(alloc, &sheet, &tree, &scrolls, Size { width, height })? {
        Ok(map) => entry_line(alloc, &map, NodeId(2)),
        Err(_) => Err(Fail::from("a map")),
    }
}

fn entry_line(alloc: Global, map: &LayoutMap, node: NodeId) -> Result<String, Fail> {
    match map.entry(node) {
        Some(entry) => entry_text(alloc, entry),
        None => Ok(String::from_str(alloc, "nowhere")?),
    }
}

#[test]
fn a_long_text_scrolls_to_its_end(rt: HostRuntime) -> Result<(), Fail> {
    let alloc = rt.alloc();
    each_line(
        "\
20 10 => 2.0.0.0 0 0 20 10 in 0 0 20 10 view 18 10 down over 0 90 scroll 0 90
20 200 => 2.0.0.0 0 0 20 200 in 0 0 20 200 view 20 200
1 1 => 2.0.0.0 0 0 1 1 in 0 0 1 1 view 0 1 down over 0 99 scroll 0 99",
        |line: &str| long_text(alloc, line),
    )
}
