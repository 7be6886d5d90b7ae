//! What the frame of a picture reports.

use super::{accepted, cell_text, opened, region_text};
use crate::{Screen, Scrolls};
use std::alloc::Global;
use std::rt::HostRuntime;
use std::test::Fail;
use tx_expect::{each_line, expect};
use tx_geom::Size;
use tx_test_kit::{grid_text, lines_of, number_of, tree_of};
use tx_tree::NodeId;
use tx_widgets::Sight;

// A screen of 8 by 4 on which a tree under a sheet is shown, its first row scrolled down by 9.
fn shown(alloc: Global, rows: &str, sheet: &str) -> Result<Screen, Fail> {
    let lines = lines_of(alloc, rows)?;
    let tree = tree_of(alloc, lines.as_str())?;
    let mut scrolls = Scrolls::new(alloc);
    scrolls.insert(NodeId(1), (3, 9))?;
    let size = Size {
        width: 8,
        height: 4,
    };
    let mut screen = opened(alloc, sheet, size)?;
    accepted(&mut screen, &tree, &scrolls, size)?;
    Ok(screen)
}

// The owner of each cell by its number, which has one digit, and `-` where it has none, also of one
// column and one row outside.
fn owners_text<S: Sight>(alloc: Global, sight: &S) -> Result<String, Fail> {
    let mut text = String::new(alloc);
    for y in 0..5 {
        for x in 0..9 {
            match sight.owner(x, y) {
                Some(node) => text.push_str(format!(in alloc; "{}", node.0)?.as_str())?,
                None => text.push_str("-")?,
            }
        }
        text.push_str("/")?;
    }
    Ok(text)
}

// What is reported of a row: `REGION shown SPOT view WIDTH HEIGHT at X Y`.
fn row_text(alloc: Global, screen: &Screen, node: NodeId) -> Result<String, Fail> {
    let region = region_text(alloc, screen.region(node))?;
    let spot = cell_text(alloc, screen.spot(node))?;
    let shown = screen.shown(node);
    let view = match screen.viewport(node) {
        Some(size) => (size.width, size.height),
        None => (0, 0),
    };
    let scroll = cell_text(alloc, screen.scroll(node))?;
    Ok(format!(in alloc;
        "{region} {shown} {spot} view {} {} at {scroll}",
        view.0, view.1
    )?)
}

// The owners or a row of a screen: `owners | TREE | SHEET` or `NODE | TREE | SHEET`.
fn reported(alloc: Global, line: &str) -> Result<String, Fail> {
    let (what, rest) = line.split_once(" | ").ok_or("what")?;
    let (rows, sheet) = rest.split_once(" | ").ok_or("a tree")?;
    let screen = shown(alloc, rows, sheet)?;
    if what == "owners" {
        return owners_text(alloc, &screen);
    }
    row_text(alloc, &screen, NodeId(number_of(what)?))
}

#[test]
fn cells_have_owners(rt: HostRuntime) -> Result<(), Fail> {
    let alloc = rt.alloc();
    each_line(
        "\
owners | Screen | Label { } => 11111111-/11111111-/11111111-/11111111-/---------/
owners | Screen/  Static #a \"a\"/  Static #b \"a\"/  Static \"a\" | #a { dock: left; width: 3; } #b { dock: left; width: 5; } => 33333444-/11111111-/11111111-/11111111-/---------/
owners | Screen/  Static #a \"a\"/  Static #b \"a\" | #b { visibility: hidden; } => 22222222-/11111111-/11111111-/11111111-/---------/
owners | Screen/  Static #a \"a\" | Screen { visibility: hidden; } => 11111111-/11111111-/11111111-/11111111-/---------/
owners | Screen/  Static #a \"a\"/  Static #b \"a\" | #a { height: 2; } #b { offset: 2 -1; width: 3; } => 22222222-/22333222-/11111111-/11111111-/---------/
owners | Screen/  Static #a \"a\" | #a { height: 9; } => 22222211-/22222211-/22222211-/22222211-/---------/",
        |line: &str| reported(alloc, line),
    )
}

#[test]
fn rows_are_reported(rt: HostRuntime) -> Result<(), Fail> {
    let alloc = rt.alloc();
    each_line(
        "\
1 | Screen/  Static #a \"a\" | #a { width: 5; } => 0 0 8 4 true 5 0 view 8 4 at 0 0
1 | Screen/  Static #a \"a\" | #a { height: 9; } => 0 0 8 4 true 6 0 view 6 4 at 0 5
2 | Screen/  Static #a \"a\" | #a { height: 9; } => 0 -5 6 9 true 0 0 view 6 9 at 0 0
2 | Screen/  Static #a \"a\" | #a { visibility: hidden; } => 0 0 8 1 false nowhere view 8 1 at 0 0
2 | Screen/  Static #a \"a\" | #a { display: none; } => nowhere false nowhere view 0 0 at nowhere
1 | Screen/  Static #a \"a\" | Screen { visibility: hidden; } => 0 0 8 4 true 0 0 view 8 4 at 0 0
2 | Screen/  Static #a \"a\"/  Static #b \"b\" | #a { dock: left; } #b { dock: left; height: 4; } => 0 0 8 1 true nowhere view 8 1 at 0 0
2 | Screen/  Static #a \"a\"/  Static #b \"b\" | Screen { overflow: hidden; } #a { offset: 20 0; } => 20 0 8 1 true nowhere view 8 1 at 0 0
9 | Screen/  Static #a \"a\" | Label { } => nowhere false nowhere view 0 0 at nowhere",
        |line: &str| reported(alloc, line),
    )
}

#[test]
fn the_next_grid_is_the_picture(rt: HostRuntime) -> Result<(), Fail> {
    let alloc = rt.alloc();
    let screen = shown(
        alloc,
        "Screen/  Static #w \"\u{4e16}a\"/  Static #u \"x\"",
        "Screen { layers: low high; } #u { layer: high; width: 1; height: 1; offset: 1 0; }",
    )?;
    let text = grid_text(alloc, screen.next())?;
    expect(
        text.as_str() == " xa     \n        \n        \n        \n",
        "the grid",
    )
}
