//! Pictures as text.

use super::picture_by;
use std::alloc::Global;
use std::rt::HostRuntime;
use std::test::Fail;
use tx_expect::{each_line, expect};
use tx_test_kit::cells_text;

// The cells of a picture; each is counted once.
fn shown(alloc: Global, line: &str) -> Result<String, Fail> {
    let (grid, count) = picture_by(alloc, line)?;
    let size = grid.size();
    expect(
        count == size.width as u64 * size.height as u64,
        "each cell is counted once",
    )?;
    Ok(cells_text(alloc, &grid)?)
}

#[test]
fn halves_of_wide_clusters_are_blank(rt: HostRuntime) -> Result<(), Fail> {
    let alloc = rt.alloc();
    each_line(
        "\
4 1 | Screen/  Static #w \"世\"/  Static #u \"x\" | Screen { layers: low high; } #u { layer: high; width: 1; height: 1; offset: 1 0; } || => .x..
4 1 | Screen/  Static #w \"世\"/  Static #u \"x\" | Screen { layers: low high; } #u { layer: high; width: 1; height: 1; } || => x...
4 1 | Screen/  Static #w \"世\"/  Static #u \"x\" | Screen { layers: low high; } #u { layer: high; width: 1; height: 1; offset: 2 0; } || => 世_x.
4 1 | Screen/  Static #w \"世\" | Label { } || => 世_..
3 1 | Screen/  Static #s \"世a\" | #s { offset: -1 0; width: 3; } || => .a.
2 1 | Screen/  Static #s \"a世\" | Screen { overflow: hidden; } #s { width: 3; } || => a.
3 1 | Screen/  Horizontal #h/    Static #s \"a世\" | #h { width: 2; overflow: hidden; } #s { width: 3; } || => a..
4 1 | Screen/  Static #s \"世界\"/  Static #u \"語\" | Screen { layers: low high; } #u { layer: high; width: 2; height: 1; offset: 1 0; } || => .語_.",
        |line: &str| shown(alloc, line),
    )
}

#[test]
fn rows_show_what_they_draw(rt: HostRuntime) -> Result<(), Fail> {
    let alloc = rt.alloc();
    each_line(
        "\
20 4 | Screen/  Static #a \"a\"/  Static #b \"b\"/  Static \"c\" | #a { dock: left; width: 3; } #b { dock: left; width: 5; } || => b....c............../..................../..................../....................
6 3 | Screen/  Static #s \"ab\" | #s { border: solid red; width: 6; height: 3; } || => ┌────┐/│ab..│/└────┘
6 3 | Screen/  Static #s \"ab\" | Screen { border: round red; padding: 0 1; } || => ╭────╮/│.ab.│/╰────╯
6 3 | Screen/  Static #s \"a\" | Screen { padding: 1 2; } #s { border-left: heavy red; } || => ....../..┃a../......
6 3 | Screen/  VerticalScroll/    Static \"a\\nb\\nc\\nd\\ne\\nf\" | Label { } || => a...██/b...░░/c...░░
6 3 | Screen/  VerticalScroll #v/    Static \"a\\nb\\nc\\nd\\ne\\nf\" | Label { } ||2:0 3 => d...░░/e...░░/f...██
4 1 | Screen/  Static \"a\"/  Static #u \"x\" | Screen { layers: low high; } #u { layer: high; width: 1; height: 1; visibility: hidden; } || => a...
4 1 | Screen/  Static #u \"x\"/  Static \"a\" | Screen { layers: low high; } #u { layer: high; width: 1; height: 1; } || => x...
4 2 | Screen/  Static #s \"abc\" | #s { offset: 1 1; } || => ..../.abc
4 1 | Screen | Screen { visibility: hidden; } || => ....",
        |line: &str| shown(alloc, line),
    )
}

#[test]
fn the_focus_shows(rt: HostRuntime) -> Result<(), Fail> {
    let alloc = rt.alloc();
    each_line(
        "\
4 1 | Screen/  Input #i \"ab\" | #i { border: none; padding: 0; height: 1; } |focus 2| => ab.'.
4 1 | Screen/  Input #i \"ab\" | #i { border: none; padding: 0; height: 1; } |focus 1| => ab..",
        |line: &str| shown(alloc, line),
    )
}
