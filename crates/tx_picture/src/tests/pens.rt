//! The pens of cells of pictures.

use super::{colour_text, picture_by};
use std::alloc::Global;
use std::rt::HostRuntime;
use std::test::Fail;
use tx_expect::each_line;
use tx_test_kit::pair_of;

// The fore and the back of a cell: `X Y : ` stands before what the picture is made of.
fn pen_at(alloc: Global, line: &str) -> Result<String, Fail> {
    let (place, line) = line.split_once(" : ").ok_or("a place")?;
    let (x, y) = pair_of(place)?;
    let (grid, _) = picture_by(alloc, line)?;
    let size = grid.size();
    if x >= size.width || y >= size.height {
        return Err(Fail::from("a cell"));
    }
    let pen = grid.at(x, y).pen();
    let fore = colour_text(alloc, pen.fore)?;
    let back = colour_text(alloc, pen.back)?;
    Ok(format!(in alloc; "{fore} on {back}")?)
}

#[test]
fn backgrounds_lie_over_those_of_the_ancestors(rt: HostRuntime) -> Result<(), Fail> {
    let alloc = rt.alloc();
    each_line(
        "\
0 0 : 4 1 | Screen | Label { } || => e0e0e0 on 121212
0 0 : 4 1 | Screen/  Vertical #p/    Static #s \"a\" | #p { background: red 50%; } || => e0e0e0 on 890909
0 0 : 4 1 | Screen/  Vertical #p/    Static #s \"a\" | #p { background: red 50%; } #s { background: blue 50%; } || => e0e0e0 on 450584
0 0 : 4 1 | Screen/  Vertical #p/    Vertical/      Static #s \"a\" | #p { background: red 50%; } #s { background: blue 50%; } || => e0e0e0 on 450584
0 0 : 4 1 | Screen/  Vertical #p/    Static #s \"a\" | #p { visibility: hidden; background: red 50%; } #s { visibility: visible; background: blue 50%; } || => e0e0e0 on 450584
0 0 : 4 1 | Screen/  Static #s \"a\" | Screen { background: white; } #s { background: black 40%; } || => e0e0e0 on 999999",
        |line: &str| pen_at(alloc, line),
    )
}

#[test]
fn blanks_of_halves_have_the_pen_of_their_row(rt: HostRuntime) -> Result<(), Fail> {
    let alloc = rt.alloc();
    each_line(
        "\
1 0 : 3 1 | Screen/  Horizontal #h/    Static #s \"a世\" | #h { width: 2; overflow: hidden; background: blue; } #s { width: 3; background: red; } || => e0e0e0 on ff0000
2 0 : 3 1 | Screen/  Horizontal #h/    Static #s \"a世\" | #h { width: 2; overflow: hidden; background: blue; } #s { width: 3; background: red; } || => e0e0e0 on 121212
0 0 : 3 1 | Screen/  Static #s \"世a\" | #s { offset: -1 0; width: 3; background: red; } || => e0e0e0 on ff0000
1 0 : 4 1 | Screen/  Static #w \"世\" | #w { background: red; } || => e0e0e0 on ff0000",
        |line: &str| pen_at(alloc, line),
    )
}

#[test]
fn the_theme_counts(rt: HostRuntime) -> Result<(), Fail> {
    let alloc = rt.alloc();
    each_line(
        "\
0 0 : 4 1 | Screen/  Static #s \"a\" | Label { } |light| => 1f1f1f on e0e0e0
0 0 : 4 1 | Screen/  Static #s \"a\" | #s { background: red 50%; } |light| => 1f1f1f on f07070
3 0 : 4 1 | Screen/  Static #s \"a\" | Label { } |light| => 1f1f1f on e0e0e0",
        |line: &str| pen_at(alloc, line),
    )
}
