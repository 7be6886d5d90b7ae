//! The colours and marks that a terminal shows.

use super::terminal_by;
use std::alloc::Global;
use std::rt::HostRuntime;
use std::test::Fail;
use tx_cell::Pen;
use tx_expect::each_line;
use tx_geom::Rgb;
use tx_test_kit::pair_of;

fn colour_text(alloc: Global, colour: Rgb) -> Result<String, Fail> {
    Ok(format!(in alloc; "{:02x}{:02x}{:02x}", colour.r, colour.g, colour.b)?)
}

// The marks of a pen, each after a blank.
fn marks_text(alloc: Global, pen: Pen) -> Result<String, Fail> {
    let style = pen.style;
    let mut text = String::new(alloc);
    for (has, mark) in [
        (style.bold, " bold"),
        (style.dim, " dim"),
        (style.italic, " italic"),
        (style.underline, " underline"),
        (style.strike, " strike"),
        (style.reverse, " reverse"),
    ] {
        if has {
            text.push_str(mark)?;
        }
    }
    Ok(text)
}

// The fore and the back of a pen, and its marks.
fn pen_text(alloc: Global, pen: Pen) -> Result<String, Fail> {
    let fore = colour_text(alloc, pen.fore)?;
    let back = colour_text(alloc, pen.back)?;
    let marks = marks_text(alloc, pen)?;
    Ok(format!(in alloc; "{fore} on {back}{marks}")?)
}

// The pen of a cell: `X Y : ` stands before what is shown.
fn pen_at(alloc: Global, line: &str) -> Result<String, Fail> {
    let (place, line) = line.split_once(" : ").ok_or("a place")?;
    let (x, y) = pair_of(place)?;
    let terminal = terminal_by(alloc, line)?;
    let size = terminal.grid().size();
    if x >= size.width || y >= size.height {
        return Err(Fail::from("a cell"));
    }
    pen_text(alloc, terminal.grid().at(x, y).pen())
}

#[test]
fn kinds_have_their_colours(rt: HostRuntime) -> Result<(), Fail> {
    let alloc = rt.alloc();
    each_line(
        "\
0 0 : 16 3 | Screen/  Button \"Go\" | Label { } | => ffffff on 1e1e1e
0 0 : 16 3 | Screen/  Button \"Go\" | Label { } |light => 000000 on d8d8d8
0 0 : 6 3 | Screen/  Header \"a\"/  Footer \"b\" | Label { } | => ffffff on 0178d4
0 2 : 6 3 | Screen/  Header \"a\"/  Footer \"b\" | Label { } | => ffffff on 242f38
0 0 : 6 3 | Screen/  Input \"a\" | Label { } | => 242f38 on 121212
0 0 : 6 3 | Screen/  Input \"a\" | Label { } |focus 2 => 0178d4 on 121212
1 1 : 6 3 | Screen/  Input \"a\" | Label { } | => e0e0e0 on 121212
0 0 : 4 1 | Screen/  Static \"a\" | Label { } | => e0e0e0 on 121212
0 0 : 4 1 | Screen/  Static \"a\" | Label { } |light => 1f1f1f on e0e0e0",
        |line: &str| pen_at(alloc, line),
    )
}

#[test]
fn colours_are_blended(rt: HostRuntime) -> Result<(), Fail> {
    let alloc = rt.alloc();
    each_line(
        "\
0 0 : 4 1 | Screen/  Static #s \"a\" | #s { color: red 50%; } | => 890909 on 121212
0 0 : 4 1 | Screen/  Static #s \"a\" | #s { background: red 50%; color: white 50%; } | => c48484 on 890909
0 0 : 4 3 | Screen/  Static #s \"a\" | #s { background: blue; border: solid red 50%; } | => 800080 on 0000ff
0 0 : 4 1 | Screen/  Static \"a\" | Screen { background: red 50%; } | => e0e0e0 on 800000
0 0 : 4 1 | Screen/  Static #s \"a\" | #s { background: transparent; } | => e0e0e0 on 121212",
        |line: &str| pen_at(alloc, line),
    )
}

#[test]
fn marks_are_written(rt: HostRuntime) -> Result<(), Fail> {
    let alloc = rt.alloc();
    each_line(
        "\
0 0 : 4 1 | Screen/  Static #s \"a\" | #s { text-style: bold underline; } | => e0e0e0 on 121212 bold underline
0 0 : 4 1 | Screen/  Vertical #v/    Static #s \"a\" | #v { text-style: bold; } #s { text-style: italic; } | => e0e0e0 on 121212 bold italic
0 0 : 4 1 | Screen/  Static #s \"a\" | #s { text-style: dim strike; } | => e0e0e0 on 121212 dim strike
0 0 : 16 3 | Screen/  Button #s \"a\" | Label { } |focus 2 => ffffff on 1e1e1e reverse",
        |line: &str| pen_at(alloc, line),
    )
}
