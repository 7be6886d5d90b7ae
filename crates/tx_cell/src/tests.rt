//! Cells, strips, grids and wrapped lines against tables worked out by hand.

ghost use Rattle.std.specs.Prelude.{◌≡◌, ◌+◌, ◌<◌, ◌≤◌, ◌^◌, false, length};
ghost use Rattle.tx_cell.specs.Strip.{joined};

use crate::{
    Cell, Cropped, Grid, Pen, Strip, TextStyle, align, begins_plain, cells_of, is_plain, join,
    lines_of, measure, wrap,
};
use std::alloc::{AllocError, Global};
use std::process::Abort;
use std::test::Fail;
use tx_geom::{Rgb, Size};

fn pen(red: u8) -> Pen {
    Pen {
        fore: Rgb { r: red, g: 0, b: 0 },
        ..Pen::default()
    }
}

// The texts of cells with a bar behind each, where a tail is `.`.
fn texts(alloc: Global, cells: &[Cell]) -> Result<String, AllocError> {
    let mut all = String::new(alloc);
    for cell in cells {
        all.push_str(if cell.tail() { "." } else { cell.text() })?;
        all.push('|')?;
    }
    Ok(all)
}

fn texts_of(alloc: Global, line: &str) -> Result<String, AllocError>
    requires { length line.now < 2 ^ 32 }
{
    texts(alloc, cells_of(alloc, line, pen(1))?.as_slice())
}

fn check_texts(
    rt: &impl Abort,
    alloc: Global,
    cells: &[Cell],
    expected: &str,
) -> Result<(), AllocError> {
    let found = texts(alloc, cells)?;
    assert_eq!(rt; found.as_str(), expected);
    Ok(())
}

// The cell of a text, by its text and its width.
fn check_cell(rt: &impl Abort, text: &str, expected: Option<(&str, u32)>) {
    let cell = Cell::of(text, pen(7));
    assert_eq!(rt; cell.is_some(), expected.is_some(), "{text:?}");
    if let (Some(cell), Some((shown, width))) = (cell, expected) {
        assert_eq!(rt; cell.text(), shown, "{text:?}");
        assert_eq!(rt; cell.width(), width, "{text:?}");
        assert!(rt; !cell.tail());
        assert!(rt; cell.pen() == pen(7));
    }
}

const REPLACED: Option<(&str, u32)> = Some(("\u{FFFD}", 1));

#[test]
fn clusters_have_their_cells(rt: HostRuntime) {
    let family = "\u{1F468}\u{200D}\u{1F469}\u{200D}\u{1F467}";
    let jamo = "\u{1112}\u{1161}\u{11AB}";
    for (text, expected) in [
        ("a", Some(("a", 1))),
        (" ", Some((" ", 1))),
        ("~", Some(("~", 1))),
        ("\u{2500}", Some(("\u{2500}", 1))),
        ("\u{E9}", Some(("\u{E9}", 1))),
        ("e\u{301}", Some(("e\u{301}", 1))),
        ("\u{4E16}", Some(("\u{4E16}", 2))),
        ("\u{D55C}", Some(("\u{D55C}", 2))),
        (jamo, Some((jamo, 2))),
        ("\u{1F1EB}\u{1F1F7}", Some(("\u{1F1EB}\u{1F1F7}", 2))),
        (family, Some((family, 2))),
        ("1\u{FE0F}\u{20E3}", Some(("1\u{FE0F}\u{20E3}", 2))),
        ("\u{2764}\u{FE0F}", Some(("\u{2764}\u{FE0F}", 2))),
        ("\t", Some((" ", 1))),
        ("\u{1}", REPLACED),
        ("\n", REPLACED),
        ("\r\n", REPLACED),
        ("\u{7F}", REPLACED),
        ("\u{85}", REPLACED),
        ("\u{FFFD}", REPLACED),
        ("\u{17D8}", REPLACED),
        ("ab", REPLACED),
        ("\u{4E16}\u{4E16}", REPLACED),
        ("", None),
        ("\u{301}", None),
        ("\u{200B}", None),
        ("\u{AD}", None),
    ] {
        check_cell(&rt, text, expected);
    }
}

#[test]
fn plain_characters_are_told(rt: HostRuntime) {
    for (character, expected) in [
        ('\u{1F}', false),
        (' ', true),
        ('~', true),
        ('\u{7F}', false),
        ('\u{24FF}', false),
        ('\u{2500}', true),
        ('\u{259F}', true),
        ('\u{25A0}', false),
    ] {
        assert_eq!(rt; is_plain(character), expected, "{character:?}");
    }
    for (text, expected) in [("", false), ("a\u{301}", true), ("\u{301}a", false)] {
        assert_eq!(rt; begins_plain(text), expected, "{text:?}");
    }
}

#[test]
fn long_clusters_are_replaced(rt: HostRuntime) -> Result<(), Fail> {
    let alloc = rt.alloc();
    // The letter has 2 bytes, and so has each mark: 15 marks make 32 bytes, and 19 make 40.
    let mut text = String::from_str(alloc, "\u{E9}")?;
    for count in 1..=19 {
        text.push('\u{301}')?;
        let expected = if count <= 15 {
            Some((text.as_str(), 1))
        } else {
            REPLACED
        };
        check_cell(&rt, text.as_str(), expected);
    }
    assert_eq!(rt; text.len(), 40);
    let one = texts_of(alloc, text.as_str())?;
    assert_eq!(rt; one.as_str(), "\u{FFFD}|");
    Ok(())
}

#[test]
fn lines_have_the_cells_of_their_clusters(rt: HostRuntime) -> Result<(), Fail> {
    let alloc = rt.alloc();
    for (line, expected) in [
        ("", ""),
        ("ab", "a|b|"),
        ("a\tb", "a| |b|"),
        ("a\u{4E16}b", "a|\u{4E16}|.|b|"),
        ("a\r\nb", "a|\u{FFFD}|b|"),
        ("\u{AD}a\u{200B}b", "a|b|"),
        ("e\u{301}\u{D55C}", "e\u{301}|\u{D55C}|.|"),
        (
            "\u{1F1EB}\u{1F1F7}\u{1F1EB}",
            "\u{1F1EB}\u{1F1F7}|.|\u{1F1EB}|",
        ),
    ] {
        assert!(rt; line.len() < 100);
        let found = texts_of(alloc, line)?;
        assert_eq!(rt; found.as_str(), expected, "{line:?}");
    }
    Ok(())
}

#[test]
fn cells_are_small_and_compared_by_all_parts(rt: HostRuntime) -> Result<(), Fail> {
    assert_eq!(rt; size_of::<Cell>(), 46);
    let bold = Pen {
        style: TextStyle {
            bold: true,
            ..TextStyle::default()
        },
        ..Pen::default()
    };
    let blank = Cell::blank(pen(1));
    assert!(rt; blank == Cell::of(" ", pen(1)).ok_or("no cell")?);
    assert!(rt; blank != Cell::blank(pen(2)));
    assert!(rt; Cell::blank(bold) != Cell::blank(Pen::default()));
    assert!(rt; blank != Cell::of("a", pen(1)).ok_or("no cell")?);
    let tail = Cell::tail_of(pen(1));
    assert!(rt; tail != blank);
    assert!(rt; tail.tail());
    assert_eq!(rt; tail.text(), "");
    assert_eq!(rt; tail.width(), 0);
    Ok(())
}

#[test]
fn parts_have_blanks_for_cut_halves(rt: HostRuntime) -> Result<(), Fail> {
    let alloc = rt.alloc();
    let strip = cells_of(alloc, "a\u{4E16}b", pen(1))?;
    assert_eq!(rt; strip.len(), 4);
    for (from, to, expected) in [
        (0, 4, "a|\u{4E16}|.|b|"),
        (0, 2, "a| |"),
        (2, 4, " |b|"),
        (1, 3, "\u{4E16}|.|"),
        (1, 2, " |"),
        (2, 3, " |"),
        (3, 3, ""),
    ] {
        assert!(rt; from <= to && to <= 4);
        check_part(&rt, alloc, &strip.crop(from, to), to - from, expected)?;
    }
    Ok(())
}

fn check_part(
    rt: &impl Abort,
    alloc: Global,
    part: &Cropped<'_>,
    len: u32,
    expected: &str,
) -> Result<(), AllocError>
    requires { len ≤ length part.now }
{
    let mut cells = Vec::new(alloc);
    for x in 0..len {
        let cell = part.at(x);
        assert!(rt; cell.pen() == pen(1));
        cells.push(cell)?;
    }
    check_texts(rt, alloc, &cells, expected)
}

fn check_parts(
    rt: &impl Abort,
    alloc: Global,
    parts: &[Strip],
    expected: &[&str],
) -> Result<(), AllocError> {
    assert_eq!(rt; parts.len(), expected.len());
    for (part, expected) in parts.iter().zip(expected) {
        check_texts(rt, alloc, part.as_slice(), expected)?;
    }
    Ok(())
}

#[test]
fn strips_are_divided_and_joined(rt: HostRuntime) -> Result<(), Fail> {
    let alloc = rt.alloc();
    let strip = cells_of(alloc, "a\u{4E16}b", pen(1))?;
    assert_eq!(rt; strip.len(), 4);
    let parts = strip.divide(&[2])?;
    check_parts(&rt, alloc, &parts, &["a| |", " |b|"])?;
    check_joined(&rt, alloc, &parts, "a| | |b|")?;
    check_parts(
        &rt,
        alloc,
        &strip.divide(&[0, 3, 3])?,
        &["", "a|\u{4E16}|.|", "", "b|"],
    )?;
    Ok(())
}

fn check_joined(
    rt: &impl Abort,
    alloc: Global,
    parts: &[Strip],
    expected: &str,
) -> Result<(), AllocError>
    requires { length (joined parts.now) < 2 ^ 32 }
{
    let joined = join(alloc, parts)?;
    check_texts(rt, alloc, joined.as_slice(), expected)
}

// The lines that a text becomes at a width, each with a line feed behind it.
fn wrapped(alloc: Global, text: &str, width: u32) -> Result<String, AllocError>
    requires { length text.now < 2 ^ 32 }
{
    let mut all = String::new(alloc);
    for line in &wrap(alloc, text, width, pen(1))? {
        for cell in line.as_slice() {
            all.push_str(cell.text())?;
        }
        all.push('\n')?;
    }
    Ok(all)
}

#[test]
fn texts_are_wrapped(rt: HostRuntime) -> Result<(), Fail> {
    let alloc = rt.alloc();
    for (text, width, expected) in [
        ("", 0, ""),
        ("", 3, ""),
        ("ab cd\u{4E16}", 4, "ab\ncd\u{4E16}\n"),
        ("abcdef", 4, "abcd\nef\n"),
        ("  abc", 2, "\nab\nc\n"),
        ("\u{4E16}", 1, "\u{FFFD}\n"),
        // At no width there is one empty line for each line of the text.
        ("ab\ncd", 0, "\n\n"),
        ("ab\n", 2, "ab\n\n"),
        ("a\r\nb", 2, "a\nb\n"),
        ("\n", 2, "\n\n"),
        // One text at each width.
        ("to be  or not", 1, "t\no\nb\ne\no\nr\nn\no\nt\n"),
        ("to be  or not", 2, "to\nbe\nor\nno\nt\n"),
        ("to be  or not", 3, "to\nbe\nor\nnot\n"),
        ("to be  or not", 4, "to\nbe\nor\nnot\n"),
        ("to be  or not", 5, "to be\nor\nnot\n"),
        ("to be  or not", 6, "to be\nor not\n"),
        ("to be  or not", 7, "to be\nor not\n"),
        ("to be  or not", 8, "to be\nor not\n"),
        ("to be  or not", 9, "to be  or\nnot\n"),
        ("to be  or not", 13, "to be  or not\n"),
        // Blanks at the end are kept where the line fits and dropped at a break.
        ("ab  ", 4, "ab  \n"),
        ("ab  ", 3, "ab\n"),
        ("    ", 2, "\n"),
        // A blank at the start of a line is no place to break it.
        (" ab", 2, " a\nb\n"),
        ("a\tb", 2, "a\nb\n"),
        // A wide cell at the edge goes to the next line.
        ("ab\u{4E16}", 3, "ab\n\u{4E16}\n"),
        ("\u{4E16}\u{4E16} a", 4, "\u{4E16}\u{4E16}\na\n"),
        ("a\u{4E16} b", 3, "a\u{4E16}\nb\n"),
        ("\u{4E16} ab", 2, "\u{4E16}\nab\n"),
        ("\u{4E16} a", 1, "\u{FFFD}\na\n"),
    ] {
        assert!(rt; text.len() < 100);
        let found = wrapped(alloc, text, width)?;
        assert_eq!(rt; found.as_str(), expected, "{text:?} at {width}");
    }
    Ok(())
}

#[test]
fn texts_are_measured(rt: HostRuntime) -> Result<(), Fail> {
    let alloc = rt.alloc();
    for (text, columns) in [
        ("", 0),
        ("\n", 0),
        ("abc\nd", 3),
        ("a\nb\u{4E16}c\nd", 4),
        ("ab\r\n", 2),
        ("ab\r", 3),
    ] {
        assert_eq!(rt; measure(text), columns, "{text:?}");
    }
    let mut long = String::new(alloc);
    for _ in 0..65_536 {
        long.push('a')?;
    }
    assert_eq!(rt; measure(long.as_str()), 65_535);
    let mut lines = String::new(alloc);
    for line in lines_of("ab\r\n\ncd\r") {
        lines.push_str(line)?;
        lines.push('|')?;
    }
    assert_eq!(rt; lines.as_str(), "ab||cd\r|");
    for (free, halves, before) in [
        (5, 0, 0),
        (5, 1, 2),
        (5, 2, 5),
        (0, 2, 0),
        (u32::MAX, 2, u32::MAX),
    ] {
        assert_eq!(rt; align(free, halves), before);
    }
    Ok(())
}

fn check_row(
    rt: &impl Abort,
    alloc: Global,
    grid: &Grid,
    y: u32,
    expected: &str,
) -> Result<(), AllocError> {
    assert!(rt; y < grid.size().height);
    check_texts(rt, alloc, grid.row(y), expected)
}

fn put(rt: &impl Abort, grid: &mut Grid, x: u32, text: &str, red: u8) {
    if let Some(cell) = Cell::of(text, pen(red)) {
        let size = grid.size();
        assert!(rt; size.height > 0 && x < size.width && cell.width() <= size.width - x);
        grid.put(x, 0, cell);
    }
}

#[test]
fn grids_keep_wide_cells_whole(rt: HostRuntime) -> Result<(), Fail> {
    let alloc = rt.alloc();
    let size = Size {
        width: 5,
        height: 2,
    };
    let mut grid = Grid::open(alloc, size, Cell::blank(pen(1)))?;
    check_row(&rt, alloc, &grid, 1, " | | | | |")?;
    for (x, text, red, expected) in [
        (1, "\u{4E16}", 2, " |\u{4E16}|.| | |"),
        (3, "\u{4E16}", 3, " |\u{4E16}|.|\u{4E16}|.|"),
        (2, "a", 4, " | |a|\u{4E16}|.|"),
        (2, "\u{4E16}", 5, " | |\u{4E16}|.| |"),
        (4, "b", 6, " | |\u{4E16}|.|b|"),
        (3, "c", 7, " | | |c|b|"),
    ] {
        put(&rt, &mut grid, x, text, red);
        check_row(&rt, alloc, &grid, 0, expected)?;
    }
    check_row(&rt, alloc, &grid, 1, " | | | | |")?;
    assert!(rt; grid.size() == size);
    // The blank at column 1 was made by the letter beside it, the one at column 2 by the last one.
    assert!(rt; grid.at(1, 0) == Cell::blank(pen(2)));
    assert!(rt; grid.at(2, 0) == Cell::blank(pen(5)));
    Ok(())
}

#[test]
fn strips_are_laid_over_rows(rt: HostRuntime) -> Result<(), Fail> {
    let alloc = rt.alloc();
    let size = Size {
        width: 5,
        height: 2,
    };
    let mut grid = Grid::open(alloc, size, Cell::blank(pen(1)))?;
    put(&rt, &mut grid, 1, "\u{4E16}", 2);
    put(&rt, &mut grid, 3, "\u{4E16}", 3);
    let strip = cells_of(alloc, "xy", pen(4))?;
    assert_eq!(rt; strip.len(), 2);
    assert!(rt; grid.size() == size);
    grid.lay(2, 0, &strip);
    check_row(&rt, alloc, &grid, 0, " | |x|y| |")?;
    grid.lay(1, 1, &strip);
    check_row(&rt, alloc, &grid, 1, " |x|y| | |")?;
    let mut other = Grid::open(alloc, size, Cell::blank(pen(5)))?;
    assert!(rt; other.size() == grid.size());
    other.take_over(&grid);
    check_row(&rt, alloc, &other, 0, " | |x|y| |")?;
    check_row(&rt, alloc, &other, 1, " |x|y| | |")?;
    Ok(())
}

#[test]
fn a_row_is_taken_from_another_grid(rt: HostRuntime) -> Result<(), Fail> {
    let size = Size {
        width: 3,
        height: 2,
    };
    let mut from = Grid::open(rt.alloc(), size, Cell::blank(pen(1)))?;
    put(&rt, &mut from, 0, "\u{4E16}", 2);
    let mut grid = Grid::open(rt.alloc(), size, Cell::blank(pen(4)))?;
    put(&rt, &mut grid, 1, "\u{4E16}", 3);
    assert!(rt; from.size() == size && grid.size() == size);
    grid.take_row(&from, 1);
    check_row(&rt, rt.alloc(), &grid, 0, " |\u{4E16}|.|")?;
    assert!(rt; grid.row(1) == from.row(1));
    grid.take_row(&from, 0);
    check_row(&rt, rt.alloc(), &grid, 0, "\u{4E16}|.| |")?;
    assert!(rt; grid.row(0) == from.row(0));
    Ok(())
}

#[test]
fn a_grid_is_filled(rt: HostRuntime) -> Result<(), Fail> {
    let size = Size {
        width: 3,
        height: 2,
    };
    let mut grid = Grid::open(rt.alloc(), size, Cell::blank(pen(1)))?;
    put(&rt, &mut grid, 0, "\u{4E16}", 2);
    grid.fill(Cell::blank(pen(3)));
    check_row(&rt, rt.alloc(), &grid, 0, " | | |")?;
    check_row(&rt, rt.alloc(), &grid, 1, " | | |")?;
    assert!(rt; grid.size() == size);
    assert!(rt; grid.at(0, 0) == Cell::blank(pen(3)));
    assert!(rt; grid.at(2, 1) == Cell::blank(pen(3)));
    Ok(())
}
