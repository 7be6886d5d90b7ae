ghost use Rattle.std.specs.Prelude.{◌≡◌};

use crate::measures::rows_from;
use crate::{counts_below, measure, styled_rows};
use std::alloc::Global;
use std::rt::HostRuntime;
use std::test::Fail;
use tx_cascade::Styles;
use tx_expect::each_line;
use tx_geom::Size;
use tx_io::{Counted, Steps};
use tx_layout::LayoutFault;
use tx_parse::Sheet;
use tx_select::Pseudo;
use tx_test_kit::{sheet_of, tree_of};
use tx_tree::Tree;

const STILL: Pseudo = Pseudo {
    focused: None,
    pointed: None,
    dark: true,
};

const SCREEN: Size = Size {
    width: 80,
    height: 24,
};

// A text with line feeds in place of `/`, and one at its end.
fn lines_of(alloc: Global, text: &str) -> Result<String, Fail> {
    let mut lines = String::new(alloc);
    for line in text.split('/') {
        lines.push_str(line)?;
        lines.push_str("\n")?;
    }
    Ok(lines)
}

fn number_of(word: &str) -> Result<u32, Fail> {
    Ok(word.parse::<u32>().ok().ok_or("a number")?)
}

// A width, or `-` for none.
fn width_of(word: &str) -> Result<Option<u32>, Fail> {
    if word == "-" {
        return Ok(None);
    }
    Ok(Some(number_of(word)?))
}

// A tree, a sheet and what is asked, between ` | `.
fn parts_of(line: &str) -> Result<(&str, &str, &str), Fail> {
    let (rows, rest) = line.split_once(" | ").ok_or("a tree")?;
    let (sheet, asked) = rest.split_once(" | ").ok_or("a sheet")?;
    Ok((rows, sheet, asked))
}

fn area_of(text: &str) -> Result<Size, Fail> {
    let (columns, rows) = text.split_once(' ').ok_or("an area")?;
    Ok(Size {
        width: number_of(columns)?,
        height: number_of(rows)?,
    })
}

fn answer_text(alloc: Global, answer: Result<u32, LayoutFault>) -> Result<String, Fail> {
    match answer {
        Ok(size) => Ok(format!(in alloc; "{size}")?),
        Err(LayoutFault::Fraction { axis: _ }) => Ok(format!(in alloc; "undefined")?),
        Err(LayoutFault::NoMemory) => Err(Fail::from("no memory")),
    }
}

// What the row with a number, counted from the Screen as 1, measures.
fn measured_at(
    alloc: Global,
    tree: &Tree,
    styles: &Styles,
    number: u32,
    width: Option<u32>,
    area: Size,
) -> Result<String, Fail>
    requires { styles.now.rows ≡ tree.now.rows }
{
    let rows = styled_rows(alloc, tree, styles)?;
    let below = counts_below(alloc, &rows)?;
    if number == 0 || number as usize > rows.len() {
        return Err(Fail::from("no such row"));
    }
    let (from, counts) = rows_from(&rows, &below, number - 1);
    answer_text(alloc, measure(alloc, from, counts, SCREEN, width, area))
}

// The same of `NUMBER WIDTH COLUMNS ROWS`.
fn measured_as(alloc: Global, tree: &Tree, styles: &Styles, asked: &str) -> Result<String, Fail>
    requires { styles.now.rows ≡ tree.now.rows }
{
    let (number, rest) = asked.split_once(' ').ok_or("a row")?;
    let (width, area) = rest.split_once(' ').ok_or("a width")?;
    let number = number_of(number)?;
    let width = width_of(width)?;
    measured_at(alloc, tree, styles, number, width, area_of(area)?)
}

fn styled_and_measured(
    alloc: Global,
    tree: &Tree,
    sheet: &Sheet,
    asked: &str,
) -> Result<String, Fail> {
    let mut steps = Steps {
        ledger: Counted::default(),
    };
    let styles = Styles::open(alloc, sheet, tree, &STILL, &mut steps)?;
    measured_as(alloc, tree, &styles, asked)
}

// The same of `TREE | SHEET | NUMBER WIDTH COLUMNS ROWS`.
fn measured(alloc: Global, line: &str) -> Result<String, Fail> {
    let (rows, sheet, asked) = parts_of(line)?;
    let lines = lines_of(alloc, rows)?;
    let tree = tree_of(alloc, lines.as_str())?;
    let sheet = sheet_of(alloc, sheet)?;
    styled_and_measured(alloc, &tree, &sheet, asked)
}

#[test]
fn rows_without_children_measure(rt: HostRuntime) -> Result<(), Fail> {
    let alloc = rt.alloc();
    each_line(
        "\
Screen/  Label \"abc\" | Label { } | 2 - 20 10 => 3
Screen/  Static \"abc de\" | Label { } | 2 - 20 10 => 6
Screen/  Static \"abc de\" | Label { } | 2 4 20 10 => 2
Screen/  ProgressBar | Label { } | 2 - 20 10 => 32
Screen/  ProgressBar | Label { } | 2 5 20 10 => 1
Screen/  Checkbox \"abc\" | Label { } | 2 - 20 10 => 7
Screen/  Input \"abc\" | Label { } | 2 - 20 10 => 4
Screen/  OptionList \"a\\nbcd\\ne\" | Label { } | 2 - 20 10 => 3
Screen/  OptionList \"a\\nbcd\\ne\" | Label { } | 2 1 20 10 => 3
Screen/  Gauge | Label { } | 2 - 20 10 => 0",
        |line: &str| measured(alloc, line),
    )
}

#[test]
fn flows_measure(rt: HostRuntime) -> Result<(), Fail> {
    let alloc = rt.alloc();
    each_line(
        "\
Screen/  Vertical | Label { } | 2 - 20 10 => 0
Screen/  Vertical | Label { } | 2 20 20 10 => 0
Screen/  Vertical/    Label \"abc\"/    Label #b \"abcdef\" | Label { } | 2 - 20 10 => 6
Screen/  Vertical/    Label \"abc\"/    Label #b \"abcdef\" | Label { } | 2 2 20 10 => 2
Screen/  Horizontal/    Label \"abc\"/    Label #b \"abcdef\" | Label { } | 2 - 20 10 => 9
Screen/  Horizontal/    Label \"abc\"/    Label #b \"abcdef\" | Label { } | 2 20 20 10 => 1
Screen/  Vertical/    Static \"aa bb cc\" | Label { } | 2 - 20 10 => 20
Screen/  Vertical/    Static \"aa bb cc\" | Label { } | 2 5 20 10 => 2
Screen/  Vertical/    Label \"abc\"/    Label #b \"abcdef\" | Label { margin: 1 2; } | 2 - 20 10 => 10
Screen/  Vertical/    Label \"abc\"/    Label #b \"abcdef\" | Label { margin: 1 2; } | 2 20 20 10 => 5
Screen/  Vertical/    Label \"abc\"/    Label #b \"abcdef\" | Label { border: solid red; padding: 0 1; } | 2 - 20 10 => 10
Screen/  Vertical/    Label \"abc\"/    Label #b \"abcdef\" | Label { border: solid red; padding: 0 1; } | 2 20 20 10 => 6
Screen/  Vertical/    Label \"abc\"/    Label #b \"abcdef\" | Vertical { padding: 3; } | 2 - 20 10 => 6
Screen/  Vertical/    Label \"abc\"/    Label #b \"abcdef\" | Label { width: 50%; } | 2 - 20 10 => 10
Screen/  Vertical/    Label \"abc\"/    Label #b \"abcdef\" | Label { width: 50h; } | 2 - 20 10 => 5
Screen/  Vertical/    Label \"abc\"/    Label #b \"abcdef\" | Label { width: 50vw; } | 2 - 20 10 => 40
Screen/  Vertical/    Label \"abc\"/    Label #b \"abcdef\" | Label { width: 10; box-sizing: content-box; padding: 0 2; } | 2 - 20 10 => 14
Screen/  Vertical/    Label \"abc\"/    Label #b \"abcdef\" | Label { offset: 5 5; } | 2 - 20 10 => 6
Screen/  Vertical/    Button \"OK\" | Label { } | 2 - 20 10 => 16
Screen/  Vertical/    Button \"OK\" | Label { } | 2 20 20 10 => 3",
        |line: &str| measured(alloc, line),
    )
}

#[test]
fn layers_docks_and_grids_measure(rt: HostRuntime) -> Result<(), Fail> {
    let alloc = rt.alloc();
    each_line(
        "\
Screen/  Vertical/    Label \"abc\"/    Label #b \"abcdef\" | #b { display: none; } | 2 - 20 10 => 3
Screen/  Vertical/    Label \"abc\"/    Label #b \"abcdef\" | #b { display: none; } | 2 20 20 10 => 1
Screen/  Vertical/    Vertical #b/      Label \"abcdef\"/    Label \"ab\" | #b { width: auto; } | 2 - 20 10 => 6
Screen/  Vertical/    Vertical #b/      Label \"abcdef\"/    Label \"ab\" | #b { width: auto; display: none; } | 2 - 20 10 => 2
Screen/  Vertical/    Label \"abc\"/    Label #b \"abcdef\" | #b { dock: left; } | 2 - 20 10 => 9
Screen/  Vertical/    Label \"abc\"/    Label #b \"abcdef\" | #b { dock: left; } | 2 20 20 10 => 1
Screen/  Vertical/    Label \"abc\"/    Label #b \"abcdef\" | #b { dock: top; } | 2 - 20 10 => 3
Screen/  Vertical/    Label \"abc\"/    Label #b \"abcdef\" | #b { dock: top; } | 2 20 20 10 => 2
Screen/  Vertical/    Label \"abc\"/    Label #b \"abcdef\" | Vertical { layers: a b; } #b { layer: b; } | 2 - 20 10 => 6
Screen/  Vertical/    Label \"abc\"/    Label #b \"abcdef\" | Vertical { layers: a b; } #b { layer: b; } | 2 20 20 10 => 1
Screen/  Vertical/    Label \"abc\"/    Label #b \"abcdef\" | Screen { layers: a b; } #b { layer: b; } | 2 20 20 10 => 2
Screen/  Vertical/    Label \"abc\"/    Label #b \"abcdef\" | #b { layers: a b; layer: b; } | 2 20 20 10 => 2
Screen/  Vertical/    Vertical #b/      Label \"x\" | #b { width: auto; padding: 0 3; } Label { width: 50%; } | 2 - 20 10 => 13
Screen/  Vertical/    Horizontal/      Label \"ab\"/      Label \"cd\" | Horizontal { width: auto; height: auto; } | 2 - 20 10 => 4
Screen/  Vertical/    Horizontal/      Label \"ab\"/      Label \"cd\" | Horizontal { width: auto; height: auto; } | 2 20 20 10 => 1
Screen/  Grid/    Label \"a\"/    Label \"b\"/    Label \"c\" | Grid { grid-size: 2; grid-columns: 5 7; grid-gutter: 0 1; } | 2 - 20 10 => 13
Screen/  Grid/    Label \"a\"/    Label \"b\"/    Label \"c\" | Grid { grid-size: 2; grid-rows: 2; grid-gutter: 1 0; } | 2 20 20 10 => 5
Screen/  Grid/    Label \"a\"/    Label \"b\"/    Label \"c\" | Grid { grid-size: 3; } | 2 - 20 10 => 20
Screen/  Grid/    Label \"a\"/    Label \"b\"/    Label \"c\" | Grid { grid-size: 3; } | 2 20 20 10 => 10
Screen/  Grid/    Label \"a\"/    Label \"b\"/    Label \"c\" | Label { display: none; } | 2 - 20 10 => 0
Screen/  Horizontal/    Label \"abc\"/    Label #b \"abcdef\" | Label { width: 123456789.123456789123456789fr; } | 2 - 20 10 => undefined",
        |line: &str| measured(alloc, line),
    )
}
