use crate::{
    cells_text, files_of, grid_of, grid_text, lines_of, number_of, pair_of, sheet_of, tree_of,
    tree_text, words_of,
};
use std::test::Fail;
use tx_cell::Pen;
use tx_expect::expect;
use tx_geom::Size;
use tx_io::{Files, LoadFault};

#[test]
fn trees_and_sheets_are_made_of_texts(rt: HostRuntime) -> Result<(), Fail> {
    let alloc = rt.alloc();
    let text = "Screen\n  Vertical #a .b\n    Label \"c\"\n";
    let tree = tree_of(alloc, text)?;
    expect(tree_text(alloc, &tree)?.as_str() == text, "a tree's text")?;
    let sheet = sheet_of(alloc, "A { width: 1; } B {}")?;
    expect(sheet.rules().as_slice().len() == 2, "its rules")
}

#[test]
fn grids_are_made_of_texts(rt: HostRuntime) -> Result<(), Fail> {
    let alloc = rt.alloc();
    let size = Size {
        width: 4,
        height: 3,
    };
    let grid = grid_of(alloc, size, "ab\n\u{4e16}c", Pen::WHITE_ON_BLACK)?;
    let text = grid_text(alloc, &grid)?;
    expect(text.as_str() == "ab  \n\u{4e16}c \n    \n", "a grid's text")
}

#[test]
fn words_and_files_are_made_of_texts(rt: HostRuntime) -> Result<(), Fail> {
    let alloc = rt.alloc();
    expect(words_of(alloc, &["tx", "check"])?.len() == 2, "two words")?;
    let mut files = files_of(alloc, &[("a", b"one"), ("b", b"two")], &[2])?;
    for wanted in [Ok(3), Err(LoadFault::Failed), Ok(3)] {
        let found = match files.load(alloc, "b", 9) {
            Ok(bytes) => Ok(bytes.len()),
            Err(fault) => Err(fault),
        };
        expect(found == wanted, "a load")?;
    }
    Ok(())
}

#[test]
fn grids_are_shown_by_their_cells(rt: HostRuntime) -> Result<(), Fail> {
    let alloc = rt.alloc();
    let size = Size {
        width: 3,
        height: 2,
    };
    let mut pen = Pen::WHITE_ON_BLACK;
    pen.style.reverse = true;
    let grid = grid_of(alloc, size, "a\n\u{4e16}", pen)?;
    let text = cells_text(alloc, &grid)?;
    expect(text.as_str() == "a'.'.'/\u{4e16}'_'.'", "a grid's cells")
}

#[test]
fn words_are_numbers(rt: HostRuntime) -> Result<(), Fail> {
    let lines = lines_of(rt.alloc(), "ab//c")?;
    expect(lines.as_str() == "ab\n\nc\n", "three lines")?;
    expect(pair_of("12 0")? == (12, 0), "two numbers")?;
    expect(number_of("65536")? == 65_536, "a number")
}
