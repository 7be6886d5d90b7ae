//! Lines of words, broken at blanks so that they fit a width.

ghost use Rattle.std.specs.Prelude.{◌≡◌, ◌+◌, ◌<◌, ◌≤◌, ◌^◌, ◌++◌, length, map, IfSome, IfOk, OnOk};
ghost use Rattle.std.specs.List.{All};
ghost use Rattle.tx_cell.specs.Cell.{IsOfItsText};
ghost use Rattle.tx_cell.specs.Strip.{line_cells};
ghost use Rattle.tx_cell.specs.Wrap.{is_blank, narrowed, line_heads, columns, fit_count, last_blank, trimmed, skip_blanks, broken_at, next_line, lines_until, with_tails, wrapped, wrapped_line, wrapped_text, text_cells, AreLinesOf};

use crate::strip::strip_of;
use crate::{Cell, Pen, Strip, lines_of};
use std::alloc::{AllocError, Global};
use unicode_segmentation::UnicodeSegmentation;

/// The lines of a text, each wrapped at so many columns.
///
/// A line that fits is kept. Else it breaks at the last blank after its first cell and no later
/// than the first cell that doesn't fit, and the blanks before and after the break are dropped;
/// where there is no such blank it breaks before the cell that doesn't fit. What is left goes on
/// in the same way. At width 1 U+FFFD stands for a wide cell, and at width 0 each line of the text
/// is one empty line. The text has fewer than 2^32 bytes.
pub fn wrap(alloc: Global, text: &str, width: u32, pen: Pen) -> Result<Vec<Strip>, AllocError>
    requires short { length text.now < 2 ^ 32 }
    ensures lines { IfOk result (λ lines. lines.items ≡ wrapped_text width pen text.now) }
    ensures fit { IfOk result (λ lines. All (λ line. length line ≤ width) lines.items) }
    ensures whole { 2 ≤ width → IfOk result (λ lines. AreLinesOf (text_cells pen text.now) lines.items) }
{
    let mut lines = Vec::new(alloc);
    for line in lines_of(text) {
        wrap_line(&mut lines, line, width, pen)?;
    }
    Ok(lines)
}

// Adds the lines that one line of a text becomes.
#[tactic(auto, unfolding(crate::specs::Wrap::wrapped_line))]
fn wrap_line(lines: &mut Vec<Strip>, line: &str, width: u32, pen: Pen) -> Result<(), AllocError>
    requires short { length line.now < 2 ^ 32 }
    ensures lines { OnOk result (lines.new.items ≡ lines.old.items ++ wrapped_line width pen line.now) }
    ensures fit { All (λ cells. length cells ≤ width) (wrapped_line width pen line.now) }
    ensures whole { 2 ≤ width → AreLinesOf (line_cells line.now pen) (wrapped_line width pen line.now) }
{
    let heads = line_heads(*lines.allocator(), line, width, pen)?;
    wrap_cells(lines, &heads, width)
}

// Adds the lines that the cells of one line become.
fn wrap_cells(lines: &mut Vec<Strip>, cells: &[Cell], width: u32) -> Result<(), AllocError>
    requires own { All IsOfItsText cells.now }
    requires narrow { 0 < width → All (λ cell. cell.width ≤ width) cells.now }
    requires short { columns cells.now < 2 ^ 32 }
    ensures lines { OnOk result (lines.new.items ≡ lines.old.items ++ map with_tails (wrapped width cells.now)) }
{
    if width == 0 || cells.is_empty() {
        let empty = strip_of(*lines.allocator(), &[])?;
        lines.push(empty)?;
        return Ok(());
    }
    wrap_heads(lines, cells, width)
}

// The cells of the clusters of a line, without tails.
#[tactic(auto, unfolding(crate::specs::Wrap::line_heads))]
fn line_heads(alloc: Global, line: &str, width: u32, pen: Pen) -> Result<Vec<Cell>, AllocError>
    ensures heads { IfOk result (λ heads. heads.items ≡ line_heads width pen line.now) }
{
    let mut heads = Vec::new(alloc);
    for cluster in line.graphemes(true) {
        if let Some(cell) = Cell::of(cluster, pen) {
            heads.push(narrowed(width, cell))?;
        }
    }
    Ok(heads)
}

fn narrowed(width: u32, cell: Cell) -> Cell
    ensures { result ≡ narrowed width cell }
{
    if width == 1 && cell.width() > 1 {
        Cell::replacement(cell.pen())
    } else {
        cell
    }
}

// Adds the lines until nothing of these cells is left.
fn wrap_heads(lines: &mut Vec<Strip>, cells: &[Cell], width: u32) -> Result<(), AllocError>
    requires own { All IsOfItsText cells.now }
    requires narrow { All (λ cell. cell.width ≤ width) cells.now }
    requires short { columns cells.now < 2 ^ 32 }
    ensures lines { OnOk result (lines.new.items
        ≡ lines.old.items ++ map with_tails (lines_until (length cells.now) width cells.now)) }
{
    let alloc = *lines.allocator();
    let mut rest = cells;
    while !rest.is_empty() {
        let (line, behind) = next_line(rest, width);
        lines.push(strip_of(alloc, line)?)?;
        rest = behind;
    }
    Ok(())
}

fn next_line(cells: &[Cell], width: u32) -> (&[Cell], &[Cell])
    ensures line { result.0.now ≡ (next_line width cells.now).0 }
    ensures rest { result.1.now ≡ (next_line width cells.now).1 }
{
    let count = fit_count(cells, width);
    if count == cells.len() {
        (cells, &[])
    } else {
        broken_at(last_blank(&cells[1..count + 1]), count, cells)
    }
}

// Cells that don't all fit, where `count` fit and a blank stands at the index after `blank`.
fn broken_at(blank: Option<usize>, count: usize, cells: &[Cell]) -> (&[Cell], &[Cell])
    requires inside { IfSome blank (λ index. index < length cells.now) }
    requires fitting { count ≤ length cells.now }
    ensures line { result.0.now ≡ (broken_at blank count cells.now).0 }
    ensures rest { result.1.now ≡ (broken_at blank count cells.now).1 }
{
    match blank {
        None => cells.split_at(count),
        Some(index) => {
            let (line, rest) = cells.split_at(index + 1);
            (trimmed(line), skip_blanks(rest))
        }
    }
}

fn fit_count(cells: &[Cell], width: u32) -> usize
    ensures count { result ≡ fit_count width cells.now }
    ensures inside { result ≤ length cells.now }
{
    let mut room = width;
    for (count, cell) in cells.iter().enumerate() {
        if cell.width() > room {
            return count;
        }
        room -= cell.width();
    }
    cells.len()
}

fn last_blank(cells: &[Cell]) -> Option<usize>
    ensures index { result ≡ last_blank cells.now }
    ensures inside { IfSome result (λ index. index < length cells.now) }
{
    for index in (0..cells.len()).rev() {
        if is_blank(&cells[index]) {
            return Some(index);
        }
    }
    None
}

fn trimmed(cells: &[Cell]) -> &[Cell]
    ensures { result.now ≡ trimmed cells.now }
{
    let mut end = cells.len();
    while end > 0 && is_blank(&cells[end - 1]) {
        end -= 1;
    }
    &cells[..end]
}

fn skip_blanks(cells: &[Cell]) -> &[Cell]
    ensures { result.now ≡ skip_blanks cells.now }
{
    for (start, cell) in cells.iter().enumerate() {
        if !is_blank(cell) {
            return &cells[start..];
        }
    }
    &[]
}

fn is_blank(cell: &Cell) -> bool
    ensures { result ≡ is_blank cell.now }
{
    matches!(cell.text().as_bytes(), [b' '])
}
