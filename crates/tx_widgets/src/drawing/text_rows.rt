//! The rows of wrapped lines.

ghost use Rattle.std.specs.Prelude.{◌≡◌, ◌≤◌, length, slice_get, IfOk};
ghost use Rattle.std.specs.Option.{option_copied};
ghost use Rattle.tx_widgets.specs.Drawing.{lines_row};
ghost use Rattle.tx_widgets.specs.TextRows.{halves_across, halves_down, placed, start_column, top_row, widest_of};

use crate::drawing::face::Face;
use crate::drawing::pieces::{blanks, join_two, window};
use std::alloc::Global;
use tx_cell::{Pen, Strip, align};
use tx_geom::{AlignX, AlignY};
use tx_text::NoMemory;

// How many halves of the free columns stand before what is aligned.
fn halves_across(to: AlignX) -> u8
    ensures halves { result ≡ halves_across to }
    ensures few { result ≤ 2 }
{
    match to {
        AlignX::Left => 0,
        AlignX::Center => 1,
        AlignX::Right => 2,
    }
}

// The same for rows.
fn halves_down(to: AlignY) -> u8
    ensures halves { result ≡ halves_down to }
    ensures few { result ≤ 2 }
{
    match to {
        AlignY::Top => 0,
        AlignY::Middle => 1,
        AlignY::Bottom => 2,
    }
}

// The columns of the widest of these lines.
pub(crate) fn widest_of(lines: &[Strip]) -> u32
    ensures { result ≡ widest_of lines.now }
{
    let mut widest = 0;
    for line in lines {
        widest = widest.max(line.len());
    }
    widest
}

// The column in which a line of so many columns begins.
fn start_column(text: AlignX, content: AlignX, width: u32, widest: u32, columns: u32) -> u32
    ensures column { result ≡ start_column text content width widest columns }
    ensures inside { result ≤ width }
{
    match text {
        AlignX::Left => align(width.saturating_sub(widest), halves_across(content)),
        AlignX::Center => align(width.saturating_sub(columns), 1),
        AlignX::Right => align(width.saturating_sub(columns), 2),
    }
}

// The row in which so many lines begin.
fn top_row(content: AlignY, height: u32, count: usize) -> u32
    ensures { result ≡ top_row content height count }
{
    let free = (height as usize).saturating_sub(count);
    align(free as u32, halves_down(content))
}

// A row in which a line begins in a column.
fn placed(alloc: Global, start: u32, width: u32, pen: Pen, line: &Strip) -> Result<Strip, NoMemory>
    requires inside { start ≤ width }
    ensures width { IfOk result (λ row. length row ≡ width) }
    ensures row { IfOk result (λ row. row ≡ placed start width pen line.now) }
{
    let before = blanks(alloc, start, pen)?;
    let shown = window(alloc, line, 0, width - start, pen)?;
    join_two(alloc, before, shown)
}

// The line with this number, if there is one.
fn line_at(lines: &[Strip], number: u32) -> Option<&Strip>
    ensures { option_copied result ≡ slice_get lines.now number }
{
    let number = number as usize;
    if number < lines.len() {
        Some(&lines[number])
    } else {
        None
    }
}

// Row `y` of lines of which the widest has so many columns.
#[tactic(auto, unfolding(crate::specs::Drawing::lines_row))]
pub(crate) fn lines_row(
    alloc: Global,
    face: &Face<'_>,
    lines: &[Strip],
    widest: u32,
    y: u32,
) -> Result<Strip, NoMemory>
    requires widest { widest ≡ widest_of lines.now }
    ensures width { IfOk result (λ row. length row ≡ face.now.content.width) }
    ensures row { IfOk result (λ row. row ≡ lines_row face.now lines.now y) }
{
    let width = face.content.width;
    let top = top_row(face.align.1, face.content.height, lines.len());
    if y < top {
        return blanks(alloc, width, face.pen);
    }
    match line_at(lines, y - top) {
        None => blanks(alloc, width, face.pen),
        Some(line) => {
            let start = start_column(face.text_align, face.align.0, width, widest, line.len());
            placed(alloc, start, width, face.pen, line)
        }
    }
}
