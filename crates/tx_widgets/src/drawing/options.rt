//! The rows of an OptionList.

ghost use Rattle.std.specs.Prelude.{◌≡◌, ◌+◌, ◌<◌, ◌^◌, length, map, slice_get, IfOk};
ghost use Rattle.std.specs.Option.{option_copied};
ghost use Rattle.std.specs.List.{All};
ghost use Rattle.tx_cell.specs.Lines.{text_lines};
ghost use Rattle.tx_widgets.specs.Options.{first_option, option_cells, option_pen, option_row};

use crate::drawing::pieces::{blanks, reversed, window};
use std::alloc::Global;
use tx_cell::{Pen, Strip, cells_of, lines_of};
use tx_text::NoMemory;

// The lines of a text.
pub(crate) fn options_of(alloc: Global, text: &str) -> Result<Vec<&str>, NoMemory>
    ensures { IfOk result (λ options. map (λ line. line.now) options.items ≡ text_lines text.now) }
{
    let mut options = Vec::new(alloc);
    for line in lines_of(text) {
        options.push(line)?;
    }
    Ok(options)
}

// The number of the line in row `y`.
pub(crate) fn option_number(chosen: u32, height: u32, y: u32) -> u64
    ensures { result ≡ first_option chosen height + y }
{
    (chosen as u64 + 1).saturating_sub(height as u64) + y as u64
}

// The pen of a line.
fn option_pen(is_chosen: bool, pen: Pen) -> Pen
    ensures { result ≡ option_pen is_chosen pen }
{
    if is_chosen { reversed(pen) } else { pen }
}

// A line over the whole width.
fn option_cells(alloc: Global, width: u32, pen: Pen, line: &str) -> Result<Strip, NoMemory>
    requires short { length line.now < 2 ^ 32 }
    ensures row { IfOk result (λ row. row ≡ option_cells width pen line.now) }
    ensures width { IfOk result (λ row. length row ≡ width) }
{
    let cells = cells_of(alloc, line, pen)?;
    window(alloc, &cells, 0, width, pen)
}

// The line with this number, if there is one.
fn option_at<'a>(options: &[&'a str], number: u64) -> Option<&'a str>
    ensures { option_copied result ≡ slice_get (map (λ line. line.now) options.now) number }
{
    let number = number as usize;
    if number < options.len() {
        Some(options[number])
    } else {
        None
    }
}

// The row of the line with this number.
pub(crate) fn option_row(
    alloc: Global,
    chosen: u32,
    width: u32,
    pen: Pen,
    options: &[&str],
    number: u64,
) -> Result<Strip, NoMemory>
    requires short { All (λ line. length line < 2 ^ 32) (map (λ line. line.now) options.now) }
    ensures width { IfOk result (λ row. length row ≡ width) }
    ensures row { IfOk result (λ row. row ≡ option_row chosen width pen (map (λ line. line.now) options.now) number) }
{
    match option_at(options, number) {
        None => blanks(alloc, width, pen),
        Some(line) => {
            let pen = option_pen(number == chosen as u64, pen);
            option_cells(alloc, width, pen, line)
        }
    }
}
