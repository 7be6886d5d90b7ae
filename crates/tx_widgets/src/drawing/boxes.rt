//! The rows of a Checkbox and of a ProgressBar.

ghost use Rattle.std.specs.Prelude.{◌≡◌, ◌*◌, ◌/◌, ◌<◌, ◌≤◌, ◌^◌, true, length, IfOk};
ghost use Rattle.tx_cell.specs.Lines.{text_lines};
ghost use Rattle.tx_widgets.specs.Drawing.{bar_row, box_row, box_text, done_columns, first_of};
ghost use Rattle.tx_widgets.specs.Form.{suits};

use crate::drawing::pieces::{copies, join_two, window};
use std::alloc::Global;
use tx_cell::{Pen, Strip, cells_of, lines_of};
use tx_text::NoMemory;
use tx_tree::Private;

// The first line of a text, or nothing where it has none.
pub(crate) fn first_line(text: &str) -> &str
    ensures { result.now ≡ first_of (text_lines text.now) }
{
    match lines_of(text).next() {
        None => "",
        Some(line) => line,
    }
}

// What stands before the text.
fn box_text(on: bool) -> &'static str
    ensures { result.now ≡ box_text on }
{
    if on { "[X] " } else { "[ ] " }
}

// The row of a Checkbox.
pub(crate) fn box_row(
    alloc: Global,
    on: bool,
    width: u32,
    pen: Pen,
    text: &str,
) -> Result<Strip, NoMemory>
    requires short { length text.now < 2 ^ 32 }
    ensures width { IfOk result (λ row. length row ≡ width) }
    ensures row { IfOk result (λ row. row ≡ box_row on width pen text.now) }
{
    let mark = cells_of(alloc, box_text(on), pen)?;
    let shown = window(alloc, &mark, 0, width.min(4), pen)?;
    let line = cells_of(alloc, first_line(text), pen)?;
    let behind = window(alloc, &line, 0, width.saturating_sub(4), pen)?;
    join_two(alloc, shown, behind)
}

// The columns of a bar that are done.
pub(crate) fn done_columns(width: u32, private: Private, text: &str) -> u32
    requires suits { suits text.now private ≡ true }
    ensures columns { result ≡ done_columns width private }
    ensures inside { result ≤ width }
{
    match private {
        Private::Bar { done, total } => share_of(width, done, total),
        _ => 0,
    }
}

// So many parts of so many columns, of which there are `total`.
fn share_of(width: u32, done: u32, total: u32) -> u32
    requires some { 0 < total }
    requires within { done ≤ total }
    ensures columns { result ≡ width * done / total }
    ensures inside { result ≤ width }
{
    (width as u64 * done as u64 / total as u64) as u32
}

// The row of a ProgressBar.
pub(crate) fn bar_row(alloc: Global, done: u32, width: u32, pen: Pen) -> Result<Strip, NoMemory>
    requires inside { done ≤ width }
    ensures width { IfOk result (λ row. length row ≡ width) }
    ensures row { IfOk result (λ row. row ≡ bar_row done width pen) }
{
    let thick = copies(alloc, "\u{2501}", done, pen)?;
    let thin = copies(alloc, "\u{2500}", width - done, pen)?;
    join_two(alloc, thick, thin)
}
