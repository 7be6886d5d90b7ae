//! Pieces that rows are made of.

ghost use Rattle.std.specs.Prelude.{◌≡◌, ◌+◌, ◌-◌, ◌<◌, ◌≤◌, ◌^◌, min, [], ◌∷◌, ◌++◌, length, replicate, IfOk};
ghost use Rattle.tx_cell.specs.Cell.{shown};
ghost use Rattle.tx_cell.specs.Strip.{cropped, line_cells};
ghost use Rattle.tx_widgets.specs.Columns.{blanks, reversed, window};

use std::alloc::Global;
use tx_cell::{Pen, Strip, TextStyle, cells_of, join};
use tx_text::NoMemory;

// The pen in which the mark of reverse is changed.
pub(crate) fn reversed(pen: Pen) -> Pen
    ensures { result ≡ reversed pen }
{
    Pen {
        style: TextStyle {
            reverse: !pen.style.reverse,
            ..pen.style
        },
        ..pen
    }
}

// Two strips, one after the other.
pub(crate) fn join_two(alloc: Global, first: Strip, second: Strip) -> Result<Strip, NoMemory>
    requires short { length first + length second < 2 ^ 32 }
    ensures { IfOk result (λ strip. strip ≡ first ++ second) }
{
    let mut parts = Vec::new(alloc);
    parts.push(first)?;
    parts.push(second)?;
    join(alloc, &parts)
}

// Three strips, one after the other.
pub(crate) fn join_three(
    alloc: Global,
    first: Strip,
    second: Strip,
    third: Strip,
) -> Result<Strip, NoMemory>
    requires short { length first + (length second + length third) < 2 ^ 32 }
    ensures { IfOk result (λ strip. strip ≡ first ++ (second ++ third)) }
{
    let mut parts = Vec::new(alloc);
    parts.push(first)?;
    parts.push(second)?;
    parts.push(third)?;
    join(alloc, &parts)
}

// The cells of a strip from one column up to another.
#[tactic(auto, using(crate::proofs::CutLemmas::cut_lengths))]
pub(crate) fn part_of(strip: &Strip, from: u32, to: u32) -> Result<Strip, NoMemory>
    requires order { from ≤ to }
    requires inside { to ≤ length strip.now }
    ensures cells { IfOk result (λ part. part ≡ cropped strip.now from to) }
    ensures len { IfOk result (λ part. length part ≡ to - from) }
{
    let mut parts = strip.divide(&[from, to])?;
    let _behind = parts.pop();
    match parts.pop() {
        Some(part) => Ok(part),
        None => unreachable!(),
    }
}

// No cells.
pub(crate) fn nothing(alloc: Global, pen: Pen) -> Result<Strip, NoMemory>
    ensures { IfOk result (λ strip. strip ≡ []) }
{
    cells_of(alloc, "", pen)
}

// So many times the one cell of width 1 that a text makes.
pub(crate) fn copies(alloc: Global, text: &str, count: u32, pen: Pen) -> Result<Strip, NoMemory>
    requires single { line_cells text.now pen ≡ shown text.now 1 pen ∷ [] }
    requires short { length text.now < 2 ^ 32 }
    ensures { IfOk result (λ strip. strip ≡ replicate count (shown text.now 1 pen)) }
{
    if count == 0 {
        return nothing(alloc, pen);
    }
    let mut strip = cells_of(alloc, text, pen)?;
    'doubling: while strip.len() < count {
        strip = with_more(alloc, strip, count)?;
    }
    Ok(strip)
}

// Twice a strip, but no more than so many columns.
fn with_more(alloc: Global, strip: Strip, most: u32) -> Result<Strip, NoMemory>
    requires room { length strip ≤ most }
    ensures { IfOk result (λ more. more ≡ strip ++ cropped strip 0 (min (length strip) (most - length strip))) }
{
    let len = strip.len();
    let more = part_of(&strip, 0, len.min(most - len))?;
    join_two(alloc, strip, more)
}

// So many blanks.
pub(crate) fn blanks(alloc: Global, count: u32, pen: Pen) -> Result<Strip, NoMemory>
    ensures { IfOk result (λ strip. strip ≡ blanks count pen) }
{
    copies(alloc, " ", count, pen)
}

// So many columns of a strip from a column on, with blanks after its end.
#[tactic(auto, unfolding(crate::specs::Columns::window))]
pub(crate) fn window(
    alloc: Global,
    strip: &Strip,
    from: u32,
    width: u32,
    pen: Pen,
) -> Result<Strip, NoMemory>
    requires inside { from ≤ length strip.now }
    ensures cells { IfOk result (λ cells. cells ≡ window from width pen strip.now) }
    ensures width { IfOk result (λ cells. length cells ≡ width) }
{
    let left = strip.len() - from;
    let part = part_of(strip, from, from + left.min(width))?;
    let behind = blanks(alloc, width.saturating_sub(left), pen)?;
    join_two(alloc, part, behind)
}
