//! Scroll bars.

ghost use Rattle.std.specs.Prelude.{◌≡◌, ◌<◌, ◌≤◌, ◌^◌};
ghost use Rattle.tx_paint.specs.Bars.{bar_at, is_thumb, thumb_cells, thumb_start};

use crate::glyphs::single;
use tx_cell::{Cell, Pen};

// How many cells the thumb of a bar of so many cells has.
fn thumb_cells(length: u32, over: u32) -> u64
    requires some { 0 < over }
    ensures cells { result ≡ thumb_cells length over }
    ensures few { result < 2 ^ 32 }
{
    let length = length as u64;
    let share = length * length / (length + over as u64);
    share.max(1)
}

// The cell with which it begins.
fn thumb_start(length: u32, over: u32, scroll: u32) -> u64
    requires some { 0 < over }
    ensures { result ≡ thumb_start length over scroll }
{
    let free = (length as u64).saturating_sub(thumb_cells(length, over));
    scroll as u64 * free / over as u64
}

// Whether a cell of the bar is one of the thumb.
fn is_thumb(length: u32, over: u32, scroll: u32, at: u32) -> bool
    ensures { result ≡ is_thumb length over scroll at }
{
    if over == 0 {
        return true;
    }
    let start = thumb_start(length, over, scroll);
    let at = at as u64;
    start <= at && at - start < thumb_cells(length, over)
}

// A cell of the bar.
#[tactic(auto, unfolding(crate::specs::Bars::bar_at))]
pub(crate) fn bar_at(length: u32, over: u32, scroll: u32, pen: Pen, at: u32) -> Cell
    ensures { result ≡ bar_at length over scroll pen at }
{
    if is_thumb(length, over, scroll, at) {
        single("█", pen)
    } else {
        single("░", pen)
    }
}
