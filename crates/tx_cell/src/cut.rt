//! Cells beside a cut: the half of a wide cell that is left becomes a blank.

ghost use Rattle.std.specs.Prelude.{◌≡◌};
ghost use Rattle.tx_cell.specs.Strip.{cut_front, cut_end};

use crate::Cell;

// A wide cell at the end, whose tail is cut off, becomes a blank.
pub(crate) fn blank_wide_end(cells: &mut [Cell])
    ensures cells { cells.new ≡ cut_end cells.old }
{
    let len = cells.len();
    if len > 0 {
        cells[len - 1] = cells[len - 1].without_tail();
    }
}

// A tail at the start, whose wide cell is cut off, becomes a blank.
pub(crate) fn blank_tail_front(cells: &mut [Cell])
    ensures cells { cells.new ≡ cut_front cells.old }
{
    if !cells.is_empty() {
        cells[0] = cells[0].without_head();
    }
}
