//! Lines of cells, laid on a grid.

ghost use Rattle.std.specs.Prelude.{◌≡◌, ◌<◌, ◌≤◌, ◌+◌, Some, false, length, replicate, slice_get, if◌then◌else◌};
ghost use Rattle.tx_cell.specs.Grid.{changed_at, with_put};
ghost use Rattle.tx_cell.specs.Strip.{IsWellFormed};
ghost use Rattle.tx_picture.specs.Picture.{empty};

use tx_cell::{Cell, Grid};

// Lays a cell on a line, unless it is a tail, which its wide cell brings along.
fn lay_cell(grid: &mut Grid, x: u32, y: u32, cell: Cell)
    requires row { y < grid.old.size.height }
    requires columns { cell.tail ≡ false → x + cell.width ≤ grid.old.size.width }
    ensures { grid.new ≡ (if cell.tail then grid.old else with_put grid.old x y cell) }
{
    if !cell.tail() {
        grid.put(x, y, cell);
    }
}

/// Lays cells over the whole of row `y`, which is blank.
pub fn lay_line(grid: &mut Grid, y: u32, cells: &[Cell])
    requires row { y < grid.old.size.height }
    requires width { length cells.now ≡ grid.old.size.width }
    requires formed { IsWellFormed cells.now }
    requires blank { slice_get grid.old.rows y ≡ Some (replicate grid.old.size.width empty) }
    ensures { grid.new ≡ record grid.old { rows = changed_at y (λ _. cells.now) grid.old.rows } }
{
    for x in 0..grid.size().width {
        lay_cell(grid, x, y, cells[x as usize]);
    }
}
