//! Grids: rows of cells, one below the other.

ghost use Rattle.std.specs.Prelude.{◌≡◌, ◌+◌, ◌<◌, ◌≤◌, ◌++◌, false, length, take, drop, slice_get, Some, IfOk};
ghost use Rattle.tx_cell.specs.Grid.{IsGrid, filled, cell_at, with_laid, with_put, with_row_of};
ghost use Rattle.tx_cell.specs.Strip.{IsWellFormed, laid};

use crate::cut::{blank_tail_front, blank_wide_end};
use crate::{Cell, Strip};
use std::alloc::{AllocError, Global};
use std::marker::Model;
use tx_geom::Size;

/// Rows of cells from the top, each with its cells from the left.
///
/// Each row has as many cells as the grid is wide, and in each row a wide cell is followed by its
/// tail.
#[derive(Drop)]
pub struct Grid {
    size: Size,
    // The rows, one after another.
    cells: Vec<Cell>,
}

impl Model for Grid {
    ghost use Rattle.tx_cell.specs.Grid.{GridValue, IsArray, rows_of};

    ghost Value = { GridValue };

    ghost view = { λ g. record { size = g.size; rows = rows_of g.size.width g.size.height g.cells.items } };

    ghost invariant = { λ g. IsArray g.size g.cells.items };
}

impl Grid {
    /// A grid of this size in which each cell is `fill`, a cell of width 1.
    pub fn open(alloc: Global, size: Size, fill: Cell) -> Result<Grid, AllocError>
        requires narrow { fill.width ≡ 1 }
        ensures grid { IfOk result (λ grid. grid ≡ filled size fill) }
    {
        let is_narrow = fill.width() == 1;
        prove!(is_narrow);
        let area = size.width as usize * size.height as usize;
        let cells = vec![in alloc; fill; area]?;
        Ok(Grid { size, cells })
    }

    /// The width and the height.
    pub fn size(&self) -> Size
        ensures size { result ≡ self.now.size }
        ensures shape { IsGrid self.now }
    {
        self.size
    }

    /// The cell in column `x` of row `y`, both counted from 0.
    pub fn at(&self, x: u32, y: u32) -> Cell
        requires column { x < self.now.size.width }
        requires row { y < self.now.size.height }
        ensures cell { cell_at self.now x y ≡ Some result }
    {
        self.row(y)[x as usize]
    }

    /// The cells of row `y`, counted from 0.
    pub fn row(&self, y: u32) -> &[Cell]
        requires row { y < self.now.size.height }
        ensures cells { slice_get self.now.rows y ≡ Some result.now }
        ensures shape { IsGrid self.now }
    {
        let width = self.size.width as usize;
        let start = y as usize * width;
        &self.cells[start..start + width]
    }

    /// Puts a cell that isn't a tail, with its tail where it is wide, in column `x` of row `y`.
    ///
    /// Its columns have to lie in the row. The other half of a wide cell that it cuts becomes a
    /// blank of that cell's pen, and all else stays.
    pub fn put(&mut self, x: u32, y: u32, cell: Cell)
        requires row { y < self.old.size.height }
        requires head { cell.tail ≡ false }
        requires columns { x + cell.width ≤ self.old.size.width }
        ensures grid { self.new ≡ with_put self.old x y cell }
    {
        if cell.width() > 1 {
            let tail = Cell::tail_of(cell.pen());
            self.lay_cells(x, y, &[cell, tail]);
        } else {
            self.lay_cells(x, y, &[cell]);
        }
    }

    /// Lays a strip over row `y` from column `x` on.
    ///
    /// It has to lie inside the row. A half of a wide cell that it cuts becomes a blank of that
    /// cell's pen, and all else stays.
    pub fn lay(&mut self, x: u32, y: u32, strip: &Strip)
        requires row { y < self.old.size.height }
        requires columns { x + length strip.now ≤ self.old.size.width }
        ensures grid { self.new ≡ with_laid self.old x y strip.now }
    {
        self.lay_cells(x, y, strip.as_slice());
    }

    /// Makes all cells those of another grid of the same size.
    pub fn take_over(&mut self, from: &Grid)
        requires same_size { self.old.size ≡ from.now.size }
        ensures grid { self.new ≡ from.now }
    {
        self.cells.copy_from_slice(from.cells.as_slice());
    }

    /// Makes all cells this one, which has width 1.
    pub fn fill(&mut self, fill: Cell)
        requires narrow { fill.width ≡ 1 }
        ensures grid { self.new ≡ filled self.old.size fill }
    {
        let is_narrow = fill.width() == 1;
        prove!(is_narrow);
        self.cells.fill(fill);
    }

    /// Makes the cells of row `y` those of the same row of another grid of the same size.
    pub fn take_row(&mut self, from: &Grid, y: u32)
        requires same_size { self.old.size ≡ from.now.size }
        requires row { y < self.old.size.height }
        ensures grid { self.new ≡ with_row_of self.old from.now y }
    {
        let width = self.size.width as usize;
        let start = y as usize * width;
        copy_at(&mut self.cells, &from.cells, start, width);
    }

    fn lay_cells(&mut self, x: u32, y: u32, cells: &[Cell])
        requires formed { IsWellFormed cells.now }
        requires row { y < self.old.size.height }
        requires columns { x + length cells.now ≤ self.old.size.width }
        ensures grid { self.new ≡ with_laid self.old x y cells.now }
    {
        let width = self.size.width as usize;
        let start = y as usize * width;
        lay_at(&mut self.cells, start, width, x as usize, cells);
    }
}

// Lays cells over the row of so many cells that begins at `start`, from column `x` on.
fn lay_at(all: &mut [Cell], start: usize, width: usize, x: usize, cells: &[Cell])
    requires row { start + width ≤ length all.old }
    requires columns { x + length cells.now ≤ width }
    ensures row { all.new ≡ take start all.old ++ (laid x cells.now (take width (drop start all.old)) ++ drop (start + width) all.old) }
{
    lay_in(&mut all[start..start + width], x, cells);
}

// Makes the row of so many cells that begins at `start` the one that begins there elsewhere.
fn copy_at(all: &mut [Cell], from: &[Cell], start: usize, width: usize)
    requires row { start + width ≤ length all.old }
    requires row_from { start + width ≤ length from.now }
    ensures row { all.new ≡ take start all.old ++ (take width (drop start from.now) ++ drop (start + width) all.old) }
{
    all[start..start + width].copy_from_slice(&from[start..start + width]);
}

// Lays cells over a row from column `x` on.
fn lay_in(row: &mut [Cell], x: usize, cells: &[Cell])
    requires columns { x + length cells.now ≤ length row.old }
    ensures row { row.new ≡ laid x cells.now row.old }
{
    if cells.is_empty() {
        return;
    }
    let (before, rest) = row.split_at_mut(x);
    let (covered, behind) = rest.split_at_mut(cells.len());
    blank_wide_end(before);
    covered.copy_from_slice(cells);
    blank_tail_front(behind);
}
