//! Grids.

use std::alloc::{AllocError, Global};
use std::test::Fail;
use tx_cell::{Cell, Grid, Pen, Strip, cells_of};
use tx_geom::Size;

/// More bytes than a line of a test has.
const MOST_BYTES: usize = 1_000_000;

/// Lays a strip over a row, where there is room for it.
fn lay_row(grid: &mut Grid, y: u32, strip: &Strip) -> Result<(), Fail> {
    let size = grid.size();
    if y >= size.height || strip.len() > size.width {
        return Err(Fail::from("a line doesn't fit into the grid"));
    }
    grid.lay(0, y, strip);
    Ok(())
}

/// A grid with the cells of each line of a text in one row, and blanks after them. It fails where
/// they don't fit.
pub fn grid_of(alloc: Global, size: Size, text: &str, pen: Pen) -> Result<Grid, Fail> {
    let mut grid = Grid::open(alloc, size, Cell::blank(pen))?;
    let mut y = 0u32;
    for line in text.lines() {
        if line.len() > MOST_BYTES {
            return Err(Fail::from("a line is too long"));
        }
        let strip = cells_of(alloc, line, pen)?;
        lay_row(&mut grid, y, &strip)?;
        y = y.saturating_add(1);
    }
    Ok(grid)
}

/// Adds the texts of cells. A tail has none.
fn push_cells(out: &mut String, cells: &[Cell]) -> Result<(), AllocError> {
    for cell in cells {
        out.push_str(cell.text())?;
    }
    Ok(())
}

/// The texts of a grid's cells, with a line feed after each row.
pub fn grid_text(alloc: Global, grid: &Grid) -> Result<String, AllocError> {
    let mut out = String::new(alloc);
    for y in 0..grid.size().height {
        push_cells(&mut out, grid.row(y))?;
        out.push_str("\n")?;
    }
    Ok(out)
}

/// Adds a cell: a blank is a point, a tail `_`, and a quote stands after what is reversed.
fn push_cell(out: &mut String, cell: &Cell) -> Result<(), AllocError> {
    let text = match cell.text() {
        " " => ".",
        "" => "_",
        other => other,
    };
    out.push_str(text)?;
    if cell.pen().style.reverse {
        out.push_str("'")?;
    }
    Ok(())
}

/// A grid's cells, with `/` between its rows: a blank is a point, a tail `_`, and a quote stands after
/// each cell whose colours are exchanged.
pub fn cells_text(alloc: Global, grid: &Grid) -> Result<String, AllocError> {
    let mut out = String::new(alloc);
    for y in 0..grid.size().height {
        if y > 0 {
            out.push_str("/")?;
        }
        for cell in grid.row(y) {
            push_cell(&mut out, cell)?;
        }
    }
    Ok(out)
}
