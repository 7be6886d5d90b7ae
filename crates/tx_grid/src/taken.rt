//! Which cells of a grid are taken: a number for each row, with a bit for each column. A row past
//! the last number is free.

ghost use Rattle.std.specs.Prelude.{◌≡◌, ℕ, ◌+◌, ◌-◌, ◌*◌, ◌^◌, ◌≤◌, ◌<◌, ◌↔◌, length, slice_index, min, MatchOption, OnOk, OnErr, max};
ghost use Rattle.std.specs.Int.{bit_at};
ghost use Rattle.tx_grid.specs.Standing.{IsSpan};
ghost use Rattle.tx_grid.specs.Taken.{Adds, AddsColumns, AreStarts, IsNextOpen, IsOpenFrom};

use crate::places::Cells;
use tx_text::NoMemory;

// The bits of so many columns from one on.
fn bits_of(column: u32, width: u32) -> u128
    requires { column + width ≤ 100 }
    ensures { result ≡ 2 ^ (column + width) - 2 ^ column }
{
    (1u128 << (column + width)) - (1u128 << column)
}

// The columns from which on so many are open, each as a bit.
fn starts_of(row: u128, width: u32) -> u128
    requires { IsSpan width }
    ensures { AreStarts row width result }
{
    let mut starts = !row;
    let mut count = 1;
    while count < width {
        let step = count.min(width - count);
        starts &= starts >> step;
        count += step;
    }
    starts
}

/// The first column from `from` on at which so many columns are open.
pub fn next_open(row: u128, from: u32, width: u32, columns: u32) -> Option<u32>
    requires columns { columns ≤ 100 }
    requires from { from ≤ columns }
    requires width { IsSpan width }
    ensures { MatchOption result
        ((c : ℕ) → from ≤ c → c + width ≤ columns → IsOpenFrom row c width → ⊥)
        (IsNextOpen row from width columns) }
{
    let starts = starts_of(row, width) >> from;
    if starts == 0 {
        return None;
    }
    let column = from + starts.trailing_zeros();
    if column + width <= columns {
        Some(column)
    } else {
        None
    }
}

/// The bits of a row, which has none past the last one.
pub fn row_at(taken: &[u128], row: u32) -> u128
    ensures { result ≡ slice_index taken.now row }
{
    match taken.get(row as usize) {
        Some(bits) => *bits,
        None => 0,
    }
}

// A row with these columns taken.
fn with_columns(row: u128, column: u32, width: u32) -> u128
    requires { column + width ≤ 100 }
    ensures { AddsColumns row result column width }
{
    row | bits_of(column, width)
}

// Makes room for so many rows.
fn grow(taken: &mut Vec<u128>, rows: u32) -> Result<(), NoMemory>
    ensures same { (y : ℕ) → slice_index taken.new.items y ≡ slice_index taken.old.items y }
    ensures room { OnOk result (rows ≤ length taken.new.items) }
    ensures length { length taken.new.items ≤ max (length taken.old.items) rows }
{
    while taken.len() < rows as usize {
        taken.push(0)?;
    }
    Ok(())
}

// Takes cells, for which there is room.
fn fill(taken: &mut [u128], cells: Cells)
    requires columns { cells.column + cells.columns ≤ 100 }
    requires rows { cells.row + cells.rows ≤ length taken.old }
    requires room { length taken.old < 2 ^ 32 }
    ensures adds { Adds taken.old taken.new cells }
    ensures length { length taken.new ≡ length taken.old }
{
    for row in cells.row..cells.row + cells.rows {
        taken[row as usize] = with_columns(taken[row as usize], cells.column, cells.columns);
    }
}

/// Takes cells.
pub fn take(taken: &mut Vec<u128>, cells: Cells) -> Result<(), NoMemory>
    requires columns { cells.column + cells.columns ≤ 100 }
    requires rows { cells.row + cells.rows ≤ 100 * 65536 }
    requires room { length taken.old.items ≤ 100 * 65536 }
    ensures adds { OnOk result (Adds taken.old.items taken.new.items cells) }
    ensures length { length taken.new.items ≤ max (length taken.old.items) (cells.row + cells.rows) }
{
    grow(taken, cells.row + cells.rows)?;
    fill(taken, cells);
    Ok(())
}
