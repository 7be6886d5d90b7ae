//! The search for the first place of a span.

ghost use Rattle.std.specs.Prelude.{◌≡◌, ◌+◌, ◌*◌, ◌≤◌, ◌↔◌, length, IsTrue, IfSome, MatchResult};
ghost use Rattle.tx_grid.specs.Standing.{AreSpans, cells_at};
ghost use Rattle.tx_grid.specs.Taken.{FitsInNoRowBefore, IsFirstInRow, IsNextRow, StandsOpen};

use crate::places::{Cells, Spans};
use crate::taken::{next_open, row_at};

// The first column at which a span is open in this row, or the next row in which it may be.
//
// The rows are joined from the last one up. Where they leave no room, no row from this one to there
// has any.
fn first_in_row(taken: &[u128], row: u32, span: Spans, columns: u32) -> Result<u32, u32>
    requires row { row ≤ 100 * 65536 }
    requires span { AreSpans span }
    requires columns { columns ≤ 100 }
    requires width { span.columns ≤ columns }
    ensures { MatchResult result (IsFirstInRow columns taken.now span row) (IsNextRow columns taken.now span row) }
{
    let mut joined: u128 = 0;
    let mut column = 0;
    let mut end = row + span.rows;
    while end > row {
        joined |= row_at(taken, end - 1);
        match next_open(joined, column, span.columns, columns) {
            Some(next) => column = next,
            None => return Err(end),
        }
        end -= 1;
    }
    Ok(column)
}

// Whether so many rows from one on are inside the rows, where these are given.
fn is_inside(rows: Option<u32>, row: u32, height: u32) -> bool
    requires row { row ≤ 100 * 65537 }
    requires height { height ≤ 100 }
    ensures { IsTrue result ↔ IfSome rows (λ limit. row + height ≤ limit) }
{
    match rows {
        None => true,
        Some(limit) => row + height <= limit,
    }
}

fn cells_of(span: Spans, row: u32, column: u32) -> Cells
    ensures { result ≡ cells_at span row column }
{
    Cells {
        column,
        row,
        columns: span.columns,
        rows: span.rows,
    }
}

/// The first place at which a span fits, which it does in no row before `from`.
pub fn first_open(
    taken: &[u128],
    from: u32,
    span: Spans,
    columns: u32,
    rows: Option<u32>,
) -> Option<Cells>
    requires taken { length taken.now ≤ 100 * 65536 }
    requires from { from ≤ 100 * 65536 }
    requires span { AreSpans span }
    requires columns { columns ≤ 100 }
    requires width { span.columns ≤ columns }
    requires known { FitsInNoRowBefore columns rows taken.now span from }
    ensures { StandsOpen columns rows taken.now span result }
{
    let mut row = from;
    while (row as usize) < taken.len() {
        if !is_inside(rows, row, span.rows) {
            return None;
        }
        match first_in_row(taken, row, span, columns) {
            Ok(column) => return Some(cells_of(span, row, column)),
            Err(next) => row = next,
        }
    }
    if is_inside(rows, row, span.rows) {
        Some(cells_of(span, row, 0))
    } else {
        None
    }
}
