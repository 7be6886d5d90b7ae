//! The placing of children.

ghost use Rattle.std.specs.Prelude.{◌≡◌, ◌+◌, ◌*◌, ◌≤◌, length, All, IfOk, OnOk, IfSome};
ghost use Rattle.tx_grid.specs.Standing.{AreSpans, IsInside, IsRowCount, IsSpan, cut, standing, rows_used};
ghost use Rattle.tx_grid.specs.Taken.{AddsPlace, IsBoard, StandsOpen};

use crate::known::{number_of, raise};
use crate::places::{Cells, Spans};
use crate::search::first_open;
use crate::taken::take;
use std::alloc::Global;
use tx_text::NoMemory;

// The span that a child gets.
fn cut_span(asked: Spans, columns: u32, rows: Option<u32>) -> Spans
    ensures { result ≡ cut columns rows asked }
{
    let height = match rows {
        None => asked.rows,
        Some(limit) => asked.rows.min(limit),
    };
    Spans {
        columns: asked.columns.min(columns),
        rows: height,
    }
}

// Where a child with this span stands beside the cells that are taken. It takes its own.
//
// For each span `known` has a row before which it fits nowhere, so that no search begins anew.
fn place_next(
    taken: &mut Vec<u128>,
    known: &mut Vec<u32>,
    span: Spans,
    columns: u32,
    rows: Option<u32>,
) -> Result<Option<Cells>, NoMemory>
    requires taken { length taken.old.items ≤ 100 * 65535 }
    requires board { IsBoard columns rows taken.old.items known.old.items }
    requires span { AreSpans span }
    requires columns { columns ≤ 100 }
    requires width { span.columns ≤ columns }
    requires rows { IfSome rows IsRowCount }
    ensures stands { IfOk result (StandsOpen columns rows taken.old.items span) }
    ensures adds { IfOk result (AddsPlace taken.old.items taken.new.items) }
    ensures board { OnOk result (IsBoard columns rows taken.new.items known.new.items) }
    ensures length { OnOk result (length taken.new.items ≤ length taken.old.items + 100) }
{
    let from = known[number_of(span)];
    match first_open(taken, from, span, columns, rows) {
        Some(cells) => {
            take(taken, cells)?;
            raise(known, columns, span, cells.row);
            Ok(Some(cells))
        }
        None => {
            raise(known, columns, span, rows.unwrap_or(0));
            Ok(None)
        }
    }
}

/// Where children with these spans stand in a grid, in document order; None for one that isn't
/// placed, which comes only where rows are given.
///
/// Spans are cut to the columns, and to the rows where these are given. Each child then takes the
/// first place in row order at which its whole span is inside and shares no cell with a child
/// before it. Columns and spans are from 1 to 100, rows from 1 to 1,000 where they are given, and
/// there are at most 65,536 children. Each place is inside, and the rows used are at most 100 for each
/// child. It fails only when out of memory.
pub fn stand(
    alloc: Global,
    spans: &[Spans],
    columns: u32,
    rows: Option<u32>,
) -> Result<Vec<Option<Cells>>, NoMemory>
    requires spans { All AreSpans spans.now }
    requires count { length spans.now ≤ 65536 }
    requires columns { IsSpan columns }
    requires rows { IfSome rows IsRowCount }
    ensures exact { IfOk result (λ places. places.items ≡ standing spans.now columns rows) }
    ensures count { IfOk result (λ places. length places.items ≡ length spans.now) }
    ensures inside { IfOk result (λ places. All (λ place. IfSome place (IsInside columns rows)) places.items) }
    ensures rows { IfOk result (λ places. rows_used places.items ≤ 100 * length spans.now) }
{
    let mut places = Vec::with_capacity(alloc, spans.len())?;
    let mut taken: Vec<u128> = Vec::new(alloc);
    let mut known: Vec<u32> = vec![in alloc; 0; (100 * columns + 101) as usize]?;
    for asked in spans {
        let span = cut_span(*asked, columns, rows);
        let place = place_next(&mut taken, &mut known, span, columns, rows)?;
        places.push(place)?;
    }
    Ok(places)
}
