//! The row of an Input.

ghost use Rattle.std.specs.Prelude.{◌≡◌, ◌+◌, ◌-◌, ◌<◌, ◌≤◌, ◌^◌, ◌++◌, length, IfOk, true};
ghost use Rattle.unicode_segmentation.specs.Grapheme.{graphemes};
ghost use Rattle.tx_cell.specs.Strip.{cluster_columns, cropped};
ghost use Rattle.tx_widgets.specs.Columns.{blanks, reversed};
ghost use Rattle.tx_widgets.specs.Field.{cells_of_clusters, clusters_from, columns_at, cursor_column, field_row};

use crate::drawing::pieces::{blanks, join_three, nothing, part_of, reversed, window};
use std::alloc::Global;
use tx_cell::{Cell, Pen, Strip, cells_of};
use tx_text::NoMemory;
use unicode_segmentation::UnicodeSegmentation;

// The columns that a cluster takes.
pub(crate) fn cluster_columns(cluster: &str, pen: Pen) -> u32
    ensures columns { result ≡ length (cluster_columns pen cluster.now) }
    ensures few { result ≤ 2 }
{
    match Cell::of(cluster, pen) {
        None => 0,
        Some(cell) => cell.width(),
    }
}

// Where a cursor is: its column, and the columns of the cluster there, unless it is at the end.
#[derive(Clone, Copy)]
struct Place {
    column: u32,
    columns: Option<u32>,
}

#[tactic(auto, unfolding(crate::specs::Field::cursor_column))]
fn place_of(text: &str, at: u32, pen: Pen) -> Place
    requires few { length (cells_of_clusters pen (graphemes true text.now)) < 2 ^ 32 }
    ensures column { result.column ≡ cursor_column at pen text.now }
    ensures columns { result.columns ≡ columns_at pen (clusters_from at (graphemes true text.now)) }
{
    let mut left = at as usize;
    let mut column = 0;
    for cluster in text.graphemes(true) {
        let columns = cluster_columns(cluster, pen);
        if left < cluster.len() {
            return Place {
                column,
                columns: Some(columns),
            };
        }
        left -= cluster.len();
        column += columns;
    }
    Place {
        column,
        columns: None,
    }
}

// The first column that is shown.
fn first_column(column: u32, width: u32) -> u32
    requires some { 0 < width }
    ensures { result ≡ column + 1 - width }
{
    column.saturating_sub(width - 1)
}

// The row of an Input with the cursor at a byte of its text.
pub(crate) fn field_row(
    alloc: Global,
    text: &str,
    at: u32,
    focused: bool,
    width: u32,
    pen: Pen,
) -> Result<Strip, NoMemory>
    requires short { length text.now < 2 ^ 32 }
    ensures row { IfOk result (λ row. row ≡ field_row focused at width pen text.now) }
    ensures width { IfOk result (λ row. length row ≡ width) }
{
    if width == 0 {
        return nothing(alloc, pen);
    }
    let plain = cells_of(alloc, text, pen)?;
    let _len = plain.len();
    let place = place_of(text, at, pen);
    let first = first_column(place.column, width);
    if !focused {
        return window(alloc, &plain, first, width, pen);
    }
    match place.columns {
        None => end_row(alloc, &plain, first, width, pen),
        Some(columns) => {
            let marked = cells_of(alloc, text, reversed(pen))?;
            let cells = with_mark(alloc, &plain, &marked, place.column, columns)?;
            window(alloc, &cells, first, width, pen)
        }
    }
}

// The cells of a strip, but of another one from a column on.
fn with_mark(
    alloc: Global,
    plain: &Strip,
    marked: &Strip,
    column: u32,
    columns: u32,
) -> Result<Strip, NoMemory>
    requires inside { column + columns ≤ length plain.now }
    requires same { length marked.now ≡ length plain.now }
    ensures { IfOk result (λ cells. cells
        ≡ cropped plain.now 0 column ++ (cropped marked.now column (column + columns) ++ cropped plain.now (column + columns) (length plain.now))) }
{
    let len = plain.len();
    let to = column + columns;
    let before = part_of(plain, 0, column)?;
    let mark = part_of(marked, column, to)?;
    let behind = part_of(plain, to, len)?;
    join_three(alloc, before, mark, behind)
}

// A strip from a column on, the cursor after it, and blanks.
fn end_row(
    alloc: Global,
    plain: &Strip,
    first: u32,
    width: u32,
    pen: Pen,
) -> Result<Strip, NoMemory>
    requires inside { first ≤ length plain.now }
    requires room { length plain.now - first < width }
    ensures { IfOk result (λ row. row
        ≡ cropped plain.now first (length plain.now) ++ (blanks 1 (reversed pen) ++ blanks (width - 1 - (length plain.now - first)) pen)) }
{
    let len = plain.len();
    let shown = part_of(plain, first, len)?;
    let mark = blanks(alloc, 1, reversed(pen))?;
    let behind = blanks(alloc, width - 1 - (len - first), pen)?;
    join_three(alloc, shown, mark, behind)
}
