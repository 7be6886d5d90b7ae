//! What a row measures.

ghost use Rattle.std.specs.Prelude.{◌≡◌, ◌≤◌, ◌<◌, ◌∷◌, false, length, drop, slice_index, Some, None, All, IfOk};
ghost use Rattle.tx_cell.specs.Pen.{white_on_black};
ghost use Rattle.tx_geom.specs.declared.places.Size.{Size};
ghost use Rattle.tx_layout.specs.Ask.{IsAnswer};
ghost use Rattle.tx_node_map.specs.Held.{nothing};
ghost use Rattle.tx_sizes.specs.Counts.{counts};
ghost use Rattle.tx_sizes.specs.Forest.{forest};
ghost use Rattle.tx_sizes.specs.Measures.{first_measure, own_measure};
ghost use Rattle.tx_tree.specs.Kind.{holds_children, is_handed};
ghost use Rattle.tx_widgets.specs.Measures.{wanted_height};

use crate::children::children_of;
use crate::rows::StyledRow;
use std::alloc::{AllocError, Global};
use tx_geom::Size;
use tx_layout::{Ask, LayoutFault, tall_of, wide_of};
use tx_look::grid_style;
use tx_text::NoMemory;
use tx_tree::{Kind, Row};
use tx_widgets::{tall, wide};

// Whether a kind is handed in.
fn is_handed(kind: &Kind) -> bool
    ensures { result ≡ is_handed kind.now }
{
    matches!(kind, Kind::Handed(_))
}

// The rows that a text wants at a width. One of 2^32 bytes or more counts as out of memory.
fn own_height(alloc: Global, row: &Row, width: u32) -> Result<u32, NoMemory>
    requires leaf { holds_children row.now.kind ≡ false }
    requires built_in { is_handed row.now.kind ≡ false }
    ensures { IfOk result (λ rows. rows ≡ wanted_height row.now.kind row.now.text width white_on_black) }
{
    if row.text.as_str().len() >= 4_294_967_296 {
        return Err(AllocError);
    }
    tall(alloc, &row.kind, &row.text, width)
}

// What a row of a kind without children measures.
fn own_measure(alloc: Global, row: &Row, width: Option<u32>) -> Result<u32, NoMemory>
    requires leaf { holds_children row.now.kind ≡ false }
    ensures { IfOk result (λ n. (area : Size) → own_measure None row.now width area ≡ Some n) }
{
    if is_handed(&row.kind) {
        return Ok(0);
    }
    match width {
        None => Ok(wide(&row.kind, &row.text)),
        Some(width) => own_height(alloc, row, width),
    }
}

// The same as an answer to a container.
fn leaf_measure(alloc: Global, row: &Row, width: Option<u32>) -> Result<u32, LayoutFault>
    requires leaf { holds_children row.now.kind ≡ false }
    ensures { (area : Size) → IsAnswer (own_measure None row.now width area) result }
{
    Ok(own_measure(alloc, row, width)?)
}

// The counts from a place on.
fn counts_from(below: &[u32], at: usize) -> &[u32]
    requires { at ≤ length below.now }
    ensures { result.now ≡ drop at below.now }
{
    &below[at..]
}

// The first row, the rows after it, and their counts.
fn split_first<'a, 'b>(
    rows: &'b [StyledRow<'a>],
    below: &'b [u32],
) -> (&'b StyledRow<'a>, &'b [StyledRow<'a>], &'b [u32])
    requires some { 0 < length rows.now }
    requires below { below.now ≡ counts rows.now }
    ensures rows { rows.now ≡ result.0.now ∷ result.1.now }
    ensures below { result.2.now ≡ counts result.1.now }
{
    (&rows[0], &rows[1..], counts_from(below, 1))
}

/// The rows from a place on, and their counts.
pub fn rows_from<'a, 'b>(
    rows: &'b [StyledRow<'a>],
    below: &'b [u32],
    start: u32,
) -> (&'b [StyledRow<'a>], &'b [u32])
    requires within { start < length rows.now }
    requires below { below.now ≡ counts rows.now }
    ensures rows { result.0.now ≡ drop start rows.now }
    ensures below { result.1.now ≡ counts result.0.now }
    ensures some { 0 < length result.0.now }
    ensures fewer { length result.0.now ≤ length rows.now }
{
    let at = start as usize;
    (&rows[at..], counts_from(below, at))
}

/// What the first row measures: without a width the width of its content in an area, and with one
/// its height at that width.
///
/// The rows are a row and the rows after it in preorder, each with the number of the rows below it.
/// A container asks its children that are displayed, and these theirs; other rows go by their text.
/// A handed-in row without an object measures 0. The measure is refused exactly where a fraction on
/// the way is, and where there is no memory.
#[cycle(measuring)]
pub fn measure(
    alloc: Global,
    rows: &[StyledRow<'_>],
    below: &[u32],
    screen: Size,
    width: Option<u32>,
    area: Size,
) -> Result<u32, LayoutFault>
    requires some { 0 < length rows.now }
    requires below { below.now ≡ counts rows.now }
    requires few { length rows.now ≤ 65536 }
    ensures { IsAnswer (first_measure nothing screen (forest rows.now) width area) result }
{
    let (first, behind, later) = split_first(&*rows, &*below);
    if !first.is_container() {
        return leaf_measure(alloc, first.row(), width);
    }
    let style = first.style();
    let children = children_of(alloc, style, first.depth(), behind, later)?;
    let grid = grid_style(alloc, style)?;
    let styles = children.styles.as_slice();
    let starts = children.starts.as_slice();
    let answer = |ask: Ask| -> Result<u32, LayoutFault>
        requires { (ask.child < length starts.now) × All (λ start. start < length behind.now) starts.now × (later.now ≡ counts behind.now) × (length behind.now ≤ 65536) }
        ensures { IsAnswer (first_measure nothing screen (forest (drop (slice_index starts.entry.now ask.child) behind.entry.now)) ask.width ask.area) result }
    {
        let (from, counts) = rows_from(&*behind, &*later, starts[ask.child as usize]);
        measure(alloc, from, counts, screen, ask.width, ask.area)
    };
    match width {
        None => wide_of(alloc, style.layout(), &grid, styles, area, screen, &answer),
        Some(width) => tall_of(
            alloc,
            style.layout(),
            &grid,
            styles,
            width,
            area,
            screen,
            &answer,
        ),
    }
}
