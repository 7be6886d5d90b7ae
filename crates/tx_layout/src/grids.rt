//! The flow of a grid: its tracks, and its children in the cells that they take.

ghost use Rattle.std.specs.Prelude.{◌≡◌, ◌+◌, ◌*◌, ◌<◌, ◌≤◌, ◌^◌, ℕ, length, map, All, IfOk, IfSome, Option, Some, Ok};
ghost use Rattle.std.specs.List.{zip};
ghost use Rattle.tx_read.specs.Answer.{Gives};
ghost use Rattle.tx_grid.specs.Standing.{AreSpans, IsInside, rows_used};
ghost use Rattle.tx_layout.specs.Ask.{told, Means};
ghost use Rattle.tx_layout.specs.Steps.{each_of};
ghost use Rattle.tx_layout.specs.Style.{IsGridStyle};
ghost use Rattle.tx_layout.specs.Children.{IsChild, IsSide};
ghost use Rattle.tx_layout.specs.Line.{IsFlow, seen_flow};
ghost use Rattle.tx_layout.specs.Grid.{spans_of, cells_of, row_count, columns_of, rows_of, tracks_end, AreTracks, AreInTracks, columns_end, rows_end, frame_with, framed, area_of, cut_side, cut_in, sized_in, sized_frames, grid_with, grid_of, grid_extent, IsFramed};

use crate::children::{Child, Framed, LaidFlow, Setting, Side};
use crate::sides::{across_one, with_side};
use crate::styles::{Ask, GridStyle};
use crate::tracks::{side_over, track_spans, tracks_end};
use std::alloc::Global;
use tx_box::{Basis, LayoutFault, Span};
use tx_geom::{Axis, Size};
use tx_grid::{Cells, Spans, rows_used, stand};

// The spans that children ask for.
fn spans_of(alloc: Global, children: &[Child], count: u32) -> Result<Vec<Spans>, LayoutFault>
    requires { All (IsChild count) children.now }
    ensures exact { Gives (λ v. v.items) told result (Ok (map spans_of children.now)) }
    ensures spans { IfOk result (λ v. All AreSpans v.items) }
    ensures count { IfOk result (λ v. length v.items ≡ length children.now) }
{
    let mut spans = Vec::with_capacity(alloc, children.len())?;
    for child in children {
        spans.push(Spans {
            columns: child.style.column_span,
            rows: child.style.row_span,
        })?;
    }
    Ok(spans)
}

// The cells that each child takes.
#[tactic(auto, unfolding(crate::specs::Grid::cells_of))]
fn cells_of(
    alloc: Global,
    grid: &GridStyle,
    children: &[Child],
    count: u32,
) -> Result<Vec<Option<Cells>>, LayoutFault>
    requires grid { IsGridStyle grid.now }
    requires children { All (IsChild count) children.now }
    requires count { length children.now ≤ 65536 }
    ensures exact { Gives (λ v. v.items) told result (Ok (cells_of grid.now children.now)) }
    ensures count { IfOk result (λ v. length v.items ≡ length children.now) }
    ensures inside { IfOk result (λ v. All (λ place. IfSome place (IsInside grid.now.columns grid.now.rows)) v.items) }
    ensures rows { IfOk result (λ v. rows_used v.items ≤ 100 * length children.now) }
{
    let spans = spans_of(alloc, children, count)?;
    match stand(alloc, &spans, grid.columns, grid.rows) {
        Ok(places) => Ok(places),
        Err(_) => Err(LayoutFault::NoMemory),
    }
}

// How many rows a grid has.
fn row_count(rows: Option<u32>, places: &[Option<Cells>]) -> u32
    requires { rows_used places.now ≤ 100 * 65536 }
    ensures { result ≡ row_count rows places.now }
{
    match rows {
        Some(rows) => rows,
        None => rows_used(places),
    }
}

// The columns of a grid.
fn columns_of(alloc: Global, grid: &GridStyle, basis: Basis) -> Result<Vec<Span>, LayoutFault>
    requires { IsGridStyle grid.now }
    ensures exact { Gives (λ v. v.items) told result (columns_of grid.now basis) }
    ensures tracks { IfOk result (λ v. AreTracks v.items) }
    ensures count { IfOk result (λ v. length v.items ≡ grid.now.columns) }
{
    track_spans(
        alloc,
        Axis::Width,
        grid.gutter_horizontal,
        grid.column_tracks.as_slice(),
        grid.columns,
        basis,
    )
}

// Its rows.
fn rows_of(
    alloc: Global,
    grid: &GridStyle,
    basis: Basis,
    places: &[Option<Cells>],
) -> Result<Vec<Span>, LayoutFault>
    requires grid { IsGridStyle grid.now }
    requires used { rows_used places.now ≤ 100 * 65536 }
    ensures exact { Gives (λ v. v.items) told result (rows_of grid.now basis places.now) }
    ensures tracks { IfOk result (λ v. AreTracks v.items) }
    ensures count { IfOk result (λ v. length v.items ≡ row_count grid.now.rows places.now) }
{
    let count = row_count(grid.rows, places);
    track_spans(
        alloc,
        Axis::Height,
        grid.gutter_vertical,
        grid.row_tracks.as_slice(),
        count,
        basis,
    )
}

// A child with its cells in the tracks.
fn frame_of(child: Child, cells: Cells, columns: &[Span], rows: &[Span], count: u32) -> Framed
    requires child { IsChild count child }
    requires columns { AreTracks columns.now }
    requires rows { AreTracks rows.now }
    requires wide { 1 ≤ cells.columns }
    requires few_columns { cells.columns ≤ 100 }
    requires in_columns { cells.column + cells.columns ≤ length columns.now }
    requires high { 1 ≤ cells.rows }
    requires few_rows { cells.rows ≤ 100 }
    requires in_rows { cells.row + cells.rows ≤ length rows.now }
    ensures exact { result ≡ frame_with columns.now rows.now child cells }
    ensures framed { IsFramed count result }
{
    Framed {
        child,
        columns: side_over(columns, cells.column, cells.columns),
        rows: side_over(rows, cells.row, cells.rows),
    }
}

// The area of a child.
fn area_of(framed: &Framed) -> Size
    ensures { result ≡ area_of framed.now }
{
    Size {
        width: framed.columns.size,
        height: framed.rows.size,
    }
}

// Cells of a child from its margin in its area on, cut to its base there.
fn cut_side(framed: &Framed, axis: Axis, size: u32, count: u32) -> Side
    requires { IsFramed count framed.now }
    ensures exact { result ≡ cut_side axis framed.now size }
    ensures side { IsSide result }
{
    let base = area_of(framed).less(framed.child.style.margin);
    let frame = match axis {
        Axis::Width => framed.columns,
        Axis::Height => framed.rows,
    };
    Side {
        from: frame.from + framed.child.style.margin.before(axis) as u64,
        size: size.min(base.along(axis)),
    }
}

// A child by itself in its area.
#[tactic(auto, unfolding(crate::specs::Grid::sized_in))]
fn sized_in<F: Fn(Ask) -> Result<u32, LayoutFault>>(
    framed: &Framed,
    axis: Axis,
    screen: Size,
    count: u32,
    measure: &F,
) -> Result<Framed, LayoutFault>
    requires callable { (ask : Ask) → ask.child < count → F.pre measure.now ask }
    requires framed { IsFramed count framed.now }
    ensures exact { (meaning : Ask → Option ℕ) → Means (F.post measure.now) count meaning → Gives (λ f. f) told result (sized_in meaning axis screen framed.now) }
    ensures framed { IfOk result (IsFramed count) }
{
    let area = area_of(framed);
    let child = across_one(&framed.child, axis, Basis { area, screen }, count, measure)?;
    Ok(cut_in(framed, axis, &child, count))
}

// A child that has its size in its area.
fn cut_in(framed: &Framed, axis: Axis, child: &Child, count: u32) -> Framed
    requires framed { IsFramed count framed.now }
    requires child { IsChild count child.now }
    ensures exact { result ≡ cut_in axis framed.now child.now }
    ensures framed { IsFramed count result }
{
    let size = match axis {
        Axis::Width => child.wide.size,
        Axis::Height => child.tall.size,
    };
    let side = cut_side(framed, axis, size, count);
    Framed {
        child: with_side(child, axis, side, count),
        ..*framed
    }
}

// Gives children their sizes in one direction, each by itself in its area.
fn all_sized_in<F: Fn(Ask) -> Result<u32, LayoutFault>>(
    frames: &mut [Framed],
    axis: Axis,
    screen: Size,
    count: u32,
    measure: &F,
) -> Result<(), LayoutFault>
    requires callable { (ask : Ask) → ask.child < count → F.pre measure.now ask }
    requires frames { All (IsFramed count) frames.old }
    ensures exact { (meaning : Ask → Option ℕ)
        → Means (F.post measure.now) count meaning
        → Gives (λ _. frames.new) told result (each_of (sized_in meaning axis screen) frames.old) }
    ensures frames { All (IsFramed count) frames.new }
{
    for framed in frames.iter_mut() {
        *framed = sized_in(framed, axis, screen, count, measure)?;
    }
    Ok(())
}

// Gives children their widths, and then their heights.
#[tactic(auto, unfolding(crate::specs::Grid::sized_frames))]
fn sized_frames<F: Fn(Ask) -> Result<u32, LayoutFault>>(
    frames: &mut [Framed],
    screen: Size,
    count: u32,
    measure: &F,
) -> Result<(), LayoutFault>
    requires callable { (ask : Ask) → ask.child < count → F.pre measure.now ask }
    requires frames { All (IsFramed count) frames.old }
    ensures exact { (meaning : Ask → Option ℕ)
        → Means (F.post measure.now) count meaning
        → Gives (λ _. frames.new) told result (sized_frames meaning screen frames.old) }
    ensures frames { All (IsFramed count) frames.new }
{
    all_sized_in(frames, Axis::Width, screen, count, measure)?;
    all_sized_in(frames, Axis::Height, screen, count, measure)
}

// The children that are placed, with their cells in the tracks.
fn framed(
    alloc: Global,
    columns: &[Span],
    rows: &[Span],
    places: &[Option<Cells>],
    children: &[Child],
    count: u32,
) -> Result<Vec<Framed>, LayoutFault>
    requires columns { AreTracks columns.now }
    requires rows { AreTracks rows.now }
    requires children { All (IsChild count) children.now }
    requires one_each { length places.now ≡ length children.now }
    requires inside { All (λ place. IfSome place (AreInTracks columns.now rows.now)) places.now }
    ensures exact { Gives (λ v. v.items) told result (Ok (framed columns.now rows.now places.now children.now)) }
    ensures frames { IfOk result (λ v. All (IsFramed count) v.items) }
{
    let mut frames = Vec::with_capacity(alloc, children.len())?;
    for (index, child) in children.iter().enumerate() {
        let Some(cells) = places[index] else {
            continue;
        };
        frames.push(frame_of(*child, cells, columns, rows, count))?;
    }
    Ok(frames)
}

// The children of frames.
fn children_of(alloc: Global, frames: &[Framed], count: u32) -> Result<Vec<Child>, LayoutFault>
    requires { All (IsFramed count) frames.now }
    ensures exact { Gives (λ v. v.items) told result (Ok (map (λ (f : Framed). f.child) frames.now)) }
    ensures children { IfOk result (λ v. All (IsChild count) v.items) }
{
    let mut children = Vec::with_capacity(alloc, frames.len())?;
    for framed in frames {
        children.push(framed.child)?;
    }
    Ok(children)
}

// Placed children in the cells of tracks.
fn grid_with(
    alloc: Global,
    columns: &[Span],
    rows: &[Span],
    frames: &[Framed],
    count: u32,
) -> Result<LaidFlow, LayoutFault>
    requires columns { AreTracks columns.now }
    requires rows { AreTracks rows.now }
    requires frames { All (IsFramed count) frames.now }
    ensures exact { Gives seen_flow told result (Ok (grid_with columns.now rows.now frames.now)) }
    ensures flow { IfOk result (IsFlow count) }
{
    let children = children_of(alloc, frames, count)?;
    Ok(LaidFlow {
        children,
        wide: tracks_end(columns),
        tall: tracks_end(rows),
    })
}

/// The flow of a grid with its cells.
#[tactic(auto, unfolding(crate::specs::Grid::grid_of))]
pub fn grid_of<F: Fn(Ask) -> Result<u32, LayoutFault>>(
    alloc: Global,
    children: &[Child],
    grid: &GridStyle,
    setting: Setting,
    measure: &F,
) -> Result<LaidFlow, LayoutFault>
    requires grid { IsGridStyle grid.now }
    requires callable { (ask : Ask) → ask.child < setting.count → F.pre measure.now ask }
    requires children { All (IsChild setting.count) children.now }
    requires count { length children.now ≤ 65536 }
    ensures exact { (meaning : Ask → Option ℕ)
        → Means (F.post measure.now) setting.count meaning
        → Gives seen_flow told result (grid_of meaning grid.now setting.basis children.now) }
    ensures flow { IfOk result (IsFlow setting.count) }
{
    let columns = columns_of(alloc, grid, setting.basis)?;
    let places = cells_of(alloc, grid, children, setting.count)?;
    let rows = rows_of(alloc, grid, setting.basis, &places)?;
    let mut frames = framed(alloc, &columns, &rows, &places, children, setting.count)?;
    sized_frames(&mut frames, setting.basis.screen, setting.count, measure)?;
    grid_with(alloc, &columns, &rows, &frames, setting.count)
}

// How far the columns go.
fn columns_end(alloc: Global, grid: &GridStyle, basis: Basis) -> Result<u64, LayoutFault>
    requires { IsGridStyle grid.now }
    ensures exact { Gives (λ n. n) told result (columns_end grid.now basis) }
    ensures bound { IfOk result (λ n. n < 2 ^ 42) }
{
    let columns = columns_of(alloc, grid, basis)?;
    Ok(tracks_end(&columns))
}

// How far the rows go. The columns come first, as a step that may be refused.
fn rows_end(
    alloc: Global,
    children: &[Child],
    grid: &GridStyle,
    basis: Basis,
    count: u32,
) -> Result<u64, LayoutFault>
    requires grid { IsGridStyle grid.now }
    requires children { All (IsChild count) children.now }
    requires count { length children.now ≤ 65536 }
    ensures exact { Gives (λ n. n) told result (rows_end grid.now basis children.now) }
    ensures bound { IfOk result (λ n. n < 2 ^ 42) }
{
    columns_end(alloc, grid, basis)?;
    let places = cells_of(alloc, grid, children, count)?;
    let rows = rows_of(alloc, grid, basis, &places)?;
    Ok(tracks_end(&rows))
}

/// How far the tracks go in a direction.
#[tactic(auto, unfolding(crate::specs::Grid::grid_extent))]
pub fn grid_extent(
    alloc: Global,
    children: &[Child],
    grid: &GridStyle,
    axis: Axis,
    setting: Setting,
) -> Result<u64, LayoutFault>
    requires grid { IsGridStyle grid.now }
    requires children { All (IsChild setting.count) children.now }
    requires count { length children.now ≤ 65536 }
    ensures exact { Gives (λ n. n) told result (grid_extent grid.now axis setting.basis children.now) }
    ensures bound { IfOk result (λ n. n < 2 ^ 42) }
{
    match axis {
        Axis::Width => columns_end(alloc, grid, setting.basis),
        Axis::Height => rows_end(alloc, children, grid, setting.basis, setting.count),
    }
}
