//! The cells of a line of the screen.

ghost use Rattle.std.specs.Prelude.{◌≡◌, ◌<◌, IfOk, OnOk, None, get_or, slice_get, length, option_copied, nat_abs, pos, ◌-ℤ◌};
ghost use Rattle.tx_cell.specs.Strip.{before_end, behind_start};
ghost use Rattle.tx_geom.specs.Region.{IsAmong};
ghost use Rattle.tx_picture.specs.Cells.{Covers, CoversAt, OwnersCover, cell_by};
ghost use Rattle.tx_picture.specs.Picture.{drawn_in, empty, is_place, kept_half, left_owner, shown_cell, shown_line};
ghost use Rattle.tx_picture.specs.Ticks.{Composed, ComposedAtMost};

use std::alloc::Global;
use tx_cell::{Cell, Pen};
use tx_geom::Region;
use tx_io::{Ledger, Steps, Tick};
use tx_map::Entry;
use tx_paint::Drawing;
use tx_text::NoMemory;

// What shows where there is no row.
fn empty() -> Cell
    ensures { result ≡ empty }
{
    Cell::blank(Pen::WHITE_ON_BLACK)
}

// A column or line of the screen, counted from the place with which some begin that it is one of.
fn counted_from(from: i64, count: u32, at: u32) -> u32
    requires among { IsAmong from count (pos at) }
    ensures within { result < count }
    ensures exact { result ≡ nat_abs (pos at -ℤ from) }
{
    (at as i64 - from) as u32
}

// What a drawing shows at a cell of the screen that it covers.
fn drawn_in(region: Region, drawing: &Drawing, x: u32, y: u32) -> Cell
    requires covers { Covers region drawing.now x y }
    ensures { result ≡ drawn_in region drawing.now x y }
{
    let column = counted_from(region.x, region.width, x);
    let line = counted_from(region.y, region.height, y);
    drawing.at(column, line)
}

// The entry at a place, if there is one.
fn entry_at(entries: &[Entry], place: usize) -> Option<&Entry>
    ensures { option_copied result ≡ slice_get entries.now place }
{
    entries.get(place)
}

// The drawing at a place, if there is one.
fn drawing_at(drawings: &[Option<Drawing>], place: usize) -> Option<&Drawing>
    ensures { option_copied result ≡ get_or drawings.now place None }
{
    match drawings.get(place) {
        Some(drawing) => drawing.as_ref(),
        None => None,
    }
}

// What the entry at a place shows at a cell.
fn cell_by(entries: &[Entry], drawings: &[Option<Drawing>], place: usize, x: u32, y: u32) -> Cell
    requires covers { CoversAt entries.now drawings.now y place x }
    ensures { result ≡ cell_by entries.now drawings.now y place x }
{
    let Some(entry) = entry_at(entries, place) else {
        return empty();
    };
    let Some(drawing) = drawing_at(drawings, place) else {
        return empty();
    };
    drawn_in(entry.region, drawing, x, y)
}

// Whether an owner is the entry at a place.
fn is_place(place: usize, owner: Option<usize>) -> bool
    ensures { result ≡ is_place place owner }
{
    match owner {
        Some(other) => other == place,
        None => false,
    }
}

// The owner in a column of a line; none off the line.
fn owner_at(owners: &[Option<usize>], x: usize) -> Option<usize>
    ensures { result ≡ get_or owners.now x None }
{
    match owners.get(x) {
        Some(owner) => *owner,
        None => None,
    }
}

// The owner of the cell to the left of a column.
fn left_owner(owners: &[Option<usize>], x: usize) -> Option<usize>
    ensures { result ≡ left_owner owners.now x }
{
    if x == 0 {
        None
    } else {
        owner_at(owners, x - 1)
    }
}

// A cell behind the left end of what its row owns, if it is that.
fn behind_start(is_first: bool, cell: Cell) -> Cell
    ensures { result ≡ behind_start is_first cell }
{
    if is_first && cell.tail() {
        Cell::blank(cell.pen())
    } else {
        cell
    }
}

// A cell before the right end of what its row owns, if it is that.
fn before_end(is_last: bool, cell: Cell) -> Cell
    ensures { result ≡ before_end is_last cell }
{
    if is_last && cell.width() > 1 {
        Cell::blank(cell.pen())
    } else {
        cell
    }
}

// A cell, or a blank of its pen where it is a half whose other half its row doesn't own.
fn kept_half(left: bool, right: bool, cell: Cell) -> Cell
    ensures { result ≡ kept_half left right cell }
{
    before_end(!right, behind_start(!left, cell))
}

// What shows in a column of a line.
fn shown_cell(
    entries: &[Entry],
    drawings: &[Option<Drawing>],
    owners: &[Option<usize>],
    x: u32,
    y: u32,
) -> Cell
    requires covers { OwnersCover entries.now drawings.now y owners.now }
    ensures { result ≡ shown_cell (cell_by entries.now drawings.now y) owners.now x }
{
    let at = x as usize;
    let Some(place) = owner_at(owners, at) else {
        return empty();
    };
    let cell = cell_by(entries, drawings, place, x, y);
    let left = is_place(place, left_owner(owners, at));
    let right = is_place(place, owner_at(owners, at + 1));
    kept_half(left, right, cell)
}

/// The cells of a line with these owners. Each is a `Cell` in `steps`.
#[tactic(auto, unfolding(crate::specs::Picture::shown_line))]
pub fn line_of<L: Ledger>(
    alloc: Global,
    entries: &[Entry],
    drawings: &[Option<Drawing>],
    owners: &[Option<usize>],
    width: u32,
    y: u32,
    steps: &mut Steps<L>,
) -> Result<Vec<Cell>, NoMemory>
    requires covers { OwnersCover entries.now drawings.now y owners.now }
    requires width { length owners.now ≡ width }
    ensures cells { IfOk result (λ cells. cells.items ≡ shown_line (cell_by entries.now drawings.now y) owners.now) }
    ensures all { OnOk result (Composed L.ticked width steps.old.ledger steps.new.ledger) }
    ensures ticks { ComposedAtMost L.ticked width steps.old.ledger steps.new.ledger }
{
    let mut cells = Vec::with_capacity(alloc, width as usize)?;
    for x in 0..width {
        cells.push(shown_cell(entries, drawings, owners, x, y))?;
        steps.tick(Tick::Cell);
    }
    Ok(cells)
}
