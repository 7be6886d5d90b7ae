//! The owners of all cells of a screen.

ghost use Rattle.std.specs.Prelude.{◌≡◌, ◌∷◌, ◌<◌, ℕ, IfOk, OnOk, List, [], All, length, map, Option, option_and_then, option_copied, slice_get, Some, if◌then◌else◌};
ghost use Rattle.std.specs.List.{range_with_len};
ghost use Rattle.std.specs.Option.{option_or};
ghost use Rattle.tx_cascade.specs.Styles.{all_styles};
ghost use Rattle.tx_node_map.specs.Held.{held};
ghost use Rattle.tx_owner.specs.Owner.{at_cell, first_cell, first_in, is_entry_of, line_owners, owner, owners, spot};
ghost use Rattle.tx_owner.specs.Panes.{first_at};

use crate::line::line_of;
use crate::pane::{Pane, topmost_first};
use std::alloc::{AllocError, Global};
use std::marker::Model;
use tx_cascade::Styles;
use tx_geom::Size;
use tx_map::{Entry, LayoutMap};
use tx_node_map::NodeMap;
use tx_text::{Items, NoMemory};
use tx_tree::NodeId;

/// The place of the owner of each cell of a line.
type Line = Items<Option<usize>>;

// The owners of the cells of all lines, by panes of which the first one counts.
fn lines_of(alloc: Global, panes: &[Pane<'_>], size: Size) -> Result<Vec<Line>, NoMemory>
    ensures { IfOk result (λ lines. lines.items ≡ map (λ y. map (λ x. first_at x y panes.now) (range_with_len 0 size.width)) (range_with_len 0 size.height)) }
{
    let mut lines = Vec::with_capacity(alloc, size.height as usize)?;
    for y in 0..size.height {
        let line = line_of(alloc, panes, size.width, y)?;
        lines.push(line)?;
    }
    Ok(lines)
}

// The owners of the cells of a screen.
fn owners_of(
    alloc: Global,
    entries: &[Entry],
    styles: &Styles,
    size: Size,
) -> Result<Vec<Line>, NoMemory>
    ensures { IfOk result (λ lines. lines.items ≡ owners (all_styles styles.now.sheet styles.now.state styles.now.rows) entries.now size) }
{
    let panes = topmost_first(alloc, entries, styles, size)?;
    let lines = lines_of(alloc, &panes, size)?;
    Ok(lines)
}

// The entry at a place, if there is one.
fn entry_at(entries: &[Entry], place: Option<usize>) -> Option<&Entry>
    ensures { option_copied result ≡ option_and_then (slice_get entries.now) place }
{
    match place {
        Some(place) => entries.get(place),
        None => None,
    }
}

// Says that the entry at a place, if there is one, owns a cell.
fn add_cell(
    spots: &mut NodeMap<(u32, u32)>,
    entries: &[Entry],
    owner: Option<usize>,
    cell: (u32, u32),
) -> Result<(), NoMemory>
    ensures { OnOk result ((n : ℕ) → held spots.new n ≡ (if is_entry_of entries.now n owner then Some cell else held spots.old n)) }
{
    let Some(entry) = entry_at(entries, owner) else {
        return Ok(());
    };
    let Ok(()) = spots.insert(entry.node, cell) else {
        return Err(AllocError);
    };
    Ok(())
}

// Says which rows own the cells of a line, the first of each last.
fn add_line(
    spots: &mut NodeMap<(u32, u32)>,
    entries: &[Entry],
    line: &[Option<usize>],
    width: u32,
    y: u32,
) -> Result<(), NoMemory>
    requires count { length line.now ≡ width }
    ensures { OnOk result ((n : ℕ) → held spots.new n ≡ option_or (first_in (is_entry_of entries.now n) y line.now) (held spots.old n)) }
{
    for x in (0..width).rev() {
        add_cell(spots, entries, line[x as usize], (x, y))?;
    }
    Ok(())
}

// The first cell that each row owns.
fn spots_of(
    alloc: Global,
    entries: &[Entry],
    lines: &[Line],
    size: Size,
) -> Result<NodeMap<(u32, u32)>, NoMemory>
    requires lines { length lines.now ≡ size.height }
    requires cells { All (λ line. length line ≡ size.width) lines.now }
    ensures { IfOk result (λ spots. (n : ℕ) → held spots n ≡ spot entries.now lines.now n) }
{
    let mut spots = NodeMap::new(alloc);
    for y in (0..size.height).rev() {
        let line = lines[y as usize].as_slice();
        add_line(&mut spots, entries, line, size.width, y)?;
    }
    Ok(spots)
}

// What stands at a cell of a line, where there is one.
fn cell_of(line: &[Option<usize>], x: u32) -> Option<usize>
    ensures { result ≡ option_and_then (λ place. place) (slice_get line.now x) }
{
    match line.get(x as usize) {
        Some(cell) => *cell,
        None => None,
    }
}

/// Which row of a layout map owns each cell of a screen, by the places of their entries in the map.
///
/// The owner of a cell is the visible row of greatest key among all whose region and clip hold the
/// cell; the Screen counts as visible. It is seen as the size of the screen, the owners line by line,
/// and where each row is met first.
#[derive(Drop)]
pub struct Owners {
    size: Size,
    lines: Vec<Line>,
    spots: NodeMap<(u32, u32)>,
}

impl Model for Owners {
    ghost use Rattle.tx_owner.specs.Owners.{OwnersValue};

    ghost Value = { OwnersValue };

    ghost view = { λ o. record { size = o.size; lines = o.lines.items; spots = o.spots } };
}

impl Owners {
    /// The owners of all cells of a screen of this size, by the rows' styles. A row without a style
    /// counts as visible. It takes 16 bytes a cell.
    pub fn of(
        alloc: Global,
        map: &LayoutMap,
        styles: &Styles,
        size: Size,
    ) -> Result<Owners, NoMemory>
        ensures size { IfOk result (λ o. o.size ≡ size) }
        ensures lines { IfOk result (λ o. o.lines ≡ owners (all_styles styles.now.sheet styles.now.state styles.now.rows) map.now size) }
        ensures spots { IfOk result (λ o. (n : ℕ) → held o.spots n ≡ spot map.now o.lines n) }
    {
        let lines = owners_of(alloc, map.entries(), styles, size)?;
        let spots = spots_of(alloc, map.entries(), &lines, size)?;
        Ok(Owners { size, lines, spots })
    }

    /// The size of the screen.
    pub fn size(&self) -> Size
        ensures { result ≡ self.now.size }
    {
        self.size
    }

    /// The place of the owner of the cell at column `x` of row `y`; None outside the screen, and where
    /// no row owns the cell. It takes no memory.
    pub fn at(&self, x: u32, y: u32) -> Option<usize>
        ensures { result ≡ at_cell self.now.lines x y }
    {
        match self.lines.get(y as usize) {
            Some(line) => cell_of(line.as_slice(), x),
            None => None,
        }
    }

    /// The places of the owners of the cells of row `y`; None exactly below the screen. It takes no
    /// memory.
    pub fn line(&self, y: u32) -> Option<&[Option<usize>]>
        ensures { option_copied result ≡ slice_get self.now.lines y }
    {
        match self.lines.get(y as usize) {
            Some(line) => Some(line.as_slice()),
            None => None,
        }
    }

    /// The first cell, line by line from the top left, that the row of a node owns; None exactly where
    /// it owns none. It takes no memory.
    pub fn spot(&self, node: NodeId) -> Option<(u32, u32)>
        ensures { result ≡ held self.now.spots node.0 }
    {
        match self.spots.get(node) {
            Some(cell) => Some(*cell),
            None => None,
        }
    }
}
