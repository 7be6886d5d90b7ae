//! One line of the screen, while its cells are given to their owners.

ghost use Rattle.std.specs.Prelude.{◌≡◌, ◌+◌, ◌≤◌, ◌<◌, ℕ, IfOk, length, [], ◌∷◌, None, Some, replicate, slice_set, map, true};
ghost use Rattle.std.specs.List.{range_with_len};
ghost use Rattle.std.specs.Option.{option_or};
ghost use Rattle.tx_owner.specs.Lines.{AreOwned, LeadsTo, LinksLead, claimed, held_at};
ghost use Rattle.tx_owner.specs.Panes.{first_at};

use crate::pane::Pane;
use std::alloc::Global;
use std::marker::Model;
use tx_text::{Items, NoMemory};

// The owners of a line's cells so far. A link leads from each column to a later one, or to the end,
// over cells that have owners; a column whose cell has none leads to itself.
#[derive(Drop)]
struct Line {
    width: u32,
    cells: Vec<Option<usize>>,
    links: Vec<u32>,
}

impl Model for Line {
    ghost use Rattle.std.specs.Prelude.{◌≡◌, ℕ, List, length, Option};
    ghost use Rattle.tx_owner.specs.Lines.{LinksLead};

    ghost Value = { List (Option ℕ) };

    ghost view = { λ line. line.cells.items };

    ghost invariant = { λ line. LinksLead line.cells.items line.links.items × (length line.cells.items ≡ line.width) };
}

// The links of a line in which no cell has an owner.
fn links_of(alloc: Global, width: u32) -> Result<Vec<u32>, NoMemory>
    ensures { IfOk result (λ links. links.items ≡ range_with_len 0 (width + 1)) }
{
    let mut links = Vec::with_capacity(alloc, width as usize + 1)?;
    for at in 0..width {
        links.push(at)?;
    }
    links.push(width)?;
    Ok(links)
}

// The cells of a line in which none has an owner.
fn cells_of(alloc: Global, width: u32) -> Result<Vec<Option<usize>>, NoMemory>
    ensures { IfOk result (λ cells. cells.items ≡ replicate width None) }
{
    let mut cells = Vec::with_capacity(alloc, width as usize)?;
    for _ in 0..width {
        cells.push(None)?;
    }
    Ok(cells)
}

impl Line {
    // A line in which no cell has an owner.
    fn open(alloc: Global, width: u32) -> Result<Line, NoMemory>
        ensures { IfOk result (λ line. line ≡ replicate width None) }
    {
        let cells = cells_of(alloc, width)?;
        let links = links_of(alloc, width)?;
        Ok(Line {
            width,
            cells,
            links,
        })
    }

    // The first column from one on whose cell has no owner, or the end. Links on the way are led
    // further.
    fn free_from(&mut self, from: u32) -> u32
        requires within { from ≤ length self.old }
        ensures same { self.new ≡ self.old }
        ensures leads { LeadsTo self.old from result }
        ensures free { result < length self.old → held_at self.old result ≡ None }
    {
        let mut at = from;
        while self.links[at as usize] != at {
            let next = self.links[at as usize];
            let further = self.links[next as usize];
            self.links[at as usize] = further;
            at = further;
        }
        at
    }

    // Gives a cell without an owner to one.
    fn give(&mut self, at: u32, place: usize)
        requires within { at < length self.old }
        ensures { self.new ≡ slice_set self.old at (Some place) }
    {
        self.cells[at as usize] = Some(place);
        self.links[at as usize] = at + 1;
    }

    // Gives those cells from one on, up to another, that have no owner yet to one.
    fn claim_within(&mut self, from: u32, end: u32, place: usize)
        requires on { from < end }
        requires within { end ≤ length self.old }
        ensures count { length self.new ≡ length self.old }
        ensures cells { (x : ℕ) → held_at self.new x ≡ claimed from end place x (held_at self.old x) }
    {
        let mut at = self.free_from(from);
        while at < end {
            self.give(at, place);
            at = self.free_from(at + 1);
        }
    }

    // The same, as far as the line goes.
    fn claim(&mut self, from: u32, end: u32, place: usize)
        ensures count { length self.new ≡ length self.old }
        ensures cells { (x : ℕ) → x < length self.old → held_at self.new x ≡ claimed from end place x (held_at self.old x) }
    {
        let end = end.min(self.width);
        if from < end {
            self.claim_within(from, end, place);
        }
    }

    // Whether each cell has an owner.
    fn is_full(&mut self) -> bool
        ensures same { self.new ≡ self.old }
        ensures full { result ≡ true → AreOwned self.old 0 (length self.old) }
    {
        self.free_from(0) == self.width
    }

    // Gives those cells of a pane on this line that have no owner yet to its entry.
    fn claim_pane(&mut self, pane: &Pane<'_>, y: u32)
        ensures count { length self.new ≡ length self.old }
        ensures cells { (x : ℕ) → x < length self.old → held_at self.new x ≡ option_or (held_at self.old x) (first_at x y (pane.now ∷ [])) }
    {
        if pane.is_on(y) {
            self.claim(pane.left(), pane.right(), pane.place());
        }
    }

    // Gives those cells of each of some panes in turn that have no owner yet to its entry.
    fn claim_all(&mut self, panes: &[Pane<'_>], y: u32)
        ensures count { length self.new ≡ length self.old }
        ensures cells { (x : ℕ) → x < length self.old → held_at self.new x ≡ option_or (held_at self.old x) (first_at x y panes.now) }
    {
        for pane in panes {
            if self.is_full() {
                return;
            }
            self.claim_pane(pane, y);
        }
    }

    // The owners of the cells.
    fn into_cells(self) -> Items<Option<usize>>
        ensures { result ≡ self }
    {
        Items::of(self.cells)
    }
}

/// The owners of the cells of a line of the screen: at each cell the first of some panes that covers
/// it, by the place of its entry.
pub fn line_of(
    alloc: Global,
    panes: &[Pane<'_>],
    width: u32,
    y: u32,
) -> Result<Items<Option<usize>>, NoMemory>
    ensures { IfOk result (λ line. line ≡ map (λ x. first_at x y panes.now) (range_with_len 0 width)) }
{
    let mut line = Line::open(alloc, width)?;
    line.claim_all(panes, y);
    Ok(line.into_cells())
}
