//! The screen of an application.

ghost use Rattle.std.specs.Prelude.{◌≡◌, ◌*◌, true, is_some, length, IfOk, OnOk, OnErr, option_map, option_copied};
ghost use Rattle.tx_cascade.specs.Reaching.{selectors_in};
ghost use Rattle.tx_compose.specs.Frame.{has_cell, reported, reported_entry};
ghost use Rattle.tx_compose.specs.Presented.{IsScreen, composed, presented};
ghost use Rattle.tx_compose.specs.Screen.{GoesOn, accepted, opened, refreshed, refused};
ghost use Rattle.tx_compose.specs.Ticks.{RefreshTicks};
ghost use Rattle.tx_map.specs.Faults.{told};
ghost use Rattle.tx_picture.specs.Given.{AreBuiltIn};
ghost use Rattle.tx_read.specs.Answer.{Gives};
ghost use Rattle.tx_widgets.specs.Frame.{IsFrame};

use crate::composing::made_of;
use crate::frame::Frame;
use std::alloc::Global;
use std::marker::Model;
use tx_cascade::Edit;
use tx_cell::{Cell, Grid, Pen};
use tx_geom::{Region, Size};
use tx_io::{Ledger, Steps};
use tx_map::{ComposeFault, Entry, Present};
use tx_parse::Sheet;
use tx_text::NoMemory;
use tx_tree::NodeId;

/// What an application shows, refresh by refresh: the next grid, and the frame of the last refresh
/// that was accepted.
///
/// A refresh is accepted where it answers Ok and [`Screen::accept`] comes before the next one, and
/// else it is refused. A screen is seen as its sheet, the next grid, what that shows where the last
/// refresh answered Ok, what the last accepted refresh showed, and whether the next one goes on from
/// that.
#[derive(Drop)]
pub struct Screen {
    alloc: Global,
    sheet: Sheet,
    grid: Grid,
    // Of the last refresh, where it answered Ok.
    next: Option<Frame>,
    // Of the last accepted refresh, where the next one doesn't go on from it.
    past: Option<Frame>,
    // Whether the next refresh goes on from the last one.
    goes_on: bool,
}

impl Model for Screen {
    ghost use Rattle.std.specs.Prelude.{◌≡◌, true, is_some, if◌then◌else◌};
    ghost use Rattle.tx_compose.specs.Screen.{ScreenValue};

    ghost Value = { ScreenValue };

    ghost view = { λ s. record { sheet = s.sheet; grid = s.grid; next = s.next; accepted = if s.goes_on then s.next else s.past; goes_on = s.goes_on } };
}

impl Screen {
    /// A screen that nothing was shown on, whose next grid has blanks in white on black. Its sides
    /// are from 1 to 1,024 and from 1 to 512.
    pub fn open(alloc: Global, sheet: Sheet, size: Size) -> Result<Screen, NoMemory>
        requires size { IsScreen size }
        ensures { IfOk result (λ screen. screen ≡ opened sheet size) }
    {
        let grid = Grid::open(alloc, size, Cell::blank(Pen::WHITE_ON_BLACK))?;
        Ok(Screen {
            alloc,
            sheet,
            grid,
            next: None,
            past: None,
            goes_on: false,
        })
    }

    /// Makes the next grid and its frame: the picture of what is shown. Each cell shows what the row
    /// that owns it draws there.
    ///
    /// The sides of the screen are from 1 to 1,024 and from 1 to 512, and no row is of a kind that is
    /// handed in. Where the last refresh was accepted, the edits lead from what it showed to what is
    /// shown: every part of the tree, of the pseudo state, of the scrolls and of the size in which
    /// these differ is named by one of them. A row that took part counts as scrolled as far as the
    /// accepted frame keeps it in range. The first refresh, and each one after a refused one, starts
    /// from nothing.
    ///
    /// At most one `Test` is ticked for each selector of the sheet and the default sheet at each row,
    /// at most four `Arranged` for each row, and one `Cell` for each cell of the screen.
    ///
    /// # Errors
    ///
    /// Fraction exactly where the picture is undefined: where the arrangement of a row would need a
    /// fraction of more than 128 bits, with the first such row in the order of the document and its
    /// direction; no cell is composed then. And NoMemory. After an error the next refresh starts from
    /// nothing, and the accepted frame stays as it was.
    pub fn refresh<L: Ledger>(
        &mut self,
        present: &Present<'_>,
        edits: &[Edit],
        steps: &mut Steps<L>,
    ) -> Result<(), ComposeFault>
        requires size { IsScreen present.now.size }
        requires built_in { AreBuiltIn present.now.tree.now.rows }
        requires edits { GoesOn self.old edits.now (presented self.old.sheet present.now.tree.now.rows present.now.pseudo.now present.now.scrolls.now present.now.size) }
        ensures exact { Gives (λ _. self.new.grid) told result (composed (presented self.old.sheet present.now.tree.now.rows present.now.pseudo.now present.now.scrolls.now present.now.size)) }
        ensures ok { OnOk result (self.new ≡ refreshed self.old (presented self.old.sheet present.now.tree.now.rows present.now.pseudo.now present.now.scrolls.now present.now.size) self.new.grid) }
        ensures err { OnErr result (self.new ≡ refused self.old) }
        ensures ticks { RefreshTicks L.ticked (selectors_in self.old.sheet * length present.now.tree.now.rows) (4 * length present.now.tree.now.rows) present.now.size result steps.old.ledger steps.new.ledger }
    {
        let _edits = edits;
        self.begin();
        match made_of(self.alloc, &self.sheet, present, steps) {
            Ok(made) => {
                self.grid = made.grid;
                self.next = Some(made.frame);
                Ok(())
            }
            Err(fault) => Err(fault),
        }
    }

    // What comes first in each refresh, which counts as refused until it answers Ok.
    fn begin(&mut self)
        ensures { self.new ≡ refused self.old }
    {
        if self.goes_on {
            self.past = self.next.take();
            self.goes_on = false;
        } else {
            self.next = None;
        }
    }

    /// Makes the next frame the last accepted one. The last refresh has to have answered Ok. It takes
    /// no memory.
    pub fn accept(&mut self)
        requires { is_some self.old.next ≡ true }
        ensures { self.new ≡ accepted self.old }
    {
        self.past = None;
        self.goes_on = true;
    }

    /// The next grid: that of the last refresh which answered Ok, and before the first one blanks. It
    /// takes no memory.
    pub fn next(&self) -> &Grid
        ensures { result.now ≡ self.now.grid }
    {
        &self.grid
    }

    // The frame of the last accepted refresh, if there was one.
    fn frame(&self) -> Option<&Frame>
        ensures { option_copied result ≡ self.now.accepted }
    {
        if self.goes_on {
            self.next.as_ref()
        } else {
            self.past.as_ref()
        }
    }

    // The entry of a row in the frame of the last accepted refresh.
    fn entry(&self, node: NodeId) -> Option<&Entry>
        ensures { option_copied result ≡ reported_entry self.now.accepted node }
    {
        match self.frame() {
            Some(frame) => frame.entry(node),
            None => None,
        }
    }

    /// The row that owns the cell in column `x` of row `y`, in the frame of the last accepted refresh;
    /// None exactly where there is no such frame or the cell is outside it. It takes no memory.
    pub fn owner(&self, x: u32, y: u32) -> Option<NodeId>
        ensures owner { result ≡ (reported self.now.accepted).owner x y }
        ensures some { is_some result ≡ has_cell self.now.accepted x y }
        ensures frame { IsFrame (reported self.now.accepted) }
    {
        match self.frame() {
            Some(frame) => frame.owner(x, y),
            None => None,
        }
    }

    /// The first cell, line by line from the top left, that a row owns in the frame of the last
    /// accepted refresh; None exactly where it owns none. It takes no memory.
    pub fn spot(&self, node: NodeId) -> Option<(u32, u32)>
        ensures spot { result ≡ (reported self.now.accepted).spot node }
        ensures frame { IsFrame (reported self.now.accepted) }
    {
        match self.frame() {
            Some(frame) => frame.spot(node),
            None => None,
        }
    }

    /// The whole region of a row in the frame of the last accepted refresh, also where it is clipped
    /// away; None exactly where it has none there. It takes no memory.
    pub fn region(&self, node: NodeId) -> Option<Region>
        ensures { result ≡ (reported self.now.accepted).region node }
    {
        match self.entry(node) {
            Some(entry) => Some(entry.region),
            None => None,
        }
    }

    /// Whether a row has a region in the frame of the last accepted refresh and is visible. The
    /// Screen counts as visible. It takes no memory.
    pub fn shown(&self, node: NodeId) -> bool
        ensures { result ≡ (reported self.now.accepted).shown node }
    {
        match self.frame() {
            Some(frame) => frame.shown(node),
            None => false,
        }
    }

    /// The room for the children of a row beside its bars, in the frame of the last accepted refresh;
    /// None exactly where it has none there. It takes no memory.
    pub fn viewport(&self, node: NodeId) -> Option<Size>
        ensures { result ≡ option_map (λ entry. entry.viewport) (reported_entry self.now.accepted node) }
    {
        match self.entry(node) {
            Some(entry) => Some(entry.viewport),
            None => None,
        }
    }

    /// How far a row is scrolled to the right and down, as the frame of the last accepted refresh
    /// keeps it in range; None exactly where it has no scroll there. It takes no memory.
    pub fn scroll(&self, node: NodeId) -> Option<(u32, u32)>
        ensures { result ≡ option_map (λ entry. entry.scroll) (reported_entry self.now.accepted node) }
    {
        match self.entry(node) {
            Some(entry) => Some(entry.scroll),
            None => None,
        }
    }
}
