//! What is kept of a picture.

ghost use Rattle.std.specs.Prelude.{ℕ, ◌≡◌, ◌∷◌, ◌&&◌, false, nat_lt, Some, None, Ok, IfOk, is_some, option_map, option_copied, slice_get};
ghost use Rattle.std.specs.Option.{option_map_or};
ghost use Rattle.tx_cascade.specs.Styles.{all_styles, scene};
ghost use Rattle.tx_compose.specs.Frame.{entry_in, frame_of, frame_with, is_on};
ghost use Rattle.tx_compose.specs.Kept.{AreOwned, IsKept, node_at};
ghost use Rattle.tx_compose.specs.Presented.{Presented, map_of, presented, styles_of};
ghost use Rattle.tx_compose.specs.Seen.{AreSeen};
ghost use Rattle.tx_node_map.specs.Held.{held};
ghost use Rattle.tx_owner.specs.Owner.{is_seen, owners, spot};
ghost use Rattle.tx_picture.specs.Given.{AreOwners};
ghost use Rattle.tx_widgets.specs.Frame.{IsFrame};

use crate::seen::seen_of;
use std::alloc::Global;
use std::marker::Model;
use std::snapshot::Snapshot;
use tx_cascade::Styles;
use tx_geom::{Region, Size};
use tx_map::laws::{nodes_have_one_entry, screen_fills};
use tx_map::{Entry, LayoutMap, Present, Scrolls};
use tx_node_map::NodeMap;
use tx_owner::Owners;
use tx_owner::laws::{each_cell_is_owned, owners_are_of_cells, topmost_is_that};
use tx_parse::Sheet;
use tx_select::Pseudo;
use tx_text::NoMemory;
use tx_tree::{NodeId, Tree};

/// What is kept of a picture: where its rows stand, which of them are visible, and which row owns each
/// cell. It is seen as what the picture shows.
#[derive(Drop)]
pub struct Frame {
    sheet: Snapshot<Sheet>,
    tree: Snapshot<Tree>,
    pseudo: Snapshot<Pseudo>,
    scrolls: Snapshot<Scrolls>,
    size: Size,
    map: LayoutMap,
    owners: Owners,
    seen: NodeMap<bool>,
}

impl Model for Frame {
    ghost use Rattle.tx_compose.specs.Kept.{IsKept};
    ghost use Rattle.tx_compose.specs.Presented.{Presented};
    ghost use Rattle.tx_node_map.specs.Held.{held};

    ghost Value = { Presented };

    ghost view = { λ f. record { sheet = f.sheet.value; rows = f.tree.value.rows; pseudo = f.pseudo.value; scrolls = f.scrolls.value; size = f.size } };

    ghost invariant = { λ f. IsKept (record { sheet = f.sheet.value; rows = f.tree.value.rows; pseudo = f.pseudo.value; scrolls = f.scrolls.value; size = f.size }) f.map f.owners (held f.seen) };
}

// Whether a cell is on a screen of this size.
fn is_on(size: Size, x: u32, y: u32) -> bool
    ensures { result ≡ is_on size x y }
{
    x < size.width && y < size.height
}

// The node of the entry at a place, if there is one.
fn node_at(entries: &[Entry], place: Option<usize>) -> Option<NodeId>
    ensures { result ≡ node_at entries.now place }
{
    match place {
        Some(at) => match entries.get(at) {
            Some(entry) => Some(entry.node),
            None => None,
        },
        None => None,
    }
}

impl Frame {
    /// The frame of the picture of what is shown, of which these are the styles, the map and the
    /// owners.
    pub fn of(
        alloc: Global,
        sheet: &Sheet,
        present: &Present<'_>,
        styles: &Styles,
        map: LayoutMap,
        owners: Owners,
    ) -> Result<Frame, NoMemory>
        requires styles { styles.now ≡ scene sheet.now present.now.tree.now.rows present.now.pseudo.now }
        requires map { map_of (presented sheet.now present.now.tree.now.rows present.now.pseudo.now present.now.scrolls.now present.now.size) ≡ Ok map }
        requires owners { AreOwners (all_styles sheet.now present.now.pseudo.now present.now.tree.now.rows) map present.now.size owners }
        ensures { IfOk result (λ frame. frame ≡ presented sheet.now present.now.tree.now.rows present.now.pseudo.now present.now.scrolls.now present.now.size) }
    {
        let _root = present.tree.root();
        topmost_is_that();
        owners_are_of_cells();
        each_cell_is_owned();
        screen_fills();
        nodes_have_one_entry();
        let seen = seen_of(alloc, styles, map.entries())?;
        Ok(Frame {
            sheet: Snapshot::of(sheet),
            tree: Snapshot::of(present.tree),
            pseudo: Snapshot::of(present.pseudo),
            scrolls: Snapshot::of(present.scrolls),
            size: present.size,
            map,
            owners,
            seen,
        })
    }

    /// The row that owns a cell; None exactly outside the screen.
    pub fn owner(&self, x: u32, y: u32) -> Option<NodeId>
        ensures owner { result ≡ (frame_of self.now).owner x y }
        ensures some { is_some result ≡ is_on self.now.size x y }
        ensures frame { IsFrame (frame_of self.now) }
    {
        if is_on(self.size, x, y) {
            node_at(self.map.entries(), self.owners.at(x, y))
        } else {
            None
        }
    }

    /// The first cell, line by line from the top left, that a row owns.
    pub fn spot(&self, node: NodeId) -> Option<(u32, u32)>
        ensures spot { result ≡ (frame_of self.now).spot node }
        ensures frame { IsFrame (frame_of self.now) }
    {
        self.owners.spot(node)
    }

    /// The entry of a row, if it takes part.
    pub fn entry(&self, node: NodeId) -> Option<&Entry>
        ensures { option_copied result ≡ entry_in self.now node }
    {
        self.map.entry(node)
    }

    /// Whether a row has an entry and is visible.
    pub fn shown(&self, node: NodeId) -> bool
        ensures { result ≡ (frame_of self.now).shown node }
    {
        match self.seen.get(node) {
            Some(seen) => *seen,
            None => false,
        }
    }
}
