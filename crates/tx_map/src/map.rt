//! The map of all rows.

ghost use Rattle.std.specs.Prelude.{◌≡◌, ◌+◌, ◌*◌, ◌<◌, ◌≤◌, ◌∷◌, length, drop, slice_get, IfOk, option_copied};
ghost use Rattle.tx_map.specs.Faults.{told};
ghost use Rattle.tx_map.specs.LayoutMap.{layout_map, screen_place};
ghost use Rattle.tx_map.specs.Lookup.{AreFound, entry_of};
ghost use Rattle.tx_map.specs.Present.{scene_of};
ghost use Rattle.tx_map.specs.Subtrees.{IsRooted, setting, subtree_entries};
ghost use Rattle.tx_map.specs.Ticks.{ArrangedAtMost, container_count, container_number, containers_below};
ghost use Rattle.tx_node_map.specs.Held.{held, nothing};
ghost use Rattle.tx_sizes.specs.Counts.{counts};
ghost use Rattle.tx_read.specs.Answer.{Gives};

use crate::entry::Entry;
use crate::fault::ComposeFault;
use crate::present::Present;
use crate::scrolls::Scrolls;
use crate::walk::push_row;
use std::alloc::{AllocError, Global};
use std::marker::Model;
use tx_cascade::Styles;
use tx_geom::{Offset, Region, Size};
use tx_io::{Ledger, Steps};
use tx_node_map::NodeMap;
use tx_sizes::{StyledRow, counts_below, styled_rows};
use tx_text::NoMemory;
use tx_tree::{NodeId, Tree};

// The first of some rows.
fn first_of<'a, 'b>(rows: &'b [StyledRow<'a>]) -> &'b StyledRow<'a>
    requires { 0 < length rows.now }
    ensures { rows.now ≡ result.now ∷ drop 1 rows.now }
{
    &rows[0]
}

// The rows after the first one, and of these how many are below each.
fn behind_first<'a, 'b, 'c>(
    rows: &'b [StyledRow<'a>],
    below: &'c [u32],
) -> (&'b [StyledRow<'a>], &'c [u32])
    requires some { 0 < length rows.now }
    requires below { below.now ≡ counts rows.now }
    ensures rows { result.0.now ≡ drop 1 rows.now }
    ensures counts { result.1.now ≡ counts result.0.now }
{
    (rows.split_at(1).1, below.split_at(1).1)
}

// The entries of the Screen, which fills the screen, and of the rows after it.
fn entries_from<L: Ledger>(
    alloc: Global,
    own: &StyledRow<'_>,
    behind: &[StyledRow<'_>],
    below: &[u32],
    scrolls: &Scrolls,
    size: Size,
    steps: &mut Steps<L>,
) -> Result<Vec<Entry>, ComposeFault>
    requires below { below.now ≡ counts behind.now }
    requires few { length behind.now ≤ 65535 }
    requires rooted { IsRooted own.now behind.now }
    ensures exact { Gives (λ entries. entries.items) told result (subtree_entries (setting nothing (held scrolls.now) size) own.now behind.now (screen_place size)) }
    ensures ticks { ArrangedAtMost L.ticked (4 * (container_number own.now.row + containers_below own.now.row.depth behind.now)) steps.old.ledger steps.new.ledger }
{
    let screen = Region::of(Offset { x: 0, y: 0 }, size);
    let key: [u32; 0] = [];
    let mut found = Vec::new(alloc);
    match push_row(
        alloc, own, behind, below, screen, screen, &key, scrolls, size, &mut found, steps,
    ) {
        Ok(()) => Ok(found),
        Err(fault) => Err(fault),
    }
}

// The entries of all rows of a tree that take part, in the order of the document.
fn entries_of<L: Ledger>(
    alloc: Global,
    tree: &Tree,
    styles: &Styles,
    scrolls: &Scrolls,
    size: Size,
    steps: &mut Steps<L>,
) -> Result<Vec<Entry>, ComposeFault>
    requires same { styles.now.rows ≡ tree.now.rows }
    ensures exact { Gives (λ entries. entries.items) told result (layout_map (scene_of styles.now (held scrolls.now) size)) }
    ensures ticks { ArrangedAtMost L.ticked (4 * length tree.now.rows) steps.old.ledger steps.new.ledger }
    ensures containers { ArrangedAtMost L.ticked (4 * container_count tree.now.rows) steps.old.ledger steps.new.ledger }
{
    let _root = tree.root();
    let Ok(rows) = styled_rows(alloc, tree, styles) else {
        return Err(ComposeFault::NoMemory);
    };
    let Ok(below) = counts_below(alloc, &rows) else {
        return Err(ComposeFault::NoMemory);
    };
    let (behind, counts) = behind_first(&rows, &below);
    entries_from(alloc, first_of(&rows), behind, counts, scrolls, size, steps)
}

// Where the entry of each node stands.
fn places_of(alloc: Global, entries: &[Entry]) -> Result<NodeMap<usize>, NoMemory>
    ensures { IfOk result (λ places. AreFound (held places) 0 entries.now) }
{
    let mut places = NodeMap::new(alloc);
    for at in (0..entries.len()).rev() {
        let Ok(()) = places.insert(entries[at].node, at) else {
            return Err(AllocError);
        };
    }
    Ok(places)
}

// The entry at a place, if there is one.
fn entry_at(entries: &[Entry], at: usize) -> Option<&Entry>
    ensures { option_copied result ≡ slice_get entries.now at }
{
    entries.get(at)
}

/// Where every row of a tree that takes part stands on the screen, seen as the list of its entries in
/// the order of the document.
///
/// A row takes part where it is displayed and the row above it takes part; a child of a grid that
/// finds no place takes none, nor do the rows below it.
#[derive(Drop)]
pub struct LayoutMap {
    entries: Vec<Entry>,
    // Where the entry of each node stands among them.
    places: NodeMap<usize>,
}

impl Model for LayoutMap {
    ghost use Rattle.std.specs.Prelude.{List};
    ghost use Rattle.tx_node_map.specs.Held.{held};
    ghost use Rattle.tx_map.specs.Lookup.{AreFound};
    ghost use Rattle.tx_map.specs.declared.entry.Entry.{Entry};

    ghost Value = { List Entry };

    ghost view = { λ map. map.entries.items };

    ghost invariant = { λ map. AreFound (held map.places) 0 map.entries.items };
}

impl LayoutMap {
    /// The map of what is shown. The styles are those of the tree. A row of a kind that is handed in
    /// has no object yet, and measures nothing.
    ///
    /// The Screen fills the screen, whatever its style says of its display, its box, its dock and its
    /// layer. The children of each row stand in its viewport, as [`tx_scroll::bars`] arranges them,
    /// moved by its scroll but for docked ones, and are clipped to it as far as the row's own clip
    /// shows it. A scroll is kept within what the children go over, and is 0 along a hidden axis.
    ///
    /// At most four arrangements are made in `steps` for each row of a kind that has children, and none
    /// for others.
    ///
    /// # Errors
    ///
    /// Fraction exactly where the arrangement of a row would need a fraction of more than 128 bits,
    /// with the first such row in the order of the document and its direction; and NoMemory.
    pub fn of<L: Ledger>(
        alloc: Global,
        present: &Present<'_>,
        styles: &Styles,
        steps: &mut Steps<L>,
    ) -> Result<LayoutMap, ComposeFault>
        requires same { styles.now.rows ≡ present.now.tree.now.rows }
        ensures exact { Gives (λ map. map) told result (layout_map (scene_of styles.now (held present.now.scrolls.now) present.now.size)) }
        ensures ticks { ArrangedAtMost L.ticked (4 * length present.now.tree.now.rows) steps.old.ledger steps.new.ledger }
        ensures containers { ArrangedAtMost L.ticked (4 * container_count present.now.tree.now.rows) steps.old.ledger steps.new.ledger }
    {
        let entries = entries_of(
            alloc,
            present.tree,
            styles,
            present.scrolls,
            present.size,
            steps,
        )?;
        match places_of(alloc, &entries) {
            Ok(places) => Ok(LayoutMap { entries, places }),
            Err(_) => Err(ComposeFault::NoMemory),
        }
    }

    /// The entries of all rows that take part, in the order of the document. It takes no memory.
    pub fn entries(&self) -> &[Entry]
        ensures { result.now ≡ self.now }
    {
        self.entries.as_slice()
    }

    /// The entry of a row; None exactly where it takes no part. It takes no memory, and one step.
    pub fn entry(&self, node: NodeId) -> Option<&Entry>
        ensures { option_copied result ≡ entry_of node.0 self.now }
    {
        match self.places.get(node) {
            Some(at) => entry_at(&self.entries, *at),
            None => None,
        }
    }
}
