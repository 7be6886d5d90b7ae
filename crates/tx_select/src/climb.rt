//! A match is looked for from a row upwards. At each row stands which compounds may be placed
//! there, so that no row is looked at twice.
ghost use Rattle.std.specs.Prelude.{◌≡◌, ◌≤◌, length, true, ◌&&◌, ◌||◌};
ghost use Rattle.tx_tree.specs.Row.{plain};
ghost use Rattle.tx_select.specs.Holds.{compound_holds};
ghost use Rattle.tx_tree.specs.Rows.{ancestors_of};
ghost use Rattle.tx_select.specs.Climb.{opened, first_placed, stays_open, some_open, open_above, is_placed, climbs_from, is_match};

use crate::holds::compound_holds;
use crate::value::{Compound, Pseudo};
use tx_tree::{NodeId, Row, Tree};

// The most compounds of a selector.
const MOST_COMPOUNDS: usize = 16;

/// Opens the last compound and no other.
#[tactic(auto, unfolding(crate::specs::Climb::opened))]
fn open_last(compounds: &[Compound], opens: &mut [bool])
    requires { length compounds.now ≡ length opens.old }
    ensures { opens.new ≡ opened compounds.now }
{
    if let Some((_, compounds)) = compounds.split_first() {
        if let Some((open, opens)) = opens.split_first_mut() {
            *open = compounds.is_empty();
            open_last(compounds, opens);
        }
    }
}

/// Whether a compound that is placed before these may be placed further up.
fn stays_open(compounds: &[Compound]) -> bool
    ensures { result ≡ stays_open compounds.now }
{
    match compounds.first() {
        Some(next) => !next.child,
        None => false,
    }
}

/// Whether a compound is placed at a row, where it may be.
#[tactic(auto, using(crate::proofs::Plain::holds_plain))]
fn is_placed(tree: &Tree, state: &Pseudo, row: &Row, compound: &Compound, may: bool) -> bool
    ensures { result ≡ (may && compound_holds state.now tree.now.rows (plain row.now) compound.now) }
{
    may && compound_holds(tree, state, row, compound)
}

/// Whether a compound may be placed further up, which is so where the one after it was placed
/// here, or where it may be placed here and stays so.
fn is_open(below: bool, may: bool, behind: &[Compound]) -> bool
    ensures { result ≡ (below || (may && stays_open behind.now)) }
{
    below || (may && stays_open(behind))
}

/// Places compounds at a row, and opens those that may be placed one row further up. It answers
/// whether the first one was placed.
#[tactic(auto, unfolding(crate::specs::Climb::open_above))]
fn place_at(
    tree: &Tree,
    state: &Pseudo,
    row: &Row,
    compounds: &[Compound],
    opens: &mut [bool],
) -> bool
    requires { length compounds.now ≡ length opens.old }
    ensures placed { result ≡ first_placed (compound_holds state.now tree.now.rows (plain row.now)) compounds.now opens.old }
    ensures above { opens.new ≡ open_above (compound_holds state.now tree.now.rows (plain row.now)) compounds.now opens.old }
{
    if let Some((first, behind)) = compounds.split_first() {
        if let Some((open, opens)) = opens.split_first_mut() {
            let placed = is_placed(tree, state, row, first, *open);
            let below = place_at(tree, state, row, behind, opens);
            *open = is_open(below, *open, behind);
            return placed;
        }
    }
    false
}

/// Whether compounds match a row: from that row on upwards.
fn climbs_from(tree: &Tree, state: &Pseudo, row: &Row, compounds: &[Compound]) -> bool
    requires { length compounds.now ≤ 16 }
    ensures { result ≡ climbs_from state.now tree.now.rows compounds.now (plain row.now) }
{
    let mut opens = [false; MOST_COMPOUNDS];
    let opens = &mut opens[..compounds.len()];
    open_last(compounds, opens);
    if place_at(tree, state, row, compounds, opens) {
        return true;
    }
    climbs_on(tree, state, row.node, compounds, opens)
}

/// Whether some compound may be placed.
fn some_open(opens: &[bool]) -> bool
    ensures { result ≡ some_open opens.now }
{
    opens.iter().any(|open| *open)
}

/// Whether compounds match by rows above a node's.
fn climbs_on(
    tree: &Tree,
    state: &Pseudo,
    node: NodeId,
    compounds: &[Compound],
    opens: &mut [bool],
) -> bool
    requires { length compounds.now ≡ length opens.old }
    ensures { result ≡ is_placed (compound_holds state.now tree.now.rows) compounds.now opens.old (ancestors_of node.0 tree.now.rows) }
{
    for row in tree.ancestors(node) {
        if !some_open(opens) {
            return false;
        }
        if place_at(tree, state, row, compounds, opens) {
            return true;
        }
    }
    false
}

/// Whether compounds match the row of a node.
#[tactic(auto, unfolding(crate::specs::Climb::is_match))]
pub fn is_match(tree: &Tree, state: &Pseudo, node: NodeId, compounds: &[Compound]) -> bool
    requires { length compounds.now ≤ 16 }
    ensures { result ≡ is_match state.now tree.now.rows compounds.now node.0 }
{
    match tree.row(node) {
        Some(row) => climbs_from(tree, state, row, compounds),
        None => false,
    }
}
