//! When a compound holds of a row.
ghost use Rattle.std.specs.Prelude.{◌≡◌, ◌||◌};
ghost use Rattle.std.specs.List.{list_all};
ghost use Rattle.tx_tree.specs.Classes.{has_name};
ghost use Rattle.tx_tree.specs.Rows.{has_id};
ghost use Rattle.tx_select.specs.Holds.{is_row_of, is_above, is_disabled, is_first_child, is_last_child, pseudo_holds, part_holds, kind_holds, compound_holds};

use crate::value::{Compound, Part, Pseudo, PseudoName};
use tx_text::Name;
use tx_tree::{Kind, NodeId, Row, Tree};

/// Whether a row is that of a node, if there is one.
fn is_row_of(node: Option<NodeId>, row: NodeId) -> bool
    ensures { result ≡ is_row_of node row.0 }
{
    match node {
        Some(node) => node.0 == row.0,
        None => false,
    }
}

/// Whether a row is an ancestor of a node's row, from which it goes up.
#[tactic(auto, unfolding(crate::specs::Holds::is_above))]
fn is_above(tree: &Tree, node: Option<NodeId>, row: NodeId) -> bool
    ensures { result ≡ is_above node tree.now.rows row.0 }
{
    match node {
        Some(node) => tree.ancestors(node).any(|above| above.node.0 == row.0),
        None => false,
    }
}

/// Whether a row is the first child of its parent.
#[tactic(auto, unfolding(crate::specs::Holds::is_first_child))]
fn is_first_child(tree: &Tree, row: NodeId) -> bool
    ensures { result ≡ is_first_child tree.now.rows row.0 }
{
    match tree.parent(row) {
        Some(parent) => is_row_of(tree.first_child(parent), row),
        None => false,
    }
}

/// Whether a row is the last child of its parent.
#[tactic(auto, unfolding(crate::specs::Holds::is_last_child))]
fn is_last_child(tree: &Tree, row: NodeId) -> bool
    ensures { result ≡ is_last_child tree.now.rows row.0 }
{
    tree.parent(row).is_some() && tree.next_sibling(row).is_none()
}

/// Whether a row is disabled or has a disabled ancestor.
#[tactic(auto, unfolding(crate::specs::Holds::is_disabled))]
fn is_disabled(tree: &Tree, row: &Row) -> bool
    ensures { result ≡ is_disabled tree.now.rows row.now }
{
    row.disabled || tree.ancestors(row.node).any(|above| above.disabled)
}

/// Whether a row is that of a node or above it.
fn is_at_or_above(tree: &Tree, node: Option<NodeId>, row: NodeId) -> bool
    ensures { result ≡ (is_row_of node row.0 || is_above node tree.now.rows row.0) }
{
    is_row_of(node, row) || is_above(tree, node, row)
}

/// Whether a pseudo-class holds of a row.
#[tactic(auto, unfolding(crate::specs::Holds::pseudo_holds))]
fn pseudo_holds(tree: &Tree, state: &Pseudo, row: &Row, name: PseudoName) -> bool
    ensures { result ≡ pseudo_holds state.now tree.now.rows row.now name }
{
    match name {
        PseudoName::Hover => is_at_or_above(tree, state.pointed, row.node),
        PseudoName::Focus => is_row_of(state.focused, row.node),
        PseudoName::FocusWithin => is_at_or_above(tree, state.focused, row.node),
        PseudoName::Blur => !is_row_of(state.focused, row.node),
        PseudoName::Enabled => !is_disabled(tree, row),
        PseudoName::Disabled => is_disabled(tree, row),
        PseudoName::Dark => state.dark,
        PseudoName::Light => !state.dark,
        PseudoName::FirstChild => is_first_child(tree, row.node),
        PseudoName::LastChild => is_last_child(tree, row.node),
    }
}

/// Whether a row has this id.
fn has_id(name: &Name, row: &Row) -> bool
    ensures { result ≡ has_id name.now row.now }
{
    match row.id {
        Some(id) => id == *name,
        None => false,
    }
}

/// Whether a row has this class.
fn has_class(name: &Name, row: &Row) -> bool
    ensures { result ≡ has_name name.now row.now.classes.names }
{
    row.classes.as_slice().iter().any(|held| *name == *held)
}

/// Whether a part holds of a row.
#[tactic(auto, unfolding(crate::specs::Holds::part_holds))]
fn part_holds(tree: &Tree, state: &Pseudo, row: &Row, part: &Part) -> bool
    ensures { result ≡ part_holds state.now tree.now.rows row.now part.now }
{
    match part {
        Part::Id(name) => has_id(name, row),
        Part::Class(name) => has_class(name, row),
        Part::Pseudo(name) => pseudo_holds(tree, state, row, *name),
    }
}

/// Whether the name of a kind holds of a row, where there is one.
#[tactic(auto, unfolding(crate::specs::Holds::kind_holds))]
fn kind_holds(name: &Option<Name>, kind: &Kind) -> bool
    ensures { result ≡ kind_holds name.now kind.now }
{
    match name {
        Some(name) => kind.is_called(name.as_str()),
        None => true,
    }
}

/// Whether parts all hold of a row.
fn parts_hold(tree: &Tree, state: &Pseudo, row: &Row, parts: &[Part]) -> bool
    ensures { result ≡ list_all (part_holds state.now tree.now.rows row.now) parts.now }
{
    parts.iter().all(|part| part_holds(tree, state, row, part))
}

/// Whether a compound holds of a row.
#[tactic(auto, unfolding(crate::specs::Holds::compound_holds))]
pub fn compound_holds(tree: &Tree, state: &Pseudo, row: &Row, compound: &Compound) -> bool
    ensures { result ≡ compound_holds state.now tree.now.rows row.now compound.now }
{
    kind_holds(&compound.kind, &row.kind) && parts_hold(tree, state, row, compound.parts.as_slice())
}
