//! Keys.

ghost use Rattle.std.specs.Prelude.{◌≡◌};
ghost use Rattle.std.specs.Option.{option_or};
ghost use Rattle.tx_tree.specs.Row.{plain};
ghost use Rattle.tx_route.specs.Pressing.{own_priority, path_to, priority_on, acted_or_put, pressed};

use crate::bindings::action_on;
use crate::deliveries::Deliveries;
use tx_tree::{Action, Key, NodeId, Row, Tree};
use tx_widgets::Message;

/// A row's own priority binding on a key, as the row and the binding's action, or else the one given.
fn own_or(row: &Row, key: Key, other: Option<(NodeId, Action)>) -> Option<(NodeId, Action)>
    ensures { result ≡ option_or (own_priority key (plain row.now)) other }
{
    match action_on(row.binds.as_slice(), key, true) {
        Some(action) => Some((row.node, action)),
        None => other,
    }
}

/// The first row on the path from the Screen down to a node that has a priority binding on a key,
/// with the binding's action. The path is walked upwards, and the last such row is kept.
#[tactic(auto, unfolding(crate::specs::Pressing::path_to, crate::specs::Pressing::priority_on))]
fn priority_on_path(tree: &Tree, node: NodeId, key: Key) -> Option<(NodeId, Action)>
    ensures { result ≡ priority_on key (path_to node.0 tree.now.rows) }
{
    let Some(row) = tree.row(node) else {
        return None;
    };
    let mut first = own_or(row, key, None);
    for above in tree.ancestors(node) {
        first = own_or(above, key, first);
    }
    first
}

/// What a key comes to that goes to a node: an action on its path, or the key for the node itself.
fn pressed_at(tree: &Tree, node: NodeId, key: Key) -> Deliveries
    ensures { result ≡ acted_or_put key node (priority_on key (path_to node.0 tree.now.rows)) }
{
    match priority_on_path(tree, node, key) {
        Some(bound) => Deliveries {
            action: Some(bound),
            ..Deliveries::nothing()
        },
        None => Deliveries {
            put: Some((node, Message::Key(key))),
            ..Deliveries::nothing()
        },
    }
}

/// What a key comes to: it goes to the focused row, or to the Screen where none is focused.
pub fn pressed(tree: &Tree, focused: Option<NodeId>, key: Key) -> Deliveries
    ensures { result ≡ pressed tree.now.rows focused key }
{
    match focused {
        Some(node) => pressed_at(tree, node, key),
        None => pressed_at(tree, tree.root(), key),
    }
}
