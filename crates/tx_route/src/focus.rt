//! The focus order.

ghost use Rattle.std.specs.Prelude.{◌≡◌, ◌<◌, ◌↔◌, ◌&&◌, [], true, false, None, Some, IfSome, find, filter, option_map};
ghost use Rattle.tx_select.specs.Match.{last_row};
ghost use Rattle.tx_tree.specs.Row.{plain};
ghost use Rattle.tx_tree.specs.Rows.{before_of, next_of};
ghost use Rattle.tx_tree.specs.Walk.{rest_from, rest_between};
ghost use Rattle.tx_route.specs.Focus.{is_closed, takes_focus, focus_order, step_along, is_in_order};

use crate::above::{Above, looked_above, nothing_above};
use tx_select::Pseudo;
use tx_tree::{NodeId, Row, Tree};
use tx_widgets::Sight;

/// Whether a row is in the focus order, by what is known of the rows above another one.
#[tactic(auto, unfolding(crate::specs::Focus::takes_focus, tx_select::specs::Holds::is_disabled))]
fn takes_focus<S: Sight>(tree: &Tree, sight: &S, row: &Row, above: &mut Above) -> bool
    requires { above.old.disabled ≡ is_closed tree.now.rows above.old.parent }
    ensures known { above.new.disabled ≡ is_closed tree.now.rows above.new.parent }
    ensures told { result ≡ takes_focus (S.frame sight.now) tree.now.rows (plain row.now) }
{
    if !row.kind.can_focus() {
        return false;
    }
    if !sight.shown(row.node) {
        return false;
    }
    if row.disabled {
        return false;
    }
    *above = looked_above(tree, row.node, *above);
    !above.disabled
}

/// Whether a node's row is in the focus order, in the same way.
#[tactic(auto, unfolding(crate::specs::Focus::is_in_order))]
fn is_in_order<S: Sight>(tree: &Tree, sight: &S, node: NodeId, above: &mut Above) -> bool
    requires { above.old.disabled ≡ is_closed tree.now.rows above.old.parent }
    ensures known { above.new.disabled ≡ is_closed tree.now.rows above.new.parent }
    ensures told { result ≡ is_in_order (S.frame sight.now) tree.now.rows node.0 }
{
    match tree.row(node) {
        Some(row) => takes_focus(tree, sight, row, above),
        None => false,
    }
}

/// The first row of the focus order from a node on.
fn first_from<S: Sight>(tree: &Tree, sight: &S, from: Option<NodeId>) -> Option<NodeId>
    ensures { result ≡ option_map (λ row. row.node) (find (takes_focus (S.frame sight.now) tree.now.rows) (rest_from from tree.now.rows)) }
{
    tx_tree::laws::walk();
    let _root = tree.root();
    let mut here = from;
    let mut above = nothing_above(tree);
    while let Some(node) = here {
        let Some(row) = tree.row(node) else {
            return None;
        };
        if takes_focus(tree, sight, row, &mut above) {
            return Some(row.node);
        }
        here = tree.next(node);
    }
    None
}

/// The last row of the focus order from a node on, up to another.
fn last_between<S: Sight>(
    tree: &Tree,
    sight: &S,
    from: Option<NodeId>,
    end: Option<NodeId>,
) -> Option<NodeId>
    ensures { result ≡ option_map (λ row. row.node) (last_row (filter (takes_focus (S.frame sight.now) tree.now.rows) (rest_between from end tree.now.rows))) }
{
    tx_tree::laws::walk();
    let _root = tree.root();
    let mut last = None;
    let mut here = from;
    let mut above = nothing_above(tree);
    while let Some(node) = here {
        if here == end {
            return last;
        }
        let Some(row) = tree.row(node) else {
            return last;
        };
        if takes_focus(tree, sight, row, &mut above) {
            last = Some(row.node);
        }
        here = tree.next(node);
    }
    last
}

/// The last row of the focus order before a node: it is looked for below the node's parent, then
/// at the parent, and so on upwards.
fn last_above<S: Sight>(tree: &Tree, sight: &S, node: NodeId) -> Option<NodeId>
    ensures { result ≡ option_map (λ row. row.node) (last_row (filter (takes_focus (S.frame sight.now) tree.now.rows) (before_of node.0 tree.now.rows))) }
{
    let mut here = node;
    while let Some(parent) = tree.parent(here) {
        let last = last_between(tree, sight, Some(parent), Some(here));
        if last.is_some() {
            return last;
        }
        here = parent;
    }
    last_between(tree, sight, Some(tree.root()), Some(here))
}

/// The row before a node, where it has the number before the node's: so it is wherever rows were
/// mounted in document order.
fn row_ahead(tree: &Tree, node: NodeId) -> Option<NodeId>
    ensures ahead { IfSome result (λ ahead. option_map (λ row. row.node.0) (next_of ahead.0 tree.now.rows) ≡ Some node.0) }
    ensures down { IfSome result (λ ahead. ahead.0 < node.0) }
{
    if node.0 == 0 {
        return None;
    }
    let ahead = NodeId(node.0 - 1);
    let Some(next) = tree.next(ahead) else {
        return None;
    };
    if next.0 != node.0 {
        return None;
    }
    Some(ahead)
}

/// The last row of the focus order before a node. Rows are gone back over one by one as long as
/// each has the number before the next one's.
fn last_before<S: Sight>(tree: &Tree, sight: &S, node: NodeId) -> Option<NodeId>
    ensures { result ≡ option_map (λ row. row.node) (last_row (filter (takes_focus (S.frame sight.now) tree.now.rows) (before_of node.0 tree.now.rows))) }
{
    let _root = tree.root();
    let mut here = node;
    let mut above = nothing_above(tree);
    while let Some(ahead) = row_ahead(tree, here) {
        if is_in_order(tree, sight, ahead, &mut above) {
            return Some(ahead);
        }
        here = ahead;
    }
    last_above(tree, sight, here)
}

/// The row after a node, or else the first.
fn next_row<S: Sight>(tree: &Tree, sight: &S, node: NodeId) -> Option<NodeId>
    requires { is_in_order (S.frame sight.now) tree.now.rows node.0 ≡ true }
    ensures { result ≡ step_along false (focus_order (S.frame sight.now) tree.now.rows) (Some node) }
{
    tx_tree::laws::walk();
    let root = tree.root();
    match first_from(tree, sight, tree.next(node)) {
        Some(behind) => Some(behind),
        None => first_from(tree, sight, Some(root)),
    }
}

/// The row before a node, or else the last.
fn previous_row<S: Sight>(tree: &Tree, sight: &S, node: NodeId) -> Option<NodeId>
    requires { is_in_order (S.frame sight.now) tree.now.rows node.0 ≡ true }
    ensures { result ≡ step_along true (focus_order (S.frame sight.now) tree.now.rows) (Some node) }
{
    match last_before(tree, sight, node) {
        Some(before) => Some(before),
        None => last_between(tree, sight, Some(node), None),
    }
}

/// The first row of the focus order, or the last.
fn end_row<S: Sight>(tree: &Tree, sight: &S, back: bool) -> Option<NodeId>
    ensures { result ≡ step_along back (focus_order (S.frame sight.now) tree.now.rows) None }
{
    let root = tree.root();
    if back {
        last_between(tree, sight, Some(root), None)
    } else {
        first_from(tree, sight, Some(root))
    }
}

/// One step along the focus order.
fn step_from<S: Sight>(
    tree: &Tree,
    focused: Option<NodeId>,
    sight: &S,
    back: bool,
) -> Option<NodeId>
    ensures { result ≡ step_along back (focus_order (S.frame sight.now) tree.now.rows) focused }
{
    let _root = tree.root();
    let Some(node) = focused else {
        return end_row(tree, sight, back);
    };
    let mut above = nothing_above(tree);
    if !is_in_order(tree, sight, node, &mut above) {
        return end_row(tree, sight, back);
    }
    if back {
        previous_row(tree, sight, node)
    } else {
        next_row(tree, sight, node)
    }
}

/// The row that has the focus after one step along the focus order, forwards or back.
///
/// The order has the rows in document order that are of a focusable kind, enabled and shown. The
/// step goes from the last row of it to the first, and back. Where the focused row isn't in it, or
/// none is focused, the first row comes next, and the last one comes before. None comes exactly
/// where the order is empty. It takes no memory.
pub fn focus_after<S: Sight>(tree: &Tree, pseudo: &Pseudo, sight: &S, back: bool) -> Option<NodeId>
    ensures step { result ≡ step_along back (focus_order (S.frame sight.now) tree.now.rows) pseudo.now.focused }
    ensures none { result ≡ None ↔ focus_order (S.frame sight.now) tree.now.rows ≡ [] }
    ensures in_order { IfSome result (λ node. is_in_order (S.frame sight.now) tree.now.rows node.0 ≡ true) }
{
    let _root = tree.root();
    step_from(tree, pseudo.focused, sight, back)
}
