//! What a tree refuses, before it is asked to change.

ghost use Rattle.std.specs.Prelude.{◌≡◌};
ghost use Rattle.tx_tree.specs.Edits.{edit_refusal, have_one_parent, remove_refusal, move_refusal};
ghost use Rattle.tx_tree.specs.Refusal.{AnswersAtOnce};

use tx_tree::{NodeId, Tree, TreeFault};

/// Whether a row's own parts may be changed.
pub fn may_edit(tree: &Tree, node: NodeId) -> Result<(), TreeFault>
    ensures { AnswersAtOnce (edit_refusal tree.now.rows node.0) result }
{
    match tree.row(node) {
        Some(_) => Ok(()),
        None => Err(TreeFault::NoNode),
    }
}

/// Whether a row may be removed.
pub fn may_remove(tree: &Tree, node: NodeId) -> Result<(), TreeFault>
    ensures { AnswersAtOnce (remove_refusal tree.now.rows node.0) result }
{
    may_edit(tree, node)?;
    if node.0 == tree.root().0 {
        return Err(TreeFault::Root);
    }
    Ok(())
}

/// Whether two rows have one parent, or both none.
fn have_one_parent(tree: &Tree, node: NodeId, other: NodeId) -> bool
    ensures { result ≡ have_one_parent tree.now.rows node.0 other.0 }
{
    match (tree.parent(node), tree.parent(other)) {
        (Some(above), Some(other_above)) => above.0 == other_above.0,
        (None, None) => true,
        _ => false,
    }
}

/// Whether a row may be moved before another.
pub fn may_move(tree: &Tree, node: NodeId, before: NodeId) -> Result<(), TreeFault>
    ensures { AnswersAtOnce (move_refusal tree.now.rows node.0 before.0) result }
{
    may_edit(tree, node)?;
    may_edit(tree, before)?;
    if node.0 == before.0 {
        return Err(TreeFault::NotSiblings);
    }
    if !have_one_parent(tree, node, before) {
        return Err(TreeFault::NotSiblings);
    }
    Ok(())
}
