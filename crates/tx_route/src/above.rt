//! Whether the rows above a row are enabled, remembered from row to row.

ghost use Rattle.std.specs.Prelude.{◌≡◌};
ghost use Rattle.std.specs.List.{list_any};
ghost use Rattle.tx_tree.specs.Rows.{ancestors_of};
ghost use Rattle.tx_route.specs.Focus.{is_closed};

use crate::enabled::is_enabled;
use tx_tree::{NodeId, Tree};

/// What is known of the rows above one that was looked at.
#[derive(Clone, Copy)]
pub struct Above {
    /// The row directly above it, if there is one.
    pub parent: Option<NodeId>,
    /// Whether that row or an ancestor of it is disabled.
    pub disabled: bool,
}

/// Whether the row of a node, if there is one, or an ancestor of it is disabled.
#[tactic(auto, unfolding(crate::specs::Focus::is_closed, tx_select::specs::Holds::is_disabled))]
fn is_closed(tree: &Tree, node: Option<NodeId>) -> bool
    ensures { result ≡ is_closed tree.now.rows node }
{
    let Some(there) = node else {
        return false;
    };
    let Some(row) = tree.row(there) else {
        return false;
    };
    !is_enabled(tree, row)
}

/// What is known where nothing was looked at: that of the Screen, above which there is no row.
#[tactic(auto, unfolding(crate::specs::Focus::is_closed))]
pub fn nothing_above(tree: &Tree) -> Above
    ensures { result.disabled ≡ is_closed tree.now.rows result.parent }
{
    let _root = tree.root();
    Above {
        parent: None,
        disabled: false,
    }
}

/// What is known of the rows above a node. Nothing is looked at where its parent is known already.
pub fn looked_above(tree: &Tree, node: NodeId, above: Above) -> Above
    requires { above.disabled ≡ is_closed tree.now.rows above.parent }
    ensures known { result.disabled ≡ is_closed tree.now.rows result.parent }
    ensures told { result.disabled ≡ list_any (λ row. row.disabled) (ancestors_of node.0 tree.now.rows) }
{
    let _root = tree.root();
    let parent = tree.parent(node);
    if parent == above.parent {
        return above;
    }
    Above {
        parent,
        disabled: is_closed(tree, parent),
    }
}
