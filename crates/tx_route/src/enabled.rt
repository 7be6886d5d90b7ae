//! Which rows are enabled.

ghost use Rattle.std.specs.Prelude.{◌≡◌};
ghost use Rattle.tx_tree.specs.Row.{plain};
ghost use Rattle.tx_route.specs.Focus.{is_enabled};

use tx_tree::{Row, Tree};

/// Whether a row of a tree is enabled: neither it nor an ancestor is disabled. It takes no memory.
#[tactic(auto, unfolding(tx_select::specs::Holds::is_disabled))]
pub fn is_enabled(tree: &Tree, row: &Row) -> bool
    ensures { result ≡ is_enabled tree.now.rows (plain row.now) }
{
    if row.disabled {
        return false;
    }
    for above in tree.ancestors(row.node) {
        if above.disabled {
            return false;
        }
    }
    true
}
