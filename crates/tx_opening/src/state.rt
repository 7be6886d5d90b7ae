//! What is focused as an application opens.

ghost use Rattle.std.specs.Prelude.{◌≡◌};
ghost use Rattle.tx_tree.specs.Row.{plain};
ghost use Rattle.tx_opening.specs.OpeningState.{first_focus, may_have_focus, opening_state};

use tx_route::is_enabled;
use tx_select::Pseudo;
use tx_tree::{NodeId, Row, Tree};

fn may_have_focus(tree: &Tree, row: &Row) -> bool
    ensures { result ≡ may_have_focus tree.now.rows (plain row.now) }
{
    row.kind.can_focus() && is_enabled(tree, row)
}

fn first_focus(tree: &Tree) -> Option<NodeId>
    ensures { result ≡ first_focus tree.now.rows }
{
    for row in tree.walk() {
        if may_have_focus(tree, row) {
            return Some(row.node);
        }
    }
    None
}

/// The state in which an application opens. The first row in document order that is of a focusable
/// kind and enabled has the focus, nothing is pointed at, and the theme is dark. It takes no memory.
pub fn opening_state(tree: &Tree) -> Pseudo
    ensures { result ≡ opening_state tree.now.rows }
{
    Pseudo {
        focused: first_focus(tree),
        pointed: None,
        dark: true,
    }
}
