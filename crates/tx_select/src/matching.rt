//! Which rows a selector matches.
ghost use Rattle.std.specs.Prelude.{ℕ, IfSome, ◌≡◌, ◌≤◌, [], ◌∷◌, true, length, map, filter, IfOk, is_some};
ghost use Rattle.std.specs.List.{FoldsTo, find};
ghost use Rattle.std.specs.Option.{option_copied, option_map};
ghost use Rattle.tx_tree.specs.Row.{number, plain};
ghost use Rattle.tx_tree.specs.Rows.{row_at};
ghost use Rattle.tx_select.specs.Climb.{is_match};
ghost use Rattle.tx_select.specs.Match.{IsMatch, AreMatches, IsFirstMatch};
ghost use Rattle.tx_io.specs.declared.steps.Tick.TheVariants.{Test};

use crate::climb::is_match;
use crate::value::{Compound, Pseudo, Selector};
use std::alloc::Global;
use tx_io::{Ledger, Steps, Tick};
use tx_text::NoMemory;
use tx_tree::{NodeId, Row, Tree};

/// Whether a selector matches the row of a node, which is there.
///
/// It does where rows can be chosen, one for each compound and the last one this row, so that each
/// compound holds of its row, and each row is the parent, where `>` stands between, or an ancestor
/// of the next. One `Test` is ticked. It takes no memory, and each row from this one up is tested
/// against each compound at most once.
pub fn matches<L: Ledger>(
    tree: &Tree,
    pseudo: &Pseudo,
    node: NodeId,
    selector: &Selector,
    steps: &mut Steps<L>,
) -> bool
    requires { is_some (row_at node.0 tree.now.rows) ≡ true }
    // What is answered is a match.
    ensures sound { result ≡ true → IsMatch pseudo.now tree.now.rows node.0 selector.now.compounds }
    // Every match is answered.
    ensures whole { IsMatch pseudo.now tree.now.rows node.0 selector.now.compounds → result ≡ true }
    ensures ticks { FoldsTo L.ticked steps.old.ledger (Test ∷ []) steps.new.ledger }
{
    let _root = tree.root();
    steps.tick(Tick::Test);
    is_match(tree, pseudo, node, selector.compounds().as_slice())
}

/// The nodes of the rows of which the test tells, in document order.
fn matching(
    alloc: Global,
    tree: &Tree,
    pseudo: &Pseudo,
    compounds: &[Compound],
) -> Result<Vec<NodeId>, NoMemory>
    requires { length compounds.now ≤ 16 }
    ensures { IfOk result (λ nodes. nodes.items ≡ map (λ row. row.node) (filter (λ row. is_match pseudo.now tree.now.rows compounds.now (number row)) tree.now.rows)) }
{
    let mut nodes = Vec::new(alloc);
    for row in tree.walk() {
        if is_match(tree, pseudo, row.node, compounds) {
            nodes.push(row.node)?;
        }
    }
    Ok(nodes)
}

/// The first node of these.
fn first_matching(tree: &Tree, pseudo: &Pseudo, compounds: &[Compound]) -> Option<NodeId>
    requires { length compounds.now ≤ 16 }
    ensures { result ≡ option_map (λ row. row.node) (find (λ row. is_match pseudo.now tree.now.rows compounds.now (number row)) tree.now.rows) }
{
    for row in tree.walk() {
        if is_match(tree, pseudo, row.node, compounds) {
            return Some(row.node);
        }
    }
    None
}

/// The nodes of all rows that a selector matches, in document order.
pub fn query(
    alloc: Global,
    tree: &Tree,
    pseudo: &Pseudo,
    selector: &Selector,
) -> Result<Vec<NodeId>, NoMemory>
    ensures { IfOk result (λ nodes. AreMatches pseudo.now tree.now.rows selector.now.compounds nodes.items) }
{
    let _root = tree.root();
    matching(alloc, tree, pseudo, selector.compounds().as_slice())
}

/// The node of the first row in document order that a selector matches. None comes exactly where it
/// matches no row. It takes no memory.
pub fn query_one(tree: &Tree, pseudo: &Pseudo, selector: &Selector) -> Option<NodeId>
    ensures first { IsFirstMatch pseudo.now tree.now.rows selector.now.compounds result }
    ensures found { IfSome result (λ node. IsMatch pseudo.now tree.now.rows node.0 selector.now.compounds) }
    ensures none { result ≡ None → (n : ℕ) → IsMatch pseudo.now tree.now.rows n selector.now.compounds → ⊥ }
{
    let _root = tree.root();
    first_matching(tree, pseudo, selector.compounds().as_slice())
}
