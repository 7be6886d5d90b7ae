//! The style of one row.
ghost use Rattle.std.specs.Prelude.{◌≡◌, ◌+◌, ◌*◌, true, is_some, length, IfOk};
ghost use Rattle.tx_tree.specs.Rows.{row_at, ancestors_of};
ghost use Rattle.tx_tree.specs.Row.{plain};
ghost use Rattle.tx_cascade.specs.Cascade.{style_below, styled, up_from, IsStyleOf};
ghost use Rattle.tx_cascade.specs.Reaching.{reaching, selectors_in};
ghost use Rattle.tx_cascade.specs.Tested.{TestedAtMost};
ghost use Rattle.tx_cascade.specs.Matchers.{matchers_of};

use crate::below::style_below;
use crate::reaching::reaching;
use std::alloc::Global;
use tx_io::{Ledger, Steps};
use tx_parse::Sheet;
use tx_select::Pseudo;
use tx_text::NoMemory;
use tx_tree::{NodeId, Row, Tree};
use tx_value::Style;

/// The style of a row, which is there, by its parent's.
pub fn row_style<L: Ledger>(
    alloc: Global,
    sheet: &Sheet,
    tree: &Tree,
    pseudo: &Pseudo,
    row: &Row,
    above: &Style,
    steps: &mut Steps<L>,
) -> Result<Style, NoMemory>
    requires { is_some (row_at row.now.node.0 tree.now.rows) ≡ true }
    ensures exact { IfOk result (λ style. style ≡ style_below above.now (reaching (matchers_of pseudo.now tree.now.rows row.now.node.0) sheet.now row.now.inline)) }
    ensures ticks { TestedAtMost L.ticked (selectors_in sheet.now) steps.old.ledger steps.new.ledger }
{
    let all = reaching(alloc, sheet, tree, pseudo, row, steps)?;
    style_below(alloc, above, all.as_slice())
}

/// The style of the row of a node, which is there.
fn style_at<L: Ledger>(
    alloc: Global,
    sheet: &Sheet,
    tree: &Tree,
    pseudo: &Pseudo,
    node: NodeId,
    steps: &mut Steps<L>,
) -> Result<Style, NoMemory>
    requires { is_some (row_at node.0 tree.now.rows) ≡ true }
    ensures exact { IfOk result (λ style. style ≡ styled (matchers_of pseudo.now tree.now.rows) sheet.now (up_from tree.now.rows node.0)) }
    ensures ticks { TestedAtMost L.ticked (selectors_in sheet.now * length (up_from tree.now.rows node.0)) steps.old.ledger steps.new.ledger }
{
    let _root = tree.root();
    let Some(row) = tree.row(node) else {
        unreachable!()
    };
    let above = match tree.parent(node) {
        Some(parent) => style_at(alloc, sheet, tree, pseudo, parent, steps)?,
        None => Style::initial(alloc)?,
    };
    row_style(alloc, sheet, tree, pseudo, row, &above, steps)
}

/// The style of the row of a node, which is there, by the declarations that reach it and its
/// ancestors.
///
/// Of all declarations of a property the one with the greatest key wins. The parts of the key are,
/// the weightiest one first: whether it is important; its origin, which is the default sheet, the
/// sheet or the row's inline text; the ids, the classes and the types of its rule's most specific
/// selector among those that match the row; the number of its rule; and its own number in that rule.
/// In place of a winner `initial` the winner of the default sheet counts, and where there is none, or
/// that is `initial` too, no declaration does. Where no declaration counts, `color` and `visibility`
/// are the parent's, and every other property has its initial value. The Screen, which has no parent,
/// has the initial values of both too, `$foreground` and `visible`. The marks of the parent's
/// `text-style` are always added. An inline text outside the grammar counts as empty, and so does one
/// of 4 GiB or more. At most one `Test` is ticked for each selector of the sheet and the default
/// sheet at each row from this one up, and nothing else. NoMemory is the only error.
///
/// The order is that of the CSS cascade (<https://www.w3.org/TR/css-cascade-4/#cascade-sort>) in the
/// profile of Textual's stylesheets, except that an important declaration keeps the order of origins.
pub fn style_of<L: Ledger>(
    alloc: Global,
    sheet: &Sheet,
    tree: &Tree,
    pseudo: &Pseudo,
    node: NodeId,
    steps: &mut Steps<L>,
) -> Result<Style, NoMemory>
    requires { is_some (row_at node.0 tree.now.rows) ≡ true }
    ensures exact { IfOk result (λ style. IsStyleOf sheet.now pseudo.now tree.now.rows node.0 style) }
    ensures ticks { TestedAtMost L.ticked (selectors_in sheet.now * length (up_from tree.now.rows node.0)) steps.old.ledger steps.new.ledger }
{
    let _root = tree.root();
    style_at(alloc, sheet, tree, pseudo, node, steps)
}
