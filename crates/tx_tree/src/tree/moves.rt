//! Nodes that move among their siblings.

ghost use Rattle.std.specs.Prelude.{◌≡◌, ◌≢◌, ◌<◌, ℕ, length, slice_set, slice_index};
ghost use Rattle.tx_tree.specs.Rows.{moved};
ghost use Rattle.tx_tree.specs.Links.{slots, rows_of, times, children_in, id_in, with_children, without_child, with_before, ahead_in, IsLinked, KeepsNext, KeepsRoom};

use super::node::Node;
use super::remove::pass_next;

/// Moves a child of a node, with the nodes below it, directly before another child.
pub fn move_node(
    nodes: &mut Vec<Option<Node>>,
    behind: &mut Vec<u32>,
    parent: u32,
    n: u32,
    other: u32,
)
    requires linked { IsLinked (slots nodes.old.items) }
    requires next { KeepsNext (slots nodes.old.items) behind.old.items }
    requires as_long { length behind.old.items ≡ length nodes.old.items }
    requires child { 0 < times n (children_in (slots nodes.old.items parent)) }
    requires other { 0 < times other (children_in (slots nodes.old.items parent)) }
    requires apart { n ≢ other }
    ensures linked { IsLinked (slots nodes.new.items) }
    ensures next { KeepsNext (slots nodes.new.items) behind.new.items }
    ensures as_long { length behind.new.items ≡ length nodes.new.items }
    ensures made { length nodes.new.items ≡ length nodes.old.items }
    ensures ids { (j : ℕ) → id_in (slots nodes.new.items j) ≡ id_in (slots nodes.old.items j) }
    ensures rows { rows_of (slots nodes.new.items) ≡ moved n other (rows_of (slots nodes.old.items)) }
    ensures room { KeepsRoom nodes.old.items nodes.new.items }
{
    let (ahead, next_ahead) = move_child(nodes, parent, n, other);
    pass_next(behind, n, ahead);
    put_between(behind, next_ahead, n, other);
}

// Moves a child of a node directly before another, and answers the children directly ahead of the
// two, or 0: of the other one without the first.
fn move_child(nodes: &mut Vec<Option<Node>>, parent: u32, child: u32, other: u32) -> (u32, u32)
    requires child { 0 < times child (children_in (slots nodes.old.items parent)) }
    requires other { 0 < times other (without_child child (children_in (slots nodes.old.items parent))) }
    ensures nodes { nodes.new.items ≡ slice_set nodes.old.items parent (with_children (with_before child other (without_child child (children_in (slots nodes.old.items parent)))) (slots nodes.old.items parent)) }
    ensures ahead { result.0 ≡ ahead_in child (children_in (slots nodes.old.items parent)) }
    ensures ahead_of_other { result.1 ≡ ahead_in other (without_child child (children_in (slots nodes.old.items parent))) }
{
    let slot = &mut nodes[parent as usize];
    let Some(mut node) = slot.take() else {
        unreachable!()
    };
    let ahead = node.children.move_before(child, other);
    *slot = Some(node);
    ahead
}

// Makes `n` the next sibling of `ahead`, and `other` that of `n`.
fn put_between(behind: &mut Vec<u32>, ahead: u32, n: u32, other: u32)
    requires ahead { ahead < length behind.old.items }
    requires n { n < length behind.old.items }
    ensures { behind.new.items ≡ slice_set (slice_set behind.old.items ahead n) n other }
{
    behind[ahead as usize] = n;
    behind[n as usize] = other;
}
