//! Reads over linked nodes.

ghost use Rattle.std.specs.Prelude.{◌≡◌, ◌≤◌, length, map, option_map, IfOk};
ghost use Rattle.std.specs.List.{list_all};
ghost use Rattle.std.specs.Option.{option_copied};
ghost use Rattle.tx_tree.specs.Rows.{first_row, after_of};
ghost use Rattle.tx_tree.specs.Links.{slots, rows_of, node_id, slot_is_spelled, IsLinked, KeepsNext};

use super::node::Node;
use crate::spelled::is_spelled;
use crate::{NoMemory, NodeId};
use std::alloc::Global;

/// The node with a number.
pub fn node_at(nodes: &[Option<Node>], n: u32) -> Option<&Node>
    ensures { option_copied result ≡ slots nodes.now n }
{
    nodes.get(n as usize)?.as_ref()
}

/// How many numbers have a slot, 0 among them. The next node has this number.
pub fn slot_count(nodes: &[Option<Node>]) -> u32
    requires { length nodes.now ≤ 65537 }
    ensures { result ≡ length nodes.now }
{
    nodes.len() as u32
}

/// The numbers as nodes.
pub fn node_ids(alloc: Global, numbers: &[u32]) -> Result<Vec<NodeId>, NoMemory>
    ensures { IfOk result (λ nodes. nodes.items ≡ map node_id numbers.now) }
{
    numbers.iter().map(|n| NodeId(*n)).collect(alloc)
}

/// Whether the rows of all nodes have a spelling.
pub fn all_spelled(nodes: &[Option<Node>]) -> bool
    ensures { result ≡ list_all slot_is_spelled nodes.now }
{
    nodes.iter().all(|slot| slot_is_spelled(slot))
}

fn slot_is_spelled(slot: &Option<Node>) -> bool
    ensures { result ≡ slot_is_spelled slot.now }
{
    match slot {
        Some(node) => is_spelled(&node.row),
        None => true,
    }
}

/// The first row after the subtree of a node.
pub fn first_after(nodes: &[Option<Node>], behind: &[u32], n: u32) -> Option<NodeId>
    requires linked { IsLinked (slots nodes.now) }
    requires next { KeepsNext (slots nodes.now) behind.now }
    requires as_long { length behind.now ≡ length nodes.now }
    ensures { result ≡ option_map (λ row. row.node) (first_row (after_of n (rows_of (slots nodes.now)))) }
{
    let mut here = n;
    while let Some(node) = node_at(nodes, here) {
        let sibling = behind[here as usize];
        if sibling != 0 {
            return Some(NodeId(sibling));
        }
        here = node.parent;
    }
    None
}
