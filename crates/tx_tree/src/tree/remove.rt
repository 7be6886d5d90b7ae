//! Nodes that go.

ghost use Rattle.std.specs.Prelude.{◌≡◌, ◌≢◌, ℕ, List, ◌<◌, [], None, Some, is_some, true, cond, length, slice_set, slice_index};
ghost use Rattle.std.specs.HashMap.{get};
ghost use Rattle.std.specs.Option.{option_eq};
ghost use Rattle.std.specs.Str.{bytes_eq};
ghost use Rattle.tx_tree.specs.Rows.{removed, after_of};
ghost use Rattle.tx_tree.specs.Links.{slots, rows_of, times, children_in, parent_in, id_in, with_children, without_child, ahead_in, IsLinked, IsKept, KeepsRoom};

use super::links::node_at;
use super::node::Node;
use crate::Name;
use std::collections::HashMap;

/// Removes a node other than the Screen's, and the nodes below it.
pub fn remove_node(
    nodes: &mut Vec<Option<Node>>,
    behind: &mut Vec<u32>,
    ids: &mut HashMap<Name, u32>,
    n: u32,
)
    requires kept { IsKept nodes.old.items behind.old.items (λ name. get bytes_eq ids.old name) }
    requires live { is_some (slots nodes.old.items n) ≡ true }
    requires not_first { n ≢ 1 }
    ensures kept { IsKept nodes.new.items behind.new.items (λ name. get bytes_eq ids.new name) }
    ensures made { length nodes.new.items ≡ length nodes.old.items }
    ensures rows { rows_of (slots nodes.new.items) ≡ removed n (rows_of (slots nodes.old.items)) }
    ensures room { KeepsRoom nodes.old.items nodes.new.items }
{
    let mut leaf = last_leaf(nodes, n);
    while leaf != n {
        remove_leaf(nodes, behind, ids, leaf);
        leaf = last_leaf(nodes, n);
    }
    remove_leaf(nodes, behind, ids, n);
}

// The last node of a subtree, which has no children.
fn last_leaf(nodes: &[Option<Node>], n: u32) -> u32
    requires linked { IsLinked (slots nodes.now) }
    requires live { is_some (slots nodes.now n) ≡ true }
    ensures live { is_some (slots nodes.now result) ≡ true }
    ensures leaf { children_in (slots nodes.now result) ≡ [] }
    ensures last { after_of result (rows_of (slots nodes.now)) ≡ after_of n (rows_of (slots nodes.now)) }
    ensures not_first { n ≢ 1 → result ≢ 1 }
{
    let mut leaf = n;
    while let Some(node) = node_at(nodes, leaf) {
        let child = node.children.last();
        if child == 0 {
            return leaf;
        }
        leaf = child;
    }
    leaf
}

// Removes a node without children, other than the Screen's.
fn remove_leaf(
    nodes: &mut Vec<Option<Node>>,
    behind: &mut Vec<u32>,
    ids: &mut HashMap<Name, u32>,
    n: u32,
)
    requires kept { IsKept nodes.old.items behind.old.items (λ name. get bytes_eq ids.old name) }
    requires live { is_some (slots nodes.old.items n) ≡ true }
    requires leaf { children_in (slots nodes.old.items n) ≡ [] }
    requires not_first { n ≢ 1 }
    ensures kept { IsKept nodes.new.items behind.new.items (λ name. get bytes_eq ids.new name) }
    ensures made { length nodes.new.items ≡ length nodes.old.items }
    ensures rows { rows_of (slots nodes.new.items) ≡ removed n (rows_of (slots nodes.old.items)) }
    ensures room { KeepsRoom nodes.old.items nodes.new.items }
    ensures others { (j : ℕ) → j ≢ n → is_some (slots nodes.new.items j) ≡ is_some (slots nodes.old.items j) }
{
    let (parent, id) = take_node(nodes, n);
    let ahead = remove_child(nodes, parent, n);
    pass_next(behind, n, ahead);
    forget_id(ids, id);
}

/// Gives the next sibling of one node to another.
pub fn pass_next(behind: &mut Vec<u32>, from: u32, to: u32)
    requires from { from < length behind.old.items }
    requires to { to < length behind.old.items }
    ensures { behind.new.items ≡ slice_set behind.old.items to (slice_index behind.old.items from) }
{
    behind[to as usize] = behind[from as usize];
}

// Takes an id out of the map, if there is one.
fn forget_id(ids: &mut HashMap<Name, u32>, id: Option<Name>)
    ensures { (name : List ℕ) → get bytes_eq ids.new name ≡ cond (option_eq bytes_eq id (Some name)) None (get bytes_eq ids.old name) }
{
    if let Some(name) = id {
        ids.remove(&name);
    }
}

// Drops a node, and answers its parent and its id.
fn take_node(nodes: &mut Vec<Option<Node>>, n: u32) -> (u32, Option<Name>)
    requires { is_some (slots nodes.old.items n) ≡ true }
    ensures parent { result.0 ≡ parent_in (slots nodes.old.items n) }
    ensures id { result.1 ≡ id_in (slots nodes.old.items n) }
    ensures nodes { nodes.new.items ≡ slice_set nodes.old.items n None }
{
    let Some(node) = node_at(nodes, n) else {
        unreachable!()
    };
    let kept = (node.parent, node.row.id);
    nodes[n as usize] = None;
    kept
}

// Takes a child away from a node, and answers the child that stood directly ahead of it, or 0.
fn remove_child(nodes: &mut Vec<Option<Node>>, parent: u32, child: u32) -> u32
    requires { times child (children_in (slots nodes.old.items parent)) ≡ 1 }
    ensures nodes { nodes.new.items ≡ slice_set nodes.old.items parent (with_children (without_child child (children_in (slots nodes.old.items parent))) (slots nodes.old.items parent)) }
    ensures ahead { result ≡ ahead_in child (children_in (slots nodes.old.items parent)) }
{
    let slot = &mut nodes[parent as usize];
    let Some(mut node) = slot.take() else {
        unreachable!()
    };
    let ahead = node.children.remove(child);
    *slot = Some(node);
    ahead
}
