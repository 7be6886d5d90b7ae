//! New nodes.

ghost use Rattle.std.specs.Prelude.{◌≡◌, ℕ, List, ◌+◌, ◌-◌, ◌<◌, ◌≤◌, [], ◌∷◌, ◌++◌, None, Some, is_some, true, cond, length, IfOk, OnOk, OnErr, slice_set, vec_len, vec_capacity};
ghost use Rattle.std.specs.HashMap.{get, spare};
ghost use Rattle.std.specs.Str.{bytes_eq};
ghost use Rattle.tx_tree.specs.Kind.{is_screen};
ghost use Rattle.tx_tree.specs.Row.{placed};
ghost use Rattle.tx_tree.specs.Rows.{has_id};
ghost use Rattle.tx_tree.specs.Mount.{mount_refusal, mounted};
ghost use Rattle.tx_tree.specs.Links.{slots, rows_of, children_in, depth_in, last_or_zero, with_children, IsKept, KeepsRoom};

use super::links::slot_count;
use super::node::{Children, Node};
use crate::{Name, NewRow, NoMemory, NodeId};
use std::collections::HashMap;

/// Makes a node of a new row, as the last child of another node. Its number is the answer.
///
/// Where there is no memory the nodes are as they were.
pub fn mount_node(
    nodes: &mut Vec<Option<Node>>,
    behind: &mut Vec<u32>,
    ids: &mut HashMap<Name, u32>,
    parent: u32,
    row: NewRow,
) -> Result<u32, NoMemory>
    requires kept { IsKept nodes.old.items behind.old.items (λ name. get bytes_eq ids.old name) }
    requires allowed { mount_refusal (rows_of (slots nodes.old.items)) (length nodes.old.items - 1) parent row ≡ None }
    ensures kept { IsKept nodes.new.items behind.new.items (λ name. get bytes_eq ids.new name) }
    ensures number { IfOk result (λ n. n ≡ length nodes.old.items) }
    ensures made { OnOk result (length nodes.new.items ≡ length nodes.old.items + 1) }
    ensures rows { IfOk result (λ n. rows_of (slots nodes.new.items) ≡ mounted parent n row (rows_of (slots nodes.old.items))) }
    ensures err { OnErr result (nodes.new.items ≡ nodes.old.items) }
    ensures room { KeepsRoom nodes.old.items nodes.new.items }
{
    make_room(nodes, behind, ids)?;
    let n = slot_count(nodes);
    let children = Children::new(*nodes.allocator());
    let (depth, last) = add_child(nodes, parent, n)?;
    let row = row.placed(NodeId(n), depth + 1);
    put_node(
        nodes,
        behind,
        ids,
        last,
        Node {
            row,
            parent,
            children,
        },
    );
    Ok(n)
}

/// Makes the node of a Screen, where there is none yet. It has the number 1.
pub fn first_node(
    nodes: &mut Vec<Option<Node>>,
    behind: &mut Vec<u32>,
    ids: &mut HashMap<Name, u32>,
    row: NewRow,
) -> Result<(), NoMemory>
    requires screen { is_screen row.kind ≡ true }
    requires no_nodes { nodes.old.items ≡ [] }
    requires none_behind { behind.old.items ≡ [] }
    requires no_ids { (name : List ℕ) → get bytes_eq ids.old name ≡ None }
    ensures kept { OnOk result (IsKept nodes.new.items behind.new.items (λ name. get bytes_eq ids.new name)) }
    ensures made { OnOk result (length nodes.new.items ≡ 2) }
    ensures rows { OnOk result (rows_of (slots nodes.new.items) ≡ placed row 1 0 ∷ []) }
{
    nodes.push(None)?;
    behind.push(0)?;
    make_room(nodes, behind, ids)?;
    let children = Children::new(*nodes.allocator());
    let row = row.placed(NodeId(1), 0);
    put_node(
        nodes,
        behind,
        ids,
        0,
        Node {
            row,
            parent: 0,
            children,
        },
    );
    Ok(())
}

// Makes room for one node more.
fn make_room(
    nodes: &mut Vec<Option<Node>>,
    behind: &mut Vec<u32>,
    ids: &mut HashMap<Name, u32>,
) -> Result<(), NoMemory>
    ensures nodes { nodes.new.items ≡ nodes.old.items }
    ensures behind { behind.new.items ≡ behind.old.items }
    ensures ids { (name : List ℕ) → get bytes_eq ids.new name ≡ get bytes_eq ids.old name }
    ensures nodes_room { OnOk result (vec_len nodes.new < vec_capacity nodes.new) }
    ensures behind_room { OnOk result (vec_len behind.new < vec_capacity behind.new) }
    ensures ids_room { OnOk result (0 < spare ids.new) }
{
    nodes.reserve(1)?;
    behind.reserve(1)?;
    ids.reserve(1)
}

// Adds a child to a node, and answers the node's depth and its last child till then, or 0.
fn add_child(nodes: &mut Vec<Option<Node>>, parent: u32, child: u32) -> Result<(u32, u32), NoMemory>
    requires { is_some (slots nodes.old.items parent) ≡ true }
    ensures err { OnErr result (nodes.new.items ≡ nodes.old.items) }
    ensures ok { OnOk result (nodes.new.items ≡ slice_set nodes.old.items parent (with_children (children_in (slots nodes.old.items parent) ++ child ∷ []) (slots nodes.old.items parent))) }
    ensures depth { IfOk result (λ r. r.0 ≡ depth_in (slots nodes.old.items parent)) }
    ensures last { IfOk result (λ r. r.1 ≡ last_or_zero (children_in (slots nodes.old.items parent))) }
    ensures capacity { vec_capacity nodes.new ≡ vec_capacity nodes.old }
{
    let slot = &mut nodes[parent as usize];
    let Some(mut node) = slot.take() else {
        unreachable!()
    };
    let depth = node.row.depth;
    let last = node.children.last();
    let pushed = node.children.push(child);
    *slot = Some(node);
    pushed?;
    Ok((depth, last))
}

// Puts a new node, without children, after a sibling.
fn put_node(
    nodes: &mut Vec<Option<Node>>,
    behind: &mut Vec<u32>,
    ids: &mut HashMap<Name, u32>,
    sibling: u32,
    node: Node,
)
    requires nodes_room { vec_len nodes.old < vec_capacity nodes.old }
    requires behind_room { vec_len behind.old < vec_capacity behind.old }
    requires ids_room { 0 < spare ids.old }
    requires sibling { sibling < length behind.old.items }
    ensures nodes { nodes.new.items ≡ nodes.old.items ++ Some node ∷ [] }
    ensures behind { behind.new.items ≡ slice_set behind.old.items sibling node.row.node.0 ++ 0 ∷ [] }
    ensures ids { (name : List ℕ) → get bytes_eq ids.new name ≡ cond (has_id name node.row) (Some node.row.node.0) (get bytes_eq ids.old name) }
{
    let n = node.row.node.0;
    behind[sibling as usize] = n;
    push_within(behind, 0);
    if let Some(name) = node.row.id {
        insert_within(ids, name, n);
    }
    push_within(nodes, Some(node));
}

// Adds an element where there is room for it.
fn push_within<T: Drop>(items: &mut Vec<T>, item: T)
    requires { vec_len items.old < vec_capacity items.old }
    ensures { items.new.items ≡ items.old.items ++ item ∷ [] }
{
    if items.push(item).is_err() {
        unreachable!()
    }
}

// Adds an id where there is room for it.
fn insert_within(ids: &mut HashMap<Name, u32>, id: Name, n: u32)
    requires { 0 < spare ids.old }
    ensures { (name : List ℕ) → get bytes_eq ids.new name ≡ cond (bytes_eq id name) (Some n) (get bytes_eq ids.old name) }
{
    if ids.insert(id, n).is_err() {
        unreachable!()
    }
}
