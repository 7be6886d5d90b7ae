//! The tree of rows.

ghost use Rattle.std.specs.Prelude.{◌≡◌, ◌+◌, [], ◌∷◌, true, Some, IfOk, OnOk, OnErr, map, option_map};
ghost use Rattle.std.specs.List.{list_all};
ghost use Rattle.tx_tree.specs.Kind.{is_screen};
ghost use Rattle.tx_tree.specs.Row.{plain, placed};
ghost use Rattle.tx_tree.specs.Rows.{row_at, parent_of, next_of, first_row, children_of, removed, moved};
ghost use Rattle.tx_tree.specs.Mount.{is_taken, mount_refusal, mounted};
ghost use Rattle.tx_tree.specs.Edits.{edit_refusal, remove_refusal, move_refusal};
ghost use Rattle.tx_tree.specs.Spelled.{is_spelled};
ghost use Rattle.tx_tree.specs.Refusal.{Answers, AnswersAtOnce};

use crate::{Name, NewRow, NoMemory, NodeId, Row, TreeFault};
use links::{all_spelled, first_after, node_at, node_ids, slot_count};
use mount::{first_node, mount_node};
use moves::move_node;
use node::Node;
use remove::remove_node;
use std::alloc::Global;
use std::collections::HashMap;
use std::marker::Model;

// The depth of the deepest rows.
const DEEPEST: u32 = 63;

// The most nodes that a tree ever makes.
const MOST_NODES: u32 = 65_536;

mod edits;
mod links;
mod mount;
mod moves;
mod node;
mod remove;
mod set;
mod walks;

pub use walks::{Ancestors, Walk};

/// A tree of rows, seen as its rows in preorder and the number of nodes made so far.
#[derive(Drop)]
pub struct Tree {
    // Each node at its number. The place 0 is empty, as are those of the nodes that are gone.
    nodes: Vec<Option<Node>>,
    // The next sibling of each node at its number, or 0.
    behind: Vec<u32>,
    // The number of the node that has an id.
    ids: HashMap<Name, u32>,
}

impl Model for Tree {
    ghost use Rattle.tx_tree.specs.TreeValue.{TreeValue};

    ghost Value = { TreeValue };

    ghost use Rattle.tx_tree.specs.Tree.{value_of, IsWhole};

    ghost view = { value_of };

    ghost invariant = { IsWhole };
}

impl Tree {
    ghost use Rattle.tx_tree.specs.TreeValue.{SameRows, KeepsSpares};
    ghost use Rattle.tx_tree.specs.WellFormed.{IsTree};

    /// The tree of a Screen alone. Its node has the number 1.
    pub fn of_screen(alloc: Global, row: NewRow) -> Result<Tree, NoMemory>
        requires { is_screen row.kind ≡ true }
        ensures rows { IfOk result (λ tree. tree.rows ≡ placed row 1 0 ∷ []) }
        ensures made { IfOk result (λ tree. tree.made ≡ 1) }
    {
        let mut nodes = Vec::new(alloc);
        let mut behind = Vec::new(alloc);
        let mut ids = HashMap::new(alloc);
        first_node(&mut nodes, &mut behind, &mut ids, row)?;
        Ok(Tree { nodes, behind, ids })
    }

    /// The number of nodes made so far. The next node made has the number one more.
    pub fn made(&self) -> u32
        ensures made { result ≡ self.now.made }
        ensures known { IsTree self.now }
    {
        slot_count(&self.nodes) - 1
    }

    /// The number of the Screen, which is the first row.
    pub fn root(&self) -> NodeId
        ensures first { option_map (λ row. row.node) (first_row self.now.rows) ≡ Some result }
        ensures one { result.0 ≡ 1 }
        ensures known { IsTree self.now }
    {
        let _nodes = &self.nodes;
        NodeId(1)
    }

    /// The row with a number, or None where the tree has no such row.
    pub fn row(&self, node: NodeId) -> Option<&Row>
        ensures { option_map (λ row. plain row.now) result ≡ row_at node.0 self.now.rows }
    {
        Some(&node_at(&self.nodes, node.0)?.row)
    }

    /// The parent of a row. None is for the Screen and where the tree has no such row.
    pub fn parent(&self, node: NodeId) -> Option<NodeId>
        ensures { result ≡ option_map (λ row. row.node) (parent_of node.0 self.now.rows) }
    {
        let parent = node_at(&self.nodes, node.0)?.parent;
        if parent == 0 {
            return None;
        }
        Some(NodeId(parent))
    }

    /// The row after this one in preorder. None is for the last row and where the tree has no such
    /// row.
    pub fn next(&self, node: NodeId) -> Option<NodeId>
        ensures { result ≡ option_map (λ row. row.node) (next_of node.0 self.now.rows) }
    {
        match node_at(&self.nodes, node.0)?.children.as_slice().first() {
            Some(child) => Some(NodeId(*child)),
            None => first_after(&self.nodes, &self.behind, node.0),
        }
    }

    /// Whether `mount` would take this row below `parent`: the refusal that it would give, want of
    /// memory aside.
    ///
    /// # Errors
    ///
    /// In this order: NoNode where the tree has no row `parent`; Leaf where the kind of `parent`
    /// has no children or the new row is a Screen; TooDeep where the new row would be 64 deep;
    /// TooMany where 65,536 nodes were made; DuplicateId where a row of the tree has the id.
    pub fn may_mount(&self, parent: NodeId, row: &NewRow) -> Result<(), TreeFault>
        ensures { AnswersAtOnce (mount_refusal self.now.rows self.now.made parent.0 row.now) result }
    {
        let Some(above) = self.row(parent) else {
            return Err(TreeFault::NoNode);
        };
        if !above.kind.holds_children() || row.kind.is_screen() {
            return Err(TreeFault::Leaf);
        }
        if above.depth == DEEPEST {
            return Err(TreeFault::TooDeep);
        }
        if self.made() == MOST_NODES {
            return Err(TreeFault::TooMany);
        }
        if self.has_id(row.id) {
            return Err(TreeFault::DuplicateId);
        }
        Ok(())
    }

    // Whether a row has the id, if there is one.
    fn has_id(&self, id: Option<Name>) -> bool
        ensures { result ≡ is_taken id self.now.rows }
    {
        match id {
            Some(name) => self.ids.contains_key(&name),
            None => false,
        }
    }

    /// Makes a node of a new row, as the last child of `parent`. Its number is the answer.
    ///
    /// # Errors
    ///
    /// The refusals of `may_mount`, in its order, and NoMemory. The tree is then as it was.
    pub fn mount(&mut self, parent: NodeId, row: NewRow) -> Result<NodeId, TreeFault>
        ensures refusal { Answers (mount_refusal self.old.rows self.old.made parent.0 row) result }
        ensures number { IfOk result (λ node. node.0 ≡ self.old.made + 1) }
        ensures made { OnOk result (self.new.made ≡ self.old.made + 1) }
        ensures rows { IfOk result (λ node. self.new.rows ≡ mounted parent.0 node.0 row self.old.rows) }
        ensures unchanged { OnErr result (SameRows self.old self.new) }
        ensures spares { KeepsSpares self.old self.new }
    {
        self.may_mount(parent, &row)?;
        let n = mount_node(
            &mut self.nodes,
            &mut self.behind,
            &mut self.ids,
            parent.0,
            row,
        )?;
        Ok(NodeId(n))
    }

    /// Removes a row and the rows below it. It takes no memory.
    ///
    /// # Errors
    ///
    /// NoNode where the tree has no such row, and then Root where it is the Screen. The tree is
    /// then as it was.
    pub fn remove(&mut self, node: NodeId) -> Result<(), TreeFault>
        ensures refusal { AnswersAtOnce (remove_refusal self.old.rows node.0) result }
        ensures rows { OnOk result (self.new.rows ≡ removed node.0 self.old.rows) }
        ensures made { self.new.made ≡ self.old.made }
        ensures unchanged { OnErr result (SameRows self.old self.new) }
        ensures spares { KeepsSpares self.old self.new }
    {
        let Some(_) = node_at(&self.nodes, node.0) else {
            return Err(TreeFault::NoNode);
        };
        if node.0 == 1 {
            return Err(TreeFault::Root);
        }
        remove_node(&mut self.nodes, &mut self.behind, &mut self.ids, node.0);
        Ok(())
    }

    /// Moves a row, with the rows below it, directly before another row of the same parent. It
    /// takes no memory.
    ///
    /// # Errors
    ///
    /// NoNode where the tree lacks one of the rows, and then NotSiblings where their parents differ
    /// or both are one row. The tree is then as it was.
    pub fn move_before(&mut self, node: NodeId, before: NodeId) -> Result<(), TreeFault>
        ensures refusal { AnswersAtOnce (move_refusal self.old.rows node.0 before.0) result }
        ensures rows { OnOk result (self.new.rows ≡ moved node.0 before.0 self.old.rows) }
        ensures made { self.new.made ≡ self.old.made }
        ensures unchanged { OnErr result (SameRows self.old self.new) }
        ensures spares { KeepsSpares self.old self.new }
    {
        let Some(moving) = node_at(&self.nodes, node.0) else {
            return Err(TreeFault::NoNode);
        };
        let Some(other) = node_at(&self.nodes, before.0) else {
            return Err(TreeFault::NoNode);
        };
        let parent = moving.parent;
        if node.0 == before.0 {
            return Err(TreeFault::NotSiblings);
        }
        if parent != other.parent {
            return Err(TreeFault::NotSiblings);
        }
        move_node(&mut self.nodes, &mut self.behind, parent, node.0, before.0);
        Ok(())
    }

    /// The children of a row in order.
    ///
    /// # Errors
    ///
    /// NoNode where the tree has no such row, and NoMemory.
    pub fn children(&self, node: NodeId) -> Result<Vec<NodeId>, TreeFault>
        ensures refusal { Answers (edit_refusal self.now.rows node.0) result }
        ensures children { IfOk result (λ nodes. nodes.items ≡ map (λ row. row.node) (children_of node.0 self.now.rows)) }
    {
        let Some(kept) = node_at(&self.nodes, node.0) else {
            return Err(TreeFault::NoNode);
        };
        let nodes = node_ids(*self.nodes.allocator(), kept.children.as_slice())?;
        Ok(nodes)
    }

    /// A copy of all rows in preorder.
    pub fn rows(&self) -> Result<Vec<Row>, NoMemory>
        ensures { IfOk result (λ rows. map plain rows.items ≡ self.now.rows) }
    {
        let mut copies = Vec::new(*self.nodes.allocator());
        for row in self.walk() {
            copies.push(row.copy()?)?;
        }
        Ok(copies)
    }

    /// Whether every row has a spelling in a tree file. It takes no memory.
    ///
    /// A row has one where its classes have no repeats; a handed-in name begins with a capital
    /// letter and isn't the name of a built-in kind; its text has no byte below 0x20 but tab and
    /// line feed; its inline text has no line feed; each key of its bindings is a character that
    /// isn't a control one, a named key, a function key 1 to 12 or a small letter with the control
    /// key; its private state is of its kind's form; and a total is 1 to 1,000,000.
    pub fn spelled(&self) -> bool
        ensures { result ≡ list_all is_spelled self.now.rows }
    {
        all_spelled(&self.nodes)
    }
}
