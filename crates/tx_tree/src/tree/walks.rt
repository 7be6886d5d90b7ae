//! Walks over the rows of a tree. None of them takes memory.

ghost use Rattle.std.specs.Prelude.{◌≡◌, option_map};
ghost use Rattle.std.specs.Iterator.{YieldsFirstBy, item_count};
ghost use Rattle.tx_tree.specs.Row.{plain};
ghost use Rattle.tx_tree.specs.Rows.{first_row, children_of, next_sibling_of, subtree_of, ancestors_of};

use super::Tree;
use super::links::{first_after, node_at};
use crate::{NodeId, Row};
use std::marker::Model;

/// Rows of a tree in preorder, seen as the list of those that are left.
///
/// A step goes up at most as many rows as a row is deep.
#[derive(Drop)]
pub struct Walk<'a> {
    tree: &'a Tree,
    // The next row.
    here: Option<NodeId>,
    // The row before which the walk ends.
    end: Option<NodeId>,
}

impl<'a> Model for Walk<'a> {
    ghost use Rattle.std.specs.Prelude.{List};
    ghost use Rattle.tx_tree.specs.declared.row.Row.{Row};
    ghost use Rattle.tx_tree.specs.Walk.{rest_between, NumbersDiffer};

    ghost Value = { List Row };

    ghost view = { λ walk. rest_between walk.here walk.end walk.tree.now.rows };

    ghost invariant = { λ walk. NumbersDiffer walk.tree.now.rows };
}

impl<'a> Iterator for Walk<'a> {
    type Item = &'a Row;

    ghost next_gives = { YieldsFirstBy (λ row. plain row.now) (λ rows. rows) };

    ghost remaining = { item_count (λ rows. rows) };

    fn next(&mut self) -> Option<&'a Row> {
        let node = self.here?;
        if self.here == self.end {
            return None;
        }
        let row = self.tree.row(node)?;
        self.here = self.tree.next(node);
        Some(row)
    }
}

/// The ancestors of a row from its parent up, seen as the list of those that are left.
#[derive(Drop)]
pub struct Ancestors<'a> {
    tree: &'a Tree,
    // The next row.
    here: Option<NodeId>,
}

impl<'a> Model for Ancestors<'a> {
    ghost use Rattle.std.specs.Prelude.{List};
    ghost use Rattle.tx_tree.specs.declared.row.Row.{Row};
    ghost use Rattle.tx_tree.specs.Walk.{rest_up_from, ClimbsOn};

    ghost Value = { List Row };

    ghost view = { λ walk. rest_up_from walk.here walk.tree.now.rows };

    ghost invariant = { λ walk. ClimbsOn walk.tree.now.rows };
}

impl<'a> Iterator for Ancestors<'a> {
    type Item = &'a Row;

    ghost next_gives = { YieldsFirstBy (λ row. plain row.now) (λ rows. rows) };

    ghost remaining = { item_count (λ rows. rows) };

    fn next(&mut self) -> Option<&'a Row> {
        let node = self.here?;
        let row = self.tree.row(node)?;
        self.here = self.tree.parent(node);
        Some(row)
    }
}

impl Tree {
    /// All rows in preorder.
    pub fn walk(&self) -> Walk<'_>
        ensures { result ≡ self.now.rows }
    {
        Walk {
            tree: self,
            here: Some(self.root()),
            end: None,
        }
    }

    /// A row and the rows below it, in preorder: none where the tree has no such row.
    pub fn subtree(&self, node: NodeId) -> Walk<'_>
        ensures { result ≡ subtree_of node.0 self.now.rows }
    {
        let end = first_after(&self.nodes, &self.behind, node.0);
        Walk {
            tree: self,
            here: Some(node),
            end,
        }
    }

    /// The parent of a row, its parent, and so on up to the Screen: none where the tree has no such
    /// row.
    pub fn ancestors(&self, node: NodeId) -> Ancestors<'_>
        ensures { result ≡ ancestors_of node.0 self.now.rows }
    {
        let _nodes = &self.nodes;
        Ancestors {
            tree: self,
            here: self.parent(node),
        }
    }

    /// The next child of a row's parent. None is for a last child, for the Screen and where the
    /// tree has no such row.
    pub fn next_sibling(&self, node: NodeId) -> Option<NodeId>
        ensures { result ≡ option_map (λ row. row.node) (next_sibling_of node.0 self.now.rows) }
    {
        node_at(&self.nodes, node.0)?;
        let behind = self.behind.as_slice();
        let sibling = behind[node.0 as usize];
        if sibling == 0 {
            return None;
        }
        Some(NodeId(sibling))
    }

    /// The first child of a row. None is for a row without children and where the tree has no such
    /// row.
    pub fn first_child(&self, node: NodeId) -> Option<NodeId>
        ensures { result ≡ option_map (λ row. row.node) (first_row (children_of node.0 self.now.rows)) }
    {
        let child = node_at(&self.nodes, node.0)?.children.as_slice().first()?;
        Some(NodeId(*child))
    }
}
