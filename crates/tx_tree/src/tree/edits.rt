//! Changes of one row of a tree.

ghost use Rattle.std.specs.Prelude.{◌≡◌, ◌<◌, ◌≤◌, ◌^◌, not, length, IfOk, OnOk, OnErr};
ghost use Rattle.tx_tree.specs.Classes.{without, has_name, with_name};
ghost use Rattle.tx_tree.specs.Edits.{edit_refusal, changed_at, classes_of, with_text, with_inline, with_disabled, with_state, with_classes};
ghost use Rattle.tx_tree.specs.Changes.{text_size, changed_by};
ghost use Rattle.tx_tree.specs.Refusal.{Answers, AnswersAtOnce};

use super::links::node_at;
use super::set::{Change, change_row};
use super::{Tree, set};
use crate::{Name, NodeId, Private, Text, TreeFault};

impl Tree {
    ghost use Rattle.tx_tree.specs.TreeValue.{spare_of, SameRows, KeepsSpares, LowersOne};

    /// Changes the text of a row. A cursor then stands at the text's end, and of an OptionList the
    /// first line is chosen. It takes no memory.
    ///
    /// # Errors
    ///
    /// NoNode where the tree has no such row. The tree is then as it was.
    pub fn set_text(&mut self, node: NodeId, text: Text) -> Result<(), TreeFault>
        requires { length text < 2 ^ 32 }
        ensures refusal { AnswersAtOnce (edit_refusal self.old.rows node.0) result }
        ensures rows { OnOk result (self.new.rows ≡ changed_at node.0 (with_text text) self.old.rows) }
        ensures made { self.new.made ≡ self.old.made }
        ensures unchanged { OnErr result (SameRows self.old self.new) }
        ensures spares { KeepsSpares self.old self.new }
    {
        self.change(node, Change::Text(text))
    }

    /// Changes the inline text of a row. It takes no memory.
    ///
    /// # Errors
    ///
    /// NoNode where the tree has no such row. The tree is then as it was.
    pub fn set_inline(&mut self, node: NodeId, text: Text) -> Result<(), TreeFault>
        ensures refusal { AnswersAtOnce (edit_refusal self.old.rows node.0) result }
        ensures rows { OnOk result (self.new.rows ≡ changed_at node.0 (with_inline text) self.old.rows) }
        ensures made { self.new.made ≡ self.old.made }
        ensures unchanged { OnErr result (SameRows self.old self.new) }
        ensures spares { KeepsSpares self.old self.new }
    {
        self.change(node, Change::Inline(text))
    }

    /// Disables a row, or enables it. It takes no memory.
    ///
    /// # Errors
    ///
    /// NoNode where the tree has no such row. The tree is then as it was.
    pub fn set_disabled(&mut self, node: NodeId, to: bool) -> Result<(), TreeFault>
        ensures refusal { AnswersAtOnce (edit_refusal self.old.rows node.0) result }
        ensures rows { OnOk result (self.new.rows ≡ changed_at node.0 (with_disabled to) self.old.rows) }
        ensures made { self.new.made ≡ self.old.made }
        ensures unchanged { OnErr result (SameRows self.old self.new) }
        ensures spares { KeepsSpares self.old self.new }
    {
        self.change(node, Change::Disabled(to))
    }

    /// Changes the text and the private state of a row. It takes no memory.
    ///
    /// # Errors
    ///
    /// NoNode where the tree has no such row. The tree is then as it was.
    pub fn set_state(&mut self, node: NodeId, text: Text, private: Private) -> Result<(), TreeFault>
        ensures refusal { AnswersAtOnce (edit_refusal self.old.rows node.0) result }
        ensures rows { OnOk result (self.new.rows ≡ changed_at node.0 (with_state text private) self.old.rows) }
        ensures made { self.new.made ≡ self.old.made }
        ensures unchanged { OnErr result (SameRows self.old self.new) }
        ensures spares { KeepsSpares self.old self.new }
    {
        self.change(node, Change::State(text, private))
    }

    // Changes a row. It takes no memory.
    fn change(&mut self, node: NodeId, change: Change) -> Result<(), TreeFault>
        requires { text_size change < 2 ^ 32 }
        ensures refusal { AnswersAtOnce (edit_refusal self.old.rows node.0) result }
        ensures rows { OnOk result (self.new.rows ≡ changed_at node.0 (changed_by change) self.old.rows) }
        ensures made { self.new.made ≡ self.old.made }
        ensures unchanged { OnErr result (SameRows self.old self.new) }
        ensures spares { KeepsSpares self.old self.new }
    {
        let Some(_) = node_at(&self.nodes, node.0) else {
            return Err(TreeFault::NoNode);
        };
        change_row(&mut self.nodes, node.0, change);
        Ok(())
    }

    /// Adds a class after the others of a row where it is absent, and answers whether it was.
    ///
    /// It takes no memory where the row has room for a further class, and uses up at most one
    /// place of that room.
    ///
    /// # Errors
    ///
    /// NoNode where the tree has no such row, and NoMemory. The tree is then as it was.
    pub fn add_class(&mut self, node: NodeId, name: Name) -> Result<bool, TreeFault>
        ensures refusal { Answers (edit_refusal self.old.rows node.0) result }
        ensures with_room { 0 < spare_of self.old node.0 → AnswersAtOnce (edit_refusal self.old.rows node.0) result }
        ensures added { IfOk result (λ added. added ≡ not (has_name name (classes_of node.0 self.old.rows))) }
        ensures rows { OnOk result (self.new.rows ≡ changed_at node.0 (with_classes (with_name name)) self.old.rows) }
        ensures made { self.new.made ≡ self.old.made }
        ensures unchanged { OnErr result (SameRows self.old self.new) }
        ensures spares { LowersOne node.0 self.old self.new }
    {
        let Some(_) = node_at(&self.nodes, node.0) else {
            return Err(TreeFault::NoNode);
        };
        let added = set::add_class(&mut self.nodes, node.0, name)?;
        Ok(added)
    }

    /// Takes every place of a class away from a row, and answers whether there was one. It takes
    /// no memory.
    ///
    /// # Errors
    ///
    /// NoNode where the tree has no such row. The tree is then as it was.
    pub fn remove_class(&mut self, node: NodeId, name: &Name) -> Result<bool, TreeFault>
        ensures refusal { AnswersAtOnce (edit_refusal self.old.rows node.0) result }
        ensures removed { IfOk result (λ removed. removed ≡ has_name name.now (classes_of node.0 self.old.rows)) }
        ensures rows { OnOk result (self.new.rows ≡ changed_at node.0 (with_classes (without name.now)) self.old.rows) }
        ensures made { self.new.made ≡ self.old.made }
        ensures unchanged { OnErr result (SameRows self.old self.new) }
        ensures spares { KeepsSpares self.old self.new }
    {
        let Some(_) = node_at(&self.nodes, node.0) else {
            return Err(TreeFault::NoNode);
        };
        let removed = set::remove_class(&mut self.nodes, node.0, name);
        Ok(removed)
    }

    /// Makes room for at least `more` further classes of a row. No row changes.
    ///
    /// # Errors
    ///
    /// NoNode where the tree has no such row, and NoMemory.
    pub fn reserve_classes(&mut self, node: NodeId, more: u32) -> Result<(), TreeFault>
        ensures refusal { Answers (edit_refusal self.old.rows node.0) result }
        ensures room { OnOk result (more ≤ spare_of self.new node.0) }
        ensures unchanged { SameRows self.old self.new }
        ensures spares { KeepsSpares self.old self.new }
    {
        let Some(_) = node_at(&self.nodes, node.0) else {
            return Err(TreeFault::NoNode);
        };
        set::reserve_classes(&mut self.nodes, node.0, more)?;
        Ok(())
    }
}
