//! Changes of one row.

ghost use Rattle.std.specs.Prelude.{◌≡◌, ◌+◌, ◌<◌, ◌≤◌, ◌^◌, not, true, is_some, length, OnOk, OnErr, IfOk, slice_set};
ghost use Rattle.tx_tree.specs.Classes.{without, has_name, with_name};
ghost use Rattle.tx_tree.specs.Changes.{text_size, changed_by};
ghost use Rattle.tx_tree.specs.Links.{slots, classes_in, with_row, with_own_classes};

use super::node::Node;
use crate::kind::private_at;
use crate::{Name, NoMemory, Private, Row, Text};

/// A change of one row, which moves what it is given.
#[derive(Drop)]
pub enum Change {
    /// Another text: a cursor then stands at its end, and of an OptionList the first line is
    /// chosen.
    Text(Text),
    Inline(Text),
    Disabled(bool),
    /// Another text and another private state.
    State(Text, Private),
}

/// Changes a node's row.
pub fn change_row(nodes: &mut Vec<Option<Node>>, n: u32, change: Change)
    requires live { is_some (slots nodes.old.items n) ≡ true }
    requires short { text_size change < 2 ^ 32 }
    ensures { nodes.new.items ≡ slice_set nodes.old.items n (with_row (changed_by change) (slots nodes.old.items n)) }
{
    let slot = &mut nodes[n as usize];
    let Some(mut node) = slot.take() else {
        unreachable!()
    };
    node.row = changed_by(node.row, change);
    *slot = Some(node);
}

// A row once it is changed.
fn changed_by(mut row: Row, change: Change) -> Row
    requires { text_size change < 2 ^ 32 }
    ensures { result ≡ changed_by change row }
{
    match change {
        Change::Text(text) => {
            row.private = private_at(text.as_str().len() as u32, row.private);
            row.text = text;
        }
        Change::Inline(text) => row.inline = text,
        Change::Disabled(to) => row.disabled = to,
        Change::State(text, private) => {
            row.text = text;
            row.private = private;
        }
    }
    row
}

/// Adds a class to a node's row where it is absent, and answers whether it was.
pub fn add_class(nodes: &mut Vec<Option<Node>>, n: u32, name: Name) -> Result<bool, NoMemory>
    requires { is_some (slots nodes.old.items n) ≡ true }
    ensures nodes { nodes.new.items ≡ slice_set nodes.old.items n (with_own_classes (classes_in (slots nodes.new.items n)) (slots nodes.old.items n)) }
    ensures names { OnOk result ((classes_in (slots nodes.new.items n)).names ≡ with_name name (classes_in (slots nodes.old.items n)).names) }
    ensures added { IfOk result (λ added. added ≡ not (has_name name (classes_in (slots nodes.old.items n)).names)) }
    ensures err { OnErr result ((classes_in (slots nodes.new.items n)).names ≡ (classes_in (slots nodes.old.items n)).names) }
    ensures lower { (classes_in (slots nodes.old.items n)).spare ≤ (classes_in (slots nodes.new.items n)).spare + 1 }
    ensures full { OnErr result ((classes_in (slots nodes.old.items n)).spare ≡ 0) }
{
    let slot = &mut nodes[n as usize];
    let Some(mut node) = slot.take() else {
        unreachable!()
    };
    let added = node.row.classes.add(name);
    *slot = Some(node);
    added
}

/// Takes every place of a class away from a node's row, and answers whether there was one.
pub fn remove_class(nodes: &mut Vec<Option<Node>>, n: u32, name: &Name) -> bool
    requires { is_some (slots nodes.old.items n) ≡ true }
    ensures nodes { nodes.new.items ≡ slice_set nodes.old.items n (with_own_classes (classes_in (slots nodes.new.items n)) (slots nodes.old.items n)) }
    ensures names { (classes_in (slots nodes.new.items n)).names ≡ without name.now (classes_in (slots nodes.old.items n)).names }
    ensures removed { result ≡ has_name name.now (classes_in (slots nodes.old.items n)).names }
    ensures kept { (classes_in (slots nodes.old.items n)).spare ≤ (classes_in (slots nodes.new.items n)).spare }
{
    let slot = &mut nodes[n as usize];
    let Some(mut node) = slot.take() else {
        unreachable!()
    };
    let removed = node.row.classes.remove(name);
    *slot = Some(node);
    removed
}

/// Makes room for some more classes of a node's row.
pub fn reserve_classes(nodes: &mut Vec<Option<Node>>, n: u32, more: u32) -> Result<(), NoMemory>
    requires { is_some (slots nodes.old.items n) ≡ true }
    ensures nodes { nodes.new.items ≡ slice_set nodes.old.items n (with_own_classes (classes_in (slots nodes.new.items n)) (slots nodes.old.items n)) }
    ensures names { (classes_in (slots nodes.new.items n)).names ≡ (classes_in (slots nodes.old.items n)).names }
    ensures kept { (classes_in (slots nodes.old.items n)).spare ≤ (classes_in (slots nodes.new.items n)).spare }
    ensures ok { OnOk result (more ≤ (classes_in (slots nodes.new.items n)).spare) }
{
    let slot = &mut nodes[n as usize];
    let Some(mut node) = slot.take() else {
        unreachable!()
    };
    let reserved = node.row.classes.reserve(more);
    *slot = Some(node);
    reserved
}
