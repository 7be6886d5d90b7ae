//! Trees as texts.
ghost use Rattle.std.specs.Prelude.{◌≡◌, ◌++◌, OnOk, IfOk, true, flat_map};
ghost use Rattle.std.specs.List.{list_all};
ghost use Rattle.tx_tree.specs.Spelled.{is_spelled};
ghost use Rattle.tx_tree_file.specs.TreeFile.{bind_is_typed, line_is_typed, is_typed};
ghost use Rattle.tx_tree_file.specs.Spelling.{row_line, bind_line, row_lines, spelling};

use crate::written_parts::{
    push_action, push_bind_indent, push_classes, push_disabled, push_id, push_indent, push_inline,
    push_key, push_kind, push_priority, push_private, push_text,
};
use std::alloc::{AllocError, Global};
use tx_tree::{Bind, NoMemory, Row, Tree};

#[tactic(auto, using(crate::proofs::Appends::nine_parts))]
fn push_row_line(out: &mut Vec<u8>, row: &Row) -> Result<(), AllocError>
    ensures text { OnOk result (out.new.items ≡ out.old.items ++ row_line row.now) }
    ensures typed { OnOk result (line_is_typed row.now ≡ true) }
{
    push_indent(out, row.depth)?;
    push_kind(out, &row.kind)?;
    push_id(out, &row.id)?;
    push_classes(out, row.classes.as_slice())?;
    push_disabled(out, row.disabled)?;
    push_private(out, row.private)?;
    push_text(out, row.text.as_str())?;
    push_inline(out, row.inline.as_str())?;
    out.extend_from_slice(b"\n")
}

/// A binding of a row of this depth.
#[tactic(auto, using(crate::proofs::Appends::bind_parts))]
fn push_bind_line(out: &mut Vec<u8>, depth: u32, bind: &Bind) -> Result<(), AllocError>
    ensures text { OnOk result (out.new.items ≡ out.old.items ++ bind_line depth bind.now) }
    ensures typed { OnOk result (bind_is_typed bind.now ≡ true) }
{
    push_bind_indent(out, depth)?;
    out.extend_from_slice(b"bind ")?;
    push_priority(out, bind.priority)?;
    push_key(out, bind.key)?;
    out.extend_from_slice(b" ")?;
    push_action(out, bind.action)?;
    out.extend_from_slice(b"\n")
}

fn push_bind_lines(out: &mut Vec<u8>, depth: u32, binds: &[Bind]) -> Result<(), AllocError>
    ensures text { OnOk result (out.new.items ≡ out.old.items ++ flat_map (bind_line depth) binds.now) }
    ensures typed { OnOk result (list_all bind_is_typed binds.now ≡ true) }
{
    for bind in binds {
        push_bind_line(out, depth, bind)?;
    }
    Ok(())
}

/// A row, and its bindings below it.
#[tactic(auto, using(crate::proofs::Written::whole_typed))]
fn push_row(out: &mut Vec<u8>, row: &Row) -> Result<(), AllocError>
    ensures text { OnOk result (out.new.items ≡ out.old.items ++ row_lines row.now) }
    ensures typed { OnOk result (is_typed row.now ≡ true) }
{
    push_row_line(out, row)?;
    push_bind_lines(out, row.depth, row.binds.as_slice())
}

/// The text of a tree file that holds this tree, the one spelling that it has. The tree is one of
/// which [`Tree::spelled`] holds.
pub fn write_tree(alloc: Global, tree: &Tree) -> Result<Vec<u8>, NoMemory>
    requires { list_all is_spelled tree.now.rows ≡ true }
    ensures text { IfOk result (λ text. text.items ≡ spelling tree.now.rows) }
    ensures typed { OnOk result (list_all is_typed tree.now.rows ≡ true) }
{
    let mut out = Vec::new(alloc);
    for row in tree.walk() {
        push_row(&mut out, row)?;
    }
    Ok(out)
}
