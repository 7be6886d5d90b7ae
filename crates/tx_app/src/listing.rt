//! The lines of the rows that a selector matches as a run begins.
ghost use Rattle.std.specs.Prelude.{◌≡◌, ◌++◌, IfOk, IfSome, OnOk};
ghost use Rattle.tx_app.specs.Listing.{ListsMatches, node_line, id_bytes, match_line, lines_of};

use itoa::Buffer;
use std::alloc::{AllocError, Global};
use tx_opening::opening_state;
use tx_select::{Selector, query};
use tx_text::Name;
use tx_tree::{NodeId, Row, Tree};

fn push_id(out: &mut Vec<u8>, id: &Option<Name>) -> Result<(), AllocError>
    ensures { OnOk result (out.new.items ≡ out.old.items ++ id_bytes id.now) }
{
    match id {
        Some(name) => {
            out.extend_from_slice(b" #")?;
            out.extend_from_slice(name.as_bytes())
        }
        None => Ok(()),
    }
}

/// Adds the line of a row.
fn push_line(out: &mut Vec<u8>, row: &Row) -> Result<(), AllocError>
    ensures { OnOk result (out.new.items ≡ out.old.items ++ match_line row.now) }
{
    let mut buffer = Buffer::new();
    out.extend_from_slice(buffer.format(row.node.0).as_bytes())?;
    out.extend_from_slice(b" ")?;
    out.extend_from_slice(row.kind.name().as_bytes())?;
    push_id(out, &row.id)?;
    out.extend_from_slice(b"\n")
}

/// Adds the line of a node, where the tree has it.
fn push_node(out: &mut Vec<u8>, tree: &Tree, node: NodeId) -> Result<(), AllocError>
    ensures { OnOk result (out.new.items ≡ out.old.items ++ node_line tree.now.rows node) }
{
    match tree.row(node) {
        Some(row) => push_line(out, row),
        None => Ok(()),
    }
}

/// A line for each of these nodes.
fn lines_of(alloc: Global, tree: &Tree, nodes: &[NodeId]) -> Result<Vec<u8>, AllocError>
    ensures { IfOk result (λ lines. lines.items ≡ lines_of tree.now.rows nodes.now) }
{
    let mut lines = Vec::new(alloc);
    for node in nodes {
        push_node(&mut lines, tree, *node)?;
    }
    Ok(lines)
}

/// A line for each row that a selector matches. None where memory runs out.
pub fn matching_lines(alloc: Global, tree: &Tree, selector: &Selector) -> Option<Vec<u8>>
    ensures { IfSome result (λ lines. ListsMatches tree.now.rows selector.now lines.items) }
{
    let state = opening_state(tree);
    match query(alloc, tree, &state, selector) {
        Ok(nodes) => lines_of(alloc, tree, &nodes).ok(),
        Err(_) => None,
    }
}
