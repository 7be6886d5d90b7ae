//! Trees from texts.
ghost use Rattle.std.specs.Prelude.{◌≡◌, ◌≤◌, ◌<◌, ◌+◌, ◌^◌, ◌-◌, [], ◌∷◌, length, slice_index, Ok, IfOk, IfErr, OnOk, IfSome, true, Some, None};
ghost use Rattle.tx_tree.specs.Kind.{is_screen};
ghost use Rattle.tx_tree.specs.Row.{placed};
ghost use Rattle.tx_tree.specs.TreeValue.{TreeValue};
ghost use Rattle.tx_tree.specs.WellFormed.{IsTree};
ghost use Rattle.tx_read.specs.Pieces.{pieces};
ghost use Rattle.tx_tree_file.specs.TreeFile.{IsReading};
ghost use Rattle.tx_tree_file.specs.FirstFault.{IsFaultOf};
ghost use Rattle.tx_tree_file.specs.TreeReading.{tree_of, Reads, GivesRows, FaultIs, refused, rows_behind};
ghost use Rattle.tx_tree_file.specs.Sections.{rows_from, IsMet, IsGrown};

use crate::line::{fault, first_item};
use crate::section::{Met, add, read_section};
use std::alloc::Global;
use tx_read::split_once;
use tx_tree::{Bind, Binds, NewRow, NodeId, Tree, TreeFault, TreeKind};

// The fault of a line whose row can't be mounted.
fn refused(refusal: TreeFault, line: u32) -> TreeFault
    ensures { result ≡ refused refusal line }
{
    match refusal {
        TreeFault::Leaf => fault(line, TreeKind::Leaf),
        TreeFault::TooMany => fault(line, TreeKind::TooMany),
        TreeFault::DuplicateId => fault(line, TreeKind::DuplicateId),
        other => other,
    }
}

// The row with its bindings.
fn with_binds(mut row: NewRow, binds: Vec<Bind>) -> NewRow
    ensures { result ≡ record row { binds = binds.items } }
{
    row.binds = Binds::of(binds);
    row
}

// The node above a row of this depth.
fn parent_at(path: &[u32], depth: u32) -> NodeId
    requires below { 1 ≤ depth }
    requires known { depth ≤ length path.now }
    ensures { result.0 ≡ slice_index path.now (depth - 1) }
{
    NodeId(path[depth as usize - 1])
}

// Adds a row that was met, with its bindings, and answers the next one that is met.
fn add_row<'a>(
    alloc: Global,
    tree: &mut Tree,
    path: &mut Vec<u32>,
    met: Met<'a>,
) -> Result<Option<Met<'a>>, TreeFault>
    requires grown { IsGrown tree.old path.old.items }
    requires met { IsMet (length path.old.items - 1) 0 (2 ^ 32 - 1) met }
    ensures rows { IfOk result (λ next. rows_from tree.old.rows (Some met.entry) ≡ rows_from tree.new.rows next) }
    ensures grown { OnOk result (IsGrown tree.new path.new.items) }
    ensures next { IfOk result (λ next. IfSome next (IsMet (length path.new.items - 1) met.entry.line (met.entry.line + length met.entry.rest.now))) }
    ensures fault { IfErr result (FaultIs (rows_from tree.old.rows (Some met.entry))) }
{
    let parent = parent_at(path, met.depth);
    if let Err(refusal) = tree.may_mount(parent, &met.row) {
        return Err(refused(refusal, met.line));
    }
    let section = match read_section(alloc, met.depth, met.rest, met.line) {
        Ok(section) => section,
        Err(refusal) => return Err(refusal),
    };
    let node = match tree.mount(parent, with_binds(met.row, section.binds)) {
        Ok(node) => node,
        Err(refusal) => return Err(refusal),
    };
    path.truncate(met.depth as usize);
    add(path, node.0)?;
    Ok(section.met)
}

// Adds all rows after the Screen.
fn add_rows(alloc: Global, tree: &mut Tree, first: Option<Met<'_>>) -> Result<(), TreeFault>
    requires screen { IsGrown tree.old (1 ∷ []) }
    requires met { IfSome first (IsMet 0 0 (2 ^ 32 - 1)) }
    ensures rows { OnOk result (rows_from tree.old.rows first.entry ≡ Ok tree.new.rows) }
    ensures made { OnOk result (tree.new.made ≡ length tree.new.rows) }
    ensures fault { IfErr result (FaultIs (rows_from tree.old.rows first.entry)) }
{
    let mut path = Vec::new(alloc);
    add(&mut path, 1)?;
    let mut next = first;
    while let Some(met) = next {
        next = match add_row(alloc, tree, &mut path, met) {
            Ok(next) => next,
            Err(refusal) => return Err(refusal),
        };
    }
    Ok(())
}

// The rows of a whole file whose first line is done.
fn read_behind(alloc: Global, screen: NewRow, rest: &[u8]) -> Result<Tree, TreeFault>
    requires screen { is_screen screen.kind ≡ true }
    requires alone { screen.binds ≡ [] }
    requires size { 1 + length rest.now < 2 ^ 32 }
    ensures { Reads (rows_behind (pieces 10 rest.now) 1 (record { before = []; last = placed screen 1 0 })) result }
{
    let section = match read_section(alloc, 0, rest, 1) {
        Ok(section) => section,
        Err(refusal) => return Err(refusal),
    };
    let mut tree = Tree::of_screen(alloc, with_binds(screen, section.binds))?;
    match add_rows(alloc, &mut tree, section.met) {
        Ok(()) => Ok(tree),
        Err(refusal) => Err(refusal),
    }
}

// The tree of a text, or its first fault.
fn read_lines(alloc: Global, bytes: &[u8]) -> Result<Tree, TreeFault>
    requires { length bytes.now < 2 ^ 32 }
    ensures { Reads (tree_of bytes.now) result }
{
    let Some((line, rest)) = split_once(bytes, b'\n') else {
        return match first_item(alloc, bytes, false) {
            Err(refusal) => Err(refusal),
            Ok(_) => Err(fault(1, TreeKind::Expected)),
        };
    };
    match first_item(alloc, line, true) {
        Ok(screen) => read_behind(alloc, screen, rest),
        Err(refusal) => Err(refusal),
    }
}

/// The tree that the text of a tree file spells. Its nodes are numbered from 1 in document order,
/// and each row begins with the private state of its kind, but for `on` and the total of a bar.
///
/// # Errors
///
/// Grammar alone, with the first line that breaks a rule, from 1 on, and of that line the first of
/// these: BadByte where the line isn't UTF-8; BadIndent where its indent is none that may stand
/// there; TooDeep where a row would be 64 deep; Expected where it is no row and no binding that may
/// stand there, or has no line feed; Leaf where the row's parent has no children; TooMany where
/// 65,536 rows were read; DuplicateId where an earlier row has its id. And NoMemory.
pub fn read_tree(alloc: Global, bytes: &[u8]) -> Result<Tree, TreeFault>
    requires { length bytes.now < 2 ^ 32 }
    ensures exact { Reads (tree_of bytes.now) result }
    ensures found { IfOk result (λ tree. IsReading bytes.now tree) }
    ensures only { (tree : TreeValue) → IsTree tree → IsReading bytes.now tree → GivesRows tree.rows result }
    ensures fault { IfErr result (λ fault. IsFaultOf bytes.now fault) }
{
    read_lines(alloc, bytes)
}
