//! The rows of a tree file, judged by their kinds and by their inline texts.

ghost use Rattle.std.specs.Prelude.{◌≡◌, ◌<◌, ◌^◌, [], length, IfOk, OnOk};
ghost use Rattle.std.specs.List.{All};
ghost use Rattle.tx_read.specs.Answer.{Gives};
ghost use Rattle.tx_tree.specs.Row.{plain};
ghost use Rattle.tx_tree_file.specs.TreeFile.{IsReading};
ghost use Rattle.tx_opening.specs.OpeningFaults.{AreBuiltIn, IsInline};
ghost use Rattle.tx_opening.specs.OpeningReading.{first_line, is_unknown, is_unread, judged, line_below, rows_of, told};

use crate::fault::{RowsFault, RowsRefusal};
use std::alloc::{AllocError, Global};
use tx_parse::{SheetFault, read_inline};
use tx_tree::{Kind, Row, Tree, TreeFault};
use tx_tree_file::read_tree;

// The length that no text of the grammar has.
const MOST_BYTES: usize = 4_294_967_296;

// The line below a row that stands in this line, and below its bindings.
fn line_below(line: u32, row: &Row) -> u32
    ensures { result ≡ line_below line (plain row.now) }
{
    let lines = (row.binds.as_slice().len() as u64).saturating_add(1);
    let below = lines.saturating_add(line as u64);
    if below > 4_294_967_295 {
        4_294_967_295
    } else {
        below as u32
    }
}

// Whether a row is of a kind that isn't built in.
fn is_unknown(row: &Row) -> bool
    ensures { result ≡ is_unknown [] (plain row.now) }
{
    match row.kind {
        Kind::Handed(_) => true,
        _ => false,
    }
}

// Whether the inline text of a row is outside the grammar.
fn is_unread(alloc: Global, row: &Row) -> Result<bool, AllocError>
    ensures { IfOk result (λ unread. unread ≡ is_unread (plain row.now)) }
{
    if row.inline.as_str().len() >= MOST_BYTES {
        return Ok(true);
    }
    match read_inline(alloc, row.inline.as_str()) {
        Ok(_) => Ok(false),
        Err(SheetFault::Text { .. }) => Ok(true),
        Err(SheetFault::NoMemory) => Err(AllocError),
    }
}

// The line of the first row of a kind that isn't built in.
fn first_unknown(tree: &Tree) -> Option<u32>
    ensures { result ≡ first_line (is_unknown []) 1 tree.now.rows }
{
    let mut line = 1;
    for row in tree.walk() {
        if is_unknown(row) {
            return Some(line);
        }
        line = line_below(line, row);
    }
    None
}

// The line of the first row whose inline text is outside the grammar.
fn first_unread(alloc: Global, tree: &Tree) -> Result<Option<u32>, AllocError>
    ensures { IfOk result (λ line. line ≡ first_line is_unread 1 tree.now.rows) }
{
    let mut line = 1;
    for row in tree.walk() {
        match is_unread(alloc, row) {
            Ok(true) => return Ok(Some(line)),
            Ok(false) => {}
            Err(fault) => return Err(fault),
        }
        line = line_below(line, row);
    }
    Ok(None)
}

// All rows are judged by their kinds before any is by its inline text.
#[tactic(auto, unfolding(crate::specs::OpeningReading::judged))]
fn judge(alloc: Global, tree: &Tree) -> Result<(), RowsFault>
    ensures exact { Gives (λ _. tree.now.rows) told result (judged [] tree.now.rows) }
    ensures built_in { OnOk result (AreBuiltIn tree.now.rows) }
    ensures inline { OnOk result (All IsInline tree.now.rows) }
{
    if let Some(line) = first_unknown(tree) {
        return Err(RowsFault::At {
            line,
            kind: RowsRefusal::NoCustom,
        });
    }
    match first_unread(alloc, tree) {
        Ok(None) => Ok(()),
        Ok(Some(line)) => Err(RowsFault::At {
            line,
            kind: RowsRefusal::Inline,
        }),
        Err(_) => Err(RowsFault::NoMemory),
    }
}

/// The tree of a file, in which all kinds are built in and all inline texts are in the grammar.
///
/// # Errors
///
/// The first fault of the file by its grammar; else NoCustom at the first row of a kind that isn't
/// built in; else Inline at the first row whose inline text is outside the grammar. Lines count
/// from 1, and each binding has its own. And NoMemory.
#[tactic(auto, unfolding(crate::specs::OpeningReading::rows_of))]
pub fn read_rows(alloc: Global, bytes: &[u8]) -> Result<Tree, RowsFault>
    requires { length bytes.now < 2 ^ 32 }
    ensures exact { Gives (λ tree. tree.rows) told result (rows_of [] bytes.now) }
    ensures reading { IfOk result (λ tree. IsReading bytes.now tree) }
    ensures built_in { IfOk result (λ tree. AreBuiltIn tree.rows) }
    ensures inline { IfOk result (λ tree. All IsInline tree.rows) }
{
    match read_tree(alloc, bytes) {
        Ok(tree) => match judge(alloc, &tree) {
            Ok(()) => Ok(tree),
            Err(fault) => Err(fault),
        },
        Err(TreeFault::Grammar { line, kind }) => Err(RowsFault::At {
            line,
            kind: RowsRefusal::Tree(kind),
        }),
        Err(_) => Err(RowsFault::NoMemory),
    }
}
