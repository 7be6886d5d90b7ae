//! A tree under a sheet.

ghost use Rattle.std.specs.Prelude.{◌≡◌, ◌<◌, ◌^◌, [], length, IfOk};
ghost use Rattle.std.specs.List.{All};
ghost use Rattle.tx_parse.specs.Texts.{sheet_of};
ghost use Rattle.tx_read.specs.Answer.{Gives};
ghost use Rattle.tx_tree_file.specs.TreeFile.{IsReading};
ghost use Rattle.tx_opening.specs.OpeningFaults.{AreBuiltIn, IsInline};
ghost use Rattle.tx_opening.specs.OpeningReading.{opening_of, seen, told_of_opening, with_sheet};

use crate::fault::{OpeningFault, RowsFault};
use crate::judging::read_rows;
use std::alloc::Global;
use tx_parse::{Sheet, SheetFault, read_sheet};
use tx_tree::Tree;

/// What an application opens with.
#[derive(Drop)]
pub struct Opening {
    pub tree: Tree,
    pub sheet: Sheet,
}

// A tree under the sheet in these bytes.
fn with_sheet(alloc: Global, tree: Tree, sheet: &[u8]) -> Result<Opening, OpeningFault>
    requires { length sheet.now < 2 ^ 32 }
    ensures exact { Gives seen told_of_opening result (with_sheet tree.rows sheet.now (sheet_of sheet.now)) }
    ensures same { IfOk result (λ opening. opening.tree ≡ tree) }
{
    match read_sheet(alloc, sheet) {
        Ok(sheet) => Ok(Opening { tree, sheet }),
        Err(SheetFault::Text { line, column, kind }) => {
            Err(OpeningFault::Sheet { line, column, kind })
        }
        Err(SheetFault::NoMemory) => Err(OpeningFault::NoMemory),
    }
}

/// The tree and the sheet in these bytes, each of fewer than 2^32.
///
/// # Errors
///
/// Rows with the first fault of the tree file as `read_rows` has it; else Sheet with the first fault
/// of the sheet. And NoMemory.
#[tactic(auto, unfolding(crate::specs::OpeningReading::opening_of))]
pub fn read_opening(alloc: Global, tree: &[u8], sheet: &[u8]) -> Result<Opening, OpeningFault>
    requires tree { length tree.now < 2 ^ 32 }
    requires sheet { length sheet.now < 2 ^ 32 }
    ensures exact { Gives seen told_of_opening result (opening_of [] tree.now sheet.now) }
    ensures reading { IfOk result (λ opening. IsReading tree.now opening.tree) }
    ensures built_in { IfOk result (λ opening. AreBuiltIn opening.tree.rows) }
    ensures inline { IfOk result (λ opening. All IsInline opening.tree.rows) }
{
    match read_rows(alloc, tree) {
        Ok(tree) => with_sheet(alloc, tree, sheet),
        Err(RowsFault::At { line, kind }) => Err(OpeningFault::Rows { line, kind }),
        Err(RowsFault::NoMemory) => Err(OpeningFault::NoMemory),
    }
}
