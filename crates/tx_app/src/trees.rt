//! The tree of a file, as a run takes it.

ghost use Rattle.std.specs.Prelude.{◌≡◌, ◌<◌, ◌^◌, length, IfOk};
ghost use Rattle.tx_picture.specs.Given.{AreBuiltIn};
ghost use Rattle.tx_read.specs.Answer.{Gives};
ghost use Rattle.tx_app.specs.Trees.{refusal_of, rows_of, told};

use crate::causes::Refusal;
use std::alloc::Global;
use tx_opening::{RowsFault, RowsRefusal};
use tx_tree::Tree;

/// Why a tree file isn't taken.
#[derive(Clone, Copy)]
pub enum TreeStop {
    /// What is wrong in this line, from 1 on.
    At { line: u32, kind: Refusal },
    NoMemory,
}

fn refusal_of(kind: RowsRefusal) -> Refusal
    ensures { result ≡ refusal_of kind }
{
    match kind {
        RowsRefusal::Tree(kind) => Refusal::Tree(kind),
        RowsRefusal::NoCustom => Refusal::NoCustom,
        RowsRefusal::Inline => Refusal::Inline,
    }
}

/// The tree of a file, where a run takes it, with the refusals of a run.
#[tactic(auto, unfolding(crate::specs::Trees::rows_of))]
pub fn read_rows(alloc: Global, bytes: &[u8]) -> Result<Tree, TreeStop>
    requires { length bytes.now < 2 ^ 32 }
    ensures exact { Gives (λ tree. tree.rows) told result (rows_of bytes.now) }
    ensures built_in { IfOk result (λ tree. AreBuiltIn tree.rows) }
{
    match tx_opening::read_rows(alloc, bytes) {
        Ok(tree) => Ok(tree),
        Err(RowsFault::At { line, kind }) => Err(TreeStop::At {
            line,
            kind: refusal_of(kind),
        }),
        Err(RowsFault::NoMemory) => Err(TreeStop::NoMemory),
    }
}
