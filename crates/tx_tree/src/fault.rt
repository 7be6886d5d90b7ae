//! What a call on a tree is refused for.

ghost use Rattle.std.specs.Prelude.{◌≡◌};
ghost use Rattle.tx_tree.specs.declared.fault.TreeFault.TheVariants.{NoMemory as no_memory};

use std::alloc::AllocError;
use thiserror::Error;

/// Why a call on a tree is refused, or a tree file.
#[derive(Clone, Copy, Debug, PartialEq, Eq, Error)]
pub enum TreeFault {
    /// The tree file breaks a rule of its grammar in this line, counted from 1.
    #[error("line {line}: {kind}")]
    Grammar { line: u32, kind: TreeKind },
    /// No row of the tree has this number.
    #[error("no such node")]
    NoNode,
    /// Another row of the tree has this id.
    #[error("the id is taken")]
    DuplicateId,
    /// As many nodes were made as a tree ever makes.
    #[error("too many nodes")]
    TooMany,
    /// The row would be deeper than the deepest row that a tree has.
    #[error("too deep")]
    TooDeep,
    /// The Screen can't be removed.
    #[error("the Screen stays")]
    Root,
    /// A row of this kind has no children, or the Screen can't be a child.
    #[error("no such child")]
    Leaf,
    /// The two rows aren't two children of one row.
    #[error("not siblings")]
    NotSiblings,
    /// There is no memory.
    #[error("no memory")]
    NoMemory,
}

impl From<AllocError> for TreeFault {
    ghost from_gives = { λ _ fault. fault ≡ no_memory };

    fn from(_: AllocError) -> TreeFault {
        TreeFault::NoMemory
    }
}

/// Which rule of the grammar a line of a tree file breaks.
#[derive(Clone, Copy, Debug, PartialEq, Eq, Error)]
pub enum TreeKind {
    /// The line isn't UTF-8.
    #[error("not UTF-8")]
    BadByte,
    /// The line is nothing that may stand here.
    #[error("a row or a binding was expected")]
    Expected,
    /// The indent is none that may stand here.
    #[error("the indent doesn't fit")]
    BadIndent,
    /// An earlier row has this id.
    #[error("the id is taken")]
    DuplicateId,
    /// The file has more rows than a tree has nodes.
    #[error("too many nodes")]
    TooMany,
    /// The row is deeper than the deepest row that a tree has.
    #[error("too deep")]
    TooDeep,
    /// The row stands below a kind that has no children.
    #[error("no such child")]
    Leaf,
}
