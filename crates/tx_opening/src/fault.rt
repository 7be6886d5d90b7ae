//! Why an application doesn't open.

use tx_parse::SheetKind;
use tx_tree::TreeKind;

/// What is wrong in a line of a tree file.
#[derive(Clone, Copy, Debug, PartialEq, Eq)]
pub enum RowsRefusal {
    /// The line breaks this rule of the grammar.
    Tree(TreeKind),
    /// The row is of a kind that isn't built in.
    NoCustom,
    /// The inline text of the row is outside the grammar.
    Inline,
}

/// Why a tree file isn't taken.
#[derive(Clone, Copy, Debug, PartialEq, Eq)]
pub enum RowsFault {
    /// What is wrong in this line, which counts from 1.
    At { line: u32, kind: RowsRefusal },
    NoMemory,
}

/// Why an application doesn't open.
#[derive(Clone, Copy, Debug, PartialEq, Eq)]
pub enum OpeningFault {
    /// What is wrong in this line of the tree file, which counts from 1.
    Rows {
        line: u32,
        kind: RowsRefusal,
    },
    /// The first fault of the sheet. Line and column count from 1, the column in characters.
    Sheet {
        line: u32,
        column: u32,
        kind: SheetKind,
    },
    NoMemory,
}
