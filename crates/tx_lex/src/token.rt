//! What a reader of tokens gives.
ghost use Rattle.std.specs.Prelude.{◌≡◌};

use std::alloc::AllocError;
use tx_text::Items;

/// What a token is. Letters and digits are ASCII.
#[derive(Clone, Copy, Debug, PartialEq, Eq)]
pub enum TokenKind {
    /// A run of blanks, tabs, line feeds and carriage returns.
    Space,
    /// From `/*` to the next `*/`.
    Comment,
    /// A letter or `_`, then letters, digits, `_` and `-`.
    Name,
    /// `#`, then one or more letters, digits, `_` and `-`.
    Hash,
    /// `$`, then a name.
    Variable,
    /// An optional `-`, digits with an optional point and digits after it, or a point and digits,
    /// then an optional unit, which is `%` or letters.
    Number,
    /// One of `:` `;` `,` `.` `>` `*` `{` `}` `(` `)` `!`, which it holds.
    Mark(u8),
}

/// A token and where it stands: the offsets in bytes of its first byte and of the one after it.
#[derive(Clone, Copy, Debug, PartialEq, Eq)]
pub struct Token {
    pub kind: TokenKind,
    pub from: u32,
    pub to: u32,
}

/// Why no token can be read.
#[derive(Clone, Copy, Debug, PartialEq, Eq)]
pub enum LexKind {
    /// A comment has no end. It stands at the comment's first byte.
    Unclosed,
    /// A byte begins no token, or isn't UTF-8. A cut character stands at its first byte.
    BadByte,
    /// A number has more than 9 digits before its point or more than 18 after it, where all
    /// written digits count. It stands at the number's first byte.
    NumberTooLong,
}

/// What is wrong in a token, so many bytes after its first.
#[derive(Clone, Copy, Debug, PartialEq, Eq)]
pub struct Wrong {
    pub kind: LexKind,
    pub offset: usize,
}

/// A fault and its offset in bytes.
#[derive(Clone, Copy, Debug, PartialEq, Eq)]
pub struct Fault {
    pub place: u32,
    pub kind: LexKind,
    /// The comment in which it lies. It begins before the fault, so a reader that allows no comment
    /// there is at fault earlier. None where the fault is at the first byte after the tokens.
    pub comment: Option<Token>,
}

/// Why a text wasn't read.
#[derive(Clone, Copy, Debug, PartialEq, Eq)]
pub enum LexFault {
    /// The first fault.
    Text { place: u32, kind: LexKind },
    NoMemory,
}

impl From<AllocError> for LexFault {
    ghost use Rattle.tx_lex.specs.declared.token.LexFault.TheVariants.{NoMemory};

    ghost from_gives = { λ _ fault. fault ≡ NoMemory };

    fn from(_: AllocError) -> Self {
        LexFault::NoMemory
    }
}

/// Tokens in their order, seen as a list.
pub type TokenList = Items<Token>;

/// What bytes are read as.
#[derive(Debug, Drop)]
pub struct Scanned {
    /// The tokens before the first fault, or all.
    pub tokens: TokenList,
    /// The first fault, where there is one.
    pub fault: Option<Fault>,
}
