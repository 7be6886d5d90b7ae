//! Why no selector was read.
ghost use Rattle.std.specs.Prelude.{◌≡◌};

use std::alloc::AllocError;

/// Which rule a token breaks.
#[derive(Clone, Copy, Debug, PartialEq, Eq)]
pub enum SelectKind {
    /// The token isn't one that may stand there.
    Expected,
    /// The name after a `:` isn't that of a pseudo-class.
    UnknownPseudo,
}

/// Why a list of tokens wasn't read.
#[derive(Clone, Copy, Debug, PartialEq, Eq)]
pub enum TokenFault {
    /// A rule is broken, and the number of the token at which this is met, counted from 0. Where
    /// the tokens run out too soon this is how many there are, or more.
    At { kind: SelectKind, at: usize },
    /// Want of memory.
    NoMemory,
}

/// Why a text wasn't read.
#[derive(Clone, Copy, Debug, PartialEq, Eq)]
pub enum SelectFault {
    /// The text isn't in the grammar. The place is the offset in bytes of the first token that may
    /// not stand there or of the byte that is part of no token, or the length of the text where it
    /// ends too soon.
    Grammar { place: u32 },
    /// Want of memory.
    NoMemory,
}

impl From<AllocError> for TokenFault {
    ghost use Rattle.tx_select.specs.declared.fault.TokenFault.TheVariants.{NoMemory};

    ghost from_gives = { λ _ fault. fault ≡ NoMemory };

    fn from(_: AllocError) -> Self {
        TokenFault::NoMemory
    }
}

impl From<AllocError> for SelectFault {
    ghost use Rattle.tx_select.specs.declared.fault.SelectFault.TheVariants.{NoMemory};

    ghost from_gives = { λ _ fault. fault ≡ NoMemory };

    fn from(_: AllocError) -> Self {
        SelectFault::NoMemory
    }
}
