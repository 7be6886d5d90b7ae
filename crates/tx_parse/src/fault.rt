//! Why no sheet was read.
ghost use Rattle.std.specs.Prelude.{◌≡◌, None};
ghost use Rattle.tx_parse.specs.declared.fault.SheetFault.TheVariants.{NoMemory as no_memory};
ghost use Rattle.tx_parse.specs.declared.fault.SheetKind.TheVariants.{Expected};
ghost use Rattle.tx_parse.specs.declared.fault.Stop.TheVariants.{At, NoMemory as stop_for_memory};

use std::alloc::AllocError;
use thiserror::Error;

/// Which rule the first fault breaks.
#[derive(Clone, Copy, Debug, PartialEq, Eq, Error)]
pub enum SheetKind {
    /// A comment has no end. It stands at the comment.
    #[error("a comment has no end")]
    Unclosed,
    /// A byte that begins no token, or that isn't UTF-8.
    #[error("not a token")]
    BadByte,
    /// A number has more than 9 whole digits or more than 18 decimals.
    #[error("a number has too many digits")]
    NumberTooLong,
    /// The token isn't one that may stand there, or the text ends too soon. It also is the 17th
    /// compound of a selector, the 65th selector of a rule, and a name that has more than 64 bytes.
    #[error("something else was expected")]
    Expected,
    /// Nothing above defines the variable, or its name has more than 64 bytes.
    #[error("the variable isn't defined")]
    UndefinedVariable,
    /// With this token there are more than 64 values.
    #[error("too many values")]
    ValueTooLong,
    /// No property has this name.
    #[error("no such property")]
    UnknownProperty,
    /// No pseudo-class has this name.
    #[error("no such pseudo-class")]
    UnknownPseudo,
    /// The property doesn't have these values. It stands at the first of them.
    #[error("not a value of the property")]
    BadValue,
    /// The rule is the 10,001st.
    #[error("too many rules")]
    TooManyRules,
}

/// Why a sheet or an inline text is refused.
#[derive(Clone, Copy, Debug, PartialEq, Eq, Error)]
pub enum SheetFault {
    /// The first fault. Line and column count from 1, the column in characters; each saturates
    /// at 4,294,967,295.
    #[error("line {line}, column {column}: {kind}")]
    Text {
        line: u32,
        column: u32,
        kind: SheetKind,
    },
    /// Want of memory.
    #[error("no memory")]
    NoMemory,
}

impl From<AllocError> for SheetFault {
    ghost from_gives = { λ _ fault. fault ≡ no_memory };

    fn from(_: AllocError) -> SheetFault {
        SheetFault::NoMemory
    }
}

/// What is wrong, and the offset of the byte that is reported, where this isn't the first of the token
/// at which it is met.
#[derive(Clone, Copy, Debug)]
pub struct Wrong {
    pub kind: SheetKind,
    pub place: Option<u32>,
}

/// Why a reader stops.
#[derive(Clone, Copy, Debug)]
pub enum Stop {
    /// A fault that is met at the token of this number.
    At { wrong: Wrong, at: usize },
    /// Want of memory.
    NoMemory,
}

impl From<AllocError> for Stop {
    ghost from_gives = { λ _ stop. stop ≡ stop_for_memory };

    fn from(_: AllocError) -> Stop {
        Stop::NoMemory
    }
}

/// A fault that is reported of the token at which it is met.
pub fn met(kind: SheetKind, at: usize) -> Stop
    ensures { result ≡ At (record { kind = kind; place = None }) at }
{
    Stop::At {
        wrong: Wrong { kind, place: None },
        at,
    }
}

/// A token that the grammar doesn't allow.
pub fn expected(at: usize) -> Stop
    ensures { result ≡ At (record { kind = Expected; place = None }) at }
{
    met(SheetKind::Expected, at)
}
