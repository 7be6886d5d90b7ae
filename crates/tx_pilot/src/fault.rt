//! Why no input was read.

ghost use Rattle.std.specs.Prelude.{◌≡◌};

use std::alloc::AllocError;

/// Which rule a line breaks.
#[derive(Clone, Copy, Debug, PartialEq, Eq)]
pub enum LineKind {
    /// 100,000 lines stand before it.
    TooMany,
    /// It has more than 65,536 bytes, or the script has more than 64 MiB up to its end.
    TooLong,
    /// It isn't UTF-8.
    BadByte,
    /// Its words are others than a line may have.
    Expected,
    /// A word that stands in the place of a key is none.
    BadKey,
    /// A word that stands in the place of a number isn't plain digits, or the number is out of its
    /// range.
    BadNumber,
    /// A text in quotes that stands in the place of a selector is none.
    BadSelector,
    /// The text in braces isn't a list of declarations, and all else is as it may be.
    BadInline,
}

/// Why a line wasn't read.
#[derive(Clone, Copy, Debug, PartialEq, Eq)]
pub enum LineFault {
    /// The first rule that the line breaks, its words judged from the left.
    Line(LineKind),
    /// Out of memory.
    NoMemory,
}

/// Why a script wasn't read.
#[derive(Clone, Copy, Debug, PartialEq, Eq)]
pub enum ScriptFault {
    /// The first line that breaks a rule, counted from 1, and the first rule that it breaks.
    Line { line: u32, kind: LineKind },
    /// Out of memory.
    NoMemory,
}

impl From<AllocError> for LineFault {
    ghost use Rattle.tx_pilot.specs.declared.fault.LineFault.TheVariants.{NoMemory};

    ghost from_gives = { λ _ fault. fault ≡ NoMemory };

    fn from(_: AllocError) -> Self {
        LineFault::NoMemory
    }
}

impl From<AllocError> for ScriptFault {
    ghost use Rattle.tx_pilot.specs.declared.fault.ScriptFault.TheVariants.{NoMemory};

    ghost from_gives = { λ _ fault. fault ≡ NoMemory };

    fn from(_: AllocError) -> Self {
        ScriptFault::NoMemory
    }
}
