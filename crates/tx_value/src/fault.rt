//! Why values weren't read.
ghost use Rattle.std.specs.Prelude.{◌≡◌};

use std::alloc::AllocError;

/// Why the values of a declaration weren't read.
#[derive(Clone, Copy, Debug, PartialEq, Eq)]
pub enum ValueFault {
    /// The name stands for no property.
    UnknownProperty,
    /// The name stands for properties, and the tokens aren't values of these.
    BadValue,
    /// Want of memory.
    NoMemory,
}

impl From<AllocError> for ValueFault {
    ghost use Rattle.tx_value.specs.declared.fault.ValueFault.TheVariants.{NoMemory};

    ghost from_gives = { λ _ fault. fault ≡ NoMemory };

    fn from(_: AllocError) -> Self {
        ValueFault::NoMemory
    }
}
