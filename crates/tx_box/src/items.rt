//! What is laid out, and what comes of it.

ghost use Rattle.std.specs.Prelude.{◌≡◌};
ghost use Rattle.tx_box.specs.declared.items.LayoutFault.TheVariants.{NoMemory};

use std::alloc::{AllocError, AllocFailed};
use tx_frac::Scalar;
use tx_geom::{Axis, BoxSizing, Size};

/// The sizes of one box in one direction, as its style gives them.
#[derive(Clone, Copy, Debug, PartialEq, Eq, Hash)]
pub struct Item {
    /// The width or the height. A share in `fr` is taken of the room that is left.
    pub size: Scalar,
    /// The least size, in any unit but `fr` and `auto`.
    pub least: Option<Scalar>,
    /// The greatest size, in any unit but `fr` and `auto`. The least size goes before it.
    pub most: Option<Scalar>,
    /// The cells of padding and border.
    pub gutter: u32,
    /// Whether padding and border come on top of the size.
    pub sizing: BoxSizing,
    /// The cells of margin. The base and the gaps have it in them already, so it isn't used here.
    pub margin: u32,
    /// The size of the content, for `auto`.
    pub auto: u32,
}

/// What sizes are taken of.
#[derive(Clone, Copy, Debug, PartialEq, Eq, Hash)]
pub struct Basis {
    /// The area in which the boxes are laid out.
    pub area: Size,
    /// The whole screen.
    pub screen: Size,
}

/// The cells that a box occupies: from `from` up to, but not including, `to`.
#[derive(Clone, Copy, Debug, PartialEq, Eq, Hash)]
pub struct Span {
    pub from: i64,
    pub to: i64,
}

/// Why there is no layout.
#[derive(Clone, Copy, Debug, PartialEq, Eq, Hash)]
pub enum LayoutFault {
    /// A fraction in this direction would need more than 128 bits.
    Fraction { axis: Axis },
    /// There was no memory.
    NoMemory,
}

impl<T: Drop> From<AllocFailed<T>> for LayoutFault {
    ghost from_gives = { λ _ e. e ≡ NoMemory };

    fn from(_failed: AllocFailed<T>) -> LayoutFault {
        LayoutFault::NoMemory
    }
}

impl From<AllocError> for LayoutFault {
    ghost from_gives = { λ _ e. e ≡ NoMemory };

    fn from(_failed: AllocError) -> LayoutFault {
        LayoutFault::NoMemory
    }
}
