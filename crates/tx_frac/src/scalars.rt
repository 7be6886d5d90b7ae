//! Sizes as a stylesheet writes them.

use crate::fractions::Frac;

/// What a number in a size counts.
#[derive(Clone, Copy, Debug, PartialEq, Eq, Hash)]
pub enum Unit {
    /// Cells of the screen.
    Cells,
    /// Hundredths of the base in the same direction.
    Percent,
    /// Hundredths of the base's width.
    W,
    /// Hundredths of the base's height.
    H,
    /// Hundredths of the screen's width.
    Vw,
    /// Hundredths of the screen's height.
    Vh,
    /// Shares of the room that is left.
    Fr,
    /// As much as the content needs; the number isn't used.
    Auto,
}

/// A number with its unit.
#[derive(Clone, Copy, Debug, PartialEq, Eq, Hash)]
pub struct Scalar {
    pub value: Frac,
    pub unit: Unit,
}
