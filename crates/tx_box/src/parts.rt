//! The parts of an axis while their sizes are worked out.

use tx_frac::Frac;

/// The least and the greatest size of a box, in cells.
#[derive(Clone, Copy)]
pub struct Limits {
    pub least: Option<Frac>,
    pub most: Option<Frac>,
}

/// One item's part of an axis.
#[derive(Clone, Copy)]
pub enum Part {
    /// It has a size.
    Settled(Frac),
    /// It takes a share of what is left.
    Growing { share: Frac, limits: Limits },
}
