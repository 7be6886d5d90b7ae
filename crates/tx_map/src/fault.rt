//! Why a map can't be made.

use tx_geom::Axis;
use tx_tree::NodeId;

/// Why the rows of a tree can't be laid out.
#[derive(Clone, Copy, Debug, PartialEq, Eq)]
pub enum ComposeFault {
    /// The arrangement of this row's children would need a fraction of more than 128 bits, in this
    /// direction.
    Fraction { node: NodeId, axis: Axis },
    /// There is no memory.
    NoMemory,
}
