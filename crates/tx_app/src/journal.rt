//! What happened in a run.

use tx_geom::Axis;
use tx_text::Items;
use tx_tree::NodeId;

/// An event of a run.
#[derive(Clone, Copy, Debug, PartialEq, Eq)]
pub enum Entry {
    /// The picture was to be made and its update sent: how it ended, how many bytes were taken, and
    /// how many puts failed.
    Refresh {
        result: Refreshed,
        sent: u64,
        faults: u64,
    },
}

/// The events of a run in their order.
pub type Journal = Items<Entry>;

/// How a refresh ended.
#[derive(Clone, Copy, Debug, PartialEq, Eq)]
pub enum Refreshed {
    /// All of the update was taken.
    Accepted,
    /// The picture is undefined, by this container in this direction. No byte was sent.
    Fraction { node: NodeId, axis: Axis },
    /// A put failed.
    SinkFault,
    /// Memory ran out, before the first byte.
    NoMemory,
}
