//! What a journal says.

use tx_geom::Axis;
use tx_route::{Input, Why};
use tx_tree::NodeId;
use tx_widgets::Effects;

/// Who puts a message in a mailbox.
#[derive(Clone, Copy, Debug, PartialEq, Eq)]
pub enum Sender {
    /// A sender from outside, by its number, from 0.
    Outside(u32),
    /// The row that posted the message or passed it on.
    Node(NodeId),
}

/// What a journal says of one event, in the order in which it came about. The Missed or the Dropped
/// entries of an input stand directly after its Arrive.
#[derive(Debug, Drop)]
pub enum Entry {
    /// An input arrived. The inputs of each sender are numbered from 1.
    Arrive {
        sender: u32,
        number: u64,
        input: Input,
    },
    /// The input of this sender and number was missed, and changed nothing.
    Missed {
        sender: u32,
        number: u64,
        why: Why,
    },
    /// A message that waited at a row went with it. Messages are numbered from 1, whoever puts them.
    Dropped {
        node: NodeId,
        message: u64,
    },
    /// A row was served a message. The effects are those of its reaction, the first one first. A
    /// message that wasn't stopped went on to the parent of the row, if it has one.
    Serve {
        node: NodeId,
        message: u64,
        effects: Effects,
        stopped: bool,
    },
    /// The screen was refreshed, or was to be.
    Refresh {
        result: Refreshed,
        /// How many bytes the sink took.
        sent: u64,
        /// How many calls of the sink failed: 1 for a SinkFault, and else 0.
        faults: u64,
    },
}

/// How a refresh ended.
#[derive(Clone, Copy, Debug, PartialEq, Eq)]
pub enum Refreshed {
    /// The sink took the whole update.
    Accepted,
    /// The picture is undefined: the arrangement of this row would need a fraction of more than 128
    /// bits. It is the first such row in document order, with the first direction in which that is so.
    /// Nothing was sent.
    Fraction { node: NodeId, axis: Axis },
    /// The sink failed before it took the whole update.
    SinkFault,
    /// There was no memory. Nothing was sent.
    NoMemory,
}
