//! What may change between two styles of a row.

use tx_text::Name;
use tx_tree::NodeId;

/// A part of a scene that changed: of the tree, of what pseudo-classes are judged by, or of what is
/// shown. It names what changed and not what it is now.
#[derive(Clone, Copy, Debug)]
pub enum Edit {
    /// A class of a row came or went.
    Class {
        node: NodeId,
        name: Name,
    },
    /// A row was mounted below its parent.
    Mounted {
        node: NodeId,
        parent: NodeId,
    },
    /// A row was removed from below its parent, with the rows below it.
    Removed {
        node: NodeId,
        parent: NodeId,
    },
    /// A row has another place among the children of its parent.
    Moved {
        node: NodeId,
        parent: NodeId,
    },
    /// A row's text was set, which also moves its cursor to the end and chooses its first line.
    Text(NodeId),
    /// A row has another inline text.
    Inline(NodeId),
    /// A row was disabled or enabled.
    Disabled(NodeId),
    /// A row has another text or private state by its own reaction.
    State(NodeId),
    /// A row is scrolled to another place. No style depends on it.
    Scrolled(NodeId),
    /// The focus left the one row, if one had it, and came to the other, if one has it.
    Focus {
        from: Option<NodeId>,
        to: Option<NodeId>,
    },
    /// The pointer left the one row and came to the other, as far as there are such rows.
    Pointed {
        from: Option<NodeId>,
        to: Option<NodeId>,
    },
    /// The theme became dark or light.
    Dark,
    /// The screen has another size. No style depends on it.
    Resized,
}
