//! What an input comes to.

ghost use Rattle.std.specs.Prelude.{◌≡◌};
ghost use Rattle.tx_route.specs.Deliveries.{nothing, missed_by};

use tx_tree::{Action, NodeId};
use tx_widgets::Message;

/// Why an input is missed.
#[derive(Clone, Copy, Debug, PartialEq, Eq)]
pub enum Why {
    /// No row matches, or the row that owns the cell is gone.
    NoTarget,
    /// There is no frame, or the place is outside it.
    OffScreen,
    /// The frame has no cell of the row.
    NotShown,
    /// Another row of the tree has the new row's id.
    DuplicateId,
    /// 65,536 nodes were made, which is as many as a tree ever makes.
    TooMany,
    /// The new row would be 64 deep, and the deepest row of a tree is 63 deep.
    TooDeep,
    /// The Screen can't be removed.
    Root,
    /// The row that is meant is of a kind that has no children, or the new row is a Screen.
    Leaf,
    /// The two rows aren't two children of one row, or they are one row.
    NotSiblings,
    /// No object was handed in under the name of the new row's kind. [`crate::route`] never tells it.
    NoCustom,
    /// A row has or had the object that was handed in under that name. [`crate::route`] never tells it.
    CustomTaken,
}

/// What an input comes to. Where it is missed, all other fields are None.
#[derive(Clone, Copy, Debug, PartialEq, Eq)]
pub struct Deliveries {
    /// Why the input is missed, where it is.
    pub missed: Option<Why>,
    /// The row that is now pointed at. None is for no change.
    pub pointed: Option<NodeId>,
    /// A row, and an action that is applied with it as the node.
    pub action: Option<(NodeId, Action)>,
    /// A row, and a message for its mailbox: a key, a click, or work that is done.
    pub put: Option<(NodeId, Message)>,
    /// The first row that the input's selector matches.
    pub target: Option<NodeId>,
    /// The first row that its second selector matches.
    pub other: Option<NodeId>,
}

impl Deliveries {
    /// Nothing is delivered.
    pub(crate) fn nothing() -> Deliveries
        ensures { result ≡ nothing }
    {
        Deliveries {
            missed: None,
            pointed: None,
            action: None,
            put: None,
            target: None,
            other: None,
        }
    }

    /// The input is missed.
    pub(crate) fn missed_by(why: Why) -> Deliveries
        ensures { result ≡ missed_by why }
    {
        Deliveries {
            missed: Some(why),
            ..Deliveries::nothing()
        }
    }
}
