//! What a reaction is made from, and what it is.

use crate::Effects;
use tx_tree::{Action, Kind, Private, Text};

/// What a reaction is made from: what a row holds when a message is handed to it.
#[derive(Debug, Drop)]
pub struct Held {
    /// The row's kind, which isn't one that is handed in.
    pub kind: Kind,
    /// Whether the row or one of its ancestors is disabled.
    pub disabled: bool,
    /// The action of the row's first binding on the message's key that has no priority. It counts
    /// for a key alone.
    pub action: Option<Action>,
    /// The row's text, of fewer than 2^32 bytes.
    pub text: Text,
    /// The row's private state. One that isn't of the kind's form or doesn't suit the text counts as the
    /// fresh one.
    pub private: Private,
}

/// What a row does with a message.
#[derive(Debug, Drop)]
pub struct Reaction {
    /// The text that the row has then. Only that of an Input changes, to at most 65,536 bytes where it
    /// grows.
    pub text: Text,
    /// The private state that the row has then, of its kind's form, which suits the text.
    pub private: Private,
    /// What is done outside the row, in this order: at most two effects of a built-in kind.
    pub effects: Effects,
    /// Whether the message stops there. One that isn't stopped goes on to the parent.
    pub stopped: bool,
}
