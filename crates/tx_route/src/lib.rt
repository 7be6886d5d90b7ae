//! What comes from outside, and to which rows it goes: inputs, the focus order, and deliveries.
//!
//! [`route`] says what an [`Input`] comes to in a tree of which a frame is shown, and
//! [`focus_after`] which row has the focus after one step along the focus order. [`action_on`] finds
//! the binding that counts. None of them takes memory, and nothing is changed.
#![tactic(auto)]

mod above;
mod bindings;
mod changing;
mod deliveries;
mod enabled;
mod focus;
mod input;
pub mod laws;
mod pointing;
mod pressing;
mod refusals;
mod routing;
#[cfg(test)]
mod tests;

pub use bindings::action_on;
pub use deliveries::{Deliveries, Why};
pub use enabled::is_enabled;
pub use focus::focus_after;
pub use input::{Input, Inputs, Track};
pub use routing::route;
pub use tx_text::NoMemory;
