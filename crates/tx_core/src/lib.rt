//! The machine: what an application is between two events, and what each event makes of it.
//!
//! Three things happen to an application. An input arrives, a row is served the first message of its
//! mailbox, or the screen is refreshed. What happened stands in a journal of [`Entry`]. The
//! definitions are in `specs`: `State` is what the application has, `Arrive`, `Serve` and `Refresh`
//! say what each event does, `History` when a journal is legal and when it is paced, and `Changes`
//! which parts an event changes. [`laws`] has what holds of all of them.
#![tactic(auto)]

mod entry;
pub mod laws;

pub use entry::{Entry, Refreshed, Sender};
pub use tx_route::Why;
