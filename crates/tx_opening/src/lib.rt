//! The opening of an application: the tree and the sheet with which it begins, and its first focus.
#![tactic(auto)]

mod fault;
mod judging;
pub mod laws;
mod opening;
mod state;
#[cfg(test)]
mod tests;

pub use fault::{OpeningFault, RowsFault, RowsRefusal};
pub use judging::read_rows;
pub use opening::{Opening, read_opening};
pub use state::opening_state;
