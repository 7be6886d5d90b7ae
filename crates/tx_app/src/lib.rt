//! What the program does: from words, files and sinks to an outcome.
#![tactic(auto)]

mod causes;
mod command_line;
mod error_line;
mod journal;
pub mod laws;
mod listing;
mod loads;
mod openings;
mod outcome;
mod plans;
mod refreshing;
mod report;
mod run;
#[cfg(test)]
mod tests;
mod trees;
mod words;

pub use causes::{Cause, Refusal};
pub use journal::{Entry, Journal, Refreshed};
pub use outcome::Outcome;
pub use run::top_alone;
