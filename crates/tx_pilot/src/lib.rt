//! Scripts: the text in which people write what happens to a screen, one input in each line.
//!
//! [`read_line`] reads one line, and [`read_script`] a whole script.
#![tactic(auto)]

mod ends;
mod fault;
mod inputs;
pub mod laws;
mod line;
mod script;
#[cfg(test)]
mod tests;
mod verb;
mod words;

pub use fault::{LineFault, LineKind, ScriptFault};
pub use line::read_line;
pub use script::read_script;
