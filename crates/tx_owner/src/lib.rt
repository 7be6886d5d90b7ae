//! Which row of a layout map owns each cell of the screen.
#![tactic(auto)]

pub mod laws;
mod line;
mod owners;
mod pane;

pub use owners::Owners;

#[cfg(test)]
mod tests;
