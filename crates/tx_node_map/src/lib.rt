//! A map by node.
#![tactic(auto)]

mod map;
#[cfg(test)]
mod tests;

pub use map::NodeMap;
