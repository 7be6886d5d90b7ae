//! Exact decimals for layout: fractions of 128-bit whole numbers, and sizes with a unit.
//!
//! An operation gives the exact fraction or nothing: no result is ever rounded. It gives nothing
//! exactly where one of the whole numbers that its entry names lies outside -M to M, where M is
//! 2^127 - 1. No call takes memory.
#![tactic(auto)]

mod divisors;
mod fractions;
pub mod laws;
mod scalars;

pub use fractions::Frac;
pub use scalars::{Scalar, Unit};

#[cfg(test)]
mod tests;
