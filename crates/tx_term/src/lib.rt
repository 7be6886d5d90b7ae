//! The bytes that a terminal is sent.
//!
//! [`present`] sends the update that leads a screen from one grid to the next, and
//! [`closing_bytes`] is what gives the terminal back. [`Terminal`] is a terminal of a stated kind, which reads such
//! bytes and shows cells. The sequences are those of ECMA-48 with the private modes 25 and 1049,
//! and with colours as `38;2;r;g;b` and `48;2;r;g;b`.
#![tactic(auto)]

pub mod laws;
mod machine;
#[cfg(test)]
mod tests;
mod update;

pub use machine::Terminal;
pub use update::{closing_bytes, present};
