//! What every reader of texts needs: pieces between marks, prefixes, fronts and ends, plain numbers
//! and tables of words. The definitions say what a call answers, and what is read by parts.
#![tactic(auto)]

mod number;
mod pieces;
mod slices;
#[cfg(test)]
mod tests;
mod words;

pub use number::{capped_value, digit_count, number_at_most, push_number};
pub use pieces::{split_once, strip_prefix};
pub use slices::{behind, front};
pub use words::entry;
