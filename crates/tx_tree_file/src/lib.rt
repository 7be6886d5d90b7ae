//! The tree file: how a widget tree is written as a text, and read.
//!
//! Other texts have the same words: [`key_of`], [`row_of`], [`quoted`], [`before_brace`],
//! [`split_word`] and [`as_text`] read them.
#![tactic(auto)]

mod bind_parts;
pub mod laws;
mod line;
mod read;
mod row_parts;
mod section;
#[cfg(test)]
mod tests;
mod words;
mod write;
mod written_parts;

pub use bind_parts::key_of;
pub use line::row_of;
pub use read::read_tree;
pub use row_parts::{before_brace, quoted};
pub use words::{as_text, split_word};
pub use write::write_tree;
