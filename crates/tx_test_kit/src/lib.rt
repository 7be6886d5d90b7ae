//! What the tests of the crates above those that read texts use: trees, sheets and grids from texts
//! and as texts, and the words and files of a run.
#![tactic(auto)]

mod files;
mod grids;
#[cfg(test)]
mod tests;
mod texts;

pub use files::{files_of, words_of};
pub use grids::{cells_text, grid_of, grid_text};
pub use texts::{lines_of, number_of, pair_of, sheet_of, tree_of, tree_text};
