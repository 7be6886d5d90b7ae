//! Where the children of one layer of a grid stand.
//!
//! Each child takes the first place in row order, from the first row, at which its whole span is
//! inside the grid and free of the children before it, as CSS Grid places items with `dense`.
#![tactic(auto)]

mod known;
pub mod laws;
mod places;
mod placing;
mod search;
mod taken;

pub use places::{Cells, Spans, rows_used};
pub use placing::stand;

#[cfg(test)]
mod tests;
