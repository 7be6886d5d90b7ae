//! What a text takes on a screen of cells: cells, strips of cells and grids of strips.
//!
//! A cell shows one grapheme cluster of UAX #29, as `unicode_segmentation` cuts texts into them, in
//! the columns that `unicode_width` gives it. A wide cell takes two columns, and its tail stands in
//! the second one.
#![tactic(auto)]

mod cell;
mod columns;
mod cut;
mod grid;
pub mod laws;
mod lines;
mod pen;
mod plain;
mod strip;
mod wrapping;

pub use cell::Cell;
pub use columns::{align, measure};
pub use grid::Grid;
pub use lines::{Lines, lines_of};
pub use pen::Pen;
pub use plain::{begins_plain, is_plain};
pub use strip::{Cropped, Strip, cells_of, join};
pub use tx_geom::TextStyle;
pub use wrapping::wrap;

#[cfg(test)]
mod tests;
