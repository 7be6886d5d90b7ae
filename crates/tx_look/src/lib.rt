//! What styles say, in the terms of layout: the box of a row, the grid of a container, and where the
//! content of a row stands.
#![tactic(auto)]

mod boxes;
mod content;
mod grids;
pub mod laws;
mod layers;

pub use boxes::box_style;
pub use content::content_region;
pub use grids::grid_style;
pub use layers::layer_number;
pub use tx_text::NoMemory;

#[cfg(test)]
mod tests;
