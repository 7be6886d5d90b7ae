//! Places, sizes and regions on a screen of cells, colours, the marks of a text, and the plain choices of a style.
//!
//! All types are small values that are copied. Nothing here takes memory.
#![tactic(auto)]

mod choices;
mod colours;
mod places;
mod styles;

pub use choices::{AlignX, AlignY, Axis, BorderKind, BoxSizing, Edge, LayoutKind, Overflow};
pub use colours::{Colour, Rgb, blend};
pub use places::{Offset, Region, Size, Spacing};
pub use styles::TextStyle;

#[cfg(test)]
mod tests;
