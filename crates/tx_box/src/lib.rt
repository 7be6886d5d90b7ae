//! The size of one box, and the layout of a row or a column of boxes in one direction.
//!
//! All sizes are exact fractions; only the spans that come out are whole cells.
#![tactic(auto)]

mod axes;
mod items;
pub mod laws;
mod parts;
mod rounds;
mod sizes;

pub use axes::resolve_axis;
pub use items::{Basis, Item, LayoutFault, Span};
pub use sizes::box_of;

#[cfg(test)]
mod tests;
