//! Where the children of one container stand, and the sizes that a container asks for itself.
//!
//! All calls take a closure that measures the content of one child. It may measure a child that is
//! a container by the calls of this crate.
#![tactic(auto)]

mod arranging;
mod children;
mod flows;
mod grids;
pub mod laws;
mod layers;
mod measures;
mod sides;
mod styles;
mod tracks;

pub use arranging::arrange;
pub use measures::{tall_of, wide_of};
pub use styles::{Arrangement, Ask, BoxStyle, GridStyle};
pub use tx_box::LayoutFault;

#[cfg(test)]
mod tests;
