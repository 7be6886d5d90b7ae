//! The screen of an application: the picture of a tree under a sheet, and which row owns each of its
//! cells.
#![tactic(auto)]

mod composing;
mod frame;
pub mod laws;
mod screen;
mod seen;
mod sight;

pub use screen::Screen;
pub use tx_map::{ComposeFault, Present, Scrolls};

#[cfg(test)]
mod tests;
