//! What a row shows at each place of its region: its colours over those of its parent, its borders,
//! its padding, the lines of its content, and its scroll bars.
#![tactic(auto)]

mod bars;
mod drawing;
mod edges;
mod glyphs;
pub mod laws;
mod pens;
mod placement;
#[cfg(test)]
mod tests;

pub use drawing::Drawing;
pub use pens::{background_over, ground, pen_over};
pub use placement::Placement;
pub use tx_text::NoMemory;
