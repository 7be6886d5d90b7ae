//! What each cell of a screen shows, by the row that owns it.
#![tactic(auto)]

mod backgrounds;
mod cells;
mod drawings;
pub mod laws;
mod laying;
mod picture;

pub use picture::picture_of;
pub use tx_text::NoMemory;

#[cfg(test)]
mod tests;
