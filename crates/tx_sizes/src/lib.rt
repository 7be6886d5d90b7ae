//! The rows of a tree with their styles, and what each of them measures.
#![tactic(auto)]

mod children;
mod counts;
pub mod laws;
mod measures;
mod rows;

pub use children::{Children, children_of};
pub use counts::counts_below;
pub use measures::measure;
pub use rows::{StyledRow, styled_rows};
pub use tx_layout::LayoutFault;
pub use tx_text::NoMemory;

#[cfg(test)]
mod tests;
