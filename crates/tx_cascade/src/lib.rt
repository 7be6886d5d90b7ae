//! The cascade of TCSS, the stylesheets of Textual (<https://textual.textualize.io/guide/CSS/>):
//! which of the declarations that reach a row counts, and what the row has of its parent.
//!
//! [`style_of`] works out the style of one row, and [`Styles`] keeps those of all rows of a tree.
#![tactic(auto)]

mod below;
mod edit;
mod key;
pub mod laws;
mod path;
mod reaching;
mod sameness;
mod sharing;
mod styles;
#[cfg(test)]
mod tests;
mod winning;

pub use edit::Edit;
pub use path::style_of;
pub use styles::Styles;
