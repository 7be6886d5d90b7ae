//! Stylesheets of TCSS (<https://textual.textualize.io/guide/CSS/>) and inline texts, read whole.
//!
//! [`read_sheet`] reads the bytes of a sheet, and [`read_inline`] the declarations of one row's own.
#![tactic(auto)]

mod blocks;
mod declarations;
mod default;
mod fault;
pub mod laws;
mod places;
mod rules;
mod sheet;
mod sheets;
#[cfg(test)]
mod tests;
mod texts;
mod tokens;
mod uses;
mod values;
mod variables;

pub use default::DEFAULT_SHEET;
pub use fault::{SheetFault, SheetKind};
pub use sheet::{Declaration, Declarations, Rule, Rules, Selectors, Sheet};
pub use texts::{read_inline, read_sheet};
