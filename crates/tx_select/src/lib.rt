//! Selectors of TCSS, the stylesheets of Textual (<https://textual.textualize.io/guide/CSS/>).
//!
//! [`read_selector`] reads a text, and [`selector_at`] a selector that stands among other tokens.
//! [`matches`] says whether a selector matches a row of a tree, and [`query`] and [`query_one`] find
//! the rows that it matches.
#![tactic(auto)]

mod climb;
mod fault;
mod holds;
pub mod laws;
mod lexemes;
#[cfg(test)]
mod match_tests;
mod matching;
mod reader;
mod specific;
#[cfg(test)]
mod tests;
mod texts;
mod value;

pub use fault::{SelectFault, SelectKind, TokenFault};
pub use lexemes::begins_compound;
pub use matching::{matches, query, query_one};
pub use specific::specificity;
pub use texts::{read_selector, selector_at};
pub use value::{Compound, Compounds, Part, Parts, Pseudo, PseudoName, Selector};
