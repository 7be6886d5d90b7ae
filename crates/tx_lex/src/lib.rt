//! The tokens of TCSS, the stylesheets of Textual (<https://textual.textualize.io/guide/CSS/>).
//!
//! [`tokens`] reads a text. [`scan`] reads bytes that may be no text, and gives the tokens before
//! the first fault too, for readers whose own fault may come earlier.
#![tactic(auto)]

mod bytes;
pub mod laws;
mod lexemes;
mod lexer;
mod number;
#[cfg(test)]
mod tests;
mod token;

pub use lexemes::{past_blanks, token_at, token_bytes};
pub use lexer::{scan, tokens};
pub use number::{MOST_DECIMALS, MOST_WHOLE};
pub use token::{Fault, LexFault, LexKind, Scanned, Token, TokenKind, TokenList};
