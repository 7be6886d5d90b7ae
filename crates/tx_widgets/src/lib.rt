//! The built-in widgets: what each draws in its content, how wide and how tall it wants to be, what
//! it does with a message, and what a frame tells of the rows that it shows.
#![tactic(auto)]

mod drawing;
pub mod laws;
mod reactions;
mod sight;
#[cfg(test)]
mod tests;

pub use drawing::{Face, line, lines, tall, wide};
pub use reactions::{Effect, Effects, Held, Message, Reaction, react};
pub use sight::Sight;
pub use tx_text::NoMemory;
