//! Names, texts and lists as values, and what is answered where there is no memory.
#![tactic(auto)]

mod items;
mod memory;
mod name;
#[cfg(test)]
mod tests;
mod text;

pub use items::Items;
pub use memory::NoMemory;
pub use name::{Name, Names, begins_name, continues_name};
pub use text::Text;
