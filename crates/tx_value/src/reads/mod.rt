//! What values and styles say, in the types of layout and painting.

pub mod styles;
#[cfg(test)]
mod tests;
pub mod values;
pub mod words;
