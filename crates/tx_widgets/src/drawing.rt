//! What the built-in widgets draw, and their measures.

mod boxes;
mod face;
mod field;
mod form;
mod measures;
mod options;
mod pieces;
mod rows;
mod text_rows;

pub use face::Face;
pub(crate) use form::{line_count, state_of};
pub use measures::{tall, wide};
pub(crate) use rows::{box_is_on, chosen_of, cursor_of};
pub use rows::{line, lines};
