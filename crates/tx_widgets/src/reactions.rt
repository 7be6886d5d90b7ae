//! What built-in widgets do with messages.

mod answers;
mod built_in;
mod editing;
mod effects;
mod fields;
mod held;
mod kinds;
mod lists;
mod message;

pub use built_in::react;
pub use effects::Effects;
pub use held::{Held, Reaction};
pub use message::{Effect, Message};
