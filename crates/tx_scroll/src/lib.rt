//! Which scroll bars a container shows, how far it can be scrolled, and what a region shows inside
//! another one.
#![tactic(auto)]

mod barring;
mod clips;
pub mod laws;
mod scrolls;
mod trials;

pub use barring::bars;
pub use clips::clip;
pub use scrolls::clamp_scroll;
pub use trials::Barred;

#[cfg(test)]
mod tests;
