//! Where every row of a tree stands on the screen: its region, what of it can show, its scroll bars
//! and its place before and behind others.
#![tactic(auto)]

mod barring;
mod entry;
mod fault;
pub mod laws;
mod map;
mod places;
mod present;
mod scrolls;
mod walk;

pub use entry::Entry;
pub use fault::ComposeFault;
pub use map::LayoutMap;
pub use present::Present;
pub use scrolls::Scrolls;

#[cfg(test)]
mod tests;
