//! The widget tree: rows of named kinds with ids, classes, texts and key bindings, and every edit
//! of them.
//!
//! A tree is seen as the list of its rows in preorder, each with its depth.
#![tactic(auto)]

mod bind;
mod classes;
mod fault;
mod kind;
pub mod laws;
mod row;
mod spelled;
#[cfg(test)]
mod tests;
mod tree;

pub use bind::{Action, Bind, Binds, Jump, Key};
pub use classes::Classes;
pub use fault::{TreeFault, TreeKind};
pub use kind::{Kind, Private};
pub use row::{NewRow, NodeId, Row};
pub use spelled::begins_capital;
pub use tree::{Ancestors, Tree, Walk};
pub use tx_text::{Name, Names, NoMemory, Text};
