//! How far rows are scrolled.

ghost use Rattle.std.specs.Prelude.{◌≡◌, ◌≤◌, ◌<◌, slice_set, Some, None, OnOk, OnErr, OnSome, option_copied};
ghost use Rattle.std.specs.Borrow.{LendsIf, sem};
ghost use Rattle.std.specs.Option.{option_copied_mut};
ghost use Rattle.tx_map.specs.Rows.{pair_row};
ghost use Rattle.tx_map.specs.contracts.scrolls.Scrolls.{the_row};
ghost use Rattle.tx_node_map.specs.Held.{held, nothing, with_at, HasPlace};

use std::alloc::{AllocError, Global};
use std::marker::Model;
use tx_node_map::NodeMap;
use tx_text::NoMemory;
use tx_tree::NodeId;

/// How far rows are scrolled, in columns to the right and in rows down: a map from nodes. Looking a
/// node up is one step, and the memory goes by the greatest number that a pair was given to.
///
/// Contracts see it as the list of its places; `held` is the function from numbers that they are.
#[derive(Drop)]
pub struct Scrolls {
    places: NodeMap<(u32, u32)>,
}

impl Model for Scrolls {
    ghost use Rattle.std.specs.Prelude.{ℕ, List, Option};

    ghost Value = { List (Option (ℕ × ℕ)) };

    ghost view = { λ scrolls. scrolls.places };
}

impl Scrolls {
    /// No row is scrolled. It takes no memory.
    pub fn new(alloc: Global) -> Scrolls
        ensures { held result ≡ nothing }
    {
        Scrolls {
            places: NodeMap::new(alloc),
        }
    }

    /// How far a row is scrolled; None exactly where nothing is said of it. It takes no memory.
    pub fn get(&self, node: NodeId) -> Option<&(u32, u32)>
        ensures { option_copied result ≡ held self.now node.0 }
    {
        self.places.get(node)
    }

    /// How far a row is scrolled, to be changed; None exactly where nothing is said of it. It takes
    /// no memory.
    pub fn get_mut(&mut self, node: NodeId) -> Option<&mut (u32, u32)>
        ensures* writes_back { sem 𝓛 (LendsIf the_row pair_row self.entry result (λ w. slice_set self.old node.0 (Some w)) self.old) }
        ensures value { option_copied_mut result ≡ held self.old node.0 }
        ensures place { OnSome result (HasPlace self.old node.0) }
    {
        self.places.get_mut(node)
    }

    /// Says how far a row is scrolled, in place of what was said. Where there is no memory, nothing
    /// changes.
    pub fn insert(&mut self, node: NodeId, scroll: (u32, u32)) -> Result<(), NoMemory>
        ensures ok { OnOk result (held self.new ≡ with_at (held self.old) node.0 (Some scroll)) }
        ensures err { OnErr result (held self.new ≡ held self.old) }
    {
        match self.places.insert(node, scroll) {
            Ok(()) => Ok(()),
            Err(_) => Err(AllocError),
        }
    }

    /// Takes away what was said of a row. It takes no memory.
    pub fn remove(&mut self, node: NodeId) -> Option<(u32, u32)>
        ensures value { result ≡ held self.old node.0 }
        ensures rest { held self.new ≡ with_at (held self.old) node.0 None }
    {
        self.places.remove(node)
    }
}
