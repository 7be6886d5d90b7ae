//! The map.

ghost use Rattle.std.specs.Prelude.{◌≡◌, ◌≤◌, ◌<◌, [], ◌∷◌, ◌++◌, length, replicate, slice_set, Some, None, IsOk, IsSome, IfErr, OnOk, OnErr, OnSome, option_copied};
ghost use Rattle.std.specs.Option.{option_copied_mut};
ghost use Rattle.std.specs.Borrow.{LendsIf, sem};
ghost use Rattle.tx_node_map.specs.contracts.map.NodeMap.{the_row};
ghost use Rattle.tx_node_map.specs.Held.{held, nothing, with_at, HasPlace, KeepsPlaces};

use std::alloc::Global;
use std::marker::Model;
use tx_text::NoMemory;
use tx_tree::NodeId;

/// A map from nodes to values. It has a place for each number from 0 to the greatest one that a
/// place was taken for, so that looking a node up is one step, and its memory goes by that number.
///
/// Contracts see it as these places, each with its value or none: `held` is the function from
/// numbers to options that they are.
#[derive(Drop)]
pub struct NodeMap<V> {
    places: Vec<Option<V>>,
}

impl<V> Model for NodeMap<V> {
    ghost use Rattle.std.specs.Prelude.{List, Option};
    ghost use Rattle.std.specs.Coded.{coded_list, coded_option};

    ghost Value = { List (Option V) };

    ghost coded = { coded_list (coded_option V.code) };

    ghost view = { λ map. map.places.items };
}

impl<V> NodeMap<V> {
    /// A map of no values. It takes no memory.
    pub fn new(alloc: Global) -> NodeMap<V>
        ensures { held result ≡ nothing }
    {
        NodeMap {
            places: Vec::new(alloc),
        }
    }

    /// The value of a node; None exactly where it has none.
    pub fn get(&self, node: NodeId) -> Option<&V>
        ensures { option_copied result ≡ held self.now node.0 }
    {
        match self.places.get(node.0 as usize) {
            Some(place) => place.as_ref(),
            None => None,
        }
    }

    /// The value of a node, to be changed; None exactly where it has none.
    pub fn get_mut(&mut self, node: NodeId) -> Option<&mut V>
        ensures* writes_back { sem 𝓛 (LendsIf (the_row V.row) V.row self.entry result (λ w. slice_set self.old node.0 (Some w)) self.old) }
        ensures value { option_copied_mut result ≡ held self.old node.0 }
        ensures place { OnSome result (HasPlace self.old node.0) }
    {
        match self.places.get_mut(node.0 as usize) {
            Some(place) => place.as_mut(),
            None => None,
        }
    }
}

impl<V: Drop> NodeMap<V> {
    /// Takes a place for a node, so that an `insert` of that node takes no memory, then or later.
    pub fn reserve(&mut self, node: NodeId) -> Result<(), NoMemory>
        ensures same { held self.new ≡ held self.old }
        ensures place { OnOk result (HasPlace self.new node.0) }
        ensures room { HasPlace self.old node.0 → IsOk result }
        ensures kept { KeepsPlaces self.old self.new }
    {
        while self.places.len() <= node.0 as usize {
            self.places.push(None)?;
        }
        Ok(())
    }

    /// Gives a node a value, in the place of the one that it has. Where there is no memory, the value
    /// is handed back. A node that has a value or had one, or for which a place was taken, takes no
    /// memory.
    pub fn insert(&mut self, node: NodeId, value: V) -> Result<(), V>
        ensures ok { OnOk result (held self.new ≡ with_at (held self.old) node.0 (Some value)) }
        ensures err { OnErr result (held self.new ≡ held self.old) }
        ensures back { IfErr result (λ refused. refused ≡ value) }
        ensures room { HasPlace self.old node.0 → IsOk result }
        ensures place { OnOk result (HasPlace self.new node.0) }
        ensures kept { KeepsPlaces self.old self.new }
    {
        match self.reserve(node) {
            Ok(()) => {
                self.put(node, value);
                Ok(())
            }
            Err(_) => Err(value),
        }
    }

    // Gives a node that has a place a value.
    #[tactic(auto, using(crate::proofs::lemmas::Places::held_set))]
    fn put(&mut self, node: NodeId, value: V)
        requires { HasPlace self.old node.0 }
        ensures held { held self.new ≡ with_at (held self.old) node.0 (Some value) }
        ensures kept { length self.new ≡ length self.old }
    {
        self.places[node.0 as usize] = Some(value);
    }

    /// Takes the value of a node away. Its place is kept.
    pub fn remove(&mut self, node: NodeId) -> Option<V>
        ensures value { result ≡ held self.old node.0 }
        ensures rest { held self.new ≡ with_at (held self.old) node.0 None }
        ensures kept { KeepsPlaces self.old self.new }
    {
        match self.places.get_mut(node.0 as usize) {
            Some(place) => place.take(),
            None => None,
        }
    }
}
