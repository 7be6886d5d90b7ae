//! The nodes that the rows of a tree are kept in.

ghost use Rattle.std.specs.Prelude.{◌≡◌, ◌<◌, ◌≤◌, [], ◌∷◌, ◌++◌, take, length, OnOk, OnErr};
ghost use Rattle.tx_tree.specs.ChildLists.{times, ahead_of, without_child, with_before, ahead_in, last_or_zero};

use crate::{NoMemory, Row};
use std::alloc::Global;
use std::marker::Model;

/// A row with its links: the number of its parent, 0 for the Screen, and of its children in order.
#[derive(Drop)]
pub struct Node {
    pub row: Row,
    pub parent: u32,
    pub children: Children,
}

/// The numbers of a row's children.
#[derive(Drop)]
pub struct Children {
    items: Vec<u32>,
}

impl Model for Children {
    ghost use Rattle.std.specs.Prelude.{List, ℕ};

    ghost Value = { List ℕ };

    ghost view = { λ c. c.items.items };
}

impl Children {
    /// No children.
    pub fn new(alloc: Global) -> Children
        ensures { result ≡ [] }
    {
        Children {
            items: Vec::new(alloc),
        }
    }

    /// The numbers.
    pub fn as_slice(&self) -> &[u32]
        ensures { result.now ≡ self.now }
    {
        self.items.as_slice()
    }

    /// The last number, or 0 where there is none.
    pub fn last(&self) -> u32
        ensures { result ≡ last_or_zero self.now }
    {
        self.items.last().copied().unwrap_or(0)
    }

    /// Adds a child after the others.
    pub fn push(&mut self, child: u32) -> Result<(), NoMemory>
        ensures ok { OnOk result (self.new ≡ self.old ++ child ∷ []) }
        ensures err { OnErr result (self.new ≡ self.old) }
    {
        self.items.push(child)?;
        Ok(())
    }

    /// Takes a child away, and answers the child directly ahead of it, or 0.
    pub fn remove(&mut self, child: u32) -> u32
        requires { times child self.old ≡ 1 }
        ensures children { self.new ≡ without_child child self.old }
        ensures ahead { result ≡ ahead_in child self.old }
    {
        let place = only_place_of(&self.items, child);
        let ahead = child_ahead(&self.items, place);
        self.items.remove(place);
        ahead
    }

    /// Moves a child directly before another. The answer is the child that was directly ahead of
    /// it, or 0, and the one directly ahead of the other without it, or 0.
    pub fn move_before(&mut self, child: u32, other: u32) -> (u32, u32)
        requires child { 0 < times child self.old }
        requires other { 0 < times other (without_child child self.old) }
        ensures children { self.new ≡ with_before child other (without_child child self.old) }
        ensures ahead { result.0 ≡ ahead_in child self.old }
        ensures ahead_of_other { result.1 ≡ ahead_in other (without_child child self.old) }
    {
        let place = place_of(&self.items, child);
        let ahead = child_ahead(&self.items, place);
        self.items.remove(place);
        let next_place = place_of(&self.items, other);
        let next_ahead = child_ahead(&self.items, next_place);
        let Ok(()) = self.items.insert(next_place, child) else {
            unreachable!()
        };
        (ahead, next_ahead)
    }
}

// The place of a child in a list that has it once. The last place is looked at first, so that
// nothing is searched where children go from the last one on.
fn only_place_of(children: &[u32], child: u32) -> usize
    requires { times child children.now ≡ 1 }
    ensures place { result ≡ length (ahead_of child children.now) }
    ensures within { result < length children.now }
{
    if let [front @ .., last] = children
        && *last == child
    {
        return front.len();
    }
    place_of(children, child)
}

// The place of a child in a list that has it.
fn place_of(children: &[u32], child: u32) -> usize
    requires { 0 < times child children.now }
    ensures place { result ≡ length (ahead_of child children.now) }
    ensures within { result < length children.now }
{
    for (place, held) in children.iter().enumerate() {
        if *held == child {
            return place;
        }
    }
    unreachable!()
}

// The child directly ahead of a place, or 0.
fn child_ahead(children: &[u32], place: usize) -> u32
    requires { place ≤ length children.now }
    ensures { result ≡ last_or_zero (take place children.now) }
{
    if place == 0 { 0 } else { children[place - 1] }
}
