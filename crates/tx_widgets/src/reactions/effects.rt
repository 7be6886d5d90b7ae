//! The effects of a reaction.

ghost use Rattle.std.specs.Prelude.{◌≡◌, ◌<◌, ◌≤◌, [], ◌∷◌, ◌++◌, length, take, IfOk, OnOk, OnErr};

use crate::Effect;
use std::alloc::Global;
use std::marker::Model;
use tx_text::NoMemory;

/// A list of at most 16 effects, in the order in which they are applied.
#[derive(Debug, Drop)]
pub struct Effects {
    items: Vec<Effect>,
}

impl Model for Effects {
    ghost use Rattle.std.specs.Prelude.{List, ◌≤◌, length};
    ghost use Rattle.std.specs.Coded.{coded_list};
    ghost use Rattle.tx_widgets.specs.declared.reactions.message.Effect.{Effect};

    ghost Value = { List Effect };

    ghost view = { λ effects. effects.items.items };

    ghost invariant = { λ effects. length effects.items.items ≤ 16 };
}

impl Effects {
    /// No effects. It takes no memory.
    pub fn new(alloc: Global) -> Effects
        ensures effects { result ≡ [] }
    {
        Effects {
            items: Vec::new(alloc),
        }
    }

    /// Adds an effect at the end. There are fewer than 16 before. NoMemory is the only error, and the
    /// list is then as it was.
    pub fn push(&mut self, effect: Effect) -> Result<(), NoMemory>
        requires room { length self.old < 16 }
        ensures pushed { OnOk result (self.new ≡ self.old ++ effect ∷ []) }
        ensures refused { OnErr result (self.new ≡ self.old) }
    {
        self.items.push(effect)?;
        Ok(())
    }

    /// How many effects there are, from 0 to 16. It takes no memory.
    pub fn len(&self) -> u32
        ensures len { result ≡ length self.now }
        ensures few { result ≤ 16 }
    {
        self.items.len() as u32
    }

    /// Keeps the first `len` effects. There are at least as many. It takes no memory.
    pub fn cut(&mut self, len: u32)
        requires within { len ≤ length self.old }
        ensures cut { self.new ≡ take len self.old }
    {
        self.items.truncate(len as usize);
    }

    /// The effects, the first one first. It takes no memory.
    pub fn as_slice(&self) -> &[Effect]
        ensures effects { result.now ≡ self.now }
        ensures few { length self.now ≤ 16 }
    {
        self.items.as_slice()
    }

    /// A second list that equals this one. NoMemory is the only error.
    pub fn copy(&self) -> Result<Effects, NoMemory>
        ensures copy { IfOk result (λ copy. copy ≡ self.now) }
    {
        Effects::of(*self.items.allocator(), self.as_slice())
    }

    // The list of these effects, of which there are at most 16.
    pub(crate) fn of(alloc: Global, effects: &[Effect]) -> Result<Effects, NoMemory>
        requires few { length effects.now ≤ 16 }
        ensures effects { IfOk result (λ list. list ≡ effects.now) }
    {
        let items = Vec::from_slice(alloc, effects)?;
        Ok(Effects { items })
    }
}
