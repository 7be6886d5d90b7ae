//! The classes of a row that stands in a tree.

ghost use Rattle.std.specs.Prelude.{◌≡◌, ◌≤◌, ◌+◌, [], ◌∷◌, ◌++◌, not, IfOk, OnOk, OnErr};
ghost use Rattle.tx_tree.specs.Classes.{without, has_name, with_name};

use crate::{Name, Names, NoMemory};
use std::marker::Model;

/// The classes of a row: a list of names, with room for some more.
///
/// The names are what the list is. The room, `spare`, only says how many names more it can hold
/// without memory.
#[derive(Debug, Drop)]
pub struct Classes {
    items: Vec<Name>,
}

impl Model for Classes {
    ghost use Rattle.std.specs.Prelude.{◌-◌, vec_len, vec_capacity};
    ghost use Rattle.tx_tree.specs.Classes.{ClassList};

    ghost Value = { ClassList };

    ghost view = { λ c. record { names = c.items.items; spare = vec_capacity c.items - vec_len c.items } };
}

impl Classes {
    /// The classes of these names. It takes no memory.
    pub fn of(names: Names) -> Classes
        ensures { result.names ≡ names }
    {
        Classes {
            items: names.into_vec(),
        }
    }

    /// The names.
    pub fn as_slice(&self) -> &[Name]
        ensures { result.now ≡ self.now.names }
    {
        self.items.as_slice()
    }

    /// A second list of the same names.
    pub fn copy(&self) -> Result<Classes, NoMemory>
        ensures { IfOk result (λ c. c.names ≡ self.now.names) }
    {
        let items = self.items.clone()?;
        Ok(Classes { items })
    }

    // Adds a name at the end where it is absent, and answers whether it was.
    pub(crate) fn add(&mut self, name: Name) -> Result<bool, NoMemory>
        ensures names { OnOk result (self.new.names ≡ with_name name self.old.names) }
        ensures added { IfOk result (λ added. added ≡ not (has_name name self.old.names)) }
        ensures err { OnErr result (self.new.names ≡ self.old.names) }
        ensures lower { self.old.spare ≤ self.new.spare + 1 }
        ensures full { OnErr result (self.old.spare ≡ 0) }
    {
        if has_name(&self.items, &name) {
            return Ok(false);
        }
        self.items.push(name)?;
        Ok(true)
    }

    // Makes room for at least this many names more.
    pub(crate) fn reserve(&mut self, more: u32) -> Result<(), NoMemory>
        ensures names { self.new.names ≡ self.old.names }
        ensures kept { self.old.spare ≤ self.new.spare }
        ensures ok { OnOk result (more ≤ self.new.spare) }
    {
        self.items.reserve(more as usize)
    }

    // Takes every place of a name away, and answers whether there was one.
    pub(crate) fn remove(&mut self, name: &Name) -> bool
        ensures names { self.new.names ≡ without name.now self.old.names }
        ensures removed { result ≡ has_name name.now self.old.names }
        ensures kept { self.old.spare ≤ self.new.spare }
    {
        let removed = has_name(&self.items, name);
        let gone = *name;
        self.items.retain(|held| *held != gone);
        removed
    }
}

/// Whether a name stands in a list.
pub fn has_name(names: &[Name], name: &Name) -> bool
    ensures { result ≡ has_name name.now names.now }
{
    names.iter().any(|held| *name == *held)
}
