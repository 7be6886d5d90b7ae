//! Rows of a tree.

ghost use Rattle.std.specs.Prelude.{◌≡◌, IfOk};

use crate::{Binds, Classes, Kind, Name, Names, NoMemory, Private, Text};
use std::alloc::Global;

/// The number of a node. Nodes are numbered from 1 in the order in which they are made, and no
/// number is used twice.
#[derive(Clone, Copy, Debug, PartialEq, Eq, PartialOrd, Ord, Hash)]
pub struct NodeId(pub u32);

/// A row of a tree.
#[derive(Debug, Drop)]
pub struct Row {
    pub node: NodeId,
    /// How many rows it stands below: 0 for the Screen, up to 63.
    pub depth: u32,
    pub kind: Kind,
    /// The id, which no other row of the tree has.
    pub id: Option<Name>,
    pub classes: Classes,
    pub disabled: bool,
    pub text: Text,
    /// The declarations of the row's own.
    pub inline: Text,
    pub binds: Binds,
    pub private: Private,
}

/// A row that isn't in a tree yet.
#[derive(Debug, Drop)]
pub struct NewRow {
    pub kind: Kind,
    pub id: Option<Name>,
    pub classes: Names,
    pub disabled: bool,
    pub text: Text,
    pub inline: Text,
    pub binds: Binds,
    pub private: Private,
}

impl Row {
    ghost use Rattle.tx_tree.specs.Row.{plain};

    /// A second row that equals this one.
    pub fn copy(&self) -> Result<Row, NoMemory>
        ensures { IfOk result (λ row. plain row ≡ plain self.now) }
    {
        Ok(Row {
            node: self.node,
            depth: self.depth,
            kind: self.kind,
            id: self.id,
            classes: self.classes.copy()?,
            disabled: self.disabled,
            text: self.text.copy()?,
            inline: self.inline.copy()?,
            binds: self.binds.copy()?,
            private: self.private,
        })
    }
}

impl NewRow {
    ghost use Rattle.tx_tree.specs.Row.{plain, placed, bare};

    /// A row of a kind with nothing else, and with the state that the kind begins with. It takes no
    /// memory.
    pub fn of(alloc: Global, kind: Kind) -> NewRow
        ensures { result ≡ bare kind }
    {
        let mut row = NewRow {
            kind,
            id: None,
            classes: Names::of(Vec::new(alloc)),
            disabled: false,
            text: Text::empty(alloc),
            inline: Text::empty(alloc),
            binds: Binds::of(Vec::new(alloc)),
            private: Private::Plain,
        };
        row.private = Private::fresh(row.kind, 0);
        row
    }

    /// A second row that equals this one.
    pub fn copy(&self) -> Result<NewRow, NoMemory>
        ensures { IfOk result (λ row. row ≡ self.now) }
    {
        Ok(NewRow {
            kind: self.kind,
            id: self.id,
            classes: self.classes.copy()?,
            disabled: self.disabled,
            text: self.text.copy()?,
            inline: self.inline.copy()?,
            binds: self.binds.copy()?,
            private: self.private,
        })
    }

    // The row at its place in a tree.
    pub(crate) fn placed(self, node: NodeId, depth: u32) -> Row
        ensures { plain result ≡ placed self node.0 depth }
    {
        Row {
            node,
            depth,
            kind: self.kind,
            id: self.id,
            classes: Classes::of(self.classes),
            disabled: self.disabled,
            text: self.text,
            inline: self.inline,
            binds: self.binds,
            private: self.private,
        }
    }
}
