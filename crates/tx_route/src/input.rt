//! Inputs from outside.

ghost use Rattle.std.specs.Prelude.{◌≡◌, IfOk};

use tx_geom::Size;
use tx_select::Selector;
use tx_text::{Items, Name, NoMemory, Text};
use tx_tree::{Key, NewRow};

/// What comes from outside: a key, a place or a row that is pointed at, or a change.
///
/// A selector in it means the first row in document order that it matches. A place is the column `x`
/// and the row `y` of a cell, counted from 0 at the upper left corner of the screen.
#[derive(Debug, Drop)]
pub enum Input {
    /// A key is pressed.
    Press(Key),
    /// The cell at a place is clicked.
    ClickAt { x: u32, y: u32 },
    /// A row is clicked, at its spot in the frame.
    Click(Selector),
    /// The pointer moves to a place.
    HoverAt { x: u32, y: u32 },
    /// The pointer moves to a row's spot in the frame.
    Hover(Selector),
    /// Nothing changes.
    Pause,
    /// The screen has another size, in cells.
    Resize(Size),
    /// A row gets a class.
    AddClass { target: Selector, name: Name },
    /// A row loses a class.
    RemoveClass { target: Selector, name: Name },
    /// A row gets another text.
    SetText { target: Selector, text: Text },
    /// A row gets another inline text: declarations of its own.
    SetInline { target: Selector, text: Text },
    /// A row is disabled, and with it those below it.
    Disable(Selector),
    /// A row is no longer disabled by itself.
    Enable(Selector),
    /// A new row becomes the last child of a row.
    Mount { target: Selector, row: NewRow },
    /// A row goes, and with it those below it.
    Remove(Selector),
    /// A row is moved directly before another child of its parent.
    Before { target: Selector, other: Selector },
    /// A row is told that so much more of its work is done, in the units of a ProgressBar's total.
    Advance { target: Selector, by: u32 },
    /// The theme becomes dark, for true, or light.
    Theme { dark: bool },
}

impl Input {
    /// A second input that equals this one. NoMemory is the only error.
    pub fn copy(&self) -> Result<Input, NoMemory>
        ensures { IfOk result (λ input. input ≡ self.now) }
    {
        match self {
            Input::Press(key) => Ok(Input::Press(*key)),
            Input::ClickAt { x, y } => Ok(Input::ClickAt { x: *x, y: *y }),
            Input::Click(target) => Ok(Input::Click(target.copy()?)),
            Input::HoverAt { x, y } => Ok(Input::HoverAt { x: *x, y: *y }),
            Input::Hover(target) => Ok(Input::Hover(target.copy()?)),
            Input::Pause => Ok(Input::Pause),
            Input::Resize(size) => Ok(Input::Resize(*size)),
            Input::AddClass { target, name } => Ok(Input::AddClass {
                target: target.copy()?,
                name: *name,
            }),
            Input::RemoveClass { target, name } => Ok(Input::RemoveClass {
                target: target.copy()?,
                name: *name,
            }),
            Input::SetText { target, text } => Ok(Input::SetText {
                target: target.copy()?,
                text: text.copy()?,
            }),
            Input::SetInline { target, text } => Ok(Input::SetInline {
                target: target.copy()?,
                text: text.copy()?,
            }),
            Input::Disable(target) => Ok(Input::Disable(target.copy()?)),
            Input::Enable(target) => Ok(Input::Enable(target.copy()?)),
            Input::Mount { target, row } => Ok(Input::Mount {
                target: target.copy()?,
                row: row.copy()?,
            }),
            Input::Remove(target) => Ok(Input::Remove(target.copy()?)),
            Input::Before { target, other } => Ok(Input::Before {
                target: target.copy()?,
                other: other.copy()?,
            }),
            Input::Advance { target, by } => Ok(Input::Advance {
                target: target.copy()?,
                by: *by,
            }),
            Input::Theme { dark } => Ok(Input::Theme { dark: *dark }),
        }
    }
}

/// A list of inputs.
pub type Inputs = Items<Input>;

/// The inputs of one sender.
#[derive(Debug, Drop)]
pub struct Track {
    /// The first input to be sent stands first.
    pub inputs: Inputs,
}
