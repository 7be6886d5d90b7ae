//! What reaches a widget, and what comes of it.

use tx_tree::{Jump, Key, Name};

/// What is handed to a widget, one at a time.
#[derive(Clone, Copy, Debug, PartialEq, Eq)]
pub enum Message {
    /// A key was pressed.
    Key(Key),
    /// A click on the cell in column `x` and row `y` of the widget's region, both counted from 0 at its
    /// upper left corner.
    Click { x: u32, y: u32 },
    /// So much more of the work of a ProgressBar is done, in the units of its total.
    Advance(u32),
    /// A Button was pressed.
    Pressed,
    /// The text of an Input changed.
    Changed,
    /// An Input's text is finished.
    Submitted,
    /// A Checkbox is now on, for true, or off.
    Toggled(bool),
    /// A line of an OptionList was taken: its number, counted from 0.
    Chosen(u32),
}

/// What a reaction does outside its row's text and private state.
#[derive(Clone, Copy, Debug, PartialEq, Eq)]
pub enum Effect {
    /// The parent of the row gets this message.
    Post(Message),
    /// The row gets the focus.
    Focus,
    /// The focus goes to the next row of the focus order.
    FocusNext,
    /// The focus goes to the previous row of the focus order.
    FocusPrevious,
    /// The row is scrolled by a line or a page, or to an end.
    Scroll(Jump),
    /// The row gets this class, or loses it where it has it.
    ToggleClass(Name),
    /// The theme changes between dark and light.
    ToggleDark,
}
