//! Key bindings.

use crate::Name;
use tx_text::Items;

/// A key press.
#[derive(Clone, Copy, Debug, PartialEq, Eq)]
pub enum Key {
    Char(char),
    Enter,
    Escape,
    Tab,
    ShiftTab,
    Backspace,
    Delete,
    Up,
    Down,
    Left,
    Right,
    Home,
    End,
    PageUp,
    PageDown,
    /// A function key by its number, 1 to 12.
    Function(u8),
    /// A small letter with the control key, as the letter's byte.
    Ctrl(u8),
}

/// A step of a scroll.
#[derive(Clone, Copy, Debug, PartialEq, Eq)]
pub enum Jump {
    Up,
    Down,
    Home,
    End,
    PageUp,
    PageDown,
}

/// What a binding does.
#[derive(Clone, Copy, Debug, PartialEq, Eq)]
pub enum Action {
    FocusNext,
    FocusPrevious,
    ToggleDark,
    /// Gives the row this class, or takes it away where the row has it.
    ToggleClass(Name),
    Scroll(Jump),
}

/// An action on a key.
#[derive(Clone, Copy, Debug, PartialEq, Eq)]
pub struct Bind {
    pub key: Key,
    pub action: Action,
    /// Whether the binding comes before the focused row's own reaction.
    pub priority: bool,
}

/// A list of key bindings.
pub type Binds = Items<Bind>;
