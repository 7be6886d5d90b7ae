//! The parts of a binding's line.
ghost use Rattle.std.specs.Prelude.{◌≡◌, ◌≤◌, find, bytes_eq, codes, chars};
ghost use Rattle.tx_read.specs.Pieces.{behind};
ghost use Rattle.tx_tree_file.specs.Spelling.{key_name, action_name};
ghost use Rattle.tx_tree_file.specs.Parts.{named_keys, function_by, function_of, control_of, long_key, only_char, char_key, key_of, named_actions, action_of};
ghost use Rattle.tx_tree_file.specs.TreeReading.{bind_by, bind_of};

use crate::words::{as_text, flag, split_word};
use tx_read::{number_at_most, strip_prefix};
use tx_tree::{Action, Bind, Jump, Key, Name};

// The number of function keys.
const MOST_FUNCTION: u32 = 12;

fn named_key(name: &str) -> Option<Key>
    ensures { result ≡ find (λ key. bytes_eq name.now (key_name key)) named_keys }
{
    match name {
        "space" => Some(Key::Char(' ')),
        "enter" => Some(Key::Enter),
        "escape" => Some(Key::Escape),
        "tab" => Some(Key::Tab),
        "shift+tab" => Some(Key::ShiftTab),
        "backspace" => Some(Key::Backspace),
        "delete" => Some(Key::Delete),
        "up" => Some(Key::Up),
        "down" => Some(Key::Down),
        "left" => Some(Key::Left),
        "right" => Some(Key::Right),
        "home" => Some(Key::Home),
        "end" => Some(Key::End),
        "pageup" => Some(Key::PageUp),
        "pagedown" => Some(Key::PageDown),
        _ => None,
    }
}

fn function_by(digits: &[u8], number: u32) -> Option<Key>
    requires { number ≤ 12 }
    ensures { result ≡ function_by digits.now number }
{
    let mut buffer = itoa::Buffer::new();
    if buffer.format(number).as_bytes() == digits && 1 <= number {
        Some(Key::Function(number as u8))
    } else {
        None
    }
}

// `f1` to `f12`.
fn function_key(name: &[u8]) -> Option<Key>
    ensures { result ≡ function_of (behind (codes "f") name.now) }
{
    let Some(digits) = strip_prefix(name, b"f") else {
        return None;
    };
    match number_at_most(digits, MOST_FUNCTION) {
        Some(number) => function_by(digits, number),
        None => None,
    }
}

// `ctrl+a` to `ctrl+z`.
fn control_key(name: &[u8]) -> Option<Key>
    ensures { result ≡ control_of (behind (codes "ctrl+") name.now) }
{
    match strip_prefix(name, b"ctrl+") {
        Some([letter]) if letter.is_ascii_lowercase() => Some(Key::Ctrl(*letter)),
        _ => None,
    }
}

fn long_key(name: &str) -> Option<Key>
    ensures { result ≡ long_key name.now }
{
    if let Some(key) = named_key(name) {
        return Some(key);
    }
    if let Some(key) = function_key(name.as_bytes()) {
        return Some(key);
    }
    control_key(name.as_bytes())
}

// The character of a text that has only one.
fn only_char(text: &str) -> Option<char>
    ensures { result ≡ only_char (chars text.now) }
{
    let mut chars = text.chars();
    let Some(first) = chars.next() else {
        return None;
    };
    match chars.next() {
        Some(_) => None,
        None => Some(first),
    }
}

fn char_key(c: char) -> Option<Key>
    ensures { result ≡ char_key c }
{
    if ' ' <= c && !('\u{7f}' <= c && c <= '\u{9f}') && c != ' ' {
        Some(Key::Char(c))
    } else {
        None
    }
}

/// The key of this name.
pub fn key_of(name: &[u8]) -> Option<Key>
    ensures { result ≡ key_of name.now }
{
    let Some(text) = as_text(name) else {
        return None;
    };
    match only_char(text) {
        Some(c) => char_key(c),
        None => long_key(text),
    }
}

fn named_action(name: &str) -> Option<Action>
    ensures { result ≡ find (λ action. bytes_eq name.now (action_name action)) named_actions }
{
    match name {
        "focus_next" => Some(Action::FocusNext),
        "focus_previous" => Some(Action::FocusPrevious),
        "toggle_dark" => Some(Action::ToggleDark),
        "scroll_up" => Some(Action::Scroll(Jump::Up)),
        "scroll_down" => Some(Action::Scroll(Jump::Down)),
        "scroll_home" => Some(Action::Scroll(Jump::Home)),
        "scroll_end" => Some(Action::Scroll(Jump::End)),
        "page_up" => Some(Action::Scroll(Jump::PageUp)),
        "page_down" => Some(Action::Scroll(Jump::PageDown)),
        _ => None,
    }
}

fn action_of(name: &[u8]) -> Option<Action>
    ensures { result ≡ action_of name.now }
{
    let Some(text) = as_text(name) else {
        return None;
    };
    if let Some(action) = named_action(text) {
        return Some(action);
    }
    let Some(class) = strip_prefix(name, b"toggle_class ") else {
        return None;
    };
    match Name::of_bytes(class) {
        Some(class) => Some(Action::ToggleClass(class)),
        None => None,
    }
}

// A binding after its first word.
fn bind_behind(bytes: &[u8], priority: bool) -> Option<Bind>
    ensures { result ≡ bind_by (priority, bytes.now) }
{
    let (word, rest) = split_word(bytes);
    let Some(key) = key_of(word) else {
        return None;
    };
    let Some(rest) = strip_prefix(rest, b" ") else {
        return None;
    };
    match action_of(rest) {
        Some(action) => Some(Bind {
            key,
            action,
            priority,
        }),
        None => None,
    }
}

/// The binding that a line spells.
pub fn bind_of(bytes: &[u8]) -> Option<Bind>
    ensures { result ≡ bind_of bytes.now }
{
    let Some(rest) = strip_prefix(bytes, b"bind ") else {
        return None;
    };
    let (priority, rest) = flag(rest, b"priority ");
    bind_behind(rest, priority)
}
