//! Inputs as lines of a test.

use crate::Input;
use std::alloc::Global;
use std::test::Fail;
use tx_geom::Size;
use tx_select::{Selector, read_selector};
use tx_tree::{Key, Kind, Name, NewRow, Text};

/// The key that a word names.
pub fn key_of(word: &str) -> Result<Key, Fail> {
    match word {
        "a" => Ok(Key::Char('a')),
        "enter" => Ok(Key::Enter),
        "f1" => Ok(Key::Function(1)),
        "f2" => Ok(Key::Function(2)),
        "f3" => Ok(Key::Function(3)),
        "f4" => Ok(Key::Function(4)),
        "f5" => Ok(Key::Function(5)),
        "f6" => Ok(Key::Function(6)),
        "f7" => Ok(Key::Function(7)),
        _ => Err(Fail::from("a key")),
    }
}

/// The number that a word spells.
pub fn number_of(word: &str) -> Result<u32, Fail> {
    match word.parse::<u32>() {
        Ok(number) => Ok(number),
        Err(_) => Err(Fail::from("a number")),
    }
}

/// The place of two words, where both are numbers.
fn place_of(words: &str) -> Option<(u32, u32)> {
    let (x, y) = words.split_once(' ')?;
    let x = x.parse::<u32>().ok()?;
    let y = y.parse::<u32>().ok()?;
    Some((x, y))
}

/// The selector of a text.
fn selector_of(alloc: Global, text: &str) -> Result<Selector, Fail> {
    if text.len() >= 1000 {
        return Err(Fail::from("a long text"));
    }
    match read_selector(alloc, text) {
        Ok(selector) => Ok(selector),
        Err(_) => Err(Fail::from("a selector")),
    }
}

/// Two selectors with a comma between.
fn selectors_of(alloc: Global, text: &str) -> Result<(Selector, Selector), Fail> {
    let (one, other) = text.split_once(',').ok_or("two selectors")?;
    let one = selector_of(alloc, one)?;
    let other = selector_of(alloc, other)?;
    Ok((one, other))
}

/// A row of a kind, with an id where one stands behind a space.
fn row_of(alloc: Global, text: &str) -> Result<NewRow, Fail> {
    let (kind, id) = match text.split_once(' ') {
        Some((kind, id)) => (kind, Name::of(id)),
        None => (text, None),
    };
    let kind = match Kind::named(kind) {
        Some(kind) => kind,
        None => Kind::Handed(Name::of(kind).ok_or("a kind")?),
    };
    let mut row = NewRow::of(alloc, kind);
    row.id = id;
    Ok(row)
}

/// A click, or the pointer where it moves.
fn pointing_of(alloc: Global, is_click: bool, words: &str) -> Result<Input, Fail> {
    if let Some((x, y)) = place_of(words) {
        if is_click {
            return Ok(Input::ClickAt { x, y });
        }
        return Ok(Input::HoverAt { x, y });
    }
    let target = selector_of(alloc, words)?;
    if is_click {
        return Ok(Input::Click(target));
    }
    Ok(Input::Hover(target))
}

/// A change that has a selector and then, behind a comma, more.
fn change_of(alloc: Global, word: &str, target: Selector, more: &str) -> Result<Input, Fail> {
    match word {
        "class" => Ok(Input::AddClass {
            target,
            name: Name::of(more).ok_or("a name")?,
        }),
        "unclass" => Ok(Input::RemoveClass {
            target,
            name: Name::of(more).ok_or("a name")?,
        }),
        "text" => Ok(Input::SetText {
            target,
            text: Text::of(alloc, more)?,
        }),
        "style" => Ok(Input::SetInline {
            target,
            text: Text::of(alloc, more)?,
        }),
        "mount" => Ok(Input::Mount {
            target,
            row: row_of(alloc, more)?,
        }),
        "advance" => Ok(Input::Advance {
            target,
            by: number_of(more)?,
        }),
        _ => Err(Fail::from("an input")),
    }
}

/// An input that has selectors alone, or a selector and more.
fn targeted_of(alloc: Global, word: &str, words: &str) -> Result<Input, Fail> {
    if word == "disable" {
        return Ok(Input::Disable(selector_of(alloc, words)?));
    }
    if word == "enable" {
        return Ok(Input::Enable(selector_of(alloc, words)?));
    }
    if word == "remove" {
        return Ok(Input::Remove(selector_of(alloc, words)?));
    }
    if word == "before" {
        let (target, other) = selectors_of(alloc, words)?;
        return Ok(Input::Before { target, other });
    }
    let (target, more) = words.split_once(',').ok_or("a selector")?;
    let target = selector_of(alloc, target)?;
    change_of(alloc, word, target, more)
}

/// The input of a line: its word, and what goes with it.
pub fn input_of(alloc: Global, line: &str) -> Result<Input, Fail> {
    let (word, words) = match line.split_once(' ') {
        Some((word, words)) => (word, words),
        None => (line, ""),
    };
    match word {
        "press" => Ok(Input::Press(key_of(words)?)),
        "click" => pointing_of(alloc, true, words),
        "hover" => pointing_of(alloc, false, words),
        "pause" => Ok(Input::Pause),
        "dark" => Ok(Input::Theme { dark: true }),
        "resize" => Ok(Input::Resize(Size {
            width: 3,
            height: 2,
        })),
        _ => targeted_of(alloc, word, words),
    }
}
