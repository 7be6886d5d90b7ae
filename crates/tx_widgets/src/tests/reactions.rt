//! What each kind does with each message.

ghost use Rattle.std.specs.Prelude.{◌≡◌, ◌<◌, ◌^◌, false, length, IfOk};
ghost use Rattle.tx_tree.specs.Kind.{is_handed};

use crate::tests::faces::{kind_of, number_of, private_of, text_of};
use crate::tests::reaction_table::{
    BARS, BINDINGS, BOXES, BUTTONS, CLUSTERS, CONTAINERS, FIELDS, LISTS,
};
use crate::{Effect, Effects, Held, Message, Reaction, react};
use std::alloc::Global;
use std::test::Fail;
use tx_expect::{each_line, expect};
use tx_tree::{Action, Jump, Key, Kind, Name, Private, Text};

fn jump_of(word: &str) -> Option<Jump> {
    match word {
        "up" => Some(Jump::Up),
        "down" => Some(Jump::Down),
        "home" => Some(Jump::Home),
        "end" => Some(Jump::End),
        "pageup" => Some(Jump::PageUp),
        "pagedown" => Some(Jump::PageDown),
        _ => None,
    }
}

// The word of a step.
fn word_of_jump(jump: Jump) -> &'static str {
    match jump {
        Jump::Up => "up",
        Jump::Down => "down",
        Jump::Home => "home",
        Jump::End => "end",
        Jump::PageUp => "pageup",
        Jump::PageDown => "pagedown",
    }
}

fn action_of(word: &str) -> Option<Action> {
    if let Some(name) = word.strip_prefix("class:") {
        return Some(Action::ToggleClass(Name::of(name)?));
    }
    if let Some(jump) = word.strip_prefix("scroll:") {
        return Some(Action::Scroll(jump_of(jump)?));
    }
    match word {
        "next" => Some(Action::FocusNext),
        "previous" => Some(Action::FocusPrevious),
        "dark" => Some(Action::ToggleDark),
        _ => None,
    }
}

// Whether a row is disabled, and its action.
fn binding_of(word: &str) -> (bool, Option<Action>) {
    match word.strip_prefix('d') {
        None => (false, action_of(word)),
        Some("") => (true, None),
        Some(rest) => match rest.strip_prefix('+') {
            None => (false, action_of(word)),
            Some(action) => (true, action_of(action)),
        },
    }
}

fn named_key(word: &str) -> Option<Key> {
    match word {
        "blank" => Some(Key::Char(' ')),
        "enter" => Some(Key::Enter),
        "escape" => Some(Key::Escape),
        "tab" => Some(Key::Tab),
        "shift+tab" => Some(Key::ShiftTab),
        "backspace" => Some(Key::Backspace),
        "delete" => Some(Key::Delete),
        "up" => Some(Key::Up),
        "down" => Some(Key::Down),
        "left" => Some(Key::Left),
        "right" => Some(Key::Right),
        "home" => Some(Key::Home),
        "end" => Some(Key::End),
        "pageup" => Some(Key::PageUp),
        "pagedown" => Some(Key::PageDown),
        "f1" => Some(Key::Function(1)),
        "ctrl+a" => Some(Key::Ctrl(b'a')),
        _ => None,
    }
}

// The one character of a word.
fn character_of(word: &str) -> Option<char> {
    let mut characters = word.chars();
    let character = characters.next()?;
    match characters.next() {
        None => Some(character),
        Some(_) => None,
    }
}

fn posted_message(word: &str) -> Option<Message> {
    if let Some(by) = word.strip_prefix("advance") {
        return Some(Message::Advance(number_of(by)?));
    }
    match word {
        "click" => Some(Message::Click { x: 1, y: 2 }),
        "pressed" => Some(Message::Pressed),
        "changed" => Some(Message::Changed),
        "submitted" => Some(Message::Submitted),
        "toggled:on" => Some(Message::Toggled(true)),
        "chosen0" => Some(Message::Chosen(0)),
        _ => None,
    }
}

// A character, the name of a key, or another message.
fn message_of(word: &str) -> Option<Message> {
    if let Some(character) = character_of(word) {
        return Some(Message::Key(Key::Char(character)));
    }
    match named_key(word) {
        Some(key) => Some(Message::Key(key)),
        None => posted_message(word),
    }
}

fn push_private(out: &mut String, alloc: Global, private: Private) -> Result<(), Fail> {
    let word = match private {
        Private::Plain => format!(in alloc; "p")?,
        Private::On(true) => format!(in alloc; "on")?,
        Private::On(false) => format!(in alloc; "off")?,
        Private::Cursor(at) => format!(in alloc; "c{at}")?,
        Private::Chosen(line) => format!(in alloc; "n{line}")?,
        Private::Bar { done, total } => format!(in alloc; "b{done}/{total}")?,
    };
    out.push_str(word.as_str())?;
    Ok(())
}

// The word of a message that a reaction posts.
fn word_of_post(alloc: Global, message: &Message) -> Result<String, Fail> {
    let word = match message {
        Message::Pressed => "pressed",
        Message::Changed => "changed",
        Message::Submitted => "submitted",
        Message::Toggled(true) => "toggled:on",
        Message::Toggled(false) => "toggled:off",
        Message::Chosen(line) => return Ok(format!(in alloc; "chosen{line}")?),
        _ => "other",
    };
    Ok(String::from_str(alloc, word)?)
}

fn word_of_effect(alloc: Global, effect: &Effect) -> Result<String, Fail> {
    let word = match effect {
        Effect::Post(message) => return word_of_post(alloc, message),
        Effect::Focus => "focus",
        Effect::FocusNext => "next",
        Effect::FocusPrevious => "previous",
        Effect::ToggleDark => "dark",
        Effect::Scroll(jump) => {
            let step = word_of_jump(*jump);
            return Ok(format!(in alloc; "scroll:{step}")?);
        }
        Effect::ToggleClass(name) => {
            let class = name.as_str();
            return Ok(format!(in alloc; "class:{class}")?);
        }
    };
    Ok(String::from_str(alloc, word)?)
}

fn push_effects(out: &mut String, alloc: Global, effects: &[Effect]) -> Result<(), Fail> {
    if effects.is_empty() {
        out.push_str("-")?;
    }
    let mut between = "";
    for effect in effects {
        out.push_str(between)?;
        out.push_str(word_of_effect(alloc, effect)?.as_str())?;
        between = "+";
    }
    Ok(())
}

// A text with a pilcrow for each line feed and a broken bar for each carriage return.
fn push_text(out: &mut String, text: &str) -> Result<(), Fail> {
    for character in text.chars() {
        out.push(match character {
            '\n' => '\u{B6}',
            '\r' => '\u{A6}',
            other => other,
        })?;
    }
    Ok(())
}

// The row of a reaction.
fn row_of(alloc: Global, made: &Reaction) -> Result<String, Fail> {
    let mut out = String::new(alloc);
    push_private(&mut out, alloc, made.private)?;
    out.push_str(" ")?;
    push_effects(&mut out, alloc, made.effects.as_slice())?;
    out.push_str(if made.stopped { " stop " } else { " on " })?;
    push_text(&mut out, made.text.as_str())?;
    Ok(out)
}

// The words of a row: kind, private state, binding and message, then the text.
#[derive(Clone, Copy)]
struct Words<'a> {
    kind: &'a str,
    private: &'a str,
    binding: &'a str,
    message: &'a str,
    text: &'a str,
}

fn words_of(given: &str) -> Option<Words<'_>> {
    let (kind, rest) = given.split_once(' ')?;
    let (private, rest) = rest.split_once(' ')?;
    let (binding, rest) = rest.split_once(' ')?;
    let (message, text) = rest.split_once(' ')?;
    Some(Words {
        kind,
        private,
        binding,
        message,
        text,
    })
}

fn held_of(alloc: Global, words: &Words<'_>, kind: Kind) -> Result<Held, Fail>
    ensures kind { IfOk result (λ held. held.kind ≡ kind) }
{
    let Some(private) = private_of(words.private) else {
        return Err(Fail::from("no private state"));
    };
    let (disabled, action) = binding_of(words.binding);
    let text = text_of(alloc, words.text)?;
    Ok(Held {
        kind,
        disabled,
        action,
        text,
        private,
    })
}

fn reacted(alloc: Global, given: &str) -> Result<String, Fail> {
    let Some(words) = words_of(given) else {
        return Err(Fail::from("no words"));
    };
    let Some(kind) = kind_of(words.kind) else {
        return Err(Fail::from("no kind"));
    };
    let Some(message) = message_of(words.message) else {
        return Err(Fail::from("no message"));
    };
    let held = held_of(alloc, &words, kind)?;
    if held.text.as_str().len() > 1_000 {
        return Err(Fail::from("a long text"));
    }
    row_of(alloc, &react(alloc, &held, &message)?)
}

#[test]
fn containers_react(rt: HostRuntime) -> Result<(), Fail> {
    let alloc = rt.alloc();
    each_line(CONTAINERS, |given| reacted(alloc, given))
}

#[test]
fn buttons_react(rt: HostRuntime) -> Result<(), Fail> {
    let alloc = rt.alloc();
    each_line(BUTTONS, |given| reacted(alloc, given))
}

#[test]
fn boxes_react(rt: HostRuntime) -> Result<(), Fail> {
    let alloc = rt.alloc();
    each_line(BOXES, |given| reacted(alloc, given))
}

#[test]
fn lists_react(rt: HostRuntime) -> Result<(), Fail> {
    let alloc = rt.alloc();
    each_line(LISTS, |given| reacted(alloc, given))
}

#[test]
fn bars_react(rt: HostRuntime) -> Result<(), Fail> {
    let alloc = rt.alloc();
    each_line(BARS, |given| reacted(alloc, given))
}

#[test]
fn bindings_and_disabled_rows_come_first(rt: HostRuntime) -> Result<(), Fail> {
    let alloc = rt.alloc();
    each_line(BINDINGS, |given| reacted(alloc, given))
}

#[test]
fn inputs_react(rt: HostRuntime) -> Result<(), Fail> {
    let alloc = rt.alloc();
    each_line(FIELDS, |given| reacted(alloc, given))
}

#[test]
fn inputs_are_edited_by_clusters(rt: HostRuntime) -> Result<(), Fail> {
    let alloc = rt.alloc();
    each_line(CLUSTERS, |given| reacted(alloc, given))
}

// An Input of so many bytes after the character `a` was typed, as its bytes and its row.
fn typed_after(alloc: Global, size: u32, character: char) -> Result<String, Fail> {
    let mut text = String::new(alloc);
    for _ in 0..size.min(100_000) {
        text.push('a')?;
    }
    let held = Held {
        kind: Kind::Input,
        disabled: false,
        action: None,
        text: Text::of(alloc, text.as_str())?,
        private: Private::Cursor(1),
    };
    if held.text.as_str().len() > 100_000 {
        return Err(Fail::from("a long text"));
    }
    let made = react(alloc, &held, &Message::Key(Key::Char(character)))?;
    let len = made.text.as_str().len();
    let mut out = format!(in alloc; "{len} ")?;
    push_private(&mut out, alloc, made.private)?;
    out.push_str(" ")?;
    push_effects(&mut out, alloc, made.effects.as_slice())?;
    out.push_str(if made.stopped { " stop" } else { " on" })?;
    Ok(out)
}

// How many bytes there are, what is typed, and how many there are then.
const LIMITS: &'static str = "\
65535 a => 65536 c2 changed stop
65536 a => 65536 c1 - stop
65534 é => 65536 c3 changed stop
65535 é => 65535 c1 - stop
65533 世 => 65536 c4 changed stop
65534 世 => 65534 c1 - stop
70000 a => 70000 c1 - stop";

fn limited(alloc: Global, given: &str) -> Result<String, Fail> {
    let Some((size, typed)) = given.split_once(' ') else {
        return Err(Fail::from("no words"));
    };
    let (Some(size), Some(character)) = (number_of(size), character_of(typed)) else {
        return Err(Fail::from("no size or character"));
    };
    typed_after(alloc, size, character)
}

#[test]
fn typing_stops_at_a_limit(rt: HostRuntime) -> Result<(), Fail> {
    let alloc = rt.alloc();
    each_line(LIMITS, |given| limited(alloc, given))
}

#[test]
fn effects_are_a_list(rt: HostRuntime) -> Result<(), Fail> {
    let alloc = rt.alloc();
    let mut effects = Effects::new(alloc);
    expect(effects.len() == 0, "no effects")?;
    effects.push(Effect::Focus)?;
    effects.push(Effect::Post(Message::Chosen(7)))?;
    effects.push(Effect::Scroll(Jump::End))?;
    let copy = effects.copy()?;
    expect(effects.len() == 3, "three effects")?;
    effects.cut(2);
    effects.cut(2);
    expect(effects.len() == 2, "two effects")?;
    let mut rows = String::new(alloc);
    push_effects(&mut rows, alloc, effects.as_slice())?;
    rows.push_str(" ")?;
    push_effects(&mut rows, alloc, copy.as_slice())?;
    expect(
        rows.as_str() == "focus+chosen7 focus+chosen7+scroll:end",
        "the effects",
    )?;
    effects.cut(0);
    expect(effects.as_slice().is_empty(), "no effects again")?;
    for _ in 0..16 {
        if effects.len() < 16 {
            effects.push(Effect::ToggleDark)?;
        }
    }
    expect(effects.len() == 16, "sixteen effects")
}
