//! What an OptionList does with messages.

ghost use Rattle.std.specs.Prelude.{◌≡◌, ◌+◌, ◌-◌, ◌<◌, ◌^◌, min, length, IfOk};
ghost use Rattle.tx_cell.specs.Lines.{text_lines};
ghost use Rattle.tx_widgets.specs.Reaction.{choosing, list_reaction, taking};

use crate::drawing::line_count;
use crate::reactions::answers::{answered, passed_on};
use crate::{Effect, Message, Reaction};
use std::alloc::Global;
use tx_text::NoMemory;
use tx_tree::{Key, Private};

// An OptionList of which this line is chosen.
pub(crate) fn list_reaction(
    alloc: Global,
    line: u32,
    text: &str,
    private: Private,
    message: Message,
) -> Result<Reaction, NoMemory>
    requires short { length text.now < 2 ^ 32 }
    ensures { IfOk result (λ reaction. reaction ≡ list_reaction line text.now private message) }
{
    match message {
        Message::Key(Key::Up) => choosing(alloc, text, line.saturating_sub(1)),
        Message::Key(Key::Down) => choosing_next(alloc, text, line),
        Message::Key(Key::Home) => choosing(alloc, text, 0),
        Message::Key(Key::End) => choosing(alloc, text, last_line(text)),
        Message::Key(Key::Enter) => taking(alloc, text, private, line),
        Message::Click { .. } => answered(alloc, text, private, &[Effect::Focus]),
        _ => passed_on(alloc, text, private),
    }
}

// The number of the last line, and 0 where there is none.
fn last_line(text: &str) -> u32
    requires short { length text.now < 2 ^ 32 }
    ensures { result ≡ length (text_lines text.now) - 1 }
{
    line_count(text).saturating_sub(1) as u32
}

// This line is chosen, or the last one where it isn't there.
fn choosing(alloc: Global, text: &str, line: u32) -> Result<Reaction, NoMemory>
    requires short { length text.now < 2 ^ 32 }
    ensures { IfOk result (λ reaction. reaction ≡ choosing text.now line) }
{
    let line = line.min(last_line(text));
    answered(alloc, text, Private::Chosen(line), &[])
}

// The line after this one is chosen, where there is one.
fn choosing_next(alloc: Global, text: &str, line: u32) -> Result<Reaction, NoMemory>
    requires short { length text.now < 2 ^ 32 }
    ensures { IfOk result (λ reaction. reaction ≡ choosing text.now (line + 1)) }
{
    let line = line_after(line, last_line(text));
    answered(alloc, text, Private::Chosen(line), &[])
}

fn line_after(line: u32, last: u32) -> u32
    ensures { result ≡ min (line + 1) last }
{
    line.saturating_add(1).min(last)
}

// The chosen line is posted, where there are lines.
fn taking(alloc: Global, text: &str, private: Private, line: u32) -> Result<Reaction, NoMemory>
    requires short { length text.now < 2 ^ 32 }
    ensures { IfOk result (λ reaction. reaction ≡ taking text.now private line) }
{
    if line_count(text) == 0 {
        answered(alloc, text, private, &[])
    } else {
        let post = Effect::Post(Message::Chosen(line));
        answered(alloc, text, private, &[post])
    }
}
