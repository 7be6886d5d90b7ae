//! What an Input does with messages.

ghost use Rattle.std.specs.Prelude.{◌≡◌, ◌<◌, ◌^◌, [], ◌∷◌, true, length, IfOk};
ghost use Rattle.tx_tree.specs.declared.kind.Private.TheVariants.{Cursor};
ghost use Rattle.tx_widgets.specs.Form.{is_edge};
ghost use Rattle.tx_widgets.specs.declared.reactions.message.Effect.TheVariants.{Post};
ghost use Rattle.tx_widgets.specs.declared.reactions.message.Message.TheVariants.{Submitted};
ghost use Rattle.tx_widgets.specs.Reaction.{answered, field_reaction, taken_out, typed};

use crate::reactions::answers::{answered, answered_with, passed_on};
use crate::reactions::editing::{edge_after, edge_before, with_character, without_part};
use crate::{Effect, Message, Reaction};
use std::alloc::Global;
use tx_text::NoMemory;
use tx_tree::{Key, Private};

// The longest text, in bytes, that typing leads to.
const MOST_TYPED: usize = 65_536;

const CHANGED: Effect = Effect::Post(Message::Changed);

// An Input with its cursor at a byte of its text.
pub(crate) fn field_reaction(
    alloc: Global,
    at: usize,
    text: &str,
    private: Private,
    message: Message,
) -> Result<Reaction, NoMemory>
    requires short { length text.now < 2 ^ 32 }
    requires edge { is_edge text.now at ≡ true }
    ensures { IfOk result (λ reaction. reaction ≡ field_reaction at text.now private message) }
{
    match message {
        Message::Key(Key::Char(character)) => typed(alloc, at, text, character),
        Message::Key(Key::Backspace) => taken_out(alloc, text, edge_before(text, at), at),
        Message::Key(Key::Delete) => taken_out(alloc, text, at, edge_after(text, at)),
        Message::Key(Key::Left) => moved(alloc, text, edge_before(text, at)),
        Message::Key(Key::Right) => moved(alloc, text, edge_after(text, at)),
        Message::Key(Key::Home) => moved(alloc, text, 0),
        Message::Key(Key::End) => moved(alloc, text, text.len()),
        Message::Key(Key::Enter) => submitted(alloc, text, private),
        Message::Click { .. } => answered(alloc, text, private, &[Effect::Focus]),
        _ => passed_on(alloc, text, private),
    }
}

// The text is finished.
fn submitted(alloc: Global, text: &str, private: Private) -> Result<Reaction, NoMemory>
    ensures { IfOk result (λ reaction. reaction ≡ answered text.now private (Post Submitted ∷ [])) }
{
    answered(alloc, text, private, &[Effect::Post(Message::Submitted)])
}

// The cursor stands at a place then.
fn moved(alloc: Global, text: &str, at: usize) -> Result<Reaction, NoMemory>
    requires short { length text.now < 2 ^ 32 }
    requires edge { is_edge text.now at ≡ true }
    ensures { IfOk result (λ reaction. reaction ≡ answered text.now (Cursor at) []) }
{
    answered(alloc, text, Private::Cursor(at as u32), &[])
}

// A character goes in at the cursor, unless the text would be too long.
fn typed(alloc: Global, at: usize, text: &str, character: char) -> Result<Reaction, NoMemory>
    requires short { length text.now < 2 ^ 32 }
    requires edge { is_edge text.now at ≡ true }
    ensures { IfOk result (λ reaction. reaction ≡ typed at text.now character) }
{
    let size = character.len_utf8();
    if text.len() + size > MOST_TYPED {
        return moved(alloc, text, at);
    }
    let longer = with_character(alloc, text, at, character)?;
    answered_with(
        alloc,
        longer,
        Private::Cursor((at + size) as u32),
        &[CHANGED],
    )
}

// What stands between two places goes, and the cursor stands there then.
fn taken_out(alloc: Global, text: &str, from: usize, to: usize) -> Result<Reaction, NoMemory>
    requires short { length text.now < 2 ^ 32 }
    requires from { is_edge text.now from ≡ true }
    requires to { is_edge text.now to ≡ true }
    ensures { IfOk result (λ reaction. reaction ≡ taken_out text.now from to) }
{
    if from == to {
        return moved(alloc, text, from);
    }
    let shorter = without_part(alloc, text, from, to)?;
    answered_with(alloc, shorter, Private::Cursor(from as u32), &[CHANGED])
}
