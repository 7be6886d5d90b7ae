//! What a Screen, a VerticalScroll, a Button, a Checkbox and a ProgressBar do with messages.

ghost use Rattle.std.specs.Prelude.{◌≡◌, [], ◌∷◌, IfOk};
ghost use Rattle.tx_widgets.specs.Reaction.{advanced, answered, bar_reaction, box_reaction, button_reaction, screen_reaction, scroll_reaction};
ghost use Rattle.tx_widgets.specs.declared.reactions.message.Effect.TheVariants.{Scroll};

use crate::reactions::answers::{answered, passed_on};
use crate::{Effect, Message, Reaction};
use std::alloc::Global;
use tx_text::NoMemory;
use tx_tree::{Jump, Key, Private};

pub(crate) fn screen_reaction(
    alloc: Global,
    text: &str,
    private: Private,
    message: Message,
) -> Result<Reaction, NoMemory>
    ensures { IfOk result (λ reaction. reaction ≡ screen_reaction text.now private message) }
{
    match message {
        Message::Key(Key::Tab) => answered(alloc, text, private, &[Effect::FocusNext]),
        Message::Key(Key::ShiftTab) => answered(alloc, text, private, &[Effect::FocusPrevious]),
        _ => passed_on(alloc, text, private),
    }
}

pub(crate) fn scroll_reaction(
    alloc: Global,
    text: &str,
    private: Private,
    message: Message,
) -> Result<Reaction, NoMemory>
    ensures { IfOk result (λ reaction. reaction ≡ scroll_reaction text.now private message) }
{
    match message {
        Message::Key(Key::Up) => scrolled(alloc, text, private, Jump::Up),
        Message::Key(Key::Down) => scrolled(alloc, text, private, Jump::Down),
        Message::Key(Key::Home) => scrolled(alloc, text, private, Jump::Home),
        Message::Key(Key::End) => scrolled(alloc, text, private, Jump::End),
        Message::Key(Key::PageUp) => scrolled(alloc, text, private, Jump::PageUp),
        Message::Key(Key::PageDown) => scrolled(alloc, text, private, Jump::PageDown),
        Message::Click { .. } => answered(alloc, text, private, &[Effect::Focus]),
        _ => passed_on(alloc, text, private),
    }
}

fn scrolled(alloc: Global, text: &str, private: Private, jump: Jump) -> Result<Reaction, NoMemory>
    ensures { IfOk result (λ reaction. reaction ≡ answered text.now private (Scroll jump ∷ [])) }
{
    answered(alloc, text, private, &[Effect::Scroll(jump)])
}

pub(crate) fn button_reaction(
    alloc: Global,
    text: &str,
    private: Private,
    message: Message,
) -> Result<Reaction, NoMemory>
    ensures { IfOk result (λ reaction. reaction ≡ button_reaction text.now private message) }
{
    let pressed = Effect::Post(Message::Pressed);
    match message {
        Message::Key(Key::Enter) => answered(alloc, text, private, &[pressed]),
        Message::Click { .. } => answered(alloc, text, private, &[Effect::Focus, pressed]),
        _ => passed_on(alloc, text, private),
    }
}

// A Checkbox that is on or off.
pub(crate) fn box_reaction(
    alloc: Global,
    on: bool,
    text: &str,
    private: Private,
    message: Message,
) -> Result<Reaction, NoMemory>
    ensures { IfOk result (λ reaction. reaction ≡ box_reaction on text.now private message) }
{
    let turned = Private::On(!on);
    let toggled = Effect::Post(Message::Toggled(!on));
    match message {
        Message::Key(Key::Enter) => answered(alloc, text, turned, &[toggled]),
        Message::Key(Key::Char(character)) => {
            if character == ' ' {
                answered(alloc, text, turned, &[toggled])
            } else {
                passed_on(alloc, text, private)
            }
        }
        Message::Click { .. } => answered(alloc, text, turned, &[Effect::Focus, toggled]),
        _ => passed_on(alloc, text, private),
    }
}

pub(crate) fn bar_reaction(
    alloc: Global,
    text: &str,
    private: Private,
    message: Message,
) -> Result<Reaction, NoMemory>
    ensures { IfOk result (λ reaction. reaction ≡ bar_reaction text.now private message) }
{
    match message {
        Message::Advance(by) => answered(alloc, text, advanced(private, by), &[]),
        _ => passed_on(alloc, text, private),
    }
}

// The state of a ProgressBar once so much more is done, but no more than all.
fn advanced(private: Private, by: u32) -> Private
    ensures { result ≡ advanced by private }
{
    match private {
        Private::Bar { done, total } => Private::Bar {
            done: total.min(done.saturating_add(by)),
            total,
        },
        other => other,
    }
}
