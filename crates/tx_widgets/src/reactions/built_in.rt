//! What a built-in widget does with a message.

ghost use Rattle.std.specs.Prelude.{◌≡◌, ◌<◌, ◌^◌, true, false, length, IfOk, None, if◌then◌else◌};
ghost use Rattle.tx_tree.specs.Kind.{is_handed};
ghost use Rattle.tx_widgets.specs.Form.{suits};
ghost use Rattle.tx_widgets.specs.ReactionLaws.{IsModest};
ghost use Rattle.tx_widgets.specs.Reaction.{action_on, effect_of, kind_reaction, reaction, unbound_reaction};

use crate::drawing::{box_is_on, chosen_of, cursor_of, state_of};
use crate::reactions::answers::{answered, passed_on};
use crate::reactions::fields::field_reaction;
use crate::reactions::kinds::{
    bar_reaction, box_reaction, button_reaction, screen_reaction, scroll_reaction,
};
use crate::reactions::lists::list_reaction;
use crate::{Effect, Held, Message, Reaction};
use std::alloc::Global;
use tx_text::NoMemory;
use tx_tree::{Action, Kind, Private};

/// What a row does with a message.
///
/// A key on which an enabled row has an action does that action alone, and stops. A disabled row
/// does nothing else, and the message goes on. An enabled row without an action does what its kind
/// does:
///
/// - the Screen: Tab and Shift+Tab move the focus to the next row and to the previous one;
/// - a VerticalScroll: Up, Down, Home, End, PageUp and PageDown scroll it, and a click gives it the
///   focus;
/// - a Button: Enter posts `Pressed`; a click gives it the focus first;
/// - a Checkbox: Enter and a blank turn it and post `Toggled` of the new value; a click gives it
///   the focus first;
/// - an Input: a character goes in at the cursor, which moves past it; Backspace takes away what
///   stands from the last cluster edge of UAX #29 before the cursor up to it, and Delete what stands
///   from it up to the next one; each posts `Changed` where the text changed. Left and Right move
///   the cursor to these edges, Home and End to the ends. Enter posts `Submitted`, a click gives it
///   the focus. A character that would make the text longer than 65,536 bytes changes nothing;
/// - an OptionList: Up, Down, Home and End choose the line before, the line after, the first and the
///   last one; Enter posts `Chosen` where there is a line; a click gives it the focus;
/// - a ProgressBar: `Advance` adds to what is done, up to all.
///
/// These messages stop. All others change nothing and go on. A private state that isn't of the
/// kind's form or doesn't suit the text counts as the fresh one, which the row then has. The kind is
/// not one that is handed in, and the text has fewer than 2^32 bytes. Clusters are the extended
/// grapheme clusters of UAX #29, and the cursor is a byte offset in UTF-8. NoMemory is the only error.
#[tactic(auto, unfolding(crate::specs::Reaction::reaction))]
pub fn react(alloc: Global, held: &Held, message: &Message) -> Result<Reaction, NoMemory>
    requires built_in { is_handed held.now.kind ≡ false }
    requires short { length held.now.text < 2 ^ 32 }
    ensures reaction { IfOk result (λ made. made ≡ reaction held.now message.now) }
    ensures modest { IfOk result (λ made. IsModest held.now.kind held.now.text made) }
{
    let private = state_of(&held.kind, held.text.as_str(), held.private);
    match action_on(held, *message) {
        Some(action) => {
            let effect = effect_of(action);
            answered(alloc, held.text.as_str(), private, &[effect])
        }
        None => unbound_reaction(alloc, held, private, *message),
    }
}

// The action that an enabled row has on the key that a message is.
fn action_on(held: &Held, message: Message) -> Option<Action>
    ensures { result ≡ action_on held.now message }
{
    match message {
        Message::Key(_) => enabled_action(held),
        _ => None,
    }
}

fn enabled_action(held: &Held) -> Option<Action>
    ensures { result ≡ (if held.now.disabled then None else held.now.action) }
{
    if held.disabled { None } else { held.action }
}

// The effect that an action is.
fn effect_of(action: Action) -> Effect
    ensures { result ≡ effect_of action }
{
    match action {
        Action::FocusNext => Effect::FocusNext,
        Action::FocusPrevious => Effect::FocusPrevious,
        Action::ToggleDark => Effect::ToggleDark,
        Action::ToggleClass(name) => Effect::ToggleClass(name),
        Action::Scroll(jump) => Effect::Scroll(jump),
    }
}

// What a row without an action for a message does with it.
fn unbound_reaction(
    alloc: Global,
    held: &Held,
    private: Private,
    message: Message,
) -> Result<Reaction, NoMemory>
    requires short { length held.now.text < 2 ^ 32 }
    requires suits { suits held.now.text private ≡ true }
    ensures { IfOk result (λ made. made ≡ unbound_reaction held.now private message) }
{
    if held.disabled {
        return passed_on(alloc, held.text.as_str(), private);
    }
    kind_reaction(alloc, &held.kind, held.text.as_str(), private, message)
}

// What an enabled row of a kind does with a message.
fn kind_reaction(
    alloc: Global,
    kind: &Kind,
    text: &str,
    private: Private,
    message: Message,
) -> Result<Reaction, NoMemory>
    requires short { length text.now < 2 ^ 32 }
    requires suits { suits text.now private ≡ true }
    ensures { IfOk result (λ made. made ≡ kind_reaction kind.now text.now private message) }
{
    match kind {
        Kind::Screen => screen_reaction(alloc, text, private, message),
        Kind::VerticalScroll => scroll_reaction(alloc, text, private, message),
        Kind::Button => button_reaction(alloc, text, private, message),
        Kind::Checkbox => box_reaction(alloc, box_is_on(private), text, private, message),
        Kind::Input => field_reaction(alloc, cursor_of(private) as usize, text, private, message),
        Kind::OptionList => list_reaction(alloc, chosen_of(private), text, private, message),
        Kind::ProgressBar => bar_reaction(alloc, text, private, message),
        _ => passed_on(alloc, text, private),
    }
}
