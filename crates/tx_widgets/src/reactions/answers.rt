//! The two forms of reactions: the message goes on, or it stops.

ghost use Rattle.std.specs.Prelude.{◌≡◌, ◌≤◌, length, IfOk};
ghost use Rattle.tx_widgets.specs.Reaction.{answered, passed_on};

use crate::{Effect, Effects, Reaction};
use std::alloc::Global;
use tx_text::NoMemory;
use tx_tree::{Private, Text};

// Nothing changes, and the message goes on.
pub(crate) fn passed_on(alloc: Global, text: &str, private: Private) -> Result<Reaction, NoMemory>
    ensures { IfOk result (λ reaction. reaction ≡ passed_on text.now private) }
{
    Ok(Reaction {
        text: Text::of(alloc, text)?,
        private,
        effects: Effects::new(alloc),
        stopped: false,
    })
}

// The message stops. The row keeps its text, and has this private state then, with these effects.
pub(crate) fn answered(
    alloc: Global,
    text: &str,
    private: Private,
    effects: &[Effect],
) -> Result<Reaction, NoMemory>
    requires few { length effects.now ≤ 16 }
    ensures { IfOk result (λ reaction. reaction ≡ answered text.now private effects.now) }
{
    let text = Text::of(alloc, text)?;
    answered_with(alloc, text, private, effects)
}

// The same with another text.
pub(crate) fn answered_with(
    alloc: Global,
    text: Text,
    private: Private,
    effects: &[Effect],
) -> Result<Reaction, NoMemory>
    requires few { length effects.now ≤ 16 }
    ensures { IfOk result (λ reaction. reaction ≡ answered text private effects.now) }
{
    let effects = Effects::of(alloc, effects)?;
    Ok(Reaction {
        text,
        private,
        effects,
        stopped: true,
    })
}
