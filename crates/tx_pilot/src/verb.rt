//! The first words of lines.
ghost use Rattle.std.specs.Prelude.{◌≡◌};
ghost use Rattle.tx_pilot.specs.Verbs.{verb_of, verb_named};

use tx_tree_file::as_text;

/// What a line begins with: each word asks for other words after it.
#[derive(Clone, Copy, Debug, PartialEq, Eq)]
pub enum Verb {
    Press,
    Click,
    Hover,
    Pause,
    Resize,
    Class,
    Text,
    Style,
    Disable,
    Enable,
    Mount,
    Remove,
    Before,
    Advance,
    Theme,
}

fn verb_named(name: &str) -> Option<Verb>
    ensures { result ≡ verb_named name.now }
{
    match name {
        "press" => Some(Verb::Press),
        "click" => Some(Verb::Click),
        "hover" => Some(Verb::Hover),
        "pause" => Some(Verb::Pause),
        "resize" => Some(Verb::Resize),
        "class" => Some(Verb::Class),
        "text" => Some(Verb::Text),
        "style" => Some(Verb::Style),
        "disable" => Some(Verb::Disable),
        "enable" => Some(Verb::Enable),
        "mount" => Some(Verb::Mount),
        "remove" => Some(Verb::Remove),
        "before" => Some(Verb::Before),
        "advance" => Some(Verb::Advance),
        "theme" => Some(Verb::Theme),
        _ => None,
    }
}

/// The first word of a line.
pub fn verb_of(word: &[u8]) -> Option<Verb>
    ensures { result ≡ verb_of word.now }
{
    match as_text(word) {
        Some(name) => verb_named(name),
        None => None,
    }
}
