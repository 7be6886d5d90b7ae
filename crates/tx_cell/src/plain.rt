//! The characters that a terminal shows in one column whatever stands beside them.

ghost use Rattle.std.specs.Prelude.{◌≡◌};
ghost use Rattle.std.specs.Str.{chars};
ghost use Rattle.tx_cell.specs.Plain.{begins_plain, is_plain};

/// Whether a character is plain: from U+0020 to U+007E, or from U+2500 to U+259F, which draw lines
/// and blocks.
pub fn is_plain(character: char) -> bool
    ensures plain { result ≡ is_plain character }
{
    matches!(character, '\u{20}'..='\u{7E}' | '\u{2500}'..='\u{259F}')
}

/// Whether the first character of a text is plain. A text of zero bytes has none.
pub fn begins_plain(text: &str) -> bool
    ensures plain { result ≡ begins_plain (chars text.now) }
{
    match text.chars().next() {
        None => false,
        Some(first) => is_plain(first),
    }
}
