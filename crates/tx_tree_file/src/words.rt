//! Words of a line, parted by blanks.
ghost use Rattle.std.specs.Prelude.{◌≡◌, true, false, MatchOption};
ghost use Rattle.std.specs.Str.{is_utf8};
ghost use Rattle.tx_tree_file.specs.Parts.{word, past_word, flag};

use std::str;
use tx_read::strip_prefix;

/// The bytes up to the first blank, and those from it on.
pub fn split_word(bytes: &[u8]) -> (&[u8], &[u8])
    ensures word { result.0.now ≡ word bytes.now }
    ensures rest { result.1.now ≡ past_word bytes.now }
{
    for (i, byte) in bytes.iter().enumerate() {
        if *byte == b' ' {
            return bytes.split_at(i);
        }
    }
    bytes.split_at(bytes.len())
}

/// The bytes as a text, where they are UTF-8.
pub fn as_text(bytes: &[u8]) -> Option<&str>
    ensures { MatchOption result (is_utf8 bytes.now ≡ false) (λ text. (text.now ≡ bytes.now) × (is_utf8 bytes.now ≡ true)) }
{
    match str::from_utf8(bytes) {
        Ok(text) => Some(text),
        Err(_) => None,
    }
}

/// Whether these bytes come next, and what is left then.
pub fn flag<'a>(bytes: &'a [u8], part: &[u8]) -> (bool, &'a [u8])
    ensures there { result.0 ≡ (flag part.now bytes.now).0 }
    ensures rest { result.1.now ≡ (flag part.now bytes.now).1 }
{
    match strip_prefix(bytes, part) {
        Some(rest) => (true, rest),
        None => (false, bytes),
    }
}
