//! Which rows have a spelling in a tree file.

ghost use Rattle.std.specs.Prelude.{◌≡◌};
ghost use Rattle.std.specs.List.{list_all};
ghost use Rattle.tx_tree.specs.Spelled.{no_repeats, kind_is_spelled, begins_capital, byte_is_spelled, no_line_feed, key_is_spelled, private_is_spelled, total_is_spelled, is_spelled};

use crate::classes::has_name;
use crate::{Bind, Key, Kind, Name, Private, Row};

// The greatest total of a progress bar.
const MOST_TOTAL: u32 = 1_000_000;

/// Whether a row has a spelling.
pub fn is_spelled(row: &Row) -> bool
    ensures { result ≡ is_spelled row.now }
{
    no_repeats(row.classes.as_slice())
        && kind_is_spelled(row.kind)
        && text_is_spelled(row.text.as_str())
        && inline_is_spelled(row.inline.as_str())
        && binds_are_spelled(row.binds.as_slice())
        && private_is_spelled(row.kind, row.private)
}

// Whether no name stands twice.
fn no_repeats(names: &[Name]) -> bool
    ensures { result ≡ no_repeats names.now }
{
    for (place, name) in names.iter().enumerate() {
        if has_name(&names[place + 1..], name) {
            return false;
        }
    }
    true
}

// Whether a kind has a spelling.
fn kind_is_spelled(kind: Kind) -> bool
    ensures { result ≡ kind_is_spelled kind }
{
    match kind {
        Kind::Handed(name) => begins_capital(name.as_bytes())
            && Kind::named(name.as_str()).is_none(),
        _ => true,
    }
}

/// Whether the first byte is a capital letter.
pub fn begins_capital(bytes: &[u8]) -> bool
    ensures { result ≡ begins_capital bytes.now }
{
    match bytes {
        [first, ..] => first.is_ascii_uppercase(),
        [] => false,
    }
}

// Whether a text has a spelling.
fn text_is_spelled(text: &str) -> bool
    ensures { result ≡ list_all byte_is_spelled text.now }
{
    text.as_bytes().iter().all(|byte| byte_is_spelled(*byte))
}

fn byte_is_spelled(byte: u8) -> bool
    ensures { result ≡ byte_is_spelled byte }
{
    32 <= byte || byte == b'\t' || byte == b'\n'
}

// Whether an inline text has a spelling.
fn inline_is_spelled(text: &str) -> bool
    ensures { result ≡ list_all no_line_feed text.now }
{
    text.as_bytes().iter().all(|byte| *byte != b'\n')
}

// Whether all bindings have a spelling.
fn binds_are_spelled(binds: &[Bind]) -> bool
    ensures { result ≡ list_all (λ bind. key_is_spelled bind.key) binds.now }
{
    binds.iter().all(|bind| key_is_spelled(bind.key))
}

// Whether a key has a spelling.
fn key_is_spelled(key: Key) -> bool
    ensures { result ≡ key_is_spelled key }
{
    match key {
        Key::Char(c) => ' ' <= c && !('\u{7f}' <= c && c <= '\u{9f}'),
        Key::Function(n) => 1 <= n && n <= 12,
        Key::Ctrl(byte) => b'a' <= byte && byte <= b'z',
        _ => true,
    }
}

// Whether a private state has a spelling at a kind.
fn private_is_spelled(kind: Kind, private: Private) -> bool
    ensures { result ≡ private_is_spelled kind private }
{
    private.has_form(kind) && total_is_spelled(private)
}

// Whether the total of a progress bar has a spelling.
fn total_is_spelled(private: Private) -> bool
    ensures { result ≡ total_is_spelled private }
{
    match private {
        Private::Bar { total, .. } => 1 <= total && total <= MOST_TOTAL,
        _ => true,
    }
}
