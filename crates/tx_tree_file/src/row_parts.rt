//! The parts of a row line, each with the bytes after it.
ghost use Rattle.std.specs.Prelude.{◌≡◌, option_map, option_copied, not, bytes_eq, decimal, codes, false, IfOk};
ghost use Rattle.tx_tree.specs.Spelled.{no_repeats};
ghost use Rattle.tx_read.specs.Pieces.{behind};
ghost use Rattle.tx_tree_file.specs.Parts.{kind_of, id_of, classes_of, total_of, is_total, private_of, bar_by, unescaped, is_plain, quoted, some_text, text_of, before_brace, inline_of};

use crate::words::{as_text, flag, split_word};
use std::alloc::{AllocError, Global};
use std::collections::HashSet;
use tx_read::{number_at_most, strip_prefix};
use tx_tree::{Kind, Name, Private, Text, begins_capital};

// The greatest total of a progress bar.
const MOST_TOTAL: u32 = 1_000_000;

/// The kind that a word names: a built-in one, or else one that is handed in.
pub fn kind_of(word: &[u8]) -> Option<Kind>
    ensures { result ≡ kind_of word.now }
{
    let Some(name) = as_text(word) else {
        return None;
    };
    if let Some(kind) = Kind::named(name) {
        return Some(kind);
    }
    match Name::of_bytes(word) {
        Some(name) if begins_capital(word) => Some(Kind::Handed(name)),
        _ => None,
    }
}

/// `#id`, where it stands there.
pub fn id_of(bytes: &[u8]) -> Option<(Option<Name>, &[u8])>
    ensures { option_map (λ found. (found.0, found.1.now)) result ≡ id_of bytes.now }
{
    let Some(rest) = strip_prefix(bytes, b" #") else {
        return Some((None, bytes));
    };
    let (word, rest) = split_word(rest);
    match Name::of_bytes(word) {
        Some(name) => Some((Some(name), rest)),
        None => None,
    }
}

fn no_repeats(alloc: Global, names: &[Name]) -> Result<bool, AllocError>
    ensures { IfOk result (λ r. r ≡ no_repeats names.now) }
{
    let mut later = HashSet::new(alloc);
    let mut left = names.len();
    while left > 0 {
        left -= 1;
        let added = later.insert(names[left])?;
        if !added {
            return Ok(false);
        }
    }
    Ok(true)
}

/// `.class` as often as it stands there, without repeats.
pub fn classes_of(alloc: Global, bytes: &[u8]) -> Result<Option<(Vec<Name>, &[u8])>, AllocError>
    ensures { IfOk result (λ r. option_map (λ found. (found.0.items, found.1.now)) r ≡ classes_of bytes.now) }
{
    let mut classes = Vec::new(alloc);
    let mut rest = bytes;
    while let Some(behind) = strip_prefix(rest, b" .") {
        let (word, next) = split_word(behind);
        let Some(name) = Name::of_bytes(word) else {
            return Ok(None);
        };
        classes.push(name)?;
        rest = next;
    }
    if !no_repeats(alloc, &classes)? {
        return Ok(None);
    }
    Ok(Some((classes, rest)))
}

fn is_total(digits: &[u8], total: u32) -> bool
    ensures { result ≡ is_total digits.now total }
{
    let mut buffer = itoa::Buffer::new();
    buffer.format(total).as_bytes() == digits && (1 <= total && !(total == 100))
}

fn total_of(digits: &[u8]) -> Option<u32>
    ensures { result ≡ total_of digits.now }
{
    let Some(total) = number_at_most(digits, MOST_TOTAL) else {
        return None;
    };
    if is_total(digits, total) {
        Some(total)
    } else {
        None
    }
}

fn bar_of(bytes: &[u8]) -> Option<(Private, &[u8])>
    ensures { option_map (λ found. (found.0, found.1.now)) result ≡ bar_by (behind (codes " total ") bytes.now) bytes.now }
{
    let Some(rest) = strip_prefix(bytes, b" total ") else {
        return Some((
            Private::Bar {
                done: 0,
                total: 100,
            },
            bytes,
        ));
    };
    let (word, rest) = split_word(rest);
    match total_of(word) {
        Some(total) => Some((Private::Bar { done: 0, total }, rest)),
        None => None,
    }
}

/// `on` of a kind that is on or off, and `total N` of one that has a total, where they stand there.
pub fn private_of(kind: Kind, bytes: &[u8]) -> Option<(Private, &[u8])>
    ensures { option_map (λ found. (found.0, found.1.now)) result ≡ private_of kind bytes.now }
{
    match Private::fresh(kind, 0) {
        Private::On(_) => {
            let (on, rest) = flag(bytes, b" on");
            Some((Private::On(on), rest))
        }
        Private::Bar { .. } => bar_of(bytes),
        _ => Some((Private::Plain, bytes)),
    }
}

// Whether a byte stands for itself in quotes.
fn is_plain(byte: u8) -> bool
    ensures { result ≡ is_plain byte }
{
    32 <= byte || byte == b'\t'
}

// What a byte after a backslash stands for.
fn escaped(byte: u8) -> Option<u8>
    ensures { result ≡ unescaped byte }
{
    match byte {
        b'"' => Some(b'"'),
        b'\\' => Some(b'\\'),
        b'n' => Some(b'\n'),
        _ => None,
    }
}

/// The text up to the closing quote, and the bytes after that; the opening one stands before.
/// `\"`, `\\` and `\n` stand for a quote, a backslash and a line feed; no other byte below 0x20
/// but the tab may stand there. None where the bytes go on otherwise or have no closing quote.
pub fn quoted(alloc: Global, bytes: &[u8]) -> Result<Option<(Vec<u8>, &[u8])>, AllocError>
    ensures { IfOk result (λ r. option_map (λ found. (found.0.items, found.1.now)) r ≡ quoted false bytes.now) }
{
    let mut text = Vec::new(alloc);
    let mut escape = false;
    for (i, byte) in bytes.iter().enumerate() {
        if escape {
            let Some(meant) = escaped(*byte) else {
                return Ok(None);
            };
            text.push(meant)?;
            escape = false;
        } else if *byte == b'"' {
            let (_, rest) = bytes.split_at(i + 1);
            return Ok(Some((text, rest)));
        } else if *byte == b'\\' {
            escape = true;
        } else if is_plain(*byte) {
            text.push(*byte)?;
        } else {
            return Ok(None);
        }
    }
    Ok(None)
}

// A text of these bytes, where they are UTF-8 and there are some.
fn some_text(alloc: Global, bytes: &[u8]) -> Result<Option<Text>, AllocError>
    ensures { IfOk result (λ r. r ≡ some_text bytes.now) }
{
    let Some(text) = as_text(bytes) else {
        return Ok(None);
    };
    if text.is_empty() {
        return Ok(None);
    }
    let text = Text::of(alloc, text)?;
    Ok(Some(text))
}

/// The text in quotes, where it stands there.
pub fn text_of(alloc: Global, bytes: &[u8]) -> Result<Option<(Text, &[u8])>, AllocError>
    ensures { IfOk result (λ r. option_map (λ found. (found.0, found.1.now)) r ≡ text_of bytes.now) }
{
    let Some(rest) = strip_prefix(bytes, b" \"") else {
        return Ok(Some((Text::empty(alloc), bytes)));
    };
    let Some((text, rest)) = quoted(alloc, rest)? else {
        return Ok(None);
    };
    match some_text(alloc, &text)? {
        Some(text) => Ok(Some((text, rest))),
        None => Ok(None),
    }
}

/// What stands before a closing brace that is the last byte.
pub fn before_brace(bytes: &[u8]) -> Option<&[u8]>
    ensures { option_map (λ text. text.now) result ≡ before_brace bytes.now }
{
    bytes.strip_suffix(b"}")
}

/// The inline text in braces, where it stands there, and nothing else.
pub fn inline_of(alloc: Global, bytes: &[u8]) -> Result<Option<Text>, AllocError>
    ensures { IfOk result (λ r. r ≡ inline_of bytes.now) }
{
    let Some(rest) = strip_prefix(bytes, b" {") else {
        if !bytes.is_empty() {
            return Ok(None);
        }
        return Ok(Some(Text::empty(alloc)));
    };
    match before_brace(rest) {
        Some(text) => some_text(alloc, text),
        None => Ok(None),
    }
}
