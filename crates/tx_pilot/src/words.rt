//! The words of a line after the first one. Each reader takes a blank and a word, and answers what
//! it read with the bytes after it.
ghost use Rattle.std.specs.Prelude.{◌≡◌, ◌<◌, ◌≤◌, ◌^◌, IfOk, OnOk, length};
ghost use Rattle.tx_read.specs.Answer.{Gives, GivesAtOnce};
ghost use Rattle.tx_select.specs.Texts.{selector_of};
ghost use Rattle.tx_pilot.specs.LineReading.{selector_or, spaced, word_at, key_at, at_least, number_in, number_at, string_at, target_at, told};

use crate::fault::{LineFault, LineKind};
use std::alloc::Global;
use tx_read::{number_at_most, strip_prefix};
use tx_select::{SelectFault, Selector, read_selector};
use tx_text::Text;
use tx_tree::Key;
use tx_tree_file::{as_text, key_of, quoted, split_word};

/// The bytes after one blank.
pub fn spaced(bytes: &[u8]) -> Result<&[u8], LineKind>
    ensures gives { GivesAtOnce (λ rest. rest.now) (λ kind. kind) result (spaced bytes.now) }
    ensures within { IfOk result (λ rest. length rest.now ≤ length bytes.now) }
{
    match strip_prefix(bytes, b" ") {
        Some(rest) => Ok(rest),
        None => Err(LineKind::Expected),
    }
}

// A word of one byte or more.
fn word_at(bytes: &[u8]) -> Result<(&[u8], &[u8]), LineKind>
    ensures { GivesAtOnce (λ found. (found.0.now, found.1.now)) (λ kind. kind) result (word_at bytes.now) }
{
    let Some(rest) = strip_prefix(bytes, b" ") else {
        return Err(LineKind::Expected);
    };
    let (word, rest) = split_word(rest);
    if word.is_empty() {
        return Err(LineKind::Expected);
    }
    Ok((word, rest))
}

/// A key.
#[tactic(auto, unfolding(crate::specs::LineReading::key_at))]
pub fn key_at(bytes: &[u8]) -> Result<(Key, &[u8]), LineKind>
    ensures { GivesAtOnce (λ found. (found.0, found.1.now)) (λ kind. kind) result (key_at bytes.now) }
{
    let (word, rest) = match word_at(bytes) {
        Ok(found) => found,
        Err(kind) => return Err(kind),
    };
    match key_of(word) {
        Some(key) => Ok((key, rest)),
        None => Err(LineKind::BadKey),
    }
}

fn at_least(least: u32, number: u32) -> Option<u32>
    ensures { result ≡ at_least least number }
{
    if least <= number { Some(number) } else { None }
}

// The number that plain digits write, where it is in this range.
fn number_in(least: u32, most: u32, digits: &[u8]) -> Option<u32>
    ensures { result ≡ number_in least most digits.now }
{
    match number_at_most(digits, most) {
        Some(number) => at_least(least, number),
        None => None,
    }
}

/// A number of this range in plain digits.
#[tactic(auto, unfolding(crate::specs::LineReading::number_at))]
pub fn number_at(bytes: &[u8], least: u32, most: u32) -> Result<(u32, &[u8]), LineKind>
    ensures { GivesAtOnce (λ found. (found.0, found.1.now)) (λ kind. kind) result (number_at least most bytes.now) }
{
    let (word, rest) = match word_at(bytes) {
        Ok(found) => found,
        Err(kind) => return Err(kind),
    };
    match number_in(least, most, word) {
        Some(number) => Ok((number, rest)),
        None => Err(LineKind::BadNumber),
    }
}

/// A text in quotes.
#[tactic(auto, unfolding(crate::specs::LineReading::string_at))]
pub fn string_at(alloc: Global, bytes: &[u8]) -> Result<(Text, &[u8]), LineFault>
    ensures gives { Gives (λ found. (found.0, found.1.now)) told result (string_at bytes.now) }
{
    let Some(rest) = strip_prefix(bytes, b" \"") else {
        return Err(LineFault::Line(LineKind::Expected));
    };
    let Some((text, rest)) = quoted(alloc, rest)? else {
        return Err(LineFault::Line(LineKind::Expected));
    };
    let Some(text) = as_text(&text) else {
        return Err(LineFault::Line(LineKind::Expected));
    };
    let text = Text::of(alloc, text)?;
    Ok((text, rest))
}

// The selector that a text is.
fn selector_in(alloc: Global, text: &str) -> Result<Selector, LineFault>
    requires { length text.now < 2 ^ 32 }
    ensures { Gives (λ selector. selector) told result (selector_or (selector_of text.now)) }
{
    match read_selector(alloc, text) {
        Ok(selector) => Ok(selector),
        Err(SelectFault::Grammar { .. }) => Err(LineFault::Line(LineKind::BadSelector)),
        Err(SelectFault::NoMemory) => Err(LineFault::NoMemory),
    }
}

/// A text in quotes that is a selector.
#[tactic(auto, unfolding(crate::specs::LineReading::target_at), using(crate::proofs::WordReaders::string_short))]
pub fn target_at(alloc: Global, bytes: &[u8]) -> Result<(Selector, &[u8]), LineFault>
    requires size { length bytes.now < 2 ^ 32 }
    ensures gives { Gives (λ found. (found.0, found.1.now)) told result (target_at bytes.now) }
    ensures within { IfOk result (λ found. length found.1.now ≤ length bytes.now) }
{
    let (text, rest) = match string_at(alloc, bytes) {
        Ok(found) => found,
        Err(fault) => return Err(fault),
    };
    match selector_in(alloc, text.as_str()) {
        Ok(selector) => Ok((selector, rest)),
        Err(fault) => Err(fault),
    }
}
