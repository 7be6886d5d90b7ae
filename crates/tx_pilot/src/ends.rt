//! What stands at the end of a line: one reader takes all bytes that are left.
ghost use Rattle.std.specs.Prelude.{◌≡◌, ◌<◌, ◌≤◌, ◌^◌, IfOk, length};
ghost use Rattle.tx_read.specs.Answer.{Gives, GivesAtOnce};
ghost use Rattle.tx_route.specs.declared.input.Input.TheVariants.{AddClass, RemoveClass};
ghost use Rattle.tx_pilot.specs.LineReading.{spaced, last, key_at, number_at, string_at, target_at, two_numbers, class_of, are_declarations, inline_or, last_inline, row_or, last_row, last_theme, told};

use crate::fault::{LineFault, LineKind};
use crate::words::{key_at, number_at, spaced, string_at, target_at};
use std::alloc::{AllocError, Global};
use tx_parse::{SheetFault, read_inline};
use tx_read::strip_prefix;
use tx_route::Input;
use tx_select::Selector;
use tx_text::{Name, Text};
use tx_tree::{Key, NewRow};
use tx_tree_file::{as_text, before_brace, row_of};

/// A key, and nothing else.
pub fn last_key(bytes: &[u8]) -> Result<Key, LineKind>
    ensures { GivesAtOnce (λ key. key) (λ kind. kind) result (last key_at bytes.now) }
{
    let (key, rest) = match key_at(bytes) {
        Ok(found) => found,
        Err(kind) => return Err(kind),
    };
    if rest.is_empty() {
        Ok(key)
    } else {
        Err(LineKind::Expected)
    }
}

/// A number of this range, and nothing else.
pub fn last_number(bytes: &[u8], least: u32, most: u32) -> Result<u32, LineKind>
    ensures { GivesAtOnce (λ number. number) (λ kind. kind) result (last (number_at least most) bytes.now) }
{
    let (number, rest) = match number_at(bytes, least, most) {
        Ok(found) => found,
        Err(kind) => return Err(kind),
    };
    if rest.is_empty() {
        Ok(number)
    } else {
        Err(LineKind::Expected)
    }
}

/// Two numbers, each of its range, and nothing else.
pub fn two_numbers(
    bytes: &[u8],
    least: u32,
    most: u32,
    low: u32,
    high: u32,
) -> Result<(u32, u32), LineKind>
    ensures { GivesAtOnce (λ numbers. numbers) (λ kind. kind) result (two_numbers least most low high bytes.now) }
{
    let (first, rest) = match number_at(bytes, least, most) {
        Ok(found) => found,
        Err(kind) => return Err(kind),
    };
    match last_number(rest, low, high) {
        Ok(second) => Ok((first, second)),
        Err(kind) => Err(kind),
    }
}

/// A text in quotes, and nothing else.
pub fn last_string(alloc: Global, bytes: &[u8]) -> Result<Text, LineFault>
    ensures { Gives (λ text. text) told result (last string_at bytes.now) }
{
    let (text, rest) = match string_at(alloc, bytes) {
        Ok(found) => found,
        Err(fault) => return Err(fault),
    };
    if rest.is_empty() {
        Ok(text)
    } else {
        Err(LineFault::Line(LineKind::Expected))
    }
}

/// A selector in quotes, and nothing else.
pub fn last_target(alloc: Global, bytes: &[u8]) -> Result<Selector, LineFault>
    requires { length bytes.now < 2 ^ 32 }
    ensures { Gives (λ target. target) told result (last target_at bytes.now) }
{
    let (target, rest) = match target_at(alloc, bytes) {
        Ok(found) => found,
        Err(fault) => return Err(fault),
    };
    if rest.is_empty() {
        Ok(target)
    } else {
        Err(LineFault::Line(LineKind::Expected))
    }
}

/// `+NAME` or `-NAME`: the class that the target gets or loses.
pub fn class_of(target: Selector, bytes: &[u8]) -> Result<Input, LineKind>
    ensures { GivesAtOnce (λ input. input) (λ kind. kind) result (class_of target bytes.now) }
{
    match bytes {
        [b'+', name @ ..] => match Name::of_bytes(name) {
            Some(name) => Ok(Input::AddClass { target, name }),
            None => Err(LineKind::Expected),
        },
        [b'-', name @ ..] => match Name::of_bytes(name) {
            Some(name) => Ok(Input::RemoveClass { target, name }),
            None => Err(LineKind::Expected),
        },
        _ => Err(LineKind::Expected),
    }
}

// Whether a text is a list of declarations.
fn are_declarations(alloc: Global, text: &[u8]) -> Result<bool, AllocError>
    requires { length text.now < 2 ^ 32 }
    ensures { IfOk result (λ r. r ≡ are_declarations text.now) }
{
    let Some(text) = as_text(text) else {
        return Ok(false);
    };
    match read_inline(alloc, text) {
        Ok(_) => Ok(true),
        Err(SheetFault::Text { .. }) => Ok(false),
        Err(SheetFault::NoMemory) => Err(AllocError),
    }
}

fn inline_or(alloc: Global, text: &[u8]) -> Result<Text, LineFault>
    requires { length text.now < 2 ^ 32 }
    ensures { Gives (λ text. text) told result (inline_or text.now) }
{
    if !are_declarations(alloc, text)? {
        return Err(LineFault::Line(LineKind::BadInline));
    }
    match as_text(text) {
        Some(text) => Ok(Text::of(alloc, text)?),
        None => Err(LineFault::Line(LineKind::BadInline)),
    }
}

/// Declarations in braces, of which the closing one is the last byte.
#[tactic(auto, unfolding(crate::specs::LineReading::last_inline))]
pub fn last_inline(alloc: Global, bytes: &[u8]) -> Result<Text, LineFault>
    requires { length bytes.now < 2 ^ 32 }
    ensures { Gives (λ text. text) told result (last_inline bytes.now) }
{
    let Some(rest) = strip_prefix(bytes, b" {") else {
        return Err(LineFault::Line(LineKind::Expected));
    };
    match before_brace(rest) {
        Some(text) => inline_or(alloc, text),
        None => Err(LineFault::Line(LineKind::Expected)),
    }
}

fn row_or(alloc: Global, row: NewRow) -> Result<NewRow, LineFault>
    requires { length row.inline < 2 ^ 32 }
    ensures { Gives (λ row. row) told result (row_or row) }
{
    if are_declarations(alloc, row.inline.as_str().as_bytes())? {
        Ok(row)
    } else {
        Err(LineFault::Line(LineKind::BadInline))
    }
}

/// A row as in a tree file, without bindings.
#[tactic(auto, unfolding(crate::specs::LineReading::last_row), using(tx_tree_file::proofs::lemmas::Words::row_short))]
pub fn last_row(alloc: Global, bytes: &[u8]) -> Result<NewRow, LineFault>
    requires { length bytes.now < 2 ^ 32 }
    ensures { Gives (λ row. row) told result (last_row bytes.now) }
{
    let Some(rest) = strip_prefix(bytes, b" ") else {
        return Err(LineFault::Line(LineKind::Expected));
    };
    match row_of(alloc, rest)? {
        Some(row) => row_or(alloc, row),
        None => Err(LineFault::Line(LineKind::Expected)),
    }
}

/// `dark` or `light`: whether the theme is dark.
pub fn last_theme(bytes: &[u8]) -> Result<bool, LineKind>
    ensures { GivesAtOnce (λ dark. dark) (λ kind. kind) result (last_theme bytes.now) }
{
    if bytes == b" dark".as_slice() {
        Ok(true)
    } else if bytes == b" light".as_slice() {
        Ok(false)
    } else {
        Err(LineKind::Expected)
    }
}
