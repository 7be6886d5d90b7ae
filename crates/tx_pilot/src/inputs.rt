//! The input that the words of a line spell.
ghost use Rattle.std.specs.Prelude.{◌≡◌, ◌<◌, ◌^◌, length};
ghost use Rattle.tx_read.specs.Answer.{Gives};
ghost use Rattle.tx_route.specs.declared.input.Input.TheVariants as input;
ghost use Rattle.tx_pilot.specs.declared.verb.Verb.TheVariants as verb;
ghost use Rattle.tx_pilot.specs.Lines.{is_quote_next};
ghost use Rattle.tx_pilot.specs.LineReading.{point, input_behind, input_by, input_of, told};

use crate::ends::{
    class_of, last_inline, last_key, last_number, last_row, last_string, last_target, last_theme,
    two_numbers,
};
use crate::fault::{LineFault, LineKind};
use crate::verb::{Verb, verb_of};
use crate::words::{spaced, target_at};
use std::alloc::Global;
use tx_geom::Size;
use tx_read::strip_prefix;
use tx_route::Input;
use tx_tree_file::split_word;

// The greatest column and row of a place.
const MOST_PLACE: u32 = 9_999;
// The greatest sides of the screen.
const MOST_WIDTH: u32 = 1_024;

const MOST_HEIGHT: u32 = 512;
// The most that a row advances by at once.
const MOST_ADVANCE: u32 = 1_000_000;

fn is_quote_next(bytes: &[u8]) -> bool
    ensures { result ≡ is_quote_next bytes.now }
{
    strip_prefix(bytes, b" \"").is_some()
}

fn press(bytes: &[u8]) -> Result<Input, LineFault>
    ensures { Gives (λ input. input) told result (input_behind verb.Press bytes.now) }
{
    match last_key(bytes) {
        Ok(key) => Ok(Input::Press(key)),
        Err(kind) => Err(LineFault::Line(kind)),
    }
}

fn click(alloc: Global, bytes: &[u8]) -> Result<Input, LineFault>
    requires { length bytes.now < 2 ^ 32 }
    ensures { Gives (λ input. input) told result (input_behind verb.Click bytes.now) }
{
    if is_quote_next(bytes) {
        return match last_target(alloc, bytes) {
            Ok(target) => Ok(Input::Click(target)),
            Err(fault) => Err(fault),
        };
    }
    match two_numbers(bytes, 0, MOST_PLACE, 0, MOST_PLACE) {
        Ok((x, y)) => Ok(Input::ClickAt { x, y }),
        Err(kind) => Err(LineFault::Line(kind)),
    }
}

fn hover(alloc: Global, bytes: &[u8]) -> Result<Input, LineFault>
    requires { length bytes.now < 2 ^ 32 }
    ensures { Gives (λ input. input) told result (input_behind verb.Hover bytes.now) }
{
    if is_quote_next(bytes) {
        return match last_target(alloc, bytes) {
            Ok(target) => Ok(Input::Hover(target)),
            Err(fault) => Err(fault),
        };
    }
    match two_numbers(bytes, 0, MOST_PLACE, 0, MOST_PLACE) {
        Ok((x, y)) => Ok(Input::HoverAt { x, y }),
        Err(kind) => Err(LineFault::Line(kind)),
    }
}

fn pause(bytes: &[u8]) -> Result<Input, LineFault>
    ensures { Gives (λ input. input) told result (input_behind verb.Pause bytes.now) }
{
    if bytes.is_empty() {
        Ok(Input::Pause)
    } else {
        Err(LineFault::Line(LineKind::Expected))
    }
}

fn resize(bytes: &[u8]) -> Result<Input, LineFault>
    ensures { Gives (λ input. input) told result (input_behind verb.Resize bytes.now) }
{
    match two_numbers(bytes, 1, MOST_WIDTH, 1, MOST_HEIGHT) {
        Ok((width, height)) => Ok(Input::Resize(Size { width, height })),
        Err(kind) => Err(LineFault::Line(kind)),
    }
}

fn class(alloc: Global, bytes: &[u8]) -> Result<Input, LineFault>
    requires { length bytes.now < 2 ^ 32 }
    ensures { Gives (λ input. input) told result (input_behind verb.Class bytes.now) }
{
    let (target, rest) = match target_at(alloc, bytes) {
        Ok(found) => found,
        Err(fault) => return Err(fault),
    };
    let rest = match spaced(rest) {
        Ok(rest) => rest,
        Err(kind) => return Err(LineFault::Line(kind)),
    };
    match class_of(target, rest) {
        Ok(input) => Ok(input),
        Err(kind) => Err(LineFault::Line(kind)),
    }
}

fn text(alloc: Global, bytes: &[u8]) -> Result<Input, LineFault>
    requires { length bytes.now < 2 ^ 32 }
    ensures { Gives (λ input. input) told result (input_behind verb.Text bytes.now) }
{
    let (target, rest) = match target_at(alloc, bytes) {
        Ok(found) => found,
        Err(fault) => return Err(fault),
    };
    match last_string(alloc, rest) {
        Ok(text) => Ok(Input::SetText { target, text }),
        Err(fault) => Err(fault),
    }
}

fn style(alloc: Global, bytes: &[u8]) -> Result<Input, LineFault>
    requires { length bytes.now < 2 ^ 32 }
    ensures { Gives (λ input. input) told result (input_behind verb.Style bytes.now) }
{
    let (target, rest) = match target_at(alloc, bytes) {
        Ok(found) => found,
        Err(fault) => return Err(fault),
    };
    match last_inline(alloc, rest) {
        Ok(text) => Ok(Input::SetInline { target, text }),
        Err(fault) => Err(fault),
    }
}

fn disable(alloc: Global, bytes: &[u8]) -> Result<Input, LineFault>
    requires { length bytes.now < 2 ^ 32 }
    ensures { Gives (λ input. input) told result (input_behind verb.Disable bytes.now) }
{
    match last_target(alloc, bytes) {
        Ok(target) => Ok(Input::Disable(target)),
        Err(fault) => Err(fault),
    }
}

fn enable(alloc: Global, bytes: &[u8]) -> Result<Input, LineFault>
    requires { length bytes.now < 2 ^ 32 }
    ensures { Gives (λ input. input) told result (input_behind verb.Enable bytes.now) }
{
    match last_target(alloc, bytes) {
        Ok(target) => Ok(Input::Enable(target)),
        Err(fault) => Err(fault),
    }
}

fn mount(alloc: Global, bytes: &[u8]) -> Result<Input, LineFault>
    requires { length bytes.now < 2 ^ 32 }
    ensures { Gives (λ input. input) told result (input_behind verb.Mount bytes.now) }
{
    let (target, rest) = match target_at(alloc, bytes) {
        Ok(found) => found,
        Err(fault) => return Err(fault),
    };
    match last_row(alloc, rest) {
        Ok(row) => Ok(Input::Mount { target, row }),
        Err(fault) => Err(fault),
    }
}

fn remove(alloc: Global, bytes: &[u8]) -> Result<Input, LineFault>
    requires { length bytes.now < 2 ^ 32 }
    ensures { Gives (λ input. input) told result (input_behind verb.Remove bytes.now) }
{
    match last_target(alloc, bytes) {
        Ok(target) => Ok(Input::Remove(target)),
        Err(fault) => Err(fault),
    }
}

fn before(alloc: Global, bytes: &[u8]) -> Result<Input, LineFault>
    requires { length bytes.now < 2 ^ 32 }
    ensures { Gives (λ input. input) told result (input_behind verb.Before bytes.now) }
{
    let (target, rest) = match target_at(alloc, bytes) {
        Ok(found) => found,
        Err(fault) => return Err(fault),
    };
    match last_target(alloc, rest) {
        Ok(other) => Ok(Input::Before { target, other }),
        Err(fault) => Err(fault),
    }
}

fn advance(alloc: Global, bytes: &[u8]) -> Result<Input, LineFault>
    requires { length bytes.now < 2 ^ 32 }
    ensures { Gives (λ input. input) told result (input_behind verb.Advance bytes.now) }
{
    let (target, rest) = match target_at(alloc, bytes) {
        Ok(found) => found,
        Err(fault) => return Err(fault),
    };
    match last_number(rest, 0, MOST_ADVANCE) {
        Ok(by) => Ok(Input::Advance { target, by }),
        Err(kind) => Err(LineFault::Line(kind)),
    }
}

fn theme(bytes: &[u8]) -> Result<Input, LineFault>
    ensures { Gives (λ input. input) told result (input_behind verb.Theme bytes.now) }
{
    match last_theme(bytes) {
        Ok(dark) => Ok(Input::Theme { dark }),
        Err(kind) => Err(LineFault::Line(kind)),
    }
}

fn input_behind(alloc: Global, verb: Verb, bytes: &[u8]) -> Result<Input, LineFault>
    requires { length bytes.now < 2 ^ 32 }
    ensures { Gives (λ input. input) told result (input_behind verb bytes.now) }
{
    match verb {
        Verb::Press => press(bytes),
        Verb::Click => click(alloc, bytes),
        Verb::Hover => hover(alloc, bytes),
        Verb::Pause => pause(bytes),
        Verb::Resize => resize(bytes),
        Verb::Class => class(alloc, bytes),
        Verb::Text => text(alloc, bytes),
        Verb::Style => style(alloc, bytes),
        Verb::Disable => disable(alloc, bytes),
        Verb::Enable => enable(alloc, bytes),
        Verb::Mount => mount(alloc, bytes),
        Verb::Remove => remove(alloc, bytes),
        Verb::Before => before(alloc, bytes),
        Verb::Advance => advance(alloc, bytes),
        Verb::Theme => theme(bytes),
    }
}

/// The input of bytes that have no line feed.
#[tactic(auto, unfolding(crate::specs::LineReading::input_of), using(crate::proofs::WordReaders::past_short))]
pub fn input_of(alloc: Global, line: &[u8]) -> Result<Input, LineFault>
    requires { length line.now < 2 ^ 32 }
    ensures { Gives (λ input. input) told result (input_of line.now) }
{
    let (word, rest) = split_word(line);
    match verb_of(word) {
        Some(verb) => input_behind(alloc, verb, rest),
        None => Err(LineFault::Line(LineKind::Expected)),
    }
}
