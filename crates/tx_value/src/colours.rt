//! Colours in values.
ghost use Rattle.std.specs.Prelude.{◌≡◌, ◌≤◌, ◌<◌, Some, IfSome};
ghost use Rattle.tx_lex.specs.Lexemes.{lexeme, lexemes};
ghost use Rattle.tx_value.specs.Numbers.{whole_of_token};
ghost use Rattle.tx_value.specs.HexColours.{hex_digit, hex_channel, rgb_of, hex_colour};
ghost use Rattle.tx_value.specs.Colours.{colour_named, hue_of, are_marks, channels, alpha_of, inked, ink_of, clear, rgb_colour, colour};

use crate::names::is_word;
use crate::numbers::{percent_of, whole_of};
use crate::tables::{COLOURS, RGB, TRANSPARENT};
use crate::theme::theme_name_of;
use crate::value::{Hue, Ink};
use tx_geom::{Colour, Rgb};
use tx_lex::{Token, TokenKind, token_bytes};
use tx_read::{behind, entry, front};

/// The value of a digit to base 16, in small or large letters.
fn hex_digit(byte: u8) -> Option<u8>
    ensures digit { result ≡ hex_digit byte }
    ensures within { IfSome result (λ digit. digit < 16) }
{
    match byte {
        b'0'..=b'9' => Some(byte - b'0'),
        b'a'..=b'f' => Some(byte - b'a' + 10),
        b'A'..=b'F' => Some(byte - b'A' + 10),
        _ => None,
    }
}

/// The channel that two digits write.
fn hex_channel(high: u8, low: u8) -> Option<u8>
    ensures { result ≡ hex_channel high low }
{
    let high = hex_digit(high)?;
    let low = hex_digit(low)?;
    Some(high * 16 + low)
}

fn rgb_of(r: Option<u8>, g: Option<u8>, b: Option<u8>) -> Option<Rgb>
    ensures { result ≡ rgb_of r g b }
{
    Some(Rgb {
        r: r?,
        g: g?,
        b: b?,
    })
}

/// The colour that stands after a `#`: three digits, each of which counts twice, or six.
fn hex_colour(digits: &[u8]) -> Option<Rgb>
    ensures { result ≡ hex_colour digits.now }
{
    match digits {
        [r, g, b] => rgb_of(
            hex_channel(*r, *r),
            hex_channel(*g, *g),
            hex_channel(*b, *b),
        ),
        [r, r_low, g, g_low, b, b_low] => rgb_of(
            hex_channel(*r, *r_low),
            hex_channel(*g, *g_low),
            hex_channel(*b, *b_low),
        ),
        _ => None,
    }
}

#[tactic(auto, unfolding(crate::specs::Colours::colour_named))]
fn colour_named(name: &[u8]) -> Option<Rgb>
    ensures { result ≡ colour_named name.now }
{
    entry(&COLOURS, name)
}

/// A colour of digits, a name, or a predefined variable.
fn hue_of(text: &[u8], token: Token) -> Option<Hue>
    ensures { result ≡ hue_of (lexeme text.now token) }
{
    let bytes = token_bytes(text, token);
    if token.kind.is_hash() {
        return Some(Hue::Plain(hex_colour(behind(bytes, 1))?));
    }
    if token.kind.is_variable() {
        return Some(Hue::Themed(theme_name_of(behind(bytes, 1))?));
    }
    if token.kind.is_name() {
        return Some(Hue::Plain(colour_named(bytes)?));
    }
    None
}

/// A channel of `rgb(..)`.
fn channel_of(text: &[u8], token: Token) -> Option<u8>
    ensures { result ≡ whole_of_token 0 255 (lexeme text.now token) }
{
    Some(whole_of(0, 255, text, token)? as u8)
}

/// Whether marks are those of `(r, g, b)`.
fn are_marks(first: TokenKind, second: TokenKind, third: TokenKind, last: TokenKind) -> bool
    ensures { result ≡ are_marks first second third last }
{
    first.is_mark(b'(') && second.is_mark(b',') && third.is_mark(b',') && last.is_mark(b')')
}

/// `(r, g, b)`.
fn channels(text: &[u8], parts: &[Token]) -> Option<Rgb>
    ensures { result ≡ channels (lexemes text.now parts.now) }
{
    match parts {
        [first, r, second, g, third, b, last] => {
            if !are_marks(first.kind, second.kind, third.kind, last.kind) {
                return None;
            }
            rgb_of(
                channel_of(text, *r),
                channel_of(text, *g),
                channel_of(text, *b),
            )
        }
        _ => None,
    }
}

/// Behind a colour: a percentage, or nothing, which is 100.
fn alpha_of(text: &[u8], parts: &[Token]) -> Option<u8>
    ensures alpha { result ≡ alpha_of (lexemes text.now parts.now) }
    ensures within { IfSome result (λ alpha. alpha ≤ 100) }
{
    match parts {
        [] => Some(100),
        [only] => Some(percent_of(text, *only)? as u8),
        _ => None,
    }
}

fn inked(hue: Hue, alpha: u8) -> Ink
    requires { alpha ≤ 100 }
    ensures { result ≡ inked hue alpha }
{
    match hue {
        Hue::Plain(rgb) => Ink::Fixed(Colour { rgb, alpha }),
        Hue::Themed(name) => Ink::Theme { name, alpha },
    }
}

/// A colour with what stands after it.
fn ink_of(hue: Hue, text: &[u8], rest: &[Token]) -> Option<Ink>
    ensures { result ≡ ink_of (Some hue) (alpha_of (lexemes text.now rest.now)) }
{
    Some(inked(hue, alpha_of(text, rest)?))
}

/// Black that covers nothing.
pub fn clear() -> Ink
    ensures { result ≡ clear }
{
    Ink::Fixed(Colour {
        rgb: Rgb { r: 0, g: 0, b: 0 },
        alpha: 0,
    })
}

/// What stands after `rgb`.
fn rgb_colour(text: &[u8], rest: &[Token]) -> Option<Ink>
    ensures { result ≡ rgb_colour (lexemes text.now rest.now) }
{
    let rgb = channels(text, front(rest, 7))?;
    ink_of(Hue::Plain(rgb), text, behind(rest, 7))
}

/// A colour.
#[tactic(auto, unfolding(crate::specs::Colours::colour))]
pub fn colour(text: &[u8], parts: &[Token]) -> Option<Ink>
    ensures { result ≡ colour (lexemes text.now parts.now) }
{
    let [first, rest @ ..] = parts else {
        return None;
    };
    if is_word(TRANSPARENT, text, *first) {
        return if rest.is_empty() { Some(clear()) } else { None };
    }
    if is_word(RGB, text, *first) {
        return rgb_colour(text, rest);
    }
    ink_of(hue_of(text, *first)?, text, rest)
}
