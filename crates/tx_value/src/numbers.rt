//! Numbers and sizes in values.
ghost use Rattle.std.specs.Prelude.{◌≡◌, ◌≤◌, ◌<◌, ◌^◌, true, length, IfSome, IsTrue, None, if◌then◌else◌};
ghost use Rattle.std.specs.Char.{is_ascii_digit};
ghost use Rattle.std.specs.List.{list_all};
ghost use Rattle.tx_lex.specs.Digits.{most_whole, most_decimals};
ghost use Rattle.tx_lex.specs.Lexemes.{lexeme};
ghost use Rattle.tx_value.specs.Numbers.{digits, behind_digits, numeral_of, has_digits, amount, unit_of, sized, scalar_of, auto, size_of, is_share, limit_of, short_number, whole_of_token, signed_number, signed_of, is_percent_sign, percent_of};

use crate::names::is_word;
use crate::tables::{AUTO, UNITS};
use tx_frac::{Frac, Scalar, Unit};
use tx_lex::{MOST_DECIMALS, MOST_WHOLE, Token, token_bytes};
use tx_read::{behind, capped_value, digit_count, entry, front, number_at_most};

/// The digits at the start.
#[tactic(auto, using(crate::proofs::Digits::digits_all))]
fn digits(bytes: &[u8]) -> &[u8]
    ensures front { result.now ≡ digits bytes.now }
    ensures all { list_all is_ascii_digit result.now ≡ true }
{
    front(bytes, digit_count(bytes))
}

/// What stands after the digits at the start.
fn behind_digits(bytes: &[u8]) -> &[u8]
    ensures { result.now ≡ behind_digits bytes.now }
{
    behind(bytes, digit_count(bytes))
}

/// Whether there is a digit, and no more than a number may have.
fn has_digits(whole: &[u8], decimals: &[u8]) -> bool
    ensures within { IsTrue result → (length whole.now ≤ most_whole) × (length decimals.now ≤ most_decimals) }
    ensures value { result ≡ has_digits whole.now decimals.now }
{
    let some = !whole.is_empty() || !decimals.is_empty();
    some && whole.len() <= MOST_WHOLE && decimals.len() <= MOST_DECIMALS
}

/// The number that digits and decimals write.
#[tactic(auto, using(crate::proofs::Digits::power_small))]
fn amount(whole: &[u8], decimals: &[u8]) -> Frac
    requires whole_digits { list_all is_ascii_digit whole.now ≡ true }
    requires decimal_digits { list_all is_ascii_digit decimals.now ≡ true }
    requires short_whole { length whole.now ≤ most_whole }
    requires short_decimals { length decimals.now ≤ most_decimals }
    ensures { result ≡ amount whole.now decimals.now }
{
    let scale = 10u64.pow(decimals.len() as u32);
    let number = capped_value(whole) as u128 * scale as u128 + capped_value(decimals) as u128;
    match Frac::new(number as i128, scale as i128) {
        Some(amount) => amount,
        None => unreachable!(),
    }
}

#[tactic(auto, unfolding(crate::specs::Numbers::unit_of))]
fn unit_of(name: &[u8]) -> Option<Unit>
    ensures { result ≡ unit_of name.now }
{
    entry(&UNITS, name)
}

/// The number with its unit.
fn sized(whole: &[u8], decimals: &[u8], unit: &[u8]) -> Option<Scalar>
    requires whole_digits { list_all is_ascii_digit whole.now ≡ true }
    requires decimal_digits { list_all is_ascii_digit decimals.now ≡ true }
    ensures { result ≡ sized (record { whole = whole.now; decimals = decimals.now; unit = unit.now }) (unit_of unit.now) }
{
    let unit = unit_of(unit)?;
    if !has_digits(whole, decimals) {
        return None;
    }
    Some(Scalar {
        value: amount(whole, decimals),
        unit,
    })
}

fn written_size(bytes: &[u8]) -> Option<Scalar>
    ensures { result ≡ sized (numeral_of bytes.now) (unit_of (numeral_of bytes.now).unit) }
{
    let whole = digits(bytes);
    match behind_digits(bytes) {
        [b'.', rest @ ..] => sized(whole, digits(rest), behind_digits(rest)),
        rest => sized(whole, &[], rest),
    }
}

/// A number without a sign, with one of the units or none.
#[tactic(auto, unfolding(crate::specs::Numbers::scalar_of))]
pub fn scalar_of(text: &[u8], token: Token) -> Option<Scalar>
    ensures { result ≡ scalar_of (lexeme text.now token) }
{
    if token.kind.is_number() {
        written_size(token_bytes(text, token))
    } else {
        None
    }
}

fn auto() -> Scalar
    ensures { result ≡ auto }
{
    Scalar {
        value: Frac::whole(0),
        unit: Unit::Auto,
    }
}

/// The same, or `auto`.
pub fn size_of(text: &[u8], token: Token) -> Option<Scalar>
    ensures { result ≡ size_of (lexeme text.now token) }
{
    if is_word(AUTO, text, token) {
        Some(auto())
    } else {
        scalar_of(text, token)
    }
}

pub fn is_share(unit: Unit) -> bool
    ensures { result ≡ is_share unit }
{
    matches!(unit, Unit::Fr)
}

/// A size that is no share of what is left.
pub fn limit_of(text: &[u8], token: Token) -> Option<Scalar>
    ensures { result ≡ limit_of (lexeme text.now token) }
{
    match scalar_of(text, token) {
        Some(size) if !is_share(size.unit) => Some(size),
        _ => None,
    }
}

/// The number that digits alone write, at most as many as a number may have.
fn short_number(most: u32, bytes: &[u8]) -> Option<u32>
    ensures number { result ≡ short_number most bytes.now }
    ensures within { IfSome result (λ n. n ≤ most) }
{
    if bytes.len() <= MOST_WHOLE {
        number_at_most(bytes, most)
    } else {
        None
    }
}

/// A number without unit, sign and decimals, from one number to another.
pub fn whole_of(least: u32, most: u32, text: &[u8], token: Token) -> Option<u32>
    ensures number { result ≡ whole_of_token least most (lexeme text.now token) }
    ensures within { IfSome result (λ n. n ≤ most) }
{
    if !token.kind.is_number() {
        return None;
    }
    match short_number(most, token_bytes(text, token)) {
        Some(number) if least <= number => Some(number),
        _ => None,
    }
}

fn signed_number(most: u32, bytes: &[u8]) -> Option<i32>
    requires { most < 2 ^ 31 }
    ensures { result ≡ signed_number most bytes.now }
{
    match bytes {
        [b'-', rest @ ..] => Some(-(short_number(most, rest)? as i32)),
        _ => Some(short_number(most, bytes)? as i32),
    }
}

/// The same with an optional `-`, from -most to most.
pub fn signed_of(most: u32, text: &[u8], token: Token) -> Option<i32>
    requires { most < 2 ^ 31 }
    ensures { result ≡ signed_of most (lexeme text.now token) }
{
    if token.kind.is_number() {
        signed_number(most, token_bytes(text, token))
    } else {
        None
    }
}

fn written_percent(bytes: &[u8]) -> Option<u32>
    ensures percent { result ≡ (if is_percent_sign (behind_digits bytes.now) then short_number 100 (digits bytes.now) else None) }
    ensures within { IfSome result (λ n. n ≤ 100) }
{
    if behind_digits(bytes) == b"%".as_slice() {
        short_number(100, digits(bytes))
    } else {
        None
    }
}

/// A whole number from 0 to 100 with `%`.
pub fn percent_of(text: &[u8], token: Token) -> Option<u32>
    ensures percent { result ≡ percent_of (lexeme text.now token) }
    ensures within { IfSome result (λ n. n ≤ 100) }
{
    if token.kind.is_number() {
        written_percent(token_bytes(text, token))
    } else {
        None
    }
}
