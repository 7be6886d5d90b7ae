//! Numbers: an optional `-`, digits and a point, and an optional unit.
ghost use Rattle.std.specs.Prelude.{◌≡◌, ◌≤◌, length, IfSome};
ghost use Rattle.tx_lex.specs.Lexing.{unit_len, decimals_len, behind_point_len, behind_whole_len, whole_len, unsigned_len, number_len, decimals_of, has_many_digits, behind_sign};

use crate::bytes::letters;
use tx_read::digit_count;

/// The most digits of a number before its point.
pub const MOST_WHOLE: usize = 9;

/// The most digits of a number after its point.
pub const MOST_DECIMALS: usize = 18;

fn unit_len(bytes: &[u8]) -> usize
    ensures len { result ≡ unit_len bytes.now }
    ensures within { result ≤ length bytes.now }
{
    match bytes {
        [b'%', ..] => 1,
        _ => letters(bytes),
    }
}

/// The bytes of digits and a unit.
#[tactic(auto, unfolding(crate::specs::Lexing::decimals_len))]
fn decimals_len(bytes: &[u8]) -> usize
    ensures len { result ≡ decimals_len bytes.now }
    ensures within { result ≤ length bytes.now }
{
    let digits = digit_count(bytes);
    let (_, rest) = bytes.split_at(digits);
    digits + unit_len(rest)
}

/// The same, where there is a digit.
fn behind_point_len(bytes: &[u8]) -> Option<usize>
    ensures len { result ≡ behind_point_len bytes.now }
    ensures within { IfSome result (λ n. n ≤ length bytes.now) }
{
    match bytes {
        [b'0'..=b'9', ..] => Some(decimals_len(bytes)),
        _ => None,
    }
}

/// What stands after the whole digits: a point with digits or none, and a unit.
fn behind_whole_len(bytes: &[u8]) -> usize
    ensures len { result ≡ behind_whole_len bytes.now }
    ensures within { result ≤ length bytes.now }
{
    match bytes {
        [b'.', rest @ ..] => match behind_point_len(rest) {
            Some(len) => len + 1,
            None => 0,
        },
        _ => unit_len(bytes),
    }
}

#[tactic(auto, unfolding(crate::specs::Lexing::whole_len))]
fn whole_len(bytes: &[u8]) -> usize
    ensures len { result ≡ whole_len bytes.now }
    ensures within { result ≤ length bytes.now }
{
    let digits = digit_count(bytes);
    let (_, rest) = bytes.split_at(digits);
    digits + behind_whole_len(rest)
}

fn unsigned_len(bytes: &[u8]) -> Option<usize>
    ensures len { result ≡ unsigned_len bytes.now }
    ensures within { IfSome result (λ n. n ≤ length bytes.now) }
{
    match bytes {
        [b'0'..=b'9', ..] => Some(whole_len(bytes)),
        [b'.', rest @ ..] => match behind_point_len(rest) {
            Some(len) => Some(len + 1),
            None => None,
        },
        _ => None,
    }
}

/// The bytes of the number that stands at the start, where there is one.
#[tactic(auto, unfolding(crate::specs::Lexing::number_len))]
pub fn number_len(bytes: &[u8]) -> Option<usize>
    ensures len { result ≡ number_len bytes.now }
    ensures within { IfSome result (λ n. n ≤ length bytes.now) }
{
    match bytes {
        [b'-', rest @ ..] => match unsigned_len(rest) {
            Some(len) => Some(len + 1),
            None => None,
        },
        _ => unsigned_len(bytes),
    }
}

/// How many digits stand after a point.
fn decimals_of(bytes: &[u8]) -> usize
    ensures { result ≡ decimals_of bytes.now }
{
    match bytes {
        [b'.', rest @ ..] => digit_count(rest),
        _ => 0,
    }
}

fn behind_sign(bytes: &[u8]) -> &[u8]
    ensures { result.now ≡ behind_sign bytes.now }
{
    match bytes {
        [b'-', rest @ ..] => rest,
        _ => bytes,
    }
}

/// Whether a number has more digits than are allowed. All written digits count.
pub fn has_many_digits(number: &[u8]) -> bool
    ensures { result ≡ has_many_digits (behind_sign number.now) }
{
    let unsigned = behind_sign(number);
    let digits = digit_count(unsigned);
    let (_, rest) = unsigned.split_at(digits);
    digits > MOST_WHOLE || decimals_of(rest) > MOST_DECIMALS
}
