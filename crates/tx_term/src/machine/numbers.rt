//! The numbers of a sequence.
ghost use Rattle.std.specs.Prelude.{◌≡◌, ◌<◌, length};
ghost use Rattle.tx_term.specs.Numbers.{numbers_in};
ghost use Rattle.tx_term.specs.Sequence.{with_digit, numbers_of, private_numbers_of};

use crate::machine::unfinished::MOST;
use arrayvec::ArrayVec;

/// At most 64 numbers, since each has a byte or more.
pub type Numbers = ArrayVec<u32, MOST>;

/// A number with one more digit, or one that begins. What is past the type counts as its greatest
/// number.
fn with_digit(before: Option<u32>, digit: u8) -> u32
    ensures { result ≡ with_digit before digit }
{
    let before = before.unwrap_or(0);
    let digit = digit.saturating_sub(b'0');
    before.saturating_mul(10).saturating_add(digit as u32)
}

/// The numbers between semicolons. There are none where one is missing, or where another byte
/// stands there.
pub fn numbers_of(bytes: &[u8]) -> Option<Numbers>
    requires short { length bytes.now < 64 }
    ensures { numbers_in result ≡ numbers_of bytes.now }
{
    let mut numbers = Numbers::new();
    let mut here: Option<u32> = None;
    for byte in bytes {
        if byte.is_ascii_digit() {
            here = Some(with_digit(here, *byte));
        } else if *byte == b';' {
            let Some(number) = here else {
                return None;
            };
            numbers.push(number);
            here = None;
        } else {
            return None;
        }
    }
    let Some(number) = here else {
        return None;
    };
    numbers.push(number);
    Some(numbers)
}

/// The numbers after a question mark.
pub fn private_numbers_of(bytes: &[u8]) -> Option<Numbers>
    requires short { length bytes.now < 64 }
    ensures { numbers_in result ≡ private_numbers_of bytes.now }
{
    match bytes {
        [b'?', rest @ ..] => numbers_of(rest),
        _ => None,
    }
}
