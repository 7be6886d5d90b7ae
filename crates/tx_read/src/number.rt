//! Numbers in plain digits.
ghost use Rattle.std.specs.Prelude.{◌≡◌, ◌-◌, ◌^◌, ◌≤◌, ◌++◌, min, length, decimal, OnOk};
ghost use Rattle.std.specs.Char.{is_ascii_digit};
ghost use Rattle.std.specs.List.{list_all, prefix_len};
ghost use Rattle.tx_read.specs.Number.{number_at_most, is_number, value};

use itoa::Buffer;
use std::alloc::AllocError;

/// How many digits stand at the start.
pub fn digit_count(bytes: &[u8]) -> usize
    ensures count { result ≡ prefix_len is_ascii_digit bytes.now }
    ensures within { result ≤ length bytes.now }
{
    bytes
        .iter()
        .take_while(|byte| byte.is_ascii_digit())
        .count()
}

/// Adds a number at the end, in digits without leading zeros.
pub fn push_number(out: &mut Vec<u8>, number: u64) -> Result<(), AllocError>
    ensures { OnOk result (out.new.items ≡ out.old.items ++ decimal number) }
{
    let mut buffer = Buffer::new();
    out.extend_from_slice(buffer.format(number).as_bytes())
}

/// The number that plain digits write, leading zeros allowed. None where there is another byte or
/// none, and where the number is above the limit.
pub fn number_at_most(bytes: &[u8], limit: u32) -> Option<u32>
    ensures { result ≡ number_at_most limit bytes.now }
{
    if !is_number(bytes) {
        return None;
    }
    let value = capped_value(bytes);
    if value > limit as u64 {
        return None;
    }
    Some(value as u32)
}

fn is_number(bytes: &[u8]) -> bool
    ensures { result ≡ is_number bytes.now }
{
    !bytes.is_empty() && all_digits(bytes)
}

fn all_digits(bytes: &[u8]) -> bool
    ensures { result ≡ list_all is_ascii_digit bytes.now }
{
    bytes.iter().all(|byte| byte.is_ascii_digit())
}

/// The number that digits write, or the greatest one where it is above that.
pub fn capped_value(bytes: &[u8]) -> u64
    ensures { result ≡ min (value bytes.now) (2 ^ 64 - 1) }
{
    let mut value = 0u64;
    for byte in bytes {
        value = value
            .saturating_mul(10)
            .saturating_add(byte.saturating_sub(b'0') as u64);
    }
    value
}
