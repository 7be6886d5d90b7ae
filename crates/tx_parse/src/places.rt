//! Lines and columns.
ghost use Rattle.std.specs.Prelude.{◌≡◌, ◌<◌, ◌^◌};
ghost use Rattle.tx_parse.specs.Places.{line_of, column_of, line_feeds, characters_from, characters_with, begins_character, from_one};

use tx_read::front;

/// Whether a character begins so in UTF-8.
fn begins_character(byte: u8) -> bool
    ensures { result ≡ begins_character byte }
{
    !(byte >= 0x80 && byte <= 0xbf)
}

/// The number from 1 of what has so many before it.
fn from_one(count: usize) -> u32
    ensures { result ≡ from_one count }
{
    if count < 0xffff_ffff {
        count as u32 + 1
    } else {
        0xffff_ffff
    }
}

/// How many line feeds there are.
fn line_feeds(bytes: &[u8]) -> usize
    ensures { result ≡ line_feeds bytes.now }
{
    bytes.iter().filter(|byte| **byte == b'\n').count()
}

/// How many characters stand after the last line feed, with this byte, where so many stood before.
fn characters_with(count: usize, byte: u8) -> usize
    requires { count < 2 ^ 63 }
    ensures { result ≡ characters_with count byte }
{
    if byte == b'\n' {
        0
    } else if begins_character(byte) {
        count + 1
    } else {
        count
    }
}

/// How many characters stand after the last line feed.
fn characters(bytes: &[u8]) -> usize
    ensures { result ≡ characters_from 0 bytes.now }
{
    let mut count = 0;
    for byte in bytes {
        count = characters_with(count, *byte);
    }
    count
}

/// The line of the byte at a place, counted from 1.
pub fn line_of(bytes: &[u8], place: u32) -> u32
    ensures { result ≡ line_of bytes.now place }
{
    from_one(line_feeds(front(bytes, place as usize)))
}

/// The column of the byte at a place, counted from 1 in characters.
pub fn column_of(bytes: &[u8], place: u32) -> u32
    ensures { result ≡ column_of bytes.now place }
{
    from_one(characters(front(bytes, place as usize)))
}
