//! The bytes of a sequence or of a character whose end hasn't come.
ghost use Rattle.std.specs.Prelude.{◌≡◌, ◌∷◌, [], drop};
ghost use Rattle.tx_term.specs.Machine.{longer_by, stage_of};

use arrayvec::ArrayVec;

/// The most bytes of a sequence that does something.
pub const MOST: usize = 64;

pub const ESC: u8 = 0x1B;

/// At most 64 bytes.
pub type Unfinished = ArrayVec<u8, MOST>;

/// Where in the stream the next byte stands: in the text, after ESC, or after `ESC [`.
#[derive(Clone, Copy)]
pub enum Stage {
    InText,
    InEscape,
    InSequence,
}

/// One byte.
pub fn one(byte: u8) -> Unfinished
    ensures { result.items ≡ byte ∷ [] }
{
    let mut bytes = Unfinished::new();
    bytes.push(byte);
    bytes
}

/// ESC and `[`.
pub fn sequence_start() -> Unfinished
    ensures { result.items ≡ 27 ∷ 91 ∷ [] }
{
    let mut bytes = one(ESC);
    bytes.push(b'[');
    bytes
}

/// These bytes and one more, where there is room for it.
pub fn longer_by(bytes: &Unfinished, byte: u8) -> Unfinished
    ensures { result.items ≡ longer_by bytes.now.items byte }
{
    let mut longer = Unfinished::new();
    let Ok(()) = longer.try_extend_from_slice(bytes.as_slice()) else {
        unreachable!()
    };
    if !longer.is_full() {
        longer.push(byte);
    }
    longer
}

pub fn stage_of(bytes: &[u8]) -> Stage
    ensures { result ≡ stage_of bytes.now }
{
    match bytes {
        [ESC] => Stage::InEscape,
        [ESC, b'[', ..] => Stage::InSequence,
        _ => Stage::InText,
    }
}

/// What stands after `ESC [`.
pub fn parameters(bytes: &[u8]) -> &[u8]
    ensures { result.now ≡ drop 2 bytes.now }
{
    match bytes {
        [_, _, rest @ ..] => rest,
        _ => &[],
    }
}
