//! Classes of bytes, and how many of a class stand at the start.
ghost use Rattle.std.specs.Prelude.{◌≡◌, ◌≤◌, length};
ghost use Rattle.std.specs.Char.{is_ascii_alphabetic};
ghost use Rattle.std.specs.List.{prefix_len};
ghost use Rattle.tx_text.specs.Name.{continues_name};
ghost use Rattle.tx_lex.specs.Bytes.{is_blank, is_mark};

use tx_text::continues_name;

/// A blank, a tab, a line feed or a carriage return.
pub fn is_blank(byte: u8) -> bool
    ensures { result ≡ is_blank byte }
{
    byte == b' ' || byte == b'\t' || byte == b'\n' || byte == b'\r'
}

/// One of the marks that are tokens by themselves.
pub fn is_mark(byte: u8) -> bool
    ensures { result ≡ is_mark byte }
{
    b":;,.>*{}()!".contains(&byte)
}

#[tactic(auto, using(crate::proofs::Fronts::front_within))]
pub fn blanks(bytes: &[u8]) -> usize
    ensures count { result ≡ prefix_len is_blank bytes.now }
    ensures within { result ≤ length bytes.now }
{
    bytes.iter().take_while(|byte| is_blank(**byte)).count()
}

/// How many letters, digits, `_` and `-` stand at the start.
#[tactic(auto, using(crate::proofs::Fronts::front_within))]
pub fn name_bytes(bytes: &[u8]) -> usize
    ensures count { result ≡ prefix_len continues_name bytes.now }
    ensures within { result ≤ length bytes.now }
{
    bytes
        .iter()
        .take_while(|byte| continues_name(**byte))
        .count()
}

#[tactic(auto, using(crate::proofs::Fronts::front_within))]
pub fn letters(bytes: &[u8]) -> usize
    ensures count { result ≡ prefix_len is_ascii_alphabetic bytes.now }
    ensures within { result ≤ length bytes.now }
{
    bytes
        .iter()
        .take_while(|byte| byte.is_ascii_alphabetic())
        .count()
}
