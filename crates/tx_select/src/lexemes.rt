//! The tokens that a selector has.
ghost use Rattle.std.specs.Prelude.{◌≡◌};
ghost use Rattle.tx_select.specs.Lexemes.{begins_part, begins_compound, is_child_mark};
ghost use Rattle.tx_select.specs.Pseudo.{pseudo_name, pseudo_of};

use crate::value::PseudoName;
use tx_lex::TokenKind;

// All of them.
const PSEUDO_NAMES: [PseudoName; 10] = [
    PseudoName::Hover,
    PseudoName::Focus,
    PseudoName::FocusWithin,
    PseudoName::Blur,
    PseudoName::Enabled,
    PseudoName::Disabled,
    PseudoName::Dark,
    PseudoName::Light,
    PseudoName::FirstChild,
    PseudoName::LastChild,
];

/// Whether a part begins so.
pub fn begins_part(kind: TokenKind) -> bool
    ensures { result ≡ begins_part kind }
{
    kind.is_hash() || kind.is_mark(b'.') || kind.is_mark(b':')
}

/// Whether a compound begins so.
pub fn begins_compound(kind: TokenKind) -> bool
    ensures { result ≡ begins_compound kind }
{
    kind.is_name() || kind.is_mark(b'*') || begins_part(kind)
}

/// Whether this joins a child.
pub fn is_child_mark(kind: TokenKind) -> bool
    ensures { result ≡ is_child_mark kind }
{
    kind.is_mark(b'>')
}

/// The pseudo-class of this name.
#[tactic(auto, unfolding(crate::specs::Pseudo::pseudo_of))]
pub fn pseudo_of(name: &[u8]) -> Option<PseudoName>
    ensures { result ≡ pseudo_of name.now }
{
    PSEUDO_NAMES
        .iter()
        .copied()
        .find(|pseudo| pseudo.name().as_bytes() == name)
}
