//! Names: ids, classes, variables, and kinds that are handed in.

ghost use Rattle.std.specs.Prelude.{◌≡◌, ◌-◌, ◌≤◌, ◌↔◌, ◌++◌, length, replicate, IsTrue, Some, refl};
ghost use Rattle.std.specs.List.{list_all};
ghost use Rattle.std.specs.Option.{SomeIff};
ghost use Rattle.std.specs.Ordering.{nat_cmp};
ghost use Rattle.std.specs.Cmp.{partial_equiv_from_equiv};
ghost use Rattle.std.specs.Cmp.Lexicographic.{slice_cmp, nat_list_eq_equiv, nat_list_cmp_total, texts_po, texts_ties};
ghost use Rattle.std.specs.Cmp.Rules.{hashing};
ghost use Rattle.std.specs.Hash as fed;
ghost use Rattle.std.specs.Str.{bytes_eq};
ghost use Rattle.std.proofs.Common.{rules};
ghost use Rattle.tx_text.specs.Name.{IsName, is_name, begins_name, continues_name};

use crate::Items;
use std::cmp::Ordering;
use std::hash::{Hash, Hasher};
use std::marker::Model;
use std::str;

// The most bytes that a name has.
const MOST_BYTES: usize = 64;

/// A name of 1 to 64 bytes: a letter or `_`, followed by letters, digits, `_` and `-`, all ASCII.
///
/// It is seen as the list of its bytes. Names are ordered as their bytes are.
#[derive(Clone, Copy, Debug)]
pub struct Name {
    bytes: [u8; MOST_BYTES],
    len: u8,
}

/// A list of names.
pub type Names = Items<Name>;

impl Model for Name {
    ghost use Rattle.std.specs.Prelude.{List, ℕ, ◌-◌, ◌++◌, length, take, replicate};
    ghost use Rattle.tx_text.specs.Name.{IsStored};
    ghost use Rattle.tx_text.specs.StoredName.{bytes-stored, len-stored};

    ghost Value = { List ℕ };

    ghost view = { λ n. take n.len n.bytes };

    ghost invariant = { λ n. IsStored n.bytes n.len };

    ghost inverse = { λ v. record { bytes = v ++ replicate (64 - length v) 0; len = length v } };

    ghost inverse_ok = { λ n h i. record { bytes = bytes-stored n.bytes n.len h i; len = len-stored n.bytes n.len h i } };
}

impl Name {
    /// The name that `text` spells, and None exactly where it spells none.
    pub fn of(text: &str) -> Option<Name>
        ensures { SomeIff result (IsName text.now) text.now }
    {
        Name::of_bytes(text.as_bytes())
    }

    /// The name that bytes spell, and None exactly where they spell none.
    pub fn of_bytes(spelling: &[u8]) -> Option<Name>
        ensures { SomeIff result (IsName spelling.now) spelling.now }
    {
        if !is_name(spelling) {
            return None;
        }
        let bytes = padded(spelling);
        let len = spelling.len() as u8;
        Some(Name { bytes, len })
    }

    /// The name as a text.
    pub fn as_str(&self) -> &str
        ensures text { result.now ≡ self.now }
    {
        str::from_utf8(self.as_bytes()).unwrap()
    }

    /// The bytes of the name.
    pub fn as_bytes(&self) -> &[u8]
        ensures bytes { result.now ≡ self.now }
        ensures name { IsName self.now }
    {
        &self.bytes[..self.len as usize]
    }
}

impl PartialEq for Name {
    ghost eq = { bytes_eq };

    ghost laws = { partial_equiv_from_equiv nat_list_eq_equiv };

    fn eq(&self, other: &Name) -> bool
        ensures same { IsTrue result ↔ (self.now ≡ other.now) }
    {
        self.as_bytes() == other.as_bytes()
    }
}

impl Eq for Name {
    ghost laws = { nat_list_eq_equiv };
}

impl PartialOrd for Name {
    ghost partial_cmp = { λ a b. Some (slice_cmp nat_cmp a b) };

    ghost laws = { texts_po };

    fn partial_cmp(&self, other: &Name) -> Option<Ordering> {
        Some(self.cmp(other))
    }
}

impl Ord for Name {
    ghost cmp = { slice_cmp nat_cmp };

    ghost total = { nat_list_cmp_total };

    ghost matches_partial_cmp = { λ a b. refl };

    ghost matches_eq = { texts_ties };

    fn cmp(&self, other: &Name) -> Ordering {
        self.as_bytes().cmp(other.as_bytes())
    }
}

impl Hash for Name {
    ghost hash_input = { fed.str };

    ghost respects_eq = { Prim.search (hashing, rules) };

    fn hash<H: Hasher>(&self, state: &mut H) {
        self.as_str().hash(state);
    }
}

// The bytes with zeros after them.
fn padded(front: &[u8]) -> [u8; MOST_BYTES]
    requires { length front.now ≤ 64 }
    ensures { result ≡ front.now ++ replicate (64 - length front.now) 0 }
{
    let mut bytes = [0; MOST_BYTES];
    bytes[..front.len()].copy_from_slice(front);
    bytes
}

// Whether the bytes spell a name.
fn is_name(bytes: &[u8]) -> bool
    ensures { result ≡ is_name bytes.now }
{
    match bytes {
        [first, rest @ ..] => {
            begins_name(*first) && rest.len() < MOST_BYTES && all_continue(rest)
        }
        [] => false,
    }
}

/// Whether a name may begin with the byte: a letter or `_`.
pub fn begins_name(byte: u8) -> bool
    ensures { result ≡ begins_name byte }
{
    byte.is_ascii_alphabetic() || byte == b'_'
}

// Whether each byte may stand in a name after the first.
fn all_continue(bytes: &[u8]) -> bool
    ensures { result ≡ list_all continues_name bytes.now }
{
    bytes.iter().all(|byte| continues_name(*byte))
}

/// Whether the byte may stand in a name after the first: a letter, a digit, `_` or `-`.
pub fn continues_name(byte: u8) -> bool
    ensures { result ≡ continues_name byte }
{
    byte.is_ascii_alphanumeric() || byte == b'_' || byte == b'-'
}
