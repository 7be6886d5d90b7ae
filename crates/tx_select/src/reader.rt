//! Selectors from tokens, from the left.
//!
//! Each call reads from the token of a number on, and answers what it read with the number of the
//! token after it.
ghost use Rattle.std.specs.Prelude.{◌≡◌, ◌<◌, ◌≤◌, ℕ, List, Bool, true, length, ◌&&◌, ◌||◌, drop, IfOk, Some, None, if◌then◌else◌};
ghost use Rattle.std.specs.Option.{SomeIff};
ghost use Rattle.tx_text.specs.Name.{IsName, is_name};
ghost use Rattle.tx_lex.specs.Lexemes.{token_bytes, lexeme, lexemes, lexemes_from, IsNth, first_is, is_name_token, is_space};
ghost use Rattle.tx_select.specs.Lexemes.{begins_part};
ghost use Rattle.tx_select.specs.SelectorReading.{class_at, pseudo_at, part_at, parts_at, kind_at, compound_at, spaces_at, joint_at, link_at, selector_at};
ghost use Rattle.tx_select.specs.Answers.{GivesAmong};
ghost use Rattle.tx_select.specs.declared.fault.SelectKind.TheVariants.{Expected};
ghost use Rattle.tx_select.specs.declared.fault.TokenFault.TheVariants.{At};

use crate::fault::{SelectKind, TokenFault};
use crate::lexemes::{begins_compound, begins_part, is_child_mark, pseudo_of};
use crate::value::{Compound, Compounds, Part, Parts, Selector};
use std::alloc::Global;
use tx_lex::{Token, TokenKind, token_at, token_bytes};
use tx_read::behind;
use tx_text::Name;

// The most compounds of a selector.
const MOST_COMPOUNDS: usize = 16;

/// A token that the grammar doesn't allow.
pub fn expected(at: usize) -> TokenFault
    ensures { result ≡ At Expected at }
{
    TokenFault::At {
        kind: SelectKind::Expected,
        at,
    }
}

/// The name after the mark of a hash.
fn id_of(text: &[u8], hash: Token) -> Option<Name>
    ensures { SomeIff result (IsName (drop 1 (token_bytes text.now hash))) (drop 1 (token_bytes text.now hash)) }
{
    Name::of_bytes(behind(token_bytes(text, hash), 1))
}

/// The name that a token is.
fn name_in(text: &[u8], token: Token) -> Option<Name>
    ensures { result ≡ (if is_name_token token.kind && is_name (token_bytes text.now token) then Some (token_bytes text.now token) else None) }
{
    if token.kind.is_name() {
        Name::of_bytes(token_bytes(text, token))
    } else {
        None
    }
}

/// A class, of which the `.` stands before.
fn class(text: &[u8], tokens: &[Token], at: usize) -> Result<(Part, usize), TokenFault>
    ensures gives { GivesAmong text.now tokens.now result (class_at (lexemes_from text.now tokens.now at)) }
    ensures behind { IfOk result (λ found. at < found.1) }
{
    let Some(token) = token_at(tokens, at) else {
        return Err(expected(at));
    };
    match name_in(text, token) {
        Some(name) => Ok((Part::Class(name), at + 1)),
        None => Err(expected(at)),
    }
}

/// A pseudo-class, of which the `:` stands before.
fn pseudo(text: &[u8], tokens: &[Token], at: usize) -> Result<(Part, usize), TokenFault>
    ensures gives { GivesAmong text.now tokens.now result (pseudo_at (lexemes_from text.now tokens.now at)) }
    ensures behind { IfOk result (λ found. at < found.1) }
{
    let Some(token) = token_at(tokens, at) else {
        return Err(expected(at));
    };
    if !token.kind.is_name() {
        return Err(expected(at));
    }
    match pseudo_of(token_bytes(text, token)) {
        Some(pseudo) => Ok((Part::Pseudo(pseudo), at + 1)),
        None => Err(TokenFault::At {
            kind: SelectKind::UnknownPseudo,
            at,
        }),
    }
}

/// One part.
#[tactic(auto, unfolding(crate::specs::SelectorReading::part_at))]
fn part(text: &[u8], tokens: &[Token], at: usize) -> Result<(Part, usize), TokenFault>
    ensures gives { GivesAmong text.now tokens.now result (part_at (lexemes_from text.now tokens.now at)) }
    ensures behind { IfOk result (λ found. at < found.1) }
{
    let Some(first) = token_at(tokens, at) else {
        return Err(expected(at));
    };
    if first.kind.is_hash() {
        return match id_of(text, first) {
            Some(name) => Ok((Part::Id(name), at + 1)),
            None => Err(expected(at)),
        };
    }
    if first.kind.is_mark(b'.') {
        return class(text, tokens, at + 1);
    }
    if first.kind.is_mark(b':') {
        return pseudo(text, tokens, at + 1);
    }
    Err(expected(at))
}

/// Whether a part begins there.
fn part_begins(tokens: &[Token], at: usize) -> bool
    ensures kind { (text : List ℕ) → result ≡ first_is begins_part (lexemes_from text tokens.now at) }
    ensures within { result ≡ true → at < length tokens.now }
{
    match token_at(tokens, at) {
        Some(token) => begins_part(token.kind),
        None => false,
    }
}

/// Parts directly after each other, as long as one begins.
#[tactic(auto, unfolding(crate::specs::SelectorReading::parts_at))]
fn parts(
    alloc: Global,
    text: &[u8],
    tokens: &[Token],
    at: usize,
) -> Result<(Parts, usize), TokenFault>
    ensures gives { GivesAmong text.now tokens.now result (parts_at (lexemes_from text.now tokens.now at)) }
    ensures behind { IfOk result (λ found. at ≤ found.1) }
{
    let mut parts = Vec::new(alloc);
    let mut behind = at;
    while part_begins(tokens, behind) {
        let found = match part(text, tokens, behind) {
            Ok(found) => found,
            Err(fault) => return Err(fault),
        };
        let Ok(()) = parts.push(found.0) else {
            return Err(TokenFault::NoMemory);
        };
        behind = found.1;
    }
    Ok((Parts::of(parts), behind))
}

/// The name of the kind with which a compound begins; none after `*` or where a part begins.
#[tactic(auto, unfolding(crate::specs::SelectorReading::kind_at))]
fn kind(text: &[u8], tokens: &[Token], at: usize) -> Result<(Option<Name>, usize), TokenFault>
    ensures gives { GivesAmong text.now tokens.now result (kind_at (lexemes_from text.now tokens.now at)) }
    ensures behind { IfOk result (λ found. at ≤ found.1) }
{
    let Some(first) = token_at(tokens, at) else {
        return Err(expected(at));
    };
    if first.kind.is_name() {
        return match Name::of_bytes(token_bytes(text, first)) {
            Some(name) => Ok((Some(name), at + 1)),
            None => Err(expected(at)),
        };
    }
    if first.kind.is_mark(b'*') {
        return Ok((None, at + 1));
    }
    if begins_part(first.kind) {
        return Ok((None, at));
    }
    Err(expected(at))
}

/// One compound, which is joined so to the one before.
#[tactic(auto, unfolding(crate::specs::SelectorReading::compound_at))]
fn compound(
    alloc: Global,
    text: &[u8],
    tokens: &[Token],
    at: usize,
    child: bool,
) -> Result<(Compound, usize), TokenFault>
    ensures gives { GivesAmong text.now tokens.now result (compound_at child (lexemes_from text.now tokens.now at)) }
    ensures behind { IfOk result (λ found. at ≤ found.1) }
{
    let (kind, behind) = kind(text, tokens, at)?;
    let (parts, behind) = parts(alloc, text, tokens, behind)?;
    let compound = Compound { child, kind, parts };
    Ok((compound, behind))
}

/// Whether there was a space, or this is one.
fn with_space(spaced: bool, kind: TokenKind) -> bool
    ensures { result ≡ (spaced || is_space kind) }
{
    spaced || kind.is_space()
}

/// Passes spaces and comments, and says whether there was a space.
#[tactic(auto, unfolding(crate::specs::SelectorReading::spaces_at))]
pub fn spaces(tokens: &[Token], at: usize) -> (bool, usize)
    ensures gives { (text : List ℕ) → spaces_at (lexemes_from text tokens.now at) ≡ (result.0, lexemes_from text tokens.now result.1) }
    ensures behind { at ≤ result.1 }
{
    let mut spaced = false;
    let mut behind = at;
    while let Some(first) = token_at(tokens, behind) {
        if !first.kind.is_blank() {
            return (spaced, behind);
        }
        spaced = with_space(spaced, first.kind);
        behind += 1;
    }
    (spaced, behind)
}

/// Whether a compound comes after spaces and comments, and then whether as a child.
fn joint(tokens: &[Token], at: usize, spaced: bool) -> (Option<bool>, usize)
    ensures gives { (text : List ℕ) → joint_at spaced (lexemes_from text tokens.now at) ≡ (result.0, lexemes_from text tokens.now result.1) }
    ensures behind { at ≤ result.1 }
{
    let Some(first) = token_at(tokens, at) else {
        return (None, at);
    };
    if is_child_mark(first.kind) {
        let behind = spaces(tokens, at + 1);
        return (Some(true), behind.1);
    }
    if spaced && begins_compound(first.kind) {
        return (Some(false), at);
    }
    (None, at)
}

/// Whether a compound comes after this one, and then whether as a child.
#[tactic(auto, unfolding(crate::specs::SelectorReading::link_at))]
fn link(tokens: &[Token], at: usize) -> (Option<bool>, usize)
    ensures gives { (text : List ℕ) → link_at (lexemes_from text tokens.now at) ≡ (result.0, lexemes_from text tokens.now result.1) }
    ensures behind { at ≤ result.1 }
{
    let blank = spaces(tokens, at);
    joint(tokens, blank.1, blank.0)
}

/// Compounds as long as they go on, and the spaces and comments after them.
#[tactic(auto, unfolding(crate::specs::SelectorReading::selector_at))]
pub fn compounds(
    alloc: Global,
    text: &[u8],
    tokens: &[Token],
    at: usize,
) -> Result<(Compounds, usize), TokenFault>
    ensures gives { GivesAmong text.now tokens.now result (selector_at (lexemes_from text.now tokens.now at)) }
    ensures behind { IfOk result (λ found. at ≤ found.1) }
{
    let mut compounds = Vec::new(alloc);
    let mut child = false;
    let mut behind = at;
    for _count in 0..MOST_COMPOUNDS {
        let found = match compound(alloc, text, tokens, behind, child) {
            Ok(found) => found,
            Err(fault) => return Err(fault),
        };
        let Ok(()) = compounds.push(found.0) else {
            return Err(TokenFault::NoMemory);
        };
        let link = link(tokens, found.1);
        behind = link.1;
        match link.0 {
            Some(next) => child = next,
            None => return Ok((Compounds::of(compounds), behind)),
        }
    }
    Err(expected(behind))
}
