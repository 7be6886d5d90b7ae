//! Selectors that stand among tokens, and those that are a whole text.
ghost use Rattle.std.specs.Prelude.{◌≡◌, ◌<◌, ◌≤◌, ◌^◌, ℕ, List, length, IfOk, IfErr, Ok};
ghost use Rattle.tx_lex.specs.Lexemes.{lexemes, lexemes_from};
ghost use Rattle.tx_select.specs.SelectorReading.{selector_at, whole_at, ended};
ghost use Rattle.tx_select.specs.SelectorValue.{SelectorValue};
ghost use Rattle.tx_read.specs.Answer.{Gives};
ghost use Rattle.tx_select.specs.Answers.{told_in, compounds_with_rest, GivesAmong};
ghost use Rattle.tx_select.specs.Texts.{told, end_of, place_of, selector_of, IsSelectorText, IsFirstFault};

use crate::fault::{SelectFault, TokenFault};
use crate::reader::{compounds, expected, spaces};
use crate::value::{Compounds, Selector};
use std::alloc::Global;
use tx_lex::{Fault, Scanned, Token, scan, token_at};

/// Reads the selector that begins at the token of this number, with the spaces and comments after
/// it, and answers it with the number of the token after them. It reads as far as a selector can
/// go on, so that what may stand after it is for the caller to judge. The tokens are those of
/// `text`, fewer than 2^32. `At` is the first token that the grammar doesn't allow.
pub fn selector_at(
    alloc: Global,
    text: &[u8],
    tokens: &[Token],
    at: usize,
) -> Result<(Selector, usize), TokenFault>
    requires { length tokens.now < 2 ^ 32 }
    ensures gives { Gives (compounds_with_rest text.now tokens.now) (told_in text.now tokens.now) result (selector_at (lexemes_from text.now tokens.now at)) }
    ensures behind { IfOk result (λ found. at ≤ found.1) }
{
    let (compounds, behind) = compounds(alloc, text, tokens, at)?;
    Ok((Selector::of(compounds), behind))
}

/// The tokens are one selector with spaces and comments round it.
#[tactic(auto, unfolding(crate::specs::SelectorReading::whole_at))]
fn whole(alloc: Global, text: &[u8], tokens: &[Token]) -> Result<(Compounds, usize), TokenFault>
    ensures { GivesAmong text.now tokens.now result (whole_at (lexemes_from text.now tokens.now 0)) }
{
    let before = spaces(tokens, 0);
    let found = compounds(alloc, text, tokens, before.1)?;
    ended(tokens, found)
}

/// Nothing more stands after these compounds.
fn ended(tokens: &[Token], found: (Compounds, usize)) -> Result<(Compounds, usize), TokenFault>
    ensures { (text : List ℕ) → GivesAmong text tokens.now result (ended found.0 (lexemes_from text tokens.now found.1)) }
{
    match token_at(tokens, found.1) {
        Some(_) => Err(expected(found.1)),
        None => Ok(found),
    }
}

/// Where the tokens of a text end: at the byte that is at fault, or after the last one.
fn end_of(text: &[u8], fault: Option<Fault>) -> u32
    requires { length text.now < 2 ^ 32 }
    ensures { result ≡ end_of text.now fault }
{
    match fault {
        Some(fault) => fault.place,
        None => text.len() as u32,
    }
}

/// The place of a token, or where the tokens end.
fn place_of(tokens: &[Token], at: usize, end: u32) -> u32
    ensures { (text : List ℕ) → result ≡ place_of end (lexemes_from text tokens.now at) }
{
    if at < tokens.len() {
        tokens[at].from
    } else {
        end
    }
}

/// The selector that a text is.
#[tactic(auto, unfolding(crate::specs::Texts::selector_of))]
fn read(alloc: Global, text: &str) -> Result<Selector, SelectFault>
    requires { length text.now < 2 ^ 32 }
    ensures exact { Gives (λ selector. selector) told result (selector_of text.now) }
{
    let text = text.as_bytes();
    let Scanned { tokens, fault } = scan(alloc, text)?;
    match whole(alloc, text, tokens.as_slice()) {
        Ok(found) => match fault {
            Some(fault) => Err(SelectFault::Grammar { place: fault.place }),
            None => Ok(Selector::of(found.0)),
        },
        Err(TokenFault::At { kind: _, at }) => Err(SelectFault::Grammar {
            place: place_of(tokens.as_slice(), at, end_of(text, fault)),
        }),
        Err(TokenFault::NoMemory) => Err(SelectFault::NoMemory),
    }
}

/// Reads a text of fewer than 2^32 bytes that is one selector, with spaces and comments round it.
/// `Grammar` is the first fault: the first token that the grammar doesn't allow, a byte that is
/// part of no token, or the end.
pub fn read_selector(alloc: Global, text: &str) -> Result<Selector, SelectFault>
    requires { length text.now < 2 ^ 32 }
    // What is read is in the grammar.
    ensures found { IfOk result (λ selector. IsSelectorText text.now selector) }
    // What is in the grammar is read, unless there is no memory.
    ensures only { (selector : SelectorValue) → IsSelectorText text.now selector → Gives (λ selector. selector) told result (Ok selector) }
    // A fault is the first one.
    ensures fault { IfErr result (λ fault. IsFirstFault text.now fault) }
    ensures exact { Gives (λ selector. selector) told result (selector_of text.now) }
{
    read(alloc, text)
}
