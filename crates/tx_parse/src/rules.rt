//! Rules: selectors and a block.
ghost use Rattle.std.specs.Prelude.{◌≡◌, ◌≤◌, ◌<◌, ◌^◌, length, IfOk};
ghost use Rattle.tx_lex.specs.Lexemes.{lexemes_from};
ghost use Rattle.tx_parse.specs.Answers.{GivesAs};
ghost use Rattle.tx_parse.specs.SheetReading.{kind_of, spaced_selector_at, goes_on_at, selectors_at, rule_of, rule_at};
ghost use Rattle.tx_parse.specs.Seen.{defined_in, body_of, selectors_in};

use crate::blocks::{Block, body};
use crate::fault::{SheetKind, Stop, expected, met};
use crate::sheet::{Declarations, Rule, Selectors};
use crate::variables::Variables;
use std::alloc::Global;
use tx_lex::{Token, past_blanks, token_at};
use tx_select::{SelectKind, Selector, TokenFault, selector_at};

// The most selectors of a rule.
const MOST_SELECTORS: usize = 64;

/// What is wrong in a sheet where this is wrong in a selector.
fn kind_of(kind: SelectKind) -> SheetKind
    ensures { result ≡ kind_of kind }
{
    match kind {
        SelectKind::Expected => SheetKind::Expected,
        SelectKind::UnknownPseudo => SheetKind::UnknownPseudo,
    }
}

/// A selector, with spaces and comments round it.
#[tactic(auto, unfolding(crate::specs::SheetReading::spaced_selector_at))]
fn spaced_selector(
    alloc: Global,
    text: &[u8],
    tokens: &[Token],
    at: usize,
) -> Result<(Selector, usize), Stop>
    requires { length tokens.now < 2 ^ 32 }
    ensures { GivesAs (λ a. a) text.now tokens.now result
        (spaced_selector_at (lexemes_from text.now tokens.now at)) }
{
    match selector_at(alloc, text, tokens, past_blanks(tokens, at)) {
        Ok(found) => Ok(found),
        Err(TokenFault::At { kind, at }) => Err(met(kind_of(kind), at)),
        Err(TokenFault::NoMemory) => Err(Stop::NoMemory),
    }
}

/// Whether further selectors come, after a comma, or none, after a `{`.
#[tactic(auto, unfolding(crate::specs::SheetReading::goes_on_at))]
fn goes_on(text: &[u8], tokens: &[Token], at: usize) -> Result<(bool, usize), Stop>
    ensures { GivesAs (λ a. a) text.now tokens.now result
        (goes_on_at (lexemes_from text.now tokens.now at)) }
{
    let Some(first) = token_at(tokens, at) else {
        return Err(expected(at));
    };
    if first.kind.is_mark(b',') {
        return Ok((true, at + 1));
    }
    if first.kind.is_mark(b'{') {
        return Ok((false, at + 1));
    }
    Err(expected(at))
}

/// The selectors of a rule and its `{`.
#[tactic(auto, unfolding(crate::specs::SheetReading::selectors_at))]
fn selectors(
    alloc: Global,
    text: &[u8],
    tokens: &[Token],
    at: usize,
) -> Result<(Vec<Selector>, usize), Stop>
    requires { length tokens.now < 2 ^ 32 }
    ensures gives { GivesAs selectors_in text.now tokens.now result
        (selectors_at (lexemes_from text.now tokens.now at)) }
    ensures few { IfOk result (λ found. length found.0.items ≤ 64) }
{
    let mut found = Vec::new(alloc);
    let mut behind = at;
    for _count in 0..MOST_SELECTORS {
        let selector = spaced_selector(alloc, text, tokens, behind)?;
        let Ok(()) = found.push(selector.0) else {
            return Err(Stop::NoMemory);
        };
        let more = goes_on(text, tokens, selector.1)?;
        behind = more.1;
        if !more.0 {
            return Ok((found, behind));
        }
    }
    Err(expected(past_blanks(tokens, behind)))
}

/// The rule of these selectors and this block, and how many declarations were written in it.
fn rule_of(selectors: Vec<Selector>, block: Block) -> (Rule, u32)
    requires { length selectors.items ≤ 64 }
    ensures { result ≡ rule_of selectors.items (body_of block) }
{
    let Block {
        declarations,
        written,
    } = block;
    let rule = Rule::of(Selectors::of(selectors), Declarations::of(declarations));
    (rule, written)
}

/// One rule, and how many declarations were written in it.
#[tactic(auto, unfolding(crate::specs::SheetReading::rule_at))]
pub fn rule(
    alloc: Global,
    text: &[u8],
    tokens: &[Token],
    at: usize,
    variables: &Variables,
) -> Result<((Rule, u32), usize), Stop>
    requires { length tokens.now < 2 ^ 32 }
    ensures { GivesAs (λ a. a) text.now tokens.now result
        (rule_at (defined_in text.now variables.now) (lexemes_from text.now tokens.now at)) }
{
    let head = selectors(alloc, text, tokens, at)?;
    let block = body(alloc, text, tokens, head.1, false, variables)?;
    Ok((rule_of(head.0, block.0), block.1))
}
