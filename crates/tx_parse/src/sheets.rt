//! Variables and rules one after another.
ghost use Rattle.std.specs.Prelude.{◌≡◌, ◌<◌, ◌^◌, length, Some, IfOk};
ghost use Rattle.tx_lex.specs.Lexemes.{lexemes_from, IsNth};
ghost use Rattle.tx_parse.specs.Answers.{GivesAs, gathered_in};
ghost use Rattle.tx_parse.specs.Grammar.{nothing_found, with_variable, with_rule};
ghost use Rattle.tx_parse.specs.SheetReading.{definition_at, variable_in_sheet, rule_in_sheet, part_at, sheet_at};
ghost use Rattle.tx_parse.specs.Seen.{defined_in, found_in};

use crate::blocks::counted;
use crate::fault::{SheetKind, Stop, expected, met};
use crate::rules::rule;
use crate::sheet::Rule;
use crate::tokens::mark;
use crate::values::values;
use crate::variables::{Variables, variable_name};
use std::alloc::{AllocError, Global};
use tx_lex::{Token, TokenList, past_blanks, token_at};
use tx_select::begins_compound;
use tx_text::Name;

// The most rules of a sheet.
const MOST_RULES: usize = 10_000;

/// What a sheet has up to a place.
#[derive(Drop)]
pub struct Gathered {
    pub variables: Variables,
    pub rules: Vec<Rule>,
    /// How many variables were defined.
    pub defined: u32,
    /// How many declarations were written.
    pub written: u32,
}

/// Nothing so far.
#[tactic(auto, unfolding(crate::specs::Seen::defined_in))]
fn nothing_found(alloc: Global, text: &[u8]) -> Gathered
    ensures { found_in text.now result ≡ nothing_found }
{
    Gathered {
        variables: Variables::none(alloc),
        rules: Vec::new(alloc),
        defined: 0,
        written: 0,
    }
}

/// What stands after the name of a variable that is defined.
#[tactic(auto, unfolding(crate::specs::SheetReading::definition_at))]
fn definition(
    alloc: Global,
    text: &[u8],
    tokens: &[Token],
    at: usize,
    variables: &Variables,
) -> Result<(Vec<Token>, usize), Stop>
    ensures { GivesAs (gathered_in text.now) text.now tokens.now result
        (definition_at (defined_in text.now variables.now)
        (lexemes_from text.now tokens.now at)) }
{
    let colon = mark(text, tokens, at, b':')?;
    let stand = values(alloc, text, tokens, colon.1, variables)?;
    let end = mark(text, tokens, stand.1, b';')?;
    Ok((stand.0, end.1))
}

/// What was found, with this variable.
#[tactic(auto, using(crate::proofs::Definitions::insert_in))]
fn with_variable(
    text: &[u8],
    found: Gathered,
    name: Name,
    stand: Vec<Token>,
) -> Result<Gathered, AllocError>
    ensures { IfOk result (λ all. found_in text.now all ≡
        with_variable name (gathered_in text.now stand) (found_in text.now found)) }
{
    let Gathered {
        variables,
        rules,
        defined,
        written,
    } = found;
    let variables = variables.define(name, TokenList::of(stand))?;
    Ok(Gathered {
        variables,
        rules,
        defined: counted(defined, 1),
        written,
    })
}

/// A variable, whose name has at most 64 bytes.
#[tactic(auto, unfolding(crate::specs::SheetReading::variable_in_sheet))]
fn variable(
    alloc: Global,
    text: &[u8],
    tokens: &[Token],
    at: usize,
    token: Token,
    found: Gathered,
) -> Result<(Gathered, usize), Stop>
    requires { IsNth tokens.now at (Some token) }
    ensures { GivesAs (found_in text.now) text.now tokens.now result
        (variable_in_sheet (found_in text.now found) (lexemes_from text.now tokens.now at)) }
{
    let Some(name) = variable_name(text, token) else {
        return Err(expected(at));
    };
    let stand = definition(alloc, text, tokens, at + 1, &found.variables)?;
    let all = with_variable(text, found, name, stand.0)?;
    Ok((all, stand.1))
}

/// What was found, with this rule, in which so many declarations were written.
fn with_rule(text: &[u8], found: Gathered, rule: (Rule, u32)) -> Result<Gathered, AllocError>
    ensures { IfOk result (λ all. found_in text.now all ≡
        with_rule rule.0 rule.1 (found_in text.now found)) }
{
    let Gathered {
        variables,
        rules,
        defined,
        written,
    } = found;
    let mut all = rules;
    match all.push(rule.0) {
        Ok(()) => Ok(Gathered {
            variables,
            rules: all,
            defined,
            written: counted(written, rule.1),
        }),
        Err(_) => Err(AllocError),
    }
}

/// A rule, where fewer than 10,000 stand before it.
#[tactic(auto, unfolding(crate::specs::SheetReading::rule_in_sheet))]
fn rule_in_sheet(
    alloc: Global,
    text: &[u8],
    tokens: &[Token],
    at: usize,
    found: Gathered,
) -> Result<(Gathered, usize), Stop>
    requires { length tokens.now < 2 ^ 32 }
    ensures { GivesAs (found_in text.now) text.now tokens.now result
        (rule_in_sheet (found_in text.now found) (lexemes_from text.now tokens.now at)) }
{
    if found.rules.len() >= MOST_RULES {
        return Err(met(SheetKind::TooManyRules, at));
    }
    let read = rule(alloc, text, tokens, at, &found.variables)?;
    let all = with_rule(text, found, read.0)?;
    Ok((all, read.1))
}

/// A variable or a rule, after what was found before.
#[tactic(auto, unfolding(crate::specs::SheetReading::part_at))]
fn part(
    alloc: Global,
    text: &[u8],
    tokens: &[Token],
    at: usize,
    first: Token,
    found: Gathered,
) -> Result<(Gathered, usize), Stop>
    requires first { IsNth tokens.now at (Some first) }
    requires few { length tokens.now < 2 ^ 32 }
    ensures { GivesAs (found_in text.now) text.now tokens.now result
        (part_at (found_in text.now found) (lexemes_from text.now tokens.now at)) }
{
    if first.kind.is_variable() {
        return variable(alloc, text, tokens, at, first, found);
    }
    if begins_compound(first.kind) {
        return rule_in_sheet(alloc, text, tokens, at, found);
    }
    Err(expected(at))
}

/// The variables and rules of a whole sheet.
pub fn sheet(alloc: Global, text: &[u8], tokens: &[Token]) -> Result<(Gathered, usize), Stop>
    requires { length tokens.now < 2 ^ 32 }
    ensures { GivesAs (found_in text.now) text.now tokens.now result
        (sheet_at (lexemes_from text.now tokens.now 0)) }
{
    let mut found = nothing_found(alloc, text);
    let mut behind = past_blanks(tokens, 0);
    while let Some(first) = token_at(tokens, behind) {
        let more = part(alloc, text, tokens, behind, first, found)?;
        found = more.0;
        behind = past_blanks(tokens, more.1);
    }
    Ok((found, behind))
}
