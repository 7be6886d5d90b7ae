//! The values of declarations and of variables.
ghost use Rattle.std.specs.Prelude.{◌<◌, ◌≤◌, ◌+◌, [], IfOk, Some};
ghost use Rattle.tx_lex.specs.Lexemes.{lexeme, lexemes, lexemes_from, IsNth};
ghost use Rattle.tx_parse.specs.Answers.{GivesAs, gathered_in};
ghost use Rattle.tx_parse.specs.SheetReading.{added, values_from, values_at};
ghost use Rattle.tx_parse.specs.Seen.{defined_in};
ghost use Rattle.tx_parse.specs.Variables.{stands_for};

use crate::fault::{SheetKind, Stop, expected, met};
use crate::tokens::is_value;
use crate::variables::{Variables, stand};
use std::alloc::Global;
use tx_lex::{Token, past_blanks, token_at};

// The most values of a declaration or of a variable.
const MOST_VALUES: usize = 64;

/// The values with what this token of values stands for, and the number of the token after it.
fn with_value(
    text: &[u8],
    tokens: &[Token],
    at: usize,
    token: Token,
    variables: &Variables,
    found: Vec<Token>,
) -> Result<(Vec<Token>, usize), Stop>
    requires { IsNth tokens.now at (Some token) }
    ensures gives { GivesAs (gathered_in text.now) text.now tokens.now result
        (added (lexemes text.now found.items) (lexeme text.now token)
        (lexemes_from text.now tokens.now (at + 1)) (stands_for (defined_in text.now variables.now) (lexeme text.now token))) }
    ensures behind { IfOk result (λ found. at < found.1) }
{
    let Some(more) = stand(text, tokens, at, token, variables) else {
        return Err(met(SheetKind::UndefinedVariable, at));
    };
    if found.len() + more.len() > MOST_VALUES {
        return Err(met(SheetKind::ValueTooLong, at));
    }
    let mut all = found;
    all.extend_from_slice(more)?;
    Ok((all, at + 1))
}

/// What values stand for, as far as tokens of values go on.
fn values_as_far(
    alloc: Global,
    text: &[u8],
    tokens: &[Token],
    at: usize,
    variables: &Variables,
) -> Result<(Vec<Token>, usize), Stop>
    ensures gives { GivesAs (gathered_in text.now) text.now tokens.now result
        (values_from (defined_in text.now variables.now) []
        (lexemes_from text.now tokens.now at)) }
    ensures behind { IfOk result (λ found. at ≤ found.1) }
{
    let mut found = Vec::new(alloc);
    let mut behind = past_blanks(tokens, at);
    while let Some(token) = token_at(tokens, behind) {
        if !is_value(token.kind) {
            return Ok((found, behind));
        }
        let more = with_value(text, tokens, behind, token, variables, found)?;
        found = more.0;
        behind = past_blanks(tokens, more.1);
    }
    Ok((found, behind))
}

/// What one or more values stand for.
#[tactic(auto, unfolding(crate::specs::SheetReading::values_at))]
pub fn values(
    alloc: Global,
    text: &[u8],
    tokens: &[Token],
    at: usize,
    variables: &Variables,
) -> Result<(Vec<Token>, usize), Stop>
    ensures gives { GivesAs (gathered_in text.now) text.now tokens.now result
        (values_at (defined_in text.now variables.now) (lexemes_from text.now tokens.now at)) }
    ensures behind { IfOk result (λ found. at ≤ found.1) }
{
    let found = values_as_far(alloc, text, tokens, at, variables)?;
    if found.0.is_empty() {
        return Err(expected(found.1));
    }
    Ok(found)
}
