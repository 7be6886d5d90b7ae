//! The tokens that sheets have.
ghost use Rattle.std.specs.Prelude.{◌≡◌, ◌<◌, ℕ, List, IfOk};
ghost use Rattle.tx_lex.specs.Lexemes.{lexeme, lexemes_from};
ghost use Rattle.tx_parse.specs.Answers.{GivesAs};
ghost use Rattle.tx_parse.specs.SheetReading.{place_of, mark_at};
ghost use Rattle.tx_parse.specs.Variables.{is_value};

use crate::fault::{Stop, expected};
use tx_lex::{Token, TokenKind, past_blanks, token_at};

/// Whether values may have such a token.
pub fn is_value(kind: TokenKind) -> bool
    ensures { result ≡ is_value kind }
{
    let word = kind.is_name() || kind.is_hash() || kind.is_number() || kind.is_variable();
    word || kind.is_mark(b',') || kind.is_mark(b'(') || kind.is_mark(b')')
}

/// The place of the first byte of a token; 0 where there is none.
pub fn place_of(tokens: &[Token], at: usize) -> u32
    ensures { (text : List ℕ) → result ≡ place_of (lexemes_from text tokens.now at) }
{
    match token_at(tokens, at) {
        Some(token) => token.from,
        None => 0,
    }
}

/// This mark, with spaces and comments before it.
#[tactic(auto, unfolding(crate::specs::SheetReading::mark_at))]
pub fn mark(text: &[u8], tokens: &[Token], at: usize, byte: u8) -> Result<(Token, usize), Stop>
    ensures gives { GivesAs (lexeme text.now) text.now tokens.now result
        (mark_at byte (lexemes_from text.now tokens.now at)) }
    ensures behind { IfOk result (λ found. at < found.1) }
{
    let first = past_blanks(tokens, at);
    let Some(token) = token_at(tokens, first) else {
        return Err(expected(first));
    };
    if token.kind.is_mark(byte) {
        Ok((token, first + 1))
    } else {
        Err(expected(first))
    }
}
