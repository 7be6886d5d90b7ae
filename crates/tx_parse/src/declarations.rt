//! Single declarations.
ghost use Rattle.std.specs.Prelude.{◌≡◌, ◌<◌, ◌≤◌, ℕ, List, Some, IfOk, IfSome};
ghost use Rattle.tx_lex.specs.Lexemes.{lexeme, lexemes_from};
ghost use Rattle.tx_value.specs.Holds.{AllHold};
ghost use Rattle.tx_parse.specs.Answers.{GivesAs, EndsBody};
ghost use Rattle.tx_parse.specs.SheetReading.{is_important, important_word_at, importance_at, spelled_at, is_end, ended, declaration_at};
ghost use Rattle.tx_parse.specs.Seen.{defined_in, spelled_in, declarations_in};
ghost use Rattle.tx_parse.specs.declared.fault.SheetKind.TheVariants.{BadValue};
ghost use Rattle.tx_parse.specs.declared.fault.Stop.TheVariants.{At};

use crate::fault::{SheetKind, Stop, Wrong, expected, met};
use crate::tokens::{mark, place_of};
use crate::values::values;
use crate::variables::Variables;
use std::alloc::Global;
use tx_lex::{Token, past_blanks, token_at, token_bytes};
use tx_value::{Property, Value, ValueFault, knows, values_of};

/// What stands before the end of a declaration.
#[derive(Drop)]
pub struct Spelling {
    pub name: Token,
    /// The offset of the first value.
    pub first: u32,
    /// What the values stand for.
    pub stand: Vec<Token>,
    pub important: bool,
}

/// Properties with values that they have.
#[derive(Drop)]
pub struct Written {
    pub pairs: Vec<(Property, Value)>,
    pub important: bool,
}

/// Whether this is the word after the mark `!`.
fn is_important(text: &[u8], token: Token) -> bool
    ensures { result ≡ is_important (lexeme text.now token) }
{
    token.kind.is_name() && token_bytes(text, token) == b"important".as_slice()
}

/// The word after the mark `!`, and the spaces and comments after it.
fn important_word(text: &[u8], tokens: &[Token], at: usize) -> Result<(bool, usize), Stop>
    ensures gives { GivesAs (λ a. a) text.now tokens.now result
        (important_word_at (lexemes_from text.now tokens.now at)) }
    ensures behind { IfOk result (λ found. at ≤ found.1) }
{
    let word = past_blanks(tokens, at);
    let Some(token) = token_at(tokens, word) else {
        return Err(expected(word));
    };
    if is_important(text, token) {
        Ok((true, past_blanks(tokens, word + 1)))
    } else {
        Err(expected(word))
    }
}

/// Whether `!` and `important` come, with the spaces and comments after them.
#[tactic(auto, unfolding(crate::specs::SheetReading::importance_at))]
fn importance(text: &[u8], tokens: &[Token], at: usize) -> Result<(bool, usize), Stop>
    ensures gives { GivesAs (λ a. a) text.now tokens.now result
        (importance_at (lexemes_from text.now tokens.now at)) }
    ensures behind { IfOk result (λ found. at ≤ found.1) }
{
    let Some(first) = token_at(tokens, at) else {
        return Ok((false, at));
    };
    if first.kind.is_mark(b'!') {
        important_word(text, tokens, at + 1)
    } else {
        Ok((false, at))
    }
}

/// What stands after the name of a property, before the end of the declaration.
#[tactic(auto, unfolding(crate::specs::SheetReading::spelled_at))]
fn before_end(
    alloc: Global,
    text: &[u8],
    tokens: &[Token],
    at: usize,
    variables: &Variables,
    name: Token,
) -> Result<(Spelling, usize), Stop>
    ensures gives { GivesAs (spelled_in text.now) text.now tokens.now result
        (spelled_at (defined_in text.now variables.now) (lexeme text.now name)
        (lexemes_from text.now tokens.now at)) }
    ensures behind { IfOk result (λ found. at < found.1) }
{
    let colon = mark(text, tokens, at, b':')?;
    let first = past_blanks(tokens, colon.1);
    let stand = values(alloc, text, tokens, first, variables)?;
    let important = importance(text, tokens, stand.1)?;
    let spelling = Spelling {
        name,
        first: place_of(tokens, first),
        stand: stand.0,
        important: important.0,
    };
    Ok((spelling, important.1))
}

/// The number of the token after the end of a body, where one ends there: a block at its `}`, which
/// is taken, and an inline text at its end.
pub fn body_end(tokens: &[Token], at: usize, inline: bool) -> Option<usize>
    ensures ends { (text : List ℕ) → EndsBody text tokens.now inline (lexemes_from text tokens.now at) result }
    ensures behind { IfSome result (λ end. at ≤ end) }
{
    match token_at(tokens, at) {
        Some(token) => {
            if !inline && token.kind.is_mark(b'}') {
                Some(at + 1)
            } else {
                None
            }
        }
        None => { if inline { Some(at) } else { None } }
    }
}

/// Whether a declaration ends there.
fn is_end(tokens: &[Token], at: usize, inline: bool) -> bool
    ensures { (text : List ℕ) → result ≡ is_end inline (lexemes_from text tokens.now at) }
{
    match token_at(tokens, at) {
        Some(token) => token.kind.is_mark(b';') || (!inline && token.kind.is_mark(b'}')),
        None => inline,
    }
}

/// What is reported where the property doesn't have the values.
fn bad_value(first: u32, at: usize) -> Stop
    ensures { result ≡ At (record { kind = BadValue; place = Some first }) at }
{
    Stop::At {
        wrong: Wrong {
            kind: SheetKind::BadValue,
            place: Some(first),
        },
        at,
    }
}

/// The end of a declaration, before which it is judged.
fn ended(
    alloc: Global,
    text: &[u8],
    tokens: &[Token],
    at: usize,
    inline: bool,
    spelling: Spelling,
) -> Result<(Written, usize), Stop>
    ensures gives { GivesAs declarations_in text.now tokens.now result
        (ended inline (spelled_in text.now spelling) (lexemes_from text.now tokens.now at)) }
    ensures held { IfOk result (λ found. AllHold found.0.pairs.items) }
    ensures behind { IfOk result (λ found. found.1 ≡ at) }
{
    if !is_end(tokens, at, inline) {
        return Err(expected(at));
    }
    let name = token_bytes(text, spelling.name);
    match values_of(alloc, name, text, spelling.stand.as_slice()) {
        Ok(pairs) => Ok((
            Written {
                pairs,
                important: spelling.important,
            },
            at,
        )),
        Err(ValueFault::NoMemory) => Err(Stop::NoMemory),
        Err(_) => Err(bad_value(spelling.first, at)),
    }
}

/// One declaration.
#[tactic(auto, unfolding(crate::specs::SheetReading::declaration_at))]
pub fn declaration(
    alloc: Global,
    text: &[u8],
    tokens: &[Token],
    at: usize,
    inline: bool,
    variables: &Variables,
) -> Result<(Written, usize), Stop>
    ensures gives { GivesAs declarations_in text.now tokens.now result
        (declaration_at inline (defined_in text.now variables.now)
        (lexemes_from text.now tokens.now at)) }
    ensures held { IfOk result (λ found. AllHold found.0.pairs.items) }
    ensures behind { IfOk result (λ found. at < found.1) }
{
    let Some(name) = token_at(tokens, at) else {
        return Err(expected(at));
    };
    if !name.kind.is_name() {
        return Err(expected(at));
    }
    if !knows(token_bytes(text, name)) {
        return Err(met(SheetKind::UnknownProperty, at));
    }
    let spelled = before_end(alloc, text, tokens, at + 1, variables, name)?;
    ended(alloc, text, tokens, spelled.1, inline, spelled.0)
}
