//! Sheets and inline texts.
ghost use Rattle.std.specs.Prelude.{◌≡◌, ◌<◌, ◌^◌, ◌++◌, [], length, IfOk, Ok};
ghost use Rattle.tx_read.specs.Answer.{Gives};
ghost use Rattle.tx_lex.specs.Lexemes.{lexemes, lexemes_from};
ghost use Rattle.tx_lex.specs.Lexing.{lexed};
ghost use Rattle.tx_parse.specs.Answers.{judged_answer};
ghost use Rattle.tx_parse.specs.Default.{sheet_value};
ghost use Rattle.tx_parse.specs.DefaultRules.{default_rules};
ghost use Rattle.tx_parse.specs.Grammar.{Body, Found};
ghost use Rattle.tx_parse.specs.Seen.{body_of, found_in};
ghost use Rattle.tx_parse.specs.Texts.{last_comment, tokens_of, kind_of, fault_at, of_lexer, reported, located, told, sheet_of, inline_of, IsSheetText, IsInlineText};

use crate::blocks::{Block, body};
use crate::default::DEFAULT_SHEET;
use crate::fault::{SheetFault, SheetKind, Stop, Wrong};
use crate::places::{column_of, line_of};
use crate::sheet::{Declaration, Rules, Sheet};
use crate::sheets::{Gathered, sheet};
use crate::variables::Variables;
use std::alloc::{AllocError, Global};
use tx_lex::{Fault, LexKind, Scanned, Token, TokenList, scan, token_at};

/// The tokens of bytes up to the first byte at fault, and that fault.
#[derive(Drop)]
pub struct AllTokens {
    pub tokens: Vec<Token>,
    pub fault: Option<Fault>,
}

/// The tokens, and the comment in which they end, if they do.
fn with_comment(tokens: TokenList, fault: Option<Fault>) -> Result<Vec<Token>, AllocError>
    ensures { IfOk result (λ all. all.items ≡ tokens ++ last_comment fault) }
{
    let mut all = tokens.into_vec();
    let Some(fault) = fault else {
        return Ok(all);
    };
    let Some(comment) = fault.comment else {
        return Ok(all);
    };
    match all.push(comment) {
        Ok(()) => Ok(all),
        Err(_) => Err(AllocError),
    }
}

/// The tokens of bytes, up to the first byte that is at fault.
fn all_tokens(alloc: Global, bytes: &[u8]) -> Result<AllTokens, AllocError>
    requires { length bytes.now < 2 ^ 32 }
    ensures tokens { IfOk result (λ all. lexemes bytes.now all.tokens.items ≡ tokens_of bytes.now) }
    ensures fault { IfOk result (λ all. all.fault ≡ (lexed bytes.now).fault) }
    ensures few { IfOk result (λ all. length all.tokens.items < 2 ^ 32) }
{
    let Scanned { tokens, fault } = scan(alloc, bytes)?;
    let tokens = with_comment(tokens, fault)?;
    Ok(AllTokens { tokens, fault })
}

/// What is wrong in a sheet where this is wrong in a token.
fn kind_of(kind: LexKind) -> SheetKind
    ensures { result ≡ kind_of kind }
{
    match kind {
        LexKind::Unclosed => SheetKind::Unclosed,
        LexKind::BadByte => SheetKind::BadByte,
        LexKind::NumberTooLong => SheetKind::NumberTooLong,
    }
}

/// A fault of the byte at a place.
fn fault_at(bytes: &[u8], kind: SheetKind, place: u32) -> SheetFault
    ensures { result ≡ fault_at bytes.now (kind, place) }
{
    SheetFault::Text {
        line: line_of(bytes, place),
        column: column_of(bytes, place),
        kind,
    }
}

/// A byte that is at fault.
fn of_lexer(bytes: &[u8], fault: Fault) -> SheetFault
    ensures { result ≡ fault_at bytes.now (of_lexer fault) }
{
    fault_at(bytes, kind_of(fault.kind), fault.place)
}

/// A fault that is met where the tokens run out.
fn at_end(bytes: &[u8], fault: Option<Fault>, wrong: Wrong) -> SheetFault
    requires { length bytes.now < 2 ^ 32 }
    ensures { result ≡ fault_at bytes.now (reported bytes.now fault (wrong, [])) }
{
    match fault {
        Some(fault) => of_lexer(bytes, fault),
        None => match wrong.place {
            Some(place) => fault_at(bytes, wrong.kind, place),
            None => fault_at(bytes, wrong.kind, bytes.len() as u32),
        },
    }
}

/// A fault that is met at the token of a number.
fn refusal(
    bytes: &[u8],
    tokens: &[Token],
    fault: Option<Fault>,
    wrong: Wrong,
    at: usize,
) -> SheetFault
    requires { length bytes.now < 2 ^ 32 }
    ensures { result ≡
        fault_at bytes.now (reported bytes.now fault (wrong, lexemes_from bytes.now tokens.now at)) }
{
    let Some(token) = token_at(tokens, at) else {
        return at_end(bytes, fault, wrong);
    };
    match wrong.place {
        Some(place) => fault_at(bytes, wrong.kind, place),
        None => fault_at(bytes, wrong.kind, token.from),
    }
}

/// The answer of a whole text, by what the reader of its tokens answered: all tokens were read, and
/// then no byte is at fault.
fn judged_answer<T: Drop>(
    bytes: &[u8],
    tokens: &[Token],
    fault: Option<Fault>,
    read: Result<(T, usize), Stop>,
) -> Result<T, SheetFault>
    requires { length bytes.now < 2 ^ 32 }
    ensures { result ≡ judged_answer bytes.now tokens.now fault read }
{
    match read {
        Ok(found) => match fault {
            Some(fault) => Err(of_lexer(bytes, fault)),
            None => Ok(found.0),
        },
        Err(Stop::At { wrong, at }) => Err(refusal(bytes, tokens, fault, wrong, at)),
        Err(Stop::NoMemory) => Err(SheetFault::NoMemory),
    }
}

/// What the bytes of a sheet have.
#[tactic(auto, unfolding(crate::specs::Texts::sheet_of))]
fn sheet_text(alloc: Global, bytes: &[u8]) -> Result<Gathered, SheetFault>
    requires { length bytes.now < 2 ^ 32 }
    ensures { Gives (found_in bytes.now) told result (located (λ found. found) bytes.now (sheet_of bytes.now)) }
{
    let AllTokens { tokens, fault } = all_tokens(alloc, bytes)?;
    let tokens = tokens.as_slice();
    judged_answer(bytes, tokens, fault, sheet(alloc, bytes, tokens))
}

/// What the bytes of an inline text have.
#[tactic(auto, unfolding(crate::specs::Texts::inline_of, crate::specs::SheetReading::inline_at, crate::specs::Seen::defined_in))]
fn inline_text(alloc: Global, bytes: &[u8]) -> Result<Block, SheetFault>
    requires { length bytes.now < 2 ^ 32 }
    ensures { Gives body_of told result (located (λ body. body) bytes.now (inline_of bytes.now)) }
{
    let AllTokens { tokens, fault } = all_tokens(alloc, bytes)?;
    let tokens = tokens.as_slice();
    let variables = Variables::none(alloc);
    judged_answer(
        bytes,
        tokens,
        fault,
        body(alloc, bytes, tokens, 0, true, &variables),
    )
}

/// The rules of the default sheet.
#[tactic(auto, using(crate::proofs::DefaultRead::default_reading))]
fn defaults(alloc: Global) -> Result<Rules, AllocError>
    ensures { IfOk result (λ rules. rules ≡ default_rules) }
{
    match sheet_text(alloc, DEFAULT_SHEET) {
        Ok(found) => Ok(Rules::of(found.rules)),
        Err(SheetFault::Text { .. }) => Ok(Rules::of(Vec::new(alloc))),
        Err(SheetFault::NoMemory) => Err(AllocError),
    }
}

/// The sheet that bytes are.
fn sheet_with_defaults(alloc: Global, bytes: &[u8]) -> Result<Sheet, SheetFault>
    requires { length bytes.now < 2 ^ 32 }
    ensures { Gives (λ sheet. sheet) told result (located sheet_value bytes.now (sheet_of bytes.now)) }
{
    let found = sheet_text(alloc, bytes)?;
    let defaults = defaults(alloc)?;
    let rules = Rules::of(found.rules);
    Ok(Sheet::of(rules, found.defined, found.written, defaults))
}

/// Reads a stylesheet of fewer than 2^32 bytes. The default sheet's rules stand beside its own.
/// `Text` is the first fault.
pub fn read_sheet(alloc: Global, bytes: &[u8]) -> Result<Sheet, SheetFault>
    requires { length bytes.now < 2 ^ 32 }
    // What is read is in the grammar.
    ensures found { IfOk result (λ sheet. (found : Found) × (sheet ≡
        sheet_value found) × IsSheetText bytes.now found) }
    // What is in the grammar is read, unless there is no memory.
    ensures only { (found : Found) → IsSheetText bytes.now found →
        Gives (λ sheet. sheet) told result (Ok (sheet_value found)) }
    // The answer is what the definition reads, with the line and the column of the first fault.
    ensures exact { Gives (λ sheet. sheet) told result (located sheet_value bytes.now (sheet_of bytes.now)) }
{
    sheet_with_defaults(alloc, bytes)
}

/// The declarations that bytes are.
fn inline_declarations(alloc: Global, bytes: &[u8]) -> Result<Vec<Declaration>, SheetFault>
    requires { length bytes.now < 2 ^ 32 }
    ensures { Gives (λ declarations. declarations.items) told result
        (located (λ body. body.declarations) bytes.now (inline_of bytes.now)) }
{
    let block = inline_text(alloc, bytes)?;
    Ok(block.declarations)
}

/// Reads declarations without braces, in which only the variables of the theme are defined. The
/// last one needs no `;`. The text has fewer than 2^32 bytes. `Text` is the first fault.
pub fn read_inline(alloc: Global, text: &str) -> Result<Vec<Declaration>, SheetFault>
    requires { length text.now < 2 ^ 32 }
    ensures found { IfOk result (λ declarations. (body : Body) × (declarations.items ≡
        body.declarations) × IsInlineText text.now body) }
    ensures only { (body : Body) → IsInlineText text.now body →
        Gives (λ declarations. declarations.items) told result (Ok body.declarations) }
    ensures exact { Gives (λ declarations. declarations.items) told result
        (located (λ body. body.declarations) text.now (inline_of text.now)) }
{
    inline_declarations(alloc, text.as_bytes())
}
