//! Declarations one after another: blocks, and inline texts.
ghost use Rattle.std.specs.Prelude.{◌≡◌, ◌≤◌, ◌<◌, ◌++◌, length, IfOk};
ghost use Rattle.tx_lex.specs.Lexemes.{lexemes_from};
ghost use Rattle.tx_value.specs.Holds.{AllHold};
ghost use Rattle.tx_parse.specs.Answers.{GivesAs};
ghost use Rattle.tx_parse.specs.Grammar.{counted, nothing};
ghost use Rattle.tx_parse.specs.SheetReading.{item_at, body_at, with_declarations};
ghost use Rattle.tx_parse.specs.Seen.{defined_in, declarations_in, body_of};

use crate::declarations::{Written, body_end, declaration};
use crate::fault::{Stop, expected};
use crate::sheet::Declaration;
use crate::variables::Variables;
use std::alloc::{AllocError, Global};
use tx_lex::{Token, past_blanks, token_at};

/// Declarations, and how many were written. One that stands for several properties is written once.
#[derive(Drop)]
pub struct Block {
    pub declarations: Vec<Declaration>,
    pub written: u32,
}

/// A count with so many more, which saturates at its type's end.
pub fn counted(count: u32, more: u32) -> u32
    ensures { result ≡ counted count more }
{
    count.saturating_add(more)
}

/// No declarations.
fn nothing(alloc: Global) -> Block
    ensures { body_of result ≡ nothing }
{
    Block {
        declarations: Vec::new(alloc),
        written: 0,
    }
}

/// The declarations with these after them.
fn pushed(found: Vec<Declaration>, written: Written) -> Result<Vec<Declaration>, AllocError>
    requires { AllHold written.pairs.items }
    ensures { IfOk result (λ all. all.items ≡ found.items ++ declarations_in written) }
{
    let mut all = found;
    for pair in written.pairs {
        let declaration = Declaration::of(pair.0, pair.1, written.important);
        if all.push(declaration).is_err() {
            return Err(AllocError);
        }
    }
    Ok(all)
}

/// The block with these declarations after its own.
fn with_declarations(found: Block, written: Written) -> Result<Block, AllocError>
    requires { AllHold written.pairs.items }
    ensures { IfOk result (λ block. body_of block ≡
        with_declarations (declarations_in written) (body_of found)) }
{
    let declarations = pushed(found.declarations, written)?;
    Ok(Block {
        declarations,
        written: counted(found.written, 1),
    })
}

/// A `;` or a declaration, after what was found before.
#[tactic(auto, unfolding(crate::specs::SheetReading::item_at))]
fn item(
    alloc: Global,
    text: &[u8],
    tokens: &[Token],
    at: usize,
    inline: bool,
    variables: &Variables,
    found: Block,
) -> Result<(Block, usize), Stop>
    ensures gives { GivesAs body_of text.now tokens.now result
        (item_at inline (defined_in text.now variables.now) (body_of found)
        (lexemes_from text.now tokens.now at)) }
    ensures behind { IfOk result (λ found. (at < found.1) × (at < length tokens.now)) }
{
    let Some(first) = token_at(tokens, at) else {
        return Err(expected(at));
    };
    if first.kind.is_mark(b';') {
        return Ok((found, at + 1));
    }
    let written = declaration(alloc, text, tokens, at, inline, variables)?;
    let block = with_declarations(found, written.0)?;
    Ok((block, written.1))
}

/// Declarations and `;` up to the end, which is the `}` of a block, or the end of an inline text.
pub fn body(
    alloc: Global,
    text: &[u8],
    tokens: &[Token],
    at: usize,
    inline: bool,
    variables: &Variables,
) -> Result<(Block, usize), Stop>
    ensures gives { GivesAs body_of text.now tokens.now result
        (body_at inline (defined_in text.now variables.now)
        (lexemes_from text.now tokens.now at)) }
    ensures behind { IfOk result (λ found. at ≤ found.1) }
{
    let mut found = nothing(alloc);
    let mut behind = past_blanks(tokens, at);
    loop {
        if let Some(end) = body_end(tokens, behind, inline) {
            return Ok((found, end));
        }
        let more = item(alloc, text, tokens, behind, inline, variables, found)?;
        found = more.0;
        behind = past_blanks(tokens, more.1);
    }
}
