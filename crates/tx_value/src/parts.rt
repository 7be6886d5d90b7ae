//! Tokens that are no spaces and no comments.
ghost use Rattle.std.specs.Prelude.{◌≡◌, IfOk};
ghost use Rattle.std.specs.List.{list_all};
ghost use Rattle.tx_value.specs.Parts.{is_part, parts_of};

use std::alloc::{AllocError, Global};
use tx_lex::Token;
use tx_text::NoMemory;

fn is_part(token: Token) -> bool
    ensures { result ≡ is_part token }
{
    !token.kind.is_blank()
}

/// Whether no spaces and no comments are among the tokens.
pub fn are_parts(tokens: &[Token]) -> bool
    ensures { result ≡ list_all is_part tokens.now }
{
    tokens.iter().all(|token| is_part(*token))
}

/// The tokens without the spaces and comments among them.
pub fn parts_of(alloc: Global, tokens: &[Token]) -> Result<Vec<Token>, NoMemory>
    ensures { IfOk result (λ parts. parts.items ≡ parts_of tokens.now) }
{
    let mut parts = Vec::new(alloc);
    for token in tokens {
        if is_part(*token) {
            let Ok(()) = parts.push(*token) else {
                return Err(AllocError);
            };
        }
    }
    Ok(parts)
}
