//! Tokens as readers of grammars see them.
ghost use Rattle.std.specs.Prelude.{◌≡◌, ◌≤◌, ℕ, List};
ghost use Rattle.tx_lex.specs.Blanks.{past_blanks};
ghost use Rattle.tx_lex.specs.Lexemes.{lexemes_from, token_bytes, IsNth, is_space, is_blank, is_name_token, is_hash, is_variable, is_number, is_mark};

use crate::token::{Token, TokenKind};
use tx_read::{behind, front};

impl TokenKind {
    /// Whether this is a space.
    pub fn is_space(self) -> bool
        ensures { result ≡ is_space self }
    {
        matches!(self, TokenKind::Space)
    }

    /// Whether this is a space or a comment.
    pub fn is_blank(self) -> bool
        ensures { result ≡ is_blank self }
    {
        matches!(self, TokenKind::Space | TokenKind::Comment)
    }

    /// Whether this is a name.
    pub fn is_name(self) -> bool
        ensures { result ≡ is_name_token self }
    {
        matches!(self, TokenKind::Name)
    }

    /// Whether this is a hash.
    pub fn is_hash(self) -> bool
        ensures { result ≡ is_hash self }
    {
        matches!(self, TokenKind::Hash)
    }

    /// Whether this is a variable.
    pub fn is_variable(self) -> bool
        ensures { result ≡ is_variable self }
    {
        matches!(self, TokenKind::Variable)
    }

    /// Whether this is a number.
    pub fn is_number(self) -> bool
        ensures { result ≡ is_number self }
    {
        matches!(self, TokenKind::Number)
    }

    /// Whether this is the mark of this byte.
    pub fn is_mark(self, byte: u8) -> bool
        ensures { result ≡ is_mark byte self }
    {
        match self {
            TokenKind::Mark(mark) => mark == byte,
            _ => false,
        }
    }
}

/// The bytes of a token of a text, as far as they are there.
pub fn token_bytes(text: &[u8], token: Token) -> &[u8]
    ensures { result.now ≡ token_bytes text.now token }
{
    let rest = behind(text, token.from as usize);
    front(rest, token.to.saturating_sub(token.from) as usize)
}

/// The token of a number, counted from 0, where there is one.
pub fn token_at(tokens: &[Token], at: usize) -> Option<Token>
    ensures { IsNth tokens.now at result }
{
    if at < tokens.len() {
        Some(tokens[at])
    } else {
        None
    }
}

/// The number of the token after spaces and comments.
pub fn past_blanks(tokens: &[Token], at: usize) -> usize
    ensures gives { (text : List ℕ) → lexemes_from text tokens.now result ≡
        past_blanks (lexemes_from text tokens.now at) }
    ensures behind { at ≤ result }
{
    let mut behind = at;
    while let Some(first) = token_at(tokens, behind) {
        if !first.kind.is_blank() {
            return behind;
        }
        behind += 1;
    }
    behind
}
