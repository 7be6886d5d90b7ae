//! Names and keywords, each found in its table.
ghost use Rattle.std.specs.Prelude.{◌≡◌, length, map, slice_get};
ghost use Rattle.tx_lex.specs.Lexemes.{lexeme, lexemes};
ghost use Rattle.tx_value.specs.Names.{entry_in, is_word, is_only, keyword, same_word, among, word_of, meaning_of, is_known};

use crate::property::Named;
use crate::tables::{NAMES, WORDS};
use crate::value::Word;
use tx_lex::{Token, token_bytes};
use tx_read::entry;

#[tactic(auto, unfolding(crate::specs::Names::keyword))]
fn keyword(name: &[u8]) -> Option<Word>
    ensures { result ≡ keyword name.now }
{
    entry(&WORDS, name)
}

/// Whether a token is this name.
pub fn is_word(word: &[u8], text: &[u8], token: Token) -> bool
    ensures { result ≡ is_word word.now (lexeme text.now token) }
{
    if token.kind.is_name() {
        token_bytes(text, token) == word
    } else {
        false
    }
}

/// Whether this name is the only token.
pub fn is_only(word: &[u8], text: &[u8], parts: &[Token]) -> bool
    ensures { result ≡ is_only word.now (lexemes text.now parts.now) }
{
    match parts {
        [only] => is_word(word, text, *only),
        _ => false,
    }
}

pub fn same_word(a: Word, b: Word) -> bool
    ensures { result ≡ same_word a b }
{
    a == b
}

fn among(choices: &[Word], word: Word) -> bool
    ensures { result ≡ among choices.now word }
{
    choices.iter().any(|choice| same_word(word, *choice))
}

/// The keyword of a token, where it is one of these.
pub fn word_of(choices: &[Word], text: &[u8], token: Token) -> Option<Word>
    ensures { result ≡ word_of choices.now (lexeme text.now token) }
{
    if !token.kind.is_name() {
        return None;
    }
    match keyword(token_bytes(text, token)) {
        Some(word) if among(choices, word) => Some(word),
        _ => None,
    }
}

/// What the table of the names that are as long as this one has at it.
fn entry_by_length(tables: &[&[(&[u8], Named)]], name: &[u8]) -> Option<Named>
    ensures { result ≡ entry_in (slice_get (map (λ table. map (λ row. (row.0.now, row.1)) table.now) tables.now) (length name.now)) name.now }
{
    match tables.get(name.len()) {
        Some(table) => entry(table, name),
        None => None,
    }
}

/// What the name of a declaration stands for. It is compared with names of its own length alone.
#[tactic(auto, using(crate::proofs::NameTables::named))]
pub fn meaning_of(name: &[u8]) -> Option<Named>
    ensures { result ≡ meaning_of name.now }
{
    entry_by_length(&NAMES, name)
}

/// Whether a declaration may have this name: that of a property, or one that stands for several, as
/// `margin`.
pub fn knows(name: &[u8]) -> bool
    ensures { result ≡ is_known name.now }
{
    meaning_of(name).is_some()
}
