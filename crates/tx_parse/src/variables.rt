//! Variables, and what tokens of values stand for.
ghost use Rattle.std.specs.Prelude.{◌≡◌, [], IfOk, Some, None, option_copied, option_map, drop, is_some, if◌then◌else◌};
ghost use Rattle.std.specs.Option.{SomeIff};
ghost use Rattle.std.specs.Str.{bytes_eq};
ghost use Rattle.indexmap.specs.IndexMap.{insert_entry};
ghost use Rattle.tx_lex.specs.Lexemes.{token_bytes, lexeme, lexemes, IsNth};
ghost use Rattle.tx_text.specs.Name.{IsName};
ghost use Rattle.tx_parse.specs.Seen.{defined_in};
ghost use Rattle.tx_parse.specs.Variables.{latest, stands_for};

use indexmap::IndexMap;
use std::alloc::{AllocError, Global};
use std::marker::Model;
use tx_lex::{Token, TokenList, token_bytes};
use tx_read::{behind, front};
use tx_text::Name;
use tx_value::theme_name_of;

/// The variables that a sheet has defined so far, each with the tokens of its latest definition.
#[derive(Drop)]
pub struct Variables {
    map: IndexMap<Name, TokenList>,
}

impl Model for Variables {
    ghost use Rattle.std.specs.Prelude.{List, ℕ};
    ghost use Rattle.tx_lex.specs.declared.token.Token.{Token};

    ghost Value = { List (List ℕ × List Token) };

    ghost view = { λ v. v.map.entries };
}

impl Variables {
    /// No variables.
    pub fn none(alloc: Global) -> Variables
        ensures { result ≡ [] }
    {
        Variables {
            map: IndexMap::new(alloc),
        }
    }

    /// Defines a variable, or defines it anew.
    pub fn define(self, name: Name, tokens: TokenList) -> Result<Variables, AllocError>
        ensures { IfOk result (λ variables. variables ≡ insert_entry bytes_eq self name tokens) }
    {
        let mut map = self.map;
        match map.insert(name, tokens) {
            Ok(_) => Ok(Variables { map }),
            Err(_) => Err(AllocError),
        }
    }

    /// The tokens of the latest definition.
    pub fn latest(&self, name: &Name) -> Option<&TokenList>
        ensures { option_copied result ≡ latest name.now self.now }
    {
        self.map.get(name)
    }
}

/// The name of a variable, where it has at most 64 bytes.
pub fn variable_name(text: &[u8], token: Token) -> Option<Name>
    ensures { SomeIff result
        (IsName (drop 1 (token_bytes text.now token))) (drop 1 (token_bytes text.now token)) }
{
    Name::of_bytes(behind(token_bytes(text, token), 1))
}

/// What the token of this number stands for in values.
#[tactic(auto, unfolding(crate::specs::Variables::stands_for), using(crate::proofs::Definitions::latest_in, crate::proofs::Definitions::alone_in))]
pub fn stand<'a>(
    text: &[u8],
    tokens: &'a [Token],
    at: usize,
    token: Token,
    variables: &'a Variables,
) -> Option<&'a [Token]>
    requires { IsNth tokens.now at (Some token) }
    ensures { option_map (lexemes text.now) (option_copied result) ≡
        stands_for (defined_in text.now variables.now) (lexeme text.now token) }
{
    let itself = front(behind(tokens, at), 1);
    if !token.kind.is_variable() {
        return Some(itself);
    }
    let Some(name) = variable_name(text, token) else {
        return None;
    };
    if let Some(list) = variables.latest(&name) {
        return Some(list.as_slice());
    }
    if theme_name_of(name.as_bytes()).is_some() {
        return Some(itself);
    }
    None
}
