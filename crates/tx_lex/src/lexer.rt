//! Tokens from the left.
ghost use Rattle.std.specs.Prelude.{◌≡◌, ◌<◌, ◌≤◌, ◌^◌, ◌+◌, length, drop, IfOk, IfSome, Some, None, true, is_some, option_map, if◌then◌else◌};
ghost use Rattle.tx_lex.specs.Lexing.{close_len, close_behind, opens_comment, comment_len, hash_len, variable_len, of_kind, number_or_point, longest_token, wrong_in, wrong_here, if_comment, invalid_place, spot_at, token_at, lexed};
ghost use Rattle.tx_lex.specs.Bytes.{is_mark};
ghost use Rattle.tx_lex.specs.declared.token.TokenKind.TheVariants.{Mark};
ghost use Rattle.tx_lex.specs.Answers.{with_spot, all_tokens, told};
ghost use Rattle.tx_read.specs.Answer.{Gives, GivesAtOnce};

use crate::bytes::{blanks, is_blank, is_mark, name_bytes};
use crate::number::{has_many_digits, number_len};
use crate::token::{Fault, LexFault, LexKind, Scanned, Token, TokenKind, TokenList, Wrong};
use std::alloc::{AllocError, Global};
use std::str;
use tx_text::{begins_name, continues_name};

/// Up to and with the first `*/`, where there is one.
fn close_len(bytes: &[u8]) -> Option<usize>
    ensures len { result ≡ close_len bytes.now }
    ensures within { IfSome result (λ n. n ≤ length bytes.now) }
{
    let [first, rest @ ..] = bytes else {
        return None;
    };
    let mut last = *first;
    for (i, byte) in rest.iter().enumerate() {
        if last == b'*' && *byte == b'/' {
            return Some(i + 2);
        }
        last = *byte;
    }
    None
}

fn opens_comment(bytes: &[u8]) -> bool
    ensures { result ≡ opens_comment bytes.now }
{
    matches!(bytes, [b'/', b'*', ..])
}

/// The bytes of the comment that stands at the start.
#[tactic(auto, unfolding(crate::specs::Lexing::comment_len))]
fn comment_len(bytes: &[u8]) -> Option<usize>
    ensures len { result ≡ comment_len bytes.now }
    ensures within { IfSome result (λ n. n ≤ length bytes.now) }
{
    match bytes {
        [b'/', b'*', rest @ ..] => match close_len(rest) {
            Some(len) => Some(len + 2),
            None => None,
        },
        _ => None,
    }
}

/// The bytes of a hash, of which these stand after the `#`.
fn hash_len(bytes: &[u8]) -> Option<usize>
    ensures len { result ≡ hash_len bytes.now }
    ensures within { IfSome result (λ n. n ≤ length bytes.now + 1) }
{
    match bytes {
        [first, rest @ ..] if continues_name(*first) => Some(2 + name_bytes(rest)),
        _ => None,
    }
}

/// The bytes of a variable, of which these stand after the `$`.
fn variable_len(bytes: &[u8]) -> Option<usize>
    ensures len { result ≡ variable_len bytes.now }
    ensures within { IfSome result (λ n. n ≤ length bytes.now + 1) }
{
    match bytes {
        [first, rest @ ..] if begins_name(*first) => Some(2 + name_bytes(rest)),
        _ => None,
    }
}

/// The first byte that isn't UTF-8, or begins a cut character.
fn invalid_place(bytes: &[u8]) -> Option<usize>
    ensures place { result ≡ invalid_place bytes.now }
    ensures within { IfSome result (λ place. place ≤ length bytes.now) }
{
    match str::from_utf8(bytes) {
        Ok(_) => None,
        Err(error) => Some(error.valid_up_to()),
    }
}

fn of_kind(kind: TokenKind, len: Option<usize>) -> Option<(TokenKind, usize)>
    ensures { result ≡ of_kind kind len }
{
    match len {
        Some(len) => Some((kind, len)),
        None => None,
    }
}

/// A number, or the point that begins none.
fn number_or_point(first: u8, len: Option<usize>) -> Option<(TokenKind, usize)>
    ensures { result ≡ number_or_point first len }
{
    match len {
        Some(len) => Some((TokenKind::Number, len)),
        None if first == b'.' => Some((TokenKind::Mark(b'.'), 1)),
        None => None,
    }
}

fn mark_of(byte: u8) -> Option<(TokenKind, usize)>
    ensures { result ≡ (if is_mark byte then Some (Mark byte, 1) else None) }
{
    if is_mark(byte) {
        Some((TokenKind::Mark(byte), 1))
    } else {
        None
    }
}

/// The token with which the bytes begin, the longest one, and its length. The first byte tells
/// the kind, but for a point.
#[tactic(auto, unfolding(crate::specs::Lexing::longest_token))]
fn longest_token(bytes: &[u8]) -> Option<(TokenKind, usize)>
    ensures token { result ≡ longest_token bytes.now }
    ensures within { IfSome result (λ found. found.1 ≤ length bytes.now) }
{
    let [first, rest @ ..] = bytes else {
        return None;
    };
    if is_blank(*first) {
        return Some((TokenKind::Space, 1 + blanks(rest)));
    }
    if begins_name(*first) {
        return Some((TokenKind::Name, 1 + name_bytes(rest)));
    }
    match *first {
        b'#' => of_kind(TokenKind::Hash, hash_len(rest)),
        b'$' => of_kind(TokenKind::Variable, variable_len(rest)),
        b'/' => of_kind(TokenKind::Comment, comment_len(bytes)),
        b'0'..=b'9' | b'-' | b'.' => number_or_point(*first, number_len(bytes)),
        byte => mark_of(byte),
    }
}

/// What is wrong with the bytes of a token.
fn wrong_in(kind: TokenKind, bytes: &[u8]) -> Option<Wrong>
    ensures wrong { result ≡ wrong_in kind bytes.now }
    ensures within { IfSome result (λ wrong. wrong.offset ≤ length bytes.now) }
{
    match kind {
        TokenKind::Number if has_many_digits(bytes) => Some(Wrong {
            kind: LexKind::NumberTooLong,
            offset: 0,
        }),
        TokenKind::Comment => match invalid_place(bytes) {
            Some(offset) => Some(Wrong {
                kind: LexKind::BadByte,
                offset,
            }),
            None => None,
        },
        _ => None,
    }
}

/// What is wrong where no token begins.
fn wrong_here(bytes: &[u8]) -> LexKind
    ensures { result ≡ wrong_here bytes.now }
{
    if opens_comment(bytes) {
        LexKind::Unclosed
    } else {
        LexKind::BadByte
    }
}

#[tactic(auto, unfolding(crate::specs::Lexing::token_at))]
fn token_at(bytes: &[u8], place: usize) -> Result<Token, Fault>
    requires within { place ≤ length bytes.now }
    requires short { length bytes.now < 2 ^ 32 }
    ensures token { GivesAtOnce (with_spot bytes.now) (λ fault. fault) result (token_at (spot_at bytes.now place)) }
    ensures goes_on { IfOk result (λ token. (place < token.to) × (token.to ≤ length bytes.now)) }
{
    let (_, rest) = bytes.split_at(place);
    let Some(found) = longest_token(rest) else {
        return Err(Fault {
            place: place as u32,
            kind: wrong_here(rest),
            comment: None,
        });
    };
    let (bytes, _) = rest.split_at(found.1);
    let token = Token {
        kind: found.0,
        from: place as u32,
        to: (place + found.1) as u32,
    };
    match wrong_in(found.0, bytes) {
        Some(wrong) => Err(Fault {
            place: (place + wrong.offset) as u32,
            kind: wrong.kind,
            comment: if_comment(token),
        }),
        None => Ok(token),
    }
}

/// The token, if it is a comment.
fn if_comment(token: Token) -> Option<Token>
    ensures { result ≡ if_comment token.kind token }
{
    match token.kind {
        TokenKind::Comment => Some(token),
        _ => None,
    }
}

/// The tokens of bytes up to the first fault, and that fault. The bytes may be no UTF-8.
pub fn scan(alloc: Global, bytes: &[u8]) -> Result<Scanned, AllocError>
    requires { length bytes.now < 2 ^ 32 }
    ensures read { IfOk result (λ scanned. scanned ≡ lexed bytes.now) }
    // Each token has a byte.
    ensures few { IfOk result (λ scanned. length scanned.tokens ≤ length bytes.now) }
    // A byte at fault belongs to none of them.
    ensures fewer { IfOk result (λ scanned. is_some scanned.fault ≡ true → length scanned.tokens < length bytes.now) }
{
    let mut tokens = Vec::new(alloc);
    let mut place = 0;
    while place < bytes.len() {
        match token_at(bytes, place) {
            Ok(token) => {
                tokens.push(token)?;
                place = token.to as usize;
            }
            Err(fault) => {
                return Ok(Scanned {
                    tokens: TokenList::of(tokens),
                    fault: Some(fault),
                });
            }
        }
    }
    Ok(Scanned {
        tokens: TokenList::of(tokens),
        fault: None,
    })
}

/// The tokens of a text, all of it. A text of fewer than 2^32 bytes is read in one pass. `Text` is
/// the first fault: a comment that isn't closed, a byte that begins no token, or a number of too
/// many digits.
pub fn tokens(alloc: Global, text: &str) -> Result<Vec<Token>, LexFault>
    requires { length text.now < 2 ^ 32 }
    ensures { Gives (λ found. found.items) told result (all_tokens (lexed text.now)) }
{
    let scanned = scan(alloc, text.as_bytes())?;
    match scanned.fault {
        None => Ok(scanned.tokens.into_vec()),
        Some(fault) => Err(LexFault::Text {
            place: fault.place,
            kind: fault.kind,
        }),
    }
}
