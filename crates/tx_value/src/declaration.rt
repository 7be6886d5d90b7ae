//! The values of a declaration.
ghost use Rattle.std.specs.Prelude.{◌≡◌, option_and_then, option_copied, IfOk};
ghost use Rattle.tx_read.specs.Answer.{Gives};
ghost use Rattle.tx_lex.specs.Blanks.{without_blanks};
ghost use Rattle.tx_lex.specs.Lexemes.{lexemes};
ghost use Rattle.tx_value.specs.Answers.{told, GivesSome};
ghost use Rattle.tx_value.specs.Declarations.{nth_in_turn, share, pairs_from, all_initial, pairs_of, declaration};
ghost use Rattle.tx_value.specs.Holds.{AllHold};
ghost use Rattle.tx_value.specs.Tables.{properties};
ghost use Rattle.tx_value.specs.Values.{value_of};

use crate::fault::ValueFault;
use crate::names::{is_only, meaning_of};
use crate::parts::{are_parts, parts_of};
use crate::property::{Named, Property};
use crate::tables::{
    ALIGN_AXES, BORDER_SIDES, CONTENT_ALIGN_AXES, INITIAL, MARGINS, OVERFLOW_AXES, PADDINGS,
};
use crate::value::Value;
use crate::values::value_of;
use std::alloc::{AllocError, Global};
use std::slice;
use tx_lex::Token;
use tx_read::{behind, front};
use tx_text::NoMemory;

/// The properties that a name stands for.
fn properties(what: &Named) -> &[Property]
    ensures { result.now ≡ properties what.now }
{
    match what {
        Named::Longhand(one) => slice::from_ref(one),
        Named::Margin => &MARGINS,
        Named::Padding => &PADDINGS,
        Named::Border => &BORDER_SIDES,
        Named::Overflow => &OVERFLOW_AXES,
        Named::Align => &ALIGN_AXES,
        Named::ContentAlign => &CONTENT_ALIGN_AXES,
    }
}

/// The token of a place, where there are tokens, as many as one of these counts. Behind the last
/// one they come again.
fn nth_in_turn<'a>(counts: &[usize], place: usize, parts: &'a [Token]) -> Option<&'a [Token]>
    ensures { option_copied result ≡ nth_in_turn counts.now place parts.now }
{
    let count = parts.len();
    if count == 0 || !counts.contains(&count) {
        return None;
    }
    Some(front(behind(parts, place % count), 1))
}

/// What the property of a place takes, counted from 0.
fn share(what: Named, place: usize, parts: &[Token]) -> Option<&[Token]>
    ensures { option_copied result ≡ share what place parts.now }
{
    match what {
        Named::Longhand(_) | Named::Border => Some(parts),
        Named::Margin | Named::Padding => nth_in_turn(&[1, 2, 4], place, parts),
        Named::Overflow => nth_in_turn(&[1, 2], place, parts),
        Named::Align | Named::ContentAlign => nth_in_turn(&[2], place, parts),
    }
}

/// The value of a name's property, the first of which has the place 0.
fn value_at(
    alloc: Global,
    what: Named,
    place: usize,
    property: Property,
    text: &[u8],
    parts: &[Token],
) -> Result<Value, ValueFault>
    ensures { GivesSome (λ v. v) result
        (option_and_then (value_of property) (share what place (lexemes text.now parts.now))) }
{
    match share(what, place, parts) {
        Some(tokens) => value_of(alloc, property, text, tokens),
        None => Err(ValueFault::BadValue),
    }
}

/// The properties of a name, each with its value.
fn given_pairs(
    alloc: Global,
    what: Named,
    properties: &[Property],
    text: &[u8],
    parts: &[Token],
) -> Result<Vec<(Property, Value)>, ValueFault>
    ensures { GivesSome (λ pairs. pairs.items) result
        (pairs_from what (lexemes text.now parts.now) 0 properties.now) }
{
    let mut pairs = Vec::new(alloc);
    for (place, property) in properties.iter().enumerate() {
        let value = value_at(alloc, what, place, *property, text, parts)?;
        let Ok(()) = pairs.push((*property, value)) else {
            return Err(ValueFault::NoMemory);
        };
    }
    Ok(pairs)
}

/// The properties, each with `initial`.
fn all_initial(alloc: Global, properties: &[Property]) -> Result<Vec<(Property, Value)>, NoMemory>
    ensures { IfOk result (λ pairs. pairs.items ≡ all_initial properties.now) }
{
    let mut pairs = Vec::new(alloc);
    for property in properties {
        let Ok(()) = pairs.push((*property, Value::Initial)) else {
            return Err(AllocError);
        };
    }
    Ok(pairs)
}

/// What a name with these tokens stands for, which have no spaces and comments.
#[tactic(auto, unfolding(crate::specs::Declarations::pairs_of))]
fn pairs_of(
    alloc: Global,
    what: Named,
    text: &[u8],
    parts: &[Token],
) -> Result<Vec<(Property, Value)>, ValueFault>
    ensures { GivesSome (λ pairs. pairs.items) result (pairs_of what (lexemes text.now parts.now)) }
{
    let properties = properties(&what);
    if is_only(INITIAL, text, parts) {
        let pairs = all_initial(alloc, properties)?;
        return Ok(pairs);
    }
    given_pairs(alloc, what, properties, text, parts)
}

/// What a name with these tokens stands for.
fn pairs_without_blanks(
    alloc: Global,
    what: Named,
    text: &[u8],
    tokens: &[Token],
) -> Result<Vec<(Property, Value)>, ValueFault>
    ensures { GivesSome (λ pairs. pairs.items) result
        (pairs_of what (without_blanks (lexemes text.now tokens.now))) }
{
    if are_parts(tokens) {
        return pairs_of(alloc, what, text, tokens);
    }
    let parts = parts_of(alloc, tokens)?;
    pairs_of(alloc, what, text, parts.as_slice())
}

/// What a declaration of this name with these tokens stands for: properties with their values, in
/// the order of the table of properties. The tokens are those of `text`, which needn't be UTF-8.
/// Spaces and comments among them count for nothing. A variable among them is a predefined one.
///
/// `UnknownProperty` comes exactly where the name isn't one of the table, and `BadValue` exactly
/// where it is and the tokens aren't its values.
pub fn values_of(
    alloc: Global,
    name: &[u8],
    text: &[u8],
    tokens: &[Token],
) -> Result<Vec<(Property, Value)>, ValueFault>
    ensures exact { Gives (λ pairs. pairs.items) told result
        (declaration name.now (lexemes text.now tokens.now)) }
    // Each value is one that the table gives its property, or the initial one.
    ensures held { IfOk result (λ pairs. AllHold pairs.items) }
{
    let Some(what) = meaning_of(name) else {
        return Err(ValueFault::UnknownProperty);
    };
    pairs_without_blanks(alloc, what, text, tokens)
}

/// The same as [`values_of`], of texts.
pub fn read_value(
    alloc: Global,
    name: &str,
    text: &str,
    tokens: &[Token],
) -> Result<Vec<(Property, Value)>, ValueFault>
    ensures exact { Gives (λ pairs. pairs.items) told result
        (declaration name.now (lexemes text.now tokens.now)) }
    ensures held { IfOk result (λ pairs. AllHold pairs.items) }
{
    values_of(alloc, name.as_bytes(), text.as_bytes(), tokens)
}
