//! The values of each property. Spaces and comments are left out before.
ghost use Rattle.std.specs.Prelude.{◌≡◌};
ghost use Rattle.tx_lex.specs.Lexemes.{lexeme, lexemes};
ghost use Rattle.tx_value.specs.Names.{name_in};
ghost use Rattle.tx_value.specs.Numbers.{scalar_of};
ghost use Rattle.tx_value.specs.Answers.{GivesSome};
ghost use Rattle.tx_value.specs.Values.{word, size, limit, whole, border_kind, optional_colour, drawn, border, ink, mark_of, marks_of, text_style, grid_size, each, tracks, pair, cells, gutter, offset, name_of, layers, layer, value_of};

use crate::colours::colour;
use crate::fault::ValueFault;
use crate::names::{is_only, is_word, word_of};
use crate::numbers::{limit_of, scalar_of, signed_of, size_of, whole_of};
use crate::property::Property;
use crate::tables::{
    BORDERS, BOX_SIZINGS, DISPLAYS, DOCKS, LAYOUTS, MARKS, NONE, OVERFLOWS, PLACES_ACROSS,
    PLACES_DOWN, VISIBILITIES,
};
use crate::value::{Ink, Sizes, Value, Word};
use std::alloc::Global;
use tx_frac::Scalar;
use tx_geom::{BorderKind, TextStyle};
use tx_lex::{Token, token_bytes};
use tx_read::entry;
use tx_text::{Name, Names};

/// One of some keywords.
fn word(choices: &[Word], text: &[u8], parts: &[Token]) -> Option<Value>
    ensures { result ≡ word choices.now (lexemes text.now parts.now) }
{
    let [only] = parts else {
        return None;
    };
    Some(Value::Word(word_of(choices, text, *only)?))
}

/// A size.
fn size(text: &[u8], parts: &[Token]) -> Option<Value>
    ensures { result ≡ size (lexemes text.now parts.now) }
{
    let [only] = parts else {
        return None;
    };
    Some(Value::Size(size_of(text, *only)?))
}

/// `none`, or a size without `fr` and `auto`.
fn limit(text: &[u8], parts: &[Token]) -> Option<Value>
    ensures { result ≡ limit (lexemes text.now parts.now) }
{
    let [only] = parts else {
        return None;
    };
    if is_word(NONE, text, *only) {
        return Some(Value::Word(Word::Nothing));
    }
    Some(Value::Size(limit_of(text, *only)?))
}

/// A whole number from one number to another.
fn whole(least: u32, most: u32, text: &[u8], parts: &[Token]) -> Option<Value>
    ensures { result ≡ whole least most (lexemes text.now parts.now) }
{
    let [only] = parts else {
        return None;
    };
    Some(Value::Whole(whole_of(least, most, text, *only)?))
}

/// The kind of a border of this name, or that there is none.
#[tactic(auto, unfolding(crate::specs::Values::border_kind))]
fn border_kind(name: &[u8]) -> Option<Option<BorderKind>>
    ensures { result ≡ border_kind name.now }
{
    entry(&BORDERS, name)
}

fn border_kind_of(text: &[u8], token: Token) -> Option<Option<BorderKind>>
    ensures { result ≡ name_in border_kind (lexeme text.now token) }
{
    if token.kind.is_name() {
        border_kind(token_bytes(text, token))
    } else {
        None
    }
}

/// A colour, where there is something.
fn optional_colour(text: &[u8], parts: &[Token]) -> Option<Option<Ink>>
    ensures { result ≡ optional_colour (lexemes text.now parts.now) }
{
    if parts.is_empty() {
        return Some(None);
    }
    Some(Some(colour(text, parts)?))
}

/// The value that these are; `none` is no border.
fn drawn(kind: Option<BorderKind>, ink: Option<Ink>) -> Value
    ensures { result ≡ drawn kind ink }
{
    match kind {
        Some(kind) => Value::Border { kind, ink },
        None => Value::Word(Word::Nothing),
    }
}

/// A kind of border or `none`, and an optional colour.
#[tactic(auto, unfolding(crate::specs::Values::border))]
fn border(text: &[u8], parts: &[Token]) -> Option<Value>
    ensures { result ≡ border (lexemes text.now parts.now) }
{
    let [first, rest @ ..] = parts else {
        return None;
    };
    let kind = border_kind_of(text, *first)?;
    let ink = optional_colour(text, rest)?;
    Some(drawn(kind, ink))
}

/// A colour.
fn ink(text: &[u8], parts: &[Token]) -> Option<Value>
    ensures { result ≡ ink (lexemes text.now parts.now) }
{
    Some(Value::Ink(colour(text, parts)?))
}

#[tactic(auto, unfolding(crate::specs::Values::mark_of))]
fn mark_of(name: &[u8]) -> Option<TextStyle>
    ensures { result ≡ mark_of name.now }
{
    entry(&MARKS, name)
}

fn mark_in(text: &[u8], token: Token) -> Option<TextStyle>
    ensures { result ≡ name_in mark_of (lexeme text.now token) }
{
    if token.kind.is_name() {
        mark_of(token_bytes(text, token))
    } else {
        None
    }
}

/// The marks of all tokens.
fn marks_of(text: &[u8], parts: &[Token]) -> Option<TextStyle>
    ensures { result ≡ marks_of (lexemes text.now parts.now) }
{
    let mut marks = TextStyle::PLAIN;
    for part in parts {
        marks = marks.with(mark_in(text, *part)?);
    }
    Some(marks)
}

/// `none`, or one or more marks.
#[tactic(auto, unfolding(crate::specs::Values::text_style))]
fn text_style(text: &[u8], parts: &[Token]) -> Option<Value>
    ensures { result ≡ text_style (lexemes text.now parts.now) }
{
    if parts.is_empty() {
        return None;
    }
    if is_only(NONE, text, parts) {
        return Some(Value::Marks(TextStyle::PLAIN));
    }
    Some(Value::Marks(marks_of(text, parts)?))
}

/// Columns, and rows where they are given.
#[tactic(auto, unfolding(crate::specs::Values::grid_size))]
fn grid_size(text: &[u8], parts: &[Token]) -> Option<Value>
    ensures { result ≡ grid_size (lexemes text.now parts.now) }
{
    match parts {
        [columns] => Some(Value::GridSize {
            columns: whole_of(1, 100, text, *columns)?,
            rows: None,
        }),
        [columns, rows] => Some(Value::GridSize {
            columns: whole_of(1, 100, text, *columns)?,
            rows: Some(whole_of(1, 1000, text, *rows)?),
        }),
        _ => None,
    }
}

fn pair(first: Option<i32>, second: Option<i32>) -> Option<Value>
    ensures { result ≡ pair first second }
{
    Some(Value::Pair(first?, second?))
}

fn cells(text: &[u8], token: Token) -> Option<i32>
    ensures { result ≡ cells (lexeme text.now token) }
{
    Some(whole_of(0, 9999, text, token)? as i32)
}

/// One number for both, or vertical and horizontal.
#[tactic(auto, unfolding(crate::specs::Values::gutter))]
fn gutter(text: &[u8], parts: &[Token]) -> Option<Value>
    ensures { result ≡ gutter (lexemes text.now parts.now) }
{
    match parts {
        [both] => pair(cells(text, *both), cells(text, *both)),
        [vertical, horizontal] => pair(cells(text, *vertical), cells(text, *horizontal)),
        _ => None,
    }
}

/// Across and down, each with an optional `-`.
#[tactic(auto, unfolding(crate::specs::Values::offset))]
fn offset(text: &[u8], parts: &[Token]) -> Option<Value>
    ensures { result ≡ offset (lexemes text.now parts.now) }
{
    match parts {
        [x, y] => pair(signed_of(9999, text, *x), signed_of(9999, text, *y)),
        _ => None,
    }
}

fn name_of(text: &[u8], token: Token) -> Option<Name>
    ensures { result ≡ name_of (lexeme text.now token) }
{
    if token.kind.is_name() {
        Name::of_bytes(token_bytes(text, token))
    } else {
        None
    }
}

/// A name.
fn layer(text: &[u8], parts: &[Token]) -> Option<Value>
    ensures { result ≡ layer (lexemes text.now parts.now) }
{
    let [only] = parts else {
        return None;
    };
    Some(Value::Layer(name_of(text, *only)?))
}

/// The sizes of some tokens, where all are sizes.
fn sizes_of(alloc: Global, text: &[u8], parts: &[Token]) -> Result<Vec<Scalar>, ValueFault>
    ensures { GivesSome (λ v. v.items) result (each scalar_of (lexemes text.now parts.now)) }
{
    let mut sizes = Vec::new(alloc);
    for part in parts {
        let Some(size) = scalar_of(text, *part) else {
            return Err(ValueFault::BadValue);
        };
        let Ok(()) = sizes.push(size) else {
            return Err(ValueFault::NoMemory);
        };
    }
    Ok(sizes)
}

/// The sizes of 1 to 60 columns or rows.
fn tracks(alloc: Global, text: &[u8], parts: &[Token]) -> Result<Value, ValueFault>
    ensures { GivesSome (λ v. v) result (tracks (lexemes text.now parts.now)) }
{
    if parts.is_empty() || parts.len() > 60 {
        return Err(ValueFault::BadValue);
    }
    let sizes = sizes_of(alloc, text, parts)?;
    Ok(Value::Sizes(Sizes::of(sizes)))
}

/// The names of some tokens, where all are names.
fn names_of(alloc: Global, text: &[u8], parts: &[Token]) -> Result<Vec<Name>, ValueFault>
    ensures { GivesSome (λ v. v.items) result (each name_of (lexemes text.now parts.now)) }
{
    let mut names = Vec::new(alloc);
    for part in parts {
        let Some(name) = name_of(text, *part) else {
            return Err(ValueFault::BadValue);
        };
        let Ok(()) = names.push(name) else {
            return Err(ValueFault::NoMemory);
        };
    }
    Ok(names)
}

/// 1 to 32 names.
fn layers(alloc: Global, text: &[u8], parts: &[Token]) -> Result<Value, ValueFault>
    ensures { GivesSome (λ v. v) result (layers (lexemes text.now parts.now)) }
{
    if parts.is_empty() || parts.len() > 32 {
        return Err(ValueFault::BadValue);
    }
    let names = names_of(alloc, text, parts)?;
    Ok(Value::Names(Names::of(names)))
}

/// The value, where there is one.
fn given(value: Option<Value>) -> Result<Value, ValueFault>
    ensures { GivesSome (λ v. v) result value }
{
    match value {
        Some(value) => Ok(value),
        None => Err(ValueFault::BadValue),
    }
}

/// The value of a property.
#[tactic(auto, unfolding(crate::specs::Values::value_of))]
pub fn value_of(
    alloc: Global,
    property: Property,
    text: &[u8],
    parts: &[Token],
) -> Result<Value, ValueFault>
    ensures { GivesSome (λ v. v) result (value_of property (lexemes text.now parts.now)) }
{
    match property {
        Property::Display => given(word(&DISPLAYS, text, parts)),
        Property::Visibility => given(word(&VISIBILITIES, text, parts)),
        Property::Layout => given(word(&LAYOUTS, text, parts)),
        Property::Dock => given(word(&DOCKS, text, parts)),
        Property::Width | Property::Height => given(size(text, parts)),
        Property::MinWidth | Property::MaxWidth | Property::MinHeight | Property::MaxHeight => {
            given(limit(text, parts))
        }
        Property::BoxSizing => given(word(&BOX_SIZINGS, text, parts)),
        Property::MarginTop
        | Property::MarginRight
        | Property::MarginBottom
        | Property::MarginLeft
        | Property::PaddingTop
        | Property::PaddingRight
        | Property::PaddingBottom
        | Property::PaddingLeft => given(whole(0, 9999, text, parts)),
        Property::BorderTop
        | Property::BorderRight
        | Property::BorderBottom
        | Property::BorderLeft => given(border(text, parts)),
        Property::Background | Property::Color => given(ink(text, parts)),
        Property::TextStyle => given(text_style(text, parts)),
        Property::GridSize => given(grid_size(text, parts)),
        Property::GridColumns | Property::GridRows => tracks(alloc, text, parts),
        Property::GridGutter => given(gutter(text, parts)),
        Property::ColumnSpan | Property::RowSpan => given(whole(1, 100, text, parts)),
        Property::Layers => layers(alloc, text, parts),
        Property::Layer => given(layer(text, parts)),
        Property::OverflowX | Property::OverflowY => given(word(&OVERFLOWS, text, parts)),
        Property::Offset => given(offset(text, parts)),
        Property::AlignHorizontal | Property::ContentAlignHorizontal | Property::TextAlign => {
            given(word(&PLACES_ACROSS, text, parts))
        }
        Property::AlignVertical | Property::ContentAlignVertical => {
            given(word(&PLACES_DOWN, text, parts))
        }
    }
}
