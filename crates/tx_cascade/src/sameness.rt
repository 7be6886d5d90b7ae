//! Whether two styles are equal.
ghost use Rattle.std.specs.Prelude.{◌≡◌, true, []};
ghost use Rattle.tx_value.specs.Style.{IsStyle, style_value};
ghost use Rattle.tx_value.specs.declared.value.Value.TheVariants as value;

use tx_frac::Scalar;
use tx_geom::{BorderKind, TextStyle};
use tx_text::{Name, Names};
use tx_value::laws::styles_are_values;
use tx_value::{Ink, Property, Sizes, Style, Value, Word, all_properties};

fn is_word(word: Word, other: &Value) -> bool
    ensures { result ≡ true → value.Word word ≡ other.now }
{
    match other {
        Value::Word(held) => word == *held,
        _ => false,
    }
}

fn is_size(size: Scalar, other: &Value) -> bool
    ensures { result ≡ true → value.Size size ≡ other.now }
{
    match other {
        Value::Size(held) => size == *held,
        _ => false,
    }
}

fn is_whole(number: u32, other: &Value) -> bool
    ensures { result ≡ true → value.Whole number ≡ other.now }
{
    match other {
        Value::Whole(held) => number == *held,
        _ => false,
    }
}

fn is_pair(first: i32, second: i32, other: &Value) -> bool
    ensures { result ≡ true → value.Pair first second ≡ other.now }
{
    match other {
        Value::Pair(held, behind) => first == *held && second == *behind,
        _ => false,
    }
}

fn is_grid_size(columns: u32, rows: Option<u32>, other: &Value) -> bool
    ensures { result ≡ true → value.GridSize columns rows ≡ other.now }
{
    match other {
        Value::GridSize {
            columns: held,
            rows: behind,
        } => columns == *held && rows == *behind,
        _ => false,
    }
}

fn has_none<T>(list: &[T]) -> bool
    ensures { result ≡ true → list.now ≡ [] }
{
    matches!(list, [])
}

// Lists with items aren't compared.
fn is_sizes(sizes: &Sizes, other: &Value) -> bool
    ensures { result ≡ true → value.Sizes sizes.now ≡ other.now }
{
    match other {
        Value::Sizes(held) => has_none(sizes.as_slice()) && has_none(held.as_slice()),
        _ => false,
    }
}

fn is_names(names: &Names, other: &Value) -> bool
    ensures { result ≡ true → value.Names names.now ≡ other.now }
{
    match other {
        Value::Names(held) => has_none(names.as_slice()) && has_none(held.as_slice()),
        _ => false,
    }
}

fn is_layer(name: &Name, other: &Value) -> bool
    ensures { result ≡ true → value.Layer name.now ≡ other.now }
{
    match other {
        Value::Layer(held) => *name == *held,
        _ => false,
    }
}

fn is_border(kind: BorderKind, ink: Option<Ink>, other: &Value) -> bool
    ensures { result ≡ true → value.Border kind ink ≡ other.now }
{
    match other {
        Value::Border {
            kind: held,
            ink: behind,
        } => kind == *held && ink == *behind,
        _ => false,
    }
}

fn is_ink(ink: Ink, other: &Value) -> bool
    ensures { result ≡ true → value.Ink ink ≡ other.now }
{
    match other {
        Value::Ink(held) => ink == *held,
        _ => false,
    }
}

fn is_marks(marks: TextStyle, other: &Value) -> bool
    ensures { result ≡ true → value.Marks marks ≡ other.now }
{
    match other {
        Value::Marks(held) => marks == *held,
        _ => false,
    }
}

fn is_initial(other: &Value) -> bool
    ensures { result ≡ true → value.Initial ≡ other.now }
{
    matches!(other, Value::Initial)
}

/// Whether two values are found to be equal, which lists are only where both have no items.
fn is_same(first: &Value, second: &Value) -> bool
    ensures { result ≡ true → first.now ≡ second.now }
{
    match first {
        Value::Word(word) => is_word(*word, second),
        Value::Size(size) => is_size(*size, second),
        Value::Whole(number) => is_whole(*number, second),
        Value::Pair(one, other) => is_pair(*one, *other, second),
        Value::GridSize { columns, rows } => is_grid_size(*columns, *rows, second),
        Value::Sizes(sizes) => is_sizes(sizes, second),
        Value::Names(names) => is_names(names, second),
        Value::Layer(name) => is_layer(name, second),
        Value::Border { kind, ink } => is_border(*kind, *ink, second),
        Value::Ink(ink) => is_ink(*ink, second),
        Value::Marks(marks) => is_marks(*marks, second),
        Value::Initial => is_initial(second),
    }
}

/// Whether two styles have the same value of a property.
fn has_same(first: &Style, second: &Style, property: Property) -> bool
    ensures { result ≡ true → style_value first.now property ≡ style_value second.now property }
{
    is_same(first.get(property), second.get(property))
}

/// Whether two styles are found to be equal.
pub fn is_same_style(first: &Style, second: &Style) -> bool
    requires first { IsStyle first.now }
    requires second { IsStyle second.now }
    ensures { result ≡ true → first.now ≡ second.now }
{
    styles_are_values();
    for property in all_properties() {
        if !has_same(first, second, *property) {
            return false;
        }
    }
    true
}
