//! What a value says of each sort. A value of another sort, `initial` too, says what the initial
//! one of the properties of that sort says.
ghost use Rattle.std.specs.Prelude.{◌≡◌, ◌≤◌, true, ◌&&◌, length, unsigned_abs, None, option_copied, if◌then◌else◌};
ghost use Rattle.std.specs.List.{list_all};
ghost use Rattle.tx_value.specs.Numbers.{is_within};
ghost use Rattle.tx_value.specs.Holds.{is_auto, is_optional_rows, is_offset_part, is_gutter_part};
ghost use Rattle.tx_value.specs.ValueReads.{word_in, says, is_unsigned, is_length, size_in, limit_in, tracks_in, cells_in, span_in, grid_size_in, grid_gutter_in, nowhere_else, offset_in, layer_in, layers_in, colour_of, background_in, color_in, border_ink, border_in, marks_in};

use crate::colours::clear;
use crate::initials::whole_size;
use crate::names::same_word;
use crate::numbers::is_share;
use crate::theme::{ThemeName, theme_colour};
use crate::value::{Ink, Value, Word};
use tx_frac::{Scalar, Unit};
use tx_geom::{BorderKind, Colour, Offset, Rgb, TextStyle};
use tx_text::Name;

/// The border of an edge: what it is drawn with, and in which colour.
#[derive(Clone, Copy, Debug, PartialEq, Eq)]
pub struct Border {
    pub kind: BorderKind,
    pub ink: Ink,
}

/// The keyword, or `none`.
pub fn word_in(value: &Value) -> Word
    ensures { result ≡ word_in value.now }
{
    match value {
        Value::Word(word) => *word,
        _ => Word::Nothing,
    }
}

/// Whether the value is this keyword.
pub fn says(word: Word, value: &Value) -> bool
    ensures { result ≡ says word value.now }
{
    match value {
        Value::Word(other) => same_word(*other, word),
        _ => false,
    }
}

// ---- sizes

fn is_unsigned(size: Scalar) -> bool
    ensures { result ≡ is_unsigned size }
{
    size.value.floor() >= 0
}

fn is_auto(unit: Unit) -> bool
    ensures { result ≡ is_auto unit }
{
    matches!(unit, Unit::Auto)
}

fn is_length(size: Scalar) -> bool
    ensures { result ≡ is_length size }
{
    let has_number = !is_auto(size.unit);
    has_number && is_unsigned(size)
}

pub fn size_in(value: &Value) -> Scalar
    ensures { result ≡ size_in value.now }
{
    match value {
        Value::Size(size) => {
            if is_unsigned(*size) {
                *size
            } else {
                whole_size()
            }
        }
        _ => whole_size(),
    }
}

pub fn limit_in(value: &Value) -> Option<Scalar>
    ensures { result ≡ limit_in value.now }
{
    match value {
        Value::Size(size) => {
            if is_length(*size) && !is_share(size.unit) {
                Some(*size)
            } else {
                None
            }
        }
        _ => None,
    }
}

fn are_lengths(sizes: &[Scalar]) -> bool
    ensures { result ≡ list_all is_length sizes.now }
{
    sizes.iter().all(|size| is_length(*size))
}

/// Whether these are from 1 to 60 sizes without `auto`.
fn are_tracks(sizes: &[Scalar]) -> bool
    ensures { result ≡ (is_within 1 60 (length sizes.now) && list_all is_length sizes.now) }
{
    !sizes.is_empty() && sizes.len() <= 60 && are_lengths(sizes)
}

/// The sizes of columns or rows; none stand for one of `1fr`.
pub fn tracks_in(value: &Value) -> &[Scalar]
    ensures { result.now ≡ tracks_in value.now }
{
    match value {
        Value::Sizes(sizes) => {
            if are_tracks(sizes.as_slice()) {
                sizes.as_slice()
            } else {
                &[]
            }
        }
        _ => &[],
    }
}

// ---- whole numbers

pub fn cells_in(value: &Value) -> u16
    ensures number { result ≡ cells_in value.now }
    ensures within { result ≤ 9999 }
{
    match value {
        Value::Whole(number) => { if *number <= 9999 { *number as u16 } else { 0 } }
        _ => 0,
    }
}

pub fn span_in(value: &Value) -> u32
    ensures number { result ≡ span_in value.now }
    ensures within { (1 ≤ result) × (result ≤ 100) }
{
    match value {
        Value::Whole(number) => {
            if 1 <= *number && *number <= 100 {
                *number
            } else {
                1
            }
        }
        _ => 1,
    }
}

fn is_optional_rows(rows: Option<u32>) -> bool
    ensures { result ≡ is_optional_rows rows }
{
    match rows {
        Some(rows) => 1 <= rows && rows <= 1000,
        None => true,
    }
}

fn grid_size_of(columns: u32, rows: Option<u32>) -> (u32, Option<u32>)
    ensures { result ≡ (if is_within 1 100 columns && is_optional_rows rows then (columns, rows) else (1, None)) }
{
    if 1 <= columns && columns <= 100 && is_optional_rows(rows) {
        (columns, rows)
    } else {
        (1, None)
    }
}

/// The columns, and the rows where they are given.
pub fn grid_size_in(value: &Value) -> (u32, Option<u32>)
    ensures { result ≡ grid_size_in value.now }
{
    match value {
        Value::GridSize { columns, rows } => grid_size_of(*columns, *rows),
        _ => (1, None),
    }
}

fn is_offset_part(number: i32) -> bool
    ensures { result ≡ is_offset_part number }
{
    number.unsigned_abs() <= 9999
}

fn is_gutter_part(number: i32) -> bool
    ensures { result ≡ is_gutter_part number }
{
    number >= 0 && is_offset_part(number)
}

fn grid_gutter_of(vertical: i32, horizontal: i32) -> (u32, u32)
    ensures { result ≡ (if is_gutter_part vertical && is_gutter_part horizontal then (unsigned_abs vertical, unsigned_abs horizontal) else (0, 0)) }
{
    if is_gutter_part(vertical) && is_gutter_part(horizontal) {
        (vertical.unsigned_abs(), horizontal.unsigned_abs())
    } else {
        (0, 0)
    }
}

/// Down and across.
pub fn grid_gutter_in(value: &Value) -> (u32, u32)
    ensures { result ≡ grid_gutter_in value.now }
{
    match value {
        Value::Pair(vertical, horizontal) => grid_gutter_of(*vertical, *horizontal),
        _ => (0, 0),
    }
}

fn offset_of(x: i32, y: i32) -> Offset
    ensures { result ≡ (if is_offset_part x && is_offset_part y then record { x = x; y = y } else nowhere_else) }
{
    if is_offset_part(x) && is_offset_part(y) {
        Offset {
            x: x as i64,
            y: y as i64,
        }
    } else {
        Offset { x: 0, y: 0 }
    }
}

pub fn offset_in(value: &Value) -> Offset
    ensures { result ≡ offset_in value.now }
{
    match value {
        Value::Pair(x, y) => offset_of(*x, *y),
        _ => Offset { x: 0, y: 0 },
    }
}

// ---- names

pub fn layer_in(value: &Value) -> Option<&Name>
    ensures { option_copied result ≡ layer_in value.now }
{
    match value {
        Value::Layer(name) => Some(name),
        _ => None,
    }
}

/// The layers of a container, lowest first.
pub fn layers_in(value: &Value) -> &[Name]
    ensures { result.now ≡ layers_in value.now }
{
    match value {
        Value::Names(names) => {
            if names.as_slice().is_empty() || names.as_slice().len() > 32 {
                &[]
            } else {
                names.as_slice()
            }
        }
        _ => &[],
    }
}

// ---- colours, borders and marks

impl Ink {
    /// The colour in the dark theme, or in the light one. An alpha saturates at 100.
    pub fn colour(self, dark: bool) -> Colour
        ensures { result ≡ colour_of dark self }
    {
        match self {
            Ink::Fixed(colour) => colour,
            Ink::Theme { name, alpha } => Colour {
                rgb: theme_colour(name, dark),
                alpha: alpha.min(100),
            },
        }
    }
}

pub fn background_in(value: &Value) -> Ink
    ensures { result ≡ background_in value.now }
{
    match value {
        Value::Ink(ink) => *ink,
        _ => clear(),
    }
}

pub fn color_in(value: &Value) -> Ink
    ensures { result ≡ color_in value.now }
{
    match value {
        Value::Ink(ink) => *ink,
        _ => Ink::Theme {
            name: ThemeName::Foreground,
            alpha: 100,
        },
    }
}

/// The colour of a border without one.
fn border_ink() -> Ink
    ensures { result ≡ border_ink }
{
    Ink::Fixed(Colour {
        rgb: Rgb {
            r: 0x00,
            g: 0xff,
            b: 0x00,
        },
        alpha: 100,
    })
}

pub fn border_in(value: &Value) -> Option<Border>
    ensures { result ≡ border_in value.now }
{
    match value {
        Value::Border { kind, ink } => Some(Border {
            kind: *kind,
            ink: (*ink).unwrap_or(border_ink()),
        }),
        _ => None,
    }
}

pub fn marks_in(value: &Value) -> TextStyle
    ensures { result ≡ marks_in value.now }
{
    match value {
        Value::Marks(marks) => *marks,
        _ => TextStyle::PLAIN,
    }
}
