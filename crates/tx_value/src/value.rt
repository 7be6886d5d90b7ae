//! The values of properties.
ghost use Rattle.std.specs.Prelude.{◌≡◌, IfOk};

use crate::theme::ThemeName;
use tx_frac::Scalar;
use tx_geom::{BorderKind, Colour, Rgb, TextStyle};
use tx_text::{Items, Name, Names, NoMemory};

/// A keyword.
#[derive(Clone, Copy, Debug, PartialEq, Eq)]
pub enum Word {
    Block,
    /// `none`.
    Nothing,
    Visible,
    Hidden,
    Vertical,
    Horizontal,
    Grid,
    Top,
    Right,
    Bottom,
    Left,
    BorderBox,
    ContentBox,
    Auto,
    Scroll,
    Center,
    Middle,
}

/// A colour, or one that the theme gives. Its alpha is the percentage, from 0 to 100, in which it
/// covers what lies under it.
#[derive(Clone, Copy, Debug, PartialEq, Eq)]
pub enum Ink {
    Fixed(Colour),
    Theme { name: ThemeName, alpha: u8 },
}

/// A colour before its alpha is known.
#[derive(Clone, Copy, Debug, PartialEq, Eq)]
pub enum Hue {
    Plain(Rgb),
    Themed(ThemeName),
}

/// Sizes in their order.
pub type Sizes = Items<Scalar>;

/// A value of a property.
#[derive(Debug, Drop)]
pub enum Value {
    /// A keyword. `Nothing` also is the value of a border that isn't drawn, and of `layers` and
    /// `layer` where no name was given.
    Word(Word),
    /// A size; `auto` is the number 0 with the unit `Auto`.
    Size(Scalar),
    /// A number of cells or of tracks.
    Whole(u32),
    /// The two numbers of `offset`, across and down, or of `grid-gutter`, down and across.
    Pair(i32, i32),
    /// The columns of a grid, from 1 to 100, and its rows, from 1 to 1,000, where they are given.
    GridSize { columns: u32, rows: Option<u32> },
    /// The sizes of columns or rows, at most 60. None stand for one of `1fr`.
    Sizes(Sizes),
    /// The layers of a container, lowest first. A name that comes again counts by its first place.
    Names(Names),
    /// The layer of a row.
    Layer(Name),
    /// The border of a side. Without a colour it has the colour `#00ff00`.
    Border { kind: BorderKind, ink: Option<Ink> },
    /// A colour.
    Ink(Ink),
    /// The marks of a text.
    Marks(TextStyle),
    /// What the default sheet gives the row for the property, or else the property's initial value.
    Initial,
}

impl Value {
    /// A second value that equals this one.
    pub fn copy(&self) -> Result<Value, NoMemory>
        ensures { IfOk result (λ v. v ≡ self.now) }
    {
        Ok(match self {
            Value::Word(word) => Value::Word(*word),
            Value::Size(size) => Value::Size(*size),
            Value::Whole(number) => Value::Whole(*number),
            Value::Pair(first, second) => Value::Pair(*first, *second),
            Value::GridSize { columns, rows } => Value::GridSize {
                columns: *columns,
                rows: *rows,
            },
            Value::Sizes(sizes) => Value::Sizes(sizes.copy()?),
            Value::Names(names) => Value::Names(names.copy()?),
            Value::Layer(name) => Value::Layer(*name),
            Value::Border { kind, ink } => Value::Border {
                kind: *kind,
                ink: *ink,
            },
            Value::Ink(ink) => Value::Ink(*ink),
            Value::Marks(marks) => Value::Marks(*marks),
            Value::Initial => Value::Initial,
        })
    }
}
