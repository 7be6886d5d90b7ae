//! The words of declarations and values, and what each stands for.

use crate::property::{Named, Property};
use crate::value::Word;
use tx_frac::Unit;
use tx_geom::{BorderKind, Rgb, TextStyle};

/// A colour by its channels.
macro_rules! rgb {
    ($r:literal, $g:literal, $b:literal) => {
        Rgb {
            r: $r,
            g: $g,
            b: $b,
        }
    };
}

pub(crate) use rgb;

// The names of declarations: at each place those of that many bytes.
pub const NAMES: [&[(&[u8], Named)]; 25] = [
    &[],
    &[],
    &[],
    &[],
    &[(b"dock", Named::Longhand(Property::Dock))],
    &[
        (b"width", Named::Longhand(Property::Width)),
        (b"color", Named::Longhand(Property::Color)),
        (b"layer", Named::Longhand(Property::Layer)),
        (b"align", Named::Align),
    ],
    &[
        (b"layout", Named::Longhand(Property::Layout)),
        (b"height", Named::Longhand(Property::Height)),
        (b"margin", Named::Margin),
        (b"border", Named::Border),
        (b"layers", Named::Longhand(Property::Layers)),
        (b"offset", Named::Longhand(Property::Offset)),
    ],
    &[
        (b"display", Named::Longhand(Property::Display)),
        (b"padding", Named::Padding),
    ],
    &[
        (b"row-span", Named::Longhand(Property::RowSpan)),
        (b"overflow", Named::Overflow),
    ],
    &[
        (b"min-width", Named::Longhand(Property::MinWidth)),
        (b"max-width", Named::Longhand(Property::MaxWidth)),
        (b"grid-size", Named::Longhand(Property::GridSize)),
        (b"grid-rows", Named::Longhand(Property::GridRows)),
    ],
    &[
        (b"visibility", Named::Longhand(Property::Visibility)),
        (b"min-height", Named::Longhand(Property::MinHeight)),
        (b"max-height", Named::Longhand(Property::MaxHeight)),
        (b"box-sizing", Named::Longhand(Property::BoxSizing)),
        (b"margin-top", Named::Longhand(Property::MarginTop)),
        (b"border-top", Named::Longhand(Property::BorderTop)),
        (b"background", Named::Longhand(Property::Background)),
        (b"text-style", Named::Longhand(Property::TextStyle)),
        (b"overflow-x", Named::Longhand(Property::OverflowX)),
        (b"overflow-y", Named::Longhand(Property::OverflowY)),
        (b"text-align", Named::Longhand(Property::TextAlign)),
    ],
    &[
        (b"margin-left", Named::Longhand(Property::MarginLeft)),
        (b"padding-top", Named::Longhand(Property::PaddingTop)),
        (b"border-left", Named::Longhand(Property::BorderLeft)),
        (b"grid-gutter", Named::Longhand(Property::GridGutter)),
        (b"column-span", Named::Longhand(Property::ColumnSpan)),
    ],
    &[
        (b"margin-right", Named::Longhand(Property::MarginRight)),
        (b"padding-left", Named::Longhand(Property::PaddingLeft)),
        (b"border-right", Named::Longhand(Property::BorderRight)),
        (b"grid-columns", Named::Longhand(Property::GridColumns)),
    ],
    &[
        (b"margin-bottom", Named::Longhand(Property::MarginBottom)),
        (b"padding-right", Named::Longhand(Property::PaddingRight)),
        (b"border-bottom", Named::Longhand(Property::BorderBottom)),
        (b"content-align", Named::ContentAlign),
    ],
    &[
        (b"padding-bottom", Named::Longhand(Property::PaddingBottom)),
        (b"align-vertical", Named::Longhand(Property::AlignVertical)),
    ],
    &[],
    &[(
        b"align-horizontal",
        Named::Longhand(Property::AlignHorizontal),
    )],
    &[],
    &[],
    &[],
    &[],
    &[],
    &[(
        b"content-align-vertical",
        Named::Longhand(Property::ContentAlignVertical),
    )],
    &[],
    &[(
        b"content-align-horizontal",
        Named::Longhand(Property::ContentAlignHorizontal),
    )],
];

// ---- the properties of the names that stand for several

pub const MARGINS: [Property; 4] = [
    Property::MarginTop,
    Property::MarginRight,
    Property::MarginBottom,
    Property::MarginLeft,
];

pub const PADDINGS: [Property; 4] = [
    Property::PaddingTop,
    Property::PaddingRight,
    Property::PaddingBottom,
    Property::PaddingLeft,
];

pub const BORDER_SIDES: [Property; 4] = [
    Property::BorderTop,
    Property::BorderRight,
    Property::BorderBottom,
    Property::BorderLeft,
];

pub const OVERFLOW_AXES: [Property; 2] = [Property::OverflowX, Property::OverflowY];

pub const ALIGN_AXES: [Property; 2] = [Property::AlignHorizontal, Property::AlignVertical];

pub const CONTENT_ALIGN_AXES: [Property; 2] = [
    Property::ContentAlignHorizontal,
    Property::ContentAlignVertical,
];

// ---- keywords

pub const WORDS: [(&[u8], Word); 17] = [
    (b"block", Word::Block),
    (b"none", Word::Nothing),
    (b"visible", Word::Visible),
    (b"hidden", Word::Hidden),
    (b"vertical", Word::Vertical),
    (b"horizontal", Word::Horizontal),
    (b"grid", Word::Grid),
    (b"top", Word::Top),
    (b"right", Word::Right),
    (b"bottom", Word::Bottom),
    (b"left", Word::Left),
    (b"border-box", Word::BorderBox),
    (b"content-box", Word::ContentBox),
    (b"auto", Word::Auto),
    (b"scroll", Word::Scroll),
    (b"center", Word::Center),
    (b"middle", Word::Middle),
];

// The keywords that the properties take.
pub const DISPLAYS: [Word; 2] = [Word::Block, Word::Nothing];

pub const VISIBILITIES: [Word; 2] = [Word::Visible, Word::Hidden];

pub const LAYOUTS: [Word; 3] = [Word::Vertical, Word::Horizontal, Word::Grid];

pub const DOCKS: [Word; 5] = [
    Word::Top,
    Word::Right,
    Word::Bottom,
    Word::Left,
    Word::Nothing,
];

pub const BOX_SIZINGS: [Word; 2] = [Word::BorderBox, Word::ContentBox];

pub const OVERFLOWS: [Word; 3] = [Word::Auto, Word::Hidden, Word::Scroll];

pub const PLACES_ACROSS: [Word; 3] = [Word::Left, Word::Center, Word::Right];

pub const PLACES_DOWN: [Word; 3] = [Word::Top, Word::Middle, Word::Bottom];

// Words that are looked for by themselves.
pub const NONE: &[u8] = b"none";

pub const AUTO: &[u8] = b"auto";

pub const INITIAL: &[u8] = b"initial";

pub const RGB: &[u8] = b"rgb";

pub const TRANSPARENT: &[u8] = b"transparent";

// The kinds of a border, and that there is none.
pub const BORDERS: [(&[u8], Option<BorderKind>); 7] = [
    (b"none", None),
    (b"blank", Some(BorderKind::Blank)),
    (b"ascii", Some(BorderKind::Ascii)),
    (b"solid", Some(BorderKind::Solid)),
    (b"round", Some(BorderKind::Round)),
    (b"double", Some(BorderKind::Double)),
    (b"heavy", Some(BorderKind::Heavy)),
];

pub const MARKS: [(&[u8], TextStyle); 6] = [
    (
        b"bold",
        TextStyle {
            bold: true,
            ..TextStyle::PLAIN
        },
    ),
    (
        b"dim",
        TextStyle {
            dim: true,
            ..TextStyle::PLAIN
        },
    ),
    (
        b"italic",
        TextStyle {
            italic: true,
            ..TextStyle::PLAIN
        },
    ),
    (
        b"underline",
        TextStyle {
            underline: true,
            ..TextStyle::PLAIN
        },
    ),
    (
        b"reverse",
        TextStyle {
            reverse: true,
            ..TextStyle::PLAIN
        },
    ),
    (
        b"strike",
        TextStyle {
            strike: true,
            ..TextStyle::PLAIN
        },
    ),
];

// ---- units

pub const UNITS: [(&[u8], Unit); 7] = [
    (b"", Unit::Cells),
    (b"%", Unit::Percent),
    (b"w", Unit::W),
    (b"h", Unit::H),
    (b"vw", Unit::Vw),
    (b"vh", Unit::Vh),
    (b"fr", Unit::Fr),
];

// ---- colours

pub const COLOURS: [(&[u8], Rgb); 18] = [
    (b"black", rgb!(0x00, 0x00, 0x00)),
    (b"white", rgb!(0xff, 0xff, 0xff)),
    (b"red", rgb!(0xff, 0x00, 0x00)),
    (b"green", rgb!(0x00, 0x80, 0x00)),
    (b"blue", rgb!(0x00, 0x00, 0xff)),
    (b"yellow", rgb!(0xff, 0xff, 0x00)),
    (b"cyan", rgb!(0x00, 0xff, 0xff)),
    (b"magenta", rgb!(0xff, 0x00, 0xff)),
    (b"gray", rgb!(0x80, 0x80, 0x80)),
    (b"grey", rgb!(0x80, 0x80, 0x80)),
    (b"silver", rgb!(0xc0, 0xc0, 0xc0)),
    (b"maroon", rgb!(0x80, 0x00, 0x00)),
    (b"navy", rgb!(0x00, 0x00, 0x80)),
    (b"teal", rgb!(0x00, 0x80, 0x80)),
    (b"olive", rgb!(0x80, 0x80, 0x00)),
    (b"purple", rgb!(0x80, 0x00, 0x80)),
    (b"lime", rgb!(0x00, 0xff, 0x00)),
    (b"orange", rgb!(0xff, 0xa5, 0x00)),
];
