//! The properties of a row.
ghost use Rattle.std.specs.Prelude.{◌≡◌};
ghost use Rattle.tx_value.specs.Style.{every_property};

/// A property that has one value, called as in TCSS: `MarginTop` is `margin-top`.
///
/// A name that stands for several of them, as `margin` does, is no property.
#[derive(Clone, Copy, Debug, PartialEq, Eq)]
pub enum Property {
    Display,
    Visibility,
    Layout,
    Dock,
    Width,
    Height,
    MinWidth,
    MaxWidth,
    MinHeight,
    MaxHeight,
    BoxSizing,
    MarginTop,
    MarginRight,
    MarginBottom,
    MarginLeft,
    PaddingTop,
    PaddingRight,
    PaddingBottom,
    PaddingLeft,
    BorderTop,
    BorderRight,
    BorderBottom,
    BorderLeft,
    Background,
    Color,
    TextStyle,
    GridSize,
    GridColumns,
    GridRows,
    GridGutter,
    ColumnSpan,
    RowSpan,
    Layers,
    Layer,
    OverflowX,
    OverflowY,
    Offset,
    AlignHorizontal,
    AlignVertical,
    ContentAlignHorizontal,
    ContentAlignVertical,
    TextAlign,
}

/// What the name of a declaration stands for.
#[derive(Clone, Copy, Debug, PartialEq, Eq)]
pub enum Named {
    /// One property.
    Longhand(Property),
    /// The margins of the four sides.
    Margin,
    /// The paddings of the four sides.
    Padding,
    /// The borders of the four sides.
    Border,
    /// The overflow in both directions.
    Overflow,
    /// The place of the children in both directions.
    Align,
    /// The place of the content in both directions.
    ContentAlign,
}

// Every property, in the order of the table of properties.
pub const EVERY_PROPERTY: [Property; 42] = [
    Property::Display,
    Property::Visibility,
    Property::Layout,
    Property::Dock,
    Property::Width,
    Property::Height,
    Property::MinWidth,
    Property::MaxWidth,
    Property::MinHeight,
    Property::MaxHeight,
    Property::BoxSizing,
    Property::MarginTop,
    Property::MarginRight,
    Property::MarginBottom,
    Property::MarginLeft,
    Property::PaddingTop,
    Property::PaddingRight,
    Property::PaddingBottom,
    Property::PaddingLeft,
    Property::BorderTop,
    Property::BorderRight,
    Property::BorderBottom,
    Property::BorderLeft,
    Property::Background,
    Property::Color,
    Property::TextStyle,
    Property::GridSize,
    Property::GridColumns,
    Property::GridRows,
    Property::GridGutter,
    Property::ColumnSpan,
    Property::RowSpan,
    Property::Layers,
    Property::Layer,
    Property::OverflowX,
    Property::OverflowY,
    Property::Offset,
    Property::AlignHorizontal,
    Property::AlignVertical,
    Property::ContentAlignHorizontal,
    Property::ContentAlignVertical,
    Property::TextAlign,
];

/// Every property, in the order of [`Property`].
pub fn all_properties() -> &'static [Property]
    ensures { result.now ≡ every_property }
{
    &EVERY_PROPERTY
}
