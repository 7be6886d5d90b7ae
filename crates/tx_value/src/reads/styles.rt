//! What a style says of each property.
ghost use Rattle.std.specs.Prelude.{◌≡◌, ◌≤◌, option_copied};
ghost use Rattle.tx_value.specs.StyleReads.{word_for, is_displayed, is_visible, layout, dock, box_sizing, overflow_x, overflow_y, align, content_align, text_align, size, least, most, margin, padding, border, border_cells, gutter, offset, background, color, text_style, grid_size, column_tracks, row_tracks, grid_gutter, column_span, row_span, layer, layers};

use crate::property::Property;
use crate::reads::values::{
    Border, background_in, border_in, cells_in, color_in, grid_gutter_in, grid_size_in, layer_in,
    layers_in, limit_in, marks_in, offset_in, says, size_in, span_in, tracks_in, word_in,
};
use crate::reads::words::{across_of, dock_of, down_of, layout_of, overflow_of, sizing_of};
use crate::style::Style;
use crate::value::{Ink, Word};
use tx_frac::Scalar;
use tx_geom::{
    AlignX, AlignY, Axis, BoxSizing, Edge, LayoutKind, Offset, Overflow, Spacing, TextStyle,
};
use tx_text::Name;

/// What a style says. Where it has `initial`, or a value that the table of properties doesn't give
/// the property, the initial value counts. No call takes memory.
impl Style {
    /// The keyword of a property, or `none`.
    fn word_for(&self, property: Property) -> Word
        ensures { result ≡ word_for property self.now }
    {
        word_in(self.get(property))
    }

    /// Whether there is room for the row: `display` isn't `none`.
    pub fn is_displayed(&self) -> bool
        ensures { result ≡ is_displayed self.now }
    {
        !says(Word::Nothing, self.get(Property::Display))
    }

    /// Whether the row is seen: `visibility` isn't `hidden`.
    pub fn is_visible(&self) -> bool
        ensures { result ≡ is_visible self.now }
    {
        !says(Word::Hidden, self.get(Property::Visibility))
    }

    /// `layout`.
    pub fn layout(&self) -> LayoutKind
        ensures { result ≡ layout self.now }
    {
        layout_of(self.word_for(Property::Layout))
    }

    /// `dock`, where it isn't `none`.
    pub fn dock(&self) -> Option<Edge>
        ensures { result ≡ dock self.now }
    {
        dock_of(self.word_for(Property::Dock))
    }

    /// `box-sizing`.
    pub fn box_sizing(&self) -> BoxSizing
        ensures { result ≡ box_sizing self.now }
    {
        sizing_of(self.word_for(Property::BoxSizing))
    }

    /// `overflow-x`.
    pub fn overflow_x(&self) -> Overflow
        ensures { result ≡ overflow_x self.now }
    {
        overflow_of(self.word_for(Property::OverflowX))
    }

    /// `overflow-y`.
    pub fn overflow_y(&self) -> Overflow
        ensures { result ≡ overflow_y self.now }
    {
        overflow_of(self.word_for(Property::OverflowY))
    }

    /// `align-horizontal` and `align-vertical`.
    pub fn align(&self) -> (AlignX, AlignY)
        ensures { result ≡ align self.now }
    {
        let across = across_of(self.word_for(Property::AlignHorizontal));
        (across, down_of(self.word_for(Property::AlignVertical)))
    }

    /// `content-align-horizontal` and `content-align-vertical`.
    pub fn content_align(&self) -> (AlignX, AlignY)
        ensures { result ≡ content_align self.now }
    {
        let across = across_of(self.word_for(Property::ContentAlignHorizontal));
        (
            across,
            down_of(self.word_for(Property::ContentAlignVertical)),
        )
    }

    /// `text-align`.
    pub fn text_align(&self) -> AlignX
        ensures { result ≡ text_align self.now }
    {
        across_of(self.word_for(Property::TextAlign))
    }

    /// `width` along `Axis::Width`, and `height` along `Axis::Height`. It is at least 0.
    pub fn size(&self, axis: Axis) -> Scalar
        ensures { result ≡ size axis self.now }
    {
        match axis {
            Axis::Width => size_in(self.get(Property::Width)),
            Axis::Height => size_in(self.get(Property::Height)),
        }
    }

    /// `min-width` or `min-height`, where it isn't `none`. It is at least 0, and neither `auto` nor
    /// a share.
    pub fn least(&self, axis: Axis) -> Option<Scalar>
        ensures { result ≡ least axis self.now }
    {
        match axis {
            Axis::Width => limit_in(self.get(Property::MinWidth)),
            Axis::Height => limit_in(self.get(Property::MinHeight)),
        }
    }

    /// `max-width` or `max-height`, where it isn't `none`. It is at least 0, and neither `auto` nor
    /// a share.
    pub fn most(&self, axis: Axis) -> Option<Scalar>
        ensures { result ≡ most axis self.now }
    {
        match axis {
            Axis::Width => limit_in(self.get(Property::MaxWidth)),
            Axis::Height => limit_in(self.get(Property::MaxHeight)),
        }
    }

    /// `margin-top`, `margin-right`, `margin-bottom` and `margin-left`, each at most 9,999.
    pub fn margin(&self) -> Spacing
        ensures { result ≡ margin self.now }
    {
        Spacing {
            top: cells_in(self.get(Property::MarginTop)),
            right: cells_in(self.get(Property::MarginRight)),
            bottom: cells_in(self.get(Property::MarginBottom)),
            left: cells_in(self.get(Property::MarginLeft)),
        }
    }

    /// `padding-top`, `padding-right`, `padding-bottom` and `padding-left`, each at most 9,999.
    pub fn padding(&self) -> Spacing
        ensures { result ≡ padding self.now }
    {
        Spacing {
            top: cells_in(self.get(Property::PaddingTop)),
            right: cells_in(self.get(Property::PaddingRight)),
            bottom: cells_in(self.get(Property::PaddingBottom)),
            left: cells_in(self.get(Property::PaddingLeft)),
        }
    }

    /// The border of an edge, where it is set. Without a colour it has the colour `#00ff00`.
    pub fn border(&self, edge: Edge) -> Option<Border>
        ensures { result ≡ border edge self.now }
    {
        match edge {
            Edge::Top => border_in(self.get(Property::BorderTop)),
            Edge::Right => border_in(self.get(Property::BorderRight)),
            Edge::Bottom => border_in(self.get(Property::BorderBottom)),
            Edge::Left => border_in(self.get(Property::BorderLeft)),
        }
    }

    /// One cell where an edge is set.
    fn border_cells(&self, edge: Edge) -> u16
        ensures cells { result ≡ border_cells edge self.now }
        ensures within { result ≤ 1 }
    {
        if self.border(edge).is_some() { 1 } else { 0 }
    }

    /// What lies between a row's edges and its content: its padding, and one for each border edge
    /// that is set.
    pub fn gutter(&self) -> Spacing
        ensures { result ≡ gutter self.now }
    {
        Spacing {
            top: cells_in(self.get(Property::PaddingTop)) + self.border_cells(Edge::Top),
            right: cells_in(self.get(Property::PaddingRight)) + self.border_cells(Edge::Right),
            bottom: cells_in(self.get(Property::PaddingBottom)) + self.border_cells(Edge::Bottom),
            left: cells_in(self.get(Property::PaddingLeft)) + self.border_cells(Edge::Left),
        }
    }

    /// `offset`, each part from -9,999 to 9,999.
    pub fn offset(&self) -> Offset
        ensures { result ≡ offset self.now }
    {
        offset_in(self.get(Property::Offset))
    }

    /// `background`.
    pub fn background(&self) -> Ink
        ensures { result ≡ background self.now }
    {
        background_in(self.get(Property::Background))
    }

    /// `color`.
    pub fn color(&self) -> Ink
        ensures { result ≡ color self.now }
    {
        color_in(self.get(Property::Color))
    }

    /// The marks of `text-style`.
    pub fn text_style(&self) -> TextStyle
        ensures { result ≡ text_style self.now }
    {
        marks_in(self.get(Property::TextStyle))
    }

    /// `grid-size`: the columns, from 1 to 100, and the rows, from 1 to 1,000, where they are given.
    pub fn grid_size(&self) -> (u32, Option<u32>)
        ensures { result ≡ grid_size self.now }
    {
        grid_size_in(self.get(Property::GridSize))
    }

    /// `grid-columns`: at most 60 sizes of at least 0 without `auto`. None stand for one of `1fr`.
    pub fn column_tracks(&self) -> &[Scalar]
        ensures { result.now ≡ column_tracks self.now }
    {
        tracks_in(self.get(Property::GridColumns))
    }

    /// `grid-rows`, as the columns.
    pub fn row_tracks(&self) -> &[Scalar]
        ensures { result.now ≡ row_tracks self.now }
    {
        tracks_in(self.get(Property::GridRows))
    }

    /// `grid-gutter`: vertical and horizontal, each at most 9,999.
    pub fn grid_gutter(&self) -> (u32, u32)
        ensures { result ≡ grid_gutter self.now }
    {
        grid_gutter_in(self.get(Property::GridGutter))
    }

    /// `column-span`, from 1 to 100.
    pub fn column_span(&self) -> u32
        ensures exact { result ≡ column_span self.now }
        ensures within { (1 ≤ result) × (result ≤ 100) }
    {
        span_in(self.get(Property::ColumnSpan))
    }

    /// `row-span`, from 1 to 100.
    pub fn row_span(&self) -> u32
        ensures exact { result ≡ row_span self.now }
        ensures within { (1 ≤ result) × (result ≤ 100) }
    {
        span_in(self.get(Property::RowSpan))
    }

    /// `layer`, where one is given.
    pub fn layer(&self) -> Option<&Name>
        ensures { option_copied result ≡ layer self.now }
    {
        layer_in(self.get(Property::Layer))
    }

    /// `layers`, lowest first; none where no names are given. A name that comes again counts by its
    /// first place.
    pub fn layers(&self) -> &[Name]
        ensures { result.now ≡ layers self.now }
    {
        layers_in(self.get(Property::Layers))
    }
}
