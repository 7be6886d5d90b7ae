//! What is laid out, what is asked on the way, and what comes of it.

use tx_frac::Scalar;
use tx_geom::{BoxSizing, Edge, Offset, Region, Size, Spacing};
use tx_text::Items;

/// What the style of a child says of its box.
#[derive(Clone, Copy, Debug, PartialEq, Eq, Hash)]
pub struct BoxStyle {
    pub width: Scalar,
    pub height: Scalar,
    /// The least width and the least height, in any unit but `fr` and `auto`.
    pub least: [Option<Scalar>; 2],
    /// The greatest width and the greatest height, in any unit but `fr` and `auto`.
    pub most: [Option<Scalar>; 2],
    pub margin: Spacing,
    /// Padding and border, in cells.
    pub gutter: Spacing,
    /// Whether padding and border come on top of the sizes.
    pub sizing: BoxSizing,
    /// The side of the container at which the child stands, out of the flow of the others.
    pub dock: Option<Edge>,
    /// The number of the layer. The children of one layer are arranged by themselves.
    pub layer: u32,
    /// How far the child is moved from its place.
    pub offset: Offset,
    /// How many columns of a grid it takes.
    pub column_span: u32,
    /// How many rows of a grid it takes.
    pub row_span: u32,
}

/// What the style of a container says of its grid.
#[derive(Drop, Debug)]
pub struct GridStyle {
    pub columns: u32,
    /// None where there are as many rows as are used.
    pub rows: Option<u32>,
    /// The widths of the columns, over and over. An empty list is one `1fr`.
    pub column_tracks: Items<Scalar>,
    /// The heights of the rows, over and over. An empty list is one `1fr`.
    pub row_tracks: Items<Scalar>,
    /// The cells between rows.
    pub gutter_vertical: u32,
    /// The cells between columns.
    pub gutter_horizontal: u32,
}

/// What a container asks of its caller: the size of the content of one child.
#[derive(Clone, Copy, Debug, PartialEq, Eq, Hash)]
pub struct Ask {
    /// The place of the child in the list of all children, from 0.
    pub child: u32,
    /// None asks for the width of the content, and a width for its height at that width.
    pub width: Option<u32>,
    /// The room for the content.
    pub area: Size,
}

/// Where the children of a container stand.
#[derive(Drop, Debug)]
pub struct Arrangement {
    /// The region of each child, from the corner of the container's viewport. None is for a child
    /// of a grid that finds no place.
    pub placed: Items<Option<Region>>,
    /// How many cells the flow children, or the tracks of a grid, go past the room for them, to the
    /// right and down. Docked children and offsets don't count, and it saturates at 4,294,967,295.
    pub over: Size,
}
