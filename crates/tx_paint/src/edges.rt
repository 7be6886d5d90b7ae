//! The borders of a row.

ghost use Rattle.std.specs.Prelude.{◌≡◌, ◌<◌, if◌then◌else◌, None};
ghost use Rattle.tx_paint.specs.Edges.{HasByteInk, HasByteInks, border_at, edges_of, part_along, stroke_cell, stroke_of, where_on};

use crate::glyphs::{Part, glyph, single};
use tx_cell::{Cell, Pen};
use tx_geom::{BorderKind, Edge, Size, blend};
use tx_value::Style;

/// How the cells of an edge are drawn: with the characters of a kind, in a pen.
#[derive(Clone, Copy, Debug)]
pub struct Stroke {
    pub kind: BorderKind,
    pub pen: Pen,
}

/// The edges of a row that are set.
#[derive(Clone, Copy, Debug)]
pub struct Edges {
    pub top: Option<Stroke>,
    pub right: Option<Stroke>,
    pub bottom: Option<Stroke>,
    pub left: Option<Stroke>,
}

// How an edge is drawn, where it is set: in its own colour over the row's background.
fn stroke_of(style: &Style, dark: bool, pen: Pen, edge: Edge) -> Option<Stroke>
    ensures stroke { result ≡ stroke_of dark style.now pen edge }
    ensures channels { HasByteInk result }
{
    match style.border(edge) {
        None => None,
        Some(border) => Some(Stroke {
            kind: border.kind,
            pen: Pen {
                fore: blend(border.ink.colour(dark), pen.back),
                ..pen
            },
        }),
    }
}

// The edges of a row with this pen.
pub(crate) fn edges_of(style: &Style, dark: bool, pen: Pen) -> Edges
    ensures edges { result ≡ edges_of dark style.now pen }
    ensures channels { HasByteInks result }
{
    Edges {
        top: stroke_of(style, dark, pen, Edge::Top),
        right: stroke_of(style, dark, pen, Edge::Right),
        bottom: stroke_of(style, dark, pen, Edge::Bottom),
        left: stroke_of(style, dark, pen, Edge::Left),
    }
}

// The cell of a part of an edge.
fn stroke_cell(part: Part, stroke: Stroke) -> Cell
    ensures { result ≡ stroke_cell part stroke }
{
    single(glyph(stroke.kind, part), stroke.pen)
}

// The part of the top or bottom edge in a column.
fn part_along(on_left: Part, on_right: Part, edges: &Edges, width: u32, x: u32) -> Part
    requires inside { x < width }
    ensures { result ≡ part_along on_left on_right edges.now width x }
{
    if x == 0 && edges.left.is_some() {
        on_left
    } else if x + 1 == width && edges.right.is_some() {
        on_right
    } else {
        Part::Horizontal
    }
}

// An edge that is set, where a place is on its line.
fn where_on(is_on: bool, stroke: Option<Stroke>) -> Option<Stroke>
    ensures { result ≡ where_on is_on stroke }
{
    if is_on { stroke } else { None }
}

// What the border shows at a place of a region of this size.
pub(crate) fn border_at(edges: &Edges, size: Size, x: u32, y: u32) -> Option<Cell>
    requires column { x < size.width }
    requires row { y < size.height }
    ensures { result ≡ border_at edges.now size x y }
{
    if let Some(stroke) = where_on(y == 0, edges.top) {
        let part = part_along(Part::TopLeft, Part::TopRight, edges, size.width, x);
        return Some(stroke_cell(part, stroke));
    }
    if let Some(stroke) = where_on(y + 1 == size.height, edges.bottom) {
        let part = part_along(Part::BottomLeft, Part::BottomRight, edges, size.width, x);
        return Some(stroke_cell(part, stroke));
    }
    if let Some(stroke) = where_on(x == 0, edges.left) {
        return Some(stroke_cell(Part::Vertical, stroke));
    }
    if let Some(stroke) = where_on(x + 1 == size.width, edges.right) {
        return Some(stroke_cell(Part::Vertical, stroke));
    }
    None
}
