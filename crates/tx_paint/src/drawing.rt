//! What a row shows at each place of its region.

ghost use Rattle.std.specs.Prelude.{◌≡◌, ◌<◌, ◌≤◌, ◌^◌, false, true, length, get_or, IfOk, [], IsTrue};
ghost use Rattle.std.specs.List.{All};
ghost use Rattle.tx_cell.specs.Cell.{blank};
ghost use Rattle.tx_cell.specs.Strip.{IsWellFormed};
ghost use Rattle.tx_tree.specs.Kind.{is_handed};
ghost use Rattle.tx_paint.specs.Drawing.{IsDrawing, across_at, content_at, content_size, down_at, drawing_in, drawing_of, drawn, inner_at, is_among, is_content, face_of, line_at, lines_of, viewport_of};

use crate::bars::bar_at;
use crate::edges::{Edges, border_at, edges_of};
use crate::pens::pen_over;
use crate::placement::Placement;
use std::alloc::Global;
use std::marker::Model;
use tx_cell::{Cell, Pen, Strip};
use tx_geom::{Rgb, Size, Spacing};
use tx_text::{NoMemory, Text};
use tx_tree::{Kind, Private};
use tx_value::Style;
use tx_widgets::{Face, lines};

/// What a row shows at each place of its region.
///
/// The lines of its content are drawn once. A kind with children has none, and then a drawing takes
/// no memory.
#[derive(Drop)]
pub struct Drawing {
    size: Size,
    gutter: Spacing,
    pen: Pen,
    edges: Edges,
    viewport: Size,
    over: Size,
    scroll: (u32, u32),
    lines: Vec<Strip>,
}

impl Model for Drawing {
    ghost use Rattle.tx_paint.specs.Drawing.{DrawingValue, IsDrawing};

    ghost Value = { DrawingValue };

    ghost view = { λ d. record { size = d.size; gutter = d.gutter; pen = d.pen; edges = d.edges; viewport = d.viewport; over = d.over; scroll = d.scroll; lines = d.lines.items } };

    ghost invariant = { λ d. IsDrawing (record { size = d.size; gutter = d.gutter; pen = d.pen; edges = d.edges; viewport = d.viewport; over = d.over; scroll = d.scroll; lines = d.lines.items }) };
}

impl Drawing {
    /// The drawing of a row, which is of a kind that isn't handed in, with this style in the dark
    /// theme or in the light one, over its parent's background.
    ///
    /// The text has fewer than 2^32 bytes. The row's background is its `background` over its parent's,
    /// and it is written in its `color` over that. The one fault is that there is no memory.
    #[tactic(auto, unfolding(crate::specs::Drawing::drawing_of))]
    pub fn of(
        alloc: Global,
        style: &Style,
        dark: bool,
        under: Rgb,
        kind: Kind,
        text: &Text,
        private: Private,
        focused: bool,
        placement: Placement,
    ) -> Result<Drawing, NoMemory>
        requires built_in { is_handed kind ≡ false }
        requires short { length text.now < 2 ^ 32 }
        ensures drawing { IfOk result (λ d. d ≡ drawing_of dark style.now under kind text.now private focused placement) }
        ensures shape { IfOk result (λ d. IsDrawing d) }
    {
        let pen = pen_over(style, dark, under);
        let gutter = style.gutter();
        let content = placement.size.less(gutter);
        let face = Face {
            kind,
            text,
            private,
            focused,
            content,
            align: style.content_align(),
            text_align: style.text_align(),
            pen,
        };
        let lines = lines_of(alloc, &face)?;
        Ok(Drawing {
            size: placement.size,
            gutter,
            pen,
            edges: edges_of(style, dark, pen),
            viewport: viewport_of(&face, placement.viewport),
            over: placement.over,
            scroll: placement.scroll,
            lines,
        })
    }

    /// The columns and rows of the region.
    pub fn size(&self) -> Size
        ensures size { result ≡ self.now.size }
        ensures shape { IsDrawing self.now }
    {
        self.size
    }

    /// The row's pen.
    pub fn pen(&self) -> Pen
        ensures pen { result ≡ self.now.pen }
    {
        self.pen
    }

    /// What the row shows in column `x` of line `y` of its region, both counted from 0. It takes no
    /// memory.
    ///
    /// - The border stands at the rim: the top edge in the first line where it is set, else the bottom
    ///   edge in the last line, else the left edge in the first column, else the right edge in the
    ///   last one. Each is in its own colour over the row's background, with the row's marks. In the
    ///   top and the bottom edge the first cell is a corner where the left edge is set, else the last
    ///   one where the right edge is set.
    /// - Between the border and the content are blanks.
    /// - In the viewport stand the lines of the content. Right of it is the vertical bar, below it the
    ///   horizontal one, and their corner is blank.
    /// - A bar of length `h` over which `o` more go is all thumb where `o` is 0. Else the thumb has
    ///   `h * h / (h + o)` cells, but at least 1, of which the first is cell `s * (h - t) / o` at the
    ///   scroll `s`, where `t` is the number of its cells. Both are rounded down.
    #[tactic(auto, unfolding(crate::specs::Drawing::drawn))]
    pub fn at(&self, x: u32, y: u32) -> Cell
        requires column { x < self.now.size.width }
        requires row { y < self.now.size.height }
        ensures cell { result ≡ drawn self.now x y }
    {
        match border_at(&self.edges, self.size, x, y) {
            Some(cell) => cell,
            None => self.inner_at(x, y),
        }
    }

    // What is shown within the border.
    fn inner_at(&self, x: u32, y: u32) -> Cell
        ensures { result ≡ inner_at self.now x y }
    {
        let content = self.size.less(self.gutter);
        if !is_among(self.gutter.left, content.width, x) {
            return Cell::blank(self.pen);
        }
        if !is_among(self.gutter.top, content.height, y) {
            return Cell::blank(self.pen);
        }
        self.content_at(x - self.gutter.left as u32, y - self.gutter.top as u32)
    }

    // What the content shows at a place of it.
    fn content_at(&self, x: u32, y: u32) -> Cell
        ensures { result ≡ content_at self.now x y }
    {
        if x < self.viewport.width {
            if y < self.viewport.height {
                self.line_at(x, y)
            } else {
                self.across_at(x)
            }
        } else if y < self.viewport.height {
            self.down_at(y)
        } else {
            Cell::blank(self.pen)
        }
    }

    // The cell of the horizontal bar in a column of the content.
    fn across_at(&self, x: u32) -> Cell
        ensures { result ≡ across_at self.now x }
    {
        let (length, over, scroll) = (self.viewport.width, self.over.width, self.scroll.0);
        bar_at(length, over, scroll, self.pen, x)
    }

    // The cell of the vertical bar in a row of the content.
    fn down_at(&self, y: u32) -> Cell
        ensures { result ≡ down_at self.now y }
    {
        let (length, over, scroll) = (self.viewport.height, self.over.height, self.scroll.1);
        bar_at(length, over, scroll, self.pen, y)
    }

    // The cell of a line of the content.
    fn line_at(&self, x: u32, y: u32) -> Cell
        ensures { result ≡ line_at self.now x y }
    {
        match self.lines.get(y as usize) {
            Some(line) => cell_in(line, x, self.pen),
            None => Cell::blank(self.pen),
        }
    }
}

// The cell of a strip in a column, or a blank past its end.
fn cell_in(strip: &Strip, x: u32, pen: Pen) -> Cell
    ensures { result ≡ get_or strip.now x (blank pen) }
{
    match strip.as_slice().get(x as usize) {
        Some(cell) => *cell,
        None => Cell::blank(pen),
    }
}

// Whether a column or a row is one of so many from one on.
fn is_among(from: u16, count: u32, at: u32) -> bool
    ensures among { result ≡ is_among from count at }
    ensures from_on { IsTrue result → from ≤ at }
{
    from as u32 <= at && at - (from as u32) < count
}

// The lines of a row's content: none for a kind with children.
fn lines_of(alloc: Global, face: &Face<'_>) -> Result<Vec<Strip>, NoMemory>
    requires built_in { is_handed face.now.kind ≡ false }
    requires short { length face.now.text.now < 2 ^ 32 }
    ensures lines { IfOk result (λ rows. rows.items ≡ lines_of face.now.kind face.now) }
    ensures width { IfOk result (λ rows. All (λ row. length row ≡ face.now.content.width) rows.items) }
    ensures formed { IfOk result (λ rows. All IsWellFormed rows.items) }
{
    if face.kind.holds_children() {
        return Ok(Vec::new(alloc));
    }
    let rows = lines(alloc, face)?;
    see_formed(&rows);
    Ok(rows)
}

// Strips are well formed.
fn see_formed(strips: &[Strip])
    ensures { All IsWellFormed strips.now }
{
    'seeing: for strip in strips {
        let _len = strip.len();
    }
}

// The viewport of a row: a kind without children has its content as its viewport.
fn viewport_of(face: &Face<'_>, viewport: Size) -> Size
    ensures { result ≡ viewport_of face.now.kind face.now.content viewport }
{
    if face.kind.holds_children() {
        viewport
    } else {
        face.content
    }
}
