//! The characters that borders and bars are drawn with.

ghost use Rattle.std.specs.Prelude.{◌≡◌, Some};
ghost use Rattle.tx_cell.specs.Cell.{cell_of, shown};
ghost use Rattle.tx_paint.specs.Glyphs.{glyph};
ghost use Rattle.tx_geom.specs.declared.choices.BorderKind.TheVariants.{Ascii, Solid, Round, Double, Heavy};

use tx_cell::{Cell, Pen};
use tx_geom::BorderKind;

/// A part of a border.
#[derive(Clone, Copy, Debug, PartialEq, Eq)]
pub enum Part {
    Horizontal,
    Vertical,
    TopLeft,
    TopRight,
    BottomRight,
    BottomLeft,
}

// The character of a part of a border of a kind.
pub(crate) fn glyph(kind: BorderKind, part: Part) -> &'static str
    ensures { result.now ≡ glyph kind part }
{
    match kind {
        BorderKind::Blank => " ",
        BorderKind::Ascii => ascii(part),
        BorderKind::Solid => solid(part),
        BorderKind::Round => round(part),
        BorderKind::Double => double(part),
        BorderKind::Heavy => heavy(part),
    }
}

fn ascii(part: Part) -> &'static str
    ensures { result.now ≡ glyph Ascii part }
{
    match part {
        Part::Horizontal => "-",
        Part::Vertical => "|",
        Part::TopLeft => "+",
        Part::TopRight => "+",
        Part::BottomRight => "+",
        Part::BottomLeft => "+",
    }
}

fn solid(part: Part) -> &'static str
    ensures { result.now ≡ glyph Solid part }
{
    match part {
        Part::Horizontal => "─",
        Part::Vertical => "│",
        Part::TopLeft => "┌",
        Part::TopRight => "┐",
        Part::BottomRight => "┘",
        Part::BottomLeft => "└",
    }
}

fn round(part: Part) -> &'static str
    ensures { result.now ≡ glyph Round part }
{
    match part {
        Part::Horizontal => "─",
        Part::Vertical => "│",
        Part::TopLeft => "╭",
        Part::TopRight => "╮",
        Part::BottomRight => "╯",
        Part::BottomLeft => "╰",
    }
}

fn double(part: Part) -> &'static str
    ensures { result.now ≡ glyph Double part }
{
    match part {
        Part::Horizontal => "═",
        Part::Vertical => "║",
        Part::TopLeft => "╔",
        Part::TopRight => "╗",
        Part::BottomRight => "╝",
        Part::BottomLeft => "╚",
    }
}

fn heavy(part: Part) -> &'static str
    ensures { result.now ≡ glyph Heavy part }
{
    match part {
        Part::Horizontal => "━",
        Part::Vertical => "┃",
        Part::TopLeft => "┏",
        Part::TopRight => "┓",
        Part::BottomRight => "┛",
        Part::BottomLeft => "┗",
    }
}

// The cell of a text of one column.
pub(crate) fn single(text: &str, pen: Pen) -> Cell
    requires single { cell_of text.now pen ≡ Some (shown text.now 1 pen) }
    ensures { result ≡ shown text.now 1 pen }
{
    match Cell::of(text, pen) {
        Some(cell) => cell,
        None => unreachable!(),
    }
}
