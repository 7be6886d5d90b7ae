//! The colours of rows.

ghost use Rattle.std.specs.Prelude.{◌≡◌};
ghost use Rattle.tx_cell.specs.Pen.{HasByteChannels};
ghost use Rattle.tx_value.specs.HexColours.{black};
ghost use Rattle.tx_paint.specs.Pens.{background_over, fore_over, pen_over};

use tx_cell::Pen;
use tx_geom::{Rgb, blend};
use tx_value::Style;

/// The colour under the Screen: black.
pub fn ground() -> Rgb
    ensures { result ≡ black }
{
    Rgb { r: 0, g: 0, b: 0 }
}

/// The background of a row: its `background`, in the dark theme or in the light one, over its
/// parent's background, and over `ground` for the Screen.
pub fn background_over(style: &Style, dark: bool, under: Rgb) -> Rgb
    ensures { result ≡ background_over dark style.now under }
{
    blend(style.background().colour(dark), under)
}

/// The pen of a row over its parent's background: its own background, its `color` over that, and the
/// marks of its `text-style`.
pub fn pen_over(style: &Style, dark: bool, under: Rgb) -> Pen
    ensures pen { result ≡ pen_over dark style.now under }
    ensures channels { HasByteChannels result }
{
    let back = background_over(style, dark, under);
    Pen {
        fore: blend(style.color().colour(dark), back),
        back,
        style: style.text_style(),
    }
}
