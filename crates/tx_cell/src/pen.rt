//! The look of a cell's text.

ghost use Rattle.std.specs.Prelude.{◌≡◌, ◌↔◌, IsTrue};

use tx_geom::{Rgb, TextStyle};

/// How a cell is drawn: the colour of its text, the colour behind it, and the marks of its text.
#[derive(Clone, Copy, Debug, Default)]
pub struct Pen {
    pub fore: Rgb,
    pub back: Rgb,
    pub style: TextStyle,
}

impl Pen {
    /// White on black, without marks: what a screen begins with.
    pub const WHITE_ON_BLACK: Pen = Pen {
        fore: Rgb {
            r: 0xff,
            g: 0xff,
            b: 0xff,
        },
        back: Rgb { r: 0, g: 0, b: 0 },
        style: TextStyle::PLAIN,
    };
}

impl PartialEq for Pen {
    ghost use Rattle.std.specs.Cmp.{decided, partial_equiv_from_equiv};
    ghost use Rattle.tx_cell.specs.Pen.{pen_eq, pen_eq-decides};

    ghost eq = { pen_eq };

    ghost laws = { partial_equiv_from_equiv (decided pen_eq pen_eq-decides) };

    fn eq(&self, other: &Pen) -> bool
        ensures value { result ≡ pen_eq self.now other.now }
        ensures same { IsTrue result ↔ (self.now ≡ other.now) }
    {
        self.fore == other.fore && (self.back == other.back && self.style == other.style)
    }
}
