//! The marks of a text.
ghost use Rattle.std.specs.Prelude.{◌≡◌};
ghost use Rattle.tx_geom.specs.Marks.{with_marks};

/// The marks of a text, each set or not.
#[derive(Clone, Copy, Debug, Default, PartialEq, Eq, Hash)]
pub struct TextStyle {
    pub bold: bool,
    pub dim: bool,
    pub italic: bool,
    pub underline: bool,
    /// The two colours are changed for one another.
    pub reverse: bool,
    pub strike: bool,
}

impl TextStyle {
    /// No marks.
    pub const PLAIN: TextStyle = TextStyle {
        bold: false,
        dim: false,
        italic: false,
        underline: false,
        reverse: false,
        strike: false,
    };

    /// The marks that one of two styles has, or both.
    pub fn with(self, more: TextStyle) -> TextStyle
        ensures { result ≡ with_marks self more }
    {
        TextStyle {
            bold: self.bold || more.bold,
            dim: self.dim || more.dim,
            italic: self.italic || more.italic,
            underline: self.underline || more.underline,
            reverse: self.reverse || more.reverse,
            strike: self.strike || more.strike,
        }
    }
}
