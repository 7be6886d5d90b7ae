//! The choices of a style that are one word each.

/// How a container places its children.
#[derive(Clone, Copy, Debug, PartialEq, Eq, Hash)]
pub enum LayoutKind {
    /// One below the other.
    Vertical,
    /// One beside the other.
    Horizontal,
    /// In the cells of a table.
    Grid,
}

/// A side of a region.
#[derive(Clone, Copy, Debug, PartialEq, Eq, Hash)]
pub enum Edge {
    Top,
    Right,
    Bottom,
    Left,
}

/// What a container does with content past its own size, in one direction.
#[derive(Clone, Copy, Debug, PartialEq, Eq, Hash)]
pub enum Overflow {
    /// It shows a scroll bar where the content is larger than the room for it.
    Auto,
    /// It never shows a scroll bar.
    Hidden,
    /// It always shows a scroll bar.
    Scroll,
}

/// What a width or a height in a style is the size of.
#[derive(Clone, Copy, Debug, PartialEq, Eq, Hash)]
pub enum BoxSizing {
    /// The box with its padding and its border.
    BorderBox,
    /// The content alone: padding and border come on top.
    ContentBox,
}

/// Where something stands from left to right.
#[derive(Clone, Copy, Debug, PartialEq, Eq, Hash)]
pub enum AlignX {
    Left,
    Center,
    Right,
}

/// Where something stands from top to bottom.
#[derive(Clone, Copy, Debug, PartialEq, Eq, Hash)]
pub enum AlignY {
    Top,
    Middle,
    Bottom,
}

/// The characters that an edge of a border is drawn with.
#[derive(Clone, Copy, Debug, PartialEq, Eq, Hash)]
pub enum BorderKind {
    /// Blanks.
    Blank,
    /// `+`, `-` and `|`.
    Ascii,
    /// Thin lines.
    Solid,
    /// Thin lines with round corners.
    Round,
    /// Double lines.
    Double,
    /// Thick lines.
    Heavy,
}

/// One of the two directions in which a size is measured.
#[derive(Clone, Copy, Debug, PartialEq, Eq, Hash)]
pub enum Axis {
    /// From left to right.
    Width,
    /// From top to bottom.
    Height,
}
