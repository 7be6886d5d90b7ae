//! Where a row is drawn.

use tx_geom::Size;

/// How large a row's region is, and what a container shows in it.
///
/// The viewport is what the scroll bars leave of the content. It, `over` and `scroll` count for kinds
/// with children alone: the content of every other kind is its viewport.
#[derive(Clone, Copy, Debug, PartialEq, Eq)]
pub struct Placement {
    /// The columns and rows of the region.
    pub size: Size,
    /// The columns and rows of the viewport.
    pub viewport: Size,
    /// How many columns and rows the children go over the viewport.
    pub over: Size,
    /// How many columns and rows they are scrolled.
    pub scroll: (u32, u32),
}
