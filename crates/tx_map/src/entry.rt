//! What a map says of one row.

use tx_geom::{Region, Size};
use tx_text::Items;
use tx_tree::NodeId;

/// Where a row stands, and what of it can show.
#[derive(Drop, Debug)]
pub struct Entry {
    pub node: NodeId,
    /// The row on the screen, with its border and its padding.
    pub region: Region,
    /// Only what of the row is in here can show.
    pub clip: Region,
    /// The room for the children beside the bars; of a kind without children the content.
    pub viewport: Size,
    /// Whether there is a horizontal bar.
    pub across: bool,
    /// Whether there is a vertical bar.
    pub down: bool,
    /// How many cells the children go past the viewport, to the right and down.
    pub over: Size,
    /// How far the children are scrolled, in columns and rows, each at most what they go over.
    pub scroll: (u32, u32),
    /// What is before what: of two rows the one with the greater key, which are compared as lists.
    /// It is the parent's key, then the number of the layer, 1 where the row is docked, else 0, and
    /// its place among all children of its parent, from 0. The Screen's is empty.
    pub key: Items<u32>,
}
