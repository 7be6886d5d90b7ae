//! What is shown at a time.

use crate::scrolls::Scrolls;
use tx_geom::Size;
use tx_select::Pseudo;
use tx_tree::Tree;

/// What is shown: the tree, by what its pseudo-classes are judged, how far its rows are scrolled, and
/// the size of the screen. A row of which `scrolls` says nothing isn't scrolled.
#[derive(Clone, Copy)]
pub struct Present<'a> {
    pub tree: &'a Tree,
    pub pseudo: &'a Pseudo,
    pub scrolls: &'a Scrolls,
    pub size: Size,
}
