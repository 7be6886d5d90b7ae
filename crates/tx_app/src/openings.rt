//! What is to be done once all is read.

use tx_geom::Size;
use tx_parse::Sheet;
use tx_select::Selector;
use tx_tree::Tree;

#[derive(Drop)]
pub enum Opened {
    /// A tree is shown under a sheet, on a screen of this size.
    Picture(Tree, Sheet, Size),
    /// Lines are printed.
    Lines(Vec<u8>),
    /// The rows that a selector matches are printed.
    Matches(Tree, Selector),
}
