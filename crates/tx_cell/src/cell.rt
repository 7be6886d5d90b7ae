//! Cells: one grapheme cluster each, or the second column of a wide one.

ghost use Rattle.std.specs.Prelude.{◌≡◌, ◌↔◌, IsTrue, true, [], ◌∷◌, ◌<◌, ◌≤◌, length, count_by, IfSome};
ghost use Rattle.std.specs.List.{list_any};
ghost use Rattle.std.specs.Char.{is_control};
ghost use Rattle.std.specs.Str.{chars};
ghost use Rattle.unicode_segmentation.specs.Grapheme.{graphemes};
ghost use Rattle.tx_cell.specs.Cell.{IsCell, IsMade, IsOfItsText, shown, blank, replacement, tail_of, cluster_cell, cell_by_width, cell_of, is_tab, is_unfit, most_bytes};
ghost use Rattle.tx_cell.specs.Pen.{HasByteChannels};
ghost use Rattle.tx_cell.specs.Plain.{is_plain, is_printable};
ghost use Rattle.tx_cell.specs.Strip.{without_head, without_tail};

use crate::Pen;
use crate::plain::{begins_plain, is_plain};
use std::marker::Model;
use std::str;
use unicode_segmentation::UnicodeSegmentation;
use unicode_width::UnicodeWidthStr;

/// One column of a screen: a grapheme cluster with its pen, or the tail of a wide cluster, which
/// has no text.
///
/// The text of a cell has at most 32 bytes. Its width is the columns that the text takes, 1 or 2,
/// and 0 for a tail.
#[derive(Clone, Copy)]
pub struct Cell {
    bytes: [u8; Cell::MOST_BYTES],
    len: u8,
    width: u8,
    pen: Pen,
}

impl Model for Cell {
    ghost use Rattle.std.specs.Prelude.{◌==◌, ◌-◌, ◌++◌, length, take, replicate};
    ghost use Rattle.tx_cell.specs.Cell.{CellValue, IsStored, most_bytes};
    ghost use Rattle.tx_cell.specs.Stored.{padded, length-stored};

    ghost Value = { CellValue };

    ghost view = { λ c. record { text = take c.len c.bytes; width = c.width; tail = c.width == 0; pen = c.pen } };

    ghost invariant = { λ c. IsStored c.bytes c.len (record { text = take c.len c.bytes; width = c.width; tail = c.width == 0; pen = c.pen }) };

    ghost inverse = { λ v. record { bytes = v.text ++ replicate (most_bytes - length v.text) 0; len = length v.text; width = v.width; pen = v.pen } };

    ghost inverse_ok = { λ c h i. record { bytes = padded c.bytes c.len _ h i; len = length-stored c.bytes c.len _ h i; width = c.width; pen = c.pen } };
}

impl Cell {
    /// The most bytes that the text of a cell has.
    pub const MOST_BYTES: usize = 32;

    /// The cell of a text that is one grapheme cluster.
    ///
    /// A tab is a blank. U+FFFD of width 1 stands for a cluster with another control character,
    /// for one that begins with a plain character and has a second one, for one that is wider than
    /// 2 columns or longer than 32 bytes, and for a text of several clusters. None comes where the
    /// text is empty, and for a cluster of width 0.
    #[tactic(auto, unfolding(crate::specs::Cell::cell_of))]
    pub fn of(cluster: &str, pen: Pen) -> Option<Cell>
        ensures cell { result ≡ cell_of cluster.now pen }
        ensures made { IfSome result (λ cell. IsMade pen cell) }
    {
        // Most texts are a printable ASCII character, which needs no look into the tables.
        if let [byte @ 0x20..=0x7E] = cluster.as_bytes() {
            return Some(Cell::printable(*byte, pen));
        }
        let mut clusters = cluster.graphemes(true);
        let first = clusters.next()?;
        match clusters.next() {
            None => Cell::of_cluster(first, pen),
            Some(_) => Some(Cell::replacement(pen)),
        }
    }

    /// A blank of width 1.
    pub fn blank(pen: Pen) -> Cell
        ensures cell { result ≡ blank pen }
    {
        Cell::printable(b' ', pen)
    }

    fn printable(byte: u8, pen: Pen) -> Cell
        requires { is_printable byte ≡ true }
        ensures cell { result ≡ shown (byte ∷ []) 1 pen }
    {
        let mut bytes = [0; Cell::MOST_BYTES];
        bytes[0] = byte;
        Cell {
            bytes,
            len: 1,
            width: 1,
            pen,
        }
    }

    /// The tail of a wide cell of this pen. It has no text.
    pub fn tail_of(pen: Pen) -> Cell
        ensures cell { result ≡ tail_of pen }
    {
        Cell {
            bytes: [0; Cell::MOST_BYTES],
            len: 0,
            width: 0,
            pen,
        }
    }

    // U+FFFD.
    pub(crate) fn replacement(pen: Pen) -> Cell
        ensures cell { result ≡ replacement pen }
    {
        let mut bytes = [0; Cell::MOST_BYTES];
        bytes[0] = 0xEF;
        bytes[1] = 0xBF;
        bytes[2] = 0xBD;
        Cell {
            bytes,
            len: 3,
            width: 1,
            pen,
        }
    }

    #[tactic(auto, unfolding(crate::specs::Cell::cluster_cell))]
    fn of_cluster(cluster: &str, pen: Pen) -> Option<Cell>
        requires single { graphemes true cluster.now ≡ cluster.now ∷ [] }
        ensures cell { result ≡ cluster_cell cluster.now pen }
    {
        if is_tab(cluster) {
            return Some(Cell::blank(pen));
        }
        if is_unfit(cluster) {
            return Some(Cell::replacement(pen));
        }
        Cell::by_width(cluster, cluster.width(), pen)
    }

    // The cell of a cluster of so many columns that is fit to be shown.
    fn by_width(cluster: &str, width: usize, pen: Pen) -> Option<Cell>
        requires own { 0 < width → width ≤ 2 → length cluster.now ≤ most_bytes → IsOfItsText (shown cluster.now width pen) }
        ensures cell { result ≡ cell_by_width cluster.now width pen }
    {
        if width == 0 {
            None
        } else if width > 2 || cluster.len() > Cell::MOST_BYTES {
            Some(Cell::replacement(pen))
        } else {
            Some(Cell::shown(cluster, width as u8, pen))
        }
    }

    fn shown(cluster: &str, width: u8, pen: Pen) -> Cell
        requires fits { length cluster.now ≤ most_bytes }
        requires own { IsOfItsText (shown cluster.now width pen) }
        requires visible { 0 < width }
        ensures cell { result ≡ shown cluster.now width pen }
    {
        let mut bytes = [0; Cell::MOST_BYTES];
        let len = cluster.len();
        bytes[..len].copy_from_slice(cluster.as_bytes());
        Cell {
            bytes,
            len: len as u8,
            width,
            pen,
        }
    }

    /// The text: one grapheme cluster, or nothing for a tail.
    pub fn text(&self) -> &str
        ensures text { result.now ≡ self.now.text }
        ensures short { length result.now ≤ most_bytes }
        ensures known { IsCell self.now }
    {
        let text = &self.bytes[..self.len as usize];
        // The bytes were copied from a text, so they need no second look.
        unsafe { str::from_utf8_unchecked(text) }
    }

    // The bytes of the text.
    fn text_bytes(&self) -> &[u8]
        ensures text { result.now ≡ self.now.text }
    {
        &self.bytes[..self.len as usize]
    }

    /// The columns that the cell takes: 1 or 2, or 0 for a tail.
    pub fn width(&self) -> u32
        ensures width { result ≡ self.now.width }
        ensures known { IsCell self.now }
    {
        self.width as u32
    }

    /// Whether the cell is the second column of a wide one.
    pub fn tail(&self) -> bool
        ensures tail { result ≡ self.now.tail }
    {
        self.width == 0
    }

    /// The pen, of a tail too.
    pub fn pen(&self) -> Pen
        ensures pen { result ≡ self.now.pen }
        ensures channels { HasByteChannels result }
    {
        self.pen
    }

    // The cell where its tail is cut off: a wide cell becomes a blank.
    pub(crate) fn without_tail(self) -> Cell
        ensures cell { result ≡ without_tail self }
    {
        if self.width > 1 {
            Cell::blank(self.pen)
        } else {
            self
        }
    }

    // The cell where its wide cell is cut off: a tail becomes a blank.
    pub(crate) fn without_head(self) -> Cell
        ensures cell { result ≡ without_head self }
    {
        if self.tail() {
            Cell::blank(self.pen)
        } else {
            self
        }
    }
}

impl PartialEq for Cell {
    ghost use Rattle.std.specs.Cmp.{decided, partial_equiv_from_equiv};
    ghost use Rattle.tx_cell.specs.Same.{cell_eq, cell_eq-decides};

    ghost eq = { cell_eq };

    ghost laws = { partial_equiv_from_equiv (decided cell_eq cell_eq-decides) };

    fn eq(&self, other: &Cell) -> bool
        ensures value { result ≡ cell_eq self.now other.now }
        ensures same { IsTrue result ↔ (self.now ≡ other.now) }
    {
        self.text_bytes() == other.text_bytes()
            && (self.width == other.width && self.pen == other.pen)
    }
}

fn is_tab(cluster: &str) -> bool
    ensures { result ≡ is_tab cluster.now }
{
    matches!(cluster.as_bytes(), [b'\t'])
}

fn has_control(cluster: &str) -> bool
    ensures { result ≡ list_any is_control (chars cluster.now) }
{
    cluster.chars().any(|character| character.is_control())
}

fn plain_count(cluster: &str) -> usize
    ensures { result ≡ count_by is_plain (chars cluster.now) }
{
    cluster
        .chars()
        .filter(|character| is_plain(*character))
        .count()
}

fn is_unfit(cluster: &str) -> bool
    ensures { result ≡ is_unfit (chars cluster.now) }
{
    has_control(cluster) || (begins_plain(cluster) && plain_count(cluster) > 1)
}
