//! Strips: lists of cells in which each wide cell is followed by its tail.

ghost use Rattle.std.specs.Prelude.{◌≡◌, ◌+◌, ◌-◌, ◌<◌, ◌≤◌, ◌^◌, true, [], ◌∷◌, ◌++◌, length, map, slice_get, Some, IfOk, OnOk};
ghost use Rattle.std.specs.List.{All, AllPass, flat_map};
ghost use Rattle.unicode_segmentation.specs.Grapheme.{graphemes};
ghost use Rattle.tx_cell.specs.Cell.{IsOfItsText, shown, cluster_cell, cell_of};
ghost use Rattle.tx_cell.specs.Plain.{is_printable};
ghost use Rattle.tx_cell.specs.Strip.{IsWellFormed, AreCuts, line_cells, cropped, parts_from, joined, behind_start, before_end, with_tail};

use crate::cut::{blank_tail_front, blank_wide_end};
use crate::{Cell, Pen};
use std::alloc::{AllocError, Global};
use std::marker::Model;
use unicode_segmentation::UnicodeSegmentation;

/// A list of cells, in which each wide cell is followed by its tail.
///
/// It has fewer than 2^32 cells.
#[derive(Drop)]
pub struct Strip {
    cells: Vec<Cell>,
}

impl Model for Strip {
    ghost use Rattle.std.specs.Prelude.{List};
    ghost use Rattle.tx_cell.specs.Cell.{CellValue};
    ghost use Rattle.tx_cell.specs.Strip.{IsStrip};

    ghost Value = { List CellValue };

    ghost view = { λ s. s.cells.items };

    ghost invariant = { λ s. IsStrip s.cells.items };
}

/// The cells of a line: those of its grapheme clusters, in order, by the rules of `Cell::of`.
///
/// A wide cell is followed by its tail, and a cluster of width 0 has no cell. The line has fewer
/// than 2^32 bytes.
#[tactic(auto, unfolding(crate::specs::Strip::line_cells))]
pub fn cells_of(alloc: Global, line: &str, pen: Pen) -> Result<Strip, AllocError>
    requires short { length line.now < 2 ^ 32 }
    ensures cells { IfOk result (λ strip. strip ≡ line_cells line.now pen) }
    ensures clusters { All (λ cluster. cell_of cluster pen ≡ cluster_cell cluster pen) (graphemes true line.now) }
    ensures printable { AllPass is_printable line.now → IfOk result (λ strip. strip ≡ map (λ byte. shown (byte ∷ []) 1 pen) line.now) }
{
    let mut cells = Vec::new(alloc);
    for cluster in line.graphemes(true) {
        if let Some(cell) = Cell::of(cluster, pen) {
            push_whole(&mut cells, cell)?;
        }
    }
    Ok(Strip { cells })
}

// The strip of cells without tails, each wide one followed by its tail.
pub(crate) fn strip_of(alloc: Global, heads: &[Cell]) -> Result<Strip, AllocError>
    requires own { All IsOfItsText heads.now }
    requires short { length (flat_map with_tail heads.now) < 2 ^ 32 }
    ensures cells { IfOk result (λ strip. strip ≡ flat_map with_tail heads.now) }
{
    let mut cells = Vec::new(alloc);
    for cell in heads {
        push_whole(&mut cells, *cell)?;
    }
    Ok(Strip { cells })
}

// Adds a cell, and its tail where it is wide.
fn push_whole(cells: &mut Vec<Cell>, cell: Cell) -> Result<(), AllocError>
    ensures cells { OnOk result (cells.new.items ≡ cells.old.items ++ with_tail cell) }
{
    cells.push(cell)?;
    if cell.width() > 1 {
        cells.push(Cell::tail_of(cell.pen()))?;
    }
    Ok(())
}

impl Strip {
    /// How many cells the strip has.
    pub fn len(&self) -> u32
        ensures len { result ≡ length self.now }
        ensures formed { IsWellFormed self.now }
    {
        self.cells.len() as u32
    }

    /// The cells.
    pub fn as_slice(&self) -> &[Cell]
        ensures cells { result.now ≡ self.now }
        ensures formed { IsWellFormed self.now }
        ensures short { length self.now < 2 ^ 32 }
    {
        self.cells.as_slice()
    }

    /// The cells from column `from` up to, but not including, column `to`.
    ///
    /// A half of a wide cell whose other half is outside is a blank of the same pen.
    pub fn crop(&self, from: u32, to: u32) -> Cropped<'_>
        requires order { from ≤ to }
        requires inside { to ≤ length self.now }
        ensures cells { result ≡ cropped self.now from to }
        ensures len { length result ≡ to - from }
    {
        Cropped {
            cells: &self.cells[from as usize..to as usize],
        }
    }

    /// The strip cut before each of these columns: the crops from cut to cut.
    ///
    /// The first part begins at column 0, and the last one ends with the strip, so there is one
    /// part more than cuts. The cuts don't fall, and none is past the end.
    pub fn divide(&self, cuts: &[u32]) -> Result<Vec<Strip>, AllocError>
        requires ascending { AreCuts 0 (length self.now) cuts.now }
        ensures parts { IfOk result (λ parts. parts.items ≡ parts_from self.now 0 cuts.now) }
    {
        let alloc = *self.cells.allocator();
        let mut parts = Vec::new(alloc);
        let mut from = 0;
        for cut in cuts {
            parts.push(self.crop(from, *cut).to_strip(alloc)?)?;
            from = *cut;
        }
        parts.push(self.crop(from, self.len()).to_strip(alloc)?)?;
        Ok(parts)
    }
}

/// The cells of these strips, one after the other. They have fewer than 2^32 cells in all.
pub fn join(alloc: Global, parts: &[Strip]) -> Result<Strip, AllocError>
    requires short { length (joined parts.now) < 2 ^ 32 }
    ensures cells { IfOk result (λ strip. strip ≡ joined parts.now) }
{
    let mut cells = Vec::new(alloc);
    for part in parts {
        cells.extend_from_slice(part.as_slice())?;
    }
    Ok(Strip { cells })
}

/// A part of a strip, in which halves of cut wide cells are blanks.
#[derive(Drop)]
pub struct Cropped<'a> {
    cells: &'a [Cell],
}

impl<'a> Model for Cropped<'a> {
    ghost use Rattle.std.specs.Prelude.{List};
    ghost use Rattle.tx_cell.specs.Cell.{CellValue};
    ghost use Rattle.tx_cell.specs.Strip.{cut_front, cut_end, IsStrip};

    ghost Value = { List CellValue };

    ghost view = { λ c. cut_end (cut_front c.cells.now) };

    ghost invariant = { λ c. IsStrip (cut_end (cut_front c.cells.now)) };
}

impl<'a> Cropped<'a> {
    /// The cell in column `x` of the part, counted from its first one.
    pub fn at(&self, x: u32) -> Cell
        requires inside { x < length self.now }
        ensures cell { slice_get self.now x ≡ Some result }
    {
        let index = x as usize;
        let is_last = index + 1 == self.cells.len();
        before_end(is_last, behind_start(x == 0, self.cells[index]))
    }

    fn to_strip(&self, alloc: Global) -> Result<Strip, AllocError>
        ensures cells { IfOk result (λ strip. strip ≡ self.now) }
    {
        let mut cells = Vec::from_slice(alloc, self.cells)?;
        blank_tail_front(&mut cells);
        blank_wide_end(&mut cells);
        Ok(Strip { cells })
    }
}

// The cell of a part, where it may be the first one, after the cut.
fn behind_start(is_first: bool, cell: Cell) -> Cell
    ensures { result ≡ behind_start is_first cell }
{
    if is_first { cell.without_head() } else { cell }
}

// The cell of a part, where it may be the last one, before the cut.
fn before_end(is_last: bool, cell: Cell) -> Cell
    ensures { result ≡ before_end is_last cell }
{
    if is_last { cell.without_tail() } else { cell }
}
