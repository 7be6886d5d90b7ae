//! Laws about the definitions, each the contract of a function that does nothing.

ghost use Rattle.std.specs.Prelude.{◌≡◌};
ghost use Rattle.tx_cell.specs.Laws.{TextsMakeCells, CellsAreOfTheirText, NothingMakesNoCell, BlanksAreOfTheirText, ClustersStandAlone, CellsAreWellFormed, LinesAreWellFormed, PartsAreWellFormed, LaidCellsAreWellFormed};
ghost use Rattle.tx_cell.specs.Pen.{white_on_black};

use crate::Pen;

/// Each cell that a text makes takes one column or two, and its text is fit to be shown: at most
/// 32 bytes, without a control character, and with no two plain characters.
pub fn texts_make_cells()
    ensures law { TextsMakeCells }
{}

/// Each cell that a text makes is the one that its own text makes.
pub fn cells_are_of_their_text()
    ensures law { CellsAreOfTheirText }
{}

/// No bytes make no cell.
pub fn nothing_makes_no_cell()
    ensures law { NothingMakesNoCell }
{}

/// A blank is the cell that its text makes.
pub fn blanks_are_of_their_text()
    ensures law { BlanksAreOfTheirText }
{}

/// Each grapheme cluster of a text, taken by itself, makes the cell that it has in the text.
pub fn clusters_stand_alone()
    ensures law { ClustersStandAlone }
{}

/// A cell that is the one of its text is well formed, with its tail where it is wide.
pub fn cells_are_well_formed()
    ensures law { CellsAreWellFormed }
{}

/// The cells of a line are well formed.
pub fn lines_are_well_formed()
    ensures law { LinesAreWellFormed }
{}

/// Each part of well-formed cells is well formed: halves of wide cells that are cut are blanks.
pub fn parts_are_well_formed()
    ensures law { PartsAreWellFormed }
{}

/// Well-formed cells that are laid over a well-formed row leave it well formed.
pub fn laid_cells_are_well_formed()
    ensures law { LaidCellsAreWellFormed }
{}

/// `Pen::WHITE_ON_BLACK` is white on black, without marks.
pub fn white_on_black()
    ensures law { Pen.WHITE_ON_BLACK ≡ white_on_black }
{}
