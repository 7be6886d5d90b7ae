//! What holds of all pictures.

ghost use Rattle.tx_picture.specs.Laws.{CoveredHalvesAreBlank, OwnersDecide, SinglesShow, TailsNeedBoth, WideNeedBoth};

/// A cell shows what its owner draws there, and nothing of any other row: it goes by its owner, by
/// what that draws there, and by whether it owns the cells to the left and to the right.
pub fn owners_decide()
    ensures { OwnersDecide }
{}

/// A cell of one column shows as its row draws it.
pub fn singles_show()
    ensures { SinglesShow }
{}

/// A wide cell shows where its row owns the next cell too; else a blank of its pen does.
pub fn wide_need_both()
    ensures { WideNeedBoth }
{}

/// The tail of a wide cell shows where its row owns the cell before it too; else a blank of its pen
/// does.
pub fn tails_need_both()
    ensures { TailsNeedBoth }
{}

/// Of a wide cluster in the first two columns, the second of which another row owns, the first column
/// shows a blank.
pub fn covered_halves_are_blank()
    ensures { CoveredHalvesAreBlank }
{}
