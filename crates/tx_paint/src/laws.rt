//! What holds of all drawings.

ghost use Rattle.tx_paint.specs.Laws.{BarsAreInTheRowsPen, BordersAreOutside, BordersAreShown, LinesAreOfTheKind, LinesAreWhole, ThumbsReachTheirEnds};

/// The border is shown whatever else a row has, also where its content has no cell.
pub fn borders_are_shown()
    ensures law { BordersAreShown }
{}

/// The border has no place of the content.
pub fn borders_are_outside()
    ensures law { BordersAreOutside }
{}

/// A bar is drawn in the row's own pen.
pub fn bars_are_in_the_rows_pen()
    ensures law { BarsAreInTheRowsPen }
{}

/// Each line of a drawing has a cell for each column of the region, and each wide cell in it is
/// followed by its tail.
pub fn lines_are_whole()
    ensures law { LinesAreWhole }
{}

/// The lines of the content of a row are those that its kind draws: blank ones for a kind with
/// children.
pub fn lines_are_of_the_kind()
    ensures law { LinesAreOfTheKind }
{}

/// The thumb of a bar begins with the bar's first cell where nothing is scrolled, and ends with its
/// last one where all is.
pub fn thumbs_reach_their_ends()
    ensures law { ThumbsReachTheirEnds }
{}
