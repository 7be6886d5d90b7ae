//! What holds of where children stand, as contracts of functions that do nothing. They hold of the
//! definition that [`crate::stand`] gives the answer of.

ghost use Rattle.tx_grid.specs.Laws.{AllArePlaced, EachStandsFirst, FirstPlaceIsWhereItStands, NoneShareCells};

/// The first place, as a function, is the one that the relation allows, and no other is.
pub fn first_place_is_where_it_stands()
    ensures { FirstPlaceIsWhereItStands }
{}

/// Each child stands at the first place that was free when it was placed, and nowhere exactly where
/// there was none.
pub fn each_stands_first()
    ensures { EachStandsFirst }
{}

/// No two children of a layer share a cell.
pub fn none_share_cells()
    ensures { NoneShareCells }
{}

/// Where no rows are given each child is placed, and no more rows are used than the children span
/// together.
pub fn all_are_placed()
    ensures { AllArePlaced }
{}
