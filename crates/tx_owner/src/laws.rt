//! What holds of the owners of all cells.

ghost use Rattle.tx_owner.specs.Laws.{WithinIsHeld, TopmostIsThat, OwnersAreOfCells, EachCellIsOwned};

/// Whether a region holds a cell of the screen is whether the cell is one of its.
pub fn within_is_held()
    ensures { WithinIsHeld }
{}

/// The topmost entry at a cell shows there, and no entry of the map that shows there has a greater
/// key.
pub fn topmost_is_that()
    ensures { TopmostIsThat }
{}

/// At each cell of the screen the owners of all cells have that cell's owner.
pub fn owners_are_of_cells()
    ensures { OwnersAreOfCells }
{}

/// Each cell of the screen has an owner where the first entry fills the screen, as the Screen does.
pub fn each_cell_is_owned()
    ensures { EachCellIsOwned }
{}
