//! The picture of a tree.

ghost use Rattle.std.specs.Prelude.{◌≡◌, ◌<◌, ◌*◌, Some, length, replicate, slice_get, IfOk, OnOk};
ghost use Rattle.tx_cell.specs.Grid.{IsGrid, changed_at, filled};
ghost use Rattle.tx_picture.specs.Cells.{AllCover, AreWide, OwnersCover, cell_by, drawn_lines};
ghost use Rattle.tx_picture.specs.Given.{AreBuiltIn, AreOwners};
ghost use Rattle.tx_picture.specs.Picture.{empty, picture, shown_line, styles_of};
ghost use Rattle.tx_picture.specs.Ticks.{Composed, ComposedAtMost};

use crate::cells::line_of;
use crate::drawings::{drawings_of, see_drawings};
use crate::laying::lay_line;
use std::alloc::Global;
use tx_cascade::Styles;
use tx_cell::{Cell, Grid, Pen};
use tx_io::{Ledger, Steps};
use tx_map::{Entry, LayoutMap, Present};
use tx_owner::Owners;
use tx_owner::laws::{topmost_is_that, within_is_held};
use tx_paint::Drawing;
use tx_paint::laws::lines_are_whole;
use tx_text::NoMemory;

// Lays a line of a picture on the grid.
fn compose_line<L: Ledger>(
    alloc: Global,
    grid: &mut Grid,
    entries: &[Entry],
    drawings: &[Option<Drawing>],
    line: &[Option<usize>],
    y: u32,
    steps: &mut Steps<L>,
) -> Result<(), NoMemory>
    requires row { y < grid.old.size.height }
    requires width { length line.now ≡ grid.old.size.width }
    requires covers { OwnersCover entries.now drawings.now y line.now }
    requires blank { slice_get grid.old.rows y ≡ Some (replicate grid.old.size.width empty) }
    ensures row { OnOk result (grid.new ≡ record grid.old { rows = changed_at y (λ _. shown_line (cell_by entries.now drawings.now y) line.now) grid.old.rows }) }
    ensures cells { OnOk result (Composed L.ticked grid.old.size.width steps.old.ledger steps.new.ledger) }
    ensures ticks { ComposedAtMost L.ticked grid.old.size.width steps.old.ledger steps.new.ledger }
{
    lines_are_whole();
    let width = grid.size().width;
    let cells = line_of(alloc, entries, drawings, line, width, y, steps)?;
    lay_line(grid, y, &cells);
    Ok(())
}

// Lays the lines of a picture on a blank grid.
fn compose_lines<L: Ledger>(
    alloc: Global,
    grid: &mut Grid,
    entries: &[Entry],
    drawings: &[Option<Drawing>],
    owners: &Owners,
    steps: &mut Steps<L>,
) -> Result<(), NoMemory>
    requires blank { grid.old ≡ filled owners.now.size empty }
    requires lines { length owners.now.lines ≡ owners.now.size.height }
    requires widths { AreWide owners.now.size.width owners.now.lines }
    requires covers { AllCover entries.now drawings.now owners.now.lines }
    ensures rows { OnOk result (grid.new ≡ record { size = owners.now.size; rows = drawn_lines entries.now drawings.now owners.now.lines }) }
    ensures cells { OnOk result (Composed L.ticked (owners.now.size.width * owners.now.size.height) steps.old.ledger steps.new.ledger) }
    ensures ticks { ComposedAtMost L.ticked (owners.now.size.width * owners.now.size.height) steps.old.ledger steps.new.ledger }
{
    for y in 0..owners.size().height {
        let Some(line) = owners.line(y) else {
            unreachable!()
        };
        compose_line(alloc, grid, entries, drawings, line, y, steps)?;
    }
    Ok(())
}

/// The picture of what is shown: each cell of the screen shows what the row that owns it draws there.
///
/// The styles are those of the tree and of the pseudo state, the map and the owners are those of the
/// styles, and no row is of a kind that is handed in.
///
/// - A row draws its border, its padding, its content and its bars in its region, as
///   [`tx_paint::Drawing`] says, in the theme and with the focus of the pseudo state. Its background
///   lies over those of its ancestors.
/// - A half of a wide cluster whose other half the same row doesn't own, since another row owns it or
///   it is off the screen, is a blank of the same pen.
/// - What is drawn of a row is drawn once, and nothing is drawn of a row that owns no cell.
///
/// Each cell of the screen is one `Cell` in `steps`; where there is no memory, at most as many.
pub fn picture_of<L: Ledger>(
    alloc: Global,
    present: &Present<'_>,
    styles: &Styles,
    map: &LayoutMap,
    owners: &Owners,
    steps: &mut Steps<L>,
) -> Result<Grid, NoMemory>
    requires same { styles.now.rows ≡ present.now.tree.now.rows }
    requires state { styles.now.state ≡ present.now.pseudo.now }
    requires built_in { AreBuiltIn present.now.tree.now.rows }
    requires owners { AreOwners (styles_of styles.now) map.now present.now.size owners.now }
    ensures picture { IfOk result (λ grid. grid ≡ picture styles.now map.now present.now.size) }
    ensures shape { IfOk result IsGrid }
    ensures cells { OnOk result (Composed L.ticked (present.now.size.width * present.now.size.height) steps.old.ledger steps.new.ledger) }
    ensures ticks { ComposedAtMost L.ticked (present.now.size.width * present.now.size.height) steps.old.ledger steps.new.ledger }
{
    topmost_is_that();
    within_is_held();
    let entries = map.entries();
    let drawings = drawings_of(alloc, present, styles, owners, entries)?;
    see_drawings(&drawings);
    let mut grid = Grid::open(alloc, present.size, Cell::blank(Pen::WHITE_ON_BLACK))?;
    compose_lines(alloc, &mut grid, entries, &drawings, owners, steps)?;
    let _size = grid.size();
    Ok(grid)
}
