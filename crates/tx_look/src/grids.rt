//! The grid of a container.

ghost use Rattle.std.specs.Prelude.{◌≡◌, IfOk, OnOk};
ghost use Rattle.tx_layout.specs.Style.{IsGridStyle};
ghost use Rattle.tx_look.specs.Boxes.{grid_style};

use std::alloc::Global;
use tx_layout::GridStyle;
use tx_text::{Items, NoMemory};
use tx_value::Style;
use tx_value::laws::reads_are_within;

/// What the style of a container says of its grid. It meets the conditions of the calls of
/// [`tx_layout`]. It fails only where there is no memory for the sizes of its tracks.
pub fn grid_style(alloc: Global, own: &Style) -> Result<GridStyle, NoMemory>
    ensures exact { IfOk result (λ grid. grid ≡ grid_style own.now) }
    ensures accepted { IfOk result IsGridStyle }
{
    reads_are_within();
    let (columns, rows) = own.grid_size();
    let (gutter_vertical, gutter_horizontal) = own.grid_gutter();
    let column_tracks = Vec::from_slice(alloc, own.column_tracks())?;
    let row_tracks = Vec::from_slice(alloc, own.row_tracks())?;
    Ok(GridStyle {
        columns,
        rows,
        column_tracks: Items::of(column_tracks),
        row_tracks: Items::of(row_tracks),
        gutter_vertical,
        gutter_horizontal,
    })
}
