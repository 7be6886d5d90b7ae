//! What authors expect of an arrangement and of a measure, as contracts of functions that do nothing.
//! They hold of the definitions that [`crate::arrange`], [`crate::wide_of`] and [`crate::tall_of`]
//! give the answers of.

ghost use Rattle.std.specs.Prelude.{All, IfSome};
ghost use Rattle.tx_frac.specs.Ratio.{IsLowest};
ghost use Rattle.tx_layout.specs.Style.{IsBoxStyle, IsGridStyle};
ghost use Rattle.tx_layout.specs.Laws.{AcceptedFillRoom, IsAccepted, IsAcceptedGrid, CelledHaveRegions, FillsRoom, MeaningsDecide, NoneShareCells, NoneShareInArrangement};
ghost use Rattle.tx_layout.specs.Ordinary.{OrdinaryChildren};

use crate::styles::{BoxStyle, GridStyle};
use tx_frac::{Frac, Scalar};

// A fraction is in lowest terms.
fn is_lowest(value: Frac)
    ensures { IsLowest value }
{
    let whole = value.floor();
    prove!(whole <= i128::MAX);
}

// So is that of a limit.
fn limit_is_lowest(limit: Option<Scalar>)
    ensures { IfSome limit (λ l. IsLowest l.value) }
{
    match limit {
        None => {}
        Some(limit) => is_lowest(limit.value),
    }
}

/// Each style that the calls accept has its numbers in lowest terms.
pub fn accepted_is_lowest(style: &BoxStyle)
    requires { IsBoxStyle style.now }
    ensures { IsAccepted style.now }
{
    is_lowest(style.width.value);
    is_lowest(style.height.value);
    limit_is_lowest(style.least[0]);
    limit_is_lowest(style.least[1]);
    limit_is_lowest(style.most[0]);
    limit_is_lowest(style.most[1]);
}

// So is each of tracks.
fn tracks_are_lowest(tracks: &[Scalar])
    ensures { All (λ track. IsLowest track.value) tracks.now }
{
    match tracks.split_first() {
        None => {}
        Some((first, rest)) => {
            is_lowest(first.value);
            tracks_are_lowest(rest);
        }
    }
}

/// Each grid that the calls accept has its numbers in lowest terms.
pub fn accepted_grid_is_lowest(grid: &GridStyle)
    requires { IsGridStyle grid.now }
    ensures { IsAcceptedGrid grid.now }
{
    tracks_are_lowest(grid.column_tracks.as_slice());
    tracks_are_lowest(grid.row_tracks.as_slice());
}

/// Where children of a column or a row share its room by `fr`, the last of them ends with its margin
/// where the room does: some share isn't settled in the last round and is greater than 0, and what
/// is left there isn't below 0.
pub fn fills_room()
    ensures { FillsRoom }
{
    tx_box::laws::fills_total();
    tx_box::laws::spans_follow();
}

/// The same where nothing is known of the children but that their styles are accepted.
pub fn accepted_fill_room()
    ensures { AcceptedFillRoom }
{
    tx_box::laws::fills_total();
    tx_box::laws::spans_follow();
}

/// No two children of a column or a row share a cell, where they have no offset.
pub fn none_share_cells()
    ensures { NoneShareCells }
{
    tx_box::laws::spans_follow();
}

/// In the arrangement of a column, a row or a grid, no two children of one layer share a cell that
/// aren't docked and have no offset.
pub fn none_share_in_arrangement()
    ensures { NoneShareInArrangement }
{
    tx_box::laws::spans_follow();
    tx_grid::laws::each_stands_first();
    tx_grid::laws::none_share_cells();
}

/// Each docked child has a region, each child of a column or a row, and each child of a grid that finds
/// a place. No other child has one.
pub fn celled_have_regions()
    ensures { CelledHaveRegions }
{}

/// An arrangement and the measures depend on nothing but the styles, the kind, the grid, the
/// alignment, the area with the width that is asked for, the screen, and the answers for the
/// container's own children: two meanings that agree on these give the same.
pub fn meanings_decide()
    ensures { MeaningsDecide }
{}

/// The arrangement and the measures of at most 1,000 children are always defined for numbers as
/// stylesheets write them, of at most 9 whole digits and 3 decimals, in areas and on screens of at
/// most 2^23 cells, where the children's own measures are.
pub fn ordinary_children()
    ensures { OrdinaryChildren }
{
    tx_frac::laws::one_form();
    tx_box::laws::ordinary_axis();
    tx_box::laws::ordinary_box();
    tx_box::laws::ordinary_cells();
    tx_box::laws::ordinary_spans();
    tx_box::laws::spans_follow();
    tx_grid::laws::all_are_placed();
}
