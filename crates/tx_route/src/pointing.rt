//! Clicks, and the pointer where it moves.

ghost use Rattle.std.specs.Prelude.{◌≡◌, Some, true};
ghost use Rattle.tx_geom.specs.Region.{Holds};
ghost use Rattle.tx_tree.specs.Row.{plain};
ghost use Rattle.tx_widgets.specs.Frame.{place};
ghost use Rattle.tx_route.specs.Pointing.{click_in, click_for, at_row, at_cell, at_target};

use crate::deliveries::{Deliveries, Why};
use crate::enabled::is_enabled;
use tx_geom::Region;
use tx_tree::{NodeId, Row, Tree};
use tx_widgets::{Message, Sight};

/// A click on a cell of a region, with its place counted from the region's corner.
fn click_in(x: u32, y: u32, region: Region) -> Message
    requires { Holds region (place x y) }
    ensures { result ≡ click_in x y region }
{
    Message::Click {
        x: (x as i64 - region.x) as u32,
        y: (y as i64 - region.y) as u32,
    }
}

/// A click for the row that owns a cell, if that row is enabled.
fn click_for<S: Sight>(
    tree: &Tree,
    sight: &S,
    x: u32,
    y: u32,
    row: &Row,
) -> Option<(NodeId, Message)>
    requires { (S.frame sight.now).owner x y ≡ Some row.now.node }
    ensures { result ≡ click_for tree.now.rows (S.frame sight.now) true x y (plain row.now) }
{
    if !is_enabled(tree, row) {
        return None;
    }
    match sight.region(row.node) {
        Some(region) => Some((row.node, click_in(x, y, region))),
        None => None,
    }
}

/// What the pointer does at a cell, which a row of the tree owns.
fn at_row<S: Sight>(tree: &Tree, sight: &S, is_click: bool, x: u32, y: u32, row: &Row) -> Deliveries
    requires { (S.frame sight.now).owner x y ≡ Some row.now.node }
    ensures { result ≡ at_row tree.now.rows (S.frame sight.now) is_click x y (plain row.now) }
{
    let put = if is_click {
        click_for(tree, sight, x, y, row)
    } else {
        None
    };
    Deliveries {
        pointed: Some(row.node),
        put,
        ..Deliveries::nothing()
    }
}

/// What the pointer does at a cell: it points at the row that owns it, and a click goes there.
#[tactic(auto, unfolding(crate::specs::Pointing::at_cell))]
pub fn at_cell<S: Sight>(tree: &Tree, sight: &S, is_click: bool, x: u32, y: u32) -> Deliveries
    ensures { result ≡ at_cell tree.now.rows (S.frame sight.now) is_click x y }
{
    let Some(owner) = sight.owner(x, y) else {
        return Deliveries::missed_by(Why::OffScreen);
    };
    match tree.row(owner) {
        Some(row) => at_row(tree, sight, is_click, x, y, row),
        None => Deliveries::missed_by(Why::NoTarget),
    }
}

/// What the pointer does at the row that is meant: as at a cell that the row owns.
pub fn at_target<S: Sight>(
    tree: &Tree,
    sight: &S,
    is_click: bool,
    target: Option<NodeId>,
) -> Deliveries
    ensures { result ≡ at_target tree.now.rows (S.frame sight.now) is_click target }
{
    let Some(node) = target else {
        return Deliveries::missed_by(Why::NoTarget);
    };
    match sight.spot(node) {
        Some((x, y)) => Deliveries {
            target: Some(node),
            ..at_cell(tree, sight, is_click, x, y)
        },
        None => Deliveries::missed_by(Why::NotShown),
    }
}
