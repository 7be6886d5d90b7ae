//! Frames of panes.

ghost use Rattle.std.specs.Prelude.{◌≡◌, false};
ghost use Rattle.std.specs.Option.{option_map_or};
ghost use Rattle.tx_route.specs.Panes.{covers, pane_of, owner_in, spot_of};

use tx_geom::Region;
use tx_tree::NodeId;
use tx_widgets::Sight;

/// The number of a row, the column and the row of its corner, its width and height, and the column
/// and the row of a cell of it.
pub type Pane = (u32, u32, u32, u32, u32, u32, u32);

/// Panes that lie one over the other on a screen, the topmost first.
#[derive(Drop)]
pub struct Panes<'a> {
    pub panes: &'a [Pane],
}

/// Whether a cell lies in a pane.
fn covers(pane: Pane, x: u32, y: u32) -> bool
    ensures { result ≡ covers x y pane }
{
    (pane.1 <= x && x - pane.1 < pane.3) && (pane.2 <= y && y - pane.2 < pane.4)
}

/// The pane of a row.
fn pane_of(panes: &[Pane], n: u32) -> Option<Pane>
    ensures { result ≡ pane_of n panes.now }
{
    panes.iter().copied().find(|pane| pane.0 == n)
}

/// Whether the pane of a row covers a cell.
fn row_covers(panes: &[Pane], n: u32, x: u32, y: u32) -> bool
    ensures { result ≡ option_map_or (covers x y) (pane_of n panes.now) false }
{
    match pane_of(panes, n) {
        Some(pane) => covers(pane, x, y),
        None => false,
    }
}

/// The topmost pane that covers a cell.
fn owner_in(panes: &[Pane], x: u32, y: u32) -> Option<NodeId>
    ensures { result ≡ owner_in panes.now x y }
{
    for pane in panes {
        if row_covers(panes, pane.0, x, y) {
            return Some(NodeId(pane.0));
        }
    }
    None
}

/// The cell of a pane, where it isn't covered.
fn spot_of(panes: &[Pane], pane: Pane) -> Option<(u32, u32)>
    ensures { result ≡ spot_of panes.now pane }
{
    if owner_in(panes, pane.5, pane.6) == Some(NodeId(pane.0)) {
        Some((pane.5, pane.6))
    } else {
        None
    }
}

impl Sight for Panes<'_> {
    ghost use Rattle.tx_route.specs.Panes.{frame_of, are-frames};

    ghost frame = { λ s. frame_of s.panes.now };

    fn owner(&self, x: u32, y: u32) -> Option<NodeId> {
        owner_in(self.panes, x, y)
    }

    fn spot(&self, node: NodeId) -> Option<(u32, u32)> {
        match pane_of(self.panes, node.0) {
            Some(pane) => spot_of(self.panes, pane),
            None => None,
        }
    }

    fn region(&self, node: NodeId) -> Option<Region> {
        match pane_of(self.panes, node.0) {
            Some(pane) => Some(Region {
                x: pane.1 as i64,
                y: pane.2 as i64,
                width: pane.3,
                height: pane.4,
            }),
            None => None,
        }
    }

    fn shown(&self, node: NodeId) -> bool {
        pane_of(self.panes, node.0).is_some()
    }

    ghost law = { λ s. are-frames s.panes.now };
}
