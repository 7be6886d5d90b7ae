//! What frames tell.

ghost use Rattle.std.specs.Prelude.{◌≡◌};
ghost use Rattle.tx_widgets.specs.StackedFrame.{lies_in, part};

use crate::Sight;
use std::test::Fail;
use tx_expect::expect;
use tx_geom::Region;
use tx_tree::NodeId;

// A frame that shows no row.
struct Dark;

impl Sight for Dark {
    ghost use Rattle.std.specs.Prelude.{None, false};
    ghost use Rattle.std.proofs.Common.{rules};

    ghost frame = { λ s. record { owner = λ x y. None; spot = λ n. None; region = λ n. None; shown = λ n. false } };

    fn owner(&self, _x: u32, _y: u32) -> Option<NodeId> {
        None
    }

    fn spot(&self, _node: NodeId) -> Option<(u32, u32)> {
        None
    }

    fn region(&self, _node: NodeId) -> Option<Region> {
        None
    }

    fn shown(&self, _node: NodeId) -> bool {
        false
    }

    ghost law = { λ s. record { owned = λ x y node is. Prim.search rules; spotted = λ node x y is. Prim.search rules } };
}

// Whether a cell lies in a part of so many columns and rows from a cell on.
fn lies_in(left: u32, top: u32, width: u32, height: u32, x: u32, y: u32) -> bool
    ensures { result ≡ lies_in left top width height x y }
{
    (left <= x && x - left < width) && (top <= y && y - top < height)
}

// The part as a region.
fn part(left: u32, top: u32, width: u32, height: u32) -> Region
    ensures { result ≡ part left top width height }
{
    Region {
        x: left as i64,
        y: top as i64,
        width,
        height,
    }
}

// A frame of three rows, one over another: row 1 has 10 columns and 5 rows, row 2 over it has 8 and
// 4 at the same corner, and row 3 over both has 4 and 2 from column 2 and row 1 on.
struct Stacked;

impl Sight for Stacked {
    ghost use Rattle.tx_widgets.specs.StackedFrame.{stacked, stacked-law};

    ghost frame = { λ s. stacked };

    fn owner(&self, x: u32, y: u32) -> Option<NodeId> {
        if lies_in(2, 1, 4, 2, x, y) {
            return Some(NodeId(3));
        }
        if lies_in(0, 0, 8, 4, x, y) {
            return Some(NodeId(2));
        }
        if lies_in(0, 0, 10, 5, x, y) {
            return Some(NodeId(1));
        }
        None
    }

    fn spot(&self, node: NodeId) -> Option<(u32, u32)> {
        if node.0 == 3 {
            return Some((2, 1));
        }
        if node.0 == 2 {
            return Some((0, 0));
        }
        if node.0 == 1 {
            return Some((8, 0));
        }
        None
    }

    fn region(&self, node: NodeId) -> Option<Region> {
        if node.0 == 3 {
            return Some(part(2, 1, 4, 2));
        }
        if node.0 == 2 {
            return Some(part(0, 0, 8, 4));
        }
        if node.0 == 1 {
            return Some(part(0, 0, 10, 5));
        }
        None
    }

    fn shown(&self, node: NodeId) -> bool {
        if node.0 == 3 {
            return true;
        }
        if node.0 == 2 {
            return true;
        }
        node.0 == 1
    }

    ghost law = { λ s. stacked-law };
}

// Whether a region holds a cell.
fn holds(region: Region, x: u32, y: u32) -> bool {
    let right = region.x.saturating_add(region.width as i64);
    let bottom = region.y.saturating_add(region.height as i64);
    (region.x <= x as i64 && (x as i64) < right) && (region.y <= y as i64 && (y as i64) < bottom)
}

// Whether the owner of a cell, if there is one, has a region that holds it.
fn is_owned_inside<S: Sight>(sight: &S, x: u32, y: u32) -> bool {
    match sight.owner(x, y) {
        None => true,
        Some(node) => match sight.region(node) {
            None => false,
            Some(region) => holds(region, x, y),
        },
    }
}

// Whether a row owns its spot, if it has one.
fn owns_its_spot<S: Sight>(sight: &S, node: NodeId) -> bool {
    match sight.spot(node) {
        None => true,
        Some((x, y)) => sight.owner(x, y) == Some(node),
    }
}

// How many cells of so many columns and rows a row owns.
fn owned_count<S: Sight>(sight: &S, node: NodeId, width: u32, height: u32) -> u32 {
    let mut count = 0u32;
    for y in 0..height {
        for x in 0..width {
            if sight.owner(x, y) == Some(node) {
                count = count.saturating_add(1);
            }
        }
    }
    count
}

// Whether all cells of so many columns and rows are as the law of frames says, and so are the first
// five rows.
fn keeps_the_law<S: Sight>(sight: &S, width: u32, height: u32) -> bool {
    for y in 0..height {
        for x in 0..width {
            if !is_owned_inside(sight, x, y) {
                return false;
            }
        }
    }
    for number in 0..5 {
        if !owns_its_spot(sight, NodeId(number)) {
            return false;
        }
    }
    true
}

// Whether a frame tells nothing of a row at the first cell.
fn tells_nothing<S: Sight>(sight: &S, node: NodeId) -> bool {
    sight.owner(0, 0).is_none()
        && sight.spot(node).is_none()
        && sight.region(node).is_none()
        && !sight.shown(node)
}

#[test]
fn a_dark_frame_tells_nothing(_rt: HostRuntime) -> Result<(), Fail> {
    expect(tells_nothing(&Dark, NodeId(1)), "a dark frame")?;
    expect(keeps_the_law(&Dark, 3, 3), "its law")
}

#[test]
fn a_stacked_frame_keeps_the_law(_rt: HostRuntime) -> Result<(), Fail> {
    expect(keeps_the_law(&Stacked, 12, 7), "the law")?;
    expect(
        owned_count(&Stacked, NodeId(3), 12, 7) == 8,
        "the cells of row 3",
    )?;
    expect(
        owned_count(&Stacked, NodeId(2), 12, 7) == 24,
        "the cells of row 2",
    )?;
    expect(
        owned_count(&Stacked, NodeId(1), 12, 7) == 18,
        "the cells of row 1",
    )?;
    expect(
        owned_count(&Stacked, NodeId(4), 12, 7) == 0,
        "the cells of no row",
    )?;
    expect(
        Stacked.shown(NodeId(1)) && !Stacked.shown(NodeId(4)),
        "the rows that are shown",
    )
}
