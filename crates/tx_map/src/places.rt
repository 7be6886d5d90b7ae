//! Where a child stands in its container.

ghost use Rattle.std.specs.Prelude.{◌≡◌, ◌<◌, ◌≤◌, ◌++◌, ◌^◌, [], ◌∷◌, IfOk, IfSome, drop};
ghost use Rattle.tx_geom.specs.Region.{corner, moved};
ghost use Rattle.tx_layout.specs.Arrangement.{AreWithinReach, IsWithinReach};
ghost use Rattle.tx_map.specs.LayoutMap.{scrolled_by, docked_number, first_region};
ghost use Rattle.tx_map.specs.Reach.{IsPlaceWithin, IsReached, IsHandedDown};
ghost use Rattle.tx_sizes.specs.Forest.{depth};
ghost use Rattle.tx_value.specs.StyleReads.{dock};

use std::alloc::Global;
use tx_geom::{Edge, Offset, Region};
use tx_sizes::StyledRow;
use tx_text::NoMemory;

/// What a container hands down to its children, beside its style and its key.
#[derive(Clone, Copy)]
pub struct Frame {
    /// How many rows the container stands below.
    pub depth: u32,
    /// The room for the children, on the screen.
    pub viewport: Region,
    /// Only what of the children is in here can show.
    pub clip: Region,
    /// How far those that follow others are moved up and to the left.
    pub scroll: (u32, u32),
}

/// The place of a region.
pub fn corner_of(region: Region) -> Offset
    ensures { result ≡ corner region }
{
    Offset {
        x: region.x,
        y: region.y,
    }
}

// How far a child moves by the scroll of its container.
fn scrolled_by(dock: Option<Edge>, scroll: (u32, u32)) -> Offset
    ensures exact { result ≡ scrolled_by dock scroll }
    ensures near { IsPlaceWithin (2 ^ 32) result }
{
    match dock {
        None => Offset {
            x: -(scroll.0 as i64),
            y: -(scroll.1 as i64),
        },
        Some(_) => Offset { x: 0, y: 0 },
    }
}

/// The region of a child on the screen, by the one from the corner of the viewport on.
pub fn child_region(frame: Frame, own: &StyledRow<'_>, region: Region) -> Region
    requires deeper { frame.depth < depth own.now }
    requires deep { depth own.now ≤ 63 }
    requires region { IsWithinReach region }
    requires near { IsHandedDown frame }
    ensures exact { result ≡ moved (moved region (corner frame.viewport)) (scrolled_by (dock own.now.style) frame.scroll) }
    ensures near { IsReached (depth own.now) result frame.clip }
{
    let viewport = corner_of(frame.viewport);
    let scrolled = scrolled_by(own.style().dock(), frame.scroll);
    region.translate(viewport).translate(scrolled)
}

/// The part of a key that says whether a row is docked.
pub fn docked_number(dock: Option<Edge>) -> u32
    ensures { result ≡ docked_number dock }
{
    match dock {
        None => 0,
        Some(_) => 1,
    }
}

/// The key of a child: that of its container, and then its layer, whether it is docked, and its place.
pub fn child_key(
    alloc: Global,
    above: &[u32],
    layer: u32,
    docked: u32,
    place: u32,
) -> Result<Vec<u32>, NoMemory>
    ensures { IfOk result (λ key. key.items ≡ above.now ++ layer ∷ (docked ∷ (place ∷ []))) }
{
    let mut key = Vec::from_slice(alloc, above)?;
    key.push(layer)?;
    key.push(docked)?;
    key.push(place)?;
    Ok(key)
}

/// The region at a place, if there is one.
pub fn region_at(regions: &[Option<Region>], at: usize) -> Option<Region>
    requires { AreWithinReach regions.now }
    ensures exact { result ≡ first_region (drop at regions.now) }
    ensures near { IfSome result IsWithinReach }
{
    match regions.get(at) {
        Some(region) => *region,
        None => None,
    }
}
