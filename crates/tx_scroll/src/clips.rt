//! What a region shows inside another one.

ghost use Rattle.std.specs.Prelude.{◌≡◌, ◌↔◌};
ghost use Rattle.tx_geom.specs.declared.places.Offset.{Offset};
ghost use Rattle.tx_geom.specs.Region.{Holds, IsNearPlace, corner, nothing_at};
ghost use Rattle.tx_scroll.specs.Clip.{clipped};

use tx_geom::Region;

/// The cells of a region that are in another one too.
///
/// Where there are none, the answer has size 0 by 0 at the region's place. Coordinates lie within
/// plus and minus 2^61.
pub fn clip(region: Region, by: Region) -> Region
    requires near { IsNearPlace (corner region) }
    requires by_near { IsNearPlace (corner by) }
    ensures exact { result ≡ clipped region by }
    ensures cells { (p : Offset) → Holds result p ↔ (Holds region p × Holds by p) }
    ensures nothing { ((p : Offset) → Holds region p → ¬ Holds by p) → result ≡ nothing_at region }
{
    region.intersect(by)
}
