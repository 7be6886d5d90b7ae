//! The content of a row.

ghost use Rattle.std.specs.Prelude.{◌≡◌};
ghost use Rattle.tx_geom.specs.Region.{IsNearPlace, corner};
ghost use Rattle.tx_look.specs.Content.{content_region};

use tx_geom::Region;
use tx_value::Style;

/// The content of a row that fills a region: the region without the row's padding and without one
/// cell for each border edge that is set. Its sizes are at least 0. Coordinates lie within plus and
/// minus 2^61. It takes no memory.
pub fn content_region(own: &Style, region: Region) -> Region
    requires near { IsNearPlace (corner region) }
    ensures { result ≡ content_region own.now region }
{
    region.shrink(own.gutter())
}
