//! Scrolls that are kept in range.

ghost use Rattle.std.specs.Prelude.{◌≡◌};
ghost use Rattle.tx_scroll.specs.Scroll.{kept_along, kept_scroll};

use tx_geom::{Overflow, Size};

// A scroll along one axis, by how far the children go over there.
fn kept_along(overflow: Overflow, over: u32, scroll: u32) -> u32
    ensures { result ≡ kept_along overflow over scroll }
{
    match overflow {
        Overflow::Auto | Overflow::Scroll => scroll.min(over),
        Overflow::Hidden => 0,
    }
}

/// A scroll in columns and rows, kept in range: along each axis at most as far as the children go
/// over, and 0 where that is hidden.
pub fn clamp_scroll(scroll: (u32, u32), over: Size, x: Overflow, y: Overflow) -> (u32, u32)
    ensures { result ≡ kept_scroll scroll over x y }
{
    (
        kept_along(x, over.width, scroll.0),
        kept_along(y, over.height, scroll.1),
    )
}
