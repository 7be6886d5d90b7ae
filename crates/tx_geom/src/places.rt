//! Places, sizes and regions, counted in cells.

ghost use Rattle.std.specs.Prelude.{◌≡◌, ◌↔◌, ◌≤◌, ◌<◌, ℤ, pos, ◌+ℤ◌, ◌-ℤ◌, ◌≤ℤ◌, ◌<ℤ◌, IsTrue};

use crate::choices::Axis;

/// A place, or a way from one place to another: `x` columns to the right and `y` rows down.
#[derive(Clone, Copy, Debug, Default, PartialEq, Eq, Hash)]
pub struct Offset {
    pub x: i64,
    pub y: i64,
}

/// A width in columns and a height in rows.
#[derive(Clone, Copy, Debug, Default, PartialEq, Eq, Hash)]
pub struct Size {
    pub width: u32,
    pub height: u32,
}

/// A rectangle of cells, whose top left cell is at `x` and `y`.
///
/// It holds the cells from column `x` up to, but not including, column `x + width`, and so for
/// its rows.
#[derive(Clone, Copy, Debug, Default, PartialEq, Eq, Hash)]
pub struct Region {
    pub x: i64,
    pub y: i64,
    pub width: u32,
    pub height: u32,
}

/// Columns and rows of room along the four sides of a region.
#[derive(Clone, Copy, Debug, Default, PartialEq, Eq, Hash)]
pub struct Spacing {
    pub top: u16,
    pub right: u16,
    pub bottom: u16,
    pub left: u16,
}

ghost use Rattle.tx_geom.specs.Along.{side, ahead_of, behind_of, room_along, less, region_of};
ghost use Rattle.tx_geom.specs.Region.{Holds, IsAmong, IsNear, IsNearPlace, corner, nothing_at, shrunk, moved, moved_place};

impl Size {
    /// The width along `Axis::Width`, and the height along `Axis::Height`.
    pub fn along(self, axis: Axis) -> u32
        ensures { result ≡ side axis self }
    {
        match axis {
            Axis::Width => self.width,
            Axis::Height => self.height,
        }
    }

    /// What is left of the size inside a spacing: each side is less by the two rooms along it, and
    /// at least 0.
    pub fn less(self, by: Spacing) -> Size
        ensures { result ≡ less self by }
    {
        Size {
            width: self.width.saturating_sub(by.along(Axis::Width)),
            height: self.height.saturating_sub(by.along(Axis::Height)),
        }
    }
}

impl Spacing {
    /// The room before what stands inside: on the left along `Axis::Width`, and at the top along
    /// `Axis::Height`.
    pub fn before(self, axis: Axis) -> u16
        ensures { result ≡ ahead_of axis self }
    {
        match axis {
            Axis::Width => self.left,
            Axis::Height => self.top,
        }
    }

    /// The room behind what stands inside: on the right along `Axis::Width`, and at the bottom along
    /// `Axis::Height`.
    pub fn behind(self, axis: Axis) -> u16
        ensures { result ≡ behind_of axis self }
    {
        match axis {
            Axis::Width => self.right,
            Axis::Height => self.bottom,
        }
    }

    /// The room before and the room behind, together.
    pub fn along(self, axis: Axis) -> u32
        ensures { result ≡ room_along axis self }
    {
        self.before(axis) as u32 + self.behind(axis) as u32
    }
}

impl Region {
    /// The region of a size whose top left cell is at a place.
    pub fn of(at: Offset, size: Size) -> Region
        ensures { result ≡ region_of at size }
    {
        Region {
            x: at.x,
            y: at.y,
            width: size.width,
            height: size.height,
        }
    }

    /// The width and the height.
    pub fn size(self) -> Size
        ensures size { result ≡ record { width = self.width; height = self.height } }
    {
        Size {
            width: self.width,
            height: self.height,
        }
    }

    /// The cells in both regions.
    ///
    /// Where there are none, the answer has size 0 by 0 at this region's place. Coordinates lie
    /// within plus and minus 2^61.
    pub fn intersect(self, other: Region) -> Region
        requires near { IsNearPlace (corner self) }
        requires other_near { IsNearPlace (corner other) }
        ensures cells { (p : Offset) → Holds result p ↔ (Holds self p × Holds other p) }
        ensures nothing { ((p : Offset) → Holds self p → ¬ Holds other p) → result ≡ nothing_at self }
    {
        let (x, width) = common(self.x, self.width, other.x, other.width);
        let (y, height) = common(self.y, self.height, other.y, other.height);
        if width == 0 || height == 0 {
            return Region {
                width: 0,
                height: 0,
                ..self
            };
        }
        Region {
            x,
            y,
            width,
            height,
        }
    }

    /// The region without the columns and rows along its sides.
    ///
    /// Its place moves by `left` and `top`, and each size is less by the two sides, and at least
    /// 0. Coordinates lie within plus and minus 2^61.
    pub fn shrink(self, by: Spacing) -> Region
        requires near { IsNearPlace (corner self) }
        ensures fields { result ≡ shrunk self by }
        ensures cells { (p : Offset)
            → Holds result p
            ↔ (Holds self p
            × ((self.x +ℤ pos by.left) ≤ℤ p.x)
            × ((p.x +ℤ pos by.right) <ℤ (self.x +ℤ pos self.width))
            × ((self.y +ℤ pos by.top) ≤ℤ p.y)
            × ((p.y +ℤ pos by.bottom) <ℤ (self.y +ℤ pos self.height))) }
    {
        Region {
            x: self.x + by.left as i64,
            y: self.y + by.top as i64,
            width: self.width.saturating_sub(by.along(Axis::Width)),
            height: self.height.saturating_sub(by.along(Axis::Height)),
        }
    }

    /// Whether the cell at a place is one of this region's. Coordinates lie within plus and minus
    /// 2^61.
    pub fn contains(self, at: Offset) -> bool
        requires near { IsNearPlace (corner self) }
        ensures { IsTrue result ↔ Holds self at }
    {
        is_among(self.x, self.width, at.x) && is_among(self.y, self.height, at.y)
    }

    /// The region moved by `by`. Coordinates lie within plus and minus 2^61.
    pub fn translate(self, by: Offset) -> Region
        requires near { IsNearPlace (corner self) }
        requires by_near { IsNearPlace by }
        ensures fields { result ≡ moved self by }
        ensures cells { (p : Offset) → Holds result (moved_place p by) ↔ Holds self p }
    {
        Region {
            x: self.x + by.x,
            y: self.y + by.y,
            ..self
        }
    }
}

// Whether `at` is one of the `count` numbers from `from` on.
fn is_among(from: i64, count: u32, at: i64) -> bool
    requires { IsNear from }
    ensures { IsTrue result ↔ IsAmong from count at }
{
    from <= at && at < from + count as i64
}

// The numbers that are among the `width` ones from `from` on and among the `other_width` ones from
// `other_from` on: the first of them, and how many there are.
fn common(from: i64, width: u32, other_from: i64, other_width: u32) -> (i64, u32)
    requires near { IsNear from }
    requires other_near { IsNear other_from }
    ensures { (z : ℤ) → IsAmong result.0 result.1 z ↔ (IsAmong from width z × IsAmong other_from other_width z) }
{
    let first = from.max(other_from);
    let end = (from + width as i64).min(other_from + other_width as i64);
    if end <= first {
        return (first, 0);
    }
    (first, (end - first) as u32)
}
