//! The size of one box in one direction.

ghost use Rattle.std.specs.Prelude.{◌≡◌, ◌+◌, ◌<◌, ◌≤◌, ℤ, pos, ◌≤ℤ◌, IfSome, Some, None, MatchResult};
ghost use Rattle.tx_frac.specs.Ratio.{IsBounded};

use crate::items::{Basis, Item, LayoutFault};
use crate::parts::Limits;
use tx_frac::{Frac, Scalar, Unit};
use tx_geom::{Axis, BoxSizing, Size};

/// What the sizes of one box are taken of.
#[derive(Clone, Copy)]
pub struct Bases {
    pub axis: Axis,
    pub own: Size,
    pub screen: Size,
}

ghost use Rattle.tx_box.specs.Item.{IsSized, IsLimit, NotNegative};
ghost use Rattle.tx_box.specs.Sizes.{cells, hundredths, amount_in, with_gutter, outer, limit, limits_of, at_most, at_least, clamp, across, box_cells};
ghost use Rattle.tx_box.specs.Axis.{bases};
ghost use Rattle.tx_box.specs.Shape.{AreLimits, IsCellCount};

/// The size in cells of one box across the direction in which boxes follow each other, or of a box
/// that stands alone.
///
/// A size in `fr` is the whole base `own`. The answer is at most 65,535; a fraction of a cell is
/// dropped. It takes no memory, and is refused exactly where one of the fractions on the way is.
/// Numbers are at least 0, and the least and the greatest size have neither `fr` nor `auto`.
pub fn box_of(item: &Item, axis: Axis, basis: Basis, own: Size) -> Result<u32, LayoutFault>
    requires { IsSized item.now }
    ensures { MatchResult result
        (λ n. box_cells item.now (bases axis basis own) ≡ Some (pos n))
        (λ e. (e ≡ LayoutFault.Fraction axis) × (box_cells item.now (bases axis basis own) ≡ None)) }
{
    let bases = Bases {
        axis,
        own,
        screen: basis.screen,
    };
    match size_across(item, bases) {
        Some(size) => Ok(size.floor() as u32),
        None => Err(LayoutFault::Fraction { axis }),
    }
}

// The size of a box across, where `fr` stands for the whole base.
#[tactic(auto, unfolding(crate::specs::Sizes::across))]
fn size_across(item: &Item, bases: Bases) -> Option<Frac>
    requires { IsSized item.now }
    ensures exact { result ≡ across item.now bases }
    ensures count { IfSome result IsCellCount }
{
    let limits = item_limits(item, bases)?;
    let size = match item.size.unit {
        Unit::Fr => Frac::whole(bases.own.along(bases.axis) as i64),
        _ => outer_size(item.size, item, bases)?,
    };
    limits.clamp(size)
}

// So many hundredths of a base.
fn hundredths(value: Frac, base: u32) -> Option<Frac>
    requires { NotNegative value }
    ensures exact { result ≡ hundredths value base }
    ensures not_negative { IfSome result NotNegative }
{
    value.mul(Frac::whole(base as i64))?.div(Frac::whole(100))
}

// A number with its unit, in cells. The number of `fr` or `auto` is given as it is.
fn amount(scalar: Scalar, bases: Bases) -> Option<Frac>
    requires { NotNegative scalar.value }
    ensures exact { result ≡ amount_in scalar.unit scalar.value bases }
    ensures not_negative { IfSome result NotNegative }
{
    match scalar.unit {
        Unit::Cells | Unit::Fr | Unit::Auto => Some(scalar.value),
        Unit::Percent => hundredths(scalar.value, bases.own.along(bases.axis)),
        Unit::W => hundredths(scalar.value, bases.own.width),
        Unit::H => hundredths(scalar.value, bases.own.height),
        Unit::Vw => hundredths(scalar.value, bases.screen.width),
        Unit::Vh => hundredths(scalar.value, bases.screen.height),
    }
}

// A size with padding and border on top, where it is the size of the content.
fn with_gutter(size: Frac, sizing: BoxSizing, gutter: u32) -> Option<Frac>
    requires { NotNegative size }
    ensures exact { result ≡ with_gutter sizing gutter size }
    ensures not_negative { IfSome result NotNegative }
{
    match sizing {
        BoxSizing::BorderBox => Some(size),
        BoxSizing::ContentBox => size.add(Frac::whole(gutter as i64)),
    }
}

// A size of the box with its padding and border.
pub fn outer_size(scalar: Scalar, item: &Item, bases: Bases) -> Option<Frac>
    requires { NotNegative scalar.value }
    ensures exact { result ≡ outer scalar item.now bases }
    ensures not_negative { IfSome result NotNegative }
{
    match scalar.unit {
        Unit::Auto => Some(Frac::whole(item.auto as i64 + item.gutter as i64)),
        Unit::Fr => amount(scalar, bases),
        _ => with_gutter(amount(scalar, bases)?, item.sizing, item.gutter),
    }
}

// A limit in cells, where it is set.
fn item_limit(scalar: Option<Scalar>, item: &Item, bases: Bases) -> Option<Option<Frac>>
    requires { IfSome scalar IsLimit }
    ensures exact { result ≡ limit scalar item.now bases }
    ensures not_negative { IfSome result (λ l. IfSome l NotNegative) }
{
    match scalar {
        None => Some(None),
        Some(scalar) => Some(Some(outer_size(scalar, item, bases)?)),
    }
}

// The limits of a box in cells.
pub fn item_limits(item: &Item, bases: Bases) -> Option<Limits>
    requires { IsSized item.now }
    ensures exact { result ≡ limits_of item.now bases }
    ensures not_negative { IfSome result AreLimits }
{
    let least = item_limit(item.least, item, bases)?;
    let most = item_limit(item.most, item, bases)?;
    Some(Limits { least, most })
}

impl Limits {
    // The size, where the greatest size gives way to the least one, and both to 65,535.
    #[tactic(auto, unfolding(crate::specs::Sizes::clamp))]
    pub fn clamp(self, size: Frac) -> Option<Frac>
        requires limits { AreLimits self }
        requires not_negative { NotNegative size }
        ensures exact { result ≡ clamp self size }
        ensures count { IfSome result IsCellCount }
    {
        let size = at_most(self.most, size)?;
        let size = at_least(self.least, size)?;
        at_greatest(size)
    }
}

// The size, or a limit that is less.
fn at_most(limit: Option<Frac>, size: Frac) -> Option<Frac>
    requires limit { IfSome limit NotNegative }
    requires size { NotNegative size }
    ensures exact { result ≡ at_most limit size }
    ensures not_negative { IfSome result NotNegative }
{
    match limit {
        None => Some(size),
        Some(limit) => Some(if limit.less(size)? { limit } else { size }),
    }
}

// The size, or a limit that is greater.
fn at_least(limit: Option<Frac>, size: Frac) -> Option<Frac>
    requires limit { IfSome limit NotNegative }
    requires size { NotNegative size }
    ensures exact { result ≡ at_least limit size }
    ensures not_negative { IfSome result NotNegative }
{
    match limit {
        None => Some(size),
        Some(limit) => Some(if size.less(limit)? { limit } else { size }),
    }
}

// The size, or the greatest one.
fn at_greatest(size: Frac) -> Option<Frac>
    requires { NotNegative size }
    ensures exact { result ≡ at_most (Some (cells 65535)) size }
    ensures count { IfSome result IsCellCount }
{
    let greatest = Frac::whole(65_535);
    Some(if greatest.less(size)? { greatest } else { size })
}
