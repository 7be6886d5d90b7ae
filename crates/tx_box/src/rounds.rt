//! The rounds in which the parts of an axis get their sizes.

ghost use Rattle.std.specs.Prelude.{◌≡◌, ◌+◌, ◌<◌, ◌≤◌, length, All, IfOk, IfErr, IfSome, OnSome, MatchOption, Option, Some, None, IsTrue, [], ◌∷◌};
ghost use Rattle.tx_box.specs.Item.{IsSized, NotNegative};
ghost use Rattle.tx_frac.specs.Ratio.{mul};
ghost use Rattle.tx_box.specs.Sizes.{cells};
ghost use Rattle.tx_box.specs.Axis.{part_in, axis_parts, IsCause, settled_size, share_of, settled_sizes, shares, growing, less_each, above_zero, unit_of, total_from, part_round, round, next_round, last_round, wish, final_size, final_sizes};
ghost use Rattle.tx_box.specs.Shape.{AreLimits, IsCellCount, IsPart, IsSettledPart};

use crate::items::{Basis, Item, LayoutFault};
use crate::parts::{Limits, Part};
use crate::sizes::{Bases, item_limits, outer_size};
use std::alloc::Global;
use tx_frac::{Frac, Unit};
use tx_geom::{Axis, Size};

// The part of an item with these limits: its own size, or its share.
fn limited_part(item: &Item, bases: Bases, limits: Limits) -> Option<Part>
    requires sized { IsSized item.now }
    requires limits { AreLimits limits }
    ensures exact { result ≡ part_in item.now.size.unit item.now bases limits }
    ensures part { IfSome result IsPart }
{
    match item.size.unit {
        Unit::Fr => Some(Part::Growing {
            share: item.size.value,
            limits,
        }),
        _ => Some(Part::Settled(limits.clamp(outer_size(item.size, item, bases)?)?)),
    }
}

/// The parts of the items.
#[tactic(auto, unfolding(crate::specs::Axis::axis_parts, crate::specs::Axis::part_of))]
pub fn parts_of(
    alloc: Global,
    items: &[Item],
    axis: Axis,
    basis: Basis,
    own: &[Size],
) -> Result<Vec<Part>, LayoutFault>
    requires sized { All IsSized items.now }
    requires own { length own.now ≡ length items.now }
    ensures parts { IfOk result (λ parts. axis_parts items.now axis basis own.now ≡ Some parts.items) }
    ensures shape { IfOk result (λ parts. All IsPart parts.items) }
    ensures count { IfOk result (λ parts. length parts.items ≡ length items.now) }
    ensures refused { IfErr result (IsCause axis (axis_parts items.now axis basis own.now ≡ None)) }
{
    let mut parts = Vec::with_capacity(alloc, items.len())?;
    for (index, item) in items.iter().enumerate() {
        let bases = Bases {
            axis,
            own: own[index],
            screen: basis.screen,
        };
        let Some(limits) = item_limits(item, bases) else {
            return Err(LayoutFault::Fraction { axis });
        };
        let Some(part) = limited_part(item, bases, limits) else {
            return Err(LayoutFault::Fraction { axis });
        };
        parts.push(part)?;
    }
    Ok(parts)
}

/// How many parts have no size yet.
fn count_growing(parts: &[Part]) -> usize
    ensures { result ≡ growing parts.now }
{
    let mut count = 0;
    for part in parts {
        count += ones(*part);
    }
    count
}

// 1 for a part with no size yet, and 0 for any other.
fn ones(part: Part) -> usize
    ensures value { result ≡ growing (part ∷ []) }
    ensures bound { result ≤ 1 }
{
    match part {
        Part::Settled(_) => 0,
        Part::Growing { .. } => 1,
    }
}

/// What the settled sizes leave of a room.
pub fn room_beside(parts: &[Part], room: Frac) -> Option<Frac>
    ensures { result ≡ less_each room (settled_sizes parts.now) }
{
    let mut left = room;
    for part in parts {
        left = room_beside_part(*part, left)?;
    }
    Some(left)
}

// What the size of one part leaves, where it has one.
fn room_beside_part(part: Part, room: Frac) -> Option<Frac>
    ensures { result ≡ less_each room (settled_sizes (part ∷ [])) }
{
    match part {
        Part::Settled(size) => room.sub(size),
        Part::Growing { .. } => Some(room),
    }
}

// The sum of the shares.
fn share_sum(parts: &[Part]) -> Option<Frac>
    requires { All IsPart parts.now }
    ensures exact { result ≡ total_from (cells 0) (shares parts.now) }
    ensures not_negative { IfSome result NotNegative }
{
    let mut sum = Frac::whole(0);
    for part in parts {
        sum = plus_share(sum, *part)?;
    }
    Some(sum)
}

// A sum with the share of one part more, where it has one.
fn plus_share(sum: Frac, part: Part) -> Option<Frac>
    requires part { IsPart part }
    requires sum { NotNegative sum }
    ensures exact { result ≡ total_from sum (shares (part ∷ [])) }
    ensures not_negative { IfSome result NotNegative }
{
    match part {
        Part::Settled(_) => Some(sum),
        Part::Growing { share, .. } => sum.add(share),
    }
}

// A room, or 0 where it is below 0.
fn room_above_zero(room: Frac) -> Frac
    ensures exact { result ≡ above_zero room }
    ensures not_negative { NotNegative result }
{
    if room.floor() < 0 {
        Frac::whole(0)
    } else {
        room
    }
}

// What one share gets of a room, where there are shares greater than 0.
#[tactic(auto, unfolding(crate::specs::Axis::unit_of))]
fn unit(parts: &[Part], room: Frac) -> Option<Option<Frac>>
    requires { All IsPart parts.now }
    ensures exact { result ≡ unit_of room parts.now }
    ensures not_negative { IfSome result (λ u. IfSome u NotNegative) }
{
    let sum = share_sum(parts)?;
    if sum == Frac::whole(0) {
        return Some(None);
    }
    Some(Some(room_above_zero(room).div(sum)?))
}

// One part in a round, and what it leaves of the room.
#[tactic(auto, unfolding(crate::specs::Axis::part_round))]
fn part_after_round(part: &Part, unit: Frac, room: Frac) -> Option<(Part, Frac)>
    requires part { IsPart part.now }
    requires not_negative { NotNegative unit }
    ensures exact { result ≡ part_round unit room part.now }
    ensures part { IfSome result (λ x. IsPart x.0) }
{
    match part {
        Part::Settled(_) => Some((*part, room)),
        Part::Growing { share, limits } => {
            let wish = share_in_units(*share, unit)?;
            let size = limits.clamp(wish)?;
            if size == wish {
                Some((*part, room))
            } else {
                let left = room.sub(size)?;
                Some((Part::Settled(size), left))
            }
        }
    }
}

// A round: settles each part that its limits keep from its share, and gives what is left.
fn play_round(parts: &mut [Part], unit: Frac, room: Frac) -> Option<Frac>
    requires parts { All IsPart parts.old }
    requires not_negative { NotNegative unit }
    ensures exact { MatchOption result
        (round unit room parts.old ≡ None)
        (λ left. round unit room parts.old ≡ Some (left, parts.new)) }
    ensures parts { OnSome result (All IsPart parts.new) }
{
    let mut left = room;
    for part in parts.iter_mut() {
        let (after, rest) = part_after_round(part, unit, left)?;
        *part = after;
        left = rest;
    }
    Some(left)
}

// The round that follows.
#[tactic(auto, unfolding(crate::specs::Axis::next_round))]
fn follow(parts: &mut [Part], room: Frac) -> Option<Frac>
    requires { All IsPart parts.old }
    ensures exact { MatchOption result
        (next_round room parts.old ≡ None)
        (λ left. next_round room parts.old ≡ Some (left, parts.new)) }
    ensures parts { OnSome result (All IsPart parts.new) }
{
    let left = room_above_zero(room);
    match unit(parts, room)? {
        None => Some(left),
        Some(unit) => play_round(parts, unit, left),
    }
}

/// Plays rounds until one settles no further part, and gives what is left in that last one.
pub fn settle(parts: &mut [Part], room: Frac) -> Option<Frac>
    requires { All IsPart parts.old }
    ensures exact { MatchOption result
        (last_round (growing parts.old) room parts.old ≡ None)
        (λ left. last_round (growing parts.old) room parts.old ≡ Some (left, parts.new)) }
    ensures parts { OnSome result (All IsPart parts.new) }
{
    let mut left = room;
    let mut count = count_growing(parts);
    while count > 0 {
        let rest = follow(parts, left)?;
        let still = count_growing(parts);
        if still == count {
            break;
        }
        left = rest;
        count = still;
    }
    Some(left)
}

// What a share comes to in units: 0 where there is no unit.
fn wished(share: Frac, unit: Option<Frac>) -> Option<Frac>
    requires share { NotNegative share }
    requires unit { IfSome unit NotNegative }
    ensures exact { result ≡ wish unit share }
    ensures not_negative { IfSome result NotNegative }
{
    match unit {
        None => Some(Frac::whole(0)),
        Some(unit) => share_in_units(share, unit),
    }
}

// So many units.
fn share_in_units(share: Frac, unit: Frac) -> Option<Frac>
    requires share { NotNegative share }
    requires unit { NotNegative unit }
    ensures exact { result ≡ mul share unit }
    ensures not_negative { IfSome result NotNegative }
{
    share.mul(unit)
}

// The size of a part in the last round.
fn last_size(part: &Part, unit: Option<Frac>) -> Option<Frac>
    requires part { IsPart part.now }
    requires unit { IfSome unit NotNegative }
    ensures exact { result ≡ final_size unit part.now }
    ensures count { IfSome result IsCellCount }
{
    match part {
        Part::Settled(size) => Some(*size),
        Part::Growing { share, limits } => limits.clamp(wished(*share, unit)?),
    }
}

/// Gives each part its size in the last round.
#[tactic(auto, unfolding(crate::specs::Axis::final_sizes))]
pub fn finish(parts: &mut [Part], room: Frac) -> Option<()>
    requires { All IsPart parts.old }
    ensures exact { MatchOption result
        (final_sizes room parts.old ≡ None)
        (λ _. final_sizes room parts.old ≡ Some (settled_sizes parts.new)) }
    ensures settled { OnSome result (All IsSettledPart parts.new) }
{
    let unit = unit(parts, room)?;
    for part in parts.iter_mut() {
        *part = Part::Settled(last_size(part, unit)?);
    }
    Some(())
}
