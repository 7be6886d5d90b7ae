//! One direction of a layout.

ghost use Rattle.std.specs.Prelude.{◌≡◌, ℕ, ◌+◌, ◌*◌, ◌^◌, ◌<◌, ◌≤◌, ℤ, pos, sum, length, drop, slice_index, All, IfOk, IfErr, IfSome, OnSome, MatchOption, Option, Some, None, [], ◌∷◌};
ghost use Rattle.std.specs.List.{zip};
ghost use Rattle.tx_box.specs.Item.{IsSized};
ghost use Rattle.tx_box.specs.Sizes.{cells};
ghost use Rattle.tx_box.specs.Shape.{AreNear, EndsBy, IsCellCount, IsPart, IsSettledPart, IsSpan, IsUpTo};
ghost use Rattle.tx_box.specs.Axis.{settled_sizes, sizes_of, placed, spans_from, axis_spans, IsCause};

use crate::items::{Basis, Item, LayoutFault, Span};
use crate::parts::Part;
use crate::rounds::{finish, parts_of, room_beside, settle};
use std::alloc::Global;
use tx_frac::Frac;
use tx_geom::{Axis, Size};

/// The spans in whole cells of items that follow each other in one direction of an area.
///
/// `gaps` has one gap more than there are items: the first stands before the first item, and
/// each other one after an item. `own` has for each item what its percentages are taken of. There
/// are at most 2^24 items, numbers are at least 0, and the least and the greatest sizes have
/// neither `fr` nor `auto`.
///
/// Items with a size of their own get it. What is then left of the area is given to the shares in
/// `fr`, where an item that its limits keep from its share gets the limit, and the others share
/// the rest. The ends of the spans are rounded down, and not the sizes, so that no cell is lost.
/// There is a span for each item, it has at most 65,535 cells, and none lies before 0 or past 2^58;
/// nor does one end later than so many items of 65,535 cells, each with the greatest of the gaps.
///
/// It is refused exactly where one of the fractions on the way is, and where there is no memory.
#[tactic(auto, unfolding(crate::specs::Axis::axis_sizes, crate::specs::Axis::axis_spans))]
pub fn resolve_axis(
    alloc: Global,
    items: &[Item],
    gaps: &[u32],
    axis: Axis,
    basis: Basis,
    own: &[Size],
) -> Result<Vec<Span>, LayoutFault>
    requires sized { All IsSized items.now }
    requires gaps { length gaps.now ≡ length items.now + 1 }
    requires own { length own.now ≡ length items.now }
    requires count { length items.now ≤ 2 ^ 24 }
    ensures spans { IfOk result (λ spans. axis_spans items.now gaps.now axis basis own.now ≡ Some spans.items) }
    ensures cells { IfOk result (λ spans. All IsSpan spans.items) }
    ensures count { IfOk result (λ spans. length spans.items ≡ length items.now) }
    ensures near { IfOk result (λ spans. AreNear gaps.now spans.items) }
    ensures refused { IfErr result (IsCause axis (axis_spans items.now gaps.now axis basis own.now ≡ None)) }
{
    let mut parts = parts_of(alloc, items, axis, basis, own)?;
    let total = basis.area.along(axis);
    match work_out(&mut parts, gaps, total) {
        None => Err(LayoutFault::Fraction { axis }),
        Some(()) => place(alloc, &parts, gaps, axis),
    }
}

// The sum of the gaps.
fn gap_sum(gaps: &[u32]) -> i64
    requires { length gaps.now ≤ 2 ^ 24 + 1 }
    ensures { result ≡ pos (sum gaps.now) }
{
    let mut total: i64 = 0;
    for gap in gaps {
        total += *gap as i64;
    }
    total
}

// Gives each part its size.
#[tactic(auto, unfolding(crate::specs::Axis::last_of, crate::specs::Axis::sizes_of))]
fn work_out(parts: &mut [Part], gaps: &[u32], total: u32) -> Option<()>
    requires parts { All IsPart parts.old }
    requires count { length gaps.now ≤ 2 ^ 24 + 1 }
    ensures exact { MatchOption result
        (sizes_of total gaps.now parts.old ≡ None)
        (λ _. sizes_of total gaps.now parts.old ≡ Some (settled_sizes parts.new)) }
    ensures settled { OnSome result (All IsSettledPart parts.new) }
{
    let start = Frac::whole(total as i64 - gap_sum(gaps));
    let room = room_beside(parts, start)?;
    let left = settle(parts, room)?;
    finish(parts, left)
}

// The spans of parts that have their sizes, after the first gap.
fn place(alloc: Global, parts: &[Part], gaps: &[u32], axis: Axis) -> Result<Vec<Span>, LayoutFault>
    requires settled { All IsSettledPart parts.now }
    requires gaps { length gaps.now ≡ length parts.now + 1 }
    requires count { length parts.now ≤ 2 ^ 24 }
    ensures spans { IfOk result
        (λ spans. spans_from (cells (slice_index gaps.now 0)) (zip (settled_sizes parts.now) (drop 1 gaps.now))
        ≡ Some spans.items) }
    ensures cells { IfOk result (λ spans. All IsSpan spans.items) }
    ensures count { IfOk result (λ spans. length spans.items ≡ length parts.now) }
    ensures near { IfOk result (λ spans. AreNear gaps.now spans.items) }
    ensures refused { IfErr result
        (IsCause axis (spans_from (cells (slice_index gaps.now 0)) (zip (settled_sizes parts.now) (drop 1 gaps.now)) ≡ None)) }
{
    let mut spans = Vec::with_capacity(alloc, parts.len())?;
    let mut from = Frac::whole(gaps[0] as i64);
    for (index, part) in parts.iter().enumerate() {
        let Some(placed) = place_one(from, settled(part), gaps[index + 1]) else {
            return Err(LayoutFault::Fraction { axis });
        };
        spans.push(placed.0)?;
        from = placed.1;
    }
    Ok(spans)
}

// The size of a part that has one.
fn settled(part: &Part) -> Frac
    requires { IsSettledPart part.now }
    ensures size { settled_sizes (part.now ∷ []) ≡ result ∷ [] }
    ensures count { IsCellCount result }
{
    match part {
        Part::Settled(size) => *size,
        Part::Growing { .. } => unreachable!(),
    }
}

// The span of a size from a place on, and the place after the gap that follows it.
#[tactic(auto, unfolding(crate::specs::Axis::placed))]
fn place_one(from: Frac, size: Frac, gap: u32) -> Option<(Span, Frac)>
    requires from { IsUpTo (2 ^ 57) from }
    requires size { IsCellCount size }
    ensures exact { result ≡ placed from size gap }
    ensures span { IfSome result (λ x. IsSpan x.0) }
    ensures near { IfSome result (λ x. (n : ℕ) → IsUpTo n from → EndsBy (n + 65535) x.0) }
    ensures next { IfSome result (λ x. (n : ℕ) → IsUpTo n from → IsUpTo (n + 65535 + gap) x.1) }
{
    let end = from.add(size)?;
    let next = end.add(Frac::whole(gap as i64))?;
    let span = Span {
        from: from.floor() as i64,
        to: end.floor() as i64,
    };
    Some((span, next))
}
