//! The tracks of a grid.

ghost use Rattle.std.specs.Prelude.{◌≡◌, ◌+◌, ◌-◌, ◌<◌, ◌≤◌, ◌^◌, pos, ◌+ℤ◌, ◌-ℤ◌, ◌≤ℤ◌, length, map, All, IfOk, Ok};
ghost use Rattle.tx_read.specs.Answer.{Gives, or_refused};
ghost use Rattle.tx_box.specs.Axis.{axis_spans};
ghost use Rattle.tx_box.specs.Item.{IsSized, NotNegative};
ghost use Rattle.tx_box.specs.Laws.{HasFractions};
ghost use Rattle.tx_layout.specs.Ask.{told};
ghost use Rattle.tx_layout.specs.Style.{IsTrack};
ghost use Rattle.tx_layout.specs.Children.{IsGap};
ghost use Rattle.tx_layout.specs.Sides.{count_of};
ghost use Rattle.tx_layout.specs.Grid.{one_fr, track_at, track_item, track_items, track_gap, track_gaps, track_spans, tracks_end, side_over, IsFrame, AreTracks};

use crate::children::Side;
use crate::sides::near_spans;
use std::alloc::Global;
use tx_box::{Basis, Item, LayoutFault, Span};
use tx_frac::{Frac, Scalar, Unit};
use tx_geom::{Axis, BoxSizing, Size};

// `1fr`.
fn one_fr() -> Scalar
    ensures exact { result ≡ one_fr }
    ensures not_negative { NotNegative result.value }
{
    Scalar {
        value: Frac::whole(1),
        unit: Unit::Fr,
    }
}

// The track at a place, where the list is repeated.
fn track_at(tracks: &[Scalar], place: u32) -> Scalar
    requires { All IsTrack tracks.now }
    ensures exact { result ≡ track_at tracks.now place }
    ensures not_negative { NotNegative result.value }
{
    if tracks.is_empty() {
        return one_fr();
    }
    tracks[place as usize % tracks.len()]
}

// A track as a box.
fn track_item(track: Scalar) -> Item
    requires { NotNegative track.value }
    ensures exact { result ≡ track_item track }
    ensures sized { IsSized result }
    ensures fractions { HasFractions result }
{
    let whole = track.value.floor();
    prove!(whole <= i128::MAX);
    Item {
        size: track,
        least: None,
        most: None,
        gutter: 0,
        sizing: BoxSizing::BorderBox,
        margin: 0,
        auto: 0,
    }
}

// So many tracks as boxes.
fn track_items(alloc: Global, tracks: &[Scalar], count: u32) -> Result<Vec<Item>, LayoutFault>
    requires { All IsTrack tracks.now }
    ensures exact { Gives (λ v. v.items) told result (Ok (track_items tracks.now count)) }
    ensures sized { IfOk result (λ v. All IsSized v.items) }
    ensures fractions { IfOk result (λ v. All HasFractions v.items) }
    ensures count { IfOk result (λ v. length v.items ≡ count) }
{
    let _limit: Option<Scalar> = None;
    let mut items = Vec::with_capacity(alloc, count as usize)?;
    for place in 0..count {
        items.push(track_item(track_at(tracks, place)))?;
    }
    Ok(items)
}

// The gap before the track at a place.
fn track_gap(gutter: u32, count: u32, place: u32) -> u32
    requires { gutter ≤ 9999 }
    ensures exact { result ≡ track_gap gutter count place }
    ensures narrow { IsGap result }
{
    if place == 0 || place == count {
        0
    } else {
        gutter
    }
}

// The gaps of so many tracks.
fn track_gaps(alloc: Global, gutter: u32, count: u32) -> Result<Vec<u32>, LayoutFault>
    requires count { count ≤ 2 ^ 24 }
    requires gutter { gutter ≤ 9999 }
    ensures exact { Gives (λ v. v.items) told result (Ok (track_gaps gutter count)) }
    ensures count { IfOk result (λ v. length v.items ≡ count + 1) }
    ensures narrow { IfOk result (λ v. All IsGap v.items) }
{
    let mut gaps = Vec::with_capacity(alloc, count as usize + 1)?;
    for place in 0..count + 1 {
        gaps.push(track_gap(gutter, count, place))?;
    }
    Ok(gaps)
}

// The cells of tracks as boxes, with gutters between them.
fn tracks_laid(
    alloc: Global,
    items: &[Item],
    gaps: &[u32],
    axis: Axis,
    basis: Basis,
    own: &[Size],
    gutter: u32,
) -> Result<Vec<Span>, LayoutFault>
    requires sized { All IsSized items.now }
    requires fractions { All HasFractions items.now }
    requires gaps { gaps.now ≡ track_gaps gutter (length items.now) }
    requires gap_count { length gaps.now ≡ length items.now + 1 }
    requires narrow { All IsGap gaps.now }
    requires own { length own.now ≡ length items.now }
    requires count { length items.now ≤ 2 ^ 24 }
    requires gutter { gutter ≤ 9999 }
    ensures exact { Gives (λ v. v.items) told result (or_refused axis (axis_spans items.now gaps.now axis basis own.now)) }
    ensures tracks { IfOk result (λ v. AreTracks v.items) }
    ensures count { IfOk result (λ v. length v.items ≡ length items.now) }
{
    tx_box::laws::spans_follow();
    near_spans(alloc, items, gaps, axis, basis, own)
}

/// The cells of so many tracks in an area.
#[tactic(auto, unfolding(crate::specs::Grid::track_spans))]
pub fn track_spans(
    alloc: Global,
    axis: Axis,
    gutter: u32,
    tracks: &[Scalar],
    count: u32,
    basis: Basis,
) -> Result<Vec<Span>, LayoutFault>
    requires tracks { All IsTrack tracks.now }
    requires count { count ≤ 2 ^ 24 }
    requires gutter { gutter ≤ 9999 }
    ensures exact { Gives (λ v. v.items) told result (track_spans axis gutter tracks.now count basis) }
    ensures tracks { IfOk result (λ v. AreTracks v.items) }
    ensures count { IfOk result (λ v. length v.items ≡ count) }
{
    let items = track_items(alloc, tracks, count)?;
    let gaps = track_gaps(alloc, gutter, count)?;
    let own = vec![in alloc; basis.area; count as usize]?;
    tracks_laid(alloc, &items, &gaps, axis, basis, &own, gutter)
}

/// Where the last of the tracks ends.
pub fn tracks_end(spans: &[Span]) -> u64
    requires { AreTracks spans.now }
    ensures exact { result ≡ tracks_end spans.now }
    ensures bound { result < 2 ^ 42 }
{
    let mut end: u64 = 0;
    for span in spans {
        end = span.to as u64;
    }
    end
}

// The cells from one track to the end of another.
fn side_between(first: Span, last: Span) -> Side
    requires low { pos 0 ≤ℤ first.from }
    requires far { first.from ≤ℤ pos (2 ^ 41) }
    requires forward { first.from ≤ℤ last.to }
    requires near { last.to ≤ℤ (first.from +ℤ pos 7553400) }
    ensures exact { result ≡ record { from = count_of first.from; size = count_of (last.to -ℤ first.from) } }
    ensures frame { IsFrame result }
{
    Side {
        from: first.from as u64,
        size: (last.to - first.from) as u32,
    }
}

/// The cells of so many tracks from one on.
#[tactic(auto, unfolding(crate::specs::Grid::side_over))]
pub fn side_over(spans: &[Span], first: u32, count: u32) -> Side
    requires tracks { AreTracks spans.now }
    requires some { 1 ≤ count }
    requires few { count ≤ 100 }
    requires within { first + count ≤ length spans.now }
    ensures exact { result ≡ side_over spans.now first count }
    ensures frame { IsFrame result }
{
    let last = first as usize + count as usize - 1;
    side_between(spans[first as usize], spans[last])
}
