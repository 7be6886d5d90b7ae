//! The walk over the rows from the Screen down.

ghost use Rattle.std.specs.Prelude.{◌≡◌, ◌≤◌, ◌<◌, ◌+◌, ◌*◌, ◌^◌, [], ◌∷◌, length, drop, get_or, suc, unwrap_or, All, IfOk, IfSome};
ghost use Rattle.tx_geom.specs.Along.{region_of};
ghost use Rattle.tx_geom.specs.Region.{corner};
ghost use Rattle.tx_layout.specs.Arrangement.{AreWithinReach, IsWithinReach};
ghost use Rattle.tx_look.specs.Content.{content_region};
ghost use Rattle.tx_map.specs.Faults.{Adds, fault_at};
ghost use Rattle.tx_map.specs.LayoutMap.{child_place};
ghost use Rattle.tx_map.specs.Reach.{IsPlaceWithin, IsReached, IsHandedDown, reach};
ghost use Rattle.tx_map.specs.Subtrees.{subtree_entries, setting, place_at, seen_container, child_entries, children_entries, regions_taken};
ghost use Rattle.tx_map.specs.Ticks.{ArrangedAtMost, container_number, containers_below};
ghost use Rattle.tx_node_map.specs.Held.{held, nothing};
ghost use Rattle.tx_scroll.specs.Clip.{clipped};
ghost use Rattle.tx_scroll.specs.Scroll.{kept_scroll};
ghost use Rattle.tx_sizes.specs.Counts.{counts};
ghost use Rattle.tx_sizes.specs.Forest.{depth};
ghost use Rattle.tx_value.specs.StyleReads.{gutter, overflow_x, overflow_y};

use crate::barring::bars_of;
use crate::entry::Entry;
use crate::fault::ComposeFault;
use crate::places::{Frame, child_key, child_region, corner_of, docked_number, region_at};
use crate::scrolls::Scrolls;
use std::alloc::Global;
use tx_geom::{Region, Size, Spacing};
use tx_io::{Ledger, Steps};
use tx_layout::LayoutFault;
use tx_look::{content_region, layer_number};
use tx_scroll::{Barred, clamp_scroll, clip};
use tx_sizes::StyledRow;
use tx_text::{Items, NoMemory};
use tx_tree::NodeId;
use tx_value::Style;

// The fault of a container.
fn fault_at(node: NodeId, fault: LayoutFault) -> ComposeFault
    ensures { result ≡ fault_at node fault }
{
    match fault {
        LayoutFault::Fraction { axis } => ComposeFault::Fraction { node, axis },
        LayoutFault::NoMemory => ComposeFault::NoMemory,
    }
}

// How far a row is scrolled, kept within what its children go over.
fn scroll_in(scrolls: &Scrolls, node: NodeId, own: &Style, over: Size) -> (u32, u32)
    ensures { result ≡ kept_scroll (unwrap_or (held scrolls.now node.0) (0, 0)) over (overflow_x own.now) (overflow_y own.now) }
{
    let scroll = match scrolls.get(node) {
        Some(scroll) => *scroll,
        None => (0, 0),
    };
    clamp_scroll(scroll, over, own.overflow_x(), own.overflow_y())
}

// The padding and the border of a row.
fn gutter_of(own: &Style) -> Spacing
    ensures exact { result ≡ gutter own.now }
    ensures left { result.left < 2 ^ 16 }
    ensures top { result.top < 2 ^ 16 }
{
    let gutter = own.gutter();
    let _left = gutter.left;
    let _top = gutter.top;
    gutter
}

// The content of a row that stands within reach of its depth.
fn content_of(own: &StyledRow<'_>, region: Region) -> Region
    requires deep { depth own.now ≤ 63 }
    requires near { IsPlaceWithin (reach (depth own.now)) (corner region) }
    ensures exact { result ≡ content_region own.now.style region }
    ensures near { IsPlaceWithin (reach (depth own.now) + 2 ^ 16) (corner result) }
{
    let gutter = gutter_of(own.style());
    let _left = gutter.left;
    let _top = gutter.top;
    content_region(own.style(), region)
}

// What a row hands down, whose viewport begins where its content does.
fn frame_of(
    own: &StyledRow<'_>,
    content: Region,
    viewport: Size,
    by: Region,
    scroll: (u32, u32),
) -> Frame
    requires deep { depth own.now ≤ 63 }
    requires near { IsPlaceWithin (reach (depth own.now) + 2 ^ 16) (corner content) }
    requires by_near { IsPlaceWithin (reach (depth own.now)) (corner by) }
    ensures exact { result ≡ record {
      depth = depth own.now;
      viewport = region_of (corner content) viewport;
      clip = clipped (region_of (corner content) viewport) by;
      scroll = scroll;
    } }
    ensures near { IsHandedDown result }
{
    let viewport = Region::of(corner_of(content), viewport);
    Frame {
        depth: own.depth(),
        viewport,
        clip: clip(viewport, by),
        scroll,
    }
}

// The entry of a row with these bars.
fn entry_of(
    alloc: Global,
    node: NodeId,
    region: Region,
    clip: Region,
    key: &[u32],
    bars: &Barred,
    scroll: (u32, u32),
) -> Result<Entry, NoMemory>
    ensures { IfOk result (λ entry. entry ≡ record {
      node = node;
      region = region;
      clip = clip;
      viewport = bars.now.viewport;
      across = bars.now.across;
      down = bars.now.down;
      over = bars.now.arrangement.over;
      scroll = scroll;
      key = key.now;
    }) }
{
    let key = Vec::from_slice(alloc, key)?;
    Ok(Entry {
        node,
        region,
        clip,
        viewport: bars.viewport,
        across: bars.across,
        down: bars.down,
        over: bars.arrangement.over,
        scroll,
        key: Items::of(key),
    })
}

// The row at a place.
fn row_at<'a, 'b>(rows: &'b [StyledRow<'a>], at: usize) -> &'b StyledRow<'a>
    requires within { at < length rows.now }
    requires deep { All (λ row. depth row ≤ 63) rows.now }
    ensures is { result.now ≡ get_or rows.now at result.now }
    ensures deep { depth result.now ≤ 63 }
{
    &rows[at]
}

// The rows after the one at a place, and their counts.
fn behind_at<'a, 'b, 'c>(
    rows: &'b [StyledRow<'a>],
    below: &'c [u32],
    at: usize,
) -> (&'b [StyledRow<'a>], &'c [u32])
    requires within { at < length rows.now }
    requires few { length rows.now ≤ 65535 }
    requires below { below.now ≡ counts rows.now }
    requires deep { All (λ row. depth row ≤ 63) rows.now }
    ensures rows { result.0.now ≡ drop (suc at) rows.now }
    ensures counts { result.1.now ≡ counts result.0.now }
    ensures deep { All (λ row. depth row ≤ 63) result.0.now }
    ensures few { length result.0.now ≤ 65534 }
    ensures shorter { length result.0.now < length rows.now }
{
    (rows.split_at(at + 1).1, below.split_at(at + 1).1)
}

// How many of the regions are a child's own.
fn regions_taken(own: &StyledRow<'_>) -> usize
    ensures { result ≡ regions_taken own.now }
{
    if own.is_taking_part() { 1 } else { 0 }
}

/// Adds the entry of a row at its place, and those of the rows below it, in the order of the
/// document. The rows are those after it, each with the number of the rows below it.
#[cycle(walking)]
pub fn push_row<L: Ledger>(
    alloc: Global,
    own: &StyledRow<'_>,
    behind: &[StyledRow<'_>],
    below: &[u32],
    region: Region,
    clip: Region,
    key: &[u32],
    scrolls: &Scrolls,
    screen: Size,
    found: &mut Vec<Entry>,
    steps: &mut Steps<L>,
) -> Result<(), ComposeFault>
    requires below { below.now ≡ counts behind.now }
    requires few { length behind.now ≤ 65535 }
    requires deep { depth own.now ≤ 63 }
    requires all_deep { All (λ row. depth row ≤ 63) behind.now }
    requires near { IsReached (depth own.now) region clip }
    ensures exact { Adds found.old.items found.new.items result (subtree_entries (setting nothing (held scrolls.now) screen) own.now behind.now (place_at region clip key.now)) }
    ensures ticks { ArrangedAtMost L.ticked (4 * (container_number own.now.row + containers_below (depth own.now) behind.now)) steps.old.ledger steps.new.ledger }
{
    let row = own.row();
    let style = own.style();
    let content = content_of(own, region);
    let bars = match bars_of(alloc, own, behind, below, screen, content.size(), steps) {
        Ok(bars) => bars,
        Err(fault) => return Err(fault_at(row.node, fault)),
    };
    let scroll = scroll_in(scrolls, row.node, style, bars.arrangement.over);
    let Ok(entry) = entry_of(alloc, row.node, region, clip, key, &bars, scroll) else {
        return Err(ComposeFault::NoMemory);
    };
    let Ok(()) = found.push(entry) else {
        return Err(ComposeFault::NoMemory);
    };
    let frame = frame_of(own, content, bars.viewport, clip, scroll);
    push_children(
        alloc,
        style,
        frame,
        key,
        behind,
        below,
        bars.arrangement.placed.as_slice(),
        scrolls,
        screen,
        found,
        steps,
    )
}

// Adds the entries of the children of a container, and of the rows below them. The rows are those
// after the container, and the regions those of the children that take part.
#[cycle(walking)]
fn push_children<L: Ledger>(
    alloc: Global,
    container: &Style,
    frame: Frame,
    key: &[u32],
    rows: &[StyledRow<'_>],
    below: &[u32],
    regions: &[Option<Region>],
    scrolls: &Scrolls,
    screen: Size,
    found: &mut Vec<Entry>,
    steps: &mut Steps<L>,
) -> Result<(), ComposeFault>
    requires below { below.now ≡ counts rows.now }
    requires few { length rows.now ≤ 65535 }
    requires deep { All (λ row. depth row ≤ 63) rows.now }
    requires near { IsHandedDown frame }
    requires regions { AreWithinReach regions.now }
    ensures exact { Adds found.old.items found.new.items result
        (children_entries (setting nothing (held scrolls.now) screen) frame.depth rows.now (seen_container container.now frame key.now) regions.now) }
    ensures ticks { ArrangedAtMost L.ticked (4 * containers_below frame.depth rows.now) steps.old.ledger steps.new.ledger }
{
    let mut at: usize = 0;
    let mut used: usize = 0;
    let mut place: u32 = 0;
    while at < rows.len() {
        let row = row_at(rows, at);
        if row.depth() <= frame.depth {
            return Ok(());
        }
        let next = at + (1 + below[at] as usize);
        let (behind, counts) = behind_at(rows, below, at);
        let region = region_at(regions, used);
        match push_child(
            alloc, container, frame, key, row, behind, counts, place, region, scrolls, screen,
            found, steps,
        ) {
            Ok(()) => {}
            Err(fault) => return Err(fault),
        }
        used += regions_taken(row);
        place += 1;
        at = next;
    }
    Ok(())
}

// Adds the entries of one child, where it takes part and has a region, and of the rows below it.
#[cycle(walking)]
fn push_child<L: Ledger>(
    alloc: Global,
    container: &Style,
    frame: Frame,
    key: &[u32],
    own: &StyledRow<'_>,
    behind: &[StyledRow<'_>],
    below: &[u32],
    place: u32,
    region: Option<Region>,
    scrolls: &Scrolls,
    screen: Size,
    found: &mut Vec<Entry>,
    steps: &mut Steps<L>,
) -> Result<(), ComposeFault>
    requires below { below.now ≡ counts behind.now }
    requires few { length behind.now ≤ 65534 }
    requires deeper { frame.depth < depth own.now }
    requires deep { depth own.now ≤ 63 }
    requires all_deep { All (λ row. depth row ≤ 63) behind.now }
    requires near { IsHandedDown frame }
    requires region { IfSome region IsWithinReach }
    ensures exact { Adds found.old.items found.new.items result
        (child_entries (setting nothing (held scrolls.now) screen) own.now behind.now (seen_container container.now frame key.now) place (region ∷ [])) }
    ensures ticks { ArrangedAtMost L.ticked (4 * (container_number own.now.row + containers_below (depth own.now) behind.now)) steps.old.ledger steps.new.ledger }
{
    if !own.is_taking_part() {
        return Ok(());
    }
    let Some(region) = region else {
        return Ok(());
    };
    let layer = layer_number(container, own.style());
    let docked = docked_number(own.style().dock());
    let Ok(key) = child_key(alloc, key, layer, docked, place) else {
        return Err(ComposeFault::NoMemory);
    };
    push_row(
        alloc,
        own,
        behind,
        below,
        child_region(frame, own, region),
        frame.clip,
        key.as_slice(),
        scrolls,
        screen,
        found,
        steps,
    )
}
