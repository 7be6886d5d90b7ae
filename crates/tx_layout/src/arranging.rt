//! The arrangement of the children of one container.

ghost use Rattle.std.specs.Prelude.{◌≡◌, ◌+◌, ◌-◌, ◌<◌, ◌≤◌, ◌^◌, ℕ, ℤ, pos, neg_ℤ, ◌+ℤ◌, ◌≤ℤ◌, length, All, IfOk, IfErr, Option, None, List, [], ◌∷◌, ◌++◌};
ghost use Rattle.std.specs.List.{FoldsTo};
ghost use Rattle.tx_read.specs.Answer.{Gives};
ghost use Rattle.tx_io.specs.declared.steps.Tick.TheVariants.{Arranged};
ghost use Rattle.tx_layout.specs.Ask.{told, Means};
ghost use Rattle.tx_layout.specs.Style.{IsBoxStyle, IsGridStyle, IsNearStart, IsShift};
ghost use Rattle.tx_layout.specs.Children.{IsChild, docked, flow, runs};
ghost use Rattle.tx_layout.specs.Room.{IsEdges, edges_of, inside};
ghost use Rattle.tx_layout.specs.Line.{IsFlow, seen_flow};
ghost use Rattle.tx_layout.specs.Arrangement.{laid_docked, flow_setting, docked_x, docked_y, region_at, docked_region, flow_region, IsWithinReach, AreWithinReach, halves_x, halves_y, shift, Layer, start_x, start_y, at_edges, in_flow, past, over_of, layer_in, arranged_layer, arranged_next, placed_by, over_all, together, arranged_layers, arranged, seen};

use crate::children::{Child, Laid, LaidFlow, Setting};
use crate::flows::flow_of;
use crate::layers::{Edges, Part, by_layer, edges_of, layer_len, part_of};
use crate::sides::sized_both;
use crate::styles::{Arrangement, Ask, BoxStyle, GridStyle};
use std::alloc::Global;
use tx_box::{Basis, LayoutFault};
use tx_geom::{AlignX, AlignY, Edge, LayoutKind, Region, Size};
use tx_io::{Ledger, Steps, Tick};
use tx_text::Items;

/// The docked children of a layer, with their cells.
pub fn laid_docked<F: Fn(Ask) -> Result<u32, LayoutFault>>(
    alloc: Global,
    layer: &[Child],
    setting: Setting,
    measure: &F,
) -> Result<Vec<Child>, LayoutFault>
    requires callable { (ask : Ask) → ask.child < setting.count → F.pre measure.now ask }
    requires children { All (IsChild setting.count) layer.now }
    requires count { length layer.now ≤ 2 ^ 24 }
    ensures exact { (meaning : Ask → Option ℕ)
        → Means (F.post measure.now) setting.count meaning
        → Gives (λ v. v.items) told result (laid_docked meaning setting.basis layer.now) }
    ensures children { IfOk result (λ v. All (IsChild setting.count) v.items) }
{
    let mut docked = part_of(alloc, layer, Part::Docked, setting.count)?;
    let by_itself = Setting {
        main: None,
        ..setting
    };
    sized_both(alloc, &mut docked, by_itself, measure)?;
    Ok(docked)
}

/// What the edges leave of an area.
pub fn flow_setting(edges: Edges, setting: Setting) -> Setting
    requires { IsEdges edges }
    ensures { result ≡ flow_setting edges setting }
{
    Setting {
        basis: Basis {
            area: edges.inside(setting.basis.area),
            screen: setting.basis.screen,
        },
        ..setting
    }
}

// The column at which a docked child begins.
fn docked_x(child: &Child, area: Size, count: u32) -> i64
    requires { IsChild count child.now }
    ensures exact { result ≡ docked_x child.now.style.dock area child.now }
    ensures near { IsNearStart result }
{
    match child.style.dock {
        Some(Edge::Right) => {
            area.width as i64 - (child.wide.size as i64 + child.style.margin.right as i64)
        }
        _ => child.wide.from as i64,
    }
}

// The row at which it begins.
fn docked_y(child: &Child, area: Size, count: u32) -> i64
    requires { IsChild count child.now }
    ensures exact { result ≡ docked_y child.now.style.dock area child.now }
    ensures near { IsNearStart result }
{
    match child.style.dock {
        Some(Edge::Bottom) => {
            area.height as i64 - (child.tall.size as i64 + child.style.margin.bottom as i64)
        }
        _ => child.tall.from as i64,
    }
}

// A place moved by an offset.
fn moved(at: i64, by: i64) -> i64
    requires at { IsNearStart at }
    requires by { IsShift by }
    ensures exact { result ≡ at +ℤ by }
    ensures low { neg_ℤ (pos (2 ^ 44)) ≤ℤ result }
    ensures high { result ≤ℤ pos (2 ^ 44) }
{
    at + by
}

// The region of a child at a place, moved by its offset.
fn region_at(x: i64, y: i64, child: &Child, count: u32) -> Region
    requires child { IsChild count child.now }
    requires x { IsNearStart x }
    requires y { IsNearStart y }
    ensures exact { result ≡ region_at x y child.now }
    ensures near { IsWithinReach result }
{
    Region {
        x: moved(x, child.style.offset.x),
        y: moved(y, child.style.offset.y),
        width: child.wide.size,
        height: child.tall.size,
    }
}

// The region of a docked child.
#[tactic(auto, unfolding(crate::specs::Arrangement::docked_region))]
fn docked_region(child: &Child, area: Size, count: u32) -> Region
    requires { IsChild count child.now }
    ensures exact { result ≡ docked_region area child.now }
    ensures near { IsWithinReach result }
{
    region_at(
        docked_x(child, area, count),
        docked_y(child, area, count),
        child,
        count,
    )
}

// The region of a child of a flow that begins at a place.
#[tactic(auto, unfolding(crate::specs::Arrangement::flow_region))]
fn flow_region(child: &Child, left: u64, top: u64, count: u32) -> Region
    requires child { IsChild count child.now }
    requires left { left < 2 ^ 43 }
    requires top { top < 2 ^ 43 }
    ensures exact { result ≡ flow_region left top child.now }
    ensures near { IsWithinReach result }
{
    let x = (left + child.wide.from) as i64;
    let y = (top + child.tall.from) as i64;
    region_at(x, y, child, count)
}

// How many halves of the free cells stand before what is aligned.
fn halves_x(align: AlignX) -> u64
    ensures exact { result ≡ halves_x align }
    ensures bound { result ≤ 2 }
{
    match align {
        AlignX::Left => 0,
        AlignX::Center => 1,
        AlignX::Right => 2,
    }
}

fn halves_y(align: AlignY) -> u64
    ensures exact { result ≡ halves_y align }
    ensures bound { result ≤ 2 }
{
    match align {
        AlignY::Top => 0,
        AlignY::Middle => 1,
        AlignY::Bottom => 2,
    }
}

// So many halves of what an extent leaves free.
fn shift(halves: u64, room: u32, extent: u64) -> u64
    requires { halves ≤ 2 }
    ensures exact { result ≡ shift halves room extent }
    ensures bound { result ≤ room }
{
    (room as u64).saturating_sub(extent) * halves / 2
}

// How far an extent goes over its room.
fn past(room: u32, extent: u64) -> u32
    ensures { result ≡ past room extent }
{
    extent.saturating_sub(room as u64).min(u32::MAX as u64) as u32
}

// Docked children with their regions.
fn put_docked(placed: &mut [Option<Region>], children: &[Child], area: Size, count: u32)
    requires children { All (IsChild count) children.now }
    requires count { length placed.old ≡ count }
    requires near { AreWithinReach placed.old }
    ensures exact { (done : List (ℕ × Region)) → placed.old ≡ placed_by count done → placed.new ≡ placed_by count (done ++ at_edges area children.now) }
    ensures count { length placed.new ≡ count }
    ensures near { AreWithinReach placed.new }
{
    for child in children {
        placed[child.place as usize] = Some(docked_region(child, area, count));
    }
}

// A flow that begins at a place, with its regions.
fn put_flow(placed: &mut [Option<Region>], children: &[Child], left: u64, top: u64, count: u32)
    requires children { All (IsChild count) children.now }
    requires count { length placed.old ≡ count }
    requires near { AreWithinReach placed.old }
    requires left { left < 2 ^ 43 }
    requires top { top < 2 ^ 43 }
    ensures exact { (done : List (ℕ × Region)) → placed.old ≡ placed_by count done → placed.new ≡ placed_by count (done ++ in_flow left top children.now) }
    ensures count { length placed.new ≡ count }
    ensures near { AreWithinReach placed.new }
{
    for child in children {
        placed[child.place as usize] = Some(flow_region(child, left, top, count));
    }
}

// The column at which a flow begins.
fn start_x(align: AlignX, edges: Edges, room: Size, flow: &LaidFlow, count: u32) -> u64
    requires edges { IsEdges edges }
    requires flow { IsFlow count flow.now }
    ensures exact { result ≡ start_x align edges room (seen_flow flow.now) }
    ensures bound { result < 2 ^ 43 }
{
    edges.left + shift(halves_x(align), room.width, flow.wide)
}

// The row at which it begins.
fn start_y(align: AlignY, edges: Edges, room: Size, flow: &LaidFlow, count: u32) -> u64
    requires edges { IsEdges edges }
    requires flow { IsFlow count flow.now }
    ensures exact { result ≡ start_y align edges room (seen_flow flow.now) }
    ensures bound { result < 2 ^ 43 }
{
    edges.top + shift(halves_y(align), room.height, flow.tall)
}

// How far a flow goes over its room, and the flows before it.
fn over_with(room: Size, flow: &LaidFlow, over: Size) -> Size
    ensures { (done : List Layer) → over ≡ over_all done → (l : Layer) → l.over ≡ over_of room (seen_flow flow.now) → result ≡ over_all (done ++ l ∷ []) }
{
    Size {
        width: over.width.max(past(room.width, flow.wide)),
        height: over.height.max(past(room.height, flow.tall)),
    }
}

// A layer beside the layers so far.
fn put_layer(
    laid: &mut Laid,
    docked: &[Child],
    flow: &LaidFlow,
    align: (AlignX, AlignY),
    edges: Edges,
    area: Size,
    count: u32,
)
    requires docked { All (IsChild count) docked.now }
    requires flow { IsFlow count flow.now }
    requires edges { IsEdges edges }
    requires count { length laid.old.placed.items ≡ count }
    requires near { AreWithinReach laid.old.placed.items }
    ensures exact { (done : List Layer) → seen laid.old ≡ together count done
        → seen laid.new ≡ together count (done ++ layer_in align area edges (inside edges area) docked.now (seen_flow flow.now) ∷ []) }
    ensures count { length laid.new.placed.items ≡ count }
    ensures near { AreWithinReach laid.new.placed.items }
{
    let room = edges.inside(area);
    let left = start_x(align.0, edges, room, flow, count);
    let top = start_y(align.1, edges, room, flow, count);
    put_docked(&mut laid.placed, docked, area, count);
    put_flow(&mut laid.placed, &flow.children, left, top, count);
    laid.over = over_with(room, flow, laid.over);
}

// A layer with its cells, beside the layers so far.
#[tactic(auto, unfolding(crate::specs::Arrangement::arranged_layer))]
fn arrange_layer<F: Fn(Ask) -> Result<u32, LayoutFault>>(
    alloc: Global,
    layer: &[Child],
    kind: LayoutKind,
    grid: &GridStyle,
    align: (AlignX, AlignY),
    setting: Setting,
    laid: &mut Laid,
    measure: &F,
) -> Result<(), LayoutFault>
    requires grid { IsGridStyle grid.now }
    requires callable { (ask : Ask) → ask.child < setting.count → F.pre measure.now ask }
    requires children { All (IsChild setting.count) layer.now }
    requires count { length layer.now ≤ 65536 }
    requires places { length laid.old.placed.items ≡ setting.count }
    requires near { AreWithinReach laid.old.placed.items }
    ensures exact { (meaning : Ask → Option ℕ)
        → Means (F.post measure.now) setting.count meaning
        → (done : List Layer) → seen laid.old ≡ together setting.count done
        → Gives (λ _. seen laid.new) told result (arranged_next meaning kind grid.now align setting.basis setting.count done layer.now) }
    ensures places { length laid.new.placed.items ≡ setting.count }
    ensures near { AreWithinReach laid.new.placed.items }
{
    let docked = laid_docked(alloc, layer, setting, measure)?;
    let edges = edges_of(&docked, setting.count);
    let children = part_of(alloc, layer, Part::Flow, setting.count)?;
    let within = flow_setting(edges, setting);
    let flow = flow_of(alloc, children, kind, grid, within, measure)?;
    put_layer(
        laid,
        &docked,
        &flow,
        align,
        edges,
        setting.basis.area,
        setting.count,
    );
    Ok(())
}

// The layers of children that are ordered by layer, one after the other.
fn arrange_layers<F: Fn(Ask) -> Result<u32, LayoutFault>>(
    alloc: Global,
    ordered: &[Child],
    kind: LayoutKind,
    grid: &GridStyle,
    align: (AlignX, AlignY),
    setting: Setting,
    laid: &mut Laid,
    measure: &F,
) -> Result<(), LayoutFault>
    requires grid { IsGridStyle grid.now }
    requires callable { (ask : Ask) → ask.child < setting.count → F.pre measure.now ask }
    requires children { All (IsChild setting.count) ordered.now }
    requires count { length ordered.now ≤ 65536 }
    requires empty { seen laid.old ≡ together setting.count [] }
    requires places { length laid.old.placed.items ≡ setting.count }
    requires near { AreWithinReach laid.old.placed.items }
    ensures near { AreWithinReach laid.new.placed.items }
    ensures exact { (meaning : Ask → Option ℕ)
        → Means (F.post measure.now) setting.count meaning
        → Gives (λ _. seen laid.new) told result (arranged_layers meaning kind grid.now align setting.basis setting.count (runs ordered.now)) }
{
    let mut rest = ordered;
    while !rest.is_empty() {
        let (layer, more) = rest.split_at(layer_len(rest));
        match arrange_layer(alloc, layer, kind, grid, align, setting, laid, measure) {
            Ok(()) => rest = more,
            Err(fault) => return Err(fault),
        }
    }
    Ok(())
}

// No child has a region, and nothing goes over.
fn unplaced(alloc: Global, count: u32) -> Result<Laid, LayoutFault>
    ensures exact { IfOk result (λ laid. seen laid ≡ together count []) }
    ensures places { IfOk result (λ laid. length laid.placed.items ≡ count) }
    ensures near { IfOk result (λ laid. AreWithinReach laid.placed.items) }
    ensures refused { IfErr result (λ fault. told fault ≡ None) }
{
    let nothing = Size {
        width: 0,
        height: 0,
    };
    Ok(Laid {
        placed: vec![in alloc; None; count as usize]?,
        over: nothing,
    })
}

// The arrangement of the children of a container.
fn arranged<F: Fn(Ask) -> Result<u32, LayoutFault>>(
    alloc: Global,
    kind: LayoutKind,
    grid: &GridStyle,
    align: (AlignX, AlignY),
    children: &[BoxStyle],
    basis: Basis,
    measure: &F,
) -> Result<Arrangement, LayoutFault>
    requires grid { IsGridStyle grid.now }
    requires callable { (ask : Ask) → ask.child < length children.now → F.pre measure.now ask }
    requires styles { All IsBoxStyle children.now }
    requires count { length children.now ≤ 65536 }
    ensures exact { (meaning : Ask → Option ℕ)
        → Means (F.post measure.now) (length children.now) meaning
        → Gives (λ a. a) told result (arranged meaning kind grid.now align children.now basis.area basis.screen) }
    ensures near { IfOk result (λ a. AreWithinReach a.placed) }
{
    let ordered = by_layer(alloc, children)?;
    let count = children.len() as u32;
    let setting = Setting {
        main: None,
        basis,
        count,
    };
    let mut laid = unplaced(alloc, count)?;
    arrange_layers(
        alloc, &ordered, kind, grid, align, setting, &mut laid, measure,
    )?;
    Ok(Arrangement {
        placed: Items::of(laid.placed),
        over: laid.over,
    })
}

/// Where the children of a container stand, and how far they go past the room for them.
///
/// In each layer docked children stand at their edge of the whole area, those of one edge over each
/// other. Each edge takes the greatest of the sizes of its children with their margins, and the
/// others, the flow children, stand in what is left: below or beside each other, where between two
/// of them the greater of their margins counts, or in the cells of a grid, each cut to what its
/// margins leave of the tracks that it takes. Where they take less than that room, all of them move
/// by the same number of cells, as `align` says. At the end each child is moved by its offset. A
/// child of a grid that finds no place among the rows that are given has no region.
///
/// The corner of each region lies within 2^44 cells of the corner of the area.
///
/// `measure` is asked for each size that is that of the content. The arrangement is refused
/// exactly where a fraction on the way is, or a measure: the fault has the direction of the first
/// such step, by the number of the layers, and in each layer by the widths of the docked children,
/// their heights, the columns of a grid and its rows, the widths of the others, and their heights.
/// Else it fails only where there is no memory. It is one tick, whatever it answers.
///
/// Sizes are at least 0, least and greatest sizes have neither `fr` nor `auto`, offsets are from
/// -9,999 to 9,999, and there are at most 65,536 children. Spans and the columns of a grid are from
/// 1 to 100, its rows from 1 to 1,000 where they are given, its gutters at most 9,999, and no track
/// is `auto`.
pub fn arrange<F: Fn(Ask) -> Result<u32, LayoutFault>, L: Ledger>(
    alloc: Global,
    kind: LayoutKind,
    grid: &GridStyle,
    align: (AlignX, AlignY),
    children: &[BoxStyle],
    area: Size,
    screen: Size,
    measure: &F,
    steps: &mut Steps<L>,
) -> Result<Arrangement, LayoutFault>
    requires grid { IsGridStyle grid.now }
    requires callable { (ask : Ask) → ask.child < length children.now → F.pre measure.now ask }
    requires styles { All IsBoxStyle children.now }
    requires count { length children.now ≤ 65536 }
    ensures arranged { (meaning : Ask → Option ℕ)
        → Means (F.post measure.now) (length children.now) meaning
        → Gives (λ a. a) told result (arranged meaning kind grid.now align children.now area screen) }
    ensures near { IfOk result (λ a. AreWithinReach a.placed) }
    ensures ticked { FoldsTo L.ticked steps.old.ledger (Arranged ∷ []) steps.new.ledger }
{
    steps.tick(Tick::Arranged);
    let basis = Basis { area, screen };
    arranged(alloc, kind, grid, align, children, basis, measure)
}
