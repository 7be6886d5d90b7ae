//! The flow of a layer: the children that are not docked, in the room that is left for them.

ghost use Rattle.std.specs.Prelude.{◌≡◌, ◌+◌, ◌<◌, ◌≤◌, ◌^◌, ℕ, length, All, IfOk, Option, Some};
ghost use Rattle.tx_read.specs.Answer.{Gives};
ghost use Rattle.tx_layout.specs.Ask.{told, Means};
ghost use Rattle.tx_layout.specs.Children.{IsChild};
ghost use Rattle.tx_layout.specs.Room.{extent};
ghost use Rattle.tx_layout.specs.Style.{IsGridStyle};
ghost use Rattle.tx_layout.specs.Line.{IsFlow, seen_flow, line_of, line_with, sized_for, line_extent};
ghost use Rattle.tx_layout.specs.Flow.{flow_of, flow_extent};

use crate::children::{Child, LaidFlow, Setting};
use crate::grids::{grid_extent, grid_of};
use crate::layers::extent;
use crate::sides::{sized, sized_both};
use crate::styles::{Ask, GridStyle};
use std::alloc::Global;
use tx_box::LayoutFault;
use tx_geom::{Axis, LayoutKind};

// Children that follow each other, with their cells.
#[tactic(auto, unfolding(crate::specs::Line::line_of))]
fn line_of<F: Fn(Ask) -> Result<u32, LayoutFault>>(
    alloc: Global,
    children: Vec<Child>,
    setting: Setting,
    measure: &F,
) -> Result<LaidFlow, LayoutFault>
    requires callable { (ask : Ask) → ask.child < setting.count → F.pre measure.now ask }
    requires children { All (IsChild setting.count) children.items }
    requires count { length children.items ≤ 2 ^ 24 }
    ensures exact { (meaning : Ask → Option ℕ)
        → Means (F.post measure.now) setting.count meaning
        → Gives seen_flow told result (line_of meaning setting.main setting.basis children.items) }
    ensures flow { IfOk result (IsFlow setting.count) }
{
    let mut children = children;
    sized_both(alloc, &mut children, setting, measure)?;
    let wide = extent(&children, setting.main, Axis::Width, setting.count);
    let tall = extent(&children, setting.main, Axis::Height, setting.count);
    Ok(LaidFlow {
        children,
        wide,
        tall,
    })
}

// Gives children the cells that a measure along a direction needs.
fn sized_for<F: Fn(Ask) -> Result<u32, LayoutFault>>(
    alloc: Global,
    children: &mut [Child],
    axis: Axis,
    setting: Setting,
    measure: &F,
) -> Result<(), LayoutFault>
    requires callable { (ask : Ask) → ask.child < setting.count → F.pre measure.now ask }
    requires children { All (IsChild setting.count) children.old }
    requires count { length children.old ≤ 2 ^ 24 }
    ensures exact { (meaning : Ask → Option ℕ)
        → Means (F.post measure.now) setting.count meaning
        → Gives (λ _. children.new) told result (sized_for axis meaning setting.main setting.basis children.old) }
    ensures children { All (IsChild setting.count) children.new }
{
    match axis {
        Axis::Width => sized(alloc, children, Axis::Width, setting, measure),
        Axis::Height => sized_both(alloc, children, setting, measure),
    }
}

// How far children that follow each other go in a direction.
#[tactic(auto, unfolding(crate::specs::Line::line_extent))]
fn line_extent<F: Fn(Ask) -> Result<u32, LayoutFault>>(
    alloc: Global,
    children: Vec<Child>,
    axis: Axis,
    setting: Setting,
    measure: &F,
) -> Result<u64, LayoutFault>
    requires callable { (ask : Ask) → ask.child < setting.count → F.pre measure.now ask }
    requires children { All (IsChild setting.count) children.items }
    requires count { length children.items ≤ 2 ^ 24 }
    ensures exact { (meaning : Ask → Option ℕ)
        → Means (F.post measure.now) setting.count meaning
        → Gives (λ n. n) told result (line_extent meaning setting.main axis setting.basis children.items) }
    ensures bound { IfOk result (λ n. n < 2 ^ 42) }
{
    let mut children = children;
    sized_for(alloc, &mut children, axis, setting, measure)?;
    Ok(extent(&children, setting.main, axis, setting.count))
}

// Children that follow each other in a direction.
fn line_along<F: Fn(Ask) -> Result<u32, LayoutFault>>(
    alloc: Global,
    children: Vec<Child>,
    main: Axis,
    setting: Setting,
    measure: &F,
) -> Result<LaidFlow, LayoutFault>
    requires callable { (ask : Ask) → ask.child < setting.count → F.pre measure.now ask }
    requires children { All (IsChild setting.count) children.items }
    requires count { length children.items ≤ 2 ^ 24 }
    ensures exact { (meaning : Ask → Option ℕ)
        → Means (F.post measure.now) setting.count meaning
        → Gives seen_flow told result (line_of meaning (Some main) setting.basis children.items) }
    ensures flow { IfOk result (IsFlow setting.count) }
{
    let main = Some(main);
    line_of(alloc, children, Setting { main, ..setting }, measure)
}

/// The flow of a layer with its cells.
pub fn flow_of<F: Fn(Ask) -> Result<u32, LayoutFault>>(
    alloc: Global,
    children: Vec<Child>,
    kind: LayoutKind,
    grid: &GridStyle,
    setting: Setting,
    measure: &F,
) -> Result<LaidFlow, LayoutFault>
    requires grid { IsGridStyle grid.now }
    requires callable { (ask : Ask) → ask.child < setting.count → F.pre measure.now ask }
    requires children { All (IsChild setting.count) children.items }
    requires count { length children.items ≤ 65536 }
    ensures exact { (meaning : Ask → Option ℕ)
        → Means (F.post measure.now) setting.count meaning
        → Gives seen_flow told result (flow_of meaning kind grid.now setting.basis children.items) }
    ensures flow { IfOk result (IsFlow setting.count) }
{
    match kind {
        LayoutKind::Vertical => line_along(alloc, children, Axis::Height, setting, measure),
        LayoutKind::Horizontal => line_along(alloc, children, Axis::Width, setting, measure),
        LayoutKind::Grid => grid_of(alloc, &children, grid, setting, measure),
    }
}

// How far children that follow each other in one direction go in another.
fn extent_along<F: Fn(Ask) -> Result<u32, LayoutFault>>(
    alloc: Global,
    children: Vec<Child>,
    main: Axis,
    axis: Axis,
    setting: Setting,
    measure: &F,
) -> Result<u64, LayoutFault>
    requires callable { (ask : Ask) → ask.child < setting.count → F.pre measure.now ask }
    requires children { All (IsChild setting.count) children.items }
    requires count { length children.items ≤ 2 ^ 24 }
    ensures exact { (meaning : Ask → Option ℕ)
        → Means (F.post measure.now) setting.count meaning
        → Gives (λ n. n) told result (line_extent meaning (Some main) axis setting.basis children.items) }
    ensures bound { IfOk result (λ n. n < 2 ^ 42) }
{
    let main = Some(main);
    line_extent(alloc, children, axis, Setting { main, ..setting }, measure)
}

/// How far the flow of a layer goes in a direction, as a measure asks.
pub fn flow_extent<F: Fn(Ask) -> Result<u32, LayoutFault>>(
    alloc: Global,
    children: Vec<Child>,
    kind: LayoutKind,
    grid: &GridStyle,
    axis: Axis,
    setting: Setting,
    measure: &F,
) -> Result<u64, LayoutFault>
    requires grid { IsGridStyle grid.now }
    requires callable { (ask : Ask) → ask.child < setting.count → F.pre measure.now ask }
    requires children { All (IsChild setting.count) children.items }
    requires count { length children.items ≤ 65536 }
    ensures exact { (meaning : Ask → Option ℕ)
        → Means (F.post measure.now) setting.count meaning
        → Gives (λ n. n) told result (flow_extent meaning kind grid.now axis setting.basis children.items) }
    ensures bound { IfOk result (λ n. n < 2 ^ 42) }
{
    match kind {
        LayoutKind::Vertical => {
            extent_along(alloc, children, Axis::Height, axis, setting, measure)
        }
        LayoutKind::Horizontal => {
            extent_along(alloc, children, Axis::Width, axis, setting, measure)
        }
        LayoutKind::Grid => grid_extent(alloc, &children, grid, axis, setting),
    }
}
