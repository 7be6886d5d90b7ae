//! The sizes that a container asks for itself.

ghost use Rattle.std.specs.Prelude.{◌≡◌, ◌+◌, ◌<◌, ◌≤◌, ◌^◌, ℕ, length, All, IfOk, Option};
ghost use Rattle.tx_geom.specs.declared.choices.Axis.TheVariants.{Width};
ghost use Rattle.tx_read.specs.Answer.{Gives};
ghost use Rattle.tx_layout.specs.Ask.{told, Means};
ghost use Rattle.tx_layout.specs.Style.{IsBoxStyle, IsGridStyle};
ghost use Rattle.tx_layout.specs.Children.{IsChild, layers, numbered, runs};
ghost use Rattle.tx_layout.specs.Room.{IsEdges};
ghost use Rattle.tx_layout.specs.Arrangement.{asked_docked, asked_layer, most_asked, asked_layers, wide, tall};

use crate::arranging::{flow_setting, laid_docked};
use crate::children::{Child, Setting};
use crate::flows::flow_extent;
use crate::layers::{Part, by_layer, edges_of, layer_len, part_of};
use crate::sides::sized;
use crate::styles::{Ask, BoxStyle, GridStyle};
use std::alloc::Global;
use tx_box::{Basis, LayoutFault};
use tx_geom::{Axis, LayoutKind, Size};

// The children at the left and at the right edge, with their columns.
fn sides_of<F: Fn(Ask) -> Result<u32, LayoutFault>>(
    alloc: Global,
    layer: &[Child],
    setting: Setting,
    measure: &F,
) -> Result<Vec<Child>, LayoutFault>
    requires callable { (ask : Ask) → ask.child < setting.count → F.pre measure.now ask }
    requires children { All (IsChild setting.count) layer.now }
    requires count { length layer.now ≤ 2 ^ 24 }
    ensures exact { (meaning : Ask → Option ℕ)
        → Means (F.post measure.now) setting.count meaning
        → Gives (λ v. v.items) told result (asked_docked meaning Width setting.basis layer.now) }
    ensures children { IfOk result (λ v. All (IsChild setting.count) v.items) }
{
    let mut at_sides = part_of(alloc, layer, Part::AtSides, setting.count)?;
    let by_itself = Setting {
        main: None,
        ..setting
    };
    sized(alloc, &mut at_sides, Axis::Width, by_itself, measure)?;
    Ok(at_sides)
}

// The docked children that a direction needs.
fn asked_docked<F: Fn(Ask) -> Result<u32, LayoutFault>>(
    alloc: Global,
    layer: &[Child],
    axis: Axis,
    setting: Setting,
    measure: &F,
) -> Result<Vec<Child>, LayoutFault>
    requires callable { (ask : Ask) → ask.child < setting.count → F.pre measure.now ask }
    requires children { All (IsChild setting.count) layer.now }
    requires count { length layer.now ≤ 2 ^ 24 }
    ensures exact { (meaning : Ask → Option ℕ)
        → Means (F.post measure.now) setting.count meaning
        → Gives (λ v. v.items) told result (asked_docked meaning axis setting.basis layer.now) }
    ensures children { IfOk result (λ v. All (IsChild setting.count) v.items) }
{
    match axis {
        Axis::Width => sides_of(alloc, layer, setting, measure),
        Axis::Height => laid_docked(alloc, layer, setting, measure),
    }
}

// What a layer asks for along a direction.
#[tactic(auto, unfolding(crate::specs::Arrangement::asked_layer))]
fn asked_layer<F: Fn(Ask) -> Result<u32, LayoutFault>>(
    alloc: Global,
    layer: &[Child],
    kind: LayoutKind,
    grid: &GridStyle,
    axis: Axis,
    setting: Setting,
    measure: &F,
) -> Result<u64, LayoutFault>
    requires grid { IsGridStyle grid.now }
    requires callable { (ask : Ask) → ask.child < setting.count → F.pre measure.now ask }
    requires children { All (IsChild setting.count) layer.now }
    requires count { length layer.now ≤ 65536 }
    ensures exact { (meaning : Ask → Option ℕ)
        → Means (F.post measure.now) setting.count meaning
        → Gives (λ n. n) told result (asked_layer meaning kind grid.now axis setting.basis layer.now) }
{
    let docked = asked_docked(alloc, layer, axis, setting, measure)?;
    let edges = edges_of(&docked, setting.count);
    let children = part_of(alloc, layer, Part::Flow, setting.count)?;
    let within = flow_setting(edges, setting);
    let extent = flow_extent(alloc, children, kind, grid, axis, within, measure)?;
    Ok(edges.along(axis) + extent)
}

// The greatest of what layers ask for.
fn most_asked<F: Fn(Ask) -> Result<u32, LayoutFault>>(
    alloc: Global,
    ordered: &[Child],
    kind: LayoutKind,
    grid: &GridStyle,
    axis: Axis,
    setting: Setting,
    measure: &F,
) -> Result<u64, LayoutFault>
    requires grid { IsGridStyle grid.now }
    requires callable { (ask : Ask) → ask.child < setting.count → F.pre measure.now ask }
    requires children { All (IsChild setting.count) ordered.now }
    requires count { length ordered.now ≤ 65536 }
    ensures { (meaning : Ask → Option ℕ)
        → Means (F.post measure.now) setting.count meaning
        → Gives (λ n. n) told result (most_asked meaning kind grid.now axis setting.basis (runs ordered.now)) }
{
    let mut most: u64 = 0;
    let mut rest = ordered;
    while !rest.is_empty() {
        let (layer, more) = rest.split_at(layer_len(rest));
        match asked_layer(alloc, layer, kind, grid, axis, setting, measure) {
            Ok(asked) => most = most.max(asked),
            Err(fault) => return Err(fault),
        }
        rest = more;
    }
    Ok(most)
}

// What a container asks for along a direction, at most 65,535.
fn asked<F: Fn(Ask) -> Result<u32, LayoutFault>>(
    alloc: Global,
    kind: LayoutKind,
    grid: &GridStyle,
    children: &[BoxStyle],
    axis: Axis,
    basis: Basis,
    measure: &F,
) -> Result<u32, LayoutFault>
    requires grid { IsGridStyle grid.now }
    requires callable { (ask : Ask) → ask.child < length children.now → F.pre measure.now ask }
    requires styles { All IsBoxStyle children.now }
    requires count { length children.now ≤ 65536 }
    ensures { (meaning : Ask → Option ℕ)
        → Means (F.post measure.now) (length children.now) meaning
        → Gives (λ n. n) told result (asked_layers meaning kind grid.now axis basis (layers (numbered 0 children.now))) }
{
    let ordered = by_layer(alloc, children)?;
    let setting = Setting {
        main: None,
        basis,
        count: children.len() as u32,
    };
    let most = most_asked(alloc, &ordered, kind, grid, axis, setting, measure)?;
    Ok(most.min(65_535) as u32)
}

/// The width that a container asks for in an area: the greatest of what its layers ask for, at most
/// 65,535.
///
/// A layer asks for its left and its right edge, and for as many columns as the widths of its flow
/// children come to in the area between them, or the columns of a grid. Children docked at the top
/// or the bottom count for nothing. `measure` is asked for each of these widths that is that of the
/// content.
///
/// It is refused exactly where a fraction on the way is, or a measure, with the direction of the
/// widths. Else it fails only where there is no memory. The conditions are those of
/// [`crate::arrange`].
pub fn wide_of<F: Fn(Ask) -> Result<u32, LayoutFault>>(
    alloc: Global,
    kind: LayoutKind,
    grid: &GridStyle,
    children: &[BoxStyle],
    area: Size,
    screen: Size,
    measure: &F,
) -> Result<u32, LayoutFault>
    requires grid { IsGridStyle grid.now }
    requires callable { (ask : Ask) → ask.child < length children.now → F.pre measure.now ask }
    requires styles { All IsBoxStyle children.now }
    requires count { length children.now ≤ 65536 }
    ensures { (meaning : Ask → Option ℕ)
        → Means (F.post measure.now) (length children.now) meaning
        → Gives (λ n. n) told result (wide meaning kind grid.now children.now area screen) }
{
    let basis = Basis { area, screen };
    asked(alloc, kind, grid, children, Axis::Width, basis, measure)
}

/// The height that a container asks for at a width: the greatest of what its layers ask for, at most
/// 65,535.
///
/// A layer asks for its top and its bottom edge, and for as many rows as its flow children, or the
/// tracks of a grid, come to in a viewport of that width and the height of the area, less the four
/// edges of the layer. A child docked at the left or the right counts for nothing but its width.
///
/// It is refused exactly where a fraction on the way is, or a measure: the fault has the direction
/// of the first such step, in the order of [`crate::arrange`]. Else it fails only where there is no
/// memory. The conditions are those of [`crate::arrange`].
pub fn tall_of<F: Fn(Ask) -> Result<u32, LayoutFault>>(
    alloc: Global,
    kind: LayoutKind,
    grid: &GridStyle,
    children: &[BoxStyle],
    width: u32,
    area: Size,
    screen: Size,
    measure: &F,
) -> Result<u32, LayoutFault>
    requires grid { IsGridStyle grid.now }
    requires callable { (ask : Ask) → ask.child < length children.now → F.pre measure.now ask }
    requires styles { All IsBoxStyle children.now }
    requires count { length children.now ≤ 65536 }
    ensures { (meaning : Ask → Option ℕ)
        → Means (F.post measure.now) (length children.now) meaning
        → Gives (λ n. n) told result (tall meaning kind grid.now children.now width area screen) }
{
    let viewport = Size {
        width,
        height: area.height,
    };
    let basis = Basis {
        area: viewport,
        screen,
    };
    asked(alloc, kind, grid, children, Axis::Height, basis, measure)
}
