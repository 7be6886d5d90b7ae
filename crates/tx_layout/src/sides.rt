//! The cells of children in one direction.

ghost use Rattle.std.specs.Prelude.{◌≡◌, ◌+◌, ◌<◌, ◌≤◌, ◌^◌, ℕ, pos, length, All, IfOk, Option, Some, None, map, List};
ghost use Rattle.tx_read.specs.Answer.{Gives, or_refused};
ghost use Rattle.tx_box.specs.Item.{IsSized};
ghost use Rattle.tx_box.specs.Axis.{bases, axis_spans};
ghost use Rattle.tx_box.specs.Sizes.{box_cells};
ghost use Rattle.tx_layout.specs.Ask.{told, Means, IsMeaning, IsAnswer};
ghost use Rattle.tx_layout.specs.Steps.{each_of};
ghost use Rattle.tx_layout.specs.Style.{IsBoxStyle, item_of, base, inner, size_in};
ghost use Rattle.tx_layout.specs.Children.{IsChild, IsGap, IsNearSpan, IsSide};
ghost use Rattle.tx_layout.specs.Sides.{content_width, ask_of, content_of, measured, side_of, with_side, across_one, across, gaps, with_spans, areas, is_main, along, sized, sized_both, sized_by};

use crate::children::{Child, Setting, Side};
use crate::styles::{Ask, BoxStyle};
use std::alloc::Global;
use tx_box::{Basis, Item, LayoutFault, Span, box_of, resolve_axis};
use tx_frac::{Scalar, Unit};
use tx_geom::{Axis, Size};

// The size along a direction.
fn size_in(style: &BoxStyle, axis: Axis) -> Scalar
    ensures { result ≡ size_in axis style.now }
{
    match axis {
        Axis::Width => style.width,
        Axis::Height => style.height,
    }
}

// A box with so much content.
fn item_of(style: &BoxStyle, axis: Axis, content: u32) -> Item
    requires style { IsBoxStyle style.now }
    ensures exact { result ≡ item_of axis style.now content }
    ensures sized { IsSized result }
{
    let (least, most) = match axis {
        Axis::Width => (style.least[0], style.most[0]),
        Axis::Height => (style.least[1], style.most[1]),
    };
    Item {
        size: size_in(style, axis),
        least,
        most,
        gutter: style.gutter.along(axis),
        sizing: style.sizing,
        margin: style.margin.along(axis),
        auto: content,
    }
}

// What is asked of a child in an area.
fn ask_of(child: &Child, axis: Axis, area: Size) -> Ask
    ensures { result ≡ ask_of axis area child.now }
{
    let width = match axis {
        Axis::Width => None,
        Axis::Height => Some(content_width(child)),
    };
    Ask {
        child: child.place,
        width,
        area: area.less(child.style.margin).less(child.style.gutter),
    }
}

// The width of the content of a child whose columns are known.
fn content_width(child: &Child) -> u32
    ensures { result ≡ content_width child.now }
{
    child
        .wide
        .size
        .saturating_sub(child.style.gutter.along(Axis::Width))
}

// What the caller answers. A refusal counts for the direction that asks.
fn answer_of<F: Fn(Ask) -> Result<u32, LayoutFault>>(
    ask: Ask,
    axis: Axis,
    measure: &F,
) -> Result<u32, LayoutFault>
    requires callable { F.pre measure.now ask }
    ensures { (means : Option ℕ) → IsMeaning (F.post measure.now ask) means → Gives (λ n. n) told result (or_refused axis means) }
{
    match measure(ask) {
        Ok(size) => Ok(size),
        Err(LayoutFault::Fraction { .. }) => Err(LayoutFault::Fraction { axis }),
        Err(LayoutFault::NoMemory) => Err(LayoutFault::NoMemory),
    }
}

// The content of a child, where its size is that of the content, and 0 elsewhere.
#[tactic(auto, unfolding(crate::specs::Sides::content_of))]
fn content_of<F: Fn(Ask) -> Result<u32, LayoutFault>>(
    child: &Child,
    axis: Axis,
    area: Size,
    measure: &F,
) -> Result<u32, LayoutFault>
    requires callable { (ask : Ask) → ask.child ≡ child.now.place → F.pre measure.now ask }
    ensures { (meaning : Ask → Option ℕ)
        → ((ask : Ask) → ask.child ≡ child.now.place → IsMeaning (F.post measure.now ask) (meaning ask))
        → Gives (λ n. n) told result (content_of meaning axis area child.now) }
{
    match size_in(&child.style, axis).unit {
        Unit::Auto => answer_of(ask_of(child, axis, area), axis, measure),
        _ => Ok(0),
    }
}

// A child as a box along a direction.
#[tactic(auto, unfolding(crate::specs::Sides::measured))]
fn measured<F: Fn(Ask) -> Result<u32, LayoutFault>>(
    child: &Child,
    axis: Axis,
    area: Size,
    count: u32,
    measure: &F,
) -> Result<Item, LayoutFault>
    requires callable { (ask : Ask) → ask.child < count → F.pre measure.now ask }
    requires child { IsChild count child.now }
    ensures exact { (meaning : Ask → Option ℕ) → Means (F.post measure.now) count meaning → Gives (λ i. i) told result (measured meaning axis area child.now) }
    ensures sized { IfOk result IsSized }
{
    let content = content_of(child, axis, area, measure)?;
    Ok(item_of(&child.style, axis, content))
}

// The cells of a span.
fn side_of(span: Span) -> Side
    requires { IsNearSpan span }
    ensures exact { result ≡ side_of span }
    ensures side { IsSide result }
{
    Side {
        from: span.from as u64,
        size: (span.to - span.from) as u32,
    }
}

/// A child with its cells in one direction.
pub fn with_side(child: &Child, axis: Axis, side: Side, count: u32) -> Child
    requires child { IsChild count child.now }
    requires side { IsSide side }
    ensures exact { result ≡ with_side axis side child.now }
    ensures child { IsChild count result }
{
    match axis {
        Axis::Width => Child {
            wide: side,
            ..*child
        },
        Axis::Height => Child {
            tall: side,
            ..*child
        },
    }
}

/// A child by itself, with its cells in one direction.
#[tactic(auto, unfolding(crate::specs::Sides::across_one))]
pub fn across_one<F: Fn(Ask) -> Result<u32, LayoutFault>>(
    child: &Child,
    axis: Axis,
    basis: Basis,
    count: u32,
    measure: &F,
) -> Result<Child, LayoutFault>
    requires callable { (ask : Ask) → ask.child < count → F.pre measure.now ask }
    requires child { IsChild count child.now }
    ensures exact { (meaning : Ask → Option ℕ) → Means (F.post measure.now) count meaning → Gives (λ c. c) told result (across_one meaning axis basis child.now) }
    ensures child { IfOk result (IsChild count) }
{
    let item = measured(child, axis, basis.area, count, measure)?;
    let size = box_of(&item, axis, basis, basis.area.less(child.style.margin))?;
    let from = child.style.margin.before(axis) as u64;
    Ok(with_side(child, axis, Side { from, size }, count))
}

// Gives children their cells, each by itself.
#[tactic(auto, unfolding(crate::specs::Sides::across))]
fn across<F: Fn(Ask) -> Result<u32, LayoutFault>>(
    children: &mut [Child],
    axis: Axis,
    setting: Setting,
    measure: &F,
) -> Result<(), LayoutFault>
    requires callable { (ask : Ask) → ask.child < setting.count → F.pre measure.now ask }
    requires children { All (IsChild setting.count) children.old }
    ensures exact { (meaning : Ask → Option ℕ)
        → Means (F.post measure.now) setting.count meaning
        → Gives (λ _. children.new) told result (across meaning axis setting.basis children.old) }
    ensures children { All (IsChild setting.count) children.new }
    ensures count { length children.new ≡ length children.old }
{
    for child in children.iter_mut() {
        *child = across_one(child, axis, setting.basis, setting.count, measure)?;
    }
    Ok(())
}

// Children as boxes along a direction.
fn all_measured<F: Fn(Ask) -> Result<u32, LayoutFault>>(
    alloc: Global,
    children: &[Child],
    axis: Axis,
    setting: Setting,
    measure: &F,
) -> Result<Vec<Item>, LayoutFault>
    requires callable { (ask : Ask) → ask.child < setting.count → F.pre measure.now ask }
    requires children { All (IsChild setting.count) children.now }
    ensures exact { (meaning : Ask → Option ℕ)
        → Means (F.post measure.now) setting.count meaning
        → Gives (λ v. v.items) told result (each_of (measured meaning axis setting.basis.area) children.now) }
    ensures sized { IfOk result (λ v. All IsSized v.items) }
    ensures count { IfOk result (λ v. length v.items ≡ length children.now) }
{
    let mut items = Vec::with_capacity(alloc, children.len())?;
    for child in children {
        items.push(measured(child, axis, setting.basis.area, setting.count, measure)?)?;
    }
    Ok(items)
}

// The gaps before, between and after children.
fn gaps(alloc: Global, children: &[Child], axis: Axis) -> Result<Vec<u32>, LayoutFault>
    requires { length children.now ≤ 2 ^ 24 }
    ensures count { IfOk result (λ v. length v.items ≡ length children.now + 1) }
    ensures narrow { IfOk result (λ v. All IsGap v.items) }
    ensures exact { Gives (λ v. v.items) told result (Ok (gaps axis children.now)) }
{
    let mut gaps = Vec::with_capacity(alloc, children.len() + 1)?;
    let mut margin: u16 = 0;
    for child in children {
        gaps.push(margin.max(child.style.margin.before(axis)) as u32)?;
        margin = child.style.margin.behind(axis);
    }
    gaps.push(margin as u32)?;
    Ok(gaps)
}

// What the percentages of each child are taken of.
fn areas(alloc: Global, children: &[Child], area: Size) -> Result<Vec<Size>, LayoutFault>
    ensures count { IfOk result (λ v. length v.items ≡ length children.now) }
    ensures exact { Gives (λ v. v.items) told result (Ok (areas area children.now)) }
{
    let mut areas = Vec::with_capacity(alloc, children.len())?;
    for child in children {
        areas.push(area.less(child.style.margin))?;
    }
    Ok(areas)
}

// Gives children the cells of their spans.
fn take_spans(children: &mut [Child], spans: &[Span], axis: Axis, count: u32)
    requires children { All (IsChild count) children.old }
    requires spans { All IsNearSpan spans.now }
    requires one_each { length spans.now ≡ length children.old }
    ensures exact { children.new ≡ with_spans axis children.old spans.now }
    ensures children { All (IsChild count) children.new }
    ensures count { length children.new ≡ length children.old }
{
    for index in 0..children.len() {
        children[index] = with_side(&children[index], axis, side_of(spans[index]), count);
    }
}

/// The spans of boxes with gaps of at most 65,535 cells, all of which end before 2^41.
pub fn near_spans(
    alloc: Global,
    items: &[Item],
    gaps: &[u32],
    axis: Axis,
    basis: Basis,
    own: &[Size],
) -> Result<Vec<Span>, LayoutFault>
    requires sized { All IsSized items.now }
    requires gaps { length gaps.now ≡ length items.now + 1 }
    requires narrow { All IsGap gaps.now }
    requires own { length own.now ≡ length items.now }
    requires count { length items.now ≤ 2 ^ 24 }
    ensures exact { Gives (λ v. v.items) told result (or_refused axis (axis_spans items.now gaps.now axis basis own.now)) }
    ensures spans { IfOk result (λ v. axis_spans items.now gaps.now axis basis own.now ≡ Some v.items) }
    ensures cells { IfOk result (λ v. All IsNearSpan v.items) }
    ensures count { IfOk result (λ v. length v.items ≡ length items.now) }
{
    resolve_axis(alloc, items, gaps, axis, basis, own)
}

// Gives children their cells, one after another.
#[tactic(auto, unfolding(crate::specs::Sides::along))]
fn along<F: Fn(Ask) -> Result<u32, LayoutFault>>(
    alloc: Global,
    children: &mut [Child],
    axis: Axis,
    setting: Setting,
    measure: &F,
) -> Result<(), LayoutFault>
    requires callable { (ask : Ask) → ask.child < setting.count → F.pre measure.now ask }
    requires children { All (IsChild setting.count) children.old }
    requires count { length children.old ≤ 2 ^ 24 }
    ensures exact { (meaning : Ask → Option ℕ)
        → Means (F.post measure.now) setting.count meaning
        → Gives (λ _. children.new) told result (along meaning axis setting.basis children.old) }
    ensures children { All (IsChild setting.count) children.new }
    ensures count { length children.new ≡ length children.old }
{
    let items = all_measured(alloc, children, axis, setting, measure)?;
    let gaps = gaps(alloc, children, axis)?;
    let own = areas(alloc, children, setting.basis.area)?;
    let spans = near_spans(alloc, &items, &gaps, axis, setting.basis, &own)?;
    take_spans(children, &spans, axis, setting.count);
    Ok(())
}

/// Whether children follow each other in a direction.
pub fn is_main(main: Option<Axis>, axis: Axis) -> bool
    ensures { result ≡ is_main main axis }
{
    match main {
        None => false,
        Some(Axis::Width) => match axis {
            Axis::Width => true,
            Axis::Height => false,
        },
        Some(Axis::Height) => match axis {
            Axis::Width => false,
            Axis::Height => true,
        },
    }
}

/// Gives children their cells in one direction.
pub fn sized<F: Fn(Ask) -> Result<u32, LayoutFault>>(
    alloc: Global,
    children: &mut [Child],
    axis: Axis,
    setting: Setting,
    measure: &F,
) -> Result<(), LayoutFault>
    requires callable { (ask : Ask) → ask.child < setting.count → F.pre measure.now ask }
    requires children { All (IsChild setting.count) children.old }
    requires count { length children.old ≤ 2 ^ 24 }
    ensures exact { (meaning : Ask → Option ℕ)
        → Means (F.post measure.now) setting.count meaning
        → Gives (λ _. children.new) told result (sized meaning setting.main setting.basis axis children.old) }
    ensures children { All (IsChild setting.count) children.new }
    ensures count { length children.new ≡ length children.old }
{
    if is_main(setting.main, axis) {
        along(alloc, children, axis, setting, measure)
    } else {
        across(children, axis, setting, measure)
    }
}

/// Gives children their columns, and then their rows.
#[tactic(auto, unfolding(crate::specs::Sides::sized_both))]
pub fn sized_both<F: Fn(Ask) -> Result<u32, LayoutFault>>(
    alloc: Global,
    children: &mut [Child],
    setting: Setting,
    measure: &F,
) -> Result<(), LayoutFault>
    requires callable { (ask : Ask) → ask.child < setting.count → F.pre measure.now ask }
    requires children { All (IsChild setting.count) children.old }
    requires count { length children.old ≤ 2 ^ 24 }
    ensures exact { (meaning : Ask → Option ℕ)
        → Means (F.post measure.now) setting.count meaning
        → Gives (λ _. children.new) told result (sized_both meaning setting.main setting.basis children.old) }
    ensures children { All (IsChild setting.count) children.new }
{
    sized(alloc, children, Axis::Width, setting, measure)?;
    sized(alloc, children, Axis::Height, setting, measure)
}
