//! How often the containers of a chain are measured.

ghost use Rattle.std.specs.Prelude.{⊤};
ghost use Rattle.tx_box.specs.Item.{NotNegative};
ghost use Rattle.tx_layout.specs.Style.{IsBoxStyle};

use std::alloc::Global;
use std::cell::Cell;
use std::rt::HostRuntime;
use std::test::Fail;
use tx_expect::expect;
use tx_frac::{Frac, Scalar, Unit};
use tx_geom::{AlignX, AlignY, LayoutKind, Overflow, Size};
use tx_io::{Counted, Steps};
use tx_layout::{Ask, BoxStyle, LayoutFault, tall_of, wide_of};
use tx_look::{box_style, grid_style};
use tx_scroll::bars;
use tx_value::Style;

const SCREEN: Size = Size {
    width: 80,
    height: 24,
};

// The size of a row that is as large as its content.
fn auto() -> Scalar
    ensures { NotNegative result.value }
{
    Scalar {
        value: Frac::whole(0),
        unit: Unit::Auto,
    }
}

// The box of a row that is as large as its content in both directions.
fn auto_box(own: &Style) -> BoxStyle
    ensures { IsBoxStyle result }
{
    BoxStyle {
        width: auto(),
        height: auto(),
        ..box_style(own, own)
    }
}

// What the first of so many containers below each other measures, the last of which has one text. Each
// measure of one of them counts.
#[cycle(chained)]
fn measured(
    alloc: Global,
    own: &Style,
    left: u32,
    width: Option<u32>,
    area: Size,
    count: &Cell<u32>,
) -> Result<u32, LayoutFault> {
    if left == 0 {
        return Ok(1);
    }
    count.set(count.get().saturating_add(1));
    let fewer = left - 1;
    let grid = grid_style(alloc, own)?;
    let children = [auto_box(own)];
    let answer = |ask: Ask| -> Result<u32, LayoutFault>
        requires { ⊤ }
        ensures { ⊤ }
    { measured(alloc, own, fewer, ask.width, ask.area, count) };
    match width {
        None => wide_of(
            alloc,
            LayoutKind::Vertical,
            &grid,
            &children,
            area,
            SCREEN,
            &answer,
        ),
        Some(width) => tall_of(
            alloc,
            LayoutKind::Vertical,
            &grid,
            &children,
            width,
            area,
            SCREEN,
            &answer,
        ),
    }
}

// Arranges a container with so many below each other in it.
fn arranged(alloc: Global, own: &Style, left: u32, count: &Cell<u32>) -> Result<u32, LayoutFault> {
    let mut steps = Steps {
        ledger: Counted::default(),
    };
    let grid = grid_style(alloc, own)?;
    let children = [auto_box(own)];
    let answer = |ask: Ask| -> Result<u32, LayoutFault>
        requires { ⊤ }
        ensures { ⊤ }
    { measured(alloc, own, left, ask.width, ask.area, count) };
    let barred = bars(
        alloc,
        Overflow::Auto,
        Overflow::Auto,
        LayoutKind::Vertical,
        &grid,
        (AlignX::Left, AlignY::Top),
        &children,
        SCREEN,
        SCREEN,
        &answer,
        &mut steps,
    )?;
    Ok(barred.viewport.width)
}

// How often they are measured in a whole map, where each is arranged once.
fn measures(alloc: Global, own: &Style) -> Result<u32, LayoutFault> {
    let count: Cell<u32> = Cell::new(0);
    for left in 0..63 {
        arranged(alloc, own, left, &count)?;
    }
    Ok(count.get())
}

// Sixty-two containers with `auto` sizes below each other, as many as a tree can hold with a text at the
// bottom: what one level measures is measured again at the next.
#[test]
fn a_chain_is_measured_again_at_each_level(rt: HostRuntime) -> Result<(), Fail> {
    let own = Style::initial(rt.alloc())?;
    expect(measures(rt.alloc(), &own) == Ok(43_617), "43,617 measures")
}
