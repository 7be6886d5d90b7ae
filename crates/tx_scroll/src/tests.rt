ghost use Rattle.std.specs.Prelude.{◌≡◌, ⊤, ◌≤◌, length, All, IfOk};
ghost use Rattle.tx_box.specs.Item.{NotNegative};
ghost use Rattle.tx_geom.specs.Region.{IsNearPlace, corner};
ghost use Rattle.tx_layout.specs.Style.{IsBoxStyle, IsGridStyle, IsTrack};

use crate::{Barred, bars, clamp_scroll, clip};
use std::alloc::Global;
use std::test::Fail;
use tx_expect::{each_line, expect};
use tx_frac::{Frac, Scalar, Unit};
use tx_geom::{
    AlignX, AlignY, Axis, BoxSizing, Edge, LayoutKind, Offset, Overflow, Region, Size, Spacing,
};
use tx_io::{Counted, Steps};
use tx_layout::{Ask, BoxStyle, GridStyle, LayoutFault, tall_of, wide_of};
use tx_text::Items;

const SCREEN: Size = Size {
    width: 80,
    height: 24,
};

const NO_ROOM: Spacing = Spacing {
    top: 0,
    right: 0,
    bottom: 0,
    left: 0,
};

fn number(word: &str) -> Result<u32, Fail> {
    Ok(word.parse::<u32>().ok().ok_or("a number")?)
}

// A number of cells, `f` for `1fr`, `a` for `auto`.
fn scalar(word: &str) -> Result<Scalar, Fail>
    ensures { IfOk result (λ s. NotNegative s.value) }
{
    let (count, unit) = match word {
        "f" => (1, Unit::Fr),
        "a" => (1, Unit::Auto),
        _ => (number(word)?, Unit::Cells),
    };
    Ok(Scalar {
        value: Frac::whole(count as i64),
        unit,
    })
}

fn boxed(width: Scalar, height: Scalar, dock: Option<Edge>) -> BoxStyle
    requires width { NotNegative width.value }
    requires height { NotNegative height.value }
    ensures { IsBoxStyle result }
{
    BoxStyle {
        width,
        height,
        least: [None, None],
        most: [None, None],
        margin: NO_ROOM,
        gutter: NO_ROOM,
        sizing: BoxSizing::BorderBox,
        dock,
        layer: 0,
        offset: Offset { x: 0, y: 0 },
        column_span: 1,
        row_span: 1,
    }
}

// A width and a height with a comma between them.
fn with_sizes(sizes: &str, dock: Option<Edge>) -> Result<BoxStyle, Fail>
    ensures { IfOk result IsBoxStyle }
{
    let (width, height) = sizes.split_once(',').ok_or("two sizes")?;
    Ok(boxed(scalar(width)?, scalar(height)?, dock))
}

// Two sizes, with `left:` in front where the child is docked there, and `1:` where it is in layer 1.
fn child(word: &str) -> Result<BoxStyle, Fail>
    ensures { IfOk result IsBoxStyle }
{
    if let Some(sizes) = word.strip_prefix("1:") {
        let style = with_sizes(sizes, None)?;
        return Ok(BoxStyle { layer: 1, ..style });
    }
    match word.strip_prefix("left:") {
        Some(sizes) => with_sizes(sizes, Some(Edge::Left)),
        None => with_sizes(word, None),
    }
}

fn overflow(letter: &str) -> Result<Overflow, Fail> {
    match letter {
        "a" => Ok(Overflow::Auto),
        "h" => Ok(Overflow::Hidden),
        "s" => Ok(Overflow::Scroll),
        _ => Err(Fail::from("an overflow")),
    }
}

// What both axes do with content past them.
fn overflows(letters: &str) -> Result<(Overflow, Overflow), Fail> {
    match letters.split_at_checked(1) {
        Some((x, y)) => Ok((overflow(x)?, overflow(y)?)),
        None => Err(Fail::from("two letters")),
    }
}

fn kind(letter: &str) -> LayoutKind {
    match letter {
        "h" => LayoutKind::Horizontal,
        "g" => LayoutKind::Grid,
        _ => LayoutKind::Vertical,
    }
}

// A width and a height with an `x` between them, or `-` for none.
fn area(word: &str) -> Result<Option<Size>, Fail> {
    if word == "-" {
        return Ok(None);
    }
    let (width, height) = word.split_once('x').ok_or("an area")?;
    Ok(Some(Size {
        width: number(width)?,
        height: number(height)?,
    }))
}

// So many cells.
fn track(count: u32) -> Scalar
    ensures { IsTrack result }
{
    Scalar {
        value: Frac::whole(count as i64),
        unit: Unit::Cells,
    }
}

// A grid with as many rows as are used.
fn grid(alloc: Global, columns: u32, wide: u32, tall: u32) -> Result<GridStyle, Fail>
    requires some { 1 ≤ columns }
    requires few { columns ≤ 100 }
    ensures { IfOk result IsGridStyle }
{
    let column_tracks = vec![in alloc; track(wide); 1]?;
    let row_tracks = vec![in alloc; track(tall); 1]?;
    Ok(GridStyle {
        columns,
        rows: None,
        column_tracks: Items::of(column_tracks),
        row_tracks: Items::of(row_tracks),
        gutter_vertical: 0,
        gutter_horizontal: 0,
    })
}

// The bars and the regions that a container shows.
fn barred_text(alloc: Global, barred: &Barred, ticks: u64) -> Result<String, Fail> {
    let viewport = barred.viewport;
    let over = barred.arrangement.over;
    let mut text = format!(in alloc;
        "{}{} {} {} over {} {}, {}:",
        barred.across as u8,
        barred.down as u8,
        viewport.width,
        viewport.height,
        over.width,
        over.height,
        ticks
    )?;
    for region in barred.arrangement.placed.as_slice() {
        if let Some(region) = region {
            let place = format!(in alloc;
                " {} {} {} {};",
                region.x, region.y, region.width, region.height
            )?;
            text.push_str(place.as_str())?;
        }
    }
    Ok(text)
}

// What a container comes to. A grid has two columns of 9 cells, and rows of 4. The content of each child
// is 25 columns wide, and takes 200 cells at any width. No measure is answered in an area that is refused.
fn shown(
    alloc: Global,
    axes: (Overflow, Overflow),
    kind: LayoutKind,
    content: Size,
    refused: Option<Size>,
    children: &[BoxStyle],
) -> Result<String, Fail>
    requires styles { All IsBoxStyle children.now }
    requires count { length children.now ≤ 65536 }
{
    let measure = |ask: Ask| -> Result<u32, LayoutFault>
        requires { ⊤ }
        ensures { ⊤ }
    {
        if refused == Some(ask.area) {
            return Err(LayoutFault::Fraction { axis: Axis::Width });
        }
        match ask.width {
            None => Ok(25),
            Some(width) => Ok(200_u32.div_ceil(width.max(1))),
        }
    };
    let mut steps = Steps {
        ledger: Counted::default(),
    };
    let grid = grid(alloc, 2, 9, 4)?;
    let start = (AlignX::Left, AlignY::Top);
    let found = bars(
        alloc, axes.0, axes.1, kind, &grid, start, children, content, SCREEN, &measure, &mut steps,
    );
    let ticks = steps.ledger.arranged;
    match found {
        Ok(barred) => barred_text(alloc, &barred, ticks),
        Err(LayoutFault::Fraction { axis: Axis::Width }) => {
            Ok(format!(in alloc; "refused width, {ticks}")?)
        }
        Err(LayoutFault::Fraction { axis: Axis::Height }) => {
            Ok(format!(in alloc; "refused height, {ticks}")?)
        }
        Err(LayoutFault::NoMemory) => Err(Fail::from("no memory")),
    }
}

// A container from a line: what its axes do, `v`, `h` or `g` for its layout, its columns and rows, an area in
// which measures are refused, and one or two children.
fn answer(alloc: Global, given: &str) -> Result<String, Fail> {
    let mut words = given.split(' ');
    let axes = overflows(words.next().ok_or("axes")?)?;
    let kind = kind(words.next().ok_or("a layout")?);
    let content = Size {
        width: number(words.next().ok_or("columns")?)?,
        height: number(words.next().ok_or("rows")?)?,
    };
    let refused = area(words.next().ok_or("an area")?)?;
    let first = child(words.next().ok_or("a child")?)?;
    match words.next() {
        None => shown(alloc, axes, kind, content, refused, &[first]),
        Some(word) => shown(alloc, axes, kind, content, refused, &[first, child(word)?]),
    }
}

#[test]
fn auto_axes_have_bars_where_needed(rt: HostRuntime) -> Result<(), Fail> {
    let alloc = rt.alloc();
    each_line(
        "aa v 20 10 - f,12 => 01 18 10 over 0 2, 2: 0 0 18 12;\n\
         aa v 20 10 - 20,10 => 00 20 10 over 0 0, 1: 0 0 20 10;\n\
         aa v 20 10 - 18,12 => 01 18 10 over 0 2, 2: 0 0 18 12;\n\
         aa v 20 10 - 19,12 => 11 18 9 over 1 3, 4: 0 0 19 12;\n\
         aa v 20 10 - 21,9 => 10 20 9 over 1 0, 3: 0 0 21 9;\n\
         aa v 20 10 - 21,10 => 11 18 9 over 3 1, 4: 0 0 21 10;\n\
         aa v 20 10 - 30,30 => 11 18 9 over 12 21, 4: 0 0 30 30;\n\
         aa h 20 10 - 9,f 12,f => 10 20 9 over 1 0, 3: 0 0 9 9; 9 0 12 9;\n\
         aa h 20 10 - f,a => 00 20 10 over 0 0, 1: 0 0 20 10;\n\
         aa v 20 10 - f,a => 00 20 10 over 0 0, 1: 0 0 20 10;\n\
         aa v 19 10 - f,a => 01 17 10 over 0 2, 2: 0 0 17 12;\n\
         aa v 20 10 - 5,6 5,5 => 01 18 10 over 0 1, 2: 0 0 5 6; 0 6 5 5;\n\
         aa v 20 10 - left:25,30 f,f => 00 20 10 over 0 0, 1: 0 0 25 30; 25 0 0 10;\n\
         aa v 20 10 - 1:25,2 5,12 => 11 18 9 over 7 3, 4: 0 0 25 2; 0 0 5 12;\n\
         aa v 20 10 - 1:5,6 5,6 => 00 20 10 over 0 0, 1: 0 0 5 6; 0 0 5 6;\n\
         aa v 20 10 - left:5,f 16,5 => 10 20 9 over 1 0, 3: 0 0 5 9; 5 0 16 5;\n\
         aa v 20 10 - left:5,30 16,11 => 11 18 9 over 3 2, 4: 0 0 5 30; 5 0 16 11;",
        |given| answer(alloc, given),
    )
}

#[test]
fn hidden_and_scroll_axes_are_left_as_they_are(rt: HostRuntime) -> Result<(), Fail> {
    let alloc = rt.alloc();
    each_line(
        "ah v 20 10 - 21,10 => 10 20 9 over 1 1, 2: 0 0 21 10;\n\
         ah v 20 10 - 20,12 => 00 20 10 over 0 2, 1: 0 0 20 12;\n\
         ah v 20 10 - 30,12 => 10 20 9 over 10 3, 2: 0 0 30 12;\n\
         as v 20 10 - 18,10 => 01 18 10 over 0 0, 1: 0 0 18 10;\n\
         as v 20 10 - 19,10 => 11 18 9 over 1 1, 2: 0 0 19 10;\n\
         as v 20 10 - 30,30 => 11 18 9 over 12 21, 2: 0 0 30 30;\n\
         ha v 20 10 - 30,10 => 00 20 10 over 10 0, 1: 0 0 30 10;\n\
         ha v 20 10 - 30,11 => 01 18 10 over 12 1, 2: 0 0 30 11;\n\
         ha v 20 10 - f,a => 00 20 10 over 0 0, 1: 0 0 20 10;\n\
         hh v 20 10 - 30,30 => 00 20 10 over 10 20, 1: 0 0 30 30;\n\
         hs v 20 10 - 30,30 => 01 18 10 over 12 20, 1: 0 0 30 30;\n\
         hs v 20 10 - 1,1 => 01 18 10 over 0 0, 1: 0 0 1 1;\n\
         sa v 20 10 - 20,9 => 10 20 9 over 0 0, 1: 0 0 20 9;\n\
         sa v 20 10 - 20,10 => 11 18 9 over 2 1, 2: 0 0 20 10;\n\
         sh v 20 10 - 30,30 => 10 20 9 over 10 21, 1: 0 0 30 30;\n\
         sh v 20 10 - 1,1 => 10 20 9 over 0 0, 1: 0 0 1 1;\n\
         ss v 20 10 - 1,1 => 11 18 9 over 0 0, 1: 0 0 1 1;\n\
         ha v 20 10 - 1:25,2 5,12 => 01 18 10 over 7 2, 2: 0 0 25 2; 0 0 5 12;\n\
         as h 20 10 - 9,f 10,f => 11 18 9 over 1 0, 2: 0 0 9 9; 9 0 10 9;\n\
         ah h 20 10 - 9,12 11,f => 00 20 10 over 0 2, 1: 0 0 9 12; 9 0 11 10;\n\
         sa h 20 10 - f,a 5,f => 11 18 9 over 0 7, 2: 0 0 13 16; 13 0 5 9;\n\
         hs v 20 10 - left:30,f 1,1 => 01 18 10 over 1 0, 1: 0 0 30 10; 30 0 1 1;\n\
         ss v 20 10 - f,f => 11 18 9 over 0 0, 1: 0 0 18 9;",
        |given| answer(alloc, given),
    )
}

#[test]
fn small_areas_have_bars_too(rt: HostRuntime) -> Result<(), Fail> {
    let alloc = rt.alloc();
    each_line(
        "aa v 1 10 - 1,12 => 11 0 9 over 1 3, 4: 0 0 1 12;\n\
         aa v 1 10 - f,12 => 01 0 10 over 0 2, 2: 0 0 0 12;\n\
         ss v 1 10 - f,3 => 11 0 9 over 0 0, 1: 0 0 0 3;\n\
         aa v 20 1 - 21,1 => 11 18 0 over 3 1, 4: 0 0 21 1;\n\
         aa v 20 1 - f,2 => 01 18 1 over 0 1, 2: 0 0 18 2;\n\
         ss v 20 1 - f,2 => 11 18 0 over 0 2, 1: 0 0 18 2;\n\
         aa v 0 0 - 1,1 => 11 0 0 over 1 1, 4: 0 0 1 1;\n\
         aa v 0 0 - f,f => 00 0 0 over 0 0, 1: 0 0 0 0;\n\
         aa v 2 10 - f,12 => 01 0 10 over 0 2, 2: 0 0 0 12;\n\
         aa v 3 10 - 1,12 => 01 1 10 over 0 2, 2: 0 0 1 12;\n\
         as v 1 1 - f,f => 01 0 1 over 0 0, 1: 0 0 0 1;\n\
         sa v 1 1 - f,1 => 11 0 0 over 0 1, 2: 0 0 0 1;\n\
         hh v 0 0 - 3,4 => 00 0 0 over 3 4, 1: 0 0 3 4;\n\
         ss v 0 0 - 2,2 => 11 0 0 over 2 2, 1: 0 0 2 2;\n\
         ah v 1 1 - f,f => 00 1 1 over 0 0, 1: 0 0 1 1;\n\
         ha v 1 1 - f,2 => 01 0 1 over 0 1, 2: 0 0 0 2;\n\
         hs v 1 1 - 1,1 => 01 0 1 over 1 0, 1: 0 0 1 1;\n\
         sh v 1 1 - 1,1 => 10 1 0 over 0 1, 1: 0 0 1 1;\n\
         hh v 1 1 - 2,2 => 00 1 1 over 1 1, 1: 0 0 2 2;\n\
         ah v 0 0 - 1,1 => 10 0 0 over 1 1, 2: 0 0 1 1;\n\
         ha v 0 0 - 1,1 => 01 0 0 over 1 1, 2: 0 0 1 1;\n\
         as v 0 0 - f,f => 01 0 0 over 0 0, 1: 0 0 0 0;\n\
         sa v 0 0 - f,f => 10 0 0 over 0 0, 1: 0 0 0 0;\n\
         hs v 0 0 - f,f => 01 0 0 over 0 0, 1: 0 0 0 0;\n\
         sh v 0 0 - f,f => 10 0 0 over 0 0, 1: 0 0 0 0;",
        |given| answer(alloc, given),
    )
}

#[test]
fn grids_have_bars_too(rt: HostRuntime) -> Result<(), Fail> {
    let alloc = rt.alloc();
    each_line(
        "aa g 20 10 - f,f f,f => 00 20 10 over 0 0, 1: 0 0 9 4; 9 0 9 4;\n\
         aa g 17 4 - f,f => 11 15 3 over 3 1, 4: 0 0 9 4;\n\
         aa g 17 5 - f,f f,f => 10 17 4 over 1 0, 3: 0 0 9 4; 9 0 9 4;\n\
         aa g 20 3 - f,f => 01 18 3 over 0 1, 2: 0 0 9 4;\n\
         ah g 20 3 - f,f => 00 20 3 over 0 1, 1: 0 0 9 4;\n\
         ss g 20 10 - 3,a => 11 18 9 over 0 0, 1: 0 0 3 4;\n\
         aa g 18 4 - f,f => 00 18 4 over 0 0, 1: 0 0 9 4;\n\
         aa g 18 3 - f,f => 11 16 2 over 2 2, 4: 0 0 9 4;\n\
         ah g 18 3 - f,f => 00 18 3 over 0 1, 1: 0 0 9 4;\n\
         ah g 17 4 - f,f => 10 17 3 over 1 1, 2: 0 0 9 4;\n\
         as g 20 4 - f,f => 01 18 4 over 0 0, 1: 0 0 9 4;\n\
         as g 19 4 - f,f => 11 17 3 over 1 1, 2: 0 0 9 4;\n\
         ha g 17 4 - f,f => 00 17 4 over 1 0, 1: 0 0 9 4;\n\
         ha g 20 3 - f,f => 01 18 3 over 0 1, 2: 0 0 9 4;\n\
         sa g 18 5 - f,f => 10 18 4 over 0 0, 1: 0 0 9 4;\n\
         sa g 18 4 - f,f => 11 16 3 over 2 1, 2: 0 0 9 4;\n\
         sh g 18 4 - f,f => 10 18 3 over 0 1, 1: 0 0 9 4;\n\
         hs g 18 4 - f,f => 01 16 4 over 2 0, 1: 0 0 9 4;\n\
         hh g 17 3 - f,f => 00 17 3 over 1 1, 1: 0 0 9 4;\n\
         aa g 0 0 - f,f => 11 0 0 over 18 4, 4: 0 0 9 4;\n\
         ss g 1 1 - f,f => 11 0 0 over 18 4, 1: 0 0 9 4;",
        |given| answer(alloc, given),
    )
}

#[test]
fn a_refused_trial_ends_the_search(rt: HostRuntime) -> Result<(), Fail> {
    let alloc = rt.alloc();
    each_line(
        "aa v 20 10 20x10 a,a => refused width, 1\n\
         aa v 20 10 18x10 a,1 => refused width, 2\n\
         aa v 20 10 20x9 a,9 => refused width, 3\n\
         aa v 20 10 18x9 a,12 => refused width, 4\n\
         aa v 20 10 18x10 19,a => refused height, 2\n\
         aa v 30 5 28x5 f,a => refused height, 2\n\
         sa v 30 5 28x4 f,a => refused height, 2\n\
         as v 20 10 18x9 a,1 => refused width, 2\n\
         hs v 20 10 18x10 f,a => refused height, 1\n\
         ha v 30 5 28x5 f,a => refused height, 2",
        |given| answer(alloc, given),
    )
}

#[test]
fn a_container_asks_for_its_content(rt: HostRuntime) -> Result<(), Fail> {
    let alloc = rt.alloc();
    let measure = |_ask: Ask| -> Result<u32, LayoutFault>
        requires { ⊤ }
        ensures { ⊤ }
    { Ok(7) };
    let children = [child("f,12")?];
    let area = Size {
        width: 20,
        height: 10,
    };
    let grid = grid(alloc, 2, 9, 4)?;
    let vertical = kind("v");
    let wide = wide_of(alloc, vertical, &grid, &children, area, SCREEN, &measure)?;
    let tall = tall_of(
        alloc, vertical, &grid, &children, 20, area, SCREEN, &measure,
    )?;
    expect(wide == 20 && tall == 12, "20 and 12")
}

fn over_rows(style: BoxStyle, rows: u32) -> BoxStyle
    requires style { IsBoxStyle style }
    requires some { 1 ≤ rows }
    requires few { rows ≤ 100 }
    ensures { IsBoxStyle result }
{
    BoxStyle {
        row_span: rows,
        ..style
    }
}

// The same child so many times.
fn repeated(alloc: Global, style: BoxStyle, count: usize) -> Result<Vec<BoxStyle>, Fail>
    requires style { IsBoxStyle style }
    requires count { count ≤ 65536 }
    ensures styles { IfOk result (λ v. All IsBoxStyle v.items) }
    ensures count { IfOk result (λ v. length v.items ≤ 65536) }
{
    let _size: Scalar = style.width;
    let _limit: Option<Scalar> = None;
    Ok(vec![in alloc; style; count]?)
}

#[test]
fn a_number_tells_how_far_children_go_at_most(rt: HostRuntime) -> Result<(), Fail> {
    let alloc = rt.alloc();
    let measure = |_ask: Ask| -> Result<u32, LayoutFault>
        requires { ⊤ }
        ensures { ⊤ }
    { Ok(7) };
    let child = over_rows(with_sizes("f,f", None)?, 100);
    let children = repeated(alloc, child, 656)?;
    let grid = grid(alloc, 1, 9, 65_535)?;
    let content = Size {
        width: 20,
        height: 10,
    };
    let start = (AlignX::Left, AlignY::Top);
    let mut steps = Steps {
        ledger: Counted::default(),
    };
    let barred = bars(
        alloc,
        Overflow::Hidden,
        Overflow::Scroll,
        kind("g"),
        &grid,
        start,
        &children,
        content,
        SCREEN,
        &measure,
        &mut steps,
    )?;
    expect(
        barred.arrangement.over.height == u32::MAX,
        "65,600 rows of 65,535",
    )
}

#[test]
fn scrolls_are_kept_in_range(rt: HostRuntime) {
    let over = Size {
        width: 5,
        height: 3,
    };
    for (scroll, x, y, wanted) in [
        ((0, 0), Overflow::Auto, Overflow::Auto, (0, 0)),
        ((5, 3), Overflow::Auto, Overflow::Scroll, (5, 3)),
        ((6, 4), Overflow::Scroll, Overflow::Auto, (5, 3)),
        ((u32::MAX, 2), Overflow::Auto, Overflow::Auto, (5, 2)),
        ((4, 2), Overflow::Hidden, Overflow::Auto, (0, 2)),
        ((4, 2), Overflow::Scroll, Overflow::Hidden, (4, 0)),
        ((9, 9), Overflow::Hidden, Overflow::Hidden, (0, 0)),
    ] {
        assert_eq!(rt; clamp_scroll(scroll, over, x, y), wanted, "{scroll:?}");
    }
}

fn near_region(x: i32, y: i32, width: u32, height: u32) -> Region
    ensures { IsNearPlace (corner result) }
{
    Region {
        x: x as i64,
        y: y as i64,
        width,
        height,
    }
}

#[test]
fn clips_keep_the_cells_in_both(rt: HostRuntime) {
    let by = near_region(0, 0, 20, 10);
    for ((x, y, width, height), (left, top, columns, rows)) in [
        ((2, 3, 4, 5), (2, 3, 4, 5)),
        ((-2, -3, 40, 50), (0, 0, 20, 10)),
        ((-2, 8, 5, 5), (0, 8, 3, 2)),
        ((18, 9, 5, 5), (18, 9, 2, 1)),
        ((20, 0, 5, 5), (20, 0, 0, 0)),
        ((-5, 2, 5, 5), (-5, 2, 0, 0)),
        ((3, 10, 5, 5), (3, 10, 0, 0)),
        ((3, 3, 0, 5), (3, 3, 0, 0)),
        ((-5, 2_000_000_000, 3, 3), (-5, 2_000_000_000, 0, 0)),
        ((-7, -9, u32::MAX, u32::MAX), (0, 0, 20, 10)),
    ] {
        let wanted = near_region(left, top, columns, rows);
        let clipped = clip(near_region(x, y, width, height), by);
        assert_eq!(rt; clipped, wanted, "at {x} {y}");
    }
}
