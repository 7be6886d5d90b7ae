use crate::tests::{ink_text, marks_text, rgb_text, size_text};
use crate::{Inheritance, Ink, Property, Style, Value, all_properties, inheritance_of, read_value};
use std::alloc::{AllocError, Global};
use std::test::Fail;
use tx_expect::{each_line, expect};
use tx_frac::{Frac, Scalar, Unit};
use tx_geom::{Axis, Edge, Spacing};
use tx_lex::tokens;

// ---- styles

/// A style with what a declaration gives.
fn declared(alloc: Global, mut style: Style, declaration: &str) -> Result<Style, Fail> {
    if declaration.len() >= 10_000 {
        return Err(Fail::from("a long text"));
    }
    let (name, values) = declaration.split_once(":").ok_or("no values")?;
    let Ok(tokens) = tokens(alloc, values) else {
        return Err(Fail::from("no tokens"));
    };
    let Ok(pairs) = read_value(alloc, name, values, tokens.as_slice()) else {
        return Err(Fail::from("no values of the property"));
    };
    for (property, value) in pairs {
        style.set(property, value);
    }
    Ok(style)
}

/// The style that declarations with `;` between them make.
fn styled(alloc: Global, declarations: &str) -> Result<Style, Fail> {
    let mut style = Style::initial(alloc)?;
    for declaration in declarations.split(';') {
        style = declared(alloc, style, declaration)?;
    }
    Ok(style)
}

// ---- what styles say, as short texts

fn words_text(alloc: Global, declarations: &str) -> Result<String, Fail> {
    let style = styled(alloc, declarations)?;
    let shown = style.is_displayed();
    let seen = style.is_visible();
    let layout = style.layout();
    let dock = style.dock();
    let sizing = style.box_sizing();
    let x = style.overflow_x();
    let y = style.overflow_y();
    Ok(format!(in alloc; "{shown} {seen} {layout:?} {dock:?} {sizing:?} {x:?} {y:?}")?)
}

fn places_text(alloc: Global, declarations: &str) -> Result<String, Fail> {
    let style = styled(alloc, declarations)?;
    let (x, y) = style.align();
    let (across, down) = style.content_align();
    let text = style.text_align();
    Ok(format!(in alloc; "{x:?} {y:?} {across:?} {down:?} {text:?}")?)
}

fn limit_text(alloc: Global, limit: Option<Scalar>) -> Result<String, AllocError> {
    match limit {
        Some(size) => size_text(alloc, &size),
        None => Ok(format!(in alloc; "none")?),
    }
}

fn sizes_text(alloc: Global, declarations: &str) -> Result<String, Fail> {
    let style = styled(alloc, declarations)?;
    let width = size_text(alloc, &style.size(Axis::Width))?;
    let height = size_text(alloc, &style.size(Axis::Height))?;
    let least_width = limit_text(alloc, style.least(Axis::Width))?;
    let least_height = limit_text(alloc, style.least(Axis::Height))?;
    let most_width = limit_text(alloc, style.most(Axis::Width))?;
    let most_height = limit_text(alloc, style.most(Axis::Height))?;
    Ok(format!(in alloc;
        "{width} {height} {least_width} {least_height} {most_width} {most_height}"
    )?)
}

fn spacing_text(alloc: Global, sides: Spacing) -> Result<String, AllocError> {
    Ok(format!(in alloc;
        "{} {} {} {}",
        sides.top, sides.right, sides.bottom, sides.left
    )?)
}

fn sides_text(alloc: Global, declarations: &str) -> Result<String, Fail> {
    let style = styled(alloc, declarations)?;
    let margin = spacing_text(alloc, style.margin())?;
    let padding = spacing_text(alloc, style.padding())?;
    let gutter = spacing_text(alloc, style.gutter())?;
    Ok(format!(in alloc; "{margin}, {padding}, {gutter}")?)
}

fn border_text(alloc: Global, style: &Style, edge: Edge) -> Result<String, AllocError> {
    match style.border(edge) {
        Some(border) => {
            let ink = ink_text(alloc, &border.ink)?;
            Ok(format!(in alloc; "{:?} {ink}", border.kind)?)
        }
        None => Ok(format!(in alloc; "none")?),
    }
}

fn borders_text(alloc: Global, declarations: &str) -> Result<String, Fail> {
    let style = styled(alloc, declarations)?;
    let top = border_text(alloc, &style, Edge::Top)?;
    let right = border_text(alloc, &style, Edge::Right)?;
    let bottom = border_text(alloc, &style, Edge::Bottom)?;
    let left = border_text(alloc, &style, Edge::Left)?;
    Ok(format!(in alloc; "{top}, {right}, {bottom}, {left}")?)
}

fn colour_text(alloc: Global, ink: Ink, dark: bool) -> Result<String, AllocError> {
    let colour = ink.colour(dark);
    let rgb = rgb_text(alloc, colour.rgb)?;
    Ok(format!(in alloc; "{rgb}@{}", colour.alpha)?)
}

fn colours_text(alloc: Global, declarations: &str) -> Result<String, Fail> {
    let style = styled(alloc, declarations)?;
    let dark = colour_text(alloc, style.background(), true)?;
    let light = colour_text(alloc, style.background(), false)?;
    let written_dark = colour_text(alloc, style.color(), true)?;
    let written_light = colour_text(alloc, style.color(), false)?;
    let marks = marks_text(alloc, &style.text_style())?;
    Ok(format!(in alloc; "{dark} {light} {written_dark} {written_light} {marks}")?)
}

fn tracks_text(alloc: Global, tracks: &[Scalar]) -> Result<String, AllocError> {
    let mut shown = String::new(alloc);
    for size in tracks {
        let text = size_text(alloc, size)?;
        shown.push_str(text.as_str())?;
        shown.push_str(";")?;
    }
    Ok(shown)
}

fn grid_text(alloc: Global, declarations: &str) -> Result<String, Fail> {
    let style = styled(alloc, declarations)?;
    let (columns, rows) = style.grid_size();
    let across = tracks_text(alloc, style.column_tracks())?;
    let down = tracks_text(alloc, style.row_tracks())?;
    let (vertical, horizontal) = style.grid_gutter();
    let column_span = style.column_span();
    let row_span = style.row_span();
    Ok(format!(in alloc;
        "{columns} {rows:?} [{across}] [{down}] {vertical} {horizontal} {column_span} {row_span}"
    )?)
}

fn layers_text(alloc: Global, declarations: &str) -> Result<String, Fail> {
    let style = styled(alloc, declarations)?;
    let mut shown = String::new(alloc);
    for name in style.layers() {
        shown.push_str(name.as_str())?;
        shown.push_str(";")?;
    }
    let layer = match style.layer() {
        Some(name) => name.as_str(),
        None => "none",
    };
    let at = style.offset();
    Ok(format!(in alloc; "[{shown}] {layer} {} {}", at.x, at.y)?)
}

// ---- each read

#[test]
fn styles_say_keywords(rt: HostRuntime) -> Result<(), Fail> {
    let alloc = rt.alloc();
    each_line(
        "\
display:initial => true true Vertical None BorderBox Hidden Hidden\n\
display:none;visibility:hidden;layout:grid;dock:bottom => false false Grid Some(Bottom) BorderBox Hidden Hidden\n\
layout:horizontal;dock:top;box-sizing:content-box;overflow:auto scroll => true true Horizontal Some(Top) ContentBox Auto Scroll\n\
visibility:visible;dock:left;overflow-x:scroll => true true Vertical Some(Left) BorderBox Scroll Hidden\n\
display:block;dock:right;overflow-y:auto => true true Vertical Some(Right) BorderBox Hidden Auto",
        |declarations| words_text(alloc, declarations),
    )
}

#[test]
fn styles_say_places(rt: HostRuntime) -> Result<(), Fail> {
    let alloc = rt.alloc();
    each_line(
        "\
align:initial => Left Top Left Top Left\n\
align:center bottom;content-align:right middle;text-align:center => Center Bottom Right Middle Center\n\
align-horizontal:right;align-vertical:middle;text-align:right => Right Middle Left Top Right\n\
content-align-horizontal:center;content-align-vertical:bottom => Left Top Center Bottom Left",
        |declarations| places_text(alloc, declarations),
    )
}

#[test]
fn styles_say_sizes(rt: HostRuntime) -> Result<(), Fail> {
    let alloc = rt.alloc();
    each_line(
        "\
width:initial => 100000Percent 100000Percent none none none none\n\
width:auto;height:1.5fr;min-width:1;min-height:2h;max-width:3vw;max-height:4% => 0Auto 1500Fr 1000Cells 2000H 3000Vw 4000Percent",
        |declarations| sizes_text(alloc, declarations),
    )
}

#[test]
fn styles_say_sides(rt: HostRuntime) -> Result<(), Fail> {
    let alloc = rt.alloc();
    each_line(
        "\
margin:initial => 0 0 0 0, 0 0 0 0, 0 0 0 0\n\
margin:1 2 3 4;padding:5 6 7 9999;border:solid => 1 2 3 4, 5 6 7 9999, 6 7 8 10000\n\
margin-right:7;padding-bottom:8;border-left:heavy => 0 7 0 0, 0 0 8 0, 0 0 8 1",
        |declarations| sides_text(alloc, declarations),
    )
}

#[test]
fn styles_say_borders(rt: HostRuntime) -> Result<(), Fail> {
    let alloc = rt.alloc();
    each_line(
        "\
border:initial => none, none, none, none\n\
border:double red 50%;border-top:blank;border-left:none => Blank 00ff00@100, Double ff0000@50, Double ff0000@50, none\n\
border-right:ascii;border-bottom:round $panel => none, Ascii 00ff00@100, Round Panel@100, none",
        |declarations| borders_text(alloc, declarations),
    )
}

#[test]
fn styles_say_colours(rt: HostRuntime) -> Result<(), Fail> {
    let alloc = rt.alloc();
    each_line(
        "\
color:initial => 000000@0 000000@0 e0e0e0@100 1f1f1f@100 ------\n\
background:$panel 40%;color:#123456;text-style:bold strike => 242f38@40 d0d0d0@40 123456@100 123456@100 b----s",
        |declarations| colours_text(alloc, declarations),
    )
}

#[test]
fn styles_say_grids(rt: HostRuntime) -> Result<(), Fail> {
    let alloc = rt.alloc();
    each_line(
        "\
grid-size:initial => 1 None [] [] 0 0 1 1\n\
grid-size:3 4;grid-columns:1fr 20;grid-rows:5;grid-gutter:1 2;column-span:7;row-span:8 => 3 Some(4) [1000Fr;20000Cells;] [5000Cells;] 1 2 7 8",
        |declarations| grid_text(alloc, declarations),
    )
}

#[test]
fn styles_say_layers(rt: HostRuntime) -> Result<(), Fail> {
    let alloc = rt.alloc();
    each_line(
        "\
layer:initial => [] none 0 0\n\
layers:low top;layer:top;offset:-3 4 => [low;top;] top -3 4",
        |declarations| layers_text(alloc, declarations),
    )
}

fn below_zero() -> Scalar {
    Scalar {
        value: Frac::whole(-1),
        unit: Unit::Cells,
    }
}

/// Values that the table of properties doesn't give them say what the initial ones say.
#[test]
fn other_values_say_the_initial_ones(rt: HostRuntime) -> Result<(), Fail> {
    let alloc = rt.alloc();
    let mut style = Style::initial(alloc)?;
    style.set(Property::Width, Value::Size(below_zero()));
    style.set(Property::MinWidth, Value::Size(below_zero()));
    style.set(Property::MarginTop, Value::Whole(10_000));
    style.set(Property::ColumnSpan, Value::Whole(101));
    style.set(Property::Offset, Value::Pair(10_000, 0));
    style.set(Property::GridGutter, Value::Pair(-1, 0));
    style.set(Property::Color, Value::Whole(3));
    expect(style.size(Axis::Width).unit == Unit::Percent, "a size")?;
    expect(style.least(Axis::Width).is_none(), "a smallest size")?;
    expect(style.margin().top == 0, "a margin")?;
    expect(style.column_span() == 1, "a span")?;
    expect(style.offset().x == 0, "an offset")?;
    expect(style.grid_gutter().0 == 0, "a gutter")?;
    expect(style.color().colour(true).rgb.r == 0xe0, "a colour")
}

// ---- inheritance

fn inherited_text(alloc: Global, name: &str) -> Result<String, Fail> {
    let mut shown = String::new(alloc);
    for property in all_properties() {
        let inheritance = inheritance_of(*property);
        if inheritance != Inheritance::NotInherited {
            let text = format!(in alloc; "{property:?} {inheritance:?};")?;
            shown.push_str(text.as_str())?;
        }
    }
    expect(name == "all", "all properties")?;
    Ok(shown)
}

#[test]
fn three_properties_are_inherited(rt: HostRuntime) -> Result<(), Fail> {
    let alloc = rt.alloc();
    each_line(
        "all => Visibility Inherited;Color Inherited;TextStyle Added;",
        |name| inherited_text(alloc, name),
    )
}
