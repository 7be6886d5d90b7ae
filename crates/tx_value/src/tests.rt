use crate::property::EVERY_PROPERTY;
use crate::{
    Ink, Property, Style, ThemeName, Value, ValueFault, Word, initial, knows, read_value,
    theme_colour, theme_name_of, values_of,
};
use std::alloc::{AllocError, Global};
use std::mem::size_of;
use std::test::Fail;
use tx_expect::{each_line, expect};
use tx_frac::{Frac, Scalar};
use tx_geom::{Rgb, TextStyle};
use tx_lex::tokens;

// ---- values as short texts

/// A size in thousandths.
pub fn size_text(alloc: Global, size: &Scalar) -> Result<String, AllocError> {
    let thousandths = match size.value.mul(Frac::whole(1000)) {
        Some(value) => value.floor(),
        None => -1,
    };
    Ok(format!(in alloc; "{thousandths}{:?}", size.unit)?)
}

pub fn rgb_text(alloc: Global, rgb: Rgb) -> Result<String, AllocError> {
    Ok(format!(in alloc; "{:02x}{:02x}{:02x}", rgb.r, rgb.g, rgb.b)?)
}

pub fn ink_text(alloc: Global, ink: &Ink) -> Result<String, AllocError> {
    match ink {
        Ink::Fixed(colour) => {
            let rgb = rgb_text(alloc, colour.rgb)?;
            Ok(format!(in alloc; "{rgb}@{}", colour.alpha)?)
        }
        Ink::Theme { name, alpha } => Ok(format!(in alloc; "{name:?}@{alpha}")?),
    }
}

fn mark_text(on: bool, letter: &'static str) -> &'static str {
    if on { letter } else { "-" }
}

pub fn marks_text(alloc: Global, marks: &TextStyle) -> Result<String, AllocError> {
    let mut shown = String::new(alloc);
    shown.push_str(mark_text(marks.bold, "b"))?;
    shown.push_str(mark_text(marks.dim, "d"))?;
    shown.push_str(mark_text(marks.italic, "i"))?;
    shown.push_str(mark_text(marks.underline, "u"))?;
    shown.push_str(mark_text(marks.reverse, "r"))?;
    shown.push_str(mark_text(marks.strike, "s"))?;
    Ok(shown)
}

fn list_text(alloc: Global, value: &Value) -> Result<String, AllocError> {
    let mut shown = String::new(alloc);
    match value {
        Value::Sizes(sizes) => {
            for size in sizes.as_slice() {
                let text = size_text(alloc, size)?;
                shown.push_str(text.as_str())?;
                shown.push_str(";")?;
            }
        }
        Value::Names(names) => {
            for name in names.as_slice() {
                shown.push_str(name.as_str())?;
                shown.push_str(";")?;
            }
        }
        _ => {}
    }
    Ok(shown)
}

fn value_text(alloc: Global, value: &Value) -> Result<String, AllocError> {
    match value {
        Value::Word(word) => Ok(format!(in alloc; "{word:?}")?),
        Value::Size(size) => size_text(alloc, size),
        Value::Whole(number) => Ok(format!(in alloc; "{number}")?),
        Value::Pair(first, second) => Ok(format!(in alloc; "{first}/{second}")?),
        Value::GridSize { columns, rows } => Ok(format!(in alloc; "{columns}x{rows:?}")?),
        Value::Sizes(_) | Value::Names(_) => list_text(alloc, value),
        Value::Layer(name) => Ok(format!(in alloc; "{}", name.as_str())?),
        Value::Border { kind, ink: None } => Ok(format!(in alloc; "{kind:?}")?),
        Value::Border {
            kind,
            ink: Some(ink),
        } => {
            let ink = ink_text(alloc, ink)?;
            Ok(format!(in alloc; "{kind:?} {ink}")?)
        }
        Value::Ink(ink) => ink_text(alloc, ink),
        Value::Marks(marks) => marks_text(alloc, marks),
        Value::Initial => Ok(format!(in alloc; "initial")?),
    }
}

fn pairs_text(alloc: Global, pairs: &[(Property, Value)]) -> Result<String, AllocError> {
    let mut shown = String::new(alloc);
    for pair in pairs {
        let value = value_text(alloc, &pair.1)?;
        let text = format!(in alloc; "{:?}={value}", pair.0)?;
        if !shown.is_empty() {
            shown.push_str(" ")?;
        }
        shown.push_str(text.as_str())?;
    }
    Ok(shown)
}

/// What is read of a name and values with a `:` between them.
pub fn answer(alloc: Global, declaration: &str) -> Result<String, Fail> {
    if declaration.len() >= 10_000 {
        return Err(Fail::from("a long text"));
    }
    let (name, values) = declaration.split_once(":").ok_or("no values")?;
    let Ok(tokens) = tokens(alloc, values) else {
        return Err(Fail::from("no tokens"));
    };
    match read_value(alloc, name, values, tokens.as_slice()) {
        Ok(pairs) => Ok(pairs_text(alloc, pairs.as_slice())?),
        Err(ValueFault::BadValue) => Ok(format!(in alloc; "bad")?),
        Err(ValueFault::UnknownProperty) => Ok(format!(in alloc; "unknown")?),
        Err(ValueFault::NoMemory) => Err(Fail::from("no memory")),
    }
}

// ---- each property

#[test]
fn keywords_are_read(rt: HostRuntime) -> Result<(), Fail> {
    let alloc = rt.alloc();
    each_line(
        "\
display: block => Display=Block\n\
display: /* none */ none  => Display=Nothing\n\
display: Block => bad\n\
display: block none => bad\n\
display: => bad\n\
display: visible => bad\n\
visibility: visible => Visibility=Visible\n\
visibility: hidden => Visibility=Hidden\n\
visibility: none => bad\n\
layout: vertical => Layout=Vertical\n\
layout: horizontal => Layout=Horizontal\n\
layout: grid => Layout=Grid\n\
layout: dock => bad\n\
dock: top => Dock=Top\n\
dock: right => Dock=Right\n\
dock: bottom => Dock=Bottom\n\
dock: left => Dock=Left\n\
dock: none => Dock=Nothing\n\
dock: center => bad\n\
box-sizing: border-box => BoxSizing=BorderBox\n\
box-sizing: content-box => BoxSizing=ContentBox\n\
box-sizing: auto => bad\n\
overflow-x: auto => OverflowX=Auto\n\
overflow-x: scroll => OverflowX=Scroll\n\
overflow-x: visible => bad\n\
overflow-y: auto => OverflowY=Auto\n\
overflow-y: hidden => OverflowY=Hidden\n\
overflow-y: auto auto => bad\n\
align-horizontal: left => AlignHorizontal=Left\n\
align-horizontal: center => AlignHorizontal=Center\n\
align-horizontal: right => AlignHorizontal=Right\n\
align-horizontal: middle => bad\n\
align-vertical: top => AlignVertical=Top\n\
align-vertical: middle => AlignVertical=Middle\n\
align-vertical: bottom => AlignVertical=Bottom\n\
align-vertical: center => bad\n\
content-align-horizontal: right => ContentAlignHorizontal=Right\n\
content-align-horizontal: top => bad\n\
content-align-vertical: bottom => ContentAlignVertical=Bottom\n\
content-align-vertical: left => bad\n\
text-align: left => TextAlign=Left\n\
text-align: justify => bad",
        |declaration| answer(alloc, declaration),
    )
}

#[test]
fn numbers_are_read(rt: HostRuntime) -> Result<(), Fail> {
    let alloc = rt.alloc();
    each_line(
        "\
width: 12.5 => Width=12500Cells\n\
width: .25fr => Width=250Fr\n\
width: auto => Width=0Auto\n\
width: -1 => bad\n\
width: 1px => bad\n\
width: none => bad\n\
height: 50% => Height=50000Percent\n\
height: 3W => bad\n\
min-width: 7w => MinWidth=7000W\n\
min-width: none => MinWidth=Nothing\n\
min-width: auto => bad\n\
max-width: 7h => MaxWidth=7000H\n\
max-width: 1fr => bad\n\
min-height: 7vw => MinHeight=7000Vw\n\
min-height: none none => bad\n\
max-height: 000000001.50vh => MaxHeight=1500Vh\n\
max-height: 1vq => bad\n\
margin-top: 9999 => MarginTop=9999\n\
margin-top: -1 => bad\n\
margin-right: 1 => MarginRight=1\n\
margin-right: 10000 => bad\n\
margin-bottom: 2 => MarginBottom=2\n\
margin-bottom: 1.0 => bad\n\
margin-left: 3 => MarginLeft=3\n\
margin-left: 1% => bad\n\
padding-top: 0 => PaddingTop=0\n\
padding-top: auto => bad\n\
padding-right: 4 => PaddingRight=4\n\
padding-right: -1 => bad\n\
padding-bottom: 007 => PaddingBottom=7\n\
padding-bottom: 1h => bad\n\
padding-left: 6 => PaddingLeft=6\n\
padding-left: 1 2 => bad\n\
column-span: 100 => ColumnSpan=100\n\
column-span: 101 => bad\n\
row-span: 1 => RowSpan=1\n\
row-span: 0 => bad\n\
grid-size: 100 => GridSize=100xNone\n\
grid-size: 3 1000 => GridSize=3xSome(1000)\n\
grid-size: 3 1001 => bad\n\
grid-size: 0 => bad\n\
grid-size: 1 0 => bad\n\
grid-size: 1 2 3 => bad\n\
grid-gutter: 3 => GridGutter=3/3\n\
grid-gutter: 1 2 => GridGutter=1/2\n\
grid-gutter: -1 => bad\n\
grid-gutter: 1 2 3 => bad\n\
offset: -9999 9999 => Offset=-9999/9999\n\
offset: -0 3 => Offset=0/3\n\
offset: 1 => bad\n\
offset: -10000 0 => bad\n\
grid-columns: 1fr 20 .5fr => GridColumns=1000Fr;20000Cells;500Fr;\n\
grid-columns: auto => bad\n\
grid-rows: 10% => GridRows=10000Percent;\n\
grid-rows: 1 -1 => bad",
        |declaration| answer(alloc, declaration),
    )
}

#[test]
fn names_and_marks_are_read(rt: HostRuntime) -> Result<(), Fail> {
    let alloc = rt.alloc();
    each_line(
        "\
text-style: none => TextStyle=------\n\
text-style: bold => TextStyle=b-----\n\
text-style: strike bold bold => TextStyle=b----s\n\
text-style: dim italic underline reverse => TextStyle=-diur-\n\
text-style: none bold => bad\n\
text-style: bold none => bad\n\
text-style: blink => bad\n\
layers: base top base => Layers=base;top;base;\n\
layers: none => Layers=none;\n\
layers: initial a => Layers=initial;a;\n\
layers: a, b => bad\n\
layers: => bad\n\
layer: top => Layer=top\n\
layer: none => Layer=none\n\
layer: a b => bad\n\
layer: 1 => bad\n\
layer: $text => bad",
        |declaration| answer(alloc, declaration),
    )
}

#[test]
fn colours_are_read(rt: HostRuntime) -> Result<(), Fail> {
    let alloc = rt.alloc();
    each_line(
        "\
color: #0aF => Color=00aaff@100\n\
color: #12AbeF 7% => Color=12abef@7\n\
color: rgb(1, 20, 255) => Color=0114ff@100\n\
color: rgb/**/( 1,2 ,3 ) 0% => Color=010203@0\n\
color: rgb(1,2,256) => bad\n\
color: rgb(1,2) => bad\n\
color: rgb(1 2 3) => bad\n\
color: rgb(1,2,3 => bad\n\
color: Red => bad\n\
color: red 101% => bad\n\
color: red -1% => bad\n\
color: red 50 => bad\n\
color: red 5.0% => bad\n\
color: 50% red => bad\n\
color: #12 => bad\n\
color: #12345g => bad\n\
color: #1234 => bad\n\
background: => bad\n\
background: transparent => Background=000000@0\n\
background: transparent 50% => bad\n\
background: $primary => Background=Primary@100\n\
background: $primary 60% => Background=Primary@60\n\
background: $other => bad\n\
background: black => Background=000000@100\n\
background: white 100% => Background=ffffff@100\n\
background: red => Background=ff0000@100\n\
background: green => Background=008000@100\n\
background: blue => Background=0000ff@100\n\
background: yellow => Background=ffff00@100\n\
background: cyan => Background=00ffff@100\n\
background: magenta => Background=ff00ff@100\n\
background: gray => Background=808080@100\n\
background: grey => Background=808080@100\n\
background: silver => Background=c0c0c0@100\n\
background: maroon => Background=800000@100\n\
background: navy => Background=000080@100\n\
background: teal => Background=008080@100\n\
background: olive => Background=808000@100\n\
background: purple => Background=800080@100\n\
background: lime => Background=00ff00@100\n\
background: orange => Background=ffa500@100",
        |declaration| answer(alloc, declaration),
    )
}

#[test]
fn borders_are_read(rt: HostRuntime) -> Result<(), Fail> {
    let alloc = rt.alloc();
    each_line(
        "\
border-top: round => BorderTop=Round\n\
border-right: solid $panel => BorderRight=Solid Panel@100\n\
border-bottom: heavy #fff 50% => BorderBottom=Heavy ffffff@50\n\
border-left: none => BorderLeft=Nothing\n\
border-left: none red => BorderLeft=Nothing\n\
border-top: red => bad\n\
border-top: red solid => bad\n\
border-left: heavy => BorderLeft=Heavy\n\
border-right: blank ascii => bad\n\
border-bottom: dashed => bad\n\
border-left: none none => bad\n\
border: double rgb(1,2,3) => BorderTop=Double 010203@100 BorderRight=Double 010203@100 BorderBottom=Double 010203@100 BorderLeft=Double 010203@100\n\
border: ascii => BorderTop=Ascii BorderRight=Ascii BorderBottom=Ascii BorderLeft=Ascii\n\
border: blank => BorderTop=Blank BorderRight=Blank BorderBottom=Blank BorderLeft=Blank\n\
border: red => bad",
        |declaration| answer(alloc, declaration),
    )
}

#[test]
fn names_for_several_are_read(rt: HostRuntime) -> Result<(), Fail> {
    let alloc = rt.alloc();
    each_line(
        "\
margin: 1 => MarginTop=1 MarginRight=1 MarginBottom=1 MarginLeft=1\n\
margin: 1 2 => MarginTop=1 MarginRight=2 MarginBottom=1 MarginLeft=2\n\
margin: 1 2 3 => bad\n\
margin: 1 2 3 4 => MarginTop=1 MarginRight=2 MarginBottom=3 MarginLeft=4\n\
margin: 1 2 3 4 5 => bad\n\
margin: initial 1 => bad\n\
margin: initial => MarginTop=initial MarginRight=initial MarginBottom=initial MarginLeft=initial\n\
padding: 0 9999 => PaddingTop=0 PaddingRight=9999 PaddingBottom=0 PaddingLeft=9999\n\
padding: -1 => bad\n\
overflow: auto => OverflowX=Auto OverflowY=Auto\n\
overflow: hidden auto => OverflowX=Hidden OverflowY=Auto\n\
overflow: auto auto auto => bad\n\
align: center middle => AlignHorizontal=Center AlignVertical=Middle\n\
align: middle center => bad\n\
align: center => bad\n\
content-align: right top => ContentAlignHorizontal=Right ContentAlignVertical=Top\n\
content-align: top => bad\n\
align: /**/ initial  => AlignHorizontal=initial AlignVertical=initial\n\
color: initial => Color=initial\n\
color: initial 50% => bad\n\
colour: red => unknown\n\
Color:red => unknown\n\
: red => unknown\n\
content-align-horizontal-x: left => unknown",
        |declaration| answer(alloc, declaration),
    )
}

// ---- limits

/// Whether a name takes a text so many times.
fn takes(alloc: Global, name: &str, text: &str, count: usize) -> Result<bool, Fail> {
    let values = text.repeat(alloc, count)?;
    let declaration = format!(in alloc; "{name}:{}", values.as_str())?;
    let shown = answer(alloc, declaration.as_str())?;
    Ok(shown.as_str() != "bad")
}

#[test]
fn lists_have_limits(rt: HostRuntime) -> Result<(), Fail> {
    let alloc = rt.alloc();
    expect(takes(alloc, "grid-columns", "1fr ", 60)?, "60 columns")?;
    expect(!takes(alloc, "grid-columns", "1fr ", 61)?, "61 columns")?;
    expect(takes(alloc, "grid-rows", "1 ", 60)?, "60 rows")?;
    expect(!takes(alloc, "grid-rows", "1 ", 61)?, "61 rows")?;
    expect(takes(alloc, "layers", "a ", 32)?, "32 layers")?;
    expect(!takes(alloc, "layers", "a ", 33)?, "33 layers")?;
    expect(takes(alloc, "layer", "a", 64)?, "a name of 64 bytes")?;
    expect(!takes(alloc, "layer", "a", 65)?, "a name of 65 bytes")?;
    expect(takes(alloc, "text-style", "bold ", 1000)?, "1,000 marks")
}

// ---- names and themes

#[test]
fn names_are_known(rt: HostRuntime) -> Result<(), Fail> {
    expect(knows(b"margin"), "margin")?;
    expect(knows(b"content-align-vertical"), "a long name")?;
    expect(!knows(b"margins"), "margins")?;
    let found = values_of(rt.alloc(), b"\xff", b"\xfe", &[]);
    expect(
        found.err() == Some(ValueFault::UnknownProperty),
        "a name that isn't UTF-8",
    )
}

/// The colours of a variable in the dark theme and in the light one.
fn tones(alloc: Global, name: &str) -> Result<String, Fail> {
    let name = theme_name_of(name.as_bytes()).ok_or("no name")?;
    let dark = rgb_text(alloc, theme_colour(name, true))?;
    let light = rgb_text(alloc, theme_colour(name, false))?;
    Ok(format!(in alloc; "{dark} {light}")?)
}

#[test]
fn themes_have_colours(rt: HostRuntime) -> Result<(), Fail> {
    let alloc = rt.alloc();
    expect(theme_name_of(b"Text").is_none(), "a capital letter")?;
    each_line(
        "\
background => 121212 e0e0e0\n\
surface => 1e1e1e d8d8d8\n\
panel => 242f38 d0d0d0\n\
primary => 0178d4 004578\n\
secondary => 004578 0178d4\n\
foreground => e0e0e0 1f1f1f\n\
text => ffffff 000000\n\
error => ba3c5b ba3c5b\n\
success => 4ebf71 2e7f41\n\
warning => ffa62b 9f6000",
        |name| tones(alloc, name),
    )
}

// ---- styles

fn style_text(alloc: Global, style: &Style, property: Property) -> Result<String, AllocError> {
    value_text(alloc, style.get(property))
}

/// The initial value of a property, and the one that a new style has for it.
fn initial_text(alloc: Global, name: &str) -> Result<String, Fail> {
    for property in EVERY_PROPERTY {
        let text = format!(in alloc; "{property:?}")?;
        if text.as_str() == name {
            let shown = value_text(alloc, &initial(alloc, property))?;
            let in_style = style_text(alloc, &Style::initial(alloc)?, property)?;
            expect(
                shown.as_str() == in_style.as_str(),
                "another value in a style",
            )?;
            return Ok(shown);
        }
    }
    Err(Fail::from("no property"))
}

#[test]
fn styles_begin_with_initial_values(rt: HostRuntime) -> Result<(), Fail> {
    let alloc = rt.alloc();
    each_line(
        "\
Display => Block\n\
Visibility => Visible\n\
Layout => Vertical\n\
Dock => Nothing\n\
Width => 100000Percent\n\
Height => 100000Percent\n\
MinWidth => Nothing\n\
MaxWidth => Nothing\n\
MinHeight => Nothing\n\
MaxHeight => Nothing\n\
BoxSizing => BorderBox\n\
MarginTop => 0\n\
MarginRight => 0\n\
MarginBottom => 0\n\
MarginLeft => 0\n\
PaddingTop => 0\n\
PaddingRight => 0\n\
PaddingBottom => 0\n\
PaddingLeft => 0\n\
BorderTop => Nothing\n\
BorderRight => Nothing\n\
BorderBottom => Nothing\n\
BorderLeft => Nothing\n\
Background => 000000@0\n\
Color => Foreground@100\n\
TextStyle => ------\n\
GridSize => 1xNone\n\
GridColumns => \n\
GridRows => \n\
GridGutter => 0/0\n\
ColumnSpan => 1\n\
RowSpan => 1\n\
Layers => Nothing\n\
Layer => Nothing\n\
OverflowX => Hidden\n\
OverflowY => Hidden\n\
Offset => 0/0\n\
AlignHorizontal => Left\n\
AlignVertical => Top\n\
ContentAlignHorizontal => Left\n\
ContentAlignVertical => Top\n\
TextAlign => Left",
        |name| initial_text(alloc, name),
    )
}

#[test]
fn styles_are_set_and_copied(rt: HostRuntime) -> Result<(), Fail> {
    let alloc = rt.alloc();
    let mut style = Style::initial(alloc)?;
    style.set(Property::MarginTop, Value::Whole(3));
    let copy = style.copy()?;
    style.set(Property::MarginTop, Value::Initial);
    style.set(Property::Color, Value::Word(Word::Nothing));
    let kept = style_text(alloc, &copy, Property::MarginTop)?;
    expect(kept.as_str() == "3", "the copy")?;
    let new = style_text(alloc, &style, Property::MarginTop)?;
    expect(new.as_str() == "initial", "the new value")?;
    let beside = style_text(alloc, &style, Property::MarginRight)?;
    expect(beside.as_str() == "0", "the value beside it")
}

#[test]
fn styles_have_a_size(_rt: HostRuntime) -> Result<(), Fail> {
    expect(size_of::<Value>() == 80, "a value")?;
    expect(size_of::<Style>() == 24, "a style beside its values")
}
