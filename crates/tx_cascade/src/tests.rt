mod restyled;
mod restyled_rows;
mod restyled_states;

use crate::styles::styles_of;
use crate::{Styles, style_of};
use std::alloc::Global;
use std::rt::HostRuntime;
use std::test::Fail;
use tx_expect::{each_line, expect};
use tx_geom::TextStyle;
use tx_io::{Counted, Steps};
use tx_parse::{Sheet, read_sheet};
use tx_select::Pseudo;
use tx_text::{Name, Names, Text};
use tx_tree::{Kind, NewRow, NodeId, Tree};
use tx_value::{Ink, Property, Style, Value};

/// The Container with the number 3 has the focus.
const STILL: Pseudo = Pseudo {
    focused: Some(NodeId(3)),
    pointed: None,
    dark: true,
};

fn ink_text(alloc: Global, ink: &Ink) -> Result<String, Fail> {
    match ink {
        Ink::Fixed(colour) => {
            let rgb = colour.rgb;
            Ok(format!(in alloc; "#{:02x}{:02x}{:02x}", rgb.r, rgb.g, rgb.b)?)
        }
        Ink::Theme { name, alpha: _ } => Ok(format!(in alloc; "{name:?}")?),
    }
}

fn mark_text(on: bool, letter: &'static str) -> &'static str {
    if on { letter } else { "" }
}

fn marks_text(alloc: Global, marks: &TextStyle) -> Result<String, Fail> {
    let bold = mark_text(marks.bold, "b");
    let dim = mark_text(marks.dim, "d");
    let italic = mark_text(marks.italic, "i");
    let reverse = mark_text(marks.reverse, "r");
    Ok(format!(in alloc; "marks {bold}{dim}{italic}{reverse}")?)
}

fn value_text(alloc: Global, value: &Value) -> Result<String, Fail> {
    match value {
        Value::Word(word) => Ok(format!(in alloc; "{word:?}")?),
        Value::Size(size) => {
            let number = size.value.floor();
            Ok(format!(in alloc; "{number}{:?}", size.unit)?)
        }
        Value::Whole(number) => Ok(format!(in alloc; "{number}")?),
        Value::Ink(ink) => ink_text(alloc, ink),
        Value::Marks(marks) => marks_text(alloc, marks),
        _ => Ok(format!(in alloc; "other")?),
    }
}

fn property_of(name: &str) -> Result<Property, Fail> {
    match name {
        "color" => Ok(Property::Color),
        "background" => Ok(Property::Background),
        "visibility" => Ok(Property::Visibility),
        "text-style" => Ok(Property::TextStyle),
        "width" => Ok(Property::Width),
        "height" => Ok(Property::Height),
        "margin-top" => Ok(Property::MarginTop),
        "margin-left" => Ok(Property::MarginLeft),
        "min-width" => Ok(Property::MinWidth),
        _ => Err(Fail::from("a property")),
    }
}

/// A row of a kind with an id and up to three classes.
fn row_of(alloc: Global, kind: Kind, id: &str, classes: &str) -> Result<NewRow, Fail> {
    let mut row = NewRow::of(alloc, kind);
    row.id = Name::of(id);
    let mut names = Vec::new(alloc);
    for class in classes.split(' ') {
        if let Some(name) = Name::of(class) {
            names.push(name)?;
        }
    }
    row.classes = Names::of(names);
    Ok(row)
}

/// A Screen, 1, in it a Container `#p` of the class `pane`, 2, in it a Container `#q`, 3, and in it
/// a Static `#a` of the classes `b`, `c` and `d` with this inline text, 4.
fn planted(alloc: Global, inline: &str) -> Result<Tree, Fail> {
    let mut tree = Tree::of_screen(alloc, NewRow::of(alloc, Kind::Screen))?;
    let pane = row_of(alloc, Kind::Container, "p", "pane")?;
    tree.mount(NodeId(1), pane)?;
    let below = row_of(alloc, Kind::Container, "q", "")?;
    tree.mount(NodeId(2), below)?;
    let mut leaf = row_of(alloc, Kind::Static, "a", "b c d")?;
    leaf.inline = Text::of(alloc, inline)?;
    tree.mount(NodeId(3), leaf)?;
    Ok(tree)
}

fn sheet_of(alloc: Global, text: &str) -> Result<Sheet, Fail> {
    if text.len() >= 10_000 {
        return Err(Fail::from("a long sheet"));
    }
    match read_sheet(alloc, text.as_bytes()) {
        Ok(sheet) => Ok(sheet),
        Err(_) => Err(Fail::from("a sheet")),
    }
}

fn style_at(alloc: Global, sheet: &Sheet, tree: &Tree, node: NodeId) -> Result<Style, Fail> {
    let mut steps = Steps {
        ledger: Counted::default(),
    };
    if tree.row(node).is_none() {
        return Err(Fail::from("a row"));
    }
    let style = style_of(alloc, sheet, tree, &STILL, node, &mut steps)?;
    Ok(style)
}

/// The value of a property at a row: `NUMBER PROPERTY @ SHEET @ INLINE`.
fn answer(alloc: Global, line: &str) -> Result<String, Fail> {
    let (asked, rest) = line.split_once(" @ ").ok_or("a place")?;
    let (sheet, inline) = rest.split_once(" @ ").ok_or("a sheet")?;
    let (number, name) = asked.split_once(' ').ok_or("a number")?;
    let number = number.parse::<u32>().ok().ok_or("a number")?;
    let sheet = sheet_of(alloc, sheet)?;
    let tree = planted(alloc, inline)?;
    let style = style_at(alloc, &sheet, &tree, NodeId(number))?;
    let property = property_of(name)?;
    value_text(alloc, style.get(property))
}

#[test]
fn parts_of_the_key(rt: HostRuntime) -> Result<(), Fail> {
    let alloc = rt.alloc();
    each_line(
        "\
4 color @ Static { color: red !important; } #a { color: green; } .b.c.d { color: blue; } @  => #ff0000
4 color @ Static { color: red; } #a { color: green; } .b.c.d { color: blue; } @  => #008000
4 color @ Static { color: red; } .b.c.d { color: blue; } @  => #0000ff
4 color @ .b { color: red; } .c { color: blue; } @  => #0000ff
4 color @ #a { color: red !important; } @ color: blue; => #ff0000
4 color @ #a { color: red !important; } @ color: blue !important; => #0000ff
4 color @ #a { color: red; } @ color: blue; => #0000ff
4 color @ #a { color: red; } .b.c.d { color: blue; } @  => #ff0000
4 color @ .b { color: red; } Screen Container Static { color: blue; } @  => #ff0000
4 color @ .c Static { color: blue; } .b { color: red; } @  => #ff0000
4 color @ Container Static { color: red; } Static { color: blue; } @  => #ff0000
4 color @ Static { color: red; color: blue; } @  => #0000ff
4 color @  @ color: red; color: blue => #0000ff
4 color @ Static { color: red !important; color: blue; } @  => #ff0000
4 color @ .b, #a { color: red; } .c.d { color: blue; } @  => #ff0000
4 color @ .b, #z { color: red; } .c.d { color: blue; } @  => #0000ff
4 width @ Static { width: 5; } @  => 5Cells
4 width @ * { width: 5; } @  => 5Cells
4 margin-left @ Static { margin-left: 3; margin: 1; } @  => 1
4 margin-left @ Static { margin: 1; margin-left: 3; } @  => 3
4 margin-top @ Static { margin: 1; margin-left: 3; } @  => 1",
        |line: &str| answer(alloc, line),
    )
}

#[test]
fn parts_of_the_key_turned(rt: HostRuntime) -> Result<(), Fail> {
    let alloc = rt.alloc();
    each_line(
        "\
4 color @ #a { color: green; } Static { color: red !important; } @  => #ff0000
4 color @ #a { color: red !important; } Static { color: blue !important; } @  => #ff0000
4 color @ .b { color: red !important; } .c { color: blue !important; } @  => #0000ff
4 color @  @ color: red !important; color: blue => #ff0000
3 width @ * { width: 7; } @  => 7Cells
4 color @ #p #a { color: red; } #a.b.c.d { color: blue; } @  => #ff0000
4 color @ #a.b.c.d { color: blue; } #p #a { color: red; } @  => #ff0000
4 color @ #a { color: red; } Container#q .b.c.d { color: blue; } @  => #0000ff
4 color @ .b:enabled { color: red; } Screen Container Container Static.b { color: blue; } @  => #ff0000
4 color @ .b { color: red; } :enabled { color: blue; } @  => #0000ff
4 color @ .b.c { color: red; } Container .b { color: blue; } @  => #ff0000
4 color @ Static { color: blue; } Container Static { color: red; } @  => #ff0000
4 color @ Static { color: blue; } Widget { color: red; } @  => #ff0000
4 color @ * Static { color: red; } Static { color: blue; } @  => #0000ff
4 color @ .c { color: blue; } .b { color: red; } @  => #ff0000
4 color @ Static { margin: 1; color: red; } Static { color: blue; } @  => #0000ff
4 color @ Static { color: blue; color: red; } @  => #ff0000
4 color @ .b.c, Static { color: red; } .d { color: blue; } @  => #ff0000
4 color @ Static, .b { color: red; } .c { color: blue; } @  => #0000ff
4 margin-left @ Static { margin: 1; } @ margin-left: 2; => 2",
        |line: &str| answer(alloc, line),
    )
}

#[test]
fn what_is_inherited(rt: HostRuntime) -> Result<(), Fail> {
    let alloc = rt.alloc();
    each_line(
        "\
1 color @  @  => Foreground
1 visibility @  @  => Visible
4 color @  @  => Foreground
4 visibility @  @  => Visible
4 color @ #p { color: red; } @  => #ff0000
4 color @ #p { color: red; } #q { color: blue; } @  => #0000ff
3 color @ #p { color: red; } #a { color: blue; } @  => #ff0000
4 visibility @ #p { visibility: hidden; } @  => Hidden
4 visibility @ #p { visibility: hidden; } #q { visibility: visible; } @  => Visible
4 visibility @ Screen { visibility: hidden; } @  => Hidden
4 background @ #q { background: red; } @  => #000000
4 height @ #q { height: 5; } @  => 0Auto
4 text-style @  @  => marks 
4 text-style @ #p { text-style: bold; } #q { text-style: dim; } #a { text-style: italic; } @  => marks bdi
3 text-style @ #p { text-style: bold; } #q { text-style: dim; } #a { text-style: italic; } @  => marks bd
4 text-style @ #q { text-style: reverse; } #a { text-style: reverse; } @  => marks r
4 text-style @ #q { text-style: bold; } #a { text-style: none; } @  => marks b
4 text-style @ Container:focus { text-style: bold; } @  => marks b
4 text-style @ Container:blur { text-style: bold; } #q { text-style: dim; } @  => marks bd
2 text-style @ Container:focus { text-style: bold; } @  => marks 
4 color @ Screen { color: red; } @  => #ff0000
4 color @ Screen { color: red; } #q { color: blue; } @  => #0000ff
4 text-style @ #p { text-style: bold; } #q { text-style: none; } @  => marks b
4 text-style @ #p { text-style: reverse; } #q { text-style: reverse; } @  => marks r
4 text-style @ #a { text-style: bold; } .b { text-style: dim; } @  => marks b
4 text-style @ #p { text-style: bold; } @ text-style: dim => marks bd
4 min-width @ #q { min-width: 5; } @  => Nothing",
        |line: &str| answer(alloc, line),
    )
}

#[test]
fn what_initial_gives(rt: HostRuntime) -> Result<(), Fail> {
    let alloc = rt.alloc();
    each_line(
        "\
4 width @ Static { width: 5; } #a { width: initial; } @  => 1Fr
4 width @ Static { width: initial; } @  => 1Fr
4 width @ Static { width: 5; } @ width: initial => 1Fr
4 height @ #a { height: initial; } @  => 0Auto
4 margin-top @ #a { margin: 4; } @ margin: initial => 0
1 width @ Screen { width: initial; } @  => 100Percent
4 color @ #q { color: red; } #a { color: initial; } @  => #ff0000
4 color @ #q { color: red; } Static { color: blue; } #a { color: initial; } @  => #ff0000
1 color @ Screen { color: red; } @  => #ff0000
1 color @ Screen { color: initial; } @  => Foreground
4 color @ #q { color: red; } #a { color: initial !important; } @ color: blue => #ff0000
4 visibility @ #q { visibility: hidden; } #a { visibility: initial; } @  => Hidden
4 text-style @ #q { text-style: bold; } #a { text-style: initial; } @  => marks b
4 color @ #a { color: red; } @ color: => #ff0000
4 color @ #a { color: red; } @ color: blue; } => #ff0000
4 color @ #a { color: red; } @ colour: blue => #ff0000
4 color @ #a { color: red; } @ ; => #ff0000
4 width @ Static { width: 5; } #a { width: initial !important; } @ width: 7 => 1Fr
4 width @ #a { width: initial; } @ width: 7 => 7Cells
4 width @ Static { width: initial; } #a { width: 5; } @  => 5Cells
3 width @ #p { width: 4; } #q { width: initial; } @  => 1Fr
4 height @ Widget { height: initial; } @  => 0Auto
1 background @ Screen { background: initial; } @  => Background
4 color @ #a { color: red; } @ /* a comment */ color: blue => #0000ff
4 color @ #a { color: red; } @ COLOR: blue => #ff0000
4 color @ #a { color: red; } @ color: $primary => Primary
4 color @ $own: lime; #a { color: red; } @ color: $own => #ff0000",
        |line: &str| answer(alloc, line),
    )
}

/// Opens the styles of a tree, for each row the same as when it is asked alone.
fn open(alloc: Global, sheet: &Sheet, tree: &Tree) -> Result<Styles, Fail> {
    let mut steps = Steps {
        ledger: Counted::default(),
    };
    let styles = Styles::open(alloc, sheet, tree, &STILL, &mut steps)?;
    Ok(styles)
}

/// Fails unless the row with a number has this colour, or is gone.
fn has_colour(alloc: Global, styles: &Styles, number: u32, wanted: &str) -> Result<(), Fail> {
    match styles.style(NodeId(number)) {
        Some(style) => {
            let found = value_text(alloc, style.get(Property::Color))?;
            expect(found.as_str() == wanted, "the colour")
        }
        None => expect(wanted == "gone", "no row"),
    }
}

#[test]
fn all_rows(rt: HostRuntime) -> Result<(), Fail> {
    let alloc = rt.alloc();
    let sheet = sheet_of(alloc, "#p { color: red; } .b { color: blue; }")?;
    let tree = planted(alloc, "")?;
    let styles = open(alloc, &sheet, &tree)?;
    has_colour(alloc, &styles, 0, "gone")?;
    has_colour(alloc, &styles, 1, "Foreground")?;
    has_colour(alloc, &styles, 2, "#ff0000")?;
    has_colour(alloc, &styles, 3, "#ff0000")?;
    has_colour(alloc, &styles, 4, "#0000ff")?;
    has_colour(alloc, &styles, 5, "gone")
}

#[test]
fn each_selector_is_tested_once_at_each_row(rt: HostRuntime) -> Result<(), Fail> {
    let alloc = rt.alloc();
    let sheet = sheet_of(alloc, "#p, #q { color: red; } .b { color: blue; }")?;
    let tree = planted(alloc, "")?;
    let mut steps = Steps {
        ledger: Counted::default(),
    };
    let _styles = Styles::open(alloc, &sheet, &tree, &STILL, &mut steps)?;
    expect(steps.ledger.tests == 88, "22 selectors at 4 rows")
}

/// A Screen with so many pairs of Statics below it, of the classes `a` and `b`.
fn paired(alloc: Global, pairs: u32) -> Result<Tree, Fail> {
    let mut tree = Tree::of_screen(alloc, NewRow::of(alloc, Kind::Screen))?;
    for _ in 0..pairs {
        let first = row_of(alloc, Kind::Static, "", "a")?;
        tree.mount(NodeId(1), first)?;
        let second = row_of(alloc, Kind::Static, "", "b")?;
        tree.mount(NodeId(1), second)?;
    }
    Ok(tree)
}

#[test]
fn equal_styles_stand_in_one_place(rt: HostRuntime) -> Result<(), Fail> {
    let alloc = rt.alloc();
    let sheet = sheet_of(alloc, ".a { color: red; } .b { color: blue; }")?;
    let tree = paired(alloc, 20)?;
    let mut steps = Steps {
        ledger: Counted::default(),
    };
    let styles = styles_of(alloc, &sheet, &tree, &STILL, &mut steps)?;
    expect(styles.made.len() == 3, "three styles for 41 rows")
}
