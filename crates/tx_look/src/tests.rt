use crate::{box_style, content_region, grid_style};
use std::alloc::{AllocError, Global};
use std::test::Fail;
use tx_expect::each_line;
use tx_frac::{Frac, Scalar};
use tx_geom::{Region, Spacing};
use tx_lex::tokens;
use tx_value::{Style, read_value};

// ---- styles

// A style with what a declaration gives.
fn declared(alloc: Global, mut style: Style, declaration: &str) -> Result<Style, Fail> {
    if declaration.len() >= 10_000 {
        return Err(Fail::from("a long text"));
    }
    let (name, values) = declaration.split_once(":").ok_or("no values")?;
    let Ok(tokens) = tokens(alloc, values) else {
        return Err(Fail::from("no tokens"));
    };
    let Ok(pairs) = read_value(alloc, name, values, tokens.as_slice()) else {
        return Err(Fail::from("no values of the property"));
    };
    for (property, value) in pairs {
        style.set(property, value);
    }
    Ok(style)
}

// The style that declarations with `; ` between them make.
fn styled(alloc: Global, declarations: &str) -> Result<Style, Fail> {
    let mut style = Style::initial(alloc)?;
    for declaration in declarations.split("; ") {
        style = declared(alloc, style, declaration)?;
    }
    Ok(style)
}

// ---- what is read, as short texts

// A size in thousandths.
fn size_text(alloc: Global, size: &Scalar) -> Result<String, AllocError> {
    let thousandths = match size.value.mul(Frac::whole(1000)) {
        Some(value) => value.floor(),
        None => -1,
    };
    Ok(format!(in alloc; "{thousandths}{:?}", size.unit)?)
}

fn limit_text(alloc: Global, limit: &Option<Scalar>) -> Result<String, AllocError> {
    match limit {
        Some(size) => size_text(alloc, size),
        None => Ok(format!(in alloc; "none")?),
    }
}

fn limits_text(alloc: Global, limits: &[Option<Scalar>; 2]) -> Result<String, AllocError> {
    let wide = limit_text(alloc, &limits[0])?;
    let tall = limit_text(alloc, &limits[1])?;
    Ok(format!(in alloc; "{wide} {tall}")?)
}

fn spacing_text(alloc: Global, sides: Spacing) -> Result<String, AllocError> {
    Ok(format!(in alloc;
        "{} {} {} {}",
        sides.top, sides.right, sides.bottom, sides.left
    )?)
}

fn tracks_text(alloc: Global, tracks: &[Scalar]) -> Result<String, AllocError> {
    let mut shown = String::new(alloc);
    for size in tracks {
        let text = size_text(alloc, size)?;
        shown.push_str(text.as_str())?;
        shown.push_str(";")?;
    }
    Ok(shown)
}

// The style of a container before the `|`, and of a row in it behind that.
fn both(alloc: Global, declarations: &str) -> Result<(Style, Style), Fail> {
    let (container, own) = declarations.split_once(" | ").ok_or("one style")?;
    let container = styled(alloc, container)?;
    let own = styled(alloc, own)?;
    Ok((container, own))
}

fn sizes_text(alloc: Global, declarations: &str) -> Result<String, Fail> {
    let (container, own) = both(alloc, declarations)?;
    let read = box_style(&container, &own);
    let width = size_text(alloc, &read.width)?;
    let height = size_text(alloc, &read.height)?;
    let least = limits_text(alloc, &read.least)?;
    let most = limits_text(alloc, &read.most)?;
    Ok(format!(in alloc; "{width} {height}, {least}, {most}")?)
}

fn places_text(alloc: Global, declarations: &str) -> Result<String, Fail> {
    let (container, own) = both(alloc, declarations)?;
    let read = box_style(&container, &own);
    let dock = read.dock;
    let sizing = read.sizing;
    Ok(format!(in alloc;
        "{dock:?} {} {sizing:?}, {} {}, {} {}",
        read.layer, read.offset.x, read.offset.y, read.column_span, read.row_span
    )?)
}

fn sides_text(alloc: Global, declarations: &str) -> Result<String, Fail> {
    let (container, own) = both(alloc, declarations)?;
    let read = box_style(&container, &own);
    let margin = spacing_text(alloc, read.margin)?;
    let gutter = spacing_text(alloc, read.gutter)?;
    Ok(format!(in alloc; "{margin}, {gutter}")?)
}

fn grid_text(alloc: Global, declarations: &str) -> Result<String, Fail> {
    let own = styled(alloc, declarations)?;
    let read = grid_style(alloc, &own)?;
    let columns = tracks_text(alloc, read.column_tracks.as_slice())?;
    let rows = tracks_text(alloc, read.row_tracks.as_slice())?;
    let count = read.rows;
    Ok(format!(in alloc;
        "{} {count:?}, {columns} {rows}, {} {}",
        read.columns, read.gutter_vertical, read.gutter_horizontal
    )?)
}

// The content of a row that fills 20 columns and 10 rows from 5 to the right and 3 up.
fn content_text(alloc: Global, declarations: &str) -> Result<String, Fail> {
    let own = styled(alloc, declarations)?;
    let region = Region {
        x: 5,
        y: -3,
        width: 20,
        height: 10,
    };
    let content = content_region(&own, region);
    Ok(format!(in alloc;
        "{} {} {} {}",
        content.x, content.y, content.width, content.height
    )?)
}

// ---- tables

const SIZES: &str =
    "display: block | display: block => 100000Percent 100000Percent, none none, none none
width: 9 | width: 12; height: 50% => 12000Cells 50000Percent, none none, none none
width: 9 | width: 1.5fr; height: auto; min-width: 3; max-height: 10vh => 1500Fr 0Auto, 3000Cells none, none 10000Vh";

const PLACES: &str = "display: block | display: block => None 0 BorderBox, 0 0, 1 1
layers: low high | layer: high => None 2 BorderBox, 0 0, 1 1
layers: low high low | layer: low => None 1 BorderBox, 0 0, 1 1
layers: low high | layers: a b c; layer: c => None 0 BorderBox, 0 0, 1 1
layers: zoo ape | layer: ape => None 2 BorderBox, 0 0, 1 1
layer: low | layers: low; layer: low => None 0 BorderBox, 0 0, 1 1
dock: left | dock: right; box-sizing: content-box; offset: 3 -4; column-span: 2; row-span: 7 => Some(Right) 0 ContentBox, 3 -4, 2 7";

const SIDES: &str = "margin: 9 | margin: 1 2 3 4; padding: 5 6 7 8 => 1 2 3 4, 5 6 7 8
padding: 9 | padding: 1; border: solid red => 0 0 0 0, 2 2 2 2
border: solid red | border-left: none; border-top: round blue; padding: 0 3 => 0 0 0 0, 1 3 0 3";

const GRIDS: &str = "display: block => 1 None,  , 0 0
grid-size: 3; grid-gutter: 1 2 => 3 None,  , 1 2
grid-size: 3 2; grid-columns: 1fr 20; grid-rows: 3 => 3 Some(2), 1000Fr;20000Cells; 3000Cells;, 0 0";

const CONTENTS: &str = "display: block => 5 -3 20 10
padding: 1 2 3 4 => 9 -2 14 6
padding: 1 2 3 4; border: ascii red => 10 -1 12 4
border-right: ascii red; padding: 6 => 11 3 7 0
margin: 2; width: 4 => 5 -3 20 10";

#[test]
fn boxes_are_read(rt: HostRuntime) -> Result<(), Fail> {
    let alloc = rt.alloc();
    each_line(SIZES, |given| sizes_text(alloc, given))?;
    each_line(PLACES, |given| places_text(alloc, given))?;
    each_line(SIDES, |given| sides_text(alloc, given))
}

#[test]
fn grids_and_contents_are_read(rt: HostRuntime) -> Result<(), Fail> {
    let alloc = rt.alloc();
    each_line(GRIDS, |given| grid_text(alloc, given))?;
    each_line(CONTENTS, |given| content_text(alloc, given))
}
