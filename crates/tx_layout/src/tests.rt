ghost use Rattle.std.specs.Prelude.{◌≡◌, ⊤, ◌≤◌, ◌≤ℤ◌, ℤ, pos, neg_ℤ, length, All, IfOk, IfSome};
ghost use Rattle.tx_box.specs.Item.{IsLimit, NotNegative};
ghost use Rattle.tx_grid.specs.Standing.{IsRowCount, IsSpan};
ghost use Rattle.tx_layout.specs.Style.{IsBoxStyle, IsGridStyle, IsShift, IsTrack};

use crate::{Arrangement, Ask, BoxStyle, GridStyle, LayoutFault, arrange, tall_of, wide_of};
use std::alloc::Global;
use std::test::Fail;
use tx_expect::each_line;
use tx_frac::{Frac, Scalar, Unit};
use tx_geom::{AlignX, AlignY, Axis, BoxSizing, Edge, LayoutKind, Offset, Region, Size, Spacing};
use tx_io::{Counted, Steps};
use tx_text::Items;

mod asks;
mod nested;
mod pictures;

const SCREEN: Size = Size {
    width: 80,
    height: 24,
};

// ---- numbers

// A number in decimal digits, and 0 for any other text.
fn number_of(word: &str) -> u32 {
    match word.parse::<u32>() {
        Ok(number) => number,
        Err(_) => 0,
    }
}

fn part_of(word: &str, place: usize) -> &str {
    match word.split(',').nth(place) {
        Some(part) => part,
        None => "",
    }
}

fn small_of(word: &str) -> u16 {
    number_of(word).min(9999) as u16
}

// Four numbers with commas, clockwise from the top.
fn spacing_of(word: &str) -> Spacing {
    Spacing {
        top: small_of(part_of(word, 0)),
        right: small_of(part_of(word, 1)),
        bottom: small_of(part_of(word, 2)),
        left: small_of(part_of(word, 3)),
    }
}

// A number of at most four digits, after a `-` where it is below 0.
fn shift_of(word: &str) -> i64
    ensures { IsShift result }
{
    match word.strip_prefix('-') {
        Some(digits) => 0 - number_of(digits).min(9999) as i64,
        None => number_of(word).min(9999) as i64,
    }
}

// A span or a number of columns.
fn span_of(word: &str) -> u32
    ensures { IsSpan result }
{
    number_of(word).clamp(1, 100)
}

// ---- scalars

fn in_unit(digits: &str, unit: Unit) -> Scalar
    ensures value { NotNegative result.value }
    ensures unit { result.unit ≡ unit }
{
    Scalar {
        value: Frac::whole(number_of(digits) as i64),
        unit,
    }
}

// A number behind which its unit stands, or `auto`.
fn scalar_of(word: &str) -> Scalar
    ensures { NotNegative result.value }
{
    if word == "auto" {
        return in_unit("1", Unit::Auto);
    }
    suffixed(word)
}

// A percentage that no base but 0 and 1 can be multiplied by.
fn huge() -> Scalar
    ensures value { NotNegative result.value }
    ensures unit { result.unit ≡ Unit.Percent }
{
    match Frac::new(1 << 126, 1) {
        Some(value) => Scalar {
            value,
            unit: Unit::Percent,
        },
        None => in_unit("0", Unit::Percent),
    }
}

fn suffixed(word: &str) -> Scalar
    ensures { NotNegative result.value }
{
    if let Some(digits) = word.strip_suffix("fr") {
        return in_unit(digits, Unit::Fr);
    }
    limit_of(word)
}

fn limit_of(word: &str) -> Scalar
    ensures { IsLimit result }
{
    if word == "huge%" {
        return huge();
    }
    if let Some(digits) = word.strip_suffix("vw") {
        return in_unit(digits, Unit::Vw);
    }
    if let Some(digits) = word.strip_suffix("vh") {
        return in_unit(digits, Unit::Vh);
    }
    in_short_unit(word)
}

fn in_short_unit(word: &str) -> Scalar
    ensures { IsLimit result }
{
    if let Some(digits) = word.strip_suffix('%') {
        return in_unit(digits, Unit::Percent);
    }
    if let Some(digits) = word.strip_suffix('w') {
        return in_unit(digits, Unit::W);
    }
    if let Some(digits) = word.strip_suffix('h') {
        return in_unit(digits, Unit::H);
    }
    in_unit(word, Unit::Cells)
}

// ---- children

fn plain() -> BoxStyle
    ensures { IsBoxStyle result }
{
    BoxStyle {
        width: in_unit("1", Unit::Fr),
        height: in_unit("1", Unit::Fr),
        least: [None, None],
        most: [None, None],
        margin: Spacing::default(),
        gutter: Spacing::default(),
        sizing: BoxSizing::BorderBox,
        dock: None,
        layer: 0,
        offset: Offset { x: 0, y: 0 },
        column_span: 1,
        row_span: 1,
    }
}

fn edge_of(word: &str) -> Option<Edge> {
    match word {
        "top" => Some(Edge::Top),
        "right" => Some(Edge::Right),
        "bottom" => Some(Edge::Bottom),
        "left" => Some(Edge::Left),
        _ => None,
    }
}

// A style with a size or a limit.
fn with_size(style: BoxStyle, name: &str, value: &str) -> BoxStyle
    requires { IsBoxStyle style }
    ensures { IsBoxStyle result }
{
    match name {
        "w" => BoxStyle {
            width: scalar_of(value),
            ..style
        },
        "h" => BoxStyle {
            height: scalar_of(value),
            ..style
        },
        _ => with_limit(style, name, value),
    }
}

fn with_limit(style: BoxStyle, name: &str, value: &str) -> BoxStyle
    requires { IsBoxStyle style }
    ensures { IsBoxStyle result }
{
    let limit = Some(limit_of(value));
    match name {
        "min-w" => BoxStyle {
            least: [limit, style.least[1]],
            ..style
        },
        "min-h" => BoxStyle {
            least: [style.least[0], limit],
            ..style
        },
        "max-w" => BoxStyle {
            most: [limit, style.most[1]],
            ..style
        },
        "max-h" => BoxStyle {
            most: [style.most[0], limit],
            ..style
        },
        _ => style,
    }
}

// A style with one more property.
fn with_property(style: BoxStyle, name: &str, value: &str) -> BoxStyle
    requires { IsBoxStyle style }
    ensures { IsBoxStyle result }
{
    match name {
        "m" => BoxStyle {
            margin: spacing_of(value),
            ..style
        },
        "g" => BoxStyle {
            gutter: spacing_of(value),
            ..style
        },
        "box" => BoxStyle {
            sizing: BoxSizing::ContentBox,
            ..style
        },
        "dock" => BoxStyle {
            dock: edge_of(value),
            ..style
        },
        "layer" => BoxStyle {
            layer: number_of(value),
            ..style
        },
        _ => with_place(style, name, value),
    }
}

fn with_place(style: BoxStyle, name: &str, value: &str) -> BoxStyle
    requires { IsBoxStyle style }
    ensures { IsBoxStyle result }
{
    match name {
        "o" => BoxStyle {
            offset: Offset {
                x: shift_of(part_of(value, 0)),
                y: shift_of(part_of(value, 1)),
            },
            ..style
        },
        "span" => BoxStyle {
            column_span: span_of(part_of(value, 0)),
            row_span: span_of(part_of(value, 1)),
            ..style
        },
        _ => with_size(style, name, value),
    }
}

// A child from its properties, with `/` between them.
fn child_of(word: &str) -> BoxStyle
    ensures { IsBoxStyle result }
{
    let mut style = plain();
    for property in word.split('/') {
        if let Some((name, value)) = property.split_once('=') {
            style = with_property(style, name, value);
        }
    }
    style
}

// At most 20 children.
fn children_of(alloc: Global, words: &str) -> Result<Vec<BoxStyle>, Fail>
    ensures styles { IfOk result (λ v. All IsBoxStyle v.items) }
    ensures count { IfOk result (λ v. length v.items ≤ 20) }
{
    let seen: BoxStyle = plain();
    let _size: Scalar = seen.width;
    let _limit: Option<Scalar> = None;
    let mut children = Vec::new(alloc);
    for word in words.split_ascii_whitespace() {
        if children.len() == 20 {
            return Err(Fail::from("a row with more than 20 children"));
        }
        children.push(child_of(word))?;
    }
    Ok(children)
}

// ---- grids

fn track_of(word: &str) -> Scalar
    ensures { IsTrack result }
{
    match word.strip_suffix("fr") {
        Some(digits) => in_unit(digits, Unit::Fr),
        None => track_limit(word),
    }
}

fn track_limit(word: &str) -> Scalar
    ensures { IsTrack result }
{
    let limit = limit_of(word);
    match limit.unit {
        Unit::Auto => in_unit("1", Unit::Fr),
        _ => limit,
    }
}

// The tracks in a word, with commas between them.
fn tracks_of(alloc: Global, word: &str) -> Result<Vec<Scalar>, Fail>
    ensures { IfOk result (λ v. All IsTrack v.items) }
{
    let mut tracks = Vec::new(alloc);
    for track in word.split(',') {
        if !track.is_empty() {
            tracks.push(track_of(track))?;
        }
    }
    Ok(tracks)
}

fn value_in<'a>(word: &'a str, name: &str) -> &'a str {
    for property in word.split('/') {
        if let Some((found, value)) = property.split_once('=') {
            if found == name {
                return value;
            }
        }
    }
    ""
}

fn row_count(word: &str) -> Option<u32>
    ensures { IfSome result IsRowCount }
{
    match word {
        "" => None,
        _ => Some(number_of(word).clamp(1, 1000)),
    }
}

fn grid_of(alloc: Global, word: &str) -> Result<GridStyle, Fail>
    ensures { IfOk result IsGridStyle }
{
    let column_tracks = tracks_of(alloc, value_in(word, "columns"))?;
    let row_tracks = tracks_of(alloc, value_in(word, "rows"))?;
    Ok(GridStyle {
        columns: span_of(value_in(word, "c")),
        rows: row_count(value_in(word, "r")),
        column_tracks: Items::of(column_tracks),
        row_tracks: Items::of(row_tracks),
        gutter_vertical: number_of(value_in(word, "v")).min(9999),
        gutter_horizontal: number_of(value_in(word, "h")).min(9999),
    })
}

// ---- what comes of a row

fn kind_of(word: &str) -> LayoutKind {
    match word {
        "horizontal" => LayoutKind::Horizontal,
        "grid" => LayoutKind::Grid,
        _ => LayoutKind::Vertical,
    }
}

fn size_of(word: &str) -> Size {
    Size {
        width: number_of(part_of(word, 0)),
        height: number_of(part_of(word, 1)),
    }
}

fn align_of(word: &str) -> (AlignX, AlignY) {
    (align_x(part_of(word, 0)), align_y(part_of(word, 1)))
}

fn align_x(word: &str) -> AlignX {
    match word {
        "center" => AlignX::Center,
        "right" => AlignX::Right,
        _ => AlignX::Left,
    }
}

fn align_y(word: &str) -> AlignY {
    match word {
        "middle" => AlignY::Middle,
        "bottom" => AlignY::Bottom,
        _ => AlignY::Top,
    }
}

fn word_at(head: &str, place: usize) -> &str {
    match head.split_ascii_whitespace().nth(place) {
        Some(word) => word,
        None => "",
    }
}

// The content of a child: half of its room wide, and at a width a third of that and its room high;
// each with the child's number on top. In a room of 13 columns it is refused.
fn content_of(ask: Ask) -> Result<u32, LayoutFault> {
    if ask.area.width == 13 {
        return Err(LayoutFault::Fraction { axis: Axis::Width });
    }
    let room = match ask.width {
        None => ask.area.width / 2,
        Some(width) => ((width as u64 + ask.area.height as u64) / 3) as u32,
    };
    Ok(room.saturating_add(ask.child))
}

fn fault_written(alloc: Global, fault: LayoutFault) -> Result<String, Fail> {
    let text = match fault {
        LayoutFault::Fraction { axis: Axis::Width } => "width",
        LayoutFault::Fraction { axis: Axis::Height } => "height",
        LayoutFault::NoMemory => "no memory",
    };
    Ok(String::from_str(alloc, text)?)
}

fn measure_written(alloc: Global, measure: Result<u32, LayoutFault>) -> Result<String, Fail> {
    match measure {
        Ok(size) => Ok(format!(in alloc; "{size}")?),
        Err(fault) => fault_written(alloc, fault),
    }
}

fn region_written(alloc: Global, region: Option<Region>) -> Result<String, Fail> {
    match region {
        None => Ok(format!(in alloc; "- ")?),
        Some(at) => Ok(format!(in alloc; "{},{},{},{} ", at.x, at.y, at.width, at.height)?),
    }
}

// The regions, and after a `/` how far they go over the room.
fn arrangement_written(alloc: Global, arrangement: &Arrangement) -> Result<String, Fail> {
    let mut all = String::new(alloc);
    for region in arrangement.placed.as_slice() {
        all.push_str(region_written(alloc, *region)?.as_str())?;
    }
    let over = arrangement.over;
    all.push_str(format!(in alloc; "/ {},{}", over.width, over.height)?.as_str())?;
    Ok(all)
}

fn arranged_written(
    alloc: Global,
    arranged: Result<Arrangement, LayoutFault>,
) -> Result<String, Fail> {
    match arranged {
        Ok(arrangement) => arrangement_written(alloc, &arrangement),
        Err(fault) => fault_written(alloc, fault),
    }
}

// The arrangement in an area with its ticks, and after it the two measures, the height at the
// width of the area.
fn answer(alloc: Global, given: &str) -> Result<String, Fail> {
    let Some((head, words)) = given.split_once(" |") else {
        return Err(Fail::from("a row without |"));
    };
    let children = children_of(alloc, words)?;
    let grid = grid_of(alloc, word_at(head, 3))?;
    let measure = |ask: Ask| -> Result<u32, LayoutFault>
        requires { ⊤ }
        ensures { ⊤ }
    { content_of(ask) };
    let kind = kind_of(word_at(head, 0));
    let area = size_of(word_at(head, 1));
    let align = align_of(word_at(head, 2));
    let mut steps = Steps {
        ledger: Counted::default(),
    };
    let arranged = arrange(
        alloc, kind, &grid, align, &children, area, SCREEN, &measure, &mut steps,
    );
    let wide = wide_of(alloc, kind, &grid, &children, area, SCREEN, &measure);
    let tall = tall_of(
        alloc, kind, &grid, &children, area.width, area, SCREEN, &measure,
    );
    Ok(format!(in alloc;
        "{}x {} = {} {}",
        steps.ledger.arranged,
        arranged_written(alloc, arranged)?,
        measure_written(alloc, wide)?,
        measure_written(alloc, tall)?
    )?)
}

// Each row has the kind, the area, the alignment and the children, each with its properties; a size
// that isn't given is `1fr`. After the arrow come the ticks, the regions, how far they go over the
// room, and the width and the height that the container asks for; or the direction of a refusal.
#[test]
fn lines_stand_as_worked_out(rt: HostRuntime) -> Result<(), Fail> {
    let alloc = rt.alloc();
    each_line(
        "vertical 20,10 left,top | => 1x / 0,0 = 0 0\n\
         vertical 20,10 left,top | w=1fr/h=1/m=0,0,2,0 w=1fr/h=1/m=1,0,0,0 => 1x 0,0,20,1 0,3,20,1 / 0,0 = 20 4\n\
         vertical 20,10 left,top | w=1fr/h=1/m=1,2,0,3 w=10/h=2/m=3,0,2,1 => 1x 3,1,15,1 1,5,10,2 / 0,0 = 20 9\n\
         vertical 20,10 left,top | h=1fr h=2fr h=1fr => 1x 0,0,20,2 0,2,20,5 0,7,20,3 / 0,0 = 20 10\n\
         vertical 20,10 left,top | h=1fr h=3/m=1,0,1,0 h=1fr => 1x 0,0,20,2 0,3,20,3 0,7,20,3 / 0,0 = 20 10\n\
         vertical 20,10 left,top | h=1fr/min-h=6 h=1fr h=1fr => 1x 0,0,20,6 0,6,20,2 0,8,20,2 / 0,0 = 20 10\n\
         vertical 20,10 left,top | h=1fr/max-h=2 h=1fr => 1x 0,0,20,2 0,2,20,8 / 0,0 = 20 10\n\
         vertical 20,10 left,top | h=1fr/max-h=2/min-h=4 h=1fr => 1x 0,0,20,4 0,4,20,6 / 0,0 = 20 10\n\
         vertical 20,10 left,top | w=50%/h=50% w=25%/h=25%/m=1,1,1,1 => 1x 0,0,10,5 1,6,4,2 / 0,0 = 10 9\n\
         vertical 20,10 left,top | w=50w/h=50w w=50h/h=50h => 1x 0,0,10,10 0,10,5,5 / 0,5 = 10 15\n\
         vertical 20,10 left,top | w=10vw/h=25vh w=30vw/h=10vh => 1x 0,0,8,6 0,6,24,2 / 4,0 = 24 8\n\
         vertical 20,10 left,top | w=auto/h=auto w=auto/h=auto/m=1,2,1,2 => 1x 0,0,10,6 2,7,9,6 / 0,4 = 13 14\n\
         vertical 20,10 left,top | w=auto/h=auto/g=1,1,1,1 => 1x 0,0,11,7 / 0,0 = 11 7\n\
         vertical 20,10 left,top | w=8/h=4/g=1,1,1,1 w=8/h=4/g=1,1,1,1/box=1 => 1x 0,0,8,4 0,4,10,6 / 0,0 = 10 10\n\
         vertical 20,10 left,top | w=1fr/h=auto/g=1,2,1,2/min-w=30/box=1 => 1x 0,0,34,14 / 14,4 = 34 14\n\
         vertical 20,10 left,top | w=30/h=12 w=5/h=5 => 1x 0,0,30,12 0,12,5,5 / 10,7 = 30 17\n\
         vertical 20,10 center,middle | w=5/h=2 => 1x 7,4,5,2 / 0,0 = 5 2\n\
         vertical 20,10 right,bottom | w=5/h=2 w=3/h=3 => 1x 15,5,5,2 15,7,3,3 / 0,0 = 5 5\n\
         vertical 20,10 center,middle | w=6/h=3/m=1,1,0,2 => 1x 7,4,6,3 / 0,0 = 9 4\n\
         vertical 20,10 center,top | w=5/h=2 => 1x 7,0,5,2 / 0,0 = 5 2\n\
         vertical 20,10 right,top | w=5/h=2 => 1x 15,0,5,2 / 0,0 = 5 2\n\
         vertical 20,10 left,middle | w=5/h=2 => 1x 0,4,5,2 / 0,0 = 5 2\n\
         vertical 20,10 left,bottom | w=5/h=2 => 1x 0,8,5,2 / 0,0 = 5 2\n\
         vertical 20,10 center,bottom | w=5/h=3 => 1x 7,7,5,3 / 0,0 = 5 3\n\
         vertical 20,10 right,middle | w=5/h=3 => 1x 15,3,5,3 / 0,0 = 5 3\n\
         vertical 20,10 left,top | w=5/h=2/o=3,-1 w=5/h=2/o=-2,4 => 1x 3,-1,5,2 -2,6,5,2 / 0,0 = 5 4\n\
         vertical 20,10 left,top | w=3/h=4/dock=left w=5/h=4/dock=left h=2/dock=bottom h=1fr => 1x 0,0,3,4 0,0,5,4 0,8,20,2 5,0,15,8 / 0,0 = 20 10\n\
         vertical 20,10 left,top | w=4/h=1fr/dock=right/m=1,2,1,1 h=1fr => 1x 14,1,4,8 0,0,13,10 / 0,0 = 20 10\n\
         vertical 20,10 left,top | h=1/dock=top/m=1,1,1,1 h=1fr/m=1,0,0,0 => 1x 1,1,18,1 0,4,20,6 / 0,0 = 20 10\n\
         vertical 20,10 left,top | w=2/h=1/dock=top h=1/dock=bottom/m=0,0,1,0 w=1fr/h=50% => 1x 0,0,2,1 0,8,20,1 0,1,20,3 / 0,0 = 20 6\n\
         vertical 20,10 center,middle | w=2/dock=left w=4/h=2 => 1x 0,0,2,10 9,4,4,2 / 0,0 = 6 2\n\
         vertical 20,10 right,bottom | w=3/h=3/dock=right/o=-1,1 w=4/h=2 => 1x 16,1,3,3 13,8,4,2 / 0,0 = 7 2\n\
         vertical 20,10 left,top | w=30/dock=left h=1fr => 1x 0,0,30,10 30,0,0,10 / 0,0 = 30 10\n\
         vertical 20,10 left,top | h=12/dock=top h=1fr => 1x 0,0,20,12 0,12,20,0 / 0,0 = 20 12\n\
         vertical 20,10 left,top | w=4/h=2/layer=2 w=30/h=3/layer=1/o=2,-1 w=6/h=12/layer=2 => 1x 0,0,4,2 2,-1,30,3 0,2,6,12 / 10,4 = 30 14\n\
         vertical 20,10 center,middle | w=4/h=2/layer=2 w=6/h=3/layer=1 w=2/h=2/layer=2 => 1x 8,3,4,2 7,3,6,3 8,5,2,2 / 0,0 = 6 4\n\
         vertical 20,10 left,top | w=3/dock=left/layer=1 h=1fr/layer=1 h=1fr => 1x 0,0,3,10 3,0,17,10 0,0,20,10 / 0,0 = 20 10\n\
         vertical 0,0 left,top | w=1fr/h=1fr w=2/h=2 => 1x 0,0,0,0 0,0,2,2 / 2,2 = 2 2\n\
         vertical 0,10 center,middle | w=50%/h=50% => 1x 0,2,0,5 / 0,0 = 0 5\n\
         vertical 20,0 left,top | h=1fr h=1fr/m=1,1,1,1 => 1x 0,0,20,0 1,1,18,0 / 0,2 = 20 2\n\
         vertical 20,10 left,top | h=0fr h=0fr/min-h=2 h=3 => 1x 0,0,20,0 0,0,20,2 0,2,20,3 / 0,0 = 20 5\n\
         vertical 20,10 left,top | w=70000/h=70000 => 1x 0,0,65535,65535 / 65515,65525 = 65535 65535\n\
         vertical 20,10 left,top | h=40000 h=40000 => 1x 0,0,20,40000 0,40000,20,40000 / 0,79990 = 20 65535\n\
         vertical 20,10 left,top | h=1fr/max-h=20% h=50h/max-w=5 => 1x 0,0,20,2 0,2,5,5 / 0,0 = 20 7\n\
         vertical 20,10 left,top | w=huge% h=1fr => 1x width = width width\n\
         vertical 20,10 left,top | h=huge% => 1x height = 20 height\n\
         vertical 20,10 left,top | h=huge% w=huge% => 1x width = width width\n\
         vertical 20,10 left,top | h=huge%/layer=1 w=huge%/layer=2 => 1x height = width height\n\
         vertical 20,10 left,top | w=huge%/layer=2 h=huge%/layer=1 => 1x height = width height\n\
         vertical 20,10 left,top | w=huge% h=huge%/dock=left => 1x height = 20 height\n\
         vertical 20,10 left,top | h=1fr h=huge%/dock=top => 1x height = 20 height\n\
         vertical 13,10 left,top | w=auto => 1x width = width width\n\
         vertical 20,10 left,top | w=auto/m=0,3,0,4 => 1x width = width width\n\
         vertical 26,10 left,top | w=50%/h=auto/m=0,6,0,7 => 1x height = 19 height\n\
         vertical 20,10 left,top | h=2/dock=top w=50h => 1x 0,0,20,2 0,2,4,8 / 0,0 = 5 10\n\
         vertical 20,10 left,top | w=50%/min-w=12/h=3/max-h=1/box=1/g=1,1,1,1 => 1x 0,0,14,3 / 0,0 = 14 3\n\
         vertical 20,10 left,top | max-w=10vw/max-h=25vh => 1x 0,0,8,6 / 0,0 = 8 6\n\
         vertical 20,10 left,top | w=2/min-w=50h/h=1/min-h=20w => 1x 0,0,5,4 / 0,0 = 5 4\n\
         vertical 20,10 left,top | w=15/max-w=50%/min-w=60%/h=1 => 1x 0,0,12,1 / 0,0 = 12 1\n\
         vertical 20,10 left,top | h=33% h=33% h=1fr => 1x 0,0,20,3 0,3,20,3 0,6,20,4 / 0,0 = 20 10\n\
         vertical 20,10 left,top | h=12 h=1fr => 1x 0,0,20,12 0,12,20,0 / 0,2 = 20 12\n\
         vertical 20,10 left,top | h=12 h=1fr/min-h=2 => 1x 0,0,20,12 0,12,20,2 / 0,4 = 20 14\n\
         vertical 20,10 left,top | h=1/dock=top/m=1,0,1,0 w=2/dock=right/m=0,1,0,1 h=2/dock=bottom/m=0,0,1,0 w=3/dock=left/m=0,2,0,1 w=1fr => 1x 0,1,20,1 17,0,2,10 0,7,20,2 1,0,3,10 6,3,10,4 / 0,0 = 20 10\n\
         vertical 20,10 left,top | w=2/dock=right w=4/dock=right h=1/dock=bottom h=3/dock=bottom/m=1,0,0,0 w=1fr => 1x 18,0,2,10 16,0,4,10 0,9,20,1 0,7,20,3 0,0,16,6 / 0,0 = 20 10\n\
         vertical 20,10 left,top | h=2/dock=top w=25%/h=50%/dock=left/m=1,0,1,0 w=1fr => 1x 0,0,20,2 0,1,5,4 5,2,15,8 / 0,0 = 20 10\n\
         vertical 20,10 left,top | w=auto/h=auto/dock=left/g=1,1,1,1 w=1fr => 1x 0,0,11,7 11,0,9,10 / 0,0 = 20 10\n\
         vertical 20,10 right,bottom | h=1/dock=top/o=0,3 w=30/h=2 w=4/h=1/o=-1,-2 => 1x 0,3,20,1 0,7,30,2 -1,7,4,1 / 10,0 = 30 4\n\
         vertical 20,10 left,top | w=30/dock=left/layer=1 h=2 => 1x 0,0,30,10 0,0,20,2 / 0,0 = 30 2\n\
         vertical 20,10 left,top | w=auto/max-w=6/h=auto/g=0,1,0,1 => 1x 0,0,6,4 / 0,0 = 6 4\n\
         vertical 20,10 left,top | w=1/h=auto/g=0,2,0,2 => 1x 0,0,1,3 / 0,0 = 1 3\n\
         vertical 200000,9 left,top | w=auto/h=auto => 1x 0,0,65535,21848 / 0,21839 = 65535 21848\n\
         vertical 20,10 left,top | w=65000/h=1/m=0,999,0,999 => 1x 999,0,65000,1 / 66978,0 = 65535 1\n\
         vertical 1,10 left,top | w=huge%/h=1 => 1x 0,0,65535,1 / 65534,0 = 65535 1\n\
         vertical 20,10 left,top | min-w=huge% => 1x width = width width\n\
         vertical 20,10 left,top | max-h=huge% => 1x height = 20 height\n\
         vertical 20,10 left,top | w=3/max-h=huge%/dock=left min-w=huge% => 1x height = width height\n\
         vertical 20,10 left,top | h=huge%/dock=top w=huge% => 1x height = width height\n\
         vertical 20,10 left,top | w=huge%/dock=top => 1x width = 0 width\n\
         horizontal 20,10 left,top | w=1fr/h=50% w=1fr/h=50% w=1fr/h=50% => 1x 0,0,6,5 6,0,7,5 13,0,7,5 / 0,0 = 20 5\n\
         horizontal 20,10 left,top | w=1fr/h=1 w=2fr/h=2 w=3/h=3/m=1,1,1,1 => 1x 0,0,5,1 5,0,10,2 16,1,3,3 / 0,0 = 20 5\n\
         horizontal 20,10 left,top | w=5/h=2/m=1,2,1,1 w=5/h=4/m=0,1,0,4 => 1x 1,1,5,2 10,0,5,4 / 0,0 = 16 4\n\
         horizontal 20,10 left,top | w=1fr/min-w=12 w=1fr w=1fr/max-w=2 => 1x 0,0,12,10 12,0,6,10 18,0,2,10 / 0,0 = 20 10\n\
         horizontal 20,10 left,top | w=auto/h=auto w=auto/h=auto/g=1,1,1,1 => 1x 0,0,10,6 10,0,12,9 / 2,0 = 22 9\n\
         horizontal 20,10 left,top | w=1fr/h=auto w=25%/h=auto/g=0,2,0,2 => 1x 0,0,15,8 15,0,5,4 / 0,0 = 20 8\n\
         horizontal 20,10 center,middle | h=1/dock=top w=5/h=2 => 1x 0,0,20,1 7,4,5,2 / 0,0 = 5 3\n\
         horizontal 20,10 right,bottom | h=1/dock=top w=5/h=2 => 1x 0,0,20,1 15,8,5,2 / 0,0 = 5 3\n\
         horizontal 20,10 right,bottom | w=5/h=2 w=4/h=5/m=0,1,0,0 => 1x 10,5,5,2 15,5,4,5 / 0,0 = 10 5\n\
         horizontal 20,10 left,top | w=4/h=1fr/dock=right w=1fr w=1fr => 1x 16,0,4,10 0,0,8,10 8,0,8,10 / 0,0 = 20 10\n\
         horizontal 20,10 left,top | w=15/h=2 w=15/h=12 => 1x 0,0,15,2 15,0,15,12 / 10,2 = 30 12\n\
         horizontal 20,10 left,top | h=huge% w=huge% => 1x width = width width\n\
         horizontal 20,10 left,top | h=huge% w=1fr => 1x height = 20 height\n\
         horizontal 20,10 left,top | w=7/layer=3 w=5/h=11/layer=1 h=1/dock=bottom/layer=3 => 1x 0,0,7,9 0,0,5,11 0,9,20,1 / 0,1 = 7 11\n\
         horizontal 20,10 left,top | w=25vw/h=50vh w=25h/h=25w w=50w/h=50h => 1x 0,0,20,12 20,0,2,5 22,0,10,5 / 12,2 = 32 12\n\
         horizontal 20,10 left,top | w=4/h=2/g=1,2,1,2/box=1 g=1,1,1,1/box=1 => 1x 0,0,8,4 8,0,12,10 / 0,0 = 20 10\n\
         horizontal 20,10 left,top | h=auto h=auto h=auto => 1x 0,0,6,5 6,0,7,6 13,0,7,7 / 0,0 = 20 7\n\
         horizontal 20,10 center,bottom | w=5/h=2/o=1,1 w=4/h=3/m=0,0,0,1 => 1x 6,8,5,2 11,7,4,3 / 0,0 = 10 3\n\
         horizontal 20,10 left,middle | w=3/dock=right/layer=1 w=4/h=2/layer=1 h=4 => 1x 17,0,3,10 0,4,4,2 0,3,20,4 / 0,0 = 20 4\n\
         horizontal 0,0 right,bottom | w=1fr w=3/h=50%/m=1,1,1,1 => 1x 0,0,0,0 1,1,3,0 / 5,2 = 5 2\n\
         horizontal 20,10 left,top | h=huge%/dock=top w=huge% => 1x height = width height\n\
         horizontal 20,10 left,top | max-w=huge%/h=huge%/layer=1 h=huge% => 1x height = width height\n\
         horizontal 13,10 left,top | w=4/h=auto => 1x height = 4 height\n\
         horizontal 20,10 left,top | w=huge%/dock=left h=huge%/dock=top => 1x width = width width\n\
         horizontal 20,10 center,top | w=5/h=2 w=4/h=3 => 1x 5,0,5,2 10,0,4,3 / 0,0 = 9 3\n\
         horizontal 20,10 right,top | w=5/h=2 w=4/h=3 => 1x 11,0,5,2 16,0,4,3 / 0,0 = 9 3\n\
         horizontal 20,10 left,bottom | w=5/h=2 w=4/h=3 => 1x 0,7,5,2 5,7,4,3 / 0,0 = 9 3\n\
         horizontal 20,10 right,middle | w=5/h=2 w=4/h=3 => 1x 11,3,5,2 16,3,4,3 / 0,0 = 9 3\n\
         horizontal 20,10 left,top | w=3/dock=left/m=1,1,1,1 w=2/dock=right/m=0,1,0,0 w=1fr w=1fr/min-w=9 => 1x 1,1,3,8 17,0,2,10 5,0,3,10 8,0,9,10 / 0,0 = 20 10",
        |given| answer(alloc, given),
    )
}

#[test]
fn grids_stand_as_worked_out(rt: HostRuntime) -> Result<(), Fail> {
    let alloc = rt.alloc();
    each_line(
        "grid 12,6 left,top c=3 | span=2,1 span=2,1 span=1,1 => 1x 0,0,8,3 0,3,8,3 8,0,4,3 / 0,0 = 12 6\n\
         grid 12,6 left,top c=3 | => 1x / 0,0 = 0 0\n\
         grid 12,6 left,top c=3 | h=1/dock=top => 1x 0,0,12,1 / 0,0 = 12 1\n\
         grid 12,6 left,top c=3/r=2 | h=1/dock=top => 1x 0,0,12,1 / 0,0 = 12 6\n\
         grid 12,6 left,top c=2/r=2 | span=1,1 span=1,1 span=1,1 span=1,1 span=1,1 => 1x 0,0,6,3 6,0,6,3 0,3,6,3 6,3,6,3 - / 0,0 = 12 6\n\
         grid 12,6 left,top c=2/r=1 | span=1,1 span=2,1 span=1,1 => 1x 0,0,6,6 - 6,0,6,6 / 0,0 = 12 6\n\
         grid 12,6 left,top c=2/r=2 | span=5,1 span=1,5 span=1,1 => 1x 0,0,12,3 - 0,3,6,3 / 0,0 = 12 6\n\
         grid 12,6 left,top c=2 | span=5,5 span=1,1 => 1x 0,0,12,5 0,5,6,1 / 0,0 = 12 6\n\
         grid 12,6 left,top c=4/columns=1,2 | span=1,1 span=1,1 span=1,1 span=1,1 => 1x 0,0,1,6 1,0,2,6 3,0,1,6 4,0,2,6 / 0,0 = 6 6\n\
         grid 12,6 left,top c=4/columns=1fr,2 | span=1,1 span=1,1 span=1,1 span=1,1 => 1x 0,0,4,6 4,0,2,6 6,0,4,6 10,0,2,6 / 0,0 = 12 6\n\
         grid 12,6 left,top c=3/rows=1,2 | span=1,1 span=1,1 span=1,1 span=1,1 span=1,1 span=1,1 span=1,1 => 1x 0,0,4,1 4,0,4,1 8,0,4,1 0,1,4,2 4,1,4,2 8,1,4,2 0,3,4,1 / 0,0 = 12 4\n\
         grid 12,6 left,top c=3/r=3/rows=1fr,1 | span=1,1 span=1,1 => 1x 0,0,4,2 4,0,4,2 / 0,0 = 12 6\n\
         grid 12,6 left,top c=2/columns=25%,50vw | span=1,1 span=1,1 => 1x 0,0,3,6 3,0,40,6 / 31,0 = 43 6\n\
         grid 12,6 left,top c=2/columns=50w,50h/rows=50h,10vh | span=1,1 span=1,1 span=1,1 => 1x 0,0,6,3 6,0,3,3 0,3,6,2 / 0,0 = 9 5\n\
         grid 12,6 left,top c=3/h=1/v=1 | span=1,1 span=1,1 span=1,1 span=1,1 => 1x 0,0,3,2 4,0,3,2 8,0,4,2 0,3,3,3 / 0,0 = 12 6\n\
         grid 12,6 left,top c=3/h=1/v=2 | span=2,1 span=1,2 span=3,1 => 1x 0,0,7,0 8,0,4,3 0,5,12,1 / 0,0 = 12 6\n\
         grid 12,6 left,top c=5/h=2 | span=1,1 span=4,1 => 1x 0,0,0,6 2,0,10,6 / 0,0 = 12 6\n\
         grid 12,6 left,top c=7/h=3 | span=1,1 span=7,1 => 1x 0,0,0,3 0,3,18,3 / 6,0 = 18 6\n\
         grid 12,6 left,top c=1/v=3/r=4 | span=1,1 span=1,2 => 1x 0,0,12,0 0,3,12,3 / 0,3 = 12 9\n\
         grid 12,6 left,top c=2 | w=3/h=2 w=9/h=9 => 1x 0,0,3,2 6,0,6,6 / 0,0 = 12 6\n\
         grid 12,6 left,top c=2 | w=50%/h=50% w=100%/h=100%/m=1,1,1,1 => 1x 0,0,3,3 7,1,4,4 / 0,0 = 12 6\n\
         grid 12,6 left,top c=2 | m=1,2,1,2 m=4,4,4,4 => 1x 2,1,2,4 10,4,0,0 / 0,0 = 12 6\n\
         grid 12,6 left,top c=2/r=1 | w=auto/h=auto w=auto/h=auto/g=1,1,1,1 => 1x 0,0,3,3 6,0,5,5 / 0,0 = 12 6\n\
         grid 12,6 left,top c=1/r=1 | w=4/h=auto/g=1,1,1,1 => 1x 0,0,4,4 / 0,0 = 12 6\n\
         grid 12,6 left,top c=1/r=1 | w=20/h=auto/g=0,3,0,3 => 1x 0,0,12,4 / 0,0 = 12 6\n\
         grid 12,6 left,top c=3/columns=2 | h=auto h=auto h=auto => 1x 0,0,2,2 2,0,2,3 4,0,2,4 / 0,0 = 6 6\n\
         grid 12,6 left,top c=2/columns=2/rows=1 | w=1fr/min-w=5 w=1fr/max-w=1 => 1x 0,0,2,1 2,0,1,1 / 0,0 = 4 1\n\
         grid 12,6 center,middle c=2/columns=2/rows=2 | span=1,1 span=1,1 => 1x 4,2,2,2 6,2,2,2 / 0,0 = 4 2\n\
         grid 12,6 right,bottom c=2/columns=2/rows=2 | span=1,1 span=1,1 span=1,1 => 1x 8,2,2,2 10,2,2,2 8,4,2,2 / 0,0 = 4 4\n\
         grid 12,6 center,bottom c=1/columns=5/rows=1 | o=1,-1 w=2 => 1x 4,3,5,1 3,5,2,1 / 0,0 = 5 2\n\
         grid 12,6 left,top c=2 | w=3/dock=left span=1,1 span=1,1 => 1x 0,0,3,6 3,0,4,6 7,0,5,6 / 0,0 = 12 6\n\
         grid 12,6 left,top c=2 | w=3/dock=right/m=0,1,0,1 h=1/dock=top span=1,1 span=1,1 => 1x 8,0,3,6 0,0,12,1 0,1,3,5 3,1,4,5 / 0,0 = 12 6\n\
         grid 12,6 left,top c=2 | span=1,1/layer=1 span=1,1 span=1,1/layer=1 => 1x 0,0,6,6 0,0,6,6 6,0,6,6 / 0,0 = 12 6\n\
         grid 12,6 left,top c=2/columns=10 | span=1,1 span=1,1 => 1x 0,0,10,6 10,0,10,6 / 8,0 = 20 6\n\
         grid 12,6 left,top c=1/rows=4 | span=1,1 span=1,1 span=1,1 => 1x 0,0,12,4 0,4,12,4 0,8,12,4 / 0,6 = 12 12\n\
         grid 12,6 left,top c=2/columns=10/r=1/rows=9 | span=1,1/layer=1 h=2/dock=bottom/layer=1 => 1x 0,0,10,9 0,4,12,2 / 8,5 = 20 11\n\
         grid 0,0 left,top c=2/r=2 | span=1,1 span=2,1 => 1x 0,0,0,0 0,0,0,0 / 0,0 = 0 0\n\
         grid 0,6 center,middle c=2 | w=2/h=2 span=1,1 => 1x 0,0,0,2 0,0,0,6 / 0,0 = 0 6\n\
         grid 12,0 left,top c=2/v=1 | span=1,1 span=1,1 span=1,1 => 1x 0,0,6,0 6,0,6,0 0,1,6,0 / 0,1 = 12 1\n\
         grid 12,6 left,top c=2/columns=huge% | span=1,1 => 1x width = width width\n\
         grid 12,6 left,top c=2/rows=huge% | span=1,1 => 1x height = 12 height\n\
         grid 12,6 left,top c=2/columns=huge%/rows=huge% | span=1,1 => 1x width = width width\n\
         grid 12,6 left,top c=2/rows=huge% | w=huge% => 1x height = 12 height\n\
         grid 12,6 left,top c=2 | h=huge% w=huge% => 1x width = 12 6\n\
         grid 12,6 left,top c=2/rows=huge% | w=3/h=huge%/dock=left => 1x height = 12 height\n\
         grid 12,6 left,top c=2/columns=huge% | w=3/h=huge%/dock=left => 1x height = width height\n\
         grid 12,6 left,top c=1/r=1 | span=1,1 w=huge% => 1x 0,0,12,6 - / 0,0 = 12 6\n\
         grid 26,6 left,top c=2/r=1 | span=1,1 w=auto => 1x width = 26 6\n\
         grid 26,6 left,top c=2/r=1 | span=2,1 w=auto => 1x 0,0,26,6 - / 0,0 = 26 6\n\
         grid 26,6 left,top c=2/columns=huge% | => 1x / 0,0 = 0 0\n\
         grid 12,6 left,top c=2/columns=0fr,1fr | span=1,1 span=1,1 => 1x 0,0,0,6 0,0,12,6 / 0,0 = 12 6\n\
         grid 12,6 left,top c=3/columns=70000 | w=70000 => 1x 0,0,65535,6 / 196593,0 = 65535 6\n\
         grid 7,5 left,top c=3/columns=1fr,2fr | span=1,1 span=1,1 span=1,1 span=1,2 span=2,1 => 1x 0,0,1,1 1,0,4,1 5,0,2,1 0,1,1,4 1,1,6,2 / 0,0 = 7 5\n\
         grid 12,6 left,top c=3/r=3/columns=2,1fr,3/rows=1fr,1/h=1 | span=2,2 span=1,3 span=1,1 span=1,1 => 1x 0,0,8,3 9,0,3,6 0,3,2,3 3,3,5,3 / 0,0 = 12 6\n\
         grid 12,6 left,top c=2/columns=50% | w=2/dock=left span=1,1 span=1,1 => 1x 0,0,2,6 2,0,5,6 7,0,5,6 / 0,0 = 12 6\n\
         grid 12,6 left,top c=1/r=1 | w=3/h=2/g=1,1,1,1/box=1 => 1x 0,0,5,4 / 0,0 = 12 6\n\
         grid 12,6 left,top c=2/r=1 | w=50w/h=50h w=50h/h=5vw => 1x 0,0,3,3 6,0,3,4 / 0,0 = 12 6\n\
         grid 12,6 left,top c=2/r=1 | w=1/min-w=50%/h=1/min-h=50h w=1fr/max-w=25%/h=9/max-h=50w => 1x 0,0,3,3 6,0,1,3 / 0,0 = 12 6\n\
         grid 12,6 left,top c=1 | span=1,1 span=1,1/layer=1 span=1,1/layer=1 => 1x 0,0,12,6 0,0,12,3 0,3,12,3 / 0,0 = 12 6\n\
         grid 12,6 left,top c=2/r=2 | span=1,9 span=1,1 span=1,1 => 1x 0,0,6,6 6,0,6,3 6,3,6,3 / 0,0 = 12 6\n\
         grid 12,6 left,top c=3/h=9 | span=1,1 span=2,1 => 1x 0,0,0,6 9,0,9,6 / 6,0 = 18 6\n\
         grid 12,6 left,top c=2 | w=huge%/dock=top => 1x width = 12 width\n\
         grid 12,6 left,top c=3 | span=2,2 span=1,1 span=3,1 span=1,1 => 1x 0,0,8,4 8,0,4,2 0,4,12,2 8,2,4,2 / 0,0 = 12 6\n\
         grid 12,6 left,top c=2/r=3/rows=1fr,3 | w=2/h=auto w=2/h=auto/m=1,0,0,0 => 1x 0,0,2,1 6,1,2,0 / 0,0 = 12 6\n\
         grid 12,6 left,top c=2 | span=1,1/m=0,9,0,9 w=2/o=-3,2 => 1x 9,0,0,6 3,2,2,6 / 0,0 = 12 6",
        |given| answer(alloc, given),
    )
}
