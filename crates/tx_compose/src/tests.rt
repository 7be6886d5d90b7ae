mod application;
mod gallery;
mod marks;
mod reads;
mod refreshes;

ghost use Rattle.std.specs.Prelude.{◌≡◌, true, false, Some, None, IfOk, OnOk, unwrap_or};
ghost use Rattle.std.specs.List.{list_any};
ghost use Rattle.tx_compose.specs.ScrollsKept.{differs, is_out};
ghost use Rattle.tx_compose.specs.Presented.{IsScreen, presented};
ghost use Rattle.tx_node_map.specs.Held.{held};
ghost use Rattle.tx_tree.specs.Kind.{is_handed};

use crate::{ComposeFault, Present, Screen, Scrolls};
use std::alloc::Global;
use std::test::Fail;
use tx_cascade::Edit;
use tx_cascade::laws::edits_lead;
use tx_cell::{Cell, Grid, Pen};
use tx_geom::{Region, Size};
use tx_io::{Counted, MemorySink, Steps};
use tx_select::Pseudo;
use tx_term::{Terminal, present};
use tx_test_kit::{lines_of, number_of, pair_of, sheet_of, tree_of};
use tx_tree::{Kind, NodeId, Row, Tree};

pub const STILL: Pseudo = Pseudo {
    focused: None,
    pointed: None,
    dark: true,
};

// Scrolls in which nothing is said of any row but the first, which is scrolled down so far.
pub fn scrolled_down(alloc: Global, rows: u32) -> Result<Scrolls, Fail> {
    let mut scrolls = Scrolls::new(alloc);
    scrolls.insert(NodeId(1), (0, rows))?;
    Ok(scrolls)
}

fn is_handed(row: &Row) -> bool
    ensures { result ≡ is_handed row.now.kind }
{
    match row.kind {
        Kind::Handed(_) => true,
        _ => false,
    }
}

// Whether a row of a tree is of a kind that is handed in.
fn has_handed(tree: &Tree) -> bool
    ensures { result ≡ list_any (λ row. is_handed row.kind) tree.now.rows }
{
    for row in tree.walk() {
        if is_handed(row) {
            return true;
        }
    }
    false
}

// Whether a size is within the limits.
fn is_screen(size: Size) -> bool
    ensures { result ≡ true → IsScreen size }
{
    (1 <= size.width && size.width <= 1024) && (1 <= size.height && size.height <= 512)
}

// A screen of a size, on which nothing was shown.
pub fn opened(alloc: Global, sheet: &str, size: Size) -> Result<Screen, Fail>
    ensures { IfOk result (λ screen. (screen.goes_on ≡ false) × (screen.accepted ≡ None)) }
{
    if !is_screen(size) {
        return Err(Fail::from("a size"));
    }
    Ok(Screen::open(alloc, sheet_of(alloc, sheet)?, size)?)
}

// What a refresh that starts from nothing answers.
pub fn anew_in(
    screen: &mut Screen,
    present: &Present<'_>,
    steps: &mut Steps<Counted>,
) -> Result<Result<(), ComposeFault>, Fail>
    requires { screen.old.goes_on ≡ false }
    ensures fresh { screen.new.goes_on ≡ false }
    ensures sheet { screen.new.sheet ≡ screen.old.sheet }
    ensures kept { screen.new.accepted ≡ screen.old.accepted }
    ensures shown { IfOk result (λ told. OnOk told (screen.new.next ≡ Some (presented screen.old.sheet present.now.tree.now.rows present.now.pseudo.now present.now.scrolls.now present.now.size))) }
{
    if !is_screen(present.size) || has_handed(present.tree) {
        return Err(Fail::from("a size or a tree"));
    }
    Ok(screen.refresh(present, &[], steps))
}

// What a refresh that starts from nothing answers, where no row has the focus.
pub fn anew(
    screen: &mut Screen,
    tree: &Tree,
    scrolls: &Scrolls,
    size: Size,
    steps: &mut Steps<Counted>,
) -> Result<Result<(), ComposeFault>, Fail>
    requires { screen.old.goes_on ≡ false }
    ensures fresh { screen.new.goes_on ≡ false }
    ensures sheet { screen.new.sheet ≡ screen.old.sheet }
    ensures kept { screen.new.accepted ≡ screen.old.accepted }
    ensures shown { IfOk result (λ told. OnOk told (screen.new.next ≡ Some (presented screen.old.sheet tree.now.rows STILL scrolls.now size))) }
{
    let pseudo = STILL;
    let present = Present {
        tree,
        pseudo: &pseudo,
        scrolls,
        size,
    };
    anew_in(screen, &present, steps)
}

// A refresh from nothing that is fine, and accepted.
pub fn accepted(screen: &mut Screen, tree: &Tree, scrolls: &Scrolls, size: Size) -> Result<(), Fail>
    requires { screen.old.goes_on ≡ false }
    ensures shown { OnOk result (screen.new.accepted ≡ Some (presented screen.new.sheet tree.now.rows STILL scrolls.now size)) }
{
    let mut steps = Steps {
        ledger: Counted::default(),
    };
    match anew(screen, tree, scrolls, size, &mut steps)? {
        Ok(()) => {
            screen.accept();
            Ok(())
        }
        Err(_) => Err(Fail::from("a refresh")),
    }
}

fn differs(kept: (u32, u32), scroll: (u32, u32)) -> bool
    ensures { result ≡ differs (Some kept) scroll }
{
    kept.0 != scroll.0 || kept.1 != scroll.1
}

// Whether a row is scrolled otherwise than the accepted frame keeps it.
fn is_out(screen: &Screen, scrolls: &Scrolls, row: &Row) -> bool
    ensures { result ≡ is_out screen.now.accepted scrolls.now row.now }
{
    match screen.scroll(row.node) {
        Some(kept) => differs(kept, scroll_for(scrolls, row.node)),
        None => false,
    }
}

// Whether some row is.
fn has_out(screen: &Screen, scrolls: &Scrolls, tree: &Tree) -> bool
    ensures { result ≡ list_any (is_out screen.now.accepted scrolls.now) tree.now.rows }
{
    for row in tree.walk() {
        if is_out(screen, scrolls, row) {
            return true;
        }
    }
    false
}

// How far a row is to be scrolled.
fn scroll_for(scrolls: &Scrolls, node: NodeId) -> (u32, u32)
    ensures { result ≡ unwrap_or (held scrolls.now node.0) (0, 0) }
{
    match scrolls.get(node) {
        Some(scroll) => *scroll,
        None => (0, 0),
    }
}

// What a refresh answers that goes on to the same rows on a screen of another size. The frame has to
// have kept the scrolls.
pub fn resized(
    screen: &mut Screen,
    tree: &Tree,
    scrolls: &Scrolls,
    before: Size,
    size: Size,
) -> Result<Result<(), ComposeFault>, Fail>
    requires { screen.old.accepted ≡ Some (presented screen.old.sheet tree.now.rows STILL scrolls.now before) }
    ensures fresh { IfOk result (λ told. screen.new.goes_on ≡ false) }
    ensures kept { IfOk result (λ told. screen.new.accepted ≡ screen.old.accepted) }
    ensures shown { IfOk result (λ told. OnOk told (screen.new.next ≡ Some (presented screen.old.sheet tree.now.rows STILL scrolls.now size))) }
{
    edits_lead();
    if !is_screen(size) || has_handed(tree) || has_out(screen, scrolls, tree) {
        return Err(Fail::from("a size, a tree or scrolls"));
    }
    let pseudo = STILL;
    let present = Present {
        tree,
        pseudo: &pseudo,
        scrolls,
        size,
    };
    let mut steps = Steps {
        ledger: Counted::default(),
    };
    Ok(screen.refresh(&present, &[Edit::Resized], &mut steps))
}

// What is said of the state: `light`, `focus NODE`, or nothing.
fn pseudo_of(text: &str) -> Result<Pseudo, Fail> {
    let mut pseudo = STILL;
    pseudo.dark = text != "light";
    if let Some(node) = text.strip_prefix("focus ") {
        pseudo.focused = Some(NodeId(number_of(node)?));
    }
    Ok(pseudo)
}

// How far the Screen is scrolled: `scroll COLUMNS ROWS`, or not at all.
fn scrolls_of(alloc: Global, text: &str) -> Result<Scrolls, Fail> {
    let mut scrolls = Scrolls::new(alloc);
    if let Some(places) = text.strip_prefix("scroll ") {
        scrolls.insert(NodeId(1), pair_of(places)?)?;
    }
    Ok(scrolls)
}

// The screen that shows a tree under a sheet in a state.
fn screen_of(
    alloc: Global,
    rows: &str,
    sheet: &str,
    state: &str,
    size: Size,
) -> Result<Screen, Fail> {
    let tree = tree_of(alloc, lines_of(alloc, rows)?.as_str())?;
    let mut screen = opened(alloc, sheet, size)?;
    let pseudo = pseudo_of(state)?;
    let scrolls = scrolls_of(alloc, state)?;
    let present = Present {
        tree: &tree,
        pseudo: &pseudo,
        scrolls: &scrolls,
        size,
    };
    shown_on(&mut screen, &present)?;
    Ok(screen)
}

// Shows what is present on a screen that nothing was shown on.
fn shown_on(screen: &mut Screen, present: &Present<'_>) -> Result<(), Fail>
    requires { screen.old.goes_on ≡ false }
{
    let mut steps = Steps {
        ledger: Counted::default(),
    };
    match anew_in(screen, present, &mut steps)? {
        Ok(()) => Ok(()),
        Err(_) => Err(Fail::from("a refresh")),
    }
}

// A terminal that has read the whole update to a grid.
fn terminal_of(alloc: Global, next: &Grid) -> Result<Terminal, Fail> {
    let size = next.size();
    if !is_screen(size) {
        return Err(Fail::from("a size"));
    }
    let mut terminal = Terminal::open(alloc, size)?;
    let mut shown = Grid::open(alloc, size, Cell::blank(Pen::WHITE_ON_BLACK))?;
    let mut sink = MemorySink::new(alloc, Vec::new(alloc));
    let _sent = present(&mut shown, next, true, &mut sink);
    terminal.feed(sink.taken());
    Ok(terminal)
}

// The terminal on which a line is shown: a size, a tree, a sheet and the state, between ` | `.
pub fn terminal_by(alloc: Global, line: &str) -> Result<Terminal, Fail> {
    let (size, rest) = line.split_once(" | ").ok_or("a size")?;
    let (rows, rest) = rest.split_once(" | ").ok_or("a tree")?;
    let (sheet, state) = rest.split_once(" |").ok_or("a sheet")?;
    let (width, height) = pair_of(size)?;
    let screen = screen_of(alloc, rows, sheet, state, Size { width, height })?;
    terminal_of(alloc, screen.next())
}

// A region as `X Y WIDTH HEIGHT`, or nothing.
pub fn region_text(alloc: Global, region: Option<Region>) -> Result<String, Fail> {
    let Some(region) = region else {
        return Ok(String::from_str(alloc, "nowhere")?);
    };
    Ok(format!(in alloc;
        "{} {} {} {}",
        region.x, region.y, region.width, region.height
    )?)
}

// A cell as `X Y`, or nothing.
pub fn cell_text(alloc: Global, cell: Option<(u32, u32)>) -> Result<String, Fail> {
    match cell {
        Some((x, y)) => Ok(format!(in alloc; "{x} {y}")?),
        None => Ok(String::from_str(alloc, "nowhere")?),
    }
}
