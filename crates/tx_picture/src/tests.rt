//! Pictures of small trees.

mod pens;
mod pictures;

ghost use Rattle.std.specs.Prelude.{◌≡◌, true};
ghost use Rattle.tx_picture.specs.Given.{AreBuiltIn};
ghost use Rattle.tx_tree.specs.Kind.{is_handed};

use crate::picture_of;
use std::alloc::Global;
use std::test::Fail;
use tx_cascade::Styles;
use tx_cell::Grid;
use tx_geom::{Rgb, Size};
use tx_io::{Counted, Steps};
use tx_map::{LayoutMap, Present, Scrolls};
use tx_owner::Owners;
use tx_parse::Sheet;
use tx_select::Pseudo;
use tx_test_kit::{lines_of, number_of, pair_of, sheet_of, tree_of};
use tx_tree::{Kind, NodeId, Tree};

// Scrolls by nodes: `NODE:COLUMNS ROWS`.
fn scrolls_of(alloc: Global, text: &str) -> Result<Scrolls, Fail> {
    let mut scrolls = Scrolls::new(alloc);
    if let Some((node, scroll)) = text.split_once(':') {
        scrolls.insert(NodeId(number_of(node)?), pair_of(scroll)?)?;
    }
    Ok(scrolls)
}

// What is said of the pseudo state: `light`, or `focus NODE`.
fn pseudo_of(text: &str) -> Result<Pseudo, Fail> {
    let mut pseudo = Pseudo {
        focused: None,
        pointed: None,
        dark: text != "light",
    };
    if let Some(node) = text.strip_prefix("focus ") {
        pseudo.focused = Some(NodeId(number_of(node)?));
    }
    Ok(pseudo)
}

// Whether a kind is handed in.
fn is_handed(kind: &Kind) -> bool
    ensures { result ≡ is_handed kind.now }
{
    matches!(kind, Kind::Handed(_))
}

// Whether no row is of a kind that is handed in.
fn is_built_in(tree: &Tree) -> bool
    ensures { result ≡ true → AreBuiltIn tree.now.rows }
{
    for row in tree.walk() {
        if is_handed(&row.kind) {
            return false;
        }
    }
    true
}

// The picture of what is shown, and how many cells were counted.
fn picture_in(
    alloc: Global,
    tree: &Tree,
    sheet: &Sheet,
    pseudo: &Pseudo,
    scrolls: &Scrolls,
    size: Size,
) -> Result<(Grid, u64), Fail> {
    let mut steps = Steps {
        ledger: Counted::default(),
    };
    let styles = Styles::open(alloc, sheet, tree, pseudo, &mut steps)?;
    let present = Present {
        tree,
        pseudo,
        scrolls,
        size,
    };
    let Ok(map) = LayoutMap::of(alloc, &present, &styles, &mut steps) else {
        return Err(Fail::from("a map"));
    };
    let owners = Owners::of(alloc, &map, &styles, size)?;
    if !is_built_in(tree) {
        return Err(Fail::from("a built-in kind"));
    }
    let grid = picture_of(alloc, &present, &styles, &map, &owners, &mut steps)?;
    Ok((grid, steps.ledger.cells))
}

// A size, a tree, a sheet, the pseudo state and a scroll, between ` | `.
#[derive(Clone, Copy)]
struct Words<'a> {
    size: &'a str,
    rows: &'a str,
    sheet: &'a str,
    pseudo: &'a str,
    scroll: &'a str,
}

fn words_of(line: &str) -> Option<Words<'_>> {
    let (size, rest) = line.split_once(" | ")?;
    let (rows, rest) = rest.split_once(" | ")?;
    let (sheet, rest) = rest.split_once(" |")?;
    let (pseudo, scroll) = rest.split_once("|")?;
    Some(Words {
        size,
        rows,
        sheet,
        pseudo,
        scroll,
    })
}

// The picture that a line says.
fn picture_by(alloc: Global, line: &str) -> Result<(Grid, u64), Fail> {
    let Some(words) = words_of(line) else {
        return Err(Fail::from("five parts"));
    };
    let lines = lines_of(alloc, words.rows)?;
    let tree = tree_of(alloc, lines.as_str())?;
    let sheet = sheet_of(alloc, words.sheet)?;
    let pseudo = pseudo_of(words.pseudo)?;
    let scrolls = scrolls_of(alloc, words.scroll)?;
    let (width, height) = pair_of(words.size)?;
    picture_in(
        alloc,
        &tree,
        &sheet,
        &pseudo,
        &scrolls,
        Size { width, height },
    )
}

fn colour_text(alloc: Global, colour: Rgb) -> Result<String, Fail> {
    Ok(format!(in alloc; "{:02x}{:02x}{:02x}", colour.r, colour.g, colour.b)?)
}
