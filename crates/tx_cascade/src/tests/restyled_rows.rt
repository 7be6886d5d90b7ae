//! Styles that are worked out anew after rows came, went or moved.
ghost use Rattle.std.specs.Prelude.{◌≡◌, OnOk};
ghost use Rattle.tx_cascade.specs.Styles.{scene};

use super::restyled::show_as;
use super::{STILL, planted, row_of, sheet_of};
use crate::laws::tree_edits_lead;
use crate::{Edit, Styles};
use std::alloc::Global;
use std::rt::HostRuntime;
use std::test::Fail;
use tx_io::{Counted, Steps};
use tx_parse::Sheet;
use tx_select::Pseudo;
use tx_tree::{Kind, NewRow, NodeId, Tree};

const SHEET: &str = "\
#q:first-child { color: blue; }
#q:last-child { text-style: dim; }
#n { color: lime; }";

const ALONE: &str = "Foregroundmarks ;Foregroundmarks ;#0000ffmarks d;#0000ffmarks d;;";

const BEHIND: &str = "Foregroundmarks ;Foregroundmarks ;#0000ffmarks ;#0000ffmarks ;#00ff00marks ;";

const AHEAD: &str =
    "Foregroundmarks ;Foregroundmarks ;Foregroundmarks d;Foregroundmarks d;#00ff00marks ;";

/// The styles after a row was mounted.
fn after_mounted(
    styles: &mut Styles,
    sheet: &Sheet,
    tree: &mut Tree,
    pseudo: &Pseudo,
    parent: NodeId,
    row: NewRow,
) -> Result<(), Fail>
    requires { styles.old ≡ scene sheet.now tree.old.rows pseudo.now }
    ensures { OnOk result (styles.new ≡ scene sheet.now tree.new.rows pseudo.now) }
{
    tree_edits_lead();
    let _root = tree.root();
    let mut steps = Steps {
        ledger: Counted::default(),
    };
    let Ok(node) = tree.mount(parent, row) else {
        return Err(Fail::from("no row came"));
    };
    let edits = [Edit::Mounted { node, parent }];
    styles.restyle(sheet, tree, pseudo, &edits, &mut steps)?;
    Ok(())
}

/// The styles after a row was removed.
fn after_removed(
    styles: &mut Styles,
    sheet: &Sheet,
    tree: &mut Tree,
    pseudo: &Pseudo,
    node: NodeId,
) -> Result<(), Fail>
    requires { styles.old ≡ scene sheet.now tree.old.rows pseudo.now }
    ensures { OnOk result (styles.new ≡ scene sheet.now tree.new.rows pseudo.now) }
{
    tree_edits_lead();
    let _root = tree.root();
    let mut steps = Steps {
        ledger: Counted::default(),
    };
    let Some(parent) = tree.parent(node) else {
        return Err(Fail::from("no parent"));
    };
    let Ok(()) = tree.remove(node) else {
        return Err(Fail::from("no row went"));
    };
    let edits = [Edit::Removed { node, parent }];
    styles.restyle(sheet, tree, pseudo, &edits, &mut steps)?;
    Ok(())
}

/// The styles after a row was moved before another.
fn after_moved(
    styles: &mut Styles,
    sheet: &Sheet,
    tree: &mut Tree,
    pseudo: &Pseudo,
    node: NodeId,
    before: NodeId,
) -> Result<(), Fail>
    requires { styles.old ≡ scene sheet.now tree.old.rows pseudo.now }
    ensures { OnOk result (styles.new ≡ scene sheet.now tree.new.rows pseudo.now) }
{
    tree_edits_lead();
    let _root = tree.root();
    let mut steps = Steps {
        ledger: Counted::default(),
    };
    let Some(parent) = tree.parent(node) else {
        return Err(Fail::from("no parent"));
    };
    let Ok(()) = tree.move_before(node, before) else {
        return Err(Fail::from("no row moved"));
    };
    let edits = [Edit::Moved { node, parent }];
    styles.restyle(sheet, tree, pseudo, &edits, &mut steps)?;
    Ok(())
}

/// The tree of [`planted`], with a Container `#n`, 5, behind the Container `#q`.
fn with_neighbour(alloc: Global) -> Result<Tree, Fail> {
    let mut tree = planted(alloc, "")?;
    let row = row_of(alloc, Kind::Container, "n", "")?;
    tree.mount(NodeId(2), row)?;
    Ok(tree)
}

#[test]
fn a_row_comes(rt: HostRuntime) -> Result<(), Fail> {
    let alloc = rt.alloc();
    let sheet = sheet_of(alloc, SHEET)?;
    let mut tree = planted(alloc, "")?;
    let row = row_of(alloc, Kind::Container, "n", "")?;
    let mut steps = Steps {
        ledger: Counted::default(),
    };
    let mut styles = Styles::open(alloc, &sheet, &tree, &STILL, &mut steps)?;
    after_mounted(&mut styles, &sheet, &mut tree, &STILL, NodeId(2), row)?;
    show_as(alloc, &styles, &sheet, &tree, &STILL, BEHIND)
}

#[test]
fn a_row_moves(rt: HostRuntime) -> Result<(), Fail> {
    let alloc = rt.alloc();
    let sheet = sheet_of(alloc, SHEET)?;
    let mut tree = with_neighbour(alloc)?;
    let mut steps = Steps {
        ledger: Counted::default(),
    };
    let mut styles = Styles::open(alloc, &sheet, &tree, &STILL, &mut steps)?;
    after_moved(&mut styles, &sheet, &mut tree, &STILL, NodeId(5), NodeId(3))?;
    show_as(alloc, &styles, &sheet, &tree, &STILL, AHEAD)
}

#[test]
fn rows_go(rt: HostRuntime) -> Result<(), Fail> {
    let alloc = rt.alloc();
    let sheet = sheet_of(alloc, SHEET)?;
    let mut tree = with_neighbour(alloc)?;
    let mut steps = Steps {
        ledger: Counted::default(),
    };
    let mut styles = Styles::open(alloc, &sheet, &tree, &STILL, &mut steps)?;
    after_removed(&mut styles, &sheet, &mut tree, &STILL, NodeId(5))?;
    show_as(alloc, &styles, &sheet, &tree, &STILL, ALONE)?;
    after_removed(&mut styles, &sheet, &mut tree, &STILL, NodeId(2))?;
    show_as(
        alloc,
        &styles,
        &sheet,
        &tree,
        &STILL,
        "Foregroundmarks ;;;;;",
    )
}
