//! Refreshes one after another.

ghost use Rattle.std.specs.Prelude.{◌≡◌, false, OnOk};

use super::{accepted, anew, opened, region_text, resized};
use crate::{ComposeFault, Screen, Scrolls};
use std::alloc::Global;
use std::rt::HostRuntime;
use std::test::Fail;
use tx_expect::expect;
use tx_geom::{Axis, Size};
use tx_io::{Counted, Steps};
use tx_test_kit::{grid_text, tree_of};
use tx_tree::{NodeId, Tree};

// A container that has no room on a screen 60 wide, and whose arrangement wants too large a fraction
// on one 160 wide.
const ROWS: &str = "\
Screen
  Horizontal #h
    Static .p
    Static .big
";

const SHEET: &str = "\
#h { margin: 0 30; }
.p { width: 33.333333333333333333%; }
.big { width: 999999999.999999999999999999fr; }
";

const NARROW: Size = Size {
    width: 60,
    height: 2,
};

const WIDE: Size = Size {
    width: 160,
    height: 2,
};

// Whether a refresh was refused for the width of the second row.
fn is_refused(told: Result<(), ComposeFault>) -> bool {
    match told {
        Err(ComposeFault::Fraction { node, axis }) => node.0 == 2 && is_width(axis),
        _ => false,
    }
}

fn is_width(axis: Axis) -> bool {
    match axis {
        Axis::Width => true,
        Axis::Height => false,
    }
}

// Fails unless the accepted frame is the one of the narrow screen.
fn is_narrow(alloc: Global, screen: &Screen) -> Result<(), Fail> {
    let region = region_text(alloc, screen.region(NodeId(1)))?;
    expect(region.as_str() == "0 0 60 2", "the accepted region")?;
    expect(screen.owner(59, 1).is_some(), "an owner")?;
    expect(screen.owner(60, 1).is_none(), "no owner")
}

// Accepts the narrow picture, and is refused the wide one.
fn refused(
    alloc: Global,
    screen: &mut Screen,
    tree: &Tree,
    scrolls: &Scrolls,
    narrow: Size,
    wide: Size,
) -> Result<(), Fail>
    requires { screen.old.goes_on ≡ false }
    ensures { OnOk result (screen.new.goes_on ≡ false) }
{
    accepted(screen, tree, scrolls, narrow)?;
    let told = resized(screen, tree, scrolls, narrow, wide)?;
    expect(is_refused(told), "the wide picture is refused")?;
    is_narrow(alloc, screen)
}

#[test]
fn a_refused_refresh_leaves_the_frame(rt: HostRuntime) -> Result<(), Fail> {
    let alloc = rt.alloc();
    let tree = tree_of(alloc, ROWS)?;
    let scrolls = Scrolls::new(alloc);
    let mut screen = opened(alloc, SHEET, NARROW)?;
    refused(alloc, &mut screen, &tree, &scrolls, NARROW, WIDE)
}

#[test]
fn a_refresh_follows_a_refused_one(rt: HostRuntime) -> Result<(), Fail> {
    let alloc = rt.alloc();
    let mut screen = opened(alloc, SHEET, NARROW)?;
    let scrolls = Scrolls::new(alloc);
    refused(
        alloc,
        &mut screen,
        &tree_of(alloc, ROWS)?,
        &scrolls,
        NARROW,
        WIDE,
    )?;
    shows_anew(alloc, &mut screen, &scrolls)
}

// Shows one text on the wide screen, from nothing.
fn shows_anew(alloc: Global, screen: &mut Screen, scrolls: &Scrolls) -> Result<(), Fail>
    requires { screen.old.goes_on ≡ false }
{
    let tree = tree_of(alloc, "Screen\n  Static \"ab\"\n")?;
    accepted(screen, &tree, scrolls, WIDE)?;
    let region = region_text(alloc, screen.region(NodeId(1)))?;
    expect(region.as_str() == "0 0 160 2", "the new region")?;
    expect(is_same(screen.owner(159, 0), NodeId(2)), "the new owner")
}

fn is_same(owner: Option<NodeId>, node: NodeId) -> bool {
    match owner {
        Some(found) => found.0 == node.0,
        None => false,
    }
}

// Shows a text on a screen, then on one of another size, and accepts both.
fn grown(alloc: Global, screen: &mut Screen, from: Size, to: Size) -> Result<(), Fail>
    requires { screen.old.goes_on ≡ false }
{
    let tree = tree_of(alloc, "Screen\n  Static \"ab\"\n")?;
    let scrolls = Scrolls::new(alloc);
    accepted(screen, &tree, &scrolls, from)?;
    match resized(screen, &tree, &scrolls, from, to)? {
        Ok(()) => {
            screen.accept();
            Ok(())
        }
        Err(_) => Err(Fail::from("a refresh on another size")),
    }
}

#[test]
fn a_screen_grows(rt: HostRuntime) -> Result<(), Fail> {
    let alloc = rt.alloc();
    let small = Size {
        width: 3,
        height: 1,
    };
    let mut screen = opened(alloc, "Label { }", small)?;
    grown(
        alloc,
        &mut screen,
        small,
        Size {
            width: 4,
            height: 2,
        },
    )?;
    let text = grid_text(alloc, screen.next())?;
    expect(text.as_str() == "ab  \n    \n", "the grown grid")
}

// The steps of a refresh from nothing, and whether it answered Ok.
fn counted(alloc: Global, rows: &str, size: Size) -> Result<(Counted, bool), Fail> {
    let tree = tree_of(alloc, rows)?;
    let mut screen = opened(alloc, SHEET, size)?;
    let mut steps = Steps {
        ledger: Counted::default(),
    };
    let told = anew(&mut screen, &tree, &Scrolls::new(alloc), size, &mut steps)?;
    Ok((steps.ledger, told.is_ok()))
}

#[test]
fn steps_are_counted(rt: HostRuntime) -> Result<(), Fail> {
    let alloc = rt.alloc();
    let (fine, ok) = counted(alloc, ROWS, NARROW)?;
    expect(ok, "the narrow picture")?;
    expect(fine.cells == 120, "each cell once")?;
    expect(fine.arranged == 2, "each container once")
}

#[test]
fn no_cell_is_composed_of_an_undefined_picture(rt: HostRuntime) -> Result<(), Fail> {
    let alloc = rt.alloc();
    let (none, ok) = counted(alloc, ROWS, WIDE)?;
    expect(!ok, "the wide picture")?;
    expect(none.cells == 0, "no cell")?;
    expect(none.arranged == 2, "the refused container counts")
}
