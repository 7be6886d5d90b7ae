mod pictures;

ghost use Rattle.std.specs.Prelude.{◌≡◌, IfOk};

use crate::Owners;
use std::alloc::Global;
use std::rt::HostRuntime;
use std::test::Fail;
use tx_cascade::Styles;
use tx_expect::expect;
use tx_geom::Size;
use tx_io::{Counted, Steps};
use tx_map::{LayoutMap, Present, Scrolls};
use tx_parse::Sheet;
use tx_select::Pseudo;
use tx_test_kit::{sheet_of, tree_of};
use tx_tree::{NodeId, Tree};

const STILL: Pseudo = Pseudo {
    focused: None,
    pointed: None,
    dark: true,
};

// The styles of a tree.
fn styles_of(alloc: Global, sheet: &Sheet, tree: &Tree) -> Result<Styles, Fail>
    ensures { IfOk result (λ styles. styles.rows ≡ tree.now.rows) }
{
    let mut steps = Steps {
        ledger: Counted::default(),
    };
    Ok(Styles::open(alloc, sheet, tree, &STILL, &mut steps)?)
}

// The map of a tree with these styles.
fn map_of(
    alloc: Global,
    tree: &Tree,
    styles: &Styles,
    scrolls: &Scrolls,
    size: Size,
) -> Result<LayoutMap, Fail>
    requires { styles.now.rows ≡ tree.now.rows }
{
    let mut steps = Steps {
        ledger: Counted::default(),
    };
    let present = Present {
        tree,
        pseudo: &STILL,
        scrolls,
        size,
    };
    match LayoutMap::of(alloc, &present, styles, &mut steps) {
        Ok(map) => Ok(map),
        Err(_) => Err(Fail::from("a map")),
    }
}

#[test]
fn nothing_owns_what_is_outside(rt: HostRuntime) -> Result<(), Fail> {
    let alloc = rt.alloc();
    let size = Size {
        width: 4,
        height: 2,
    };
    let tree = tree_of(alloc, "Screen\n  Static \"ab\"\n")?;
    let styles = styles_of(alloc, &sheet_of(alloc, "Label { }")?, &tree)?;
    let map = map_of(alloc, &tree, &styles, &Scrolls::new(alloc), size)?;
    let owners = Owners::of(alloc, &map, &styles, size)?;
    let inside = owners.at(3, 0) == Some(1) && owners.at(3, 1) == Some(0);
    let outside = owners.at(4, 0).is_none() && owners.at(0, 2).is_none();
    let other = owners.spot(NodeId(9)).is_none() && owners.line(2).is_none();
    expect(inside && outside && other, "an owner")?;
    expect(owners.size() == size, "the size")
}
