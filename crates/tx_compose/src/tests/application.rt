//! The regions of a whole application.

use super::{accepted, opened, region_text};
use crate::{Screen, Scrolls};
use std::alloc::Global;
use std::rt::HostRuntime;
use std::test::Fail;
use tx_expect::expect;
use tx_geom::Size;
use tx_test_kit::tree_of;
use tx_tree::{Name, NodeId, Tree};

const TREE: &str = "\
Screen
  bind ctrl+d toggle_dark
  Header #head \"Parcels\"
  Footer #foot \"^d dark  tab next\"
  Vertical #side
    Label #title .title \"Depots\"
    OptionList #depots \"North\\nSouth\\nEast\"
  Vertical #main
    Input #find
    Grid #keys
      Button #new \"New\"
      Button #open \"Open\"
      Button #close \"Close\"
      Checkbox #late \"Late only\"
    ProgressBar #load total 40
";

const SHEET: &str = "\
$edge: $panel;
#side { dock: left; width: 18; margin: 1 0; padding: 0 1; border: round $edge; background: $surface; }
.title { text-style: bold; margin: 0 0 1 0; }
#main { padding: 1 2; }
#keys { grid-size: 2; grid-rows: 3; grid-gutter: 1 2; }
#load { width: 100%; margin: 1 0 0 0; }
Button:hover { background: $primary 60%; }
.busy Button { color: $warning; }
";

// The node of an id.
fn node_of(tree: &Tree, id: &str) -> Result<NodeId, Fail> {
    let name = Name::of(id);
    for row in tree.walk() {
        if row.id == name {
            return Ok(row.node);
        }
    }
    Err(Fail::from("an id"))
}

// Fails unless each row has the region that its line says.
fn all_stand(alloc: Global, screen: &Screen, tree: &Tree, table: &str) -> Result<(), Fail> {
    for line in table.split('\n') {
        let Some((id, wanted)) = line.split_once(" => ") else {
            return Err(Fail::from("a line of the table"));
        };
        let found = region_text(alloc, screen.region(node_of(tree, id)?))?;
        expect(found.as_str() == wanted, "a region")?;
    }
    Ok(())
}

// Fails unless the rows of these ids stand there on a screen opened anew.
fn stands_so(alloc: Global, size: Size, table: &str) -> Result<(), Fail> {
    let tree = tree_of(alloc, TREE)?;
    let scrolls = Scrolls::new(alloc);
    let mut screen = opened(alloc, SHEET, size)?;
    accepted(&mut screen, &tree, &scrolls, size)?;
    all_stand(alloc, &screen, &tree, table)
}

#[test]
fn an_application_fills_a_screen(rt: HostRuntime) -> Result<(), Fail> {
    stands_so(
        rt.alloc(),
        Size {
            width: 60,
            height: 20,
        },
        "\
head => 0 0 60 1
foot => 0 19 60 1
side => 0 1 18 18
title => 2 2 6 1
depots => 2 4 14 3
main => 18 1 42 18
find => 20 2 38 3
keys => 20 5 38 11
new => 20 5 16 3
open => 40 5 16 3
close => 20 9 16 3
late => 40 9 13 1
load => 20 17 38 1",
    )
}

#[test]
fn an_application_fills_a_small_screen(rt: HostRuntime) -> Result<(), Fail> {
    stands_so(
        rt.alloc(),
        Size {
            width: 40,
            height: 12,
        },
        "\
head => 0 0 40 1
foot => 0 11 40 1
side => 0 1 18 10
title => 2 2 6 1
depots => 2 4 14 3
main => 18 1 22 10
find => 20 2 18 3
keys => 20 5 18 3
new => 20 5 8 3
open => 30 5 8 3
close => 20 9 8 3
late => 30 9 8 1
load => 20 9 18 1",
    )
}
