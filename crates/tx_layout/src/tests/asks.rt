//! How often the content of children is asked for.

ghost use Rattle.std.specs.Prelude.{⊤};

use crate::tests::{SCREEN, align_of, children_of, content_of, grid_of, kind_of, size_of, word_at};
use crate::{Ask, LayoutFault, arrange, tall_of, wide_of};
use std::alloc::Global;
use std::cell::Cell;
use std::test::Fail;
use tx_expect::each_line;
use tx_io::{Counted, Steps};

// How often an arrangement asks, and after it the two measures.
fn asked(alloc: Global, given: &str) -> Result<String, Fail> {
    let Some((head, words)) = given.split_once(" |") else {
        return Err(Fail::from("a row without |"));
    };
    let children = children_of(alloc, words)?;
    let grid = grid_of(alloc, word_at(head, 3))?;
    let asks: Cell<u32> = Cell::new(0);
    let measure = |ask: Ask| -> Result<u32, LayoutFault>
        requires { ⊤ }
        ensures { ⊤ }
    {
        asks.set(asks.get().saturating_add(1));
        content_of(ask)
    };
    let kind = kind_of(word_at(head, 0));
    let area = size_of(word_at(head, 1));
    let align = align_of(word_at(head, 2));
    let mut steps = Steps {
        ledger: Counted::default(),
    };
    arrange(
        alloc, kind, &grid, align, &children, area, SCREEN, &measure, &mut steps,
    )?;
    let arranged = asks.replace(0);
    wide_of(alloc, kind, &grid, &children, area, SCREEN, &measure)?;
    let wide = asks.replace(0);
    tall_of(
        alloc, kind, &grid, &children, area.width, area, SCREEN, &measure,
    )?;
    let tall = asks.get();
    Ok(format!(in alloc; "{arranged} {wide} {tall}")?)
}

// Each row has a container as in the tables, and after the arrow how often it asks when it is arranged, for
// its width and for its height.
#[test]
fn each_content_is_asked_for_once(rt: HostRuntime) -> Result<(), Fail> {
    let alloc = rt.alloc();
    each_line(
        "vertical 20,10 left,top | w=auto/h=auto w=auto/h=auto w=4/h=auto => 5 2 5\n\
         vertical 20,10 left,top | h=1fr/min-h=2 h=1fr/max-h=1 h=1fr w=auto h=auto => 2 1 2\n\
         vertical 20,10 left,top | w=auto/h=auto/layer=2 w=auto/h=auto/layer=1 w=auto/layer=2 => 5 3 5\n\
         horizontal 20,10 left,top | w=auto/h=auto w=auto/h=2 w=auto/h=auto/dock=left h=auto/dock=top => 6 3 6\n\
         grid 12,6 left,top c=2/r=1 | w=auto/h=auto w=auto/h=auto w=auto/h=auto => 4 0 0\n\
         grid 12,6 left,top c=2 | w=3/h=auto w=auto/h=auto/dock=top => 3 0 2",
        |given| asked(alloc, given),
    )
}
