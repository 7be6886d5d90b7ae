//! Containers in a container: the content of a child is that of its own children.

ghost use Rattle.std.specs.Prelude.{⊤, ◌≤◌, length, All};
ghost use Rattle.tx_layout.specs.Style.{IsBoxStyle, IsGridStyle};

use crate::tests::{
    SCREEN, arranged_written, children_of, content_of, grid_of, kind_of, measure_written,
    number_of, size_of, word_at,
};
use crate::{Ask, BoxStyle, GridStyle, LayoutFault, arrange, tall_of, wide_of};
use std::alloc::Global;
use std::test::Fail;
use tx_expect::each_line;
use tx_geom::{AlignX, AlignY, LayoutKind};
use tx_io::{Counted, Steps};

// The content of a container whose children have contents of their own.
fn content_within(
    alloc: Global,
    kind: LayoutKind,
    grid: &GridStyle,
    children: &[BoxStyle],
    ask: Ask,
) -> Result<u32, LayoutFault>
    requires grid { IsGridStyle grid.now }
    requires styles { All IsBoxStyle children.now }
    requires count { length children.now ≤ 20 }
{
    let measure = |ask: Ask| -> Result<u32, LayoutFault>
        requires { ⊤ }
        ensures { ⊤ }
    { content_of(ask) };
    match ask.width {
        None => wide_of(alloc, kind, grid, children, ask.area, SCREEN, &measure),
        Some(width) => tall_of(
            alloc, kind, grid, children, width, ask.area, SCREEN, &measure,
        ),
    }
}

// The arrangement of children that are containers, each with the same children of its own, and after
// it the width that is asked for in the area and the height at another width.
fn nested_written(
    alloc: Global,
    head: &str,
    outer: &[BoxStyle],
    kind: LayoutKind,
    grid: &GridStyle,
    inner: &[BoxStyle],
) -> Result<String, Fail>
    requires outer { All IsBoxStyle outer.now }
    requires outer_count { length outer.now ≤ 20 }
    requires grid { IsGridStyle grid.now }
    requires inner { All IsBoxStyle inner.now }
    requires inner_count { length inner.now ≤ 20 }
{
    let measure = |ask: Ask| -> Result<u32, LayoutFault>
        requires { IsGridStyle grid.now × All IsBoxStyle inner.now × (length inner.now ≤ 20) }
        ensures { ⊤ }
    { content_within(alloc, kind, grid, inner, ask) };
    let main = kind_of(word_at(head, 0));
    let area = size_of(word_at(head, 1));
    let width = number_of(word_at(head, 2));
    let start = (AlignX::Left, AlignY::Top);
    let mut steps = Steps {
        ledger: Counted::default(),
    };
    let arranged = arrange(
        alloc, main, grid, start, outer, area, SCREEN, &measure, &mut steps,
    );
    let wide = wide_of(alloc, main, grid, outer, area, SCREEN, &measure);
    let tall = tall_of(alloc, main, grid, outer, width, area, SCREEN, &measure);
    Ok(format!(in alloc;
        "{}x {} = {} {}",
        steps.ledger.arranged,
        arranged_written(alloc, arranged)?,
        measure_written(alloc, wide)?,
        measure_written(alloc, tall)?
    )?)
}

fn nested_answer(alloc: Global, given: &str) -> Result<String, Fail> {
    let mut parts = given.split('|');
    let head = parts.next().ok_or("a container")?;
    let outer = children_of(alloc, parts.next().ok_or("its children")?)?;
    let within = parts.next().ok_or("the layout of each")?;
    let inner = children_of(alloc, parts.next().ok_or("the children of each")?)?;
    let grid = grid_of(alloc, word_at(within, 1))?;
    let kind = kind_of(word_at(within, 0));
    nested_written(alloc, head, &outer, kind, &grid, &inner)
}

// Each row has the kind, the area, the width at which the height is asked for, the children, and what
// each child that is as large as its content holds: a kind and children.
#[test]
fn containers_are_measured_by_their_children(rt: HostRuntime) -> Result<(), Fail> {
    let alloc = rt.alloc();
    each_line(
        "vertical 20,10 15 | w=auto/h=auto/g=1,1,1,1 | vertical | w=auto/h=auto w=5/h=2 => 1x 0,0,11,8 / 0,0 = 11 width\n\
         vertical 20,10 12 | w=auto/h=auto/g=1,1,1,1 | vertical | w=auto/h=auto w=5/h=2 => 1x 0,0,11,8 / 0,0 = 11 7\n\
         vertical 20,10 8 | w=50%/h=50w | vertical | => 1x 0,0,10,10 / 0,0 = 10 4\n\
         vertical 20,10 20 | w=auto/h=auto/m=1,1,1,1 | vertical | w=50%/h=50% w=25%/h=1fr => 1x 1,1,9,8 / 0,0 = 11 10\n\
         vertical 20,10 20 | w=auto/h=auto | vertical | w=4/h=2/layer=1 w=7/h=1/layer=2 w=2/h=2/layer=1 => 1x 0,0,7,4 / 0,0 = 7 4\n\
         vertical 20,10 20 | w=auto/h=auto | vertical | h=40000 h=40000 => 1x 0,0,20,65535 / 0,65525 = 20 65535\n\
         vertical 20,10 20 | w=auto/h=auto/g=1,1,1,1 | vertical | w=7/h=2 => 1x 0,0,9,4 / 0,0 = 9 4\n\
         horizontal 20,10 20 | w=auto/h=auto/g=1,1,1,1 w=auto/h=auto/g=1,1,1,1 | vertical | w=7/h=2 => 1x 0,0,9,4 9,0,9,4 / 0,0 = 18 4\n\
         vertical 20,10 20 | w=5/h=auto | vertical | w=huge% => 1x height = 5 height\n\
         vertical 20,10 20 | w=auto/h=auto | grid c=3/columns=2,1fr/rows=2/h=1/v=1 | span=1,1 span=1,1 span=1,1 span=1,1 => 1x 0,0,20,5 / 0,0 = 20 5\n\
         vertical 20,10 20 | w=auto/h=auto/g=1,2,1,2 h=1 | grid c=2 | => 1x 0,0,4,2 0,2,20,1 / 0,0 = 20 3\n\
         horizontal 20,10 30 | w=auto/h=auto h=1 | horizontal | w=3/h=auto w=2/dock=left h=2/dock=top w=4/h=3 => 1x 0,0,9,5 9,0,11,1 / 0,0 = 20 5\n\
         horizontal 20,10 20 | w=auto/h=2 h=huge% | horizontal | h=huge% => 1x height = 20 height",
        |given| nested_answer(alloc, given),
    )
}
