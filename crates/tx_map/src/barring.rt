//! The bars of one row, and its children beside them.

ghost use Rattle.std.specs.Prelude.{◌≡◌, ◌*◌, ◌≤◌, ◌<◌, ℕ, [], length, drop, slice_index, All, IfOk};
ghost use Rattle.tx_layout.specs.Arrangement.{AreWithinReach};
ghost use Rattle.tx_layout.specs.Ask.{IsAnswer, told};
ghost use Rattle.tx_layout.specs.Style.{IsBoxStyle};
ghost use Rattle.tx_look.specs.Boxes.{grid_style};
ghost use Rattle.tx_map.specs.LayoutMap.{without_children};
ghost use Rattle.tx_map.specs.Subtrees.{barred_in, rows_below};
ghost use Rattle.tx_map.specs.Ticks.{ArrangedAtMost, container_number};
ghost use Rattle.tx_node_map.specs.Held.{nothing};
ghost use Rattle.tx_read.specs.Answer.{Gives};
ghost use Rattle.tx_scroll.specs.Bars.{barred};
ghost use Rattle.tx_sizes.specs.Counts.{counts, AreChildren};
ghost use Rattle.tx_sizes.specs.Forest.{forest, under};
ghost use Rattle.tx_sizes.specs.Measures.{first_measure, answer_of, measures, boxes};
ghost use Rattle.tx_value.specs.StyleReads as style;

use std::alloc::Global;
use tx_geom::Size;
use tx_io::{Ledger, Steps};
use tx_layout::{Arrangement, Ask, BoxStyle, LayoutFault};
use tx_look::grid_style;
use tx_scroll::{Barred, bars};
use tx_sizes::{StyledRow, children_of, measure};
use tx_text::Items;
use tx_value::Style;

// The content is the viewport of a row of a kind without children.
fn without_children(alloc: Global, content: Size) -> Barred
    ensures { result ≡ without_children content }
{
    Barred {
        across: false,
        down: false,
        viewport: content,
        arrangement: Arrangement {
            placed: Items::of(Vec::new(alloc)),
            over: Size {
                width: 0,
                height: 0,
            },
        },
    }
}

// The rows from a place on.
fn rows_from<'a, 'b>(rows: &'b [StyledRow<'a>], start: usize) -> &'b [StyledRow<'a>]
    requires { start ≤ length rows.now }
    ensures { result.now ≡ drop start rows.now }
{
    rows.split_at(start).1
}

// The counts from a place on.
fn counts_from(below: &[u32], start: usize) -> &[u32]
    requires { start ≤ length below.now }
    ensures { result.now ≡ drop start below.now }
{
    below.split_at(start).1
}

// The bars of a container of this style with these children, whose rows are among these.
fn bars_beside<L: Ledger>(
    alloc: Global,
    own: &Style,
    styles: &[BoxStyle],
    starts: &[u32],
    depth: u32,
    rows: &[StyledRow<'_>],
    below: &[u32],
    screen: Size,
    content: Size,
    steps: &mut Steps<L>,
) -> Result<Barred, LayoutFault>
    requires below { below.now ≡ counts rows.now }
    requires few { length rows.now ≤ 65536 }
    requires children { AreChildren own.now depth rows.now styles.now starts.now }
    requires accepted { All IsBoxStyle styles.now }
    requires as_many { length styles.now ≡ length starts.now }
    requires count { length styles.now ≤ 65536 }
    ensures exact { Gives (λ b. b) told result (barred (answer_of (measures nothing screen (under depth (forest rows.now))))
        (style.overflow_x own.now) (style.overflow_y own.now) (style.layout own.now) (grid_style own.now) (style.align own.now)
        (boxes own.now (under depth (forest rows.now))) content screen) }
    ensures near { IfOk result (λ b. AreWithinReach b.arrangement.placed) }
    ensures ticks { ArrangedAtMost L.ticked 4 steps.old.ledger steps.new.ledger }
{
    let grid = grid_style(alloc, own)?;
    let answer = |ask: Ask| -> Result<u32, LayoutFault>
        requires { (ask.child < length starts.now) × All (λ start. start < length rows.now) starts.now × (below.now ≡ counts rows.now) × (length rows.now ≤ 65536) }
        ensures { IsAnswer (first_measure nothing screen (forest (drop (slice_index starts.entry.now ask.child) rows.entry.now)) ask.width ask.area) result }
    {
        let start = starts[ask.child as usize] as usize;
        measure(
            alloc,
            rows_from(rows, start),
            counts_from(below, start),
            screen,
            ask.width,
            ask.area,
        )
    };
    bars(
        alloc,
        own.overflow_x(),
        own.overflow_y(),
        own.layout(),
        &grid,
        own.align(),
        styles,
        content,
        screen,
        &answer,
        steps,
    )
}

/// The bars of a row with a content of this size, and its children beside them. The rows are those
/// after it in preorder, each with the number of the rows below it.
pub fn bars_of<L: Ledger>(
    alloc: Global,
    own: &StyledRow<'_>,
    behind: &[StyledRow<'_>],
    below: &[u32],
    screen: Size,
    content: Size,
    steps: &mut Steps<L>,
) -> Result<Barred, LayoutFault>
    requires below { below.now ≡ counts behind.now }
    requires few { length behind.now ≤ 65536 }
    ensures exact { Gives (λ b. b) told result (barred_in nothing screen own.now behind.now content) }
    ensures near { IfOk result (λ b. AreWithinReach b.arrangement.placed) }
    ensures ticks { ArrangedAtMost L.ticked (4 * container_number own.now.row) steps.old.ledger steps.new.ledger }
{
    if !own.is_container() {
        return Ok(without_children(alloc, content));
    }
    let style = own.style();
    let depth = own.depth();
    let children = children_of(alloc, style, depth, behind, below)?;
    bars_beside(
        alloc,
        style,
        children.styles.as_slice(),
        children.starts.as_slice(),
        depth,
        behind,
        below,
        screen,
        content,
        steps,
    )
}
