//! The columns of texts, without memory.

ghost use Rattle.std.specs.Prelude.{◌≡◌, ◌*◌, ◌/◌, ◌≤◌, length};
ghost use Rattle.tx_cell.specs.Lines.{measured};
ghost use Rattle.tx_cell.specs.Strip.{line_cells, cluster_columns};
ghost use Rattle.tx_cell.specs.declared.pen.Pen as Seen;

use crate::{Cell, Pen, lines_of};
use unicode_segmentation::UnicodeSegmentation;

// The greatest number of columns that a text is said to have.
const MOST_COLUMNS: usize = 65_535;

/// The columns of the widest line of a text, at most 65,535.
///
/// The lines are those of `lines_of`, and the columns of one are the cells that `cells_of` gives
/// it. It takes no memory.
pub fn measure(text: &str) -> u32
    ensures columns { (pen : Seen.Pen) → result ≡ measured text.now pen }
{
    let mut widest = 0;
    for line in lines_of(text) {
        widest = widest.max(columns_of(line));
    }
    widest.min(MOST_COLUMNS) as u32
}

#[tactic(auto, unfolding(crate::specs::Strip::line_cells))]
fn columns_of(line: &str) -> usize
    ensures columns { (pen : Seen.Pen) → result ≡ length (line_cells line.now pen) }
{
    let mut columns = 0;
    for cluster in line.graphemes(true) {
        columns += cluster_columns(cluster);
    }
    columns
}

fn cluster_columns(cluster: &str) -> usize
    ensures columns { (pen : Seen.Pen) → result ≡ length (cluster_columns pen cluster.now) }
{
    match Cell::of(cluster, Pen::default()) {
        None => 0,
        Some(cell) => cell.width() as usize,
    }
}

/// The free columns or rows before what is aligned: none, half of them, rounded down, or all.
///
/// `halves` counts the halves of the free ones, from 0 to 2.
pub fn align(free: u32, halves: u8) -> u32
    requires halves { halves ≤ 2 }
    ensures before { result ≡ free * halves / 2 }
{
    (free as u64 * halves as u64 / 2) as u32
}
