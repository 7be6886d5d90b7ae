//! How wide and how tall a widget wants to be.

ghost use Rattle.std.specs.Prelude.{◌≡◌, ◌<◌, ◌≤◌, ◌^◌, false, length, min, IfOk};
ghost use Rattle.tx_cell.specs.Strip.{line_cells};
ghost use Rattle.tx_cell.specs.declared.pen.Pen as Seen;
ghost use Rattle.tx_tree.specs.Kind.{holds_children, is_handed};
ghost use Rattle.tx_widgets.specs.Measures.{most, text_height, wanted_height, wanted_width};

use crate::drawing::boxes::first_line;
use crate::drawing::field::cluster_columns;
use crate::drawing::form::line_count;
use std::alloc::Global;
use tx_cell::{Pen, measure, wrap};
use tx_text::{NoMemory, Text};
use tx_tree::Kind;
use unicode_segmentation::UnicodeSegmentation;

// The greatest measure.
const MOST: u32 = 65_535;

/// The columns that a widget wants, at most 65,535. It takes no memory.
///
/// A Static, Label, Button, Header and Footer wants the columns of its text's widest line, an
/// OptionList too; a Checkbox 4 more than those of its first line; an Input 1 more than those of
/// its text as one line; a ProgressBar 32.
pub fn wide(kind: &Kind, text: &Text) -> u32
    requires leaf { holds_children kind.now ≡ false }
    requires built_in { is_handed kind.now ≡ false }
    ensures columns { (pen : Seen.Pen) → result ≡ wanted_width kind.now text.now pen }
{
    let text = text.as_str();
    match kind {
        Kind::Checkbox => capped(columns_of(first_line(text)) + 4),
        Kind::Input => capped(columns_of(text) + 1),
        Kind::ProgressBar => 32,
        _ => measure(text),
    }
}

/// The rows that a widget wants at a width, at most 65,535.
///
/// A Static, Label, Button, Header and Footer wants as many rows as its text has lines, wrapped at
/// that width; an OptionList as many as its text has lines; the others want one.
pub fn tall(alloc: Global, kind: &Kind, text: &Text, width: u32) -> Result<u32, NoMemory>
    requires leaf { holds_children kind.now ≡ false }
    requires built_in { is_handed kind.now ≡ false }
    requires short { length text.now < 2 ^ 32 }
    ensures rows { IfOk result (λ rows. (pen : Seen.Pen) → rows ≡ wanted_height kind.now text.now width pen) }
{
    match kind {
        Kind::Checkbox | Kind::Input | Kind::ProgressBar => Ok(1),
        Kind::OptionList => Ok(capped_count(line_count(text.as_str()))),
        _ => text_height(alloc, text.as_str(), width),
    }
}

// The rows of a text that is wrapped at a width. In which pen doesn't matter.
fn text_height(alloc: Global, text: &str, width: u32) -> Result<u32, NoMemory>
    requires short { length text.now < 2 ^ 32 }
    ensures { IfOk result (λ rows. (pen : Seen.Pen) → rows ≡ text_height text.now width pen) }
{
    let lines = wrap(alloc, text, width, Pen::WHITE_ON_BLACK)?;
    Ok(capped_count(lines.len()))
}

fn capped(columns: u32) -> u32
    ensures { result ≡ min columns most }
{
    columns.min(MOST)
}

fn capped_count(count: usize) -> u32
    ensures { result ≡ min count most }
{
    count.min(MOST as usize) as u32
}

// The columns of a line, at most 65,535.
#[tactic(auto, unfolding(tx_cell::specs::Strip::line_cells))]
fn columns_of(line: &str) -> u32
    ensures columns { (pen : Seen.Pen) → result ≡ min (length (line_cells line.now pen)) most }
    ensures few { result ≤ most }
{
    let mut columns = 0;
    for cluster in line.graphemes(true) {
        columns = capped(columns + cluster_columns(cluster, Pen::WHITE_ON_BLACK));
    }
    columns
}
