//! Which cells differ, and which are plain.
ghost use Rattle.std.specs.Prelude.{◌≡◌, not, length, zip};
ghost use Rattle.std.specs.List.{list_all};
ghost use Rattle.std.specs.Str.{chars};
ghost use Rattle.tx_cell.specs.Plain.{is_plain};
ghost use Rattle.tx_cell.specs.Same.{cell_eq};
ghost use Rattle.tx_term.specs.Update.{is_plain_cell, first_differ, unit_differs};

use tx_cell::{Cell, is_plain};

/// Whether two cells differ in text, width, tail mark or pen.
pub fn differ(shown: &Cell, next: &Cell) -> bool
    ensures { result ≡ not (cell_eq shown.now next.now) }
{
    !(*shown == *next)
}

/// Whether the first of these cells differ.
fn first_differ(shown: &[Cell], next: &[Cell]) -> bool
    ensures { result ≡ first_differ (zip shown.now next.now) }
{
    let [old, ..] = shown else {
        return false;
    };
    let [new, ..] = next else {
        return false;
    };
    differ(old, new)
}

/// Whether the text of a cell is one plain character.
#[tactic(auto, unfolding(crate::specs::Update::is_plain_cell))]
pub fn is_plain_cell(cell: &Cell) -> bool
    ensures { result ≡ is_plain_cell cell.now }
{
    character_count(cell.text()) == 1 && all_plain(cell.text())
}

fn character_count(text: &str) -> usize
    ensures { result ≡ length (chars text.now) }
{
    text.chars().count()
}

fn all_plain(text: &str) -> bool
    ensures { result ≡ list_all is_plain (chars text.now) }
{
    text.chars().all(|character| is_plain(character))
}

/// Whether a unit differs: its cell, or the tail after it. The slices are what stands after the
/// cells.
pub fn unit_differs(old: &Cell, new: &Cell, behind_old: &[Cell], behind_new: &[Cell]) -> bool
    ensures { result ≡ unit_differs (old.now, new.now) (zip behind_old.now behind_new.now) }
{
    if differ(old, new) {
        return true;
    }
    new.width() > 1 && first_differ(behind_old, behind_new)
}
