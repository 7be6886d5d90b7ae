//! The rows of a grid, one unit after another.
ghost use Rattle.std.specs.Prelude.{◌≡◌, ◌≤◌, ◌<◌, ◌+◌, ◌*◌, ◌^◌, ◌||◌, ◌∷◌, Bool, List, length, zip};
ghost use Rattle.tx_cell.specs.Cell.{CellValue};
ghost use Rattle.tx_term.specs.Drawing.{Draws, DrawsColumn};
ghost use Rattle.tx_term.specs.Gather.{handed};
ghost use Rattle.tx_term.specs.Update.{row_marks, rows_marks, unit_differs};

use crate::update::cells::unit_differs;
use crate::update::writer::Writer;
use tx_cell::{Cell, Grid};
use tx_io::Sink;

/// Writes the cell in a column, where it begins a unit that differs. Answers whether the unit after
/// it stands after a plain one of its run.
fn write_column<K: Sink>(
    writer: &mut Writer,
    sink: &mut K,
    row: u32,
    column: u32,
    behind_plain: bool,
    cell: &Cell,
    differs: bool,
) -> bool
    requires row { row < 65535 }
    requires column { column < 65535 }
    requires counted { handed writer.old.gather + 1024 < 2 ^ 64 }
    ensures { (whole : Bool) (old : CellValue) (pairs : List (CellValue × CellValue)) → (whole || unit_differs (old, cell.now) pairs) ≡ differs → DrawsColumn (K.seen sink.old) (K.seen sink.new) writer.old writer.new row column whole behind_plain result ((old, cell.now) ∷ pairs) }
{
    if cell.tail() {
        return behind_plain;
    }
    if !differs {
        return false;
    }
    writer.write_unit(sink, row, column, behind_plain, cell)
}

fn counts_as_differing(
    whole: bool,
    old: &Cell,
    new: &Cell,
    behind_old: &[Cell],
    behind_new: &[Cell],
) -> bool
    ensures { result ≡ whole || unit_differs (old.now, new.now) (zip behind_old.now behind_new.now) }
{
    whole || unit_differs(old, new, behind_old, behind_new)
}

/// Writes a row.
fn write_row<K: Sink>(
    writer: &mut Writer,
    sink: &mut K,
    row: u32,
    whole: bool,
    shown: &[Cell],
    next: &[Cell],
)
    requires row { row < 65535 }
    requires same { length shown.now ≡ length next.now }
    requires width { length next.now ≤ 65535 }
    requires counted { handed writer.old.gather + 1024 * length next.now + 1024 < 2 ^ 64 }
    ensures drawn { Draws (K.seen sink.old) (K.seen sink.new) writer.old writer.new (row_marks whole row shown.now next.now) }
    ensures few { length (row_marks whole row shown.now next.now) ≤ 131070 }
{
    let mut behind_plain = false;
    for column in 0..next.len() {
        let (_, shown_rest) = shown.split_at(column + 1);
        let (_, next_rest) = next.split_at(column + 1);
        let (old, new) = (&shown[column], &next[column]);
        let differs = counts_as_differing(whole, old, new, shown_rest, next_rest);
        behind_plain = write_column(writer, sink, row, column as u32, behind_plain, new, differs);
    }
}

/// Writes all rows, from the top.
pub fn write_rows<K: Sink>(
    writer: &mut Writer,
    sink: &mut K,
    whole: bool,
    shown: &Grid,
    next: &Grid,
)
    requires same_size { shown.now.size ≡ next.now.size }
    requires width { next.now.size.width ≤ 65535 }
    requires height { next.now.size.height ≤ 65535 }
    requires counted { handed writer.old.gather < 2 ^ 62 }
    ensures drawn { Draws (K.seen sink.old) (K.seen sink.new) writer.old writer.new (rows_marks whole 0 shown.now.rows next.now.rows) }
    ensures counted { handed writer.new.gather < 2 ^ 63 }
{
    for row in 0..next.size().height {
        write_row(writer, sink, row, whole, shown.row(row), next.row(row));
    }
}
