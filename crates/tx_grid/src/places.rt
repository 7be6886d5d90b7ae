//! Spans, and the cells of a grid that they take.

ghost use Rattle.std.specs.Prelude.{◌≡◌, ◌<◌, ◌^◌, [], ◌∷◌};
ghost use Rattle.tx_grid.specs.Standing.{rows_used};

/// The columns and rows that a child of a grid asks for, each from 1 to 100.
#[derive(Clone, Copy, Debug, PartialEq, Eq)]
pub struct Spans {
    pub columns: u32,
    pub rows: u32,
}

/// The cells that a child of a grid takes: `columns` columns from `column` on, in `rows` rows from
/// `row` on. Columns count from the left and rows from the top, both from 0.
#[derive(Clone, Copy, Debug, PartialEq, Eq)]
pub struct Cells {
    pub column: u32,
    pub row: u32,
    pub columns: u32,
    pub rows: u32,
}

/// How many rows children use: the row after the last one of the child that ends lowest, and 0
/// where none is placed.
pub fn rows_used(places: &[Option<Cells>]) -> u32
    requires { rows_used places.now < 2 ^ 32 }
    ensures { result ≡ rows_used places.now }
{
    let mut used = 0;
    for place in places {
        used = used.max(end_of(*place));
    }
    used
}

// The row after the last one of a child, and 0 where it isn't placed.
fn end_of(place: Option<Cells>) -> u32
    requires { rows_used (place ∷ []) < 2 ^ 32 }
    ensures { result ≡ rows_used (place ∷ []) }
{
    match place {
        None => 0,
        Some(cells) => cells.row + cells.rows,
    }
}
