//! For each span, the row up to which it is known to fit nowhere.

ghost use Rattle.std.specs.Prelude.{◌≡◌, ℕ, ◌+◌, ◌*◌, ◌≤◌, List, length, Option};
ghost use Rattle.tx_grid.specs.Standing.{AreSpans};
ghost use Rattle.tx_grid.specs.Taken.{FitsInNoRowBefore, IsBoard};

use crate::places::Spans;

/// Where the row of a span stands in the list.
pub fn number_of(span: Spans) -> usize
    requires { AreSpans span }
    ensures { result ≡ 100 * span.columns + span.rows }
{
    (100 * span.columns + span.rows) as usize
}

// Notes a row for one span.
fn raise_one(known: &mut Vec<u32>, columns: u32, span: Spans, row: u32)
    requires count { length known.old.items ≡ 100 * columns + 101 }
    requires span { AreSpans span }
    requires width { span.columns ≤ columns }
    requires row { row ≤ 100 * 65536 }
    ensures count { length known.new.items ≡ length known.old.items }
    ensures board { (rows : Option ℕ) (taken : List ℕ)
        → IsBoard columns rows taken known.old.items
        → FitsInNoRowBefore columns rows taken span row
        → IsBoard columns rows taken known.new.items }
{
    let number = number_of(span);
    if known[number] < row {
        known[number] = row;
    }
}

/// Notes the row before which a span fits nowhere, for it and for each span that is at least as wide
/// and as high.
pub fn raise(known: &mut Vec<u32>, columns: u32, span: Spans, row: u32)
    requires count { length known.old.items ≡ 100 * columns + 101 }
    requires span { AreSpans span }
    requires width { span.columns ≤ columns }
    requires columns { columns ≤ 100 }
    requires row { row ≤ 100 * 65536 }
    ensures board { (rows : Option ℕ) (taken : List ℕ)
        → IsBoard columns rows taken known.old.items
        → FitsInNoRowBefore columns rows taken span row
        → IsBoard columns rows taken known.new.items }
{
    if known[number_of(span)] >= row {
        return;
    }
    for width in span.columns..columns + 1 {
        for height in span.rows..101 {
            raise_one(
                known,
                columns,
                Spans {
                    columns: width,
                    rows: height,
                },
                row,
            );
        }
    }
}
