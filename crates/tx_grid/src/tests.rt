ghost use Rattle.std.specs.Prelude.{◌≡◌, ◌<◌, ◌≤◌, ◌^◌, length, All, IfOk, IfSome};
ghost use Rattle.tx_grid.specs.Standing.{AreSpans, IsRowCount, IsSpan, rows_used};

use crate::{Cells, Spans, rows_used, stand};
use std::alloc::Global;
use std::test::Fail;
use tx_expect::{each_line, expect};

// The number of a digit from 1 to 9, and 1 for any other byte.
fn number_of(digit: u8) -> u32
    ensures { IsSpan result }
{
    match digit {
        b'2'..=b'9' => (digit - b'0') as u32,
        _ => 1,
    }
}

// A span as two digits: its columns and its rows.
fn span_of(word: &[u8]) -> Spans
    ensures { AreSpans result }
{
    match word {
        [columns, rows] => Spans {
            columns: number_of(*columns),
            rows: number_of(*rows),
        },
        _ => Spans {
            columns: 1,
            rows: 1,
        },
    }
}

// The rows of a grid as a digit, or `-` where none are given.
fn rows_of(digit: u8) -> Option<u32>
    ensures { IfSome result IsRowCount }
{
    match digit {
        b'-' => None,
        _ => Some(number_of(digit)),
    }
}

// The spans that words of two digits ask for, at most 20 of them.
fn spans_of(alloc: Global, words: &str) -> Result<Vec<Spans>, Fail>
    ensures spans { IfOk result (λ spans. All AreSpans spans.items) }
    ensures count { IfOk result (λ spans. length spans.items ≤ 20) }
{
    let mut spans = Vec::new(alloc);
    for word in words.split_ascii_whitespace() {
        if spans.len() == 20 {
            return Err(Fail::from("a row with more than 20 spans"));
        }
        spans.push(span_of(word.as_bytes()))?;
    }
    Ok(spans)
}

// A place as its column, row, columns and rows, or `-`.
fn written(alloc: Global, place: Option<Cells>) -> Result<String, Fail> {
    match place {
        None => Ok(format!(in alloc; "- ")?),
        Some(cells) => {
            Ok(format!(in alloc;
                "{}{}{}{} ",
                cells.column, cells.row, cells.columns, cells.rows
            )?)
        }
    }
}

// Each place, and after a `/` the rows that they use.
fn all_written(alloc: Global, places: &[Option<Cells>]) -> Result<String, Fail>
    requires { rows_used places.now < 2 ^ 32 }
{
    let mut all = String::new(alloc);
    for place in places {
        all.push_str(written(alloc, *place)?.as_str())?;
    }
    all.push_str(format!(in alloc; "/ {}", rows_used(places))?.as_str())?;
    Ok(all)
}

// What a row of the table asks for: the columns, the rows, and the spans.
fn answer(alloc: Global, given: &str) -> Result<String, Fail> {
    let [columns, _, rows, ..] = given.as_bytes() else {
        return Err(Fail::from(given));
    };
    let Some((_, words)) = given.split_once(':') else {
        return Err(Fail::from(given));
    };
    let spans = spans_of(alloc, words)?;
    let places = stand(alloc, &spans, number_of(*columns), rows_of(*rows))?;
    all_written(alloc, &places)
}

#[test]
fn children_stand_at_their_first_places(rt: HostRuntime) -> Result<(), Fail> {
    let alloc = rt.alloc();
    each_line(
        "3 -: 21 21 11 => 0021 0121 2011 / 2\n\
         1 -: 11 => 0011 / 1\n\
         3 -: => / 0\n\
         3 -: 11 11 11 11 => 0011 1011 2011 0111 / 2\n\
         2 -: 51 11 => 0021 0111 / 2\n\
         2 3: 15 11 11 => 0013 1011 1111 / 3\n\
         2 1: 11 11 11 => 0011 1011 - / 1\n\
         3 1: 21 21 11 => 0021 - 2011 / 1\n\
         3 2: 22 22 11 11 11 => 0022 - 2011 2111 - / 2\n\
         4 -: 31 21 11 11 21 => 0031 0121 3011 2111 0221 / 3\n\
         3 -: 12 21 11 21 => 0012 1021 1111 0221 / 3\n\
         3 -: 11 13 11 31 => 0011 1013 2011 0331 / 4\n\
         2 -: 12 11 12 11 => 0012 1011 1112 0211 / 3\n\
         4 -: 22 11 22 11 11 => 0022 2011 2122 3011 0211 / 3\n\
         3 3: 13 13 13 11 => 0013 1013 2013 - / 3\n\
         5 -: 33 22 22 51 11 => 0033 3022 3222 0451 0311 / 5\n\
         2 2: 22 11 => 0022 - / 2\n\
         2 2: 99 11 => 0022 - / 2\n\
         9 -: 91 19 11 => 0091 0119 1111 / 10\n\
         3 -: 21 11 21 11 => 0021 2011 0121 2111 / 2\n\
         4 2: 41 31 21 11 => 0041 0131 - 3111 / 2\n\
         1 -: 13 12 11 => 0013 0312 0511 / 6\n\
         1 4: 13 12 11 => 0013 - 0311 / 4\n\
         3 -: 32 11 31 => 0032 0211 0331 / 4\n\
         3 -: 11 31 11 11 11 31 => 0011 0131 1011 2011 0211 0331 / 4\n\
         4 -: 13 31 22 11 12 => 0013 1031 1122 3111 3212 / 4\n\
         6 -: 24 42 22 22 11 => 0024 2042 2222 4222 0411 / 5\n\
         2 2: 12 12 11 => 0012 1012 - / 2\n\
         5 3: 32 32 22 51 11 => 0032 - 3022 0251 - / 3\n\
         3 -: 22 12 21 12 11 => 0022 2012 0221 2212 0311 / 4\n\
         4 -: 21 12 31 11 11 => 0021 2012 0231 3011 0111 / 3\n\
         8 1: 81 11 => 0081 - / 1\n\
         9 9: 99 11 => 0099 - / 9",
        |given| answer(alloc, given),
    )
}

#[test]
fn the_largest_spans_are_placed(rt: HostRuntime) -> Result<(), Fail> {
    let alloc = rt.alloc();
    let large = Spans {
        columns: 100,
        rows: 100,
    };
    let high = Spans {
        columns: 1,
        rows: 100,
    };
    let places = stand(alloc, &[high, large, high], 100, None)?;
    expect(
        rows_used(&places) == 200,
        "two of them, one below the other",
    )?;
    expect(
        places.as_slice().get(1).copied()
            == Some(Some(Cells {
                column: 0,
                row: 100,
                columns: 100,
                rows: 100,
            })),
        "below the first",
    )?;
    expect(
        places.as_slice().get(2).copied()
            == Some(Some(Cells {
                column: 1,
                row: 0,
                columns: 1,
                rows: 100,
            })),
        "beside the first",
    )
}
