//! Pictures, as a terminal shows them.
use super::{CLOSING, Given, Ran, STATICS, expect, given_files, run};
use crate::{Cause, Entry, Refreshed, top_alone};
use std::alloc::{AllocError, Global};
use std::test::Fail;
use tx_geom::{Axis, Size};
use tx_io::{Counted, MemorySink, Steps};
use tx_term::Terminal;
use tx_test_kit::{grid_text, words_of};
use tx_tree::NodeId;

/// The bytes before the closing ones, where these stand at the end.
fn update_of(ran: &Ran) -> Result<&[u8], Fail> {
    let bytes = ran.out.taken();
    if bytes.len() < CLOSING.len() {
        return Err(Fail::from("the closing bytes aren't there"));
    }
    let (update, closing) = bytes.split_at(bytes.len() - CLOSING.len());
    expect(closing == CLOSING, "the closing bytes")?;
    Ok(update)
}

/// What a terminal shows that read something unfinished before.
fn shown(alloc: Global, size: Size, update: &[u8]) -> Result<String, Fail> {
    if size.width == 0 {
        return Err(Fail::from("a terminal has columns"));
    }
    if size.height == 0 {
        return Err(Fail::from("a terminal has rows"));
    }
    let mut terminal = Terminal::open(alloc, size)?;
    terminal.feed(b"ab\x1b[31mc\r\n\xe4\xb8\x96\x1b[3");
    terminal.feed(update);
    Ok(grid_text(alloc, terminal.grid())?)
}

/// The picture is shown, row by row.
fn pictures(rt: &HostRuntime, given: &Given, size: Size, text: &str) -> Result<(), Fail> {
    let ran = run(rt, given)?;
    expect(ran.outcome.status == 0, "the status")?;
    let update = update_of(&ran)?;
    expect(
        shown(rt.alloc(), size, update)?.as_str() == text,
        "the picture",
    )
}

/// A wide cluster of which an upper row covers a half shows a blank in the other half.
#[test]
fn a_covered_half_is_blank(rt: HostRuntime) -> Result<(), Fail> {
    let given = Given {
        words: &[
            "tx", "show", "t.tree", "s.tcss", "--width", "4", "--height", "1",
        ],
        tree: b"Screen\n  Static #w \"\xe4\xb8\x96\"\n  Static #u \"x\"\n",
        sheet: b"Screen { layers: low high; } #u { layer: high; width: 1; height: 1; offset: 1 0; }\n",
        ..STATICS
    };
    let size = Size {
        width: 4,
        height: 1,
    };
    pictures(&rt, &given, size, " x  \n")
}

/// Of two docks at one edge the later one is above, and the rest begins after the wider one.
#[test]
fn docks_stand_over_each_other(rt: HostRuntime) -> Result<(), Fail> {
    let given = Given {
        words: &[
            "tx", "show", "t.tree", "s.tcss", "--width", "20", "--height", "2",
        ],
        tree: b"Screen\n  Static .a \"a\"\n  Static .b \"a\"\n  Static \"a\"\n",
        sheet: b".a { dock: left; width: 3; } .b { dock: left; width: 5; }\n",
        ..STATICS
    };
    let size = Size {
        width: 20,
        height: 2,
    };
    pictures(
        &rt,
        &given,
        size,
        "a    a              \n                    \n",
    )
}

const BROKEN: Given<'_> = Given {
    words: &[
        "tx", "show", "t.tree", "s.tcss", "--width", "100", "--height", "1",
    ],
    tree: b"Screen\n  Horizontal #h\n    Static .p\n    Static #f .big\n",
    sheet: b".p { width: 33.333333333333333333%; }\n.big { width: 999999999.999999999999999999fr; }\n",
    failing_loads: &[],
    out_fails: &[],
    err_fails: &[],
};

fn is_broken(cause: &Option<Cause>) -> bool {
    match cause {
        Some(Cause::Fraction { node, axis }) => node.0 == 2 && *axis == Axis::Width,
        _ => false,
    }
}

/// An undefined picture: the closing bytes alone are sent.
#[test]
fn a_fraction_may_be_past_128_bits(rt: HostRuntime) -> Result<(), Fail> {
    let ran = run(&rt, &BROKEN)?;
    let entry = Entry::Refresh {
        result: Refreshed::Fraction {
            node: NodeId(2),
            axis: Axis::Width,
        },
        sent: 0,
        faults: 0,
    };
    expect(ran.out.taken() == CLOSING, "the bytes")?;
    expect(
        ran.err.taken() == b"tx: fraction at node 2 width\n".as_slice(),
        "the error line",
    )?;
    expect(
        ran.outcome.status == 4 && is_broken(&ran.outcome.cause),
        "the status",
    )?;
    expect(
        ran.outcome.journal.as_slice() == [entry].as_slice(),
        "the journal",
    )
}

/// What stopped the run decides, then the picture, and then the closing bytes.
#[test]
fn a_fraction_comes_before_a_failed_put(rt: HostRuntime) -> Result<(), Fail> {
    let ran = run(
        &rt,
        &Given {
            out_fails: &[3],
            ..BROKEN
        },
    )?;
    expect(ran.out.taken().len() == 3, "the bytes")?;
    expect(ran.outcome.status == 4, "the status")
}

const APPLICATION: Given<'_> = Given {
    words: &[
        "tx", "show", "t.tree", "s.tcss", "--width", "60", "--height", "20",
    ],
    tree: b"Screen\n  bind ctrl+d toggle_dark\n  Header \"Parcels\"\n  Footer \"^d dark  tab next\"\n  Vertical #side\n    Label .title \"Depots\"\n    OptionList #depots \"North\\nSouth\\nEast\"\n  Vertical #main\n    Input #find\n    Grid #keys\n      Button #new \"New\"\n      Button #open \"Open\"\n      Button #close \"Close\"\n      Checkbox #late \"Late only\"\n    ProgressBar #load total 40\n",
    sheet: b"$edge: $panel;\n#side { dock: left; width: 18; margin: 1 0; padding: 0 1; border: round $edge; background: $surface; }\n.title { text-style: bold; margin: 0 0 1 0; }\n#main { padding: 1 2; }\n#keys { grid-size: 2; grid-rows: 3; grid-gutter: 1 2; }\n#load { width: 100%; margin: 1 0 0 0; }\nButton:hover { background: $primary 60%; }\n.busy Button { color: $warning; }\n",
    failing_loads: &[],
    out_fails: &[],
    err_fails: &[],
};

/// The line of a text with this number, from 0 on.
fn line_of(text: &str, number: usize) -> &str {
    let mut at = 0usize;
    for line in text.split('\n') {
        if at == number {
            return line;
        }
        at = at.saturating_add(1);
    }
    ""
}

#[test]
fn an_application_is_shown(rt: HostRuntime) -> Result<(), Fail> {
    let ran = run(&rt, &APPLICATION)?;
    let size = Size {
        width: 60,
        height: 20,
    };
    expect(ran.outcome.status == 0, "the status")?;
    let text = shown(rt.alloc(), size, update_of(&ran)?)?;
    expect(
        line_of(text.as_str(), 0) == "                          Parcels                           ",
        "the header",
    )?;
    expect(
        line_of(text.as_str(), 1)
            == "\u{256d}\u{2500}\u{2500}\u{2500}\u{2500}\u{2500}\u{2500}\u{2500}\u{2500}\u{2500}\u{2500}\u{2500}\u{2500}\u{2500}\u{2500}\u{2500}\u{2500}\u{256e}                                          ",
        "the border",
    )
}

/// One Cell for each cell of the screen, and none for an undefined picture.
fn cells_ticked(rt: &HostRuntime, given: &Given) -> Result<u64, AllocError> {
    let words = words_of(rt.alloc(), given.words)?;
    let mut files = given_files(rt.alloc(), given)?;
    let mut out = MemorySink::new(rt.alloc(), Vec::new(rt.alloc()));
    let mut err = MemorySink::new(rt.alloc(), Vec::new(rt.alloc()));
    let mut steps = Steps {
        ledger: Counted::default(),
    };
    let _ = top_alone(
        rt.alloc(),
        &words,
        &mut files,
        &mut out,
        &mut err,
        &mut steps,
    );
    Ok(steps.ledger.cells)
}

#[test]
fn each_cell_is_composed_once(rt: HostRuntime) -> Result<(), Fail> {
    expect(cells_ticked(&rt, &STATICS)? == 12, "a picture")?;
    expect(cells_ticked(&rt, &BROKEN)? == 0, "an undefined one")
}
