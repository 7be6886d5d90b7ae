//! How a host or a test suite uses the engine without a terminal: its files, its sinks and its
//! terminal live in memory.

use crate::{Entry, top_alone};
use std::test::Fail;
use tx_expect::expect;
use tx_geom::Size;
use tx_io::{MemorySink, Steps, Uncounted};
use tx_read::front;
use tx_term::Terminal;
use tx_test_kit::{files_of, grid_text, words_of};

const WORDS: &[&str] = &[
    "app", "show", "app.tree", "app.tcss", "--width", "8", "--height", "2",
];

const FILES: [(&str, &[u8]); 2] = [
    ("app.tree", b"Screen\n  Static \"Hello\"\n"),
    ("app.tcss", b"Static { height: 1; }\n"),
];

#[test]
fn a_host_looks_at_what_a_terminal_shows(rt: HostRuntime) -> Result<(), Fail> {
    let words = words_of(rt.alloc(), WORDS)?;
    let mut files = files_of(rt.alloc(), &FILES, &[])?;
    let mut out = MemorySink::new(rt.alloc(), Vec::new(rt.alloc()));
    let mut err = MemorySink::new(rt.alloc(), Vec::new(rt.alloc()));
    let mut steps = Steps { ledger: Uncounted };
    let outcome = top_alone(
        rt.alloc(),
        &words,
        &mut files,
        &mut out,
        &mut err,
        &mut steps,
    );
    expect(outcome.status == 0, "the status")?;

    // The entry of the refresh says how many of the bytes are its update; the closing bytes follow.
    let Some(Entry::Refresh { sent, .. }) = outcome.journal.as_slice().first() else {
        return Err("no refresh".into());
    };
    let size = Size {
        width: 8,
        height: 2,
    };
    let mut terminal = Terminal::open(rt.alloc(), size)?;
    terminal.feed(front(out.taken(), *sent as usize));
    let shown = grid_text(rt.alloc(), terminal.grid())?;
    expect(shown.as_str() == "Hello   \n        \n", "what it shows")
}
