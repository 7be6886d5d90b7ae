//! The rows that a selector matches.
use super::{Given, STATICS, expect, loads, refuses, run};
use crate::Cause;
use std::test::Fail;

const QUERY: Given<'_> = Given {
    words: &["tx", "query", "t.tree", ".none"],
    tree: b"Screen\n  Container #p\n    Container #q\n      Button #b\n    Static #n\n",
    ..STATICS
};

/// These lines are printed.
fn prints(rt: &HostRuntime, given: &Given, lines: &str) -> Result<(), Fail> {
    let ran = run(rt, given)?;
    expect(ran.out.taken() == lines.as_bytes(), "the lines")?;
    expect(ran.err.taken().is_empty(), "the error line")?;
    expect(
        ran.outcome.status == 0 && ran.outcome.cause.is_none(),
        "the status",
    )?;
    expect(ran.outcome.journal.as_slice().is_empty(), "the journal")
}

#[test]
fn matches_are_printed(rt: HostRuntime) -> Result<(), Fail> {
    let cases: [(&[&str], &str); 4] = [
        (
            &["tx", "query", "t.tree", "#p Widget"],
            "3 Container #q\n4 Button #b\n5 Static #n\n",
        ),
        (&["tx", "query", "t.tree", ".none"], ""),
        (&["tx", "query", "t.tree", ":focus"], "4 Button #b\n"),
        (&["tx", "query", "t.tree", "Screen:dark"], "1 Screen\n"),
    ];
    for (words, lines) in cases {
        prints(&rt, &Given { words, ..QUERY }, lines)?;
    }
    Ok(())
}

/// The first row that can have the focus has it, unless it is disabled or below a disabled one.
#[test]
fn the_first_row_that_may_has_the_focus(rt: HostRuntime) -> Result<(), Fail> {
    let given = Given {
        words: &["tx", "query", "t.tree", ":focus"],
        tree: b"Screen\n  Container disabled\n    Button #a\n  Button #b disabled\n  VerticalScroll #c\n  Input #d\n",
        ..QUERY
    };
    prints(&rt, &given, "5 VerticalScroll #c\n")
}

#[test]
fn other_words_are_refused(rt: HostRuntime) -> Result<(), Fail> {
    let cases: [&[&str]; 4] = [
        &["tx", "query", "t.tree"],
        &["tx", "query", "-t.tree", "A"],
        &["tx", "query", "t.tree", "A >"],
        &["tx", "query", "t.tree", "A", "B"],
    ];
    for words in cases {
        refuses(&rt, &Given { words, ..QUERY }, 1, "tx: usage\n")?;
    }
    Ok(())
}

#[test]
fn the_tree_alone_is_loaded(rt: HostRuntime) -> Result<(), Fail> {
    loads(&rt, rt.alloc(), &QUERY, &[("t.tree", true)])?;
    let failing = Given {
        failing_loads: &[1],
        ..QUERY
    };
    loads(&rt, rt.alloc(), &failing, &[("t.tree", false)])?;
    refuses(&rt, &failing, 3, "tx: read fault\n")?;
    let wrong = Given {
        tree: b"Screen\n  Static \"a\n",
        ..QUERY
    };
    refuses(&rt, &wrong, 2, "tx: t.tree:2:1: Expected\n")
}

/// A sink that fails once has a prefix of the lines.
#[test]
fn a_sink_may_fail_at_each_byte(rt: HostRuntime) -> Result<(), Fail> {
    let lines = b"3 Container #q\n4 Button #b\n5 Static #n\n".as_slice();
    for k in 0..39u64 {
        let ran = run(
            &rt,
            &Given {
                words: &["tx", "query", "t.tree", "#p Widget"],
                out_fails: &[k],
                ..QUERY
            },
        )?;
        assert_eq!(rt; ran.out.taken(), lines.split_at(k as usize).0);
        assert_eq!(rt; ran.err.taken(), b"tx: sink fault\n".as_slice());
        assert_eq!(rt; ran.outcome.status, 5);
        assert!(rt; ran.outcome.journal.as_slice().is_empty());
        assert!(rt; matches!(&ran.outcome.cause, Some(Cause::SinkFault { rose: 1 })));
    }
    Ok(())
}

/// Rows are refused as for a picture.
#[test]
fn trees_are_taken_as_for_a_picture(rt: HostRuntime) -> Result<(), Fail> {
    let meter = Given {
        tree: b"Screen\n  Static { width }\n  Meter\n",
        ..QUERY
    };
    let inline = Given {
        tree: b"Screen\n    bind a focus_next\n  Static { width }\n",
        ..QUERY
    };
    refuses(&rt, &meter, 2, "tx: t.tree:3:1: NoCustom\n")?;
    refuses(&rt, &inline, 2, "tx: t.tree:2:1: BadIndent\n")
}
