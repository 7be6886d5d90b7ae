mod checks;
mod command_lines;
mod host;
mod pictures;
mod queries;
mod recorded;

use crate::{Cause, Entry, Outcome, Refreshed, Refusal, top_alone};
use recorded::{Made, Recorded};
use std::alloc::{AllocError, Global};
use std::process::Abort;
use std::test::Fail;
use tx_expect::expect;
use tx_io::{MemoryFiles, MemorySink, Steps, Uncounted};
use tx_test_kit::{files_of, words_of};

/// What a run is given.
#[derive(Clone, Copy)]
struct Given<'a> {
    words: &'a [&'a str],
    tree: &'a [u8],
    sheet: &'a [u8],
    /// The numbers of the loads that fail.
    failing_loads: &'a [u64],
    /// The places at which a put on `out` or `err` fails once.
    out_fails: &'a [u64],
    err_fails: &'a [u64],
}

/// What became of it.
#[derive(Drop)]
struct Ran {
    outcome: Outcome,
    out: MemorySink,
    err: MemorySink,
}

fn given_files(alloc: Global, given: &Given) -> Result<MemoryFiles, AllocError> {
    let files: [(&str, &[u8]); 2] = [("t.tree", given.tree), ("s.tcss", given.sheet)];
    files_of(alloc, &files, given.failing_loads)
}

fn run(rt: &HostRuntime, given: &Given) -> Result<Ran, AllocError> {
    let words = words_of(rt.alloc(), given.words)?;
    let mut files = given_files(rt.alloc(), given)?;
    let mut out = MemorySink::new(rt.alloc(), given.out_fails.to_vec(rt.alloc())?);
    let mut err = MemorySink::new(rt.alloc(), given.err_fails.to_vec(rt.alloc())?);
    let outcome = top_alone(
        rt.alloc(),
        &words,
        &mut files,
        &mut out,
        &mut err,
        &mut Steps { ledger: Uncounted },
    );
    Ok(Ran { outcome, out, err })
}

const CLOSING: &[u8] = b"\x18\x1b[0m\x1b[?25h\x1b[?1049l";

const BLANK: &[u8] =
    b"\x18\x1b[?1049h\x1b[?25l\x1b[0m\x1b[2J\x1b[1;1H\x1b[0;38;2;224;224;224;48;2;18;18;18m    \x1b[2;1H    \x18\x1b[0m\x1b[?25h\x1b[?1049l";

const TWO: &[u8] =
    b"\x18\x1b[?1049h\x1b[?25l\x1b[0m\x1b[2J\x1b[1;1H\x1b[0;38;2;255;255;255;48;2;0;0;0mab    \x1b[2;1H      \x18\x1b[0m\x1b[?25h\x1b[?1049l";

/// The same without a sheet.
const PLAIN: &[u8] =
    b"\x18\x1b[?1049h\x1b[?25l\x1b[0m\x1b[2J\x1b[1;1H\x1b[0;38;2;224;224;224;48;2;18;18;18mab    \x1b[2;1H      \x18\x1b[0m\x1b[?25h\x1b[?1049l";

const TALL: &[u8] =
    b"\x18\x1b[?1049h\x1b[?25l\x1b[0m\x1b[2J\x1b[1;1H\x1b[0;38;2;10;11;12;48;2;1;2;3mx \x1b[2;1H  \x1b[3;1Hyz\x1b[4;1H  \x1b[5;1H\x1b[0;38;2;10;11;12;48;2;18;18;18m  \x18\x1b[0m\x1b[?25h\x1b[?1049l";

const SIX_BY_TWO: &[&str] = &[
    "tx", "show", "t.tree", "s.tcss", "--width", "6", "--height", "2",
];

/// Two Statics on a screen of 6 by 2.
const STATICS: Given<'_> = Given {
    words: SIX_BY_TWO,
    tree: b"Screen\n  Static \"ab\"\n  Static\n",
    sheet: b"Static { height: 1; color: #ffffff; }\nScreen { background: #000000; }\n",
    failing_loads: &[],
    out_fails: &[],
    err_fails: &[],
};

/// A picture that is shown whole: these bytes, of which so many are the update.
fn shows(rt: &HostRuntime, given: &Given, bytes: &[u8], update: u64) -> Result<(), Fail> {
    let ran = run(rt, given)?;
    let entry = Entry::Refresh {
        result: Refreshed::Accepted,
        sent: update,
        faults: 0,
    };
    expect(ran.out.taken() == bytes, "the bytes")?;
    expect(ran.err.taken().is_empty(), "the error line")?;
    expect(
        ran.outcome.status == 0 && ran.outcome.cause.is_none(),
        "the status",
    )?;
    expect(
        ran.outcome.journal.as_slice() == [entry].as_slice(),
        "the journal",
    )
}

#[test]
fn a_screen_alone_is_97_bytes(rt: HostRuntime) -> Result<(), Fail> {
    let given = Given {
        words: &[
            "tx", "show", "t.tree", "s.tcss", "--width", "4", "--height", "2",
        ],
        tree: b"Screen\n",
        sheet: b"",
        ..STATICS
    };
    assert_eq!(rt; BLANK.len(), 97);
    shows(&rt, &given, BLANK, 78)
}

#[test]
fn two_statics_are_98_bytes(rt: HostRuntime) -> Result<(), Fail> {
    assert_eq!(rt; TWO.len(), 98);
    shows(&rt, &STATICS, TWO, 79)
}

/// Statics of two rows have their text in the first, the Screen shows below them, and of two
/// declarations the last wins.
#[test]
fn statics_of_two_rows_have_their_text_in_the_first(rt: HostRuntime) -> Result<(), Fail> {
    let given = Given {
        words: &[
            "tx", "show", "t.tree", "s.tcss", "--width", "2", "--height", "5",
        ],
        tree: b"Screen\n  Static \"x\"\n  Static \"yz\"\n",
        sheet: b"Static { height: 9; height: 2; background: #010203; }\nScreen { color: #0a0b0c; }\n",
        ..STATICS
    };
    shows(&rt, &given, TALL, 124)
}

/// What a sink takes that fails once, at `k`: the update up to there and the closing bytes, or
/// the closing bytes up to there.
fn taken_at(rt: &HostRuntime, k: u64) -> Result<Vec<u8>, AllocError> {
    let front = TWO.split_at((k as usize).min(TWO.len())).0;
    let mut bytes = front.to_vec(rt.alloc())?;
    if k < 79 {
        bytes.extend_from_slice(CLOSING)?;
    }
    Ok(bytes)
}

fn entry_at(k: u64) -> Entry {
    if k < 79 {
        Entry::Refresh {
            result: Refreshed::SinkFault,
            sent: k,
            faults: 1,
        }
    } else {
        Entry::Refresh {
            result: Refreshed::Accepted,
            sent: 79,
            faults: 0,
        }
    }
}

#[test]
fn a_sink_may_fail_at_each_byte(rt: HostRuntime) -> Result<(), Fail> {
    for k in 0..98u64 {
        let ran = run(
            &rt,
            &Given {
                out_fails: &[k],
                ..STATICS
            },
        )?;
        assert_eq!(rt; ran.out.taken(), taken_at(&rt, k)?.as_slice());
        assert_eq!(rt; ran.err.taken(), b"tx: sink fault\n".as_slice());
        assert_eq!(rt; ran.outcome.status, 5);
        assert_eq!(rt; ran.outcome.journal.as_slice(), [entry_at(k)].as_slice());
        assert!(rt; matches!(&ran.outcome.cause, Some(Cause::SinkFault { rose: 1 })));
    }
    Ok(())
}

/// What is said of the status agrees with the cause.
fn is_cause(cause: &Option<Cause>, status: u8) -> bool {
    match cause {
        None => status == 0,
        Some(Cause::Usage) => status == 1,
        Some(
            Cause::Refused {
                kind: Refusal::TooLong,
                line,
                column,
                ..
            },
        ) => status == 2 && *line == 0 && *column == 0,
        Some(
            Cause::Refused {
                kind: Refusal::Inline | Refusal::NoCustom | Refusal::Tree(_),
                column,
                ..
            },
        ) => status == 2 && *column == 1,
        Some(
            Cause::Refused {
                kind: Refusal::Sheet(_),
                line,
                column,
                ..
            },
        ) => status == 2 && *line > 0 && *column > 0,
        Some(Cause::ReadFault { rose }) => status == 3 && *rose == 1,
        Some(Cause::Fraction { .. }) => status == 4,
        Some(Cause::SinkFault { .. }) => status == 5,
        Some(Cause::NoMemory) => status == 6,
    }
}

/// A run that ends before the first byte of `out`, with this status and this line on `err`.
fn refuses(rt: &HostRuntime, given: &Given, status: u8, line: &str) -> Result<(), Fail> {
    let ran = run(rt, given)?;
    expect(ran.err.taken() == line.as_bytes(), "the error line")?;
    expect(ran.outcome.status == status, "the status")?;
    expect(ran.out.taken().is_empty(), "the bytes")?;
    expect(ran.outcome.journal.as_slice().is_empty(), "the journal")?;
    expect(is_cause(&ran.outcome.cause, status), "the cause")
}

#[test]
fn other_words_are_refused(rt: HostRuntime) -> Result<(), Fail> {
    let cases: [&[&str]; 7] = [
        &["tx", "show", "a"],
        &["tx"],
        &["tx", "draw", "t.tree", "s.tcss"],
        &["tx", "show", "-t.tree", "s.tcss"],
        &[
            "tx", "show", "t.tree", "s.tcss", "--width", "0", "--height", "2",
        ],
        &[
            "tx", "show", "t.tree", "s.tcss", "--width", "1025", "--height", "2",
        ],
        &[
            "tx", "show", "t.tree", "s.tcss", "--width", "6", "--height", "513",
        ],
    ];
    for words in cases {
        refuses(&rt, &Given { words, ..STATICS }, 1, "tx: usage\n")?;
    }
    Ok(())
}

/// Each tree is refused with this line.
fn refuses_trees(rt: &HostRuntime, cases: &[(&[u8], &str)]) -> Result<(), Fail> {
    for (tree, line) in cases {
        refuses(
            rt,
            &Given {
                tree: *tree,
                ..STATICS
            },
            2,
            *line,
        )?;
    }
    Ok(())
}

/// A kind that isn't built in comes before an inline text, also before an earlier one, and the line
/// counts those of the bindings above.
#[test]
fn the_first_row_that_is_not_taken_is_named(rt: HostRuntime) -> Result<(), Fail> {
    let cases: [(&[u8], &str); 5] = [
        (b"Screen\n  Meter\n", "tx: t.tree:2:1: NoCustom\n"),
        (
            b"Screen\n  Static { width }\n  Meter\n",
            "tx: t.tree:3:1: NoCustom\n",
        ),
        (
            b"Screen\n  bind a focus_next\n  Static\n    bind b focus_next\n    bind c focus_next\n  Label { width }\n",
            "tx: t.tree:6:1: Inline\n",
        ),
        (
            b"Screen\n  bind a focus_next\n  Label { width }\n  Gauge #g\n",
            "tx: t.tree:4:1: NoCustom\n",
        ),
        (
            b"Screen { width }\n  Static { }\n",
            "tx: t.tree:1:1: Inline\n",
        ),
    ];
    refuses_trees(&rt, &cases)
}

/// A fault of the tree file comes before a row that isn't taken, also before an earlier one.
#[test]
fn the_first_fault_of_a_tree_is_named(rt: HostRuntime) -> Result<(), Fail> {
    let cases: [(&[u8], &str); 9] = [
        (b"", "tx: t.tree:1:1: Expected\n"),
        (b"Screen", "tx: t.tree:1:1: Expected\n"),
        (b"Button\n", "tx: t.tree:1:1: Expected\n"),
        (b"Screen\n  Static \"a\\b\"\n", "tx: t.tree:2:1: Expected\n"),
        (b"Screen\n  Static \"\xff\"\n", "tx: t.tree:2:1: BadByte\n"),
        (b"Screen\n    Static\n", "tx: t.tree:2:1: BadIndent\n"),
        (b"Screen\n  Button\n    Static\n", "tx: t.tree:3:1: Leaf\n"),
        (
            b"Screen\n  Static #a\n  Static #a\n",
            "tx: t.tree:3:1: DuplicateId\n",
        ),
        (
            b"Screen #a\n  Meter\n  static\n",
            "tx: t.tree:3:1: Expected\n",
        ),
    ];
    refuses_trees(&rt, &cases)
}

#[test]
fn the_first_fault_of_a_sheet_is_named(rt: HostRuntime) -> Result<(), Fail> {
    let cases: [(&[u8], &str); 4] = [
        (
            b"Static { height: 1; }\nStatic { widt: 1; }\n",
            "tx: s.tcss:2:10: UnknownProperty\n",
        ),
        (
            b"Static { color: $hot; }\n$hot: red;\n",
            "tx: s.tcss:1:17: UndefinedVariable\n",
        ),
        (b"Button { color: red", "tx: s.tcss:1:20: Expected\n"),
        (b"Static { height: 1; } /* ", "tx: s.tcss:1:23: Unclosed\n"),
    ];
    for (sheet, line) in cases {
        refuses(&rt, &Given { sheet, ..STATICS }, 2, line)?;
    }
    Ok(())
}

/// What is wrong with the tree comes before what is wrong with the sheet.
#[test]
fn a_tree_comes_before_a_sheet(rt: HostRuntime) -> Result<(), Fail> {
    let given = Given {
        tree: b"Screen\n  Static { width }\n",
        sheet: b"Static {",
        ..STATICS
    };
    refuses(&rt, &given, 2, "tx: t.tree:2:1: Inline\n")
}

#[test]
fn a_file_has_at_most_4_mib(rt: HostRuntime) -> Result<(), Fail> {
    let mut long = Vec::new(rt.alloc());
    long.resize(4_194_304, b' ')?;
    shows(
        &rt,
        &Given {
            sheet: &long,
            ..STATICS
        },
        PLAIN,
        82,
    )?;
    long.push(b' ')?;
    refuses(
        &rt,
        &Given {
            sheet: &long,
            ..STATICS
        },
        2,
        "tx: s.tcss:0:0: TooLong\n",
    )?;
    refuses(
        &rt,
        &Given {
            tree: &long,
            ..STATICS
        },
        2,
        "tx: t.tree:0:0: TooLong\n",
    )
}

/// Nothing is loaded after a load that failed: the second failure isn't met.
#[test]
fn a_failed_load_ends_the_run(rt: HostRuntime) -> Result<(), Fail> {
    let missing = &["tx", "show", "t.tree", "other.tcss"];
    refuses(
        &rt,
        &Given {
            failing_loads: &[0, 1],
            ..STATICS
        },
        3,
        "tx: read fault\n",
    )?;
    refuses(
        &rt,
        &Given {
            failing_loads: &[1],
            ..STATICS
        },
        3,
        "tx: read fault\n",
    )?;
    refuses(
        &rt,
        &Given {
            words: missing,
            ..STATICS
        },
        3,
        "tx: read fault\n",
    )
}

/// The load was of this file, with the limit of 4 MiB, and gave its content or not.
fn is_load(made: &Made, name: &str, given: bool) -> bool {
    made.name.as_str() == name && made.limit == 4_194_304 && made.answer.is_ok() == given
}

/// A run makes these loads, in this order and no others.
fn loads<R: Abort>(
    rt: &R,
    alloc: Global,
    given: &Given,
    wanted: &[(&str, bool)],
) -> Result<(), Fail> {
    let words = words_of(alloc, given.words)?;
    let mut files = Recorded::new(rt, alloc, given_files(alloc, given)?);
    let mut out = MemorySink::new(alloc, Vec::new(alloc));
    let mut err = MemorySink::new(alloc, Vec::new(alloc));
    let _ = top_alone(
        alloc,
        &words,
        &mut files,
        &mut out,
        &mut err,
        &mut Steps { ledger: Uncounted },
    );
    expect(files.loads().len() == wanted.len(), "the number of loads")?;
    for (made, (name, given)) in files.loads().iter().zip(wanted) {
        expect(is_load(made, name, *given), "the load")?;
    }
    Ok(())
}

#[test]
fn each_file_is_loaded_once_in_its_turn(rt: HostRuntime) -> Result<(), Fail> {
    let failing = |failing_loads| Given {
        failing_loads,
        ..STATICS
    };
    let other_tree = Given {
        tree: b"Screen\n  Meter\n",
        ..STATICS
    };
    let no_words = Given {
        words: &["tx", "show", "t.tree"],
        ..STATICS
    };
    loads(
        &rt,
        rt.alloc(),
        &STATICS,
        &[("t.tree", true), ("s.tcss", true)],
    )?;
    loads(
        &rt,
        rt.alloc(),
        &failing(&[2]),
        &[("t.tree", true), ("s.tcss", false)],
    )?;
    loads(&rt, rt.alloc(), &failing(&[1]), &[("t.tree", false)])?;
    loads(&rt, rt.alloc(), &other_tree, &[("t.tree", true)])?;
    loads(&rt, rt.alloc(), &no_words, &[])
}

/// What `err` takes of the line changes nothing else.
#[test]
fn the_error_line_may_be_cut_at_each_byte(rt: HostRuntime) -> Result<(), Fail> {
    let line = "tx: t.tree:2:1: NoCustom\n";
    for k in 0..25u64 {
        let given = Given {
            tree: b"Screen\n  Meter\n",
            err_fails: &[k],
            ..STATICS
        };
        let ran = run(&rt, &given)?;
        assert_eq!(rt; ran.err.taken(), line.as_bytes().split_at(k as usize).0);
        assert_eq!(rt; ran.outcome.status, 2);
    }
    Ok(())
}
