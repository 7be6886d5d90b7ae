//! The counts of a sheet.
use super::{Given, STATICS, expect, loads, refuses, run};
use crate::Cause;
use std::test::Fail;

/// The counts of a sheet of zero bytes.
const CHECK: Given<'_> = Given {
    words: &["tx", "check", "s.tcss"],
    sheet: b"",
    ..STATICS
};

/// A sheet whose counts are printed whole, in this line.
fn prints(rt: &HostRuntime, sheet: &[u8], line: &str) -> Result<(), Fail> {
    let ran = run(rt, &Given { sheet, ..CHECK })?;
    expect(ran.out.taken() == line.as_bytes(), "the line")?;
    expect(ran.err.taken().is_empty(), "the error line")?;
    expect(
        ran.outcome.status == 0 && ran.outcome.cause.is_none(),
        "the status",
    )?;
    expect(ran.outcome.journal.as_slice().is_empty(), "the journal")
}

const PARCELS: &[u8] = b"$edge: $panel;
#side { dock: left; width: 18; margin: 1 0; padding: 0 1; border: round $edge; background: $surface; }
.title { text-style: bold; margin: 0 0 1 0; }
#main { padding: 1 2; }
#keys { grid-size: 2; grid-rows: 3; grid-gutter: 1 2; }
#load { width: 100%; margin: 1 0 0 0; }
Button:hover { background: $primary 60%; }
.busy Button { color: $warning; }
";

#[test]
fn counts_are_printed(rt: HostRuntime) -> Result<(), Fail> {
    let cases: [(&[u8], &str); 4] = [
        (b"", "rules 0, declarations 0, variables 0\n"),
        (
            b"$hot: red;\nStatic { color: $hot; }",
            "rules 1, declarations 1, variables 1\n",
        ),
        (
            b"$a: 1; $a: 2; A, B { margin: $a } C {}",
            "rules 2, declarations 1, variables 2\n",
        ),
        (PARCELS, "rules 7, declarations 16, variables 1\n"),
    ];
    for (sheet, line) in cases {
        prints(&rt, sheet, line)?;
    }
    Ok(())
}

#[test]
fn the_first_fault_of_a_sheet_is_named(rt: HostRuntime) -> Result<(), Fail> {
    let cases: [(&[u8], &str); 6] = [
        (
            b"Static { color: $hot; }\n$hot: red;",
            "tx: s.tcss:1:17: UndefinedVariable\n",
        ),
        (b"Button { color: red", "tx: s.tcss:1:20: Expected\n"),
        (
            b"Button { color: red;\n  colour: red; }",
            "tx: s.tcss:2:3: UnknownProperty\n",
        ),
        (
            b"Button:over { color: red; }",
            "tx: s.tcss:1:8: UnknownPseudo\n",
        ),
        (
            b"/* \xc3\xa9 */ Button { color: /**/ 1; }",
            "tx: s.tcss:1:30: BadValue\n",
        ),
        (b"Button { \xff", "tx: s.tcss:1:10: BadByte\n"),
    ];
    for (sheet, line) in cases {
        refuses(&rt, &Given { sheet, ..CHECK }, 2, line)?;
    }
    Ok(())
}

#[test]
fn a_sheet_has_at_most_4_mib(rt: HostRuntime) -> Result<(), Fail> {
    let mut long = Vec::new(rt.alloc());
    long.resize(4_194_304, b' ')?;
    prints(&rt, &long, "rules 0, declarations 0, variables 0\n")?;
    long.push(b' ')?;
    refuses(
        &rt,
        &Given {
            sheet: &long,
            ..CHECK
        },
        2,
        "tx: s.tcss:0:0: TooLong\n",
    )
}

#[test]
fn other_words_are_refused(rt: HostRuntime) -> Result<(), Fail> {
    let cases: [&[&str]; 4] = [
        &["tx", "check"],
        &["tx", "check", "-s.tcss"],
        &["tx", "check", "s.tcss", "t.tree"],
        &["tx", "checks", "s.tcss"],
    ];
    for words in cases {
        refuses(&rt, &Given { words, ..CHECK }, 1, "tx: usage\n")?;
    }
    Ok(())
}

#[test]
fn the_sheet_alone_is_loaded(rt: HostRuntime) -> Result<(), Fail> {
    loads(&rt, rt.alloc(), &CHECK, &[("s.tcss", true)])?;
    let failing = Given {
        failing_loads: &[1],
        ..CHECK
    };
    loads(&rt, rt.alloc(), &failing, &[("s.tcss", false)])?;
    refuses(&rt, &failing, 3, "tx: read fault\n")
}

/// A sink that fails once has a prefix of the line.
#[test]
fn a_sink_may_fail_at_each_byte(rt: HostRuntime) -> Result<(), Fail> {
    let line = b"rules 0, declarations 0, variables 0\n".as_slice();
    for k in 0..37u64 {
        let ran = run(
            &rt,
            &Given {
                out_fails: &[k],
                ..CHECK
            },
        )?;
        assert_eq!(rt; ran.out.taken(), line.split_at(k as usize).0);
        assert_eq!(rt; ran.err.taken(), b"tx: sink fault\n".as_slice());
        assert_eq!(rt; ran.outcome.status, 5);
        assert!(rt; ran.outcome.journal.as_slice().is_empty());
        assert!(rt; matches!(&ran.outcome.cause, Some(Cause::SinkFault { rose: 1 })));
    }
    Ok(())
}
