//! The words of `check`, `query` and `show`, from both sides.
use super::{BLANK, Given, STATICS, given_files, loads, shows};
use crate::top_alone;
use std::alloc::{AllocError, Global};
use std::test::Fail;
use tx_expect::expect;
use tx_io::{MemorySink, Steps, Uncounted};

/// The words of a line, parted by one blank each.
fn words_in(alloc: Global, line: &str) -> Result<Vec<String>, AllocError> {
    let mut words = Vec::new(alloc);
    for word in line.split(' ') {
        words.push(String::from_str(alloc, word)?)?;
    }
    Ok(words)
}

/// The status that these words end with, where `t.tree` and `s.tcss` are the only files.
fn status_of(rt: &HostRuntime, line: &str) -> Result<u8, AllocError> {
    let words = words_in(rt.alloc(), line)?;
    let mut files = given_files(rt.alloc(), &STATICS)?;
    let mut out = MemorySink::new(rt.alloc(), Vec::new(rt.alloc()));
    let mut err = MemorySink::new(rt.alloc(), Vec::new(rt.alloc()));
    let outcome = top_alone(
        rt.alloc(),
        &words,
        &mut files,
        &mut out,
        &mut err,
        &mut Steps { ledger: Uncounted },
    );
    Ok(outcome.status)
}

/// Each line of the table ends with this status.
fn end_with(rt: &HostRuntime, status: u8, table: &'static str) -> Result<(), Fail> {
    for line in table.lines() {
        expect(status_of(rt, line)? == status, line)?;
    }
    Ok(())
}

const REFUSED: &str = "tx
tx --
tx -
tx -- check s.tcss
tx --width 6 show t.tree s.tcss
tx --help
tx -h
tx --version
tx -V
tx help
tx help check
tx draw t.tree s.tcss
tx play t.tree s.tcss
tx soak 1
tx live t.tree s.tcss -
tx Check s.tcss
tx check
tx check --
tx check s.tcss t.tree
tx check --width 6 s.tcss
tx check -s.tcss
tx check --help
tx check --s.tcss
tx check s.tcss -x
tx query t.tree
tx query t.tree A B
tx query -x A
tx query t.tree -A
tx query t.tree A -- B
tx show t.tree s.tcss --width
tx show t.tree s.tcss --width=
tx show t.tree s.tcss --width 6 --width 6
tx show t.tree s.tcss --width=6 --width 6
tx show t.tree s.tcss --height=2 --height=2
tx show t.tree s.tcss --width --height 2
tx show t.tree s.tcss --width -- 6
tx show t.tree s.tcss --width -6
tx show t.tree s.tcss --width=-6
tx show t.tree s.tcss --width -
tx show t.tree s.tcss -width 6
tx show t.tree s.tcss --widt 6
tx show t.tree s.tcss --depth 6
tx show t.tree s.tcss --Width 6
tx show t.tree s.tcss --=6
tx show t.tree s.tcss --width 0
tx show t.tree s.tcss --width 1025
tx show t.tree s.tcss --height 513
tx show t.tree s.tcss --width 00000000006
tx show t.tree s.tcss --width +6
tx show t.tree s.tcss --width 6.0
tx show t.tree s.tcss --width=6=6
tx show t.tree s.tcss -- --width 6
tx show t.tree -- s.tcss --width=6
tx show t.tree
tx show -t.tree s.tcss
tx show t.tree s.tcss x";

const ACCEPTED: &str = "tx check s.tcss
tx check -- s.tcss
tx query t.tree A
tx query -- t.tree A
tx query t.tree -- A
tx query t.tree A --
tx show t.tree s.tcss --width 9 --height 2
tx show t.tree s.tcss --height 2 --width 9
tx show --width 9 t.tree --height=2 s.tcss
tx show --width=9 --height=2 t.tree s.tcss
tx show t.tree --width 9 s.tcss --height 2
tx show --width=9 --height 2 -- t.tree s.tcss
tx show t.tree s.tcss --width 0000000009 --height 2";

/// A word that names a file which isn't there: the words are accepted, and the load fails.
const OTHER_FILES: &str = "tx check -
tx check -- -
tx check -- --
tx check -- -x
tx check -- --help
tx check check
tx check\u{20}
tx query - A
tx query -- -x A
tx show - s.tcss
tx show t.tree -
tx show t.tree -- --width
tx show --width 9 -- t.tree --width=9";

#[test]
fn words_outside_the_grammar_are_refused(rt: HostRuntime) -> Result<(), Fail> {
    end_with(&rt, 1, REFUSED)
}

#[test]
fn words_in_the_grammar_are_accepted(rt: HostRuntime) -> Result<(), Fail> {
    end_with(&rt, 0, ACCEPTED)?;
    end_with(&rt, 3, OTHER_FILES)
}

#[test]
fn options_stand_anywhere_after_the_mode(rt: HostRuntime) -> Result<(), Fail> {
    let given = Given {
        words: &[
            "tx",
            "show",
            "--height",
            "2",
            "t.tree",
            "--width=4",
            "s.tcss",
        ],
        tree: b"Screen\n",
        sheet: b"",
        ..STATICS
    };
    shows(&rt, &given, BLANK, 78)
}

#[test]
fn a_hyphen_alone_is_a_file(rt: HostRuntime) -> Result<(), Fail> {
    let given = Given {
        words: &["tx", "check", "-"],
        ..STATICS
    };
    loads(&rt, rt.alloc(), &given, &[("-", false)])
}
