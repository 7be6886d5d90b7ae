//! The program: the words of the command line, the host's files, and standard output and error.
#![tactic(auto)]

use std::env;
use std::io::ErrorKind;
use std::process::ExitCode;
use tx_app::top_alone;
use tx_io::{HostFiles, Steps, Uncounted, WriterSink};

const USAGE: u8 = 1;

const NO_MEMORY: u8 = 6;

/// The words, the program's name before them, or the status that says why there are none.
fn words(rt: &HostRuntime) -> Result<Vec<String>, u8> {
    match env::args(rt) {
        Ok(words) => match words.collect(rt.alloc()) {
            Ok(words) => Ok(words),
            Err(_) => Err(NO_MEMORY),
        },
        Err(error) => match error.kind() {
            ErrorKind::OutOfMemory => Err(NO_MEMORY),
            _ => Err(USAGE),
        },
    }
}

fn status(rt: &HostRuntime) -> u8 {
    match words(rt) {
        Ok(words) => {
            let mut files = HostFiles::new(rt);
            let mut out = WriterSink::new(rt.stdout());
            let mut err = WriterSink::new(rt.stderr());
            let mut steps = Steps { ledger: Uncounted };
            top_alone(
                rt.alloc(),
                &words,
                &mut files,
                &mut out,
                &mut err,
                &mut steps,
            )
            .status
        }
        Err(status) => status,
    }
}

fn main(rt: HostRuntime) -> ExitCode {
    ExitCode::from(status(&rt))
}
