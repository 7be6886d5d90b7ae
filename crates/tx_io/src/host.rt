ghost use Rattle.std.specs.Prelude.{◌≡◌, ℕ, None};

use crate::files::{Files, LoadFault};
use crate::sink::{Failed, Sink};
use crate::source::Source;
use std::alloc::Global;
use std::io::{Read, Write};
use std::marker::Model;
use std::{fs, io, rt};

/// A sink before one of std's writers. Nothing is known of what the writer holds.
#[derive(Drop)]
pub struct WriterSink<W> {
    writer: W,
    failures: u64,
}

impl<W> Model for WriterSink<W> {
    ghost Value = { ℕ };

    ghost view = { λ s. s.failures };
}

impl<W> WriterSink<W> {
    /// A sink whose puts are writes to `writer`, each one write.
    pub fn new(writer: W) -> WriterSink<W>
        ensures { result ≡ 0 }
    {
        WriterSink {
            writer,
            failures: 0,
        }
    }
}

impl<W: Write> Sink for WriterSink<W> {
    ghost seen = { λ s. record { told = None; faults = s } };

    fn put(&mut self, piece: &[u8]) -> Result<usize, Failed> {
        match self.writer.write(piece) {
            Ok(count) if count > 0 || piece.is_empty() => Ok(count),
            _ => {
                self.failures = self.failures.saturating_add(1);
                Err(Failed)
            }
        }
    }
}

/// A source before one of std's readers. Nothing is known of what the reader has left.
#[derive(Drop)]
pub struct ReaderSource<R> {
    reader: R,
    failures: u64,
}

impl<R> Model for ReaderSource<R> {
    ghost Value = { ℕ };

    ghost view = { λ s. s.failures };
}

impl<R> ReaderSource<R> {
    /// A source whose reads are those of `reader`, each one read.
    pub fn new(reader: R) -> ReaderSource<R>
        ensures { result ≡ 0 }
    {
        ReaderSource {
            reader,
            failures: 0,
        }
    }
}

impl<R: Read> Source for ReaderSource<R> {
    ghost seen = { λ s. record { left = None; faults = s } };

    fn read(&mut self, into: &mut [u8]) -> Result<usize, Failed> {
        match self.reader.read(into) {
            Ok(count) => Ok(count),
            Err(_) => {
                self.failures = self.failures.saturating_add(1);
                Err(Failed)
            }
        }
    }
}

/// The files of the host. Nothing is known of what they hold.
#[derive(Drop)]
pub struct HostFiles<'a, R> {
    rt: &'a R,
    failures: u64,
}

impl<'a, R> Model for HostFiles<'a, R> {
    ghost Value = { ℕ };

    ghost view = { λ f. f.failures };
}

impl<'a, R> HostFiles<'a, R> {
    /// The files that paths name below `rt`.
    pub fn new(rt: &'a R) -> HostFiles<'a, R>
        ensures { result ≡ 0 }
    {
        HostFiles { rt, failures: 0 }
    }
}

/// The first bytes of a file, one more than `limit` where it is longer.
fn read_front<R: rt::Files>(rt: &R, alloc: Global, name: &str, limit: u64) -> io::Result<Vec<u8>> {
    let file = fs::open(rt, name)?;
    let mut bytes = Vec::new(alloc);
    file.take(limit.saturating_add(1)).read_to_end(&mut bytes)?;
    Ok(bytes)
}

impl<R: rt::Files> Files for HostFiles<'_, R> {
    ghost seen = { λ f. record { contents = None; loads = None; faults = f } };

    fn load(&mut self, alloc: Global, name: &str, limit: u64) -> Result<Vec<u8>, LoadFault> {
        match read_front(self.rt, alloc, name, limit) {
            Ok(bytes) if bytes.len() as u64 <= limit => Ok(bytes),
            Ok(_) => Err(LoadFault::TooLong),
            Err(error) if error.kind() == io::ErrorKind::OutOfMemory => Err(LoadFault::NoMemory),
            Err(_) => {
                self.failures = self.failures.saturating_add(1);
                Err(LoadFault::Failed)
            }
        }
    }
}
