//! The outside, as this engine sees it: sources that give bytes, sinks that take them, files that are
//! read whole, and ledgers of the steps that the work takes.
//!
//! [`Source`], [`Sink`] and [`Files`] say what an object does and how it may fail. [`MemorySource`],
//! [`MemorySink`] and [`MemoryFiles`] keep all in memory and fail where they are told to;
//! [`ReaderSource`], [`WriterSink`] and [`HostFiles`] stand before std's readers, writers and files;
//! [`NullSink`] takes all and keeps nothing.
#![tactic(auto)]

mod files;
mod host;
mod memory_files;
mod memory_sink;
mod memory_source;
mod null_sink;
mod send;
mod sink;
mod source;
mod steps;
#[cfg(test)]
mod tests;

pub use files::{Files, LoadFault};
pub use host::{HostFiles, ReaderSource, WriterSink};
pub use memory_files::MemoryFiles;
pub use memory_sink::MemorySink;
pub use memory_source::MemorySource;
pub use null_sink::NullSink;
pub use send::{Sent, send_all};
pub use sink::{Failed, Sink};
pub use source::Source;
pub use steps::{Counted, Ledger, Steps, Tick, Uncounted};
