ghost use Rattle.tx_io.specs.Sending.{Sends};

use crate::sink::{Failed, Sink};

/// What became of bytes that were sent.
#[derive(Clone, Copy, Debug, PartialEq, Eq)]
pub struct Sent {
    /// The length of the prefix that the sink took.
    pub taken: u64,
    /// Whether a put failed. Then no further one was made.
    pub failed: bool,
}

/// Puts the bytes until all are taken or a put fails. No bytes make no put.
pub fn send_all<K: Sink>(sink: &mut K, bytes: &[u8]) -> Sent
    ensures { Sends (K.seen sink.old) (K.seen sink.new) bytes.now result }
{
    let mut rest = bytes;
    while !rest.is_empty() {
        match sink.put(rest) {
            Ok(count) => (_, rest) = rest.split_at(count),
            Err(Failed) => {
                let taken = (bytes.len() - rest.len()) as u64;
                return Sent {
                    taken,
                    failed: true,
                };
            }
        }
    }
    Sent {
        taken: bytes.len() as u64,
        failed: false,
    }
}
