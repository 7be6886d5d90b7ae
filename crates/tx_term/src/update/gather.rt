//! A buffer before a sink, so that many small pieces are few puts.
ghost use Rattle.std.specs.Prelude.{◌≡◌, ◌≤◌, ◌<◌, ◌+◌, ◌^◌, [], false, length};
ghost use Rattle.tx_term.specs.Gather.{Gathered, Adds, handed};

use arrayvec::ArrayVec;
use std::marker::Model;
use tx_io::{Sent, Sink, send_all};

const ROOM: usize = 8192;

/// Bytes that wait to be put, with what became of those before them. After a put that failed
/// nothing more is put.
#[derive(Drop)]
pub struct Gather {
    waiting: ArrayVec<u8, ROOM>,
    taken: u64,
    failed: bool,
}

impl Model for Gather {
    ghost Value = { Gathered };

    ghost view = { λ g. record { waiting = g.waiting.items; taken = g.taken; failed = g.failed } };
}

impl Gather {
    pub fn new() -> Gather
        ensures { result ≡ record { waiting = []; taken = 0; failed = false } }
    {
        Gather {
            waiting: ArrayVec::new(),
            taken: 0,
            failed: false,
        }
    }

    /// Hands in a piece.
    pub fn push<K: Sink>(&mut self, sink: &mut K, piece: &[u8])
        requires short { length piece.now ≤ 64 }
        requires counted { handed self.old + length piece.now < 2 ^ 64 }
        ensures added { Adds (K.seen sink.old) (K.seen sink.new) self.old self.new piece.now }
        ensures bounded { handed self.new ≤ handed self.old + length piece.now }
        ensures waits { length self.old.waiting + length piece.now ≤ 8192 → sink.new ≡ sink.old }
    {
        if piece.len() > self.waiting.remaining_capacity() {
            self.flush(sink);
        }
        if self.failed {
            return;
        }
        let Ok(()) = self.waiting.try_extend_from_slice(piece) else {
            unreachable!()
        };
    }

    /// Puts all that waits.
    pub fn flush<K: Sink>(&mut self, sink: &mut K)
        requires counted { handed self.old < 2 ^ 64 }
        ensures added { Adds (K.seen sink.old) (K.seen sink.new) self.old self.new [] }
        ensures bounded { handed self.new ≤ handed self.old }
        ensures empty { self.new.failed ≡ false → self.new.waiting ≡ [] }
    {
        if self.failed {
            return;
        }
        let sent = send_all(sink, self.waiting.as_slice());
        self.waiting.clear();
        self.taken += sent.taken;
        self.failed = sent.failed;
    }

    /// What became of all that was handed in, once nothing waits.
    pub fn sent(&self) -> Sent
        ensures taken { result.taken ≡ self.now.taken }
        ensures failed { result.failed ≡ self.now.failed }
    {
        Sent {
            taken: self.taken,
            failed: self.failed,
        }
    }
}
