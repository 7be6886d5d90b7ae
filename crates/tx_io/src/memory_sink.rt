ghost use Rattle.std.specs.Prelude.{◌≡◌, ◌≤◌, ◌<◌, List, [], ℕ, Some, IsErr, length, take, drop, IfOk, OnErr, OnOk, MatchOption, vec_len};
ghost use Rattle.std.specs.Io.KnownBytes.{append_known};
ghost use Rattle.tx_io.specs.Faults.{raised};
ghost use Rattle.tx_io.specs.Memory.{SinkState, room};

use crate::sink::{Failed, Sink};
use std::alloc::Global;
use std::marker::Model;

/// A sink that keeps the bytes in memory and fails where it is told to.
#[derive(Drop)]
pub struct MemorySink {
    bytes: Vec<u8>,
    fail_at: Vec<u64>,
    failed: usize,
    failures: u64,
}

impl Model for MemorySink {
    ghost Value = { SinkState };

    ghost view = { λ s. record { taken = s.bytes.items; plan = drop s.failed s.fail_at.items; faults = s.failures } };

    ghost invariant = { λ s. s.failed ≤ vec_len s.fail_at };
}

impl MemorySink {
    /// An empty sink. `fail_at` lists, ascending, how many bytes are taken when a put fails: a put
    /// stops before the next listed place, and the put after it fails once. One that finds no
    /// memory fails too.
    pub fn new(alloc: Global, fail_at: Vec<u64>) -> MemorySink
        ensures { result ≡ record { taken = []; plan = fail_at.items; faults = 0 } }
    {
        MemorySink {
            bytes: Vec::new(alloc),
            fail_at,
            failed: 0,
            failures: 0,
        }
    }

    /// The bytes taken so far.
    pub fn taken(&self) -> &[u8]
        ensures { result.now ≡ self.now.taken }
    {
        self.bytes.as_slice()
    }
}

impl Sink for MemorySink {
    ghost seen = { λ s. record { told = Some s.taken; faults = s.faults } };

    fn put(&mut self, piece: &[u8]) -> Result<usize, Failed>
        ensures within { IfOk result (λ n. n ≤ length piece.now) }
        ensures some { IfOk result (λ n. 0 < length piece.now → 0 < n) }
        ensures taken { IfOk result (λ n. Some self.new.taken ≡ append_known (Some self.old.taken) (take n piece.now)) }
        ensures kept { OnErr result (Some self.new.taken ≡ Some self.old.taken) }
        ensures failed { OnErr result (self.new.faults ≡ raised self.old.faults 1) }
        ensures quiet { OnOk result (self.new.faults ≡ self.old.faults) }

        // It fails at the listed places, once at each, and takes all that the next one leaves room for.
        ensures planned { MatchOption (room self.old.plan (length self.old.taken) (length piece.now))
            (IsErr result × (self.new.plan ≡ drop 1 self.old.plan))
            (λ most. (self.new.plan ≡ self.old.plan) × IfOk result (λ n. n ≡ most)) }
    {
        let total = self.bytes.len() as u64;
        let most = match self.fail_at.get(self.failed) {
            None => piece.len(),
            Some(&place) if total < place => piece.len().min((place - total) as usize),
            Some(_) => {
                self.failed += 1;
                self.failures = self.failures.saturating_add(1);
                return Err(Failed);
            }
        };
        if self.bytes.extend_from_slice(&piece[..most]).is_err() {
            self.failures = self.failures.saturating_add(1);
            return Err(Failed);
        }
        Ok(most)
    }
}
