ghost use Rattle.std.specs.Prelude.{◌≡◌, ◌≤◌, ◌<◌, ◌+◌, ◌++◌, [], ℕ, Some, IsErr, IsNone, ◌≢◌, length, take, drop, min, IfOk, OnErr, OnOk, MatchOption, vec_len};
ghost use Rattle.std.specs.Io.KnownBytes.{prepend_known, IsAtEnd};
ghost use Rattle.tx_io.specs.Faults.{raised};
ghost use Rattle.tx_io.specs.Memory.{SourceState, room};

use crate::sink::Failed;
use crate::source::Source;
use std::marker::Model;

/// A source of bytes in memory, with reads that fail where they are told to.
#[derive(Drop)]
pub struct MemorySource {
    bytes: Vec<u8>,
    given: usize,
    fail_at: Vec<u64>,
    failed: usize,
    failures: u64,
}

impl Model for MemorySource {
    ghost Value = { SourceState };

    ghost view = { λ s. record { given = s.given; left = drop s.given s.bytes.items; plan = drop s.failed s.fail_at.items; faults = s.failures } };

    ghost invariant = { λ s. (s.given ≤ vec_len s.bytes) × (s.failed ≤ vec_len s.fail_at) };
}

impl MemorySource {
    /// A source that gives these bytes. `fail_at` lists, ascending, how many bytes were given when a
    /// read fails: a read stops before the next listed place, and the read after it fails once.
    pub fn new(bytes: Vec<u8>, fail_at: Vec<u64>) -> MemorySource
        ensures { result ≡ record { given = 0; left = bytes.items; plan = fail_at.items; faults = 0 } }
    {
        MemorySource {
            bytes,
            given: 0,
            fail_at,
            failed: 0,
            failures: 0,
        }
    }

    /// How many of `len` bytes a read may give here, or none where it is to fail.
    fn room(&self, len: usize) -> Option<usize>
        ensures is { result ≡ room self.now.plan self.now.given len }
        ensures planned { IsNone result → self.now.plan ≢ [] }
    {
        let total = self.given as u64;
        match self.fail_at.get(self.failed) {
            None => Some(len),
            Some(&place) if total < place => Some(len.min((place - total) as usize)),
            Some(_) => None,
        }
    }

    /// Moves at most so many bytes to the first places of `into`, and answers how many.
    fn give(&mut self, most: usize, into: &mut [u8]) -> usize
        requires { most ≤ length into.old }
        ensures count { result ≡ min most (length self.old.left) }
        ensures places { self.old.left ≡ take result into.new ++ self.new.left }
        ensures given { self.new.given ≡ self.old.given + result }
        ensures plan { self.new.plan ≡ self.old.plan }
        ensures faults { self.new.faults ≡ self.old.faults }
    {
        let (_, left) = self.bytes.as_slice().split_at(self.given);
        let count = most.min(left.len());
        into[..count].copy_from_slice(&left[..count]);
        self.given += count;
        count
    }
}

impl Source for MemorySource {
    ghost seen = { λ s. record { left = Some s.left; faults = s.faults } };

    fn read(&mut self, into: &mut [u8]) -> Result<usize, Failed>
        requires { 0 < length into.old }
        ensures within { IfOk result (λ n. n ≤ length into.new) }
        ensures given { IfOk result (λ n. Some self.old.left ≡ prepend_known (take n into.new) (Some self.new.left)) }
        ensures end { IfOk result (λ n. n ≡ 0 → IsAtEnd (Some self.new.left)) }
        ensures kept { OnErr result (Some self.new.left ≡ Some self.old.left) }
        ensures failed { OnErr result (self.new.faults ≡ raised self.old.faults 1) }
        ensures quiet { OnOk result (self.new.faults ≡ self.old.faults) }

        // It fails at the listed places, once at each, and gives all that the next one leaves room for.
        ensures planned { MatchOption (room self.old.plan self.old.given (length into.old))
            (IsErr result × (self.new.plan ≡ drop 1 self.old.plan))
            (λ most. (self.new.plan ≡ self.old.plan) × IfOk result (λ n. n ≡ min most (length self.old.left))) }
        ensures counted { (IsErr result → self.new.given ≡ self.old.given) × IfOk result (λ n. self.new.given ≡ self.old.given + n) }
    {
        match self.room(into.len()) {
            Some(most) => Ok(self.give(most, into)),
            None => {
                self.failed += 1;
                self.failures = self.failures.saturating_add(1);
                Err(Failed)
            }
        }
    }
}
