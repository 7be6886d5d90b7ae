ghost use Rattle.std.specs.Prelude.{◌≡◌, ◌≤◌, ◌<◌, length, take, IfOk, OnErr, OnOk};
ghost use Rattle.std.specs.Io.KnownBytes.{append_known};
ghost use Rattle.tx_io.specs.Faults.{raised};

/// A call on an object of the outside that failed. What went wrong isn't reported.
#[derive(Clone, Copy, Debug, PartialEq, Eq)]
pub struct Failed;

/// What takes bytes, as a terminal or a file does.
pub trait Sink {
    ghost use Rattle.tx_io.specs.Sink.{SinkSeen};

    /// The bytes taken so far, where the sink tells them, and how many puts have failed.
    ghost seen: { Self → SinkSeen };

    /// Takes a prefix of the piece and answers its length. Of a piece that isn't empty it
    /// takes at least one byte, or it fails and takes nothing.
    fn put(&mut self, piece: &[u8]) -> Result<usize, Failed>
        ensures within { IfOk result (λ n. n ≤ length piece.now) }
        ensures some { IfOk result (λ n. 0 < length piece.now → 0 < n) }
        ensures taken { IfOk result (λ n. (seen self.new).told ≡ append_known (seen self.old).told (take n piece.now)) }
        ensures kept { OnErr result ((seen self.new).told ≡ (seen self.old).told) }
        ensures failed { OnErr result ((seen self.new).faults ≡ raised (seen self.old).faults 1) }
        ensures quiet { OnOk result ((seen self.new).faults ≡ (seen self.old).faults) };
}
