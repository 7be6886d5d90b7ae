ghost use Rattle.std.specs.Prelude.{◌≡◌, ◌≤◌, ◌<◌, length, take, IfOk, OnErr, OnOk};
ghost use Rattle.std.specs.Io.KnownBytes.{prepend_known, IsAtEnd};
ghost use Rattle.tx_io.specs.Faults.{raised};

use crate::sink::Failed;

/// What gives bytes, as a keyboard or a file does.
pub trait Source {
    ghost use Rattle.tx_io.specs.Source.{SourceSeen};

    /// The bytes that are left, where the source tells them, and how many reads have failed.
    ghost seen: { Self → SourceSeen };

    /// Moves the first bytes that are left to the first places of `into`, of which there is at least
    /// one, and answers how many it moved: at least one, or 0 at the end of input. A read that fails
    /// moves none.
    fn read(&mut self, into: &mut [u8]) -> Result<usize, Failed>
        requires { 0 < length into.old }
        ensures within { IfOk result (λ n. n ≤ length into.new) }
        ensures given { IfOk result (λ n. (seen self.old).left ≡ prepend_known (take n into.new) (seen self.new).left) }
        ensures end { IfOk result (λ n. n ≡ 0 → IsAtEnd (seen self.new).left) }
        ensures kept { OnErr result ((seen self.new).left ≡ (seen self.old).left) }
        ensures failed { OnErr result ((seen self.new).faults ≡ raised (seen self.old).faults 1) }
        ensures quiet { OnOk result ((seen self.new).faults ≡ (seen self.old).faults) };
}
