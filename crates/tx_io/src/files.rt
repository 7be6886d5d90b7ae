ghost use Rattle.std.specs.Prelude.{◌≡◌, ◌≤◌, ◌<◌, [], ◌∷◌, length, IfOk, IfSome, Some, vec_len, OnErr, OnOk};
ghost use Rattle.tx_io.specs.Faults.{raised};

use std::alloc::Global;

/// Why a load gave no bytes.
#[derive(Clone, Copy, Debug, PartialEq, Eq)]
pub enum LoadFault {
    /// The call failed, as where there is no file of that name.
    Failed,
    /// The content is longer than the limit.
    TooLong,
    /// Out of memory.
    NoMemory,
}

/// Files by name, each of which is read whole.
pub trait Files {
    ghost use Rattle.tx_io.specs.Store.{LoadGives, answer_of, failures_of};
    ghost use Rattle.tx_io.specs.Loading.{FilesSeen, load_of, append_loads};

    /// What stands under each name, and the loads so far in their order, where the files tell them,
    /// and how many loads have failed.
    ghost seen: { Self → FilesSeen };

    /// The whole content of a file, which is at most `limit` bytes. No load changes what stands
    /// under any name. `Failed` raises the count of faults, and no other answer does.
    fn load(&mut self, alloc: Global, name: &str, limit: u64) -> Result<Vec<u8>, LoadFault>
        ensures gives { IfSome (seen self.old).contents (λ told. LoadGives (told name.now) limit (answer_of result)) }
        ensures bounded { IfOk result (λ bytes. vec_len bytes ≤ limit) }
        ensures kept { (seen self.new).contents ≡ (seen self.old).contents }
        ensures told { (seen self.new).loads ≡ append_loads (seen self.old).loads (load_of name.now limit (answer_of result) ∷ []) }
        ensures faults { (seen self.new).faults ≡ raised (seen self.old).faults (failures_of (answer_of result)) };
}
