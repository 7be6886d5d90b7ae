ghost use Rattle.std.specs.Prelude.{◌≡◌, ◌≤◌, ℕ, ◌+◌, ◌-◌, ◌^◌, List, [], ◌∷◌, Option, None, Some, IfOk, IfSome, min, vec_len, option_map, if◌then◌else◌};
ghost use Rattle.tx_io.specs.Faults.{raised};
ghost use Rattle.tx_io.specs.Memory.{FilesState, stored, load_fails};
ghost use Rattle.tx_io.specs.Store.{LoadGives, answer_of, failures_of, look_up};

use crate::files::{Files, LoadFault};
use std::alloc::Global;
use std::marker::Model;

/// Files in memory, with loads that fail where they are told to.
#[derive(Drop)]
pub struct MemoryFiles {
    files: Vec<(String, Vec<u8>)>,
    fail_at: Vec<u64>,
    loads: u64,
    failures: u64,
}

impl Model for MemoryFiles {
    ghost Value = { FilesState };

    ghost view = { λ f. record { entries = stored f.files.items; plan = f.fail_at.items; loads = f.loads; faults = f.failures } };
}

impl MemoryFiles {
    /// Each name with its content; of several entries of one name the first counts. `fail_at` lists
    /// the numbers of the loads that fail, counted from 1. A load of a name that isn't there fails too.
    pub fn new(files: Vec<(String, Vec<u8>)>, fail_at: Vec<u64>) -> MemoryFiles
        ensures { result ≡ record { entries = stored files.items; plan = fail_at.items; loads = 0; faults = 0 } }
    {
        MemoryFiles {
            files,
            fail_at,
            loads: 0,
            failures: 0,
        }
    }
}

/// The content of the first entry of that name.
fn content_of<'a>(files: &'a [(String, Vec<u8>)], name: &str) -> Option<&'a [u8]>
    ensures { option_map (λ content. content.now) result ≡ look_up (stored files.now) name.now }
{
    for (entry, content) in files {
        if entry.as_str() == name {
            return Some(content.as_slice());
        }
    }
    None
}

impl Files for MemoryFiles {
    ghost use Rattle.tx_io.specs.Loading.{Load, load_of, append_loads};

    ghost seen = { λ f. record { contents = Some (look_up f.entries); loads = None; faults = f.faults } };

    fn load(&mut self, alloc: Global, name: &str, limit: u64) -> Result<Vec<u8>, LoadFault>
        ensures gives { LoadGives (look_up self.old.entries name.now) limit (answer_of result) }
        ensures bounded { IfOk result (λ bytes. vec_len bytes ≤ limit) }
        ensures kept { Some (look_up self.new.entries) ≡ Some (look_up self.old.entries) }
        ensures told { let untold : Option (List Load) = None in untold ≡ append_loads untold (load_of name.now limit (answer_of result) ∷ []) }
        ensures faults { self.new.faults ≡ raised self.old.faults (failures_of (answer_of result)) }

        // It fails exactly where it is planned to and where there is no such name.
        ensures planned { failures_of (answer_of result) ≡ (if load_fails self.old (min (self.old.loads + 1) (2 ^ 64 - 1)) name.now then 1 else 0) }
        ensures counted { self.new.loads ≡ min (self.old.loads + 1) (2 ^ 64 - 1) }
        ensures plan { self.new.plan ≡ self.old.plan }
        ensures entries { self.new.entries ≡ self.old.entries }
    {
        self.loads = self.loads.saturating_add(1);
        let content = content_of(&self.files, name);
        match content {
            Some(content) if !self.fail_at.contains(&self.loads) => {
                if limit < content.len() as u64 {
                    return Err(LoadFault::TooLong);
                }
                match content.to_vec(alloc) {
                    Ok(bytes) => Ok(bytes),
                    Err(_) => Err(LoadFault::NoMemory),
                }
            }
            _ => {
                self.failures = self.failures.saturating_add(1);
                Err(LoadFault::Failed)
            }
        }
    }
}
