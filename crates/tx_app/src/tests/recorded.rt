//! Files that keep what was loaded.
ghost use Rattle.std.specs.Prelude.{◌≡◌, ◌≤◌, [], ◌∷◌, ℕ, List, map, Some, IfOk, string_bytes, vec_len};
ghost use Rattle.tx_io.specs.Faults.{raised};
ghost use Rattle.tx_io.specs.Loading.{Load, load_of, append_loads};
ghost use Rattle.tx_io.specs.Memory.{FilesState};
ghost use Rattle.tx_io.specs.Store.{LoadGives, answer_of, failures_of, look_up};

use std::alloc::Global;
use std::marker::Model;
use std::process::Abort;
use tx_io::{Files, LoadFault, MemoryFiles};

/// A load as it was made.
#[derive(Drop)]
pub struct Made {
    pub name: String,
    pub limit: u64,
    pub answer: Result<Vec<u8>, LoadFault>,
}

/// Files in memory that report their loads. Where memory runs out for that the test is ended.
#[derive(Drop)]
pub struct Recorded<'a, R> {
    rt: &'a R,
    files: MemoryFiles,
    loads: Vec<Made>,
}

impl<'a, R> Model for Recorded<'a, R> {
    ghost use Rattle.std.specs.Prelude.{List, map, string_bytes};
    ghost use Rattle.tx_io.specs.Loading.{Load, load_of};
    ghost use Rattle.tx_io.specs.Memory.{FilesState};
    ghost use Rattle.tx_io.specs.Store.{answer_of};

    ghost Value = { FilesState × List Load };

    ghost view = { λ r. (r.files, map (λ made. load_of (string_bytes made.name) made.limit (answer_of made.answer)) r.loads.items) };
}

impl<'a, R> Recorded<'a, R> {
    /// These files, of which no load was made.
    pub fn new(rt: &'a R, alloc: Global, files: MemoryFiles) -> Recorded<'a, R>
        ensures { result ≡ (files, []) }
    {
        Recorded {
            rt,
            files,
            loads: Vec::new(alloc),
        }
    }

    /// The loads so far, in their order.
    pub fn loads(&self) -> &[Made] {
        self.loads.as_slice()
    }
}

impl<R: Abort> Files for Recorded<'_, R> {
    ghost seen = { λ r. record { contents = Some (look_up r.0.entries); loads = Some r.1; faults = r.0.faults } };

    fn load(&mut self, alloc: Global, name: &str, limit: u64) -> Result<Vec<u8>, LoadFault> {
        let answer = self.files.load(alloc, name, limit);
        let copy = match &answer {
            Ok(bytes) => Ok(bytes.to_vec(alloc).expect(self.rt, "memory")),
            Err(fault) => Err(*fault),
        };
        let made = Made {
            name: String::from_str(alloc, name).expect(self.rt, "memory"),
            limit,
            answer: copy,
        };
        self.loads.push(made).expect(self.rt, "memory");
        answer
    }
}
