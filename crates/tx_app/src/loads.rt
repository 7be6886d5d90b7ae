//! The loads of files.
ghost use Rattle.tx_app.specs.Loads.{Loads};

use crate::causes::{Cause, Refusal, refused};
use std::alloc::Global;
use tx_io::{Files, LoadFault};

const FILE_LIMIT: u64 = 4_194_304;

/// The bytes of a file, which has at most 4 MiB.
pub fn load<F: Files>(alloc: Global, files: &mut F, name: &str) -> Result<Vec<u8>, Cause>
    ensures { Loads (F.seen files.old) (F.seen files.new) name.now result }
{
    match files.load(alloc, name, FILE_LIMIT) {
        Ok(bytes) => Ok(bytes),
        Err(LoadFault::Failed) => Err(Cause::ReadFault { rose: 1 }),
        Err(LoadFault::TooLong) => Err(refused(alloc, name, 0, 0, Refusal::TooLong)),
        Err(LoadFault::NoMemory) => Err(Cause::NoMemory),
    }
}
