//! Words, and files.

use std::alloc::{AllocError, Global};
use tx_io::MemoryFiles;

/// The words of a command line.
pub fn words_of(alloc: Global, words: &[&str]) -> Result<Vec<String>, AllocError> {
    let mut all = Vec::new(alloc);
    for word in words {
        all.push(String::from_str(alloc, word)?)?;
    }
    Ok(all)
}

/// Files in memory, each with its name and its content, of which the loads of these numbers fail.
pub fn files_of(
    alloc: Global,
    files: &[(&str, &[u8])],
    failing_loads: &[u64],
) -> Result<MemoryFiles, AllocError> {
    let mut entries = Vec::new(alloc);
    for (name, content) in files {
        entries.push((String::from_str(alloc, name)?, content.to_vec(alloc)?))?;
    }
    Ok(MemoryFiles::new(entries, failing_loads.to_vec(alloc)?))
}
