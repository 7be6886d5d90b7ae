//! Want of memory.

use std::alloc::AllocError;

/// Want of memory.
pub type NoMemory = AllocError;
