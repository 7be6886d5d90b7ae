//! What a run comes to.

use crate::causes::Cause;
use crate::journal::Journal;

/// What a run did.
#[derive(Debug, Drop)]
pub struct Outcome {
    /// 0 where all was done, else the number of the cause: 1 usage, 2 a refused file, 3 a read
    /// fault, 4 an undefined picture, 5 a sink fault, 6 out of memory.
    pub status: u8,
    /// What happened, in order.
    pub journal: Journal,
    /// Why the status isn't 0.
    pub cause: Option<Cause>,
}
