//! Why a storm has no totals.

use std::alloc::AllocError;
use tf_records::Refusal;

/// Why a storm has no totals. All workers that were started were joined.
#[derive(Clone, Copy, PartialEq, Eq, Debug)]
pub enum StormFault {
    /// A growth was refused before any client was started.
    NoMemory,
    /// A thread couldn't be made.
    NoThread,
}

impl From<AllocError> for StormFault {
    fn from(_refused: AllocError) -> Self {
        StormFault::NoMemory
    }
}

impl From<Refusal> for StormFault {
    fn from(_refused: Refusal) -> Self {
        StormFault::NoMemory
    }
}
