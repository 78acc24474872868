//! Why a call was refused.

ghost use Rattle.std.specs.Prelude.{◌≡◌};
ghost use Rattle.tf_records.specs.declared.refusal.Refusal.TheVariants.{NoMemory};

use std::alloc::{AllocError, AllocFailed};
use thiserror::Error;

/// A refused call. It left everything as it was.
///
/// The text of each names it. A result of an event is no refusal: it stands in
/// the reply.
#[derive(Clone, Copy, Debug, PartialEq, Eq, Error)]
pub enum Refusal {
    /// A growth was refused in this call.
    #[error("no memory")]
    NoMemory,
    /// More than `BATCH_MAX` events or ids.
    #[error("batch_too_large")]
    BatchTooLarge,
    /// A timestamp would be above `TIMESTAMP_MAX`.
    #[error("clock_exhausted")]
    ClockExhausted,
    /// The tables that a merge read are no longer where they were.
    #[error("stale")]
    Stale,
    /// The tables that the call needs don't fit into the registry.
    #[error("registry_full")]
    RegistryFull,
    /// A script has a fault at this place, both counted from 1.
    #[error("bad line {line} column {column}")]
    BadLine { line: u64, column: u64 },
    /// Bytes of this length aren't the record that was asked for.
    #[error("bad record of {length} bytes")]
    BadRecord { length: u64 },
}

impl From<AllocError> for Refusal {
    ghost from_gives = { λ _ refusal. refusal ≡ NoMemory };

    /// A growth that was refused is `NoMemory`.
    fn from(_refused: AllocError) -> Self {
        Refusal::NoMemory
    }
}

impl<T: Drop> From<AllocFailed<T>> for Refusal {
    ghost from_gives = { λ _ refusal. refusal ≡ NoMemory };

    /// A growth that was refused is `NoMemory`. What wasn't stored is dropped.
    fn from(_refused: AllocFailed<T>) -> Self {
        Refusal::NoMemory
    }
}
