//! What a transfer id is used for.

use tf_records::Transfer;

/// The use of a transfer id.
#[derive(Clone, Copy, Debug, PartialEq, Eq)]
pub enum IdUse {
    /// No transfer has it, and it hasn't failed.
    Free,
    /// A transfer with it failed for a passing reason, and it stays failed.
    Failed,
    /// A stored transfer has it.
    Stored(Transfer),
}
