//! What rows have at their keys.

use tf_journal::Status;
use tf_records::{Account, Sums, Transfer};

/// An account's sums, and whether it is closed: by its own record, or by an open pending transfer.
#[derive(Clone, Copy, Debug, PartialEq, Eq)]
pub struct State {
    pub sums: Sums,
    pub closed: bool,
}

/// What a transfer id was used for.
#[derive(Clone, Copy, Debug, PartialEq, Eq)]
pub enum IdStamp {
    /// The timestamp of the transfer that is stored with it.
    Stored(u64),
    /// The timestamp of the failure after which it stays failed.
    Failed(u64),
}

/// What a row has at a key. All values of one row are of one kind.
#[derive(Clone, Copy, Debug, PartialEq, Eq)]
pub enum Value {
    /// An account as it was stored.
    Account(Account),
    /// A transfer as it was stored.
    Transfer(Transfer),
    /// The timestamp of a record.
    Stamp(u64),
    /// The timestamp of a failure.
    FailedAt(u64),
    /// Nothing besides the key.
    Unit,
    /// An account's present sums, and whether it is closed.
    State(State),
    /// An account's sums at some moment.
    Sums(Sums),
    /// What became of a pending transfer.
    Status(Status),
}
