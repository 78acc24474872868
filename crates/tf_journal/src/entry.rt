//! What a journal has in it.

use tf_records::{Account, Transfer};

/// One entry of a journal, as it was stored. Each has a timestamp of its own, in nanoseconds.
#[derive(Clone, Copy, Debug, PartialEq, Eq)]
pub enum Entry {
    /// A stored account: its sums are 0, its flags its own.
    Account(Account),
    /// A stored transfer.
    Transfer(Transfer),
    /// The time of a pending transfer was over.
    Expiry {
        /// When the expiry was stored.
        timestamp: u64,
        /// The timestamp of the pending transfer.
        pending: u64,
    },
    /// A transfer failed for a passing reason, and its id stays failed.
    Failed {
        /// When the failure was stored.
        timestamp: u64,
        /// The id of the transfer that failed.
        id: u128,
    },
}

impl Entry {
    ghost use Rattle.std.specs.Prelude.{◌≡◌};
    ghost use Rattle.tf_journal.specs.Journal.{account_in, timestamp_of, transfer_in};

    /// The entry's own timestamp. Takes no memory.
    pub fn timestamp(&self) -> u64
        ensures { result ≡ timestamp_of self.now }
    {
        match self {
            Entry::Account(account) => account.timestamp,
            Entry::Transfer(transfer) => transfer.timestamp,
            Entry::Expiry { timestamp, .. } | Entry::Failed { timestamp, .. } => *timestamp,
        }
    }

    /// The account, of an entry that is one. Takes no memory.
    pub fn account(&self) -> Option<Account>
        ensures { result ≡ account_in self.now }
    {
        match self {
            Entry::Account(account) => Some(*account),
            _ => None,
        }
    }

    /// The transfer, of an entry that is one. Takes no memory.
    pub fn transfer(&self) -> Option<Transfer>
        ensures { result ≡ transfer_in self.now }
    {
        match self {
            Entry::Transfer(transfer) => Some(*transfer),
            _ => None,
        }
    }
}
