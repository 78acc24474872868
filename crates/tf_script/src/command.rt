//! What a script asks for.

use std::alloc::Allocator;
use tf_records::{Account, AccountFilter, QueryFilter, Transfer};

/// One command of a script.
#[derive(Drop)]
pub enum Command<A: Allocator> {
    /// A batch of accounts.
    Accounts {
        /// The moment that the batch is given, in nanoseconds.
        now: u64,
        /// Its events, in their order; any number of them.
        events: Vec<Account, A>,
    },
    /// A batch of transfers.
    Transfers {
        /// The moment that the batch is given, in nanoseconds.
        now: u64,
        /// Its events, in their order; any number of them.
        events: Vec<Transfer, A>,
    },
    /// A pulse, by which pending transfers expire.
    Pulse {
        /// The moment that the pulse is given, in nanoseconds.
        now: u64,
        /// The most transfers that it expires.
        max: u32,
    },
    /// Asks for a publish of what is stored so far.
    Publish,
    /// Asks for a compaction: merges of each row's tables until none has one to do.
    Compact,
    /// A query.
    Query(Query),
    /// The accounts with these ids, in their order; any number of them.
    LookupAccounts(Vec<u128, A>),
    /// The transfers with these ids, in their order; any number of them.
    LookupTransfers(Vec<u128, A>),
}

/// What a query asks for, by its filter, which may be invalid.
#[derive(Clone, Copy, Debug, PartialEq, Eq)]
pub enum Query {
    /// The transfers of one account.
    AccountTransfers(AccountFilter),
    /// The balances of one account after its transfers.
    AccountBalances(AccountFilter),
    /// All accounts.
    Accounts(QueryFilter),
    /// All transfers.
    Transfers(QueryFilter),
}
