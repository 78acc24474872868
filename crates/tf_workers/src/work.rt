//! What clients are given to do.

use std::alloc::Global;
use tf_records::{Account, Transfer};

/// One piece of a client's work. Moments are in nanoseconds.
#[derive(Drop)]
pub enum Work {
    /// A batch of accounts, and the moment that it is given.
    Accounts(Vec<Account, Global>, u64),
    /// A batch of transfers, and the moment that it is given.
    Transfers(Vec<Transfer, Global>, u64),
    /// A pulse: the moment that it is given, and how many pending transfers it expires at most.
    Pulse(u64, u32),
    /// A publish alone.
    Publish,
}
