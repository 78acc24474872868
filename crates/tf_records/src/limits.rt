//! The limits that every layer shares.

/// The most events in a batch, ids in a lookup, rows in an answer and expiries in a pulse.
pub const BATCH_MAX: u32 = 8_190;

/// The greatest timestamp, in nanoseconds: `2^63 - 1`. A stored object has one from 1 to this.
pub const TIMESTAMP_MAX: u64 = (1 << 63) - 1;

/// The greatest amount and the greatest sum of amounts, in the ledger's unit: `2^128 - 1`.
pub const AMOUNT_MAX: u128 = u128::MAX;

/// The number that no account and no transfer may have as its id, besides 0: `2^128 - 1`.
pub const ID_MAX: u128 = u128::MAX;
