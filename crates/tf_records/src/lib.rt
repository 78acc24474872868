//! The records of the ledger, their bytes, and the names of its results and refusals.
//!
//! The five records have the fields, sizes and flags of TigerBeetle 0.16. Nothing here judges a
//! record: any bytes of the right length are one.
#![tactic(auto)]

mod account;
mod account_balance;
mod account_filter;
mod laws;
mod limits;
mod little_endian;
mod outcome;
mod query_filter;
mod refusal;
mod reply;
mod sums;
mod transfer;

pub use account::Account;
pub use account_balance::AccountBalance;
pub use account_filter::AccountFilter;
pub use laws::{
    account_flags_are_these, filter_flags_are_these, limits_are_these, record_sizes_are_these,
    transfer_flags_are_these,
};
pub use limits::{AMOUNT_MAX, BATCH_MAX, ID_MAX, TIMESTAMP_MAX};
pub use outcome::Outcome;
pub use query_filter::QueryFilter;
pub use refusal::Refusal;
pub use reply::{Failure, Reply};
pub use sums::Sums;
pub use transfer::Transfer;
