//! What query workers are given to do.

use std::alloc::Global;
use tf_records::{AccountFilter, QueryFilter};

/// What a query worker is asked once.
#[derive(Drop)]
pub enum Ask {
    /// The transfers of an account that a filter asks for.
    AccountTransfers(AccountFilter),
    /// The balances of an account after those transfers.
    AccountBalances(AccountFilter),
    /// The accounts that a filter asks for.
    QueryAccounts(QueryFilter),
    /// The transfers that a filter asks for.
    QueryTransfers(QueryFilter),
    /// The accounts with these ids.
    Accounts(Vec<u128, Global>),
    /// The transfers with these ids.
    Transfers(Vec<u128, Global>),
}
