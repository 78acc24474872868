//! What is asked of a version, and what it answers.
use std::alloc::Allocator;
use tf_records::{Account, AccountBalance, AccountFilter, QueryFilter, Transfer};

/// A query with its filter, or a look-up of one id.
#[derive(Clone, Copy, Debug, PartialEq, Eq)]
pub enum Asked {
    /// `get_account_transfers`.
    AccountTransfers(AccountFilter),
    /// `get_account_balances`.
    AccountBalances(AccountFilter),
    /// `query_accounts`.
    Accounts(QueryFilter),
    /// `query_transfers`.
    Transfers(QueryFilter),
    /// `lookup_accounts` of an id.
    AccountWithId(u128),
    /// `lookup_transfers` of an id.
    TransferWithId(u128),
}

/// Rows that were asked for.
#[derive(Drop)]
pub enum Found<A: Allocator> {
    /// Transfers of an account, of a filter or with an id.
    Transfers(Vec<Transfer, A>),
    /// Balances of an account.
    Balances(Vec<AccountBalance, A>),
    /// Accounts of a filter or with an id.
    Accounts(Vec<Account, A>),
}
