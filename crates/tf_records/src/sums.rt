//! The four running sums of an account.

/// The sums of an account's amounts, each in the ledger's unit and at most `2^128 - 1`.
///
/// Restates the balance fields of the reference page Account.
#[derive(Clone, Copy, Debug, PartialEq, Eq)]
pub struct Sums {
    /// What open pending transfers debit.
    pub debits_pending: u128,
    /// What posted transfers debit.
    pub debits_posted: u128,
    /// What open pending transfers credit.
    pub credits_pending: u128,
    /// What posted transfers credit.
    pub credits_posted: u128,
}
