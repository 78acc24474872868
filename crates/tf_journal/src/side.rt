//! The two sides of an account.

/// A side of an account or of a transfer.
#[derive(Clone, Copy, Debug, PartialEq, Eq)]
pub enum Side {
    /// Debits.
    Debit,
    /// Credits.
    Credit,
}
