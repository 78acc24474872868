//! Shares of a store's book.
ghost use Rattle.std.specs.Prelude.{◌≡◌};

use crate::StoreName;
use std::marker::Model;
use std::sync::ledger;

/// How many entries were stored by whoever holds the share: 0 at first. Contracts see it as that number.
///
/// Shares can't be made or copied: those that the store gave when it was made are all there are, and together they count
/// what is stored.
#[derive(Drop)]
pub struct Share<S: StoreName> {
    pub(crate) count: u64,
    pub(crate) token: ledger::Share<S>,
}

impl<S: StoreName> Model for Share<S> {
    ghost use Rattle.std.specs.Prelude.{ℕ, ◌≡◌};

    ghost Value = { ℕ };

    ghost view = { λ s. s.count };

    ghost invariant = { λ s. (s.token.parts ≡ 1) × (s.token.amount ≡ s.count) };
}

impl<S: StoreName> Share<S> {
    /// The number. It takes no memory.
    pub fn count(&self) -> u64
        ensures { result ≡ self.now }
    {
        self.count
    }
}
