//! The events of a batch, kept for its receipt.
ghost use Rattle.std.specs.Prelude.{◌≡◌, ◌==◌};
ghost use Rattle.tf_store.specs.Events.{batch_of};
ghost use Rattle.tf_store.specs.Receipt.{count_of};

use std::alloc::Allocator;
use tf_records::{Account, Transfer};

/// The events of a batch, which are of one kind, in their order.
#[derive(Drop)]
pub enum Events<A: Allocator> {
    /// Events of `create_accounts`.
    Accounts(Vec<Account, A>),
    /// Events of `create_transfers`.
    Transfers(Vec<Transfer, A>),
}

impl<A: Allocator> Events<A> {
    /// How many they are. It takes no memory.
    pub fn len(&self) -> usize
        ensures { result ≡ count_of (batch_of self.now) }
    {
        match self {
            Events::Accounts(events) => events.len(),
            Events::Transfers(events) => events.len(),
        }
    }

    /// Whether there are none. It takes no memory.
    pub fn is_empty(&self) -> bool
        ensures { result ≡ (count_of (batch_of self.now) == 0) }
    {
        self.len() == 0
    }
}
