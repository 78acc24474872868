//! The store that threads share.
ghost use Rattle.std.specs.Prelude.{◌≡◌};

use std::alloc::Allocator;
use tf_rows::MutableRows;
use tf_store::{StoreName, StoreOf, StoredCopies};

/// A store as it lies in a lock. Its type names the parts of a store alone, so that no check compares what they make up.
#[derive(Drop)]
pub struct SharedStore<T, C, A, S>
where
    T: MutableRows + Drop,
    C: StoredCopies + Drop,
    A: Allocator + Copy,
    S: StoreName,
{
    /// The store.
    pub store: StoreOf<T, C, A, S>,
}

impl<T, C, A, S> SharedStore<T, C, A, S>
where
    T: MutableRows + Drop,
    C: StoredCopies + Drop,
    A: Allocator + Copy,
    S: StoreName,
{
    /// A store, to lie in a lock.
    pub fn new(store: StoreOf<T, C, A, S>) -> SharedStore<T, C, A, S>
        ensures { result.store ≡ store }
    {
        SharedStore { store }
    }

    /// The store, once it is out of the lock.
    pub fn into_store(self) -> StoreOf<T, C, A, S>
        ensures { result ≡ self.store }
    {
        self.store
    }
}
