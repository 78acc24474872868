//! What clients and compactors do with a store.

use crate::Work;
use crate::compactors::compact;
use crate::sections::section;
use crate::shared::SharedStore;
use std::alloc::Global;
use std::sync::{Mutex, Wait};
use tf_crew::{Section, WantOfMemory};
use tf_manifest::Job;
use tf_query::Version;
use tf_rows::{MutableRows, SealRows};
use tf_store::{Share, StoreName, StoredCopies, VersionCopies};

/// What clients and compactors do, each at one call. What runs them knows a store by this alone: closures over its own type
/// are past the limit of steps of their check.
pub(crate) trait Critical<H: Drop, J: Drop> {
    /// One critical section of a client, for a piece of its work, if there is one.
    fn section(&self, work: Option<&Work>, share: H) -> Section<H, J>;

    /// Merges a job and installs what it merged. Tells whether it stands there.
    fn merge(&self, job: J) -> Result<bool, WantOfMemory>;
}

/// What a worker has beside what it is given at each call: the lock of a store, and where memory is taken.
#[derive(Drop)]
pub(crate) struct Desk<'a, T, C, S, R>
where
    T: MutableRows + Drop,
    C: StoredCopies + Drop,
    S: StoreName,
{
    pub(crate) rt: &'a R,
    /// What the store takes lies here.
    pub(crate) alloc: Global,
    /// What threads share beside it lies here.
    pub(crate) lists: Global,
    pub(crate) store: &'a Mutex<SharedStore<T, C, Global, S>>,
}

impl<T, C, S, R> Critical<Share<S>, Job<Global, S>> for Desk<'_, T, C, S, R>
where
    T: SealRows<Global> + Drop,
    C: VersionCopies<Version<Global, S>, S> + Drop,
    S: StoreName,
    R: Wait,
{
    fn section(&self, work: Option<&Work>, share: Share<S>) -> Section<Share<S>, Job<Global, S>> {
        section(self.rt, self.alloc, self.lists, self.store, work, share)
    }

    fn merge(&self, job: Job<Global, S>) -> Result<bool, WantOfMemory> {
        compact(self.rt, self.alloc, self.store, job)
    }
}
