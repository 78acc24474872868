//! Calls of a store, each by a function of its own that knows it by what it is made of: no function that has it so compares what these
//! make up.
//!
//! They take the prover the most memory, and it proves this module first, while it holds little else.

use std::alloc::Global;
use std::sync::Wait;
use tf_manifest::Row;
use tf_query::Version;
use tf_records::Refusal;
use tf_rows::{MutableRows, SealRows};
use tf_store::{Receipt, Share, StoreName, StoredCopies, VersionCopies};
use tf_store_trials::stores;
use tf_workers::SharedStore;

/// How many tables the row of expiries refers to.
pub(crate) fn expiry_tables<T, C, S>(shared: &SharedStore<T, C, Global, S>) -> u32
where
    T: MutableRows + Drop,
    C: StoredCopies + Drop,
    S: StoreName,
{
    shared.store.tables().references(Row::Expiry)
}

/// Stores an account, and tells whether it is stored and counted.
pub(crate) fn stores_one<T, C, S>(
    shared: &mut SharedStore<T, C, Global, S>,
    share: &mut Share<S>,
) -> bool
where
    T: MutableRows + Drop,
    C: StoredCopies + Drop,
    S: StoreName,
{
    stores(&mut shared.store, share) && share.count() == 1
}

/// Publishes. Gives the receipts.
pub(crate) fn publish<T, C, S, R>(
    rt: &R,
    shared: &mut SharedStore<T, C, Global, S>,
) -> Result<Vec<Receipt<Global, S>, Global>, Refusal>
where
    T: SealRows<Global> + Drop,
    C: VersionCopies<Version<Global, S>, S> + Drop,
    S: StoreName,
    R: Wait,
{
    shared.store.publish(rt)
}

/// The book of a store, which is let go.
pub(crate) fn take_book<T, C, S>(shared: SharedStore<T, C, Global, S>) -> u64
where
    T: MutableRows + Drop,
    C: StoredCopies + Drop,
    S: StoreName,
{
    let book = shared.store.facts();
    drop(shared);
    book
}
