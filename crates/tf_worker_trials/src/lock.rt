//! One thread that locks a store and publishes.

use crate::calls::{publish, stores_one, take_book};
use std::alloc::Global;
use std::marker::{Send, Sync};
use std::sync::{Mutex, Wait};
use std::thread;
use std::thread::Threads;
use tf_query::Version;
use tf_readers::{Publishable, Reader};
use tf_records::Refusal;
use tf_rows::SealRows;
use tf_store::{Share, StoreName, StoredCopies, VersionCopies};
use tf_store_trials::sees;
use tf_workers::SharedStore;

/// What a thread does with a store. It knows the store by this alone.
trait Publishes {
    /// Locks it and publishes. Tells how many receipts there are, unless that was refused.
    fn publish(&self) -> Option<usize>;
}

/// The lock of a store.
#[derive(Drop)]
struct Lent<'a, T, C, S, R>
where
    T: SealRows<Global> + Drop,
    C: StoredCopies + Drop,
    S: StoreName,
{
    rt: &'a R,
    store: &'a Mutex<SharedStore<T, C, Global, S>>,
}

impl<T, C, S, R> Publishes for Lent<'_, T, C, S, R>
where
    T: SealRows<Global> + Drop,
    C: VersionCopies<Version<Global, S>, S> + Drop,
    S: StoreName,
    R: Wait,
{
    fn publish(&self) -> Option<usize> {
        count(publish(self.rt, &mut self.store.lock(self.rt)))
    }
}

/// How many receipts there are.
fn count<X: Drop>(receipts: Result<Vec<X, Global>, Refusal>) -> Option<usize> {
    match receipts {
        Ok(receipts) => Some(receipts.len()),
        Err(_) => None,
    }
}

/// Publishes in a thread, and tells how many receipts there are, unless that or the thread was refused.
fn publish_in_thread<P: Publishes + Sync, R: Wait + Threads + Sync>(
    rt: &R,
    lent: &P,
) -> Option<usize> {
    thread::scope(thread::scope_env(), rt, move |scope| -> Option<usize> {
        let Ok(thread) = scope.spawn(move || lent.publish()) else {
            return None;
        };
        thread.join(rt)
    })
}

/// Whether an account that is stored here is seen by a reader once a thread has locked the store and published. Ends the store.
pub(crate) fn publish_beside<T, C, V, S, R>(
    rt: &R,
    alloc: Global,
    shared: SharedStore<T, C, Global, S>,
    share: Share<S>,
    reader: Reader<V, Global, S>,
) -> bool
where
    T: SealRows<Global> + Send + Drop,
    C: VersionCopies<Version<Global, S>, S> + Send + Drop,
    V: Publishable + Drop,
    S: StoreName + Send + Sync,
    R: Wait + Threads + Sync,
{
    let (mut shared, mut share, mut reader) = (shared, share, reader);
    let is_stored = stores_one(&mut shared, &mut share);
    let lock = Mutex::new(shared);
    let receipts = publish_in_thread(rt, &Lent { rt, store: &lock });
    let is_seen = sees(alloc, &mut reader) == Some(true);
    take_book(lock.into_inner()) == 1 && is_stored && receipts == Some(1) && is_seen
}
