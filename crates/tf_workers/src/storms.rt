//! Storms: a store under a lock, with all its workers.
ghost use Rattle.std.specs.Prelude.{◌≡◌, ◌<◌, ◌≤◌, length, vec_len, IfOk};
ghost use Rattle.tf_store.specs.Book.{book_of};

use crate::Work;
use crate::books::settle;
use crate::by_lock::run_all;
use crate::shared::SharedStore;
use std::alloc::Global;
use std::marker::{Send, Sync};
use std::sync::{Mutex, Wait};
use std::thread::Threads;
use tf_asking::{Ask, VersionReader};
use tf_crew::{Done, Gate, StormFault};
use tf_query::Version;
use tf_rows::SealRows;
use tf_store::{Share, StoreName, StoreOf, VersionCopies};

/// What a storm counted.
#[derive(Clone, Copy, PartialEq, Eq, Debug)]
pub struct Totals {
    /// How many clients there were.
    pub clients: u64,
    /// How many entries are stored.
    pub stored: u64,
    /// The sum of all clients' shares.
    pub shares: u64,
    /// Whether no worker ended early for want of memory.
    pub complete: bool,
}

/// Runs a storm as [`storm`] does, over a store that threads share: whoever calls it compares no more than the store's parts.
pub fn storm_shared<T, C, S, Q, R, G>(
    rt: &R,
    lists: Global,
    alloc: Global,
    shared: SharedStore<T, C, Global, S>,
    shares: Vec<Share<S>, Global>,
    readers: Vec<Q, Global>,
    scripts: &[Vec<Work>],
    asks: &[Vec<Ask>],
    gate: &G,
) -> Result<(SharedStore<T, C, Global, S>, Totals, Vec<Done, Global>), StormFault>
where
    T: SealRows<Global> + Send + Drop,
    C: VersionCopies<Version<Global, S>, S> + Send + Drop,
    S: StoreName + Send + Sync,
    Q: VersionReader + Send + Drop,
    R: Wait + Threads + Sync,
    G: Gate + Sync,
    requires some { (0 < length scripts.now) × (length scripts.now ≤ 64) }
    requires asks { (length asks.now ≤ 64) × (vec_len readers ≤ length asks.now) }
    requires shares { (vec_len shares ≡ length scripts.now) × (vec_len shares ≡ S.parts) }
    ensures clients { IfOk result (λ r. r.1.clients ≡ length scripts.now) }
    ensures stored { IfOk result (λ r. r.1.stored ≡ book_of r.0.store.forest.journal) }
    ensures shares { IfOk result (λ r. r.1.shares ≡ r.1.stored) }
{
    let lock = Mutex::new(shared);
    let joined = run_all(
        rt, lists, alloc, &lock, shares, readers, scripts, asks, gate,
    );
    settle(lock.into_inner(), scripts.len() as u64, joined)
}

/// Runs a client for each script over a store, with a query worker for each reader and two compactors beside them, each in a thread
/// of its own, and joins them all: the clients first, then, once the queue is closed, the compactors, and the query workers.
///
/// Query worker `i` asks `asks[i]`. Clients are workers 0 to `n - 1`, query workers the next ones, as many as there are
/// lists of what to ask, and compactors the last two. Gives the store back, what was counted, and what each worker did:
/// clients, compactors and query workers, each kind by rising number. The shares of all clients, those that ended early
/// too, are together what is stored. `shares` have to be all that the store gave. Lists of what threads share lie in
/// `lists`, what the store takes in `alloc`.
///
/// `NoMemory` where no client was started, and `NoThread` where a thread couldn't be made: all that were started are joined
/// then, and the store is dropped. It may wait.
pub fn storm<T, C, S, Q, R, G>(
    rt: &R,
    lists: Global,
    alloc: Global,
    store: StoreOf<T, C, Global, S>,
    shares: Vec<Share<S>, Global>,
    readers: Vec<Q, Global>,
    scripts: &[Vec<Work>],
    asks: &[Vec<Ask>],
    gate: &G,
) -> Result<(StoreOf<T, C, Global, S>, Totals, Vec<Done, Global>), StormFault>
where
    T: SealRows<Global> + Send + Drop,
    C: VersionCopies<Version<Global, S>, S> + Send + Drop,
    S: StoreName + Send + Sync,
    Q: VersionReader + Send + Drop,
    R: Wait + Threads + Sync,
    G: Gate + Sync,
    requires some { (0 < length scripts.now) × (length scripts.now ≤ 64) }
    requires asks { (length asks.now ≤ 64) × (vec_len readers ≤ length asks.now) }
    requires shares { (vec_len shares ≡ length scripts.now) × (vec_len shares ≡ S.parts) }
    ensures clients { IfOk result (λ r. r.1.clients ≡ length scripts.now) }
    ensures stored { IfOk result (λ r. r.1.stored ≡ book_of r.0.forest.journal) }
    ensures shares { IfOk result (λ r. r.1.shares ≡ r.1.stored) }
{
    let shared = SharedStore::new(store);
    match storm_shared(
        rt, lists, alloc, shared, shares, readers, scripts, asks, gate,
    ) {
        Ok((shared, totals, done)) => Ok((shared.into_store(), totals, done)),
        Err(fault) => Err(fault),
    }
}
