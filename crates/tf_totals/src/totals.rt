//! What a storm counts.
ghost use Rattle.std.specs.Prelude.{◌≡◌, ◌<◌, ◌≤◌, length, vec_len, IfOk};
ghost use Rattle.std.specs.Result.{is_ok};
ghost use Rattle.tf_store.specs.Book.{book_of};
ghost use Rattle.tf_totals.specs.Totals.{AreTotals, IsBook};

use std::alloc::Global;
use std::marker::{Send, Sync};
use std::sync::Wait;
use std::thread::Threads;
use tf_query::Version;
use tf_readers::{Publishable, Reader};
use tf_rows::SealRows;
use tf_store::{Share, StoreName, StoreOf, VersionCopies};
use tf_workers::{Ask, Done, Gate, SharedStore, StormFault, Totals, Work, storm_shared};

/// What a storm counted, and what each of its workers did.
pub type Counted = (Totals, Vec<Done, Global>);

/// Runs a storm over a store, as `tf_workers::storm` does, and ends the store. What is stored is what the clients' shares count
/// together.
///
/// `NoMemory` where no client was started, and `NoThread` where a thread couldn't be made: all that were started are joined then. It
/// may wait.
pub fn totals_of<T, S, C, V, R, G>(
    rt: &R,
    alloc: Global,
    store: StoreOf<T, C, Global, S>,
    shares: Vec<Share<S>, Global>,
    readers: Vec<Reader<V, Global, S>, Global>,
    scripts: &[Vec<Work>],
    asks: &[Vec<Ask>],
    gate: &G,
) -> Result<Counted, StormFault>
where
    T: SealRows<Global> + Send + Drop,
    S: StoreName + Send + Sync,
    C: VersionCopies<Version<Global, S>, S> + Send + Drop,
    V: Publishable + Send + Sync + Drop,
    R: Wait + Threads + Sync,
    G: Gate + Sync,
    requires some { (0 < length scripts.now) × (length scripts.now ≤ 64) }
    requires asks { (length asks.now ≤ 64) × (vec_len readers ≤ length asks.now) }
    requires shares { (vec_len shares ≡ length scripts.now) × (vec_len shares ≡ S.parts) }
    ensures { IfOk result (λ counted. AreTotals (length scripts.now) counted.0) }
{
    let shared = SharedStore::new(store);
    told(storm_shared(
        rt, alloc, alloc, shared, shares, readers, scripts, asks, gate,
    ))
}

/// What was counted, once the store is dropped.
fn told<T, C, S>(
    ended: Result<(SharedStore<T, C, Global, S>, Totals, Vec<Done, Global>), StormFault>,
) -> Result<Counted, StormFault>
where
    T: SealRows<Global> + Drop,
    C: VersionCopies<Version<Global, S>, S> + Drop,
    S: StoreName,
    requires stored { IfOk ended (λ e. e.1.stored ≡ book_of e.0.store.forest.journal) }
    ensures same { is_ok result ≡ is_ok ended }
    ensures totals { IfOk result (λ counted. IfOk ended (λ e. (counted.0 ≡ e.1) × IsBook e.1.stored)) }
{
    match ended {
        Ok((shared, totals, done)) => {
            let totals = settled(&shared, totals);
            close(shared);
            Ok((totals, done))
        }
        Err(fault) => Err(fault),
    }
}

/// The totals of a storm, whose store has a lawful journal.
fn settled<T, C, S>(shared: &SharedStore<T, C, Global, S>, totals: Totals) -> Totals
where
    T: SealRows<Global> + Drop,
    C: VersionCopies<Version<Global, S>, S> + Drop,
    S: StoreName,
    requires { totals.stored ≡ book_of shared.now.store.forest.journal }
    ensures same { result ≡ totals }
    ensures book { IsBook result.stored }
{
    shared.store.facts();
    totals
}

/// Uses a store up. It is a function of its own: no other here compares what the store's parts make up.
fn close<T, C, S>(shared: SharedStore<T, C, Global, S>)
where
    T: SealRows<Global> + Drop,
    C: VersionCopies<Version<Global, S>, S> + Drop,
    S: StoreName,
{
    shared.into_store().close();
}
