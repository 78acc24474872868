//! The making of a store that threads share, step by step: each step says one thing more of it.
ghost use Rattle.std.specs.Prelude.{◌≡◌, ◌<◌, ◌≤◌, vec_len, IfOk, MatchResult};
ghost use Rattle.tf_manifest.specs.Registries.{AreShelves};
ghost use Rattle.tf_store.specs.Rooms.{FitsRows};
ghost use Rattle.tf_storm.specs.Storm.{StopsWorking};
ghost use Rattle.tf_totals.specs.Totals.{AreTotals};

use crate::faults::RunStormFault;
use crate::tasks::Tasks;
use std::alloc::Global;
use std::marker::{Brand, Send, Sync};
use std::sync::Wait;
use std::thread::Threads;
use tf_main::RunFault;
use tf_manifest::Registries;
use tf_mutable_rows::MutableTables;
use tf_query::Version;
use tf_readers::{Copies, Publishable, Reader};
use tf_records::Refusal;
use tf_rows::{EmptyRows, SealRows};
use tf_store::{BlankStore, Share, StoreName, StoreOf, VersionCopies, VersionOf};
use tf_totals::{Counted, totals_of};
use tf_workers::{Gate, StormFault};

/// Runs the tasks of a storm over a store with registries of its own, and tells what was counted. What is stored is what the
/// clients' shares count together.
pub(crate) fn run_tasks<R, G>(
    rt: &R,
    alloc: Global,
    tasks: &Tasks,
    gate: &G,
) -> Result<Counted, RunStormFault>
where
    R: Wait + Threads + Sync,
    G: Gate + Sync,
    requires few { (0 < vec_len tasks.now.works) × (vec_len tasks.now.works ≤ 64) }
    requires asks { vec_len tasks.now.asks ≡ 2 }
    ensures { MatchResult result (λ counted. AreTotals (vec_len tasks.now.works) counted.0) StopsWorking }
{
    let shares = tasks.works.len() as u32;
    match Registries::new(alloc) {
        Ok(registries) => with_name::<Brand, R, G>(
            rt,
            alloc,
            &registries,
            BlankStore::new(shares),
            tasks,
            gate,
        ),
        Err(_) => Err(RunStormFault::Run(RunFault::NoMemory)),
    }
}

/// Runs tasks over a store of this name.
fn with_name<S, R, G>(
    rt: &R,
    alloc: Global,
    registries: &Registries<Global>,
    blank: BlankStore,
    tasks: &Tasks,
    gate: &G,
) -> Result<Counted, RunStormFault>
where
    S: StoreName + Send + Sync,
    R: Wait + Threads + Sync,
    G: Gate + Sync,
    requires few { (0 < vec_len tasks.now.works) × (vec_len tasks.now.works ≤ 64) }
    requires asks { vec_len tasks.now.asks ≡ 2 }
    requires name { blank.ledger.name ≡ S.name }
    requires parts { (blank.ledger.parts ≡ S.parts) × (S.parts ≡ vec_len tasks.now.works) }
    requires history { blank.history ≡ S.history }
    requires registries { AreShelves S.shelf registries.now }
    ensures { MatchResult result (λ counted. AreTotals (vec_len tasks.now.works) counted.0) StopsWorking }
{
    with_rows::<MutableTables<Global>, S, R, G>(rt, alloc, registries, blank, tasks, gate)
}

/// Runs tasks over a store with mutable tables of type `T`.
fn with_rows<T, S, R, G>(
    rt: &R,
    alloc: Global,
    registries: &Registries<Global>,
    blank: BlankStore,
    tasks: &Tasks,
    gate: &G,
) -> Result<Counted, RunStormFault>
where
    T: EmptyRows<Global> + SealRows<Global> + Send + Drop,
    S: StoreName + Send + Sync,
    R: Wait + Threads + Sync,
    G: Gate + Sync,
    requires fits { FitsRows T.row }
    requires few { (0 < vec_len tasks.now.works) × (vec_len tasks.now.works ≤ 64) }
    requires asks { vec_len tasks.now.asks ≡ 2 }
    requires name { blank.ledger.name ≡ S.name }
    requires parts { (blank.ledger.parts ≡ S.parts) × (S.parts ≡ vec_len tasks.now.works) }
    requires history { blank.history ≡ S.history }
    requires registries { AreShelves S.shelf registries.now }
    ensures { MatchResult result (λ counted. AreTotals (vec_len tasks.now.works) counted.0) StopsWorking }
{
    with_versions::<T, S, Version<Global, S>, R, G>(rt, alloc, registries, blank, tasks, gate)
}

/// Makes a store with a share for each client and two readers, and runs tasks over it. It is generic in the version that readers are
/// shown, which is named where no store is.
fn with_versions<T, S, V, R, G>(
    rt: &R,
    alloc: Global,
    registries: &Registries<Global>,
    blank: BlankStore,
    tasks: &Tasks,
    gate: &G,
) -> Result<Counted, RunStormFault>
where
    T: EmptyRows<Global> + SealRows<Global> + Send + Drop,
    S: StoreName + Send + Sync,
    V: VersionOf<Version<Global, S>> + Publishable + Send + Sync + Drop,
    R: Wait + Threads + Sync,
    G: Gate + Sync,
    requires fits { FitsRows T.row }
    requires few { (0 < vec_len tasks.now.works) × (vec_len tasks.now.works ≤ 64) }
    requires asks { vec_len tasks.now.asks ≡ 2 }
    requires name { blank.ledger.name ≡ S.name }
    requires parts { (blank.ledger.parts ≡ S.parts) × (S.parts ≡ vec_len tasks.now.works) }
    requires history { blank.history ≡ S.history }
    requires registries { AreShelves S.shelf registries.now }
    ensures { MatchResult result (λ counted. AreTotals (vec_len tasks.now.works) counted.0) StopsWorking }
{
    let shares = tasks.works.len() as u32;
    storm_opened(
        rt,
        alloc,
        StoreOf::<T, Copies<V, Global, S, &R>, Global, S>::new(
            alloc, rt, registries, blank, shares, 2,
        ),
        tasks,
        gate,
    )
}

/// Runs tasks over a new store, if there was memory for it. It is generic in what readers enter.
fn storm_opened<T, S, C, V, R, G>(
    rt: &R,
    alloc: Global,
    opened: Result<
        (
            StoreOf<T, C, Global, S>,
            Vec<Share<S>, Global>,
            Vec<Reader<V, Global, S>, Global>,
        ),
        Refusal,
    >,
    tasks: &Tasks,
    gate: &G,
) -> Result<Counted, RunStormFault>
where
    T: SealRows<Global> + Send + Drop,
    S: StoreName + Send + Sync,
    C: VersionCopies<Version<Global, S>, S> + Send + Drop,
    V: Publishable + Send + Sync + Drop,
    R: Wait + Threads + Sync,
    G: Gate + Sync,
    requires few { (0 < vec_len tasks.now.works) × (vec_len tasks.now.works ≤ 64) }
    requires asks { vec_len tasks.now.asks ≡ 2 }
    requires readers { IfOk opened (λ o. vec_len o.2 ≡ 2) }
    requires shares { IfOk opened (λ o. (vec_len o.1 ≡ vec_len tasks.now.works) × (vec_len o.1 ≡ S.parts)) }
    ensures { MatchResult result (λ counted. AreTotals (vec_len tasks.now.works) counted.0) StopsWorking }
{
    match opened {
        Ok((store, shares, readers)) => storm_over(rt, alloc, store, shares, readers, tasks, gate),
        Err(_) => Err(RunStormFault::Run(RunFault::NoMemory)),
    }
}

/// Runs tasks over a new store.
fn storm_over<T, S, C, V, R, G>(
    rt: &R,
    alloc: Global,
    store: StoreOf<T, C, Global, S>,
    shares: Vec<Share<S>, Global>,
    readers: Vec<Reader<V, Global, S>, Global>,
    tasks: &Tasks,
    gate: &G,
) -> Result<Counted, RunStormFault>
where
    T: SealRows<Global> + Send + Drop,
    S: StoreName + Send + Sync,
    C: VersionCopies<Version<Global, S>, S> + Send + Drop,
    V: Publishable + Send + Sync + Drop,
    R: Wait + Threads + Sync,
    G: Gate + Sync,
    requires few { (0 < vec_len tasks.now.works) × (vec_len tasks.now.works ≤ 64) }
    requires asks { vec_len tasks.now.asks ≡ 2 }
    requires readers { vec_len readers ≤ 2 }
    requires shares { (vec_len shares ≡ vec_len tasks.now.works) × (vec_len shares ≡ S.parts) }
    ensures { MatchResult result (λ counted. AreTotals (vec_len tasks.now.works) counted.0) StopsWorking }
{
    let works = tasks.works.as_slice();
    let asks = tasks.asks.as_slice();
    match totals_of(rt, alloc, store, shares, readers, works, asks, gate) {
        Ok(counted) => Ok(counted),
        Err(StormFault::NoMemory) => Err(RunStormFault::Run(RunFault::NoMemory)),
        Err(StormFault::NoThread) => Err(RunStormFault::NoThread),
    }
}
