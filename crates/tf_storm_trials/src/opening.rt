//! Empty stores, made step by step by functions that are generic in what they needn't know.
ghost use Rattle.std.specs.Prelude.{◌≡◌, ◌<◌, ◌≤◌, vec_len, IfOk};
ghost use Rattle.tf_manifest.specs.Registries.{AreShelves};
ghost use Rattle.tf_store.specs.Rooms.{FitsRows};

use std::alloc::Global;
use std::marker::{Brand, Send, Sync};
use std::sync::Wait;
use std::thread::Threads;
use tf_manifest::Registries;
use tf_mutable_rows::MutableTables;
use tf_query::Version;
use tf_readers::{Copies, Publishable, Reader};
use tf_records::Refusal;
use tf_rows::{EmptyRows, SealRows};
use tf_store::{BlankStore, Share, StoreName, StoreOf, VersionCopies, VersionOf};
use tf_worker_trials::{Meetings, Tasks, Trial, Tried, try_on};

/// Runs a trial on an empty store with registries of its own, which has a share for each client and two readers.
pub fn try_out<R: Wait + Threads + Sync>(
    rt: &R,
    alloc: Global,
    tasks: &Tasks,
    trial: Trial,
    gate: &Meetings,
) -> Tried
    requires clients { (0 < vec_len tasks.now.works) × (vec_len tasks.now.works ≤ 64) }
    requires asks { vec_len tasks.now.asks ≡ 2 }
{
    let shares = tasks.works.len() as u32;
    match Registries::new(alloc) {
        Ok(registries) => {
            let blank = BlankStore::new(shares);
            let tried = with_name::<Brand, R>(rt, alloc, &registries, blank, tasks, trial, gate);
            drop(registries);
            tried
        }
        Err(_) => Tried::Nothing,
    }
}

/// On a store of this name.
fn with_name<S, R>(
    rt: &R,
    alloc: Global,
    registries: &Registries<Global>,
    blank: BlankStore,
    tasks: &Tasks,
    trial: Trial,
    gate: &Meetings,
) -> Tried
where
    S: StoreName + Send + Sync,
    R: Wait + Threads + Sync,
    requires clients { (0 < vec_len tasks.now.works) × (vec_len tasks.now.works ≤ 64) }
    requires asks { vec_len tasks.now.asks ≡ 2 }
    requires name { blank.ledger.name ≡ S.name }
    requires parts { (blank.ledger.parts ≡ S.parts) × (S.parts ≡ vec_len tasks.now.works) }
    requires history { blank.history ≡ S.history }
    requires registries { AreShelves S.shelf registries.now }
{
    with_rows::<MutableTables<Global>, S, R>(rt, alloc, registries, blank, tasks, trial, gate)
}

/// On a store over such rows.
fn with_rows<T, S, R>(
    rt: &R,
    alloc: Global,
    registries: &Registries<Global>,
    blank: BlankStore,
    tasks: &Tasks,
    trial: Trial,
    gate: &Meetings,
) -> Tried
where
    T: EmptyRows<Global> + SealRows<Global> + Send + Drop,
    S: StoreName + Send + Sync,
    R: Wait + Threads + Sync,
    requires fits { FitsRows T.row }
    requires clients { (0 < vec_len tasks.now.works) × (vec_len tasks.now.works ≤ 64) }
    requires asks { vec_len tasks.now.asks ≡ 2 }
    requires name { blank.ledger.name ≡ S.name }
    requires parts { (blank.ledger.parts ≡ S.parts) × (S.parts ≡ vec_len tasks.now.works) }
    requires history { blank.history ≡ S.history }
    requires registries { AreShelves S.shelf registries.now }
{
    with_versions::<T, S, Version<Global, S>, R>(rt, alloc, registries, blank, tasks, trial, gate)
}

/// On a store that shows readers versions of type `V`, which is named where no store is.
fn with_versions<T, S, V, R>(
    rt: &R,
    alloc: Global,
    registries: &Registries<Global>,
    blank: BlankStore,
    tasks: &Tasks,
    trial: Trial,
    gate: &Meetings,
) -> Tried
where
    T: EmptyRows<Global> + SealRows<Global> + Send + Drop,
    S: StoreName + Send + Sync,
    V: VersionOf<Version<Global, S>> + Publishable + Send + Sync + Drop,
    R: Wait + Threads + Sync,
    requires fits { FitsRows T.row }
    requires clients { (0 < vec_len tasks.now.works) × (vec_len tasks.now.works ≤ 64) }
    requires asks { vec_len tasks.now.asks ≡ 2 }
    requires name { blank.ledger.name ≡ S.name }
    requires parts { (blank.ledger.parts ≡ S.parts) × (S.parts ≡ vec_len tasks.now.works) }
    requires history { blank.history ≡ S.history }
    requires registries { AreShelves S.shelf registries.now }
{
    let shares = tasks.works.len() as u32;
    with_copies(
        rt,
        alloc,
        StoreOf::<T, Copies<V, Global, S, &R>, Global, S>::new(
            alloc, rt, registries, blank, shares, 2,
        ),
        tasks,
        trial,
        gate,
    )
}

/// On a new store, if there was memory for it. It is generic in what readers enter.
fn with_copies<T, S, C, V, R>(
    rt: &R,
    alloc: Global,
    opened: Result<
        (
            StoreOf<T, C, Global, S>,
            Vec<Share<S>, Global>,
            Vec<Reader<V, Global, S>, Global>,
        ),
        Refusal,
    >,
    tasks: &Tasks,
    trial: Trial,
    gate: &Meetings,
) -> Tried
where
    T: SealRows<Global> + Send + Drop,
    S: StoreName + Send + Sync,
    C: VersionCopies<Version<Global, S>, S> + Send + Drop,
    V: Publishable + Send + Sync + Drop,
    R: Wait + Threads + Sync,
    requires clients { (0 < vec_len tasks.now.works) × (vec_len tasks.now.works ≤ 64) }
    requires asks { vec_len tasks.now.asks ≡ 2 }
    requires readers { IfOk opened (λ o. vec_len o.2 ≡ 2) }
    requires shares { IfOk opened (λ o. (vec_len o.1 ≡ vec_len tasks.now.works) × (vec_len o.1 ≡ S.parts)) }
{
    match opened {
        Ok((store, shares, readers)) => {
            try_on(rt, alloc, store, shares, readers, tasks, trial, gate)
        }
        Err(_) => Tried::Nothing,
    }
}
