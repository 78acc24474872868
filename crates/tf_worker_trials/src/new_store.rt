//! Trials on a new store, which is ended. They are generic in all that a store is made of.
ghost use Rattle.std.specs.Prelude.{◌≡◌, ◌<◌, ◌≤◌, vec_len};

use crate::calls::take_book;
use crate::lock::publish_beside;
use crate::receipts::learn;
use crate::trials::{Trial, Tried};
use crate::turns::take_turns;
use std::alloc::Global;
use std::marker::{Send, Sync};
use std::sync::Wait;
use std::thread::Threads;
use tf_query::Version;
use tf_readers::{Publishable, Reader};
use tf_rows::SealRows;
use tf_store::{Share, StoreName, StoreOf, VersionCopies};
use tf_task_trials::{Meetings, Tasks, WatchedReader, watched};
use tf_workers::{Done, SharedStore, Totals, storm_shared};

/// Runs a trial on a new store with a share for each client and two readers.
pub fn try_on<T, S, C, V, R>(
    rt: &R,
    alloc: Global,
    store: StoreOf<T, C, Global, S>,
    shares: Vec<Share<S>, Global>,
    readers: Vec<Reader<V, Global, S>, Global>,
    tasks: &Tasks,
    trial: Trial,
    gate: &Meetings,
) -> Tried
where
    T: SealRows<Global> + Send + Drop,
    S: StoreName + Send + Sync,
    C: VersionCopies<Version<Global, S>, S> + Send + Drop,
    V: Publishable + Send + Sync + Drop,
    R: Wait + Threads + Sync,
    requires clients { (0 < vec_len tasks.now.works) × (vec_len tasks.now.works ≤ 64) }
    requires asks { vec_len tasks.now.asks ≡ 2 }
    requires readers { vec_len readers ≤ 2 }
    requires shares { (vec_len shares ≡ vec_len tasks.now.works) × (vec_len shares ≡ S.parts) }
{
    let shared = SharedStore::new(store);
    match watched(alloc, readers, tasks.answers) {
        Ok(readers) => try_watched(rt, alloc, shared, shares, readers, tasks, trial, gate),
        Err(_) => {
            take_book(shared);
            Tried::Nothing
        }
    }
}

/// On a new store whose readers are watched.
fn try_watched<T, S, C, V, R>(
    rt: &R,
    alloc: Global,
    shared: SharedStore<T, C, Global, S>,
    shares: Vec<Share<S>, Global>,
    readers: Vec<WatchedReader<V, S>, Global>,
    tasks: &Tasks,
    trial: Trial,
    gate: &Meetings,
) -> Tried
where
    T: SealRows<Global> + Send + Drop,
    S: StoreName + Send + Sync,
    C: VersionCopies<Version<Global, S>, S> + Send + Drop,
    V: Publishable + Send + Sync + Drop,
    R: Wait + Threads + Sync,
    requires clients { (0 < vec_len tasks.now.works) × (vec_len tasks.now.works ≤ 64) }
    requires asks { vec_len tasks.now.asks ≡ 2 }
    requires readers { vec_len readers ≤ 2 }
    requires shares { (vec_len shares ≡ vec_len tasks.now.works) × (vec_len shares ≡ S.parts) }
{
    match trial {
        Trial::Storm => {
            let works = tasks.works.as_slice();
            let asks = tasks.asks.as_slice();
            told(storm_shared(rt, alloc, alloc, shared, shares, readers, works, asks, gate))
        }
        _ => try_alone(rt, alloc, shared, shares, readers, tasks, trial),
    }
}

/// Whether each worker of a storm with two query workers told what it did, and clients stored what was counted.
fn are_counted(done: &Vec<Done, Global>, totals: Totals) -> bool {
    let mut stored_by_clients = 0u64;
    for what in done {
        if let Done::Client { stored, .. } = what {
            stored_by_clients = stored_by_clients.saturating_add(*stored);
        }
    }
    done.len() as u64 == totals.clients.saturating_add(4) && stored_by_clients == totals.stored
}

/// What was counted, once the store is dropped.
fn told<X: Drop, E: Drop>(ended: Result<(X, Totals, Vec<Done, Global>), E>) -> Tried {
    match ended {
        Ok((store, totals, done)) => {
            drop(store);
            if are_counted(&done, totals) {
                Tried::Storm(totals)
            } else {
                Tried::Nothing
            }
        }
        Err(_) => Tried::Nothing,
    }
}

/// On a store with the last share and the last reader.
fn try_alone<T, S, C, V, R>(
    rt: &R,
    alloc: Global,
    shared: SharedStore<T, C, Global, S>,
    shares: Vec<Share<S>, Global>,
    readers: Vec<WatchedReader<V, S>, Global>,
    tasks: &Tasks,
    trial: Trial,
) -> Tried
where
    T: SealRows<Global> + Send + Drop,
    S: StoreName + Send + Sync,
    C: VersionCopies<Version<Global, S>, S> + Send + Drop,
    V: Publishable + Drop,
    R: Wait + Threads + Sync,
    requires clients { 0 < vec_len tasks.now.works }
    requires asks { vec_len tasks.now.asks ≡ 2 }
{
    let mut shares = shares;
    let mut readers = readers;
    let (Some(share), Some(reader)) = (shares.pop(), readers.pop()) else {
        take_book(shared);
        return Tried::Nothing;
    };
    match trial {
        Trial::Receipt => Tried::Seen(learn(rt, alloc, shared, share, reader.reader)),
        Trial::Lock => Tried::Seen(publish_beside(rt, alloc, shared, share, reader.reader)),
        _ => {
            let work = tasks.works[0].as_slice();
            let asks = tasks.asks[0].as_slice();
            match take_turns(rt, alloc, shared, share, reader, work, asks) {
                Some(turns) => Tried::Turns(turns),
                None => Tried::Nothing,
            }
        }
    }
}
