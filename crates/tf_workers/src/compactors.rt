//! Compactors.
ghost use Rattle.std.specs.Prelude.{◌≡◌, ◌+◌, ◌≤◌, length, false, true, IfSome, MatchResult, Ok, OnOk};
ghost use Rattle.tf_registry.specs.Install.{IfNoMemory, OnFull, OnStale};

use crate::desk::{Critical, Desk};
use crate::shared::SharedStore;
use std::alloc::{Allocator, Global};
use std::sync::{Mutex, Wait};
use tf_crew::{Compacted, Gate, WantOfMemory, compactor_by};
use tf_jobs::{JobQueue, JobSeat};
use tf_manifest::{Job, Merged};
use tf_query::Version;
use tf_records::Refusal;
use tf_registry::Uninstalled;
use tf_rows::{MutableRows, SealRows};
use tf_store::{Share, StoreName, StoredCopies, VersionCopies};

/// Whether a merged table stands in the place of its run.
fn was_installed<M: Drop>(outcome: Result<(), Uninstalled<M>>) -> Result<bool, WantOfMemory>
    ensures { MatchResult outcome (λ nothing. result ≡ Ok true) (λ refused. OnStale refused (result ≡ Ok false) × OnFull refused (result ≡ Ok false) × IfNoMemory refused (λ merged. OnOk result ⊥)) }
{
    match outcome {
        Ok(()) => Ok(true),
        Err(Uninstalled::NoMemory(_)) => Err(WantOfMemory),
        Err(_) => Ok(false),
    }
}

/// Puts a merged table in the place of its run, and tells whether it stands there.
fn install<T, C, A, S, R>(
    rt: &R,
    shared: &mut SharedStore<T, C, A, S>,
    merged: Merged<A, S>,
) -> Result<bool, WantOfMemory>
where
    T: MutableRows + Drop,
    C: StoredCopies + Drop,
    A: Allocator + Copy,
    S: StoreName,
    R: Wait,
{
    was_installed(shared.store.install(rt, merged))
}

/// Puts a merged table in the place of its run under the lock.
fn install_locked<T, C, A, S, R>(
    rt: &R,
    store: &Mutex<SharedStore<T, C, A, S>>,
    merged: Merged<A, S>,
) -> Result<bool, WantOfMemory>
where
    T: MutableRows + Drop,
    C: StoredCopies + Drop,
    A: Allocator + Copy,
    S: StoreName,
    R: Wait,
{
    install(rt, &mut store.lock(rt), merged)
}

/// Merges a job, and installs what it merged.
fn merge<T, C, A, S, R>(
    rt: &R,
    alloc: A,
    store: &Mutex<SharedStore<T, C, A, S>>,
    job: &Job<A, S>,
) -> Result<bool, WantOfMemory>
where
    T: MutableRows + Drop,
    C: StoredCopies + Drop,
    A: Allocator + Copy,
    S: StoreName,
    R: Wait,
{
    match job.merge(alloc) {
        Ok(merged) => install_locked(rt, store, merged),
        Err(_) => Err(WantOfMemory),
    }
}

/// Merges a job outside the lock, and installs what it merged under it. Tells whether it stands there: a table whose run is gone is
/// dropped, as is one that the registry has no place for.
pub(crate) fn compact<T, C, A, S, R>(
    rt: &R,
    alloc: A,
    store: &Mutex<SharedStore<T, C, A, S>>,
    job: Job<A, S>,
) -> Result<bool, WantOfMemory>
where
    T: MutableRows + Drop,
    C: StoredCopies + Drop,
    A: Allocator + Copy,
    S: StoreName,
    R: Wait,
{
    let done = merge(rt, alloc, store, &job);
    drop(job);
    done
}

/// Takes jobs from the queue, and merges and installs each. How is given.
fn compactor_at<H, J, D, R, G>(
    rt: &R,
    desk: &D,
    queue: &JobQueue<J>,
    seat: JobSeat<J>,
    worker: u32,
    gate: &G,
) -> Compacted<J>
where
    H: Drop,
    J: Drop,
    D: Critical<H, J>,
    R: Wait,
    G: Gate,
    requires { seat.queue ≡ queue.now.number }
    ensures seat { (result.seat.queue ≡ seat.queue) × (result.seat.seats ≡ seat.seats) × (result.seat.offered ≡ seat.offered) }
    ensures installed { result.installed + length seat.taken ≤ length result.seat.taken }
    ensures fault { IfSome result.fault (λ fault. fault ≡ Refusal.NoMemory) }
{
    let merge = |job: J| desk.merge(job);
    compactor_by(rt, &merge, queue, seat, worker, gate)
}

/// Takes jobs from the queue, merges each outside the lock and installs what it merged under it, until it read that the queue is
/// closed and then took nothing.
///
/// A merged table whose run is gone is dropped, as is one that the registry has no place for: neither counts as installed. It ends
/// early only for want of memory, and gives its seat back at every end. It may wait for the lock, in pushes and for jobs.
pub fn compactor<'a, T, C, S, R, G>(
    rt: &'a R,
    alloc: Global,
    store: &'a Mutex<SharedStore<T, C, Global, S>>,
    queue: &JobQueue<Job<Global, S>>,
    seat: JobSeat<Job<Global, S>>,
    worker: u32,
    gate: &G,
) -> Compacted<Job<Global, S>>
where
    T: SealRows<Global> + Drop,
    C: VersionCopies<Version<Global, S>, S> + Drop,
    S: StoreName,
    R: Wait,
    G: Gate,
    requires { seat.queue ≡ queue.now.number }
    ensures seat { (result.seat.queue ≡ seat.queue) × (result.seat.seats ≡ seat.seats) × (result.seat.offered ≡ seat.offered) }
    ensures installed { result.installed + length seat.taken ≤ length result.seat.taken }
    ensures fault { IfSome result.fault (λ fault. fault ≡ Refusal.NoMemory) }
{
    let desk = Desk {
        rt,
        alloc,
        lists: alloc,
        store,
    };
    compactor_at::<Share<S>, Job<Global, S>, _, R, G>(rt, &desk, queue, seat, worker, gate)
}
