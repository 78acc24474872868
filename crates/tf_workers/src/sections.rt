//! A client's critical section: what it does with a store while it has the lock.
ghost use Rattle.std.specs.Prelude.{◌≡◌, Err, IfErr, OnErr, OnOk};

use crate::Work;
use crate::shared::SharedStore;
use std::alloc::{AllocError, Allocator, Global};
use std::sync::{Mutex, Wait};
use tf_crew::{Section, WantOfMemory};
use tf_forest::Forest;
use tf_manifest::{Job, Row};
use tf_query::Version;
use tf_records::{BATCH_MAX, Refusal};
use tf_rows::{AllRows, MutableRows, SealRows};
use tf_store::{Events, Share, Store, StoreName, StoredCopies, VersionCopies};

/// What a client does under the lock, with a copy of the events that was made before.
#[derive(Drop)]
pub(crate) enum Step<A: Allocator> {
    Batch(Events<A>, u64),
    Pulse(u64, u32),
    Nothing,
}

/// Passes over each refusal but `NoMemory`: it left the store as it was, and the client goes on.
fn pass_over<X: Drop>(outcome: Result<X, Refusal>) -> Result<(), WantOfMemory>
    ensures only { OnErr result (outcome ≡ Err Refusal.NoMemory) }
    ensures always { IfErr outcome (λ refusal. refusal ≡ Refusal.NoMemory → OnOk result ⊥) }
{
    match outcome {
        Err(Refusal::NoMemory) => Err(WantOfMemory),
        _ => Ok(()),
    }
}

/// What a piece of work does under the lock. A batch of more than `BATCH_MAX` events, which a store refuses, does nothing.
fn step_of<A: Allocator>(alloc: A, work: &Work) -> Result<Step<A>, AllocError> {
    match work {
        Work::Accounts(events, now) => {
            if events.len() > BATCH_MAX as usize {
                return Ok(Step::Nothing);
            }
            Ok(Step::Batch(Events::Accounts(events.as_slice().to_vec(alloc)?), *now))
        }
        Work::Transfers(events, now) => {
            if events.len() > BATCH_MAX as usize {
                return Ok(Step::Nothing);
            }
            Ok(Step::Batch(Events::Transfers(events.as_slice().to_vec(alloc)?), *now))
        }
        Work::Pulse(now, max) => Ok(Step::Pulse(*now, *max)),
        Work::Publish => Ok(Step::Nothing),
    }
}

/// Stores what a step stores.
fn run_step<F, C, A, S>(
    store: &mut Store<Forest<F, A>, C, A, S>,
    step: Step<A>,
    share: &mut Share<S>,
) -> Result<(), WantOfMemory>
where
    F: AllRows + Drop,
    C: StoredCopies + Drop,
    A: Allocator + Copy,
    S: StoreName,
{
    match step {
        Step::Batch(events, now) => pass_over(store.create(events, now, share)),
        Step::Pulse(now, max) => pass_over(store.pulse(now, max, share)),
        Step::Nothing => Ok(()),
    }
}

/// The same at a store that threads share, whose type names its parts alone.
fn run_step_at<T, C, A, S>(
    shared: &mut SharedStore<T, C, A, S>,
    step: Step<A>,
    share: &mut Share<S>,
) -> Result<(), WantOfMemory>
where
    T: MutableRows + Drop,
    C: StoredCopies + Drop,
    A: Allocator + Copy,
    S: StoreName,
{
    run_step(&mut shared.store, step, share)
}

/// Publishes. A full registry is passed over.
fn publish<T, C, A, S, R>(rt: &R, shared: &mut SharedStore<T, C, A, S>) -> Result<(), WantOfMemory>
where
    T: SealRows<A> + Drop,
    C: VersionCopies<Version<A, S>, S> + Drop,
    A: Allocator + Copy,
    S: StoreName,
    R: Wait,
{
    pass_over(shared.store.publish(rt))
}

/// Picks the run of each row that has one.
fn pick_all<T, C, A, S>(
    shared: &SharedStore<T, C, A, S>,
    jobs: &mut Vec<Job<A, S>, Global>,
) -> Result<(), AllocError>
where
    T: MutableRows + Drop,
    C: StoredCopies + Drop,
    A: Allocator + Copy,
    S: StoreName,
{
    for row in Row::ALL {
        keep(shared.store.pick(row)?, jobs)?;
    }
    Ok(())
}

/// Keeps a job, if there is one.
fn keep<J: Drop>(found: Option<J>, jobs: &mut Vec<J, Global>) -> Result<(), AllocError> {
    match found {
        Some(job) => match jobs.push(job) {
            Ok(()) => Ok(()),
            Err(_) => Err(AllocError),
        },
        None => Ok(()),
    }
}

/// Does a step, publishes, and picks.
fn run_locked<T, C, A, S, R>(
    rt: &R,
    shared: &mut SharedStore<T, C, A, S>,
    step: Step<A>,
    share: &mut Share<S>,
    jobs: &mut Vec<Job<A, S>, Global>,
) -> Result<(), WantOfMemory>
where
    T: SealRows<A> + Drop,
    C: VersionCopies<Version<A, S>, S> + Drop,
    A: Allocator + Copy,
    S: StoreName,
    R: Wait,
{
    run_step_at(shared, step, share)?;
    publish(rt, shared)?;
    pick_all(shared, jobs)?;
    Ok(())
}

/// Does one piece of work under the lock, publishes and picks there, and gives the jobs that were picked.
fn work_once<T, C, A, S, R>(
    rt: &R,
    alloc: A,
    lists: Global,
    store: &Mutex<SharedStore<T, C, A, S>>,
    work: &Work,
    share: &mut Share<S>,
) -> Result<Vec<Job<A, S>, Global>, WantOfMemory>
where
    T: SealRows<A> + Drop,
    C: VersionCopies<Version<A, S>, S> + Drop,
    A: Allocator + Copy,
    S: StoreName,
    R: Wait,
{
    let step = step_of(alloc, work)?;
    let mut jobs = Vec::with_capacity(lists, Row::ALL.len())?;
    run_locked(rt, &mut store.lock(rt), step, share, &mut jobs)?;
    Ok(jobs)
}

/// One critical section: does one piece of work under the lock, if there is one, publishes and picks there. Gives the share back,
/// with the jobs that were picked.
pub(crate) fn section<T, C, A, S, R>(
    rt: &R,
    alloc: A,
    lists: Global,
    store: &Mutex<SharedStore<T, C, A, S>>,
    work: Option<&Work>,
    share: Share<S>,
) -> Section<Share<S>, Job<A, S>>
where
    T: SealRows<A> + Drop,
    C: VersionCopies<Version<A, S>, S> + Drop,
    A: Allocator + Copy,
    S: StoreName,
    R: Wait,
{
    let mut share = share;
    let before = share.count();
    let jobs = match work {
        Some(work) => work_once(rt, alloc, lists, store, work, &mut share),
        None => Ok(Vec::new(lists)),
    };
    let stored = share.count().saturating_sub(before);
    Section {
        share,
        stored,
        jobs,
    }
}
