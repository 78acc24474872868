//! All workers of a storm, round the lock of a store.
ghost use Rattle.std.specs.Prelude.{◌≡◌, ◌<◌, ◌≤◌, length, vec_len, IfOk};

use crate::Work;
use crate::desk::{Critical, Desk};
use crate::shared::SharedStore;
use std::alloc::Global;
use std::marker::{Send, Sync};
use std::sync::{Mutex, Wait};
use std::thread::Threads;
use tf_asking::{Ask, VersionReader, answer_of_list};
use tf_crew::{Gate, Joined, StormFault, run_crew};
use tf_query::Version;
use tf_rows::SealRows;
use tf_store::{Share, StoreName, VersionCopies};

/// The piece of this number of the work of the client with this one.
fn piece(scripts: &[Vec<Work>], worker: u32, number: usize) -> Option<&Work> {
    scripts.get(worker as usize)?.as_slice().get(number)
}

/// Runs all workers, of which query workers ask readers, and gives the clients' shares back. What clients and compactors do
/// is given.
fn run_asking<H, J, Q, D, R, G>(
    rt: &R,
    lists: Global,
    desk: &D,
    shares: Vec<H, Global>,
    readers: Vec<Q, Global>,
    scripts: &[Vec<Work>],
    asks: &[Vec<Ask>],
    gate: &G,
) -> Result<Joined<H>, StormFault>
where
    H: Send + Drop,
    J: Send + Sync + Drop,
    Q: VersionReader + Send + Drop,
    D: Critical<H, J> + Sync,
    R: Wait + Threads + Sync,
    G: Gate + Sync,
    requires some { (0 < length scripts.now) × (length scripts.now ≤ 64) }
    requires asks { (length asks.now ≤ 64) × (vec_len readers ≤ length asks.now) }
    requires shares { vec_len shares ≡ length scripts.now }
    ensures { IfOk result (λ joined. vec_len joined.shares ≡ length scripts.now) }
{
    let run = |worker: u32, place: usize, share: H| desk.section(
        piece(scripts, worker, place),
        share,
    );
    let merge = |job: J| desk.merge(job);
    let first = scripts.len();
    let ask = |worker: u32, number: usize, reader: Q| answer_of_list(
        lists,
        asks,
        first,
        (worker, number),
        reader,
    );
    run_crew(
        rt, lists, &run, &merge, &ask, shares, readers, scripts, asks, gate,
    )
}

/// Runs all workers round the lock of a store, and gives the clients' shares back.
fn run_locked<T, C, S, Q, R, G>(
    rt: &R,
    desk: &Desk<'_, T, C, S, R>,
    shares: Vec<Share<S>, Global>,
    readers: Vec<Q, Global>,
    scripts: &[Vec<Work>],
    asks: &[Vec<Ask>],
    gate: &G,
) -> Result<Joined<Share<S>>, StormFault>
where
    T: SealRows<Global> + Send + Drop,
    C: VersionCopies<Version<Global, S>, S> + Send + Drop,
    S: StoreName + Send + Sync,
    Q: VersionReader + Send + Drop,
    R: Wait + Threads + Sync,
    G: Gate + Sync,
    requires some { (0 < length scripts.now) × (length scripts.now ≤ 64) }
    requires asks { (length asks.now ≤ 64) × (vec_len readers ≤ length asks.now) }
    requires shares { vec_len shares ≡ length scripts.now }
    ensures { IfOk result (λ joined. vec_len joined.shares ≡ length scripts.now) }
{
    run_asking(rt, desk.lists, desk, shares, readers, scripts, asks, gate)
}

/// The same, at a desk of their own.
pub(crate) fn run_all<T, C, S, Q, R, G>(
    rt: &R,
    lists: Global,
    alloc: Global,
    store: &Mutex<SharedStore<T, C, Global, S>>,
    shares: Vec<Share<S>, Global>,
    readers: Vec<Q, Global>,
    scripts: &[Vec<Work>],
    asks: &[Vec<Ask>],
    gate: &G,
) -> Result<Joined<Share<S>>, StormFault>
where
    T: SealRows<Global> + Send + Drop,
    C: VersionCopies<Version<Global, S>, S> + Send + Drop,
    S: StoreName + Send + Sync,
    Q: VersionReader + Send + Drop,
    R: Wait + Threads + Sync,
    G: Gate + Sync,
    requires some { (0 < length scripts.now) × (length scripts.now ≤ 64) }
    requires asks { (length asks.now ≤ 64) × (vec_len readers ≤ length asks.now) }
    requires shares { vec_len shares ≡ length scripts.now }
    ensures { IfOk result (λ joined. vec_len joined.shares ≡ length scripts.now) }
{
    let desk = Desk {
        rt,
        alloc,
        lists,
        store,
    };
    run_locked(rt, &desk, shares, readers, scripts, asks, gate)
}
