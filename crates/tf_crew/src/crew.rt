//! A crew: all workers at once, round one queue.
ghost use Rattle.std.specs.Prelude.{◌≡◌, ◌<◌, ◌≤◌, length, vec_len, IfOk};

use crate::threads::run_workers;
use crate::{Answered, Gate, Joined, Section, StormFault, WantOfMemory};
use std::alloc::Global;
use std::marker::{Send, Sync};
use std::sync::Wait;
use std::thread::Threads;
use tf_jobs::JobQueue;

/// How many compactors a crew has.
pub(crate) const COMPACTORS: u32 = 2;

/// How many jobs the queue of a crew can hold.
const QUEUE_CAPACITY: u32 = 64;

/// Runs a client for each script, with a query worker for each reader and two compactors beside them, each in a thread of its own,
/// and joins them all: the clients first, then, once the queue is closed, the compactors, and the query workers. Gives the shares of
/// all clients back, those that ended early too.
///
/// A client's critical section is a call of `run`, what a compactor does with a job a call of `compact`, and a question to a reader a
/// call of `ask`. Query worker `i` asks `asks[i]`. Clients are workers 0 to `n - 1`, query workers the next ones, as many as there are
/// lists of what to ask, and compactors the last two.
///
/// `NoMemory` where no client was started, and `NoThread` where a thread couldn't be made: all that were started are joined then, and
/// the shares are gone. It may wait.
pub fn run_crew<W, X, H, J, Q, F, P, K, R, G>(
    rt: &R,
    alloc: Global,
    run: &F,
    compact: &P,
    ask: &K,
    shares: Vec<H, Global>,
    readers: Vec<Q, Global>,
    scripts: &[Vec<W>],
    asks: &[Vec<X>],
    gate: &G,
) -> Result<Joined<H>, StormFault>
where
    W: Sync + Drop,
    X: Sync + Drop,
    H: Send + Drop,
    J: Send + Sync + Drop,
    Q: Send + Drop,
    F: Fn(u32, usize, H) -> Section<H, J> + Sync,
    P: Fn(J) -> Result<bool, WantOfMemory> + Sync,
    K: Fn(u32, usize, Q) -> Answered<Q> + Sync,
    R: Wait + Threads + Sync,
    G: Gate + Sync,
    requires calls { F.IsAlwaysCallable run.now × P.IsAlwaysCallable compact.now × K.IsAlwaysCallable ask.now }
    requires some { (0 < length scripts.now) × (length scripts.now ≤ 64) }
    requires asks { (length asks.now ≤ 64) × (vec_len readers ≤ length asks.now) }
    requires shares { vec_len shares ≡ length scripts.now }
    ensures { IfOk result (λ joined. vec_len joined.shares ≡ length scripts.now) }
{
    let (queue, seats) = JobQueue::new(alloc, QUEUE_CAPACITY, scripts.len() as u32 + COMPACTORS)?;
    run_workers(
        rt, alloc, run, compact, ask, scripts, asks, shares, readers, &queue, seats, gate,
    )
}
