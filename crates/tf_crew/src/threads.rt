//! All workers of a crew in threads of one scope: query workers begin first and are joined last, clients begin last and are joined
//! first, compactors in between.
ghost use Rattle.std.specs.Prelude.{◌≡◌, ◌+◌, ◌≤◌, length, vec_capacity, vec_len, IfOk, OnOk};
ghost use Rattle.std.specs.List.{All};

use crate::crew::COMPACTORS;
use crate::join::{join_clients, join_compactors, join_query_workers};
use crate::start::{start_clients, start_compactors, start_query_workers};
use crate::{
    Answered, Asked, Compacted, Done, Ended, Gate, Joined, Section, StormFault, WantOfMemory,
};
use std::alloc::{AllocError, Global};
use std::marker::{Send, Sync};
use std::sync::Wait;
use std::thread;
use std::thread::{JoinHandle, Scope, Threads};
use tf_jobs::{JobQueue, JobSeat};

/// The threads of a crew, and what comes back from them.
#[derive(Drop)]
struct Hands<H: Drop, J: Drop> {
    clients: Vec<JoinHandle<Ended<H, J>>, Global>,
    compactors: Vec<JoinHandle<Compacted<J>>, Global>,
    query_workers: Vec<JoinHandle<Asked>, Global>,
    /// The shares that clients give back.
    shares: Vec<H, Global>,
    done: Vec<Done, Global>,
}

/// Room for two compactors, for so many clients with what they give back, and for so many query workers.
fn room_for<H: Drop, J: Drop>(
    alloc: Global,
    clients: usize,
    query_workers: usize,
) -> Result<Hands<H, J>, AllocError>
    ensures clients { IfOk result (λ hands. (vec_len hands.clients ≡ 0) × (clients ≤ vec_capacity hands.clients)) }
    ensures compactors { IfOk result (λ hands. (vec_len hands.compactors ≡ 0) × (2 ≤ vec_capacity hands.compactors)) }
    ensures query_workers { IfOk result (λ hands. (vec_len hands.query_workers ≡ 0) × (query_workers ≤ vec_capacity hands.query_workers)) }
    ensures shares { IfOk result (λ hands. (vec_len hands.shares ≡ 0) × (clients ≤ vec_capacity hands.shares)) }
{
    Ok(Hands {
        clients: Vec::with_capacity(alloc, clients)?,
        compactors: Vec::with_capacity(alloc, COMPACTORS as usize)?,
        query_workers: Vec::with_capacity(alloc, query_workers)?,
        shares: Vec::with_capacity(alloc, clients)?,
        done: Vec::with_capacity(alloc, clients)?,
    })
}

/// Starts all workers of a crew. `NoThread` where one couldn't be: those that begin before it run then.
fn start_all<'s, E, W, X, H, J, Q, F, P, K, R, G>(
    scope: &Scope<'s, E>,
    rt: &'s R,
    run: &'s F,
    compact: &'s P,
    ask: &'s K,
    scripts: &[Vec<W>],
    asks: &[Vec<X>],
    shares: &mut Vec<H, Global>,
    readers: Vec<Q, Global>,
    queue: &'s JobQueue<J>,
    seats: &mut Vec<JobSeat<J>, Global>,
    gate: &'s G,
    hands: &mut Hands<H, J>,
) -> Result<(), StormFault>
where
    W: Drop,
    X: Drop,
    H: Send + Drop + 's,
    J: Send + Drop + 's,
    Q: Send + Drop + 's,
    F: Fn(u32, usize, H) -> Section<H, J> + Sync,
    P: Fn(J) -> Result<bool, WantOfMemory> + Sync,
    K: Fn(u32, usize, Q) -> Answered<Q> + Sync,
    R: Wait + Sync,
    G: Gate + Sync,
    requires calls { F.IsAlwaysCallable run.now × P.IsAlwaysCallable compact.now × K.IsAlwaysCallable ask.now }
    requires few { (length scripts.now ≤ 64) × (length asks.now ≤ 64) × (vec_len readers ≤ length asks.now) }
    requires many { (vec_len shares.old ≡ length scripts.now) × (vec_len seats.old ≡ length scripts.now + 2) }
    requires seats { All (λ s. s.queue ≡ queue.now.number) seats.old.items }
    requires clients { (vec_len hands.old.clients ≡ 0) × (length scripts.now ≤ vec_capacity hands.old.clients) }
    requires compactors { (vec_len hands.old.compactors ≡ 0) × (2 ≤ vec_capacity hands.old.compactors) }
    requires query_workers { (vec_len hands.old.query_workers ≡ 0) × (vec_len readers ≤ vec_capacity hands.old.query_workers) }
    ensures shares { hands.new.shares ≡ hands.old.shares }
    ensures most { vec_len hands.new.clients ≤ length scripts.now }
    ensures each { OnOk result (vec_len hands.new.clients ≡ length scripts.now) }
{
    let clients = scripts.len() as u32;
    let first = clients + asks.len() as u32;
    start_query_workers(
        scope,
        ask,
        asks,
        readers,
        clients,
        gate,
        &mut hands.query_workers,
    )?;
    start_compactors(
        scope,
        rt,
        compact,
        queue,
        seats,
        first,
        gate,
        &mut hands.compactors,
    )?;
    start_clients(
        scope,
        rt,
        run,
        scripts,
        shares,
        queue,
        seats,
        gate,
        &mut hands.clients,
    )
}

/// Joins all workers that were started: the clients first, then, once the queue is closed, the compactors, and the query workers.
fn join_all<H: Drop, J: Drop, R: Threads>(
    rt: &R,
    queue: &JobQueue<J>,
    hands: Hands<H, J>,
) -> Joined<H>
    requires { (vec_len hands.shares ≡ 0) × (vec_len hands.clients ≤ vec_capacity hands.shares) }
    ensures { vec_len result.shares ≡ vec_len hands.clients }
{
    let Hands {
        clients,
        compactors,
        query_workers,
        shares,
        done,
    } = hands;
    let mut joined = join_clients(rt, shares, done, clients);
    queue.close();
    let merged = join_compactors(rt, &mut joined.done, compactors);
    let asked = join_query_workers(rt, &mut joined.done, query_workers);
    joined.complete &= merged && asked;
    joined
}

/// Runs all workers: a query worker for each reader, two compactors, and a client for each script. Gives the clients' shares back.
///
/// `NoMemory` where none was started, and `NoThread` where one couldn't be: those that were started are joined then, once the queue is
/// closed, and the shares are gone.
pub(crate) fn run_workers<W, X, H, J, Q, F, P, K, R, G>(
    rt: &R,
    alloc: Global,
    run: &F,
    compact: &P,
    ask: &K,
    scripts: &[Vec<W>],
    asks: &[Vec<X>],
    shares: Vec<H, Global>,
    readers: Vec<Q, Global>,
    queue: &JobQueue<J>,
    seats: Vec<JobSeat<J>, Global>,
    gate: &G,
) -> Result<Joined<H>, StormFault>
where
    W: Drop,
    X: Drop,
    H: Send + Drop,
    J: Send + Drop,
    Q: Send + Drop,
    F: Fn(u32, usize, H) -> Section<H, J> + Sync,
    P: Fn(J) -> Result<bool, WantOfMemory> + Sync,
    K: Fn(u32, usize, Q) -> Answered<Q> + Sync,
    R: Wait + Threads + Sync,
    G: Gate + Sync,
    requires calls { F.IsAlwaysCallable run.now × P.IsAlwaysCallable compact.now × K.IsAlwaysCallable ask.now }
    requires few { (length scripts.now ≤ 64) × (length asks.now ≤ 64) × (vec_len readers ≤ length asks.now) }
    requires many { (vec_len shares ≡ length scripts.now) × (vec_len seats ≡ length scripts.now + 2) }
    requires seats { All (λ s. s.queue ≡ queue.now.number) seats.items }
    ensures { IfOk result (λ joined. vec_len joined.shares ≡ length scripts.now) }
{
    thread::scope(
        thread::scope_env(),
        rt,
        move |scope| -> Result<Joined<H>, StormFault>
            requires calls { F.IsAlwaysCallable run.now × P.IsAlwaysCallable compact.now × K.IsAlwaysCallable ask.now }
            requires few { (length scripts.now ≤ 64) × (length asks.now ≤ 64) × (vec_len readers ≤ length asks.now) }
            requires many { (vec_len shares ≡ length scripts.now) × (vec_len seats ≡ length scripts.now + 2) }
            requires seats { All (λ s. s.queue ≡ queue.now.number) seats.items }
            ensures { IfOk result (λ joined. vec_len joined.shares ≡ length scripts.entry.now) }
        {
            let mut hands = room_for(alloc, scripts.len(), readers.len())?;
            let mut shares = shares;
            let mut seats = seats;
            let started = start_all(
                scope,
                rt,
                run,
                compact,
                ask,
                scripts,
                asks,
                &mut shares,
                readers,
                queue,
                &mut seats,
                gate,
                &mut hands,
            );
            let joined = join_all(rt, queue, hands);
            match started {
                Ok(()) => Ok(joined),
                Err(fault) => Err(fault),
            }
        },
    )
}
