//! Starts of workers, each in a thread of its own in a scope that all of them share.
ghost use Rattle.std.specs.Prelude.{◌≡◌, ◌+◌, ◌≤◌, length, vec_capacity, vec_len, OnOk};
ghost use Rattle.std.specs.List.{All};

use crate::clients::client_by;
use crate::compactors::compactor_by;
use crate::crew::COMPACTORS;
use crate::query_workers::query_worker_by;
use crate::{Answered, Asked, Compacted, Ended, Gate, Section, StormFault, WantOfMemory};
use std::alloc::Global;
use std::marker::{Send, Sync};
use std::sync::Wait;
use std::thread::{JoinHandle, Scope};
use tf_jobs::{JobQueue, JobSeat};

/// Starts a client with so many pieces of work. None where its thread couldn't be made.
fn start_client<'s, E, H, J, F, R, G>(
    scope: &Scope<'s, E>,
    rt: &'s R,
    run: &'s F,
    pieces: usize,
    share: H,
    queue: &'s JobQueue<J>,
    seat: JobSeat<J>,
    worker: u32,
    gate: &'s G,
) -> Option<JoinHandle<Ended<H, J>>>
where
    H: Send + Drop + 's,
    J: Send + Drop + 's,
    F: Fn(u32, usize, H) -> Section<H, J> + Sync,
    R: Wait + Sync,
    G: Gate + Sync,
    requires run { F.IsAlwaysCallable run.now }
    requires seat { seat.queue ≡ queue.now.number }
{
    scope
        .spawn(
            move ||
                requires run { F.IsAlwaysCallable run.now }
                requires seat { seat.queue ≡ queue.now.number }
            { client_by(rt, run, pieces, share, queue, seat, worker, gate) },
        )
        .ok()
}

/// Starts a client for each script, the first of them as worker 0. `NoThread` where one couldn't be: those before it run then.
pub(crate) fn start_clients<'s, E, W, H, J, F, R, G>(
    scope: &Scope<'s, E>,
    rt: &'s R,
    run: &'s F,
    scripts: &[Vec<W>],
    shares: &mut Vec<H, Global>,
    queue: &'s JobQueue<J>,
    seats: &mut Vec<JobSeat<J>, Global>,
    gate: &'s G,
    threads: &mut Vec<JoinHandle<Ended<H, J>>, Global>,
) -> Result<(), StormFault>
where
    W: Drop,
    H: Send + Drop + 's,
    J: Send + Drop + 's,
    F: Fn(u32, usize, H) -> Section<H, J> + Sync,
    R: Wait + Sync,
    G: Gate + Sync,
    requires calls { F.IsAlwaysCallable run.now }
    requires few { length scripts.now ≤ 64 }
    requires many { (vec_len shares.old ≡ length scripts.now) × (vec_len seats.old ≡ length scripts.now) }
    requires seats { All (λ s. s.queue ≡ queue.now.number) seats.old.items }
    requires room { (vec_len threads.old ≡ 0) × (length scripts.now ≤ vec_capacity threads.old) }
    ensures most { vec_len threads.new ≤ length scripts.now }
    ensures each { OnOk result (vec_len threads.new ≡ length scripts.now) }
{
    for place in 0..scripts.len() {
        let pieces = scripts[place].len();
        let Some(share) = shares.pop() else {
            unreachable!()
        };
        let Some(seat) = seats.pop() else {
            unreachable!()
        };
        let worker = place as u32;
        let Some(thread) = start_client(scope, rt, run, pieces, share, queue, seat, worker, gate)
        else {
            return Err(StormFault::NoThread);
        };
        threads.push_reserved(thread);
    }
    Ok(())
}

/// Starts a compactor. None where its thread couldn't be made.
fn start_compactor<'s, E, J, P, R, G>(
    scope: &Scope<'s, E>,
    rt: &'s R,
    compact: &'s P,
    queue: &'s JobQueue<J>,
    seat: JobSeat<J>,
    worker: u32,
    gate: &'s G,
) -> Option<JoinHandle<Compacted<J>>>
where
    J: Send + Drop + 's,
    P: Fn(J) -> Result<bool, WantOfMemory> + Sync,
    R: Wait + Sync,
    G: Gate + Sync,
    requires compact { P.IsAlwaysCallable compact.now }
    requires seat { seat.queue ≡ queue.now.number }
{
    scope
        .spawn(
            move ||
                requires compact { P.IsAlwaysCallable compact.now }
                requires seat { seat.queue ≡ queue.now.number }
            { compactor_by(rt, compact, queue, seat, worker, gate) },
        )
        .ok()
}

/// Starts two compactors, which take a seat each, as this worker and the next. `NoThread` where one couldn't be: the one before it
/// runs then.
pub(crate) fn start_compactors<'s, E, J, P, R, G>(
    scope: &Scope<'s, E>,
    rt: &'s R,
    compact: &'s P,
    queue: &'s JobQueue<J>,
    seats: &mut Vec<JobSeat<J>, Global>,
    first: u32,
    gate: &'s G,
    threads: &mut Vec<JoinHandle<Compacted<J>>, Global>,
) -> Result<(), StormFault>
where
    J: Send + Drop + 's,
    P: Fn(J) -> Result<bool, WantOfMemory> + Sync,
    R: Wait + Sync,
    G: Gate + Sync,
    requires calls { P.IsAlwaysCallable compact.now }
    requires few { first ≤ 128 }
    requires many { 2 ≤ vec_len seats.old }
    requires seats { All (λ s. s.queue ≡ queue.now.number) seats.old.items }
    requires room { (vec_len threads.old ≡ 0) × (2 ≤ vec_capacity threads.old) }
    ensures many { OnOk result (vec_len seats.new + 2 ≡ vec_len seats.old) }
    ensures seats { All (λ s. s.queue ≡ queue.now.number) seats.new.items }
{
    for place in 0..COMPACTORS {
        let Some(seat) = seats.pop() else {
            unreachable!()
        };
        let worker = first + place;
        let Some(thread) = start_compactor(scope, rt, compact, queue, seat, worker, gate) else {
            return Err(StormFault::NoThread);
        };
        threads.push_reserved(thread);
    }
    Ok(())
}

/// Starts a query worker with so many questions. None where its thread couldn't be made.
fn start_query_worker<'s, E, Q, K, G>(
    scope: &Scope<'s, E>,
    ask: &'s K,
    reader: Q,
    questions: usize,
    worker: u32,
    gate: &'s G,
) -> Option<JoinHandle<Asked>>
where
    Q: Send + Drop + 's,
    K: Fn(u32, usize, Q) -> Answered<Q> + Sync,
    G: Gate + Sync,
    requires { K.IsAlwaysCallable ask.now }
{
    scope
        .spawn(
            move ||
                requires { K.IsAlwaysCallable ask.now }
            { query_worker_by(ask, reader, questions, worker, gate) },
        )
        .ok()
}

/// Starts a query worker for each reader, from this worker on. `NoThread` where one couldn't be: those before it run then.
pub(crate) fn start_query_workers<'s, E, X, Q, K, G>(
    scope: &Scope<'s, E>,
    ask: &'s K,
    asks: &[Vec<X>],
    readers: Vec<Q, Global>,
    first: u32,
    gate: &'s G,
    threads: &mut Vec<JoinHandle<Asked>, Global>,
) -> Result<(), StormFault>
where
    X: Drop,
    Q: Send + Drop + 's,
    K: Fn(u32, usize, Q) -> Answered<Q> + Sync,
    G: Gate + Sync,
    requires calls { K.IsAlwaysCallable ask.now }
    requires few { (first ≤ 64) × (length asks.now ≤ 64) × (vec_len readers ≤ length asks.now) }
    requires room { (vec_len threads.old ≡ 0) × (vec_len readers ≤ vec_capacity threads.old) }
{
    let mut place = 0usize;
    for reader in readers {
        let questions = asks[place].len();
        let worker = first + place as u32;
        let Some(thread) = start_query_worker(scope, ask, reader, questions, worker, gate) else {
            return Err(StormFault::NoThread);
        };
        threads.push_reserved(thread);
        place += 1;
    }
    Ok(())
}
