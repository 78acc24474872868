//! Clients.
ghost use Rattle.std.specs.Prelude.{◌≡◌, IfSome};

use crate::Work;
use crate::desk::{Critical, Desk};
use crate::shared::SharedStore;
use std::alloc::Global;
use std::sync::{Mutex, Wait};
use tf_crew::{Ended, Gate, client_by};
use tf_jobs::{JobQueue, JobSeat};
use tf_manifest::Job;
use tf_query::Version;
use tf_records::Refusal;
use tf_rows::SealRows;
use tf_store::{Share, StoreName, VersionCopies};

/// Does a client's work, each piece in a critical section of its own. What it does there is given.
fn client_at<H, J, D, R, G>(
    rt: &R,
    desk: &D,
    queue: &JobQueue<J>,
    seat: JobSeat<J>,
    work: &[Work],
    share: H,
    worker: u32,
    gate: &G,
) -> Ended<H, J>
where
    H: Drop,
    J: Drop,
    D: Critical<H, J>,
    R: Wait,
    G: Gate,
    requires { seat.queue ≡ queue.now.number }
    ensures seat { (result.seat.queue ≡ seat.queue) × (result.seat.seats ≡ seat.seats) × (result.seat.taken ≡ seat.taken) }
    ensures fault { IfSome result.fault (λ fault. fault ≡ Refusal.NoMemory) }
{
    let run = |_worker: u32, piece: usize, share: H| desk.section(work.get(piece), share);
    client_by(rt, &run, work.len(), share, queue, seat, worker, gate)
}

/// Does a client's work, one piece after another, each in a critical section of its own: a batch or a pulse, then a publish, and
/// then a pick of every row's run. The jobs go to the queue once the lock is free again, and one that comes back is dropped: its
/// row will be picked again.
///
/// The share, which is of the store in the lock, grows by what is stored. The client gives it and the seat back at every end. A
/// batch, a pulse or a publish that is refused otherwise than for want of memory is passed over, as is a batch of more than
/// `BATCH_MAX` events. It ends early only for want of memory. Receipts are dropped. It may wait for the lock, in pushes,
/// for readers and in the queue.
pub fn client<'a, T, C, S, R, G>(
    rt: &'a R,
    alloc: Global,
    store: &'a Mutex<SharedStore<T, C, Global, S>>,
    queue: &JobQueue<Job<Global, S>>,
    seat: JobSeat<Job<Global, S>>,
    work: &'a [Work],
    share: Share<S>,
    worker: u32,
    gate: &G,
) -> Ended<Share<S>, Job<Global, S>>
where
    T: SealRows<Global> + Drop,
    C: VersionCopies<Version<Global, S>, S> + Drop,
    S: StoreName,
    R: Wait,
    G: Gate,
    requires { seat.queue ≡ queue.now.number }
    ensures seat { (result.seat.queue ≡ seat.queue) × (result.seat.seats ≡ seat.seats) × (result.seat.taken ≡ seat.taken) }
    ensures fault { IfSome result.fault (λ fault. fault ≡ Refusal.NoMemory) }
{
    let desk = Desk {
        rt,
        alloc,
        lists: alloc,
        store,
    };
    client_at(rt, &desk, queue, seat, work, share, worker, gate)
}
