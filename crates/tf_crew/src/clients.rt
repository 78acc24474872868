//! Clients.
ghost use Rattle.std.specs.Prelude.{◌≡◌, IfSome};

use crate::{Ended, Gate, Section};
use std::alloc::Global;
use std::sync::Wait;
use tf_jobs::{JobQueue, JobSeat};
use tf_records::Refusal;

/// Offers jobs. One that the queue hands back is dropped: its row will be picked again.
fn offer_all<J: Drop, R: Wait>(
    rt: &R,
    queue: &JobQueue<J>,
    seat: &mut JobSeat<J>,
    jobs: Vec<J, Global>,
)
    requires { seat.old.queue ≡ queue.now.number }
    ensures { (seat.new.queue ≡ seat.old.queue) × (seat.new.seats ≡ seat.old.seats) × (seat.new.taken ≡ seat.old.taken) }
{
    for job in jobs {
        let _back = queue.offer(rt, seat, job);
    }
}

/// Does a client's work, so many pieces, each by a call of `run` with the worker's number and that of the piece, counted from 0. The
/// jobs that it gives are offered to the queue after it, and one that comes back is dropped.
///
/// It ends early only for want of memory, and gives its share and its seat back at every end. It may wait in the queue.
pub fn client_by<H, J, F, R, G>(
    rt: &R,
    run: &F,
    pieces: usize,
    share: H,
    queue: &JobQueue<J>,
    seat: JobSeat<J>,
    worker: u32,
    gate: &G,
) -> Ended<H, J>
where
    H: Drop,
    J: Drop,
    F: Fn(u32, usize, H) -> Section<H, J>,
    R: Wait,
    G: Gate,
    requires run { F.IsAlwaysCallable run.now }
    requires seat { seat.queue ≡ queue.now.number }
    ensures seat { (result.seat.queue ≡ seat.queue) × (result.seat.seats ≡ seat.seats) × (result.seat.taken ≡ seat.taken) }
    ensures fault { IfSome result.fault (λ fault. fault ≡ Refusal.NoMemory) }
{
    let mut share = share;
    let mut seat = seat;
    let mut call = 0u32;
    let mut pieces_done = 0u64;
    let mut stored = 0u64;
    for piece in 0..pieces {
        gate.before(worker, call);
        let Section {
            share: back,
            stored: more,
            jobs,
        } = run(worker, piece, share);
        share = back;
        stored = stored.saturating_add(more);
        gate.after(worker, call);
        call = call.saturating_add(1);
        match jobs {
            Ok(jobs) => {
                pieces_done = pieces_done.saturating_add(1);
                offer_all(rt, queue, &mut seat, jobs);
            }
            Err(_) => {
                return Ended {
                    share,
                    pieces: pieces_done,
                    stored,
                    seat,
                    fault: Some(Refusal::NoMemory),
                };
            }
        }
    }
    Ended {
        share,
        pieces: pieces_done,
        stored,
        seat,
        fault: None,
    }
}
