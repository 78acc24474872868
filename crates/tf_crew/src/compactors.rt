//! Compactors.
ghost use Rattle.std.specs.Prelude.{◌≡◌, ◌+◌, ◌≤◌, length, IfSome};

use crate::{Compacted, Gate, WantOfMemory};
use std::sync::Wait;
use std::thread;
use tf_jobs::{JobQueue, JobSeat};
use tf_records::Refusal;

/// Takes jobs from the queue, and merges and installs each by a call of `compact`, which tells whether the merged table stands in
/// the place of its run, until it read that the queue is closed and then took nothing. It ends early only for want of memory.
pub fn compactor_by<J, F, R, G>(
    rt: &R,
    compact: &F,
    queue: &JobQueue<J>,
    seat: JobSeat<J>,
    worker: u32,
    gate: &G,
) -> Compacted<J>
where
    J: Drop,
    F: Fn(J) -> Result<bool, WantOfMemory>,
    R: Wait,
    G: Gate,
    requires compact { F.IsAlwaysCallable compact.now }
    requires seat { seat.queue ≡ queue.now.number }
    ensures seat { (result.seat.queue ≡ seat.queue) × (result.seat.seats ≡ seat.seats) × (result.seat.offered ≡ seat.offered) }
    ensures installed { result.installed + length seat.taken ≤ length result.seat.taken }
    ensures fault { IfSome result.fault (λ fault. fault ≡ Refusal.NoMemory) }
{
    let mut seat = seat;
    let mut jobs = 0u64;
    let mut installed = 0u64;
    let mut call = 0u32;
    for _turn in rt.forever() {
        let closed = queue.is_closed();
        match queue.take(rt, &mut seat) {
            Some(job) => {
                gate.before(worker, call);
                let done = compact(job);
                gate.after(worker, call);
                call = call.saturating_add(1);
                jobs = jobs.saturating_add(1);
                match done {
                    Ok(true) => installed = installed.saturating_add(1),
                    Ok(false) => {}
                    Err(_) => {
                        return Compacted {
                            jobs,
                            installed,
                            seat,
                            fault: Some(Refusal::NoMemory),
                        };
                    }
                }
            }
            None => {
                if closed {
                    break;
                }
                thread::yield_now();
            }
        }
    }
    Compacted {
        jobs,
        installed,
        seat,
        fault: None,
    }
}
