//! What all seats offered and took.
ghost use Rattle.std.specs.Prelude.{◌≡◌, ◌<◌, List, length, vec_len};
ghost use Rattle.std.specs.List.{All};
ghost use Rattle.tf_jobs.specs.Jobs.{IsBalanced, all_offered, all_taken, capped};

use crate::rule::{Cut, LearnsAll};
use crate::{JobQueue, JobSeat};
use std::alloc::Allocator;
use std::sync::Wait;

/// How many jobs were offered, taken and left, each as far as it is below 2^64.
#[derive(Clone, Copy, PartialEq, Eq, Debug)]
pub struct Reckoning {
    /// Jobs that were offered and didn't come back.
    pub offered: u64,
    /// Jobs that were taken.
    pub taken: u64,
    /// Jobs that the queue holds still.
    pub left: u64,
}

/// Adds up what all seats of a queue offered and took, and uses the queue up, with the jobs that are left.
///
/// Each job was taken or is left, together as often as it was offered, and no other job was taken. It takes no memory, and may wait
/// for threads that are in a call of the queue.
pub fn reckon<T: Drop, B: Allocator, R: Wait>(
    rt: &R,
    queue: JobQueue<T>,
    seats: Vec<JobSeat<T>, B>,
) -> Reckoning
    requires some { 0 < vec_len seats }
    requires all { All (λ s. (s.queue ≡ queue.number) × (s.seats ≡ vec_len seats)) seats.items }
    ensures balanced { (left : List T) × (length left ≡ result.left) × IsBalanced (all_offered seats.items) (all_taken seats.items) left }
    ensures offered { result.offered ≡ capped (length (all_offered seats.items)) }
    ensures taken { result.taken ≡ capped (length (all_taken seats.items)) }
{
    let mut seats = seats;
    let Some(last) = seats.pop() else {
        unreachable!()
    };
    let JobSeat {
        mut pass,
        mut offered,
        mut taken,
    } = last;
    while let Some(seat) = seats.pop() {
        let JobSeat {
            pass: other,
            offered: more_offered,
            taken: more_taken,
        } = seat;
        queue.bench.absorb::<Cut>(&mut pass, other);
        offered = offered.saturating_add(more_offered);
        taken = taken.saturating_add(more_taken);
    }
    let left = queue.bench.len_as::<LearnsAll, R>(rt, &mut pass);
    Reckoning {
        offered,
        taken,
        left: left as u64,
    }
}
