//! The queue.
ghost use Rattle.std.specs.Prelude.{◌≡◌, ◌<◌, ◌≤◌, ◌∷◌, ◌++◌, [], vec_len, IfOk, IfErr, IfSome, IfNone, OnOk};
ghost use Rattle.std.specs.List.{All};
ghost use Rattle.crossbeam_queue.specs.Passes.{view, IsPassOf};
ghost use Rattle.tf_jobs.specs.Jobs.{HeldJobs};
ghost use Rattle.tf_jobs.specs.Rule.{known};

use crate::rule::{Cut, Fair, Grows, Offers, Takes};
use crate::{JobSeat, Known};
use crossbeam_queue::{Pass, RuledArrayQueue};
use std::alloc::Global;
use std::marker::Model;
use std::sync::Wait;
use std::sync::atomic::{AtomicBool, Ordering};
use tf_records::Refusal;

/// The queue beneath, with its rule.
pub(crate) type Bench<T> = RuledArrayQueue<T, Known<T>, Fair, Global>;

/// A bounded queue of jobs, the oldest first, which threads share by reference, with a flag that it is closed. Contracts see which
/// queue it is, and how many jobs it can hold.
///
/// Who offers and takes has a [`JobSeat`] of the queue. A job that nobody took is dropped with the queue.
#[derive(Drop)]
pub struct JobQueue<T: Drop> {
    pub(crate) bench: Bench<T>,
    closed: AtomicBool,
}

impl<T: Drop> Model for JobQueue<T> {
    ghost use Rattle.crossbeam_queue.specs.Passes.{ruled_capacity};
    ghost use Rattle.tf_jobs.specs.Jobs.{QueueView};

    ghost Value = { QueueView };

    ghost view = { λ q. record { number = q.bench.table.shared.table_id; capacity = ruled_capacity q.bench } };
}

impl<T: Drop> JobQueue<T> {
    /// An open queue that can hold so many jobs, at most 1,024, and all its seats, of which none has offered or taken anything.
    ///
    /// `NoMemory` is the only refusal. Takes memory for all jobs that it can hold, and once for the seats; no later call takes any.
    pub fn new(
        alloc: Global,
        capacity: u32,
        seats: u32,
    ) -> Result<(JobQueue<T>, Vec<JobSeat<T>, Global>), Refusal>
        requires capacity { (0 < capacity) × (capacity ≤ 1024) }
        requires seats { 0 < seats }
        ensures capacity { IfOk result (λ r. r.0.capacity ≡ capacity) }
        ensures count { IfOk result (λ r. vec_len r.1 ≡ seats) }
        ensures seats { IfOk result (λ r. All (λ s. (s.queue ≡ r.0.number) × (s.seats ≡ seats) × (s.offered ≡ []) × (s.taken ≡ [])) r.1.items) }
        ensures refusal { IfErr result (λ refusal. refusal ≡ Refusal.NoMemory) }
    {
        let mut made = Vec::with_capacity(alloc, seats as usize)?;
        let (bench, pass) = RuledArrayQueue::ruled(alloc, capacity as usize)?;
        let mut pass = grown(&bench, pass, seats);
        for _at in 1..seats {
            let cut = bench.another::<Cut>(&mut pass);
            match made.push(JobSeat::new(cut)) {
                Ok(()) => {}
                Err(_) => unreachable!(),
            }
        }
        match made.push(JobSeat::new(pass)) {
            Ok(()) => {}
            Err(_) => unreachable!(),
        }
        let queue = JobQueue {
            bench,
            closed: AtomicBool::new(false),
        };
        Ok((queue, made))
    }

    /// Offers a job, which goes behind the others. It comes back where, at some moment of the call, the queue held as many jobs as
    /// it can.
    ///
    /// A closed queue takes jobs too. It takes no memory, and may wait for threads that are in a call of the queue.
    pub fn offer<R: Wait>(&self, rt: &R, seat: &mut JobSeat<T>, job: T) -> Result<(), T>
        requires { seat.old.queue ≡ self.now.number }
        ensures seat { (seat.new.queue ≡ seat.old.queue) × (seat.new.seats ≡ seat.old.seats) × (seat.new.taken ≡ seat.old.taken) }
        ensures ok { OnOk result (seat.new.offered ≡ seat.old.offered ++ job ∷ []) }
        ensures back { IfErr result (λ back. (back ≡ job) × (seat.new.offered ≡ seat.old.offered)) }
        ensures full { IfErr result (λ back. HeldJobs T self.now.capacity) }
    {
        let JobSeat {
            pass,
            offered,
            taken: _,
        } = seat;
        self.bench.push_as::<Offers, R>(rt, pass, job)?;
        *offered = offered.saturating_add(1);
        Ok(())
    }

    /// Takes the oldest job. None where, at some moment of the call, the queue held none.
    ///
    /// It takes no memory, and may wait for threads that are in a call of the queue, but not for a job.
    pub fn take<R: Wait>(&self, rt: &R, seat: &mut JobSeat<T>) -> Option<T>
        requires { seat.old.queue ≡ self.now.number }
        ensures seat { (seat.new.queue ≡ seat.old.queue) × (seat.new.seats ≡ seat.old.seats) × (seat.new.offered ≡ seat.old.offered) }
        ensures some { IfSome result (λ job. seat.new.taken ≡ seat.old.taken ++ job ∷ []) }
        ensures none { IfNone result (seat.new.taken ≡ seat.old.taken) }
        ensures empty { IfNone result (HeldJobs T 0) }
    {
        let JobSeat {
            pass,
            offered: _,
            taken,
        } = seat;
        let job = self.bench.pop_as::<Takes, R>(rt, pass)?;
        *taken = taken.saturating_add(1);
        Some(job)
    }

    /// Closes the queue, which is a sign to those who take that no more jobs come.
    pub fn close(&self) {
        self.closed.store(true, Ordering::SeqCst);
    }

    /// Whether the queue was closed. What was offered before it was closed is there for who takes after reading so.
    pub fn is_closed(&self) -> bool {
        self.closed.load(Ordering::SeqCst)
    }
}

/// A pass with so many parts, which are all there are.
fn grown<T: Drop>(bench: &Bench<T>, pass: Pass<T, Known<T>>, parts: u32) -> Pass<T, Known<T>>
    requires some { 0 < parts }
    requires first { IsPassOf bench.now pass × (view pass ≡ known 1 1 [] []) }
    ensures { IsPassOf bench.now result × (view result ≡ known parts parts [] []) }
{
    let mut pass = pass;
    for _part in 1..parts {
        let _spent = bench.another::<Grows>(&mut pass);
    }
    pass
}
