//! A seat at the queue.
ghost use Rattle.std.specs.Prelude.{◌≡◌, []};
ghost use Rattle.crossbeam_queue.specs.Passes.{view};

use crate::Known;
use crossbeam_queue::Pass;
use std::marker::Model;

/// The right to offer and to take jobs, which can't be copied. Contracts see the queue that it is of, how many seats that has, and
/// the jobs that were offered and taken by this seat, in their order.
#[derive(Drop)]
pub struct JobSeat<T> {
    pub(crate) pass: Pass<T, Known<T>>,
    pub(crate) offered: u64,
    pub(crate) taken: u64,
}

impl<T> Model for JobSeat<T> {
    ghost use Rattle.std.specs.Prelude.{◌≡◌, [], length};
    ghost use Rattle.crossbeam_queue.specs.Passes as passes;
    ghost use Rattle.tf_jobs.specs.Jobs.{SeatView, capped};

    ghost Value = { SeatView T };

    ghost view = { λ s. record { queue = s.pass.table_id; seats = (passes.view s.pass).whole; offered = (passes.view s.pass).offered; taken = (passes.view s.pass).taken } };

    ghost invariant = { λ s. (s.pass.me.1 ≡ []) × ((passes.view s.pass).parts ≡ 1) × (s.offered ≡ capped (length (passes.view s.pass).offered)) × (s.taken ≡ capped (length (passes.view s.pass).taken)) };
}

impl<T> JobSeat<T> {
    /// A seat that has offered and taken nothing.
    pub(crate) fn new(pass: Pass<T, Known<T>>) -> JobSeat<T>
        requires free { pass.me.1 ≡ [] }
        requires part { (view pass).parts ≡ 1 }
        requires none { ((view pass).offered ≡ []) × ((view pass).taken ≡ []) }
        ensures queue { result.queue ≡ pass.table_id }
        ensures seats { result.seats ≡ (view pass).whole }
        ensures none { (result.offered ≡ []) × (result.taken ≡ []) }
    {
        JobSeat {
            pass,
            offered: 0,
            taken: 0,
        }
    }
}
