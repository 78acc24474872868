//! Runs storms of scripts.
ghost use Rattle.std.specs.Prelude.{◌<◌, ◌≤◌, length, map, MatchResult};
ghost use Rattle.tf_storm.specs.Storm.{FaultTells, HasTold};

use crate::bring_up::run_tasks;
use crate::faults::RunStormFault;
use crate::tasks::read_tasks;
use std::alloc::Global;
use std::io::Write;
use std::marker::Sync;
use std::sync::Wait;
use std::thread::Threads;
use tf_main::{RunFault, write_totals};
use tf_workers::{Done, Gate};

/// A storm that told its totals.
#[derive(Drop)]
pub struct Storm {
    /// Whether no worker ended early for want of memory.
    pub complete: bool,
    /// What each worker did: clients, compactors and query workers, each kind by rising number.
    pub done: Vec<Done, Global>,
}

/// Runs 1 to 64 scripts over an empty store, all at once, each by a client of its own, with two query workers and two compactors
/// beside them, and writes three lines: how many clients there were, how many entries are stored, and the sum of the clients'
/// shares, which is the same number.
///
/// All scripts are read, in order, before any worker is started. A client runs its script's batches, pulses and publishes in order,
/// and publishes after each; what script `i` asks goes to query worker `i` mod 2, which prints nothing; `compact` is passed over, as
/// is a batch, a pulse, a publish or a look-up that is refused otherwise than for want of memory. In a storm of `n` scripts client
/// `i` is worker `i`, the query workers are `n` and `n + 1`, the compactors `n + 2` and `n + 3`.
///
/// The storm that it gives isn't complete where a worker ended early for want of memory: the three lines are written then too. It may
/// wait.
///
/// # Errors
///
/// - `RunFault::BadLine` with the place of the first fault of the first script that has one: nothing was run, and nothing written.
/// - `RunFault::NoMemory` where a growth was refused before any client was started: nothing was written.
/// - `RunFault::CannotWrite` where the writer failed: what was written is a part of the three lines, from the first byte on.
/// - `NoThread` where a thread couldn't be made: the workers that were started were joined, and nothing was written.
pub fn run_storm<R, G, W>(
    rt: &R,
    alloc: Global,
    scripts: &[Vec<u8>],
    gate: &G,
    out: &mut W,
) -> Result<Storm, RunStormFault>
where
    R: Wait + Threads + Sync,
    G: Gate + Sync,
    W: Write,
    requires { (0 < length scripts.now) × (length scripts.now ≤ 64) }
    ensures { MatchResult result (λ _. HasTold (map (λ s. s.items) scripts.now) (W.contents out.old) (W.contents out.new))
        (FaultTells (map (λ s. s.items) scripts.now) (W.contents out.old) (W.contents out.new)) }
{
    let tasks = match read_tasks(alloc, scripts) {
        Ok(tasks) => tasks,
        Err(fault) => return Err(fault),
    };
    let (totals, done) = match run_tasks(rt, alloc, &tasks, gate) {
        Ok(counted) => counted,
        Err(fault) => return Err(fault),
    };
    match write_totals(totals.clients, totals.stored, totals.shares, out) {
        Ok(()) => Ok(Storm {
            complete: totals.complete,
            done,
        }),
        Err(error) => Err(RunStormFault::Run(RunFault::CannotWrite(error))),
    }
}
