//! A store in a lock that threads share: one of them publishes, and a reader in another sees it.

use std::marker::Sync;
use std::sync::Wait;
use std::test::Fail;
use std::thread::Threads;
use tf_storm_trials::try_out;
use tf_worker_trials::{Meetings, Trial, Tried, one_client};

/// Whether a reader saw what was stored, and only once it was published.
fn is_seen<R: Wait + Threads + AllocGlobal + Sync>(rt: &R, trial: Trial) -> Result<bool, Fail> {
    let tasks = one_client(rt.alloc(), Vec::new(rt.alloc()))?;
    let tried = try_out(rt, rt.alloc(), &tasks, trial, &Meetings::new(true));
    Ok(matches!(tried, Tried::Seen(true)))
}

#[test]
fn a_receipt_that_a_reader_learned_is_read_back(rt: HostRuntime) -> Result<(), Fail> {
    assert!(rt; is_seen(&rt, Trial::Receipt)?);
    Ok(())
}

#[test]
fn a_thread_locks_a_store_and_publishes(rt: HostRuntime) -> Result<(), Fail> {
    assert!(rt; is_seen(&rt, Trial::Lock)?);
    Ok(())
}
