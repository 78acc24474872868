//! What is tried of rows: where tombstones go, copies that stay, and runs that are installed once and under a limit, whatever was
//! pushed since. Each trial tells whether all that it asks holds.

use crate::outcomes::Outcome;
use crate::subject::{Mergeable, Subject, grow_to, installs, merge_next};
use std::alloc::{Allocator, Global};
use std::marker::{Send, Sync};
use std::sync::Wait;
use std::thread;
use std::thread::Threads;

/// What is tried with rows that have no tables.
#[derive(Clone, Copy)]
pub enum Trial {
    Tombstones,
    Copies,
    InstalledOnce,
    RefusedAtTheLimit,
    MergedBeside,
}

impl Trial {
    /// How many tables it begins with. They have the numbers from 0.
    fn tables(self) -> u64 {
        match self {
            Trial::Tombstones => 0,
            _ => 5,
        }
    }
}

/// How many tables may be pushed for rows that are tried.
pub const LIMIT: u32 = 8;

/// Whether no run of the row is to be merged.
fn has_no_run<S: Subject<Global>>(rows: &S) -> bool {
    let mut job = None;
    rows.next_run(&mut job);
    let has_none = job.is_none();
    drop(job);
    has_none
}

/// Whether the run of the row is merged and installed.
fn is_merged<S: Subject<Global>, R: Wait>(rt: &R, alloc: Global, rows: &mut S) -> bool {
    let mut out = None;
    let is_merged = merge_next(alloc, rows, &mut out)
        && installs(rt, rows, &mut out, Outcome::Installed);
    drop(out);
    is_merged
}

/// Whether the row has tombstones of 0 and of 2, and the second value of 3.
fn has_all<S: Subject<Global>>(rows: &S) -> bool {
    rows.value(0) == Some(None)
        && rows.value(1).is_none()
        && rows.value(2) == Some(None)
        && rows.value(3) == Some(Some(8))
}

/// Whether the tombstone of 0 alone is gone, and the row has four tables.
fn has_what_is_left<S: Subject<Global>>(rows: &S) -> bool {
    rows.value(0).is_none()
        && rows.value(2) == Some(None)
        && rows.value(3) == Some(Some(8))
        && rows.looks(4, 0, 8)
}

/// What the row gets where tombstones are tried: a value and a tombstone of 0, of 2, and two values of 3.
const ENTRIES: [(u64, Option<u64>); 6] = [
    (0, Some(0)),
    (0, None),
    (2, Some(2)),
    (2, None),
    (3, Some(3)),
    (3, Some(8)),
];

/// Merges where nothing is older and where something is.
fn tombstones<S: Subject<Global>, R: Wait>(rt: &R, alloc: Global, rows: &mut S) -> bool {
    for (number, entry) in ENTRIES {
        if !rows.grow(rt, alloc, number, entry) {
            return false;
        }
    }
    has_all(rows)
        && is_merged(rt, alloc, rows)
        && is_merged(rt, alloc, rows)
        && has_what_is_left(rows)
}

/// Another value of 3, and an install.
fn has_changed<S: Subject<Global>, R: Wait>(rt: &R, alloc: Global, rows: &mut S) -> bool {
    rows.grow(rt, alloc, 3, Some(8)) && is_merged(rt, alloc, rows) && rows.value(3) == Some(Some(8))
}

/// A run of two tables leaves four, and makes what was merged of the same two before stale.
fn installed_once<S: Subject<Global>, R: Wait>(rt: &R, alloc: Global, rows: &mut S) -> bool {
    let mut late = None;
    let holds = merge_next(alloc, rows, &mut late)
        && is_merged(rt, alloc, rows)
        && rows.looks(4, 5, 6)
        && installs(rt, rows, &mut late, Outcome::Stale)
        && rows.looks(4, 5, 6)
        && has_no_run(rows);
    drop(late);
    holds
}

/// What is tried with rows that were copied holds, and it leaves the copy of five tables as it was.
fn copied<S: Subject<Global>, R: Wait>(rt: &R, alloc: Global, rows: &mut S, trial: Trial) -> bool {
    let mut copy = None;
    rows.copy(alloc, &mut copy);
    let holds = match trial {
        Trial::InstalledOnce => installed_once(rt, alloc, rows),
        _ => has_changed(rt, alloc, rows),
    };
    let stays = match &copy {
        Some(copy) => copy.looks(5, 5, 5),
        None => false,
    };
    drop(copy);
    holds && stays
}

/// Five tables and more, up to the limit, leave no push for an install, and stay.
fn refused_at_the_limit<S: Subject<Global>, R: Wait>(rt: &R, alloc: Global, rows: &mut S) -> bool {
    let mut late = None;
    let holds = merge_next(alloc, rows, &mut late)
        && grow_to(rt, alloc, rows, 5, 8)
        && installs(rt, rows, &mut late, Outcome::RegistryFull)
        && rows.looks(8, 8, 8);
    drop(late);
    holds
}

/// What a run is merged into, if there is memory for it.
fn merged<A, J: Mergeable<A, M>, M: Drop>(job: J, alloc: A) -> Option<M>
where
    A: Allocator,
{
    let mut merged = None;
    // Without memory there is none.
    let _ = job.merge_into(alloc, &mut merged);
    drop(job);
    merged
}

/// Merges a run in another thread while its row gains a table of the number 5. It tells whether it did.
fn merge_beside<A, J, M, S, R>(rt: &R, alloc: A, job: J, rows: &mut S) -> (Option<M>, bool)
where
    A: Allocator + Copy + Send + Sync,
    J: Mergeable<A, M> + Send,
    M: Send + Drop,
    S: Subject<A>,
    R: Wait + Threads,
{
    thread::join(
        rt,
        move || merged(job, alloc),
        || rows.grow(rt, alloc, 5, Some(5)),
    )
}

/// A run of five tables is merged while its row gains a sixth, and installed then.
fn merged_beside<S, R>(rt: &R, alloc: Global, rows: &mut S) -> bool
where
    S: Subject<Global>,
    S::Job: Send,
    S::Merged: Send,
    R: Wait + Threads,
{
    let mut job = None;
    rows.next_run(&mut job);
    match job {
        Some(job) => {
            let (mut out, is_grown) = merge_beside(rt, alloc, job, rows);
            let holds = is_grown
                && rows.looks(6, 6, 6)
                && installs(rt, rows, &mut out, Outcome::Installed)
                && rows.looks(5, 6, 7);
            drop(out);
            holds
        }
        None => false,
    }
}

/// Tries something with rows that have no tables.
pub fn tried<S, R>(rt: &R, alloc: Global, rows: &mut S, trial: Trial) -> bool
where
    S: Subject<Global>,
    S::Job: Send,
    S::Merged: Send,
    R: Wait + Threads,
{
    if !rows.looks(0, 0, 0) || !grow_to(rt, alloc, rows, 0, trial.tables()) {
        return false;
    }
    match trial {
        Trial::Tombstones => tombstones(rt, alloc, rows),
        Trial::Copies | Trial::InstalledOnce => copied(rt, alloc, rows, trial),
        Trial::RefusedAtTheLimit => refused_at_the_limit(rt, alloc, rows),
        Trial::MergedBeside => merged_beside(rt, alloc, rows),
    }
}
