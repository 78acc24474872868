//! Rows as trials see them.

use crate::outcomes::Outcome;
use std::alloc::Allocator;
use std::sync::Wait;
use tf_records::Refusal;

/// A run of a row that is to be merged. What is sent to another thread rests on this alone.
pub trait Mergeable<A: Allocator, M>: Drop {
    /// Puts what it is merged into into a place.
    fn merge_into(&self, alloc: A, place: &mut Option<M>) -> Result<(), Refusal>;
}

/// Rows of which one is tried. Its keys are numbers. What it gives it puts into a place that it is lent, since a value that is
/// handed over is compared by its whole layout where rows of many parts are tried.
pub trait Subject<A: Allocator>: Drop + Sized {
    /// A run of the row that is to be merged.
    type Job: Mergeable<A, Self::Merged>;
    /// A run of the row with the table that it was merged into.
    type Merged: Drop;

    /// Gives the row a table with one row more, the key of a number with a value or a tombstone. It tells whether there was
    /// memory and room for it.
    fn grow<R: Wait>(&mut self, rt: &R, alloc: A, number: u64, entry: Option<u64>) -> bool;

    /// The run of the row that is to be merged next, if there is one.
    fn next_run(&self, place: &mut Option<Self::Job>);

    /// Installs the merged table of a place, and tells what became of it, or None where there is none. It is put back where
    /// there was no memory.
    fn put_in_place<R: Wait>(
        &mut self,
        rt: &R,
        place: &mut Option<Self::Merged>,
    ) -> Option<Outcome>;

    /// A copy, which what happens to the rows leaves as it is, if there is memory for it.
    fn copy(&self, alloc: A, place: &mut Option<Self>);

    /// The value of a number in the row, or None inside for a tombstone.
    fn value(&self, number: u64) -> Option<Option<u64>>;

    /// Whether the row has so many tables and no other row has one, so many were pushed under the limit of the rows, and the
    /// content of the row has exactly the numbers below `numbers`, each with itself as its value.
    fn looks(&self, tables: u32, numbers: u64, pushed: u32) -> bool;
}

/// Gives the row a table for each of these numbers, with itself as its value. It tells whether there was memory and room.
pub fn grow_to<A: Allocator + Copy, S: Subject<A>, R: Wait>(
    rt: &R,
    alloc: A,
    rows: &mut S,
    first: u64,
    end: u64,
) -> bool {
    for number in first..end {
        if !rows.grow(rt, alloc, number, Some(number)) {
            return false;
        }
    }
    true
}

/// Merges the run that is to be merged next. It tells whether there was one, and memory.
pub fn merge_next<A: Allocator, S: Subject<A>>(
    alloc: A,
    rows: &S,
    place: &mut Option<S::Merged>,
) -> bool {
    let mut job = None;
    rows.next_run(&mut job);
    let is_merged = match &job {
        Some(job) => job.merge_into(alloc, place).is_ok(),
        None => false,
    };
    drop(job);
    is_merged
}

/// Whether the merged table of a place, when it is installed, has this outcome.
pub fn installs<A: Allocator, S: Subject<A>, R: Wait>(
    rt: &R,
    rows: &mut S,
    place: &mut Option<S::Merged>,
    outcome: Outcome,
) -> bool {
    rows.put_in_place(rt, place) == Some(outcome)
}
