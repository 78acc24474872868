//! Rows that are tried where memory is refused, by what they can do. Whatever tries them names none of their types, which are dear
//! to own.

use std::alloc::Allocator;
use std::sync::Wait;
use tf_records::Refusal;
use tf_row_trials::Subject;

/// Rows of which one is tried, with tables that are made before they are pushed.
pub trait Tried<A: Allocator>: Subject<A> {
    /// A table that isn't pushed yet.
    type Table: Drop;

    /// Puts a table into a place that has one row, the key of a number with itself as its value.
    fn table(&self, alloc: A, number: u64, place: &mut Option<Self::Table>) -> Result<(), Refusal>;

    /// Whether a table has the key of a number.
    fn has(table: &Self::Table, number: u64) -> bool;

    /// Pushes the table of a place, and puts it in front of those of the row. It is put back where there is no room for it.
    fn put<R: Wait>(&mut self, rt: &R, place: &mut Option<Self::Table>) -> bool;

    /// How many entries a merged table has.
    fn entries(merged: &Self::Merged) -> usize;

    /// The number of the newest table of the row, or 0 without one.
    fn newest(&self) -> u128;
}
