//! Jobs of all rows, and what their merges give.

use crate::{IdStamp, StampRow, State, Stored, UnitRow};
use std::alloc::Allocator;
use tf_journal::Status;
use tf_records::{Account, Sums, Transfer};
use tf_registry::{Job as RowJob, Merged as RowMerged, Naming};

/// Two adjacent tables of a row, to be merged. It owns them with others, and borrows nothing.
#[derive(Drop)]
pub enum Job<A: Allocator, N: Naming> {
    Stamp(StampRow, RowJob<u64, A, N>),
    Account(RowJob<Stored<Account>, A, N>),
    Transfer(RowJob<Stored<Transfer>, A, N>),
    Id(RowJob<IdStamp, A, N>),
    Unit(UnitRow, RowJob<(), A, N>),
    State(RowJob<State, A, N>),
    Sums(RowJob<Stored<Sums>, A, N>),
    Status(RowJob<Stored<Status>, A, N>),
}

/// A job with the table that it was merged into.
#[derive(Drop)]
pub enum Merged<A: Allocator, N: Naming> {
    Stamp(StampRow, RowMerged<u64, A, N>),
    Account(RowMerged<Stored<Account>, A, N>),
    Transfer(RowMerged<Stored<Transfer>, A, N>),
    Id(RowMerged<IdStamp, A, N>),
    Unit(UnitRow, RowMerged<(), A, N>),
    State(RowMerged<State, A, N>),
    Sums(RowMerged<Stored<Sums>, A, N>),
    Status(RowMerged<Stored<Status>, A, N>),
}
