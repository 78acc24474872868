//! A row's mutable table, sealed.
ghost use Rattle.std.specs.Prelude.{◌≡◌, length};
ghost use Rattle.tf_rows.specs.SealedRow.{entries_of_sealed};

use std::alloc::Allocator;
use tf_journal::Status;
use tf_manifest::{IdStamp, StampRow, State, Stored, UnitRow};
use tf_records::{Account, Sums, Transfer};
use tf_table::Sealed;

/// The entries of a row's mutable table as a sealed table, which isn't pushed yet.
#[derive(Drop)]
pub enum SealedRow<A: Allocator> {
    Stamp(StampRow, Sealed<u64, A>),
    Account(Sealed<Stored<Account>, A>),
    Transfer(Sealed<Stored<Transfer>, A>),
    Id(Sealed<IdStamp, A>),
    Unit(UnitRow, Sealed<(), A>),
    State(Sealed<State, A>),
    Sums(Sealed<Stored<Sums>, A>),
    Status(Sealed<Stored<Status>, A>),
}

impl<A: Allocator> SealedRow<A> {
    /// How many entries it has.
    pub fn entries(&self) -> usize
        ensures { result ≡ length (entries_of_sealed self.now) }
    {
        match self {
            SealedRow::Stamp(_, table) => table.len(),
            SealedRow::Account(table) => table.len(),
            SealedRow::Transfer(table) => table.len(),
            SealedRow::Id(table) => table.len(),
            SealedRow::Unit(_, table) => table.len(),
            SealedRow::State(table) => table.len(),
            SealedRow::Sums(table) => table.len(),
            SealedRow::Status(table) => table.len(),
        }
    }
}
