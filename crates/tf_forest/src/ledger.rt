//! The forest as a ledger: what adds entries to it judges them by the same calls as over any other.
use crate::Forest;
use std::alloc::Allocator;
use tf_journal::{IdUse, Ledger, Mark, Status};
use tf_records::{Account, Refusal, Transfer};
use tf_rows::AllRows;

impl<S: AllRows + Drop, A: Allocator + Copy> Ledger for Forest<S, A> {
    ghost journal = { λ forest. forest.journal };

    ghost clock = { λ forest. forest.clock };

    ghost kept = { λ forest. forest.kept };

    ghost use Rattle.std.specs.Prelude.{List, Option, slice_get};
    ghost use Rattle.tf_table.specs.declared.key.Key.{Key};
    ghost use Rattle.tf_manifest.specs.declared.value.Value.{Value};
    ghost use Rattle.tf_rows.specs.Counts.{Sealed};

    // The sealed tables, and what the mutable ones had when the journal was last kept.
    ghost Rest = { Sealed × Option (List (List (Key × Option Value))) };

    ghost rest = { λ forest. (forest.sealed, slice_get forest.marks 0) };

    ghost Lasting = { Sealed };

    ghost lasting = { λ rest. rest.0 };

    fn clock(&self) -> u64 {
        Forest::clock(self)
    }

    fn account(&self, id: u128) -> Option<Account> {
        Forest::account(self, id)
    }

    fn transfer(&self, id: u128) -> Option<Transfer> {
        Forest::transfer(self, id)
    }

    fn failed(&self, id: u128) -> bool {
        Forest::failed(self, id)
    }

    fn id_use(&self, id: u128) -> IdUse {
        Forest::id_use(self, id)
    }

    fn status(&self, pending: u64) -> Option<Status> {
        Forest::status(self, pending)
    }

    fn next_due(&self, at: u64) -> Option<Transfer> {
        Forest::next_due(self, at)
    }

    fn due_count(&self, at: u64, most: u32) -> u32 {
        Forest::due_count(self, at, most)
    }

    fn add_account(&mut self, account: Account) -> Result<(), Refusal> {
        Forest::add_account(self, account)
    }

    fn add_transfer(&mut self, transfer: Transfer) -> Result<(), Refusal> {
        Forest::add_transfer(self, transfer)
    }

    fn add_expiry(&mut self, timestamp: u64, pending: u64) -> Result<(), Refusal> {
        Forest::add_expiry(self, timestamp, pending)
    }

    fn add_failed(&mut self, timestamp: u64, id: u128) -> Result<(), Refusal> {
        Forest::add_failed(self, timestamp, id)
    }

    fn mark(&self) -> Mark {
        Forest::mark(self)
    }

    fn undo(&mut self, to: Mark) {
        Forest::undo(self, to);
    }

    fn keep(&mut self, moment: u64) {
        Forest::keep(self, moment);
    }
}
