//! A ledger that keeps its journal as a list.

ghost use Rattle.std.specs.Prelude.{◌≡◌, ◌≤◌, ◌++◌, ◌∷◌, [], length, OnErr, OnOk, IfErr};
ghost use Rattle.tf_journal.specs.Lawful.{IsSound};

use crate::balances::show;
use crate::expiry::{count_due, next_due};
use crate::walk::{find_account, find_pending, find_transfer, has_failed, status};
use crate::{Entry, IdUse, Ledger, Mark, Status};
use std::alloc::Allocator;
use tf_records::{Account, Refusal, Transfer};

/// The plain ledger: the list of its entries and nothing else. Each look-up walks over the whole list, so a
/// call takes time in proportion to its length. An account is shown by one pass, with a walk more for each of
/// its posts and voids, for each expiry, and for each transfer that may close it; `next_due` and `due_count`
/// walk once more for each transfer whose status they look at. `clock`, `mark` and `keep` take no walk.
#[derive(Drop)]
pub struct PlainLedger<A: Allocator> {
    entries: Vec<Entry, A>,
    clock: u64,
    kept: usize,
    ghost kept_is_present: { kept ≤ length entries.items },
    ghost sound: { ∥ IsSound entries.items ∥₁ },
}

impl<A: Allocator> PlainLedger<A> {
    ghost use Rattle.tf_journal.specs.declared.entry.Entry.{Entry};
    ghost use Rattle.tf_journal.specs.Ledger.{CanGrow, IsAddition};

    /// The empty ledger, at clock 0. Takes no memory.
    pub fn new(alloc: A) -> Self
        ensures journal { ⟦<PlainLedger<A> as Ledger>⟧.journal result ≡ [] }
        ensures clock { ⟦<PlainLedger<A> as Ledger>⟧.clock result ≡ 0 }
        ensures kept { ⟦<PlainLedger<A> as Ledger>⟧.kept result ≡ 0 }
    {
        PlainLedger {
            entries: Vec::new(alloc),
            clock: 0,
            kept: 0,
        }
    }

    /// The journal. Takes no memory.
    pub fn entries(&self) -> &[Entry]
        ensures journal { result.now ≡ ⟦<PlainLedger<A> as Ledger>⟧.journal self.now }
        ensures sound { ∥ IsSound result.now ∥₁ }
    {
        self.entries.as_slice()
    }

    /// Puts an entry at the end of the list.
    fn add(&mut self, entry: Entry) -> Result<(), Refusal>
        requires { CanGrow self.old.entries.items entry }
        ensures { IsAddition (λ l. l.entries.items) (λ l. l.clock) (λ l. l.kept) self.old self.new entry result }
    {
        match self.entries.push(entry) {
            Ok(()) => Ok(()),
            Err(_) => Err(Refusal::NoMemory),
        }
    }
}

impl<A: Allocator> Ledger for PlainLedger<A> {
    ghost use Rattle.std.specs.Prelude.{length};

    ghost journal = { λ ledger. ledger.entries.items };

    ghost clock = { λ ledger. ledger.clock };

    ghost kept = { λ ledger. ledger.kept };

    ghost Rest = { Unit {0} };

    ghost rest = { λ _. tt };

    ghost Lasting = { Unit {0} };

    ghost lasting = { λ _. tt };

    fn clock(&self) -> u64 {
        self.clock
    }

    fn account(&self, id: u128) -> Option<Account> {
        let stored = find_account(self.entries.as_slice(), id)?;
        Some(show(self.entries.as_slice(), &stored))
    }

    fn transfer(&self, id: u128) -> Option<Transfer> {
        find_transfer(self.entries.as_slice(), id)
    }

    fn failed(&self, id: u128) -> bool {
        has_failed(self.entries.as_slice(), id)
    }

    fn id_use(&self, id: u128) -> IdUse {
        match find_transfer(self.entries.as_slice(), id) {
            Some(transfer) => IdUse::Stored(transfer),
            None => {
                if has_failed(self.entries.as_slice(), id) {
                    IdUse::Failed
                } else {
                    IdUse::Free
                }
            }
        }
    }

    fn status(&self, pending: u64) -> Option<Status> {
        let transfer = find_pending(self.entries.as_slice(), pending)?;
        Some(status(self.entries.as_slice(), &transfer))
    }

    fn next_due(&self, at: u64) -> Option<Transfer> {
        next_due(self.entries.as_slice(), at)
    }

    fn due_count(&self, at: u64, most: u32) -> u32 {
        count_due(self.entries.as_slice(), at, most)
    }

    fn add_account(&mut self, account: Account) -> Result<(), Refusal> {
        self.add(Entry::Account(account))
    }

    fn add_transfer(&mut self, transfer: Transfer) -> Result<(), Refusal> {
        self.add(Entry::Transfer(transfer))
    }

    fn add_expiry(&mut self, timestamp: u64, pending: u64) -> Result<(), Refusal> {
        self.add(Entry::Expiry { timestamp, pending })
    }

    fn add_failed(&mut self, timestamp: u64, id: u128) -> Result<(), Refusal> {
        self.add(Entry::Failed { timestamp, id })
    }

    fn mark(&self) -> Mark {
        Mark {
            length: self.entries.len(),
        }
    }

    fn undo(&mut self, to: Mark) {
        self.entries.truncate(to.length);
    }

    fn keep(&mut self, moment: u64) {
        self.clock = moment;
        self.kept = self.entries.len();
    }
}
