//! The calls by which a journal is read and grows, whatever keeps it.

ghost use Rattle.std.specs.Prelude.{◌≡◌, ◌≤◌, ◌++◌, ◌∷◌, [], List, ℕ, length, min, take, OnOk, OnErr, IfErr};
ghost use Rattle.tf_journal.specs.declared.entry.Entry.{Entry};
ghost use Rattle.tf_journal.specs.Due.{due, next_due_of};
ghost use Rattle.tf_journal.specs.Journal.{IsJournal, IsUpTo, is_failed};
ghost use Rattle.tf_journal.specs.Lawful.{IsAdmitted};
ghost use Rattle.tf_journal.specs.Ledger.{CanGrow, IsAddition};
ghost use Rattle.tf_journal.specs.Lookup.{shown_with_id, id_use_of, transfer_with_id};
ghost use Rattle.tf_journal.specs.Status.{status_at};

use crate::{Entry, IdUse, Status};
use tf_records::{Account, Refusal, TIMESTAMP_MAX, Transfer};

/// A length of a journal, to which it can be cut back.
#[derive(Clone, Copy, Debug, PartialEq, Eq)]
pub struct Mark {
    /// The number of entries.
    pub length: usize,
}

/// A journal, a clock and a kept length, in some representation.
///
/// Entries are added one by one and can be undone, last first, back to what was last kept. Timestamps are
/// given out after the clock, which is 0 at first. Times are nanoseconds.
pub trait Ledger {
    /// The entries, by rising timestamp.
    ghost journal: { Self → List Entry };

    /// The moment after which the next timestamps are given out.
    ghost clock: { Self → ℕ };

    /// How many entries stand for good.
    ghost kept: { Self → ℕ };

    /// What the ledger keeps besides, of a kind of its own.
    ghost Rest: { Type 0 };

    /// What the ledger keeps besides. Neither an entry nor an undo changes it.
    ghost rest: { Self → Rest };

    /// What of the rest lasts, of a kind of its own.
    ghost Lasting: { Type 0 };

    /// The part of the rest that lasts where entries come to stand for good.
    ghost lasting: { Rest → Lasting };

    /// The moment after which the next timestamps are given out, 0 at first. Takes no memory.
    fn clock(&self) -> u64
        ensures { result ≡ clock self.now };

    /// The account with this id, its four sums filled in, and marked as closed where it is. Takes no memory.
    fn account(&self, id: u128) -> Option<Account>
        ensures { result ≡ shown_with_id (journal self.now) id };

    /// The transfer with this id. Takes no memory.
    fn transfer(&self, id: u128) -> Option<Transfer>
        ensures { result ≡ transfer_with_id (journal self.now) id };

    /// Whether a transfer with this id failed for a passing reason. Takes no memory.
    fn failed(&self, id: u128) -> bool
        ensures { result ≡ is_failed (journal self.now) id };

    /// What a transfer id is used for: `transfer` and `failed` in one look-up. Takes no memory.
    fn id_use(&self, id: u128) -> IdUse
        ensures { result ≡ id_use_of (journal self.now) id };

    /// The status of the pending transfer with this timestamp. Takes no memory.
    fn status(&self, pending: u64) -> Option<Status>
        ensures { result ≡ status_at (journal self.now) pending };

    /// The next pending transfer to expire: of those that are open, have a timeout and whose time is over at
    /// this moment, the one that expires first; of equal ones, the one stored first. Takes no memory.
    fn next_due(&self, at: u64) -> Option<Transfer>
        ensures { result ≡ next_due_of (journal self.now) at };

    /// How many transfers are due at this moment, as `next_due` has it, counted up to `most`. Takes no memory.
    fn due_count(&self, at: u64, most: u32) -> u32
        ensures { result ≡ min most (length (due (journal self.now) at)) };

    /// Stores an account, which the journal admits. [`Refusal::NoMemory`] leaves all as it was.
    fn add_account(&mut self, account: Account) -> Result<(), Refusal>
        requires { CanGrow (journal self.old) (Entry.Account account) }
        ensures addition { IsAddition journal clock kept self.old self.new (Entry.Account account) result }
        ensures rest { rest self.new ≡ rest self.old };

    /// Stores a transfer, which the journal admits. [`Refusal::NoMemory`] leaves all as it was.
    fn add_transfer(&mut self, transfer: Transfer) -> Result<(), Refusal>
        requires { CanGrow (journal self.old) (Entry.Transfer transfer) }
        ensures addition { IsAddition journal clock kept self.old self.new (Entry.Transfer transfer) result }
        ensures rest { rest self.new ≡ rest self.old };

    /// Stores that the time of a pending transfer, named by its timestamp, is over: it is the next that is due
    /// just before this timestamp. [`Refusal::NoMemory`] leaves all as it was.
    fn add_expiry(&mut self, timestamp: u64, pending: u64) -> Result<(), Refusal>
        requires { CanGrow (journal self.old) (Entry.Expiry timestamp pending) }
        ensures addition { IsAddition journal clock kept self.old self.new (Entry.Expiry timestamp pending) result }
        ensures rest { rest self.new ≡ rest self.old };

    /// Stores that a transfer with this id failed for a passing reason. No transfer has the id, and it hasn't
    /// failed before. [`Refusal::NoMemory`] leaves all as it was.
    fn add_failed(&mut self, timestamp: u64, id: u128) -> Result<(), Refusal>
        requires { CanGrow (journal self.old) (Entry.Failed timestamp id) }
        ensures addition { IsAddition journal clock kept self.old self.new (Entry.Failed timestamp id) result }
        ensures rest { rest self.new ≡ rest self.old };

    /// The present length of the journal, which isn't below what was last kept. Takes no memory.
    fn mark(&self) -> Mark
        ensures present { result.length ≡ length (journal self.now) }
        ensures not_kept { kept self.now ≤ result.length };

    /// Cuts the journal back to a mark that isn't below what was last kept. Takes no memory.
    fn undo(&mut self, to: Mark)
        requires not_kept { kept self.old ≤ to.length }
        requires present { to.length ≤ length (journal self.old) }
        ensures cut { journal self.new ≡ take to.length (journal self.old) }
        ensures clock_kept { clock self.new ≡ clock self.old }
        ensures length_kept { kept self.new ≡ kept self.old }
        ensures rest { rest self.new ≡ rest self.old };

    /// Lets all entries stand for good, and sets the clock, to which no entry is younger. Takes no memory.
    fn keep(&mut self, moment: u64)
        requires up_to { IsUpTo moment (journal self.old) }
        requires in_range { moment ≤ TIMESTAMP_MAX }
        ensures same { journal self.new ≡ journal self.old }
        ensures clock { clock self.new ≡ moment }
        ensures all_kept { kept self.new ≡ length (journal self.old) }
        ensures lasting { lasting (rest self.new) ≡ lasting (rest self.old) };
}
