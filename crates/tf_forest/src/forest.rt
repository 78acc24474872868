//! The ledger whose journal its rows spell.
ghost use Rattle.std.specs.Prelude.{◌≡◌, ◌+◌, ◌-◌, ◌≤◌, [], ◌∷◌, ◌++◌, length, take, slice_get, Some, OnOk, OnErr};
ghost use Rattle.tf_rows.specs.DueSet.{AreHeld};
ghost use Rattle.tf_rows.specs.Floors.{IsFloor};
ghost use Rattle.tf_rows.specs.Spelled.{ShowTheirJournal, journal_in};
ghost use Rattle.tf_rows.specs.Nest.{AreEmpty};
ghost use Rattle.tf_rows.specs.Parts.{fresh_in};
ghost use Rattle.tf_publish.specs.Publish.{entries_waiting, tables_needed};
ghost use Rattle.tf_publish.specs.Tables.{Waits, listed, nothing_fresh};
ghost use Rattle.tf_journal.specs.declared.entry.Entry.{Entry};
ghost use Rattle.tf_journal.specs.Journal.{IsUpTo, is_failed};
ghost use Rattle.tf_journal.specs.Laws.{IsWithinLimits};
ghost use Rattle.tf_journal.specs.Lawful.{IsSound};
ghost use Rattle.tf_journal.specs.Ledger.{CanGrow, IsAddition};
ghost use Rattle.tf_journal.specs.Lookup.{id_use_of, shown_with_id, transfer_with_id};
ghost use Rattle.tf_journal.specs.Status.{status_at};

use crate::note::Notes;
use crate::used_ids::UsedIds;
use std::alloc::Allocator;
use std::marker::Model;
use tf_journal::{Entry, IdUse, Mark, Status, ids_are_unique, journals_are_within_limits};
use tf_records::{Account, Refusal, TIMESTAMP_MAX, Transfer};
use tf_rows::{
    AllRows, DueSet, Floors, Resident, account, entries_leave_sums_in_range, formers_of, id_use,
    look_up, next_entry_can_be_added, rows_answer_look_ups, rows_spell_the_journal_they_show,
    shown, status, transfer,
};
use tf_table::Key;

/// A ledger over 21 rows, with a note for each entry that isn't kept, which takes no memory of its own.
///
/// Its journal is the one that the rows spell. Contracts see the journal, the clock and the kept length. A look-up takes a
/// few look-ups in rows, whatever the journal's length, and that of an account in use one in a hash map beside them. It
/// holds 65,536 accounts at most, and where memory for one is refused it does without.
#[derive(Drop)]
pub struct Forest<S: AllRows + Drop, A: Allocator + Copy> {
    pub(crate) rows: S,
    pub(crate) notes: Notes<A>,
    pub(crate) clock: u64,
    pub(crate) kept: usize,
    pub(crate) floors: Floors,
    /// The keys of expiry, among which what is due next is looked for.
    pub(crate) due: DueSet<A>,
    /// The accounts in use, which are looked up here first.
    pub(crate) resident: Resident<A>,
    /// The ids that transfers are stored or failed with: the rows are asked for one only where it is known here.
    pub(crate) used: UsedIds<A>,
    pub(crate) alloc: A,
}

impl<S: AllRows + Drop, A: Allocator + Copy> Model for Forest<S, A> {
    ghost use Rattle.tf_forest.specs.Forest.{View};

    ghost Value = { View };

    ghost use Rattle.tf_forest.specs.Forest.{IsForest, fresh_at_marks};
    ghost use Rattle.tf_rows.specs.Spelled.{journal_in};
    ghost use Rattle.tf_rows.specs.Parts.{fresh_in};
    ghost use Rattle.tf_publish.specs.Publish.{entries_waiting, tables_needed};
    ghost use Rattle.tf_publish.specs.Tables.{listed};

    ghost view = { λ f. record { journal = journal_in (S.parts f.rows); sealed = S.sealed f.rows; fresh = listed (fresh_in (S.parts f.rows)); marks = fresh_at_marks f.notes (S.parts f.rows); needed = tables_needed (fresh_in (S.parts f.rows)) (S.sealed f.rows).tables; waiting = entries_waiting (fresh_in (S.parts f.rows)); clock = f.clock; kept = f.kept } };

    ghost invariant = { λ f. IsForest S.has_row S.fits S.takes_any (S.parts f.rows) f.notes f.kept f.clock f.floors f.due f.resident f.used };
}

impl<S: AllRows + Drop, A: Allocator + Copy> Forest<S, A> {
    /// The empty ledger, at clock 0, over rows that have nothing. It takes no memory.
    ///
    /// Its notes grow on `alloc`.
    pub fn new(alloc: A, rows: S) -> Forest<S, A>
        requires { AreEmpty (S.parts rows) }
        ensures journal { result.journal ≡ [] }
        ensures clock { result.clock ≡ 0 }
        ensures kept { result.kept ≡ 0 }
        ensures sealed { result.sealed ≡ S.sealed rows }
        ensures fresh { (result.fresh ≡ nothing_fresh) × (result.marks ≡ nothing_fresh ∷ []) }
        ensures nothing { (result.needed ≡ 0) × (result.waiting ≡ 0) }
    {
        rows_spell_the_journal_they_show();
        Forest {
            rows,
            notes: Notes::new(alloc),
            clock: 0,
            kept: 0,
            floors: Floors::new(),
            due: DueSet::new(alloc),
            resident: Resident::new(alloc),
            used: UsedIds::new(alloc),
            alloc,
        }
    }

    /// The rows, which show the journal.
    #[inline]
    pub fn rows(&self) -> &S
        ensures journal { journal_in (S.parts result.now) ≡ self.now.journal }
        ensures shows { ShowTheirJournal (S.parts result.now) }
        ensures kept { self.now.kept ≤ length self.now.journal }
        ensures fresh { listed (fresh_in (S.parts result.now)) ≡ self.now.fresh }
        ensures needed { tables_needed (fresh_in (S.parts result.now)) (S.sealed result.now).tables ≡ self.now.needed }
        ensures waiting { entries_waiting (fresh_in (S.parts result.now)) ≡ self.now.waiting }
        ensures sealed { S.sealed result.now ≡ self.now.sealed }
    {
        &self.rows
    }

    /// What always holds of the journal: it is sound and within limits, what is kept of it is there, and none of that is
    /// younger than the clock; that what the mutable tables have is what they have at the present mark, the only one where
    /// all is kept; and how many tables a publish needs, and how many entries it seals, by what the mutable tables have. It
    /// does nothing.
    pub fn facts(&self)
        ensures sound { IsSound self.now.journal }
        ensures limits { IsWithinLimits self.now.journal }
        ensures kept { self.now.kept ≤ length self.now.journal }
        ensures up_to { IsUpTo self.now.clock (take self.now.kept self.now.journal) }
        ensures present { slice_get self.now.marks (length self.now.journal - self.now.kept) ≡ Some self.now.fresh }
        ensures at_rest { self.now.kept ≡ length self.now.journal → self.now.marks ≡ self.now.fresh ∷ [] }
        ensures waits { Waits self.now.fresh self.now.sealed.tables self.now.needed self.now.waiting }
    {
        journals_are_within_limits();
        // Only a field that is read tells what holds of the whole.
        let _kept = self.kept;
    }

    /// The moment after which the next timestamps are given out, 0 at first. It takes no memory.
    #[inline]
    pub fn clock(&self) -> u64
        ensures { result ≡ self.now.clock }
    {
        self.clock
    }

    /// The account with this id, its four sums filled in, and marked as closed where it is: by one look-up among the accounts
    /// in use, and three in rows where it isn't among them.
    pub fn account(&self, id: u128) -> Option<Account>
        ensures { result ≡ shown_with_id self.now.journal id }
    {
        rows_answer_look_ups();
        match self.resident.get(id) {
            Some(party) => Some(shown(&party)),
            None => account(&self.rows, id),
        }
    }

    /// The transfer with this id: by two look-ups in rows.
    pub fn transfer(&self, id: u128) -> Option<Transfer>
        ensures { result ≡ transfer_with_id self.now.journal id }
    {
        rows_answer_look_ups();
        transfer(&self.rows, id)
    }

    /// What a transfer id is used for: of nearly all free ids by a few words of memory, and else by one look-up in a row, with one
    /// more where it is that of a stored transfer.
    pub fn id_use(&self, id: u128) -> IdUse
        ensures { result ≡ id_use_of self.now.journal id }
    {
        rows_answer_look_ups();
        if self.used.is_unused(id) {
            return IdUse::Free;
        }
        id_use(&self.rows, id)
    }

    /// Whether a transfer with this id failed for a passing reason: by the look-ups of `id_use`.
    pub fn failed(&self, id: u128) -> bool
        ensures { result ≡ is_failed self.now.journal id }
    {
        ids_are_unique();
        self.facts();
        match self.id_use(id) {
            IdUse::Failed => true,
            IdUse::Free | IdUse::Stored(_) => false,
        }
    }

    /// The status of the pending transfer with this timestamp: by one look-up in a row.
    pub fn status(&self, pending: u64) -> Option<Status>
        ensures { result ≡ status_at self.now.journal pending }
    {
        rows_answer_look_ups();
        status(&self.rows, pending)
    }

    /// Stores an account, which the journal admits. `NoMemory` leaves all as it was.
    pub fn add_account(&mut self, account: Account) -> Result<(), Refusal>
        requires { CanGrow self.old.journal (Entry.Account account) }
        ensures addition { IsAddition (λ f. f.journal) (λ f. f.clock) (λ f. f.kept) self.old self.new (Entry.Account account) result }
        ensures sealed { self.new.sealed ≡ self.old.sealed }
        ensures marks { OnOk result (self.new.marks ≡ self.old.marks ++ self.new.fresh ∷ []) }
        ensures first { slice_get self.new.marks 0 ≡ slice_get self.old.marks 0 }
        ensures err { OnErr result (self.new ≡ self.old) }
    {
        self.add(&Entry::Account(account))
    }

    /// Stores a transfer, which the journal admits, by what is looked up for it: for each of its accounts one look-up among
    /// those in use, or three more in rows, and two in rows for the pending transfer that it posts or voids. Both accounts
    /// are in use afterwards. A pending transfer that can expire takes one search of a tree more. `NoMemory` leaves all as it was.
    ///
    /// Where the filter of the ids in use is full, it takes memory for three times as many more, 2.7 bytes for each.
    pub fn add_transfer(&mut self, transfer: Transfer) -> Result<(), Refusal>
        requires { CanGrow self.old.journal (Entry.Transfer transfer) }
        ensures addition { IsAddition (λ f. f.journal) (λ f. f.clock) (λ f. f.kept) self.old self.new (Entry.Transfer transfer) result }
        ensures sealed { self.new.sealed ≡ self.old.sealed }
        ensures marks { OnOk result (self.new.marks ≡ self.old.marks ++ self.new.fresh ∷ []) }
        ensures first { slice_get self.new.marks 0 ≡ slice_get self.old.marks 0 }
        ensures err { OnErr result (self.new ≡ self.old) }
    {
        self.add(&Entry::Transfer(transfer))
    }

    /// Stores that the time of a pending transfer, named by its timestamp, is over, by what is looked up for it: two
    /// look-ups in rows for the transfer, and for each of its accounts one among those in use, or three more in rows.
    /// `NoMemory` leaves all as it was.
    pub fn add_expiry(&mut self, timestamp: u64, pending: u64) -> Result<(), Refusal>
        requires { CanGrow self.old.journal (Entry.Expiry timestamp pending) }
        ensures addition { IsAddition (λ f. f.journal) (λ f. f.clock) (λ f. f.kept) self.old self.new (Entry.Expiry timestamp pending) result }
        ensures sealed { self.new.sealed ≡ self.old.sealed }
        ensures marks { OnOk result (self.new.marks ≡ self.old.marks ++ self.new.fresh ∷ []) }
        ensures first { slice_get self.new.marks 0 ≡ slice_get self.old.marks 0 }
        ensures err { OnErr result (self.new ≡ self.old) }
    {
        self.add(&Entry::Expiry { timestamp, pending })
    }

    /// Stores that a transfer with this id failed for a passing reason. It takes memory for the rows, for the note that takes it back,
    /// and where the filter of the ids in use has no room left. `NoMemory` leaves all as it was.
    pub fn add_failed(&mut self, timestamp: u64, id: u128) -> Result<(), Refusal>
        requires { CanGrow self.old.journal (Entry.Failed timestamp id) }
        ensures addition { IsAddition (λ f. f.journal) (λ f. f.clock) (λ f. f.kept) self.old self.new (Entry.Failed timestamp id) result }
        ensures sealed { self.new.sealed ≡ self.old.sealed }
        ensures marks { OnOk result (self.new.marks ≡ self.old.marks ++ self.new.fresh ∷ []) }
        ensures first { slice_get self.new.marks 0 ≡ slice_get self.old.marks 0 }
        ensures err { OnErr result (self.new ≡ self.old) }
    {
        self.add(&Entry::Failed { timestamp, id })
    }

    /// Stores an entry, which the journal admits, and notes how it is taken back. `NoMemory` leaves all as it was.
    fn add(&mut self, entry: &Entry) -> Result<(), Refusal>
        requires { CanGrow self.old.journal entry.now }
        ensures addition { IsAddition (λ f. f.journal) (λ f. f.clock) (λ f. f.kept) self.old self.new entry.now result }
        ensures sealed { self.new.sealed ≡ self.old.sealed }
        ensures marks { OnOk result (self.new.marks ≡ self.old.marks ++ self.new.fresh ∷ []) }
        ensures first { slice_get self.new.marks 0 ≡ slice_get self.old.marks 0 }
        ensures err { OnErr result (self.new ≡ self.old) }
    {
        next_entry_can_be_added();
        rows_spell_the_journal_they_show();
        entries_leave_sums_in_range();
        rows_answer_look_ups();
        let found = look_up(&self.rows, &self.resident, entry);
        self.due.admit(entry, &found.settled)?;
        self.used.admit(entry)?;
        let formers = formers_of(&found, entry);
        match self.notes.add(&mut self.rows, &found, formers, entry) {
            Ok(()) => {}
            Err(refusal) => return Err(refusal),
        }
        self.floors = self.floors.after(entry, &found);
        self.resident.after(entry, &found);
        Ok(())
    }

    /// A key of expiry below which there is none.
    pub(crate) fn floor(&self) -> Key
        ensures { IsFloor result self.now.journal }
    {
        self.floors.present
    }

    /// The keys of expiry, of which each that has a value is held.
    pub(crate) fn due_set(&self) -> &DueSet<A>
        ensures { AreHeld result.now self.now.journal }
    {
        &self.due
    }

    /// The present length of the journal, which isn't below what was last kept. It takes no memory.
    #[inline]
    pub fn mark(&self) -> Mark
        ensures present { result.length ≡ length self.now.journal }
        ensures not_kept { self.now.kept ≤ result.length }
    {
        Mark {
            length: self.kept + self.notes.len(),
        }
    }

    /// Cuts the journal back to a mark that isn't below what was last kept. It takes no memory, and as many steps as the
    /// entries changed keys. The accounts of the entries have their former states again, and each mutable table has what it had
    /// at the mark, entry by entry.
    pub fn undo(&mut self, to: Mark)
        requires not_kept { self.old.kept ≤ to.length }
        requires present { to.length ≤ length self.old.journal }
        ensures cut { self.new.journal ≡ take to.length self.old.journal }
        ensures clock_kept { self.new.clock ≡ self.old.clock }
        ensures length_kept { self.new.kept ≡ self.old.kept }
        ensures sealed { self.new.sealed ≡ self.old.sealed }
        ensures marks { self.new.marks ≡ take (to.length - self.old.kept + 1) self.old.marks }
        ensures first { slice_get self.new.marks 0 ≡ slice_get self.old.marks 0 }
    {
        let left = to.length - self.kept;
        self.notes.undo_to(&mut self.rows, &mut self.resident, left);
        self.due.undone(&self.rows, left);
        self.floors = self.floors.back();
    }

    /// Lets all entries stand for good, and sets the clock, to which no entry is younger. It takes no memory.
    ///
    /// It takes a look-up for each pending transfer that was stored or settled since, and one search for the first key of expiry.
    /// Where as many accounts in use are held as may be, it lets go of them all.
    pub fn keep(&mut self, moment: u64)
        requires up_to { IsUpTo moment self.old.journal }
        requires in_range { moment ≤ TIMESTAMP_MAX }
        ensures same { self.new.journal ≡ self.old.journal }
        ensures clock { self.new.clock ≡ moment }
        ensures all_kept { self.new.kept ≡ length self.old.journal }
        ensures sealed { self.new.sealed ≡ self.old.sealed }
        ensures rest { self.new ≡ record self.old { marks = self.old.fresh ∷ []; clock = moment; kept = length self.old.journal } }
    {
        self.due.sweep(&self.rows);
        let first = self.due.first_from(&self.rows, &self.floors.present);
        self.floors = Floors::at(first);
        self.kept += self.notes.len();
        self.notes.clear();
        self.resident.make_place();
        self.clock = moment;
    }
}
