//! Notes that take the last entries of rows back.
ghost use Rattle.std.specs.Prelude.{◌≡◌, ◌+◌, ◌-◌, ◌∷◌, ◌++◌, ◌≤◌, [], List, length, take, OnOk, OnErr, IfErr};
ghost use Rattle.tf_journal.specs.declared.entry.Entry.{Entry};
ghost use Rattle.tf_journal.specs.Lawful.{IsSound};
ghost use Rattle.tf_journal.specs.Ledger.{CanGrow};
ghost use Rattle.tf_manifest.specs.Shows.{Shows};
ghost use Rattle.tf_rows.specs.Changes.{CanChangeAll, CanStepAll, all_changed, all_stepped};
ghost use Rattle.tf_rows.specs.Edits.{found_for, party_of};
ghost use Rattle.tf_rows.specs.Next.{changes_by, content_in};
ghost use Rattle.tf_rows.specs.Range.{LeavesInRange};
ghost use Rattle.tf_rows.specs.Resident.{Accounts, AreAmong, accounts_before};
ghost use Rattle.tf_rows.specs.Spelled.{ShowTheirJournal, journal_in};
ghost use Rattle.tf_forest.specs.Forest.{AreRight, IsCut, Noted, fresh_at_marks};
ghost use Rattle.tf_forest.specs.Notes.{IsNoted};

use std::alloc::Allocator;
use std::marker::Model;
use tf_journal::Entry;
use tf_records::Refusal;
use tf_rows::{Formers, Found, Resident, RowSet, Steps, add_entry, take_steps};

/// Of an entry: how many steps take it back, and the accounts that it changed as they were.
#[derive(Clone, Copy)]
pub(crate) struct Note {
    steps: usize,
    formers: Formers,
}

/// What takes entries back, the newest first: for each its steps in the rows, and the accounts that it changed as they were.
///
/// The steps of all entries lie behind one another, so that a note takes no memory of its own; the room for them doubles where
/// it is full, and `clear` keeps it. Contracts see a list of notes, the oldest first.
#[derive(Drop)]
pub(crate) struct Notes<A: Allocator> {
    notes: Vec<Note, A>,
    steps: Steps<A>,
}

impl<A: Allocator> Model for Notes<A> {
    ghost use Rattle.std.specs.Prelude.{◌≡◌, List, length};
    ghost use Rattle.tf_forest.specs.Forest.{Noted};

    ghost Value = { List Noted };

    ghost use Rattle.tf_forest.specs.Notes.{noted, step_count};

    ghost view = { λ n. noted n.notes.items n.steps };

    ghost invariant = { λ n. step_count n.notes.items ≡ length n.steps };
}

impl<A: Allocator + Copy> Notes<A> {
    /// No note. It takes no memory.
    pub(crate) fn new(alloc: A) -> Notes<A>
        ensures { result ≡ [] }
    {
        Notes {
            notes: Vec::new(alloc),
            steps: Steps::new(alloc),
        }
    }

    /// How many entries have a note.
    pub(crate) fn len(&self) -> usize
        ensures { result ≡ length self.now }
    {
        self.notes.len()
    }

    /// Forgets all. It takes no memory.
    pub(crate) fn clear(&mut self)
        ensures { self.new ≡ [] }
    {
        self.notes.clear();
        self.steps.clear();
    }

    /// Adds an entry to rows that show a journal which admits it, by what was looked up for it, and notes how it
    /// is taken back, with the accounts that it changes as they were.
    ///
    /// The only refusal is `NoMemory`, and all is then as it was.
    pub(crate) fn add<S: RowSet>(
        &mut self,
        rows: &mut S,
        found: &Found,
        formers: Formers,
        entry: &Entry,
    ) -> Result<(), Refusal>
        requires range { LeavesInRange found.now entry.now }
        requires can { CanChangeAll S.has_row S.fits S.takes_any (changes_by found.now entry.now) (S.parts rows.old) }
        ensures shows { (journal : List Entry) → IsSound journal → CanGrow journal entry.now → found.now ≡ found_for journal entry.now → Shows (content_in (S.parts rows.old)) journal → OnOk result (Shows (content_in (S.parts rows.new)) (journal ++ entry.now ∷ [])) }
        ensures rows { OnOk result (S.parts rows.new ≡ all_changed (changes_by found.now entry.now) (S.parts rows.old)) }
        ensures noted { OnOk result (IsNoted S.has_row S.fits S.takes_any formers self.old self.new (S.parts rows.old) (S.parts rows.new)) }
        ensures sealed { S.sealed rows.new ≡ S.sealed rows.old }
        ensures err { OnErr result ((S.parts rows.new ≡ S.parts rows.old) × (self.new ≡ self.old)) }
        ensures refusal { IfErr result (λ refusal. refusal ≡ Refusal.NoMemory) }
    {
        if self.notes.reserve(1).is_err() {
            return Err(Refusal::NoMemory);
        }
        let from = self.steps.len();
        match add_entry(rows, &mut self.steps, found, entry) {
            Ok(()) => {
                self.notes.push_reserved(Note {
                    steps: self.steps.len() - from,
                    formers,
                });
                Ok(())
            }
            Err(refusal) => Err(refusal),
        }
    }

    /// Takes the newest entry back, if there is one. It takes no memory.
    fn take_back<S: RowSet>(&mut self, rows: &mut S, resident: &mut Resident<A>)
        requires { (others : List Noted) (last : Noted) → self.old ≡ others ++ last ∷ [] → CanStepAll S.has_row S.fits S.takes_any last.steps (S.parts rows.old) }
        ensures rows { (others : List Noted) (last : Noted) → self.old ≡ others ++ last ∷ [] → S.parts rows.new ≡ all_stepped last.steps (S.parts rows.old) }
        ensures others { (others : List Noted) (last : Noted) → self.old ≡ others ++ last ∷ [] → self.new ≡ others }
        ensures resident { (others : List Noted) (last : Noted) → self.old ≡ others ++ last ∷ [] → (accounts : Accounts) → AreAmong accounts resident.old → AreAmong (accounts_before last.formers accounts) resident.new }
        ensures sealed { S.sealed rows.new ≡ S.sealed rows.old }
    {
        let Some(note) = self.notes.pop() else {
            return;
        };
        resident.back(&note.formers);
        let left = self.steps.len() - note.steps;
        take_steps(rows, &mut self.steps, left);
    }

    /// Takes the newest entries back until so many notes are left. It takes no memory.
    pub(crate) fn undo_to<S: RowSet>(
        &mut self,
        rows: &mut S,
        resident: &mut Resident<A>,
        left: usize,
    )
        requires shows { ShowTheirJournal (S.parts rows.old) }
        requires right { AreRight S.has_row S.fits S.takes_any self.old (S.parts rows.old) }
        requires left { left ≤ length self.old }
        requires resident { AreAmong (party_of (journal_in (S.parts rows.old))) resident.old }
        ensures shows { ShowTheirJournal (S.parts rows.new) }
        ensures right { AreRight S.has_row S.fits S.takes_any self.new (S.parts rows.new) }
        ensures left { length self.new ≡ left }
        ensures cut { IsCut (journal_in (S.parts rows.old)) (journal_in (S.parts rows.new)) (length self.old - left) }
        ensures marks { fresh_at_marks self.new (S.parts rows.new) ≡ take (left + 1) (fresh_at_marks self.old (S.parts rows.old)) }
        ensures sealed { S.sealed rows.new ≡ S.sealed rows.old }
        ensures resident { AreAmong (party_of (journal_in (S.parts rows.new))) resident.new }
    {
        while self.len() > left {
            self.take_back(rows, resident);
        }
    }
}
