//! How far a history has come.
ghost use Rattle.std.specs.Prelude.{◌≡◌, true, length};
ghost use Rattle.tf_history.specs.Beginning.{AreOfOne};
ghost use Rattle.tf_history.specs.History.{entries_of};
ghost use Rattle.tf_journal.specs.Lawful.{IsLawful};

use crate::law::{Chunk, Law};
use crate::name::HistoryName;
use logbook::Seen;
use std::marker::{Model, PhantomData};

/// A journal that was published, or will be at once: the history has come so far. Contracts see it as its entries.
///
/// It has no entries, but how many there are, and in how many publications they came. It may be shared and copied.
#[derive(Drop)]
pub struct Front<H: HistoryName> {
    publications: u64,
    entries: u64,
    seen: Seen<Chunk, u64, Law>,
    of: PhantomData<H>,
}

impl<H: HistoryName> Model for Front<H> {
    ghost use Rattle.std.specs.Prelude.{◌≡◌, List, length};
    ghost use Rattle.tf_journal.specs.declared.entry.Entry.{Entry};
    ghost use Rattle.tf_journal.specs.Lawful.{IsLawful};
    ghost use Rattle.tf_history.specs.History.{entries_of};

    ghost Value = { List Entry };

    ghost view = { λ f. entries_of f.seen.log };

    ghost invariant = { λ f. (f.publications ≡ length f.seen.log) × (f.entries ≡ length (entries_of f.seen.log)) × (f.seen.book ≡ H.history) × IsLawful (entries_of f.seen.log) };
}

impl<H: HistoryName> Front<H> {
    /// The front of what was seen, of so many publications with so many entries.
    pub(crate) fn of(publications: u64, entries: u64, seen: Seen<Chunk, u64, Law>) -> Front<H>
        requires book { seen.book ≡ H.history }
        requires counted { (publications ≡ length seen.log) × (entries ≡ length (entries_of seen.log)) }
        requires lawful { IsLawful (entries_of seen.log) }
        ensures { result ≡ entries_of seen.log }
    {
        Front {
            publications,
            entries,
            seen,
            of: PhantomData,
        }
    }

    /// How many entries it has.
    pub fn len(&self) -> u64
        ensures length { result ≡ length self.now }
        ensures lawful { IsLawful self.now }
    {
        self.entries
    }

    /// A copy. It takes no memory.
    pub fn again(&self) -> Front<H>
        ensures { result ≡ self.now }
    {
        Front {
            publications: self.publications,
            entries: self.entries,
            seen: self.seen.again(),
            of: PhantomData,
        }
    }

    /// Shows that two fronts are beginnings of one journal. It does nothing.
    pub fn compare(&self, other: &Front<H>)
        ensures { AreOfOne self.now other.now }
    {
        let mut both = self.seen.again();
        both.learn(&other.seen);
    }

    /// Whether both came of as many publications, and so are one journal. False says nothing of the journals.
    pub fn is_same(&self, other: &Front<H>) -> bool
        ensures { result ≡ true → self.now ≡ other.now }
    {
        let mut both = self.seen.again();
        both.learn(&other.seen);
        self.publications == other.publications
    }
}
