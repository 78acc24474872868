//! What lies under the lock.
ghost use mathlib.Core.List.{IsPrefix};
ghost use Rattle.std.specs.Prelude.{◌≡◌, ◌+◌, ◌*◌, ◌≤◌, length, take};
ghost use Rattle.tf_journal.specs.Journal.{IsUpTo};
ghost use Rattle.tf_journal.specs.Laws.{IsWithinLimits};
ghost use Rattle.tf_journal.specs.Lawful.{IsLawful, IsLawfulAt};
ghost use Rattle.tf_rows.specs.Counts.{AreBounded};
ghost use Rattle.tf_store.specs.Book.{book_of, failed_of};

use crate::public::Public;
use crate::queue::Queue;
use crate::tally::Tally;
use crate::{StoreName, StoredCopies};
use std::alloc::Allocator;
use std::marker::Model;
use tf_forest::Forest;
use tf_manifest::Manifest;
use tf_publish::Rows;
use tf_rows::{AllRows, MutableRows};

/// A ledger that a store can have: what contracts see of it is what they see of a forest.
pub trait StoredForest {
    ghost use Rattle.tf_forest.specs.Forest.{View};

    /// The journal, the sealed tables and the other parts of a forest.
    ghost seen: { Self → View };
}

impl<R: AllRows + Drop, A: Allocator + Copy> StoredForest for Forest<R, A> {
    ghost seen = { λ forest. forest };
}

/// A store over the mutable tables `T`, whose readers enter `C`.
pub type StoreOf<T, C, A, S> = Store<Forest<Rows<T, A, S>, A>, C, A, S>;

/// A ledger with versions: its forest, what readers see of it, what its shares count, and the batches whose receipts wait. It is
/// the state that a lock guards.
///
/// Contracts see the forest, the journal that readers can see, and the receipts that wait. Whenever nothing is called on it, its
/// journal is lawful, all of it is kept, no entry is younger than the clock, its rows are those of the journal, and the sum of
/// its shares is its book: see `forest`, `book` and `gather`.
#[derive(Drop)]
pub struct Store<
    F: StoredForest + Drop,
    C: StoredCopies + Drop,
    A: Allocator + Copy,
    S: StoreName,
> {
    pub(crate) forest: F,
    pub(crate) tally: Tally<S>,
    pub(crate) public: Public<C, A, S>,
    pub(crate) queue: Queue<A, S>,
    pub(crate) alloc: A,
}

impl<F: StoredForest + Drop, C: StoredCopies + Drop, A: Allocator + Copy, S: StoreName> Model
    for Store<F, C, A, S> {
    ghost use Rattle.std.specs.Prelude.{map};
    ghost use Rattle.tf_store.specs.Receipt.{receipt_of};
    ghost use Rattle.tf_store.specs.Store.{IsStore, View};

    ghost Value = { View };

    ghost view = { λ s. record { forest = F.seen s.forest; readable = s.public.readable; waiting = map (receipt_of (F.seen s.forest).journal) s.queue.waiting } };

    ghost invariant = { λ s. IsStore (F.seen s.forest) s.tally s.public s.queue.waiting };
}

impl<R: AllRows + Drop, C: StoredCopies + Drop, A: Allocator + Copy, S: StoreName> Store<
    Forest<R, A>,
    C,
    A,
    S,
> {
    /// The forest, for look-ups and counts: its rows show the journal, all of which is kept. It takes no memory.
    ///
    /// Every account's balances and limits, every index and the expiry index are those of the journal: `rows` of the forest
    /// says so of the rows, and `facts` of the journal.
    pub fn forest(&self) -> &Forest<R, A>
        ensures forest { result.now ≡ self.now.forest }
        ensures lawful { IsLawfulAt self.now.forest.clock self.now.forest.journal }
        ensures kept { self.now.forest.kept ≡ length self.now.forest.journal }
    {
        &self.forest
    }

    /// How many accounts, transfers and expiries are stored: the sum of all shares. It takes no memory.
    pub fn book(&self) -> u64
        ensures { result ≡ book_of self.now.forest.journal }
    {
        self.tally.count()
    }

    /// How many ids failed for a passing reason. It takes no memory.
    pub fn failed_book(&self) -> u64
        ensures { result ≡ failed_of self.now.forest.journal }
    {
        self.forest.mark().length as u64 - self.tally.count()
    }
}

impl<T: MutableRows + Drop, C: StoredCopies + Drop, A: Allocator + Copy, S: StoreName> Store<
    Forest<Rows<T, A, S>, A>,
    C,
    A,
    S,
> {
    /// The sealed tables. It takes no memory.
    pub fn tables(&self) -> &Manifest<A, S>
        ensures { result.now ≡ self.now.forest.sealed.tables }
    {
        self.forest.tables()
    }

    /// How many tables were pushed into the registries. It takes no memory.
    pub fn registered(&self) -> u32
        ensures { result ≡ self.now.forest.sealed.tables.pushed.count }
    {
        self.forest.tables().pushed()
    }

    /// How many entries of mutable tables were sealed. It takes no memory.
    pub fn rows_sealed(&self) -> u128
        ensures value { result ≡ self.now.forest.sealed.counts.rows_sealed }
        ensures bounded { AreBounded self.now.forest.sealed }
    {
        self.forest.counts().rows_sealed
    }

    /// How many entries all tables pushed have: at most 21 times those sealed. It takes no memory.
    pub fn rows_held(&self) -> u128
        ensures value { result ≡ self.now.forest.sealed.counts.rows_held }
        ensures bounded { AreBounded self.now.forest.sealed }
    {
        self.forest.counts().rows_held
    }
}
