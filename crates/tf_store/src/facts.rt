//! What always holds of a store.
ghost use mathlib.Core.List.{IsPrefix};
ghost use Rattle.std.specs.Prelude.{◌≡◌, length};
ghost use Rattle.std.specs.List.{All};
ghost use Rattle.tf_journal.specs.Laws.{IsWithinLimits};
ghost use Rattle.tf_journal.specs.Lawful.{IsLawfulAt};
ghost use Rattle.tf_manifest.specs.Shows.{Shows};
ghost use Rattle.tf_publish.specs.Tables.{by_name};
ghost use Rattle.tf_rows.specs.Counts.{AreBounded};
ghost use Rattle.tf_rows.specs.Next.{content_in};
ghost use Rattle.tf_rows.specs.Parts.{parts_of};
ghost use Rattle.tf_store.specs.Book.{book_of};
ghost use Rattle.tf_store.specs.Receipt.{IsReceiptOf};

use crate::{Store, StoreName, StoredCopies};
use std::alloc::Allocator;
use tf_forest::Forest;
use tf_journal::journals_are_within_limits;
use tf_publish::Rows;
use tf_rows::MutableRows;

impl<T: MutableRows + Drop, C: StoredCopies + Drop, A: Allocator + Copy, S: StoreName> Store<
    Forest<Rows<T, A, S>, A>,
    C,
    A,
    S,
> {
    /// What holds of every store whenever nothing is called on it, and its book. It takes no memory, and takes no time that grows
    /// with the store.
    ///
    /// - The journal is lawful at the clock, so no entry is younger than it, and within limits: no sum of an account passes
    ///   2^128 - 1, and an account with a limit stays within it. All of it is kept.
    /// - Every account's balances, its limits, every index and the expiry index are those of the journal: each of the 21 rows, by
    ///   its mutable and its sealed tables together, has what the journal's row has.
    /// - What readers can see begins the journal.
    /// - Each waiting receipt is one, and its two journals begin the store's.
    /// - References, pushes and the entries of pushed tables keep their bounds.
    /// - The book, which the shares add up to, is that of the journal: what this answers.
    pub fn facts(&self) -> u64
        ensures lawful { IsLawfulAt self.now.forest.clock self.now.forest.journal }
        ensures limits { IsWithinLimits self.now.forest.journal }
        ensures kept { self.now.forest.kept ≡ length self.now.forest.journal }
        ensures rows { Shows (content_in (parts_of (by_name self.now.forest.fresh) self.now.forest.sealed.tables)) self.now.forest.journal }
        ensures readable { IsPrefix self.now.readable self.now.forest.journal }
        ensures receipts { All (IsReceiptOf self.now.forest.journal) self.now.waiting }
        ensures bounded { AreBounded self.now.forest.sealed }
        ensures book { result ≡ book_of self.now.forest.journal }
    {
        journals_are_within_limits();
        self.forest.facts_of_rows();
        self.tally.count()
    }
}
