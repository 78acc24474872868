//! Publishing a forest.
ghost use Rattle.std.specs.Prelude.{[], ◌∷◌, ◌≡◌, ◌≢◌, ◌+◌, ◌<◌, ◌≤◌, ◌==◌, length, None, Err, Ok, OnErr, OnOk, IfOk, IfErr, IfNone, IfSome, IsOk, if◌then◌else◌};
ghost use Rattle.tf_rows.specs.Counts.{AreBounded, IsReady, counted, settled};
ghost use Rattle.tf_publish.specs.Partly.{CountsParts};
ghost use Rattle.tf_publish.specs.Tables.{Publishes, Waits, by_name, nothing_fresh};
ghost use Rattle.tf_forest.specs.Unpublished.{IsUnpublished};
ghost use Rattle.tf_manifest.specs.Shows.{Shows};
ghost use Rattle.tf_manifest.specs.View.{ShowsJournal};
ghost use Rattle.tf_rows.specs.Next.{content_in};
ghost use Rattle.tf_rows.specs.Parts.{parts_of};
ghost use Rattle.tf_records.specs.declared.refusal.Refusal.{Refusal};

use crate::Forest;
use std::alloc::Allocator;
use std::sync::Wait;
use tf_manifest::Manifest;
use tf_publish::{Prepared, Rows, has_room, prepare_rows};
use tf_records::Refusal;
use tf_registry::Naming;
use tf_rows::{Counts, MutableRows, SealRows, rows_spell_the_journal_they_show};

impl<F: SealRows<A> + Drop, A: Allocator + Copy, N: Naming> Forest<Rows<F, A, N>, A> {
    /// The first half of a publish: seals each mutable table that has an entry and puts it in front of its row's sealed
    /// tables in a copy of these, which alone shows the journal. Where a row is full, its run that is to be merged next is
    /// merged first. No other row's tables change, and all entries are kept. None where no mutable table has an entry: then
    /// it takes no memory, and the sealed tables show the journal already.
    ///
    /// It copies each entry of the mutable tables once, and the references of all tables, and may wait in a push.
    /// `RegistryFull` is answered before anything else, exactly where the tables that are needed, one for each row with
    /// entries and one more for each of those that is full, don't fit under the limit of pushes. Else the only refusal is
    /// `NoMemory`. Everything stays as it was, but that tables that were pushed are counted, and their entries, until the
    /// copy is settled, both as sealed and as held.
    pub fn prepare<R: Wait>(&mut self, rt: &R) -> Result<Option<Prepared<A, N>>, Refusal>
        requires { self.old.kept ≡ length self.old.journal }
        ensures shows { IfOk result (λ found. IfSome found (λ prepared. ShowsJournal prepared.tables self.new.journal)) }
        ensures publishes { IfOk result (λ found. IfSome found (λ prepared. Publishes (by_name self.old.fresh) (counted self.old.sealed) prepared)) }
        ensures counted { IfOk result (λ found. IfSome found (λ prepared. prepared.tables.pushed.count ≡ self.old.sealed.tables.pushed.count + self.old.needed)) }
        ensures sealed { IfOk result (λ found. IfSome found (λ prepared. prepared.sealed ≡ self.old.sealed.counts.rows_sealed + self.old.waiting)) }
        ensures ready { IfOk result (λ found. IfSome found (IsReady self.new.sealed)) }
        ensures fits { OnOk result (self.old.sealed.tables.pushed.count + self.old.needed ≤ self.old.sealed.tables.pushed.limit) }
        ensures waits { IsUnpublished self.old self.new }
        ensures parts { CountsParts (by_name self.old.fresh) self.old.sealed self.new.sealed }
        ensures none { IfOk result (λ found. IfNone found (self.old.waiting ≡ 0)) }
        ensures idle { self.old.waiting ≡ 0 → result ≡ Ok None }
        ensures still { self.old.waiting ≡ 0 → self.new ≡ self.old }
        ensures full { result ≡ Err Refusal.RegistryFull → (self.new ≡ self.old) × (self.old.sealed.tables.pushed.limit < self.old.sealed.tables.pushed.count + self.old.needed) }
        ensures refused { IfErr result (λ refusal. refusal ≢ Refusal.RegistryFull → (refusal ≡ Refusal.NoMemory) × (self.old.sealed.tables.pushed.count + self.old.needed ≤ self.old.sealed.tables.pushed.limit)) }
    {
        rows_spell_the_journal_they_show();
        if !has_room(&self.rows) {
            return Err(Refusal::RegistryFull);
        }
        prepare_rows(rt, &mut self.rows, self.alloc)
    }

    /// The second half of a publish: puts the tables that `prepare` gave in place, and takes all entries of the mutable
    /// tables away. It takes no memory.
    ///
    /// Nothing was added, published or installed since `prepare`: the tables show the journal, and all that was pushed was
    /// pushed for them.
    pub fn settle(&mut self, prepared: Prepared<A, N>)
        requires kept { self.old.kept ≡ length self.old.journal }
        requires shows { ShowsJournal prepared.tables self.old.journal }
        requires ready { IsReady self.old.sealed prepared }
        ensures { self.new ≡ record self.old { sealed = settled prepared self.old.sealed; fresh = nothing_fresh; marks = nothing_fresh ∷ []; needed = 0; waiting = 0 } }
    {
        rows_spell_the_journal_they_show();
        self.rows.published.settle(prepared);
        self.rows.fresh.clear();
    }

    /// Seals each mutable table that has an entry and puts it in front of its row's sealed tables, so that these alone show
    /// the journal: `prepare` and `settle`, one after the other. Where no mutable table has an entry, all stays as it was.
    ///
    /// Refusals are those of `prepare`. They leave everything as it was, but that tables that were pushed stay counted, and
    /// their entries both as sealed and as held.
    pub fn publish<R: Wait>(&mut self, rt: &R) -> Result<(), Refusal>
        requires { self.old.kept ≡ length self.old.journal }
        ensures journal { self.new.journal ≡ self.old.journal }
        ensures clock_kept { self.new.clock ≡ self.old.clock }
        ensures length_kept { self.new.kept ≡ self.old.kept }
        ensures shows { OnOk result (ShowsJournal self.new.sealed.tables self.new.journal) }
        ensures rows { OnOk result (Publishes (by_name self.old.fresh) (counted self.old.sealed) (counted self.new.sealed)) }
        ensures empty { OnOk result (self.new.fresh ≡ nothing_fresh) }
        ensures all { OnOk result ((self.new.needed ≡ 0) × (self.new.waiting ≡ 0)) }
        ensures counted { OnOk result (self.new.sealed.tables.pushed.count ≡ self.old.sealed.tables.pushed.count + self.old.needed) }
        ensures sealed { OnOk result (self.new.sealed.counts.rows_sealed ≡ self.old.sealed.counts.rows_sealed + self.old.waiting) }
        ensures publishes { OnOk result (self.new.sealed.counts.publishes ≡ self.old.sealed.counts.publishes + (if self.old.needed == 0 then 0 else 1)) }
        ensures fits { OnOk result (self.old.sealed.tables.pushed.count + self.old.needed ≤ self.old.sealed.tables.pushed.limit) }
        ensures err { OnErr result (IsUnpublished self.old self.new) }
        ensures parts { OnErr result (CountsParts (by_name self.old.fresh) self.old.sealed self.new.sealed) }
        ensures idle { self.old.waiting ≡ 0 → IsOk result }
        ensures still { self.old.waiting ≡ 0 → self.new ≡ self.old }
        ensures full { result ≡ Err Refusal.RegistryFull → (self.new ≡ self.old) × (self.old.sealed.tables.pushed.limit < self.old.sealed.tables.pushed.count + self.old.needed) }
        ensures refused { IfErr result (λ refusal. refusal ≢ Refusal.RegistryFull → (refusal ≡ Refusal.NoMemory) × (self.old.sealed.tables.pushed.count + self.old.needed ≤ self.old.sealed.tables.pushed.limit)) }
    {
        self.facts();
        self.facts_of_rows();
        match self.prepare(rt) {
            Ok(Some(prepared)) => {
                self.settle(prepared);
                Ok(())
            }
            Ok(None) => Ok(()),
            Err(refusal) => Err(refusal),
        }
    }
}

impl<F: MutableRows + Drop, A: Allocator + Copy, N: Naming> Forest<Rows<F, A, N>, A> {
    /// The sealed tables. It takes no memory.
    pub fn tables(&self) -> &Manifest<A, N>
        ensures { result.now ≡ self.now.sealed.tables }
    {
        self.rows.published.manifest()
    }

    /// What always holds of the rows: the mutable tables in front of the sealed ones show the journal, the sealed ones alone do
    /// where nothing waits, how many tables a publish needs and how many entries it seals by what the mutable tables have, and the
    /// counts keep their bounds. It does nothing.
    pub fn facts_of_rows(&self)
        ensures shows { Shows (content_in (parts_of (by_name self.now.fresh) self.now.sealed.tables)) self.now.journal }
        ensures alone { self.now.waiting ≡ 0 → ShowsJournal self.now.sealed.tables self.now.journal }
        ensures waits { Waits self.now.fresh self.now.sealed.tables self.now.needed self.now.waiting }
        ensures bounded { AreBounded self.now.sealed }
    {
        // Only a field that is read tells what holds of the whole.
        let published = &self.rows.published;
        let _counts = published.counts();
    }

    /// How many entries were sealed, how many all pushed tables have, and how many publishes pushed a table: all 0 at first.
    ///
    /// All tables pushed and the references in all rows together are at most 42 times the publishes, what is held is at most
    /// 21 times what was sealed, and no row has more than 64 references.
    pub fn counts(&self) -> Counts
        ensures value { result ≡ self.now.sealed.counts }
        ensures bounded { AreBounded self.now.sealed }
    {
        self.rows.published.counts()
    }
}
