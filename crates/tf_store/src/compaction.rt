//! Sealed tables of a store that are merged, outside the lock between `pick` and `install`.
ghost use Rattle.std.specs.Prelude.{◌≡◌, ◌+◌, ◌<◌, ◌≤◌, ℕ, length, OnOk, OnErr, IfErr, IfOk, IfSome, IfNone, IsSome};
ghost use Rattle.tf_registry.specs.Install.{IfNoMemory, OnFull, OnStale};
ghost use Rattle.tf_manifest.specs.Jobs.{InstallsIn, IsPickedFrom, StandsIn, output_of};
ghost use Rattle.tf_manifest.specs.Kinds.{kind_of};
ghost use Rattle.tf_registry.specs.Run.{count_at};
ghost use Rattle.tf_manifest.specs.View.{references_in, tables_by};
ghost use Rattle.tf_manifest.specs.declared.row.Row.{Row};

use crate::{Store, StoreName, StoredCopies};
use std::alloc::{AllocError, Allocator};
use std::sync::Wait;
use tf_forest::Forest;
use tf_manifest::{Job, Merged, Row};
use tf_publish::Rows;
use tf_registry::Uninstalled;
use tf_rows::MutableRows;

impl<T: MutableRows + Drop, C: StoredCopies + Drop, A: Allocator + Copy, S: StoreName> Store<
    Forest<Rows<T, A, S>, A>,
    C,
    A,
    S,
> {
    /// The run of two tables of a row that its levels name to be merged next, `None` where they name none. It takes no
    /// memory, and is refused only where a table of the run has 2^63 - 1 owners. The job is merged outside the lock.
    pub fn pick(&self, row: Row) -> Result<Option<Job<A, S>>, AllocError>
        ensures some { IfOk result (λ found. IfSome found (IsPickedFrom self.now.forest.sealed.tables row)) }
        ensures none { IfOk result (λ found. IfNone found ((level : ℕ) → count_at level (tables_by self.now.forest.sealed.tables (kind_of row)) < 4)) }
        ensures full { references_in self.now.forest.sealed.tables row ≡ 64 → IfOk result IsSome }
        ensures err { OnErr result ((level : ℕ) × (4 ≤ count_at level (tables_by self.now.forest.sealed.tables (kind_of row)))) }
    {
        self.forest.pick(row)
    }

    /// Puts a merged table in the place of its run, whatever was stored, published and installed since the run was picked:
    /// `Stale` exactly where the run no longer stands in its row; else `RegistryFull` exactly where the tables pushed are
    /// at their limit; else only `NoMemory`, which hands the table back. A refusal leaves all as it was, and what mutable
    /// tables have stays in any case. It may wait in the push.
    ///
    /// Readers see the table from the next publish on that has something to show. Takes a walk over the row's references.
    pub fn install<R: Wait>(
        &mut self,
        rt: &R,
        merged: Merged<A, S>,
    ) -> Result<(), Uninstalled<Merged<A, S>>>
        ensures journal { self.new.forest.journal ≡ self.old.forest.journal }
        ensures clock_kept { self.new.forest.clock ≡ self.old.forest.clock }
        ensures length_kept { self.new.forest.kept ≡ self.old.forest.kept }
        ensures entries { (self.new.forest.fresh ≡ self.old.forest.fresh) × (self.new.forest.waiting ≡ self.old.forest.waiting) }
        ensures waiting { self.new.waiting ≡ self.old.waiting }
        ensures readable { self.new.readable ≡ self.old.readable }
        ensures installs { OnOk result (InstallsIn self.old.forest.sealed.tables merged self.new.forest.sealed.tables) }
        ensures counts { OnOk result (self.new.forest.sealed.counts ≡ record self.old.forest.sealed.counts { rows_held = self.old.forest.sealed.counts.rows_held + length (output_of merged).table.rows }) }
        ensures room { OnOk result (self.old.forest.sealed.tables.pushed.count < self.old.forest.sealed.tables.pushed.limit) }
        ensures err { OnErr result (self.new ≡ self.old) }
        ensures stale { IfErr result (λ e. OnStale e (StandsIn self.old.forest.sealed.tables merged → ⊥)) }
        ensures full { IfErr result (λ e. OnFull e (StandsIn self.old.forest.sealed.tables merged × (self.old.forest.sealed.tables.pushed.count ≡ self.old.forest.sealed.tables.pushed.limit))) }
        ensures no_memory { IfErr result (λ e. IfNoMemory e (λ m. StandsIn self.old.forest.sealed.tables merged × (self.old.forest.sealed.tables.pushed.count < self.old.forest.sealed.tables.pushed.limit))) }
        ensures back { IfErr result (λ e. IfNoMemory e (λ m. m ≡ merged)) }
    {
        self.forest.install(rt, merged)
    }
}
