//! Sealed tables of a forest that are merged.
ghost use Rattle.std.specs.Prelude.{◌≡◌, ◌+◌, ◌<◌, ◌≤◌, ℕ, length, OnOk, OnErr, IfErr, IfOk, IfSome, IfNone, IsSome};
ghost use Rattle.tf_registry.specs.Install.{IfNoMemory, OnFull, OnStale};
ghost use Rattle.tf_manifest.specs.Jobs.{InstallsIn, IsPickedFrom, StandsIn, output_of};
ghost use Rattle.tf_manifest.specs.Kinds.{kind_of};
ghost use Rattle.tf_registry.specs.Run.{count_at};
ghost use Rattle.tf_manifest.specs.View.{content_in, references_in, tables_by};
ghost use Rattle.tf_manifest.specs.declared.row.Row.{Row};
ghost use Rattle.tf_table.specs.declared.key.Key.{Key};

use crate::Forest;
use std::alloc::{AllocError, Allocator};
use std::sync::Wait;
use tf_manifest::{Job, Merged, Row};
use tf_publish::Rows;
use tf_registry::{Naming, Uninstalled};
use tf_rows::{MutableRows, rows_spell_the_journal_they_show};

impl<F: MutableRows + Drop, A: Allocator + Copy, N: Naming> Forest<Rows<F, A, N>, A> {
    /// The run of a row to merge next, as `Manifest::pick` has it. It takes no memory, and is refused only where a table of the
    /// run has 2^63 - 1 owners.
    pub fn pick(&self, row: Row) -> Result<Option<Job<A, N>>, AllocError>
        ensures some { IfOk result (λ found. IfSome found (IsPickedFrom self.now.sealed.tables row)) }
        ensures none { IfOk result (λ found. IfNone found ((level : ℕ) → count_at level (tables_by self.now.sealed.tables (kind_of row)) < 4)) }
        ensures full { references_in self.now.sealed.tables row ≡ 64 → IfOk result IsSome }
        ensures err { OnErr result ((level : ℕ) × (4 ≤ count_at level (tables_by self.now.sealed.tables (kind_of row)))) }
    {
        self.rows.published.manifest().pick(row)
    }

    /// Puts a merged table in the place of its run, as `Manifest::install` does, and counts its entries as held. All entries
    /// are kept, and the journal stays. It may wait in the push.
    pub fn install<R: Wait>(
        &mut self,
        rt: &R,
        merged: Merged<A, N>,
    ) -> Result<(), Uninstalled<Merged<A, N>>>
        requires { self.old.kept ≡ length self.old.journal }
        ensures journal { self.new.journal ≡ self.old.journal }
        ensures clock_kept { self.new.clock ≡ self.old.clock }
        ensures length_kept { self.new.kept ≡ self.old.kept }
        ensures entries { (self.new.fresh ≡ self.old.fresh) × (self.new.waiting ≡ self.old.waiting) }
        ensures installs { OnOk result (InstallsIn self.old.sealed.tables merged self.new.sealed.tables) }
        ensures content { (row : Row) (key : Key) → content_in self.new.sealed.tables row key ≡ content_in self.old.sealed.tables row key }
        ensures counts { OnOk result (self.new.sealed.counts ≡ record self.old.sealed.counts { rows_held = self.old.sealed.counts.rows_held + length (output_of merged).table.rows }) }
        ensures room { OnOk result (self.old.sealed.tables.pushed.count < self.old.sealed.tables.pushed.limit) }
        ensures err { OnErr result (self.new ≡ self.old) }
        ensures stale { IfErr result (λ e. OnStale e (StandsIn self.old.sealed.tables merged → ⊥)) }
        ensures full { IfErr result (λ e. OnFull e (StandsIn self.old.sealed.tables merged × (self.old.sealed.tables.pushed.count ≡ self.old.sealed.tables.pushed.limit))) }
        ensures no_memory { IfErr result (λ e. IfNoMemory e (λ m. StandsIn self.old.sealed.tables merged × (self.old.sealed.tables.pushed.count < self.old.sealed.tables.pushed.limit))) }
        ensures back { IfErr result (λ e. IfNoMemory e (λ m. m ≡ merged)) }
    {
        rows_spell_the_journal_they_show();
        self.rows.published.install(rt, merged)
    }
}
