//! Sealed tables whose entries are counted.
ghost use Rattle.std.specs.Prelude.{◌≡◌, ◌+◌, ◌-◌, ◌<◌, ◌≤◌, length, OnOk, OnErr, IfOk, IfErr};
ghost use Rattle.tf_rows.specs.Counts.{IsCounted, PushesMore, all_references};
ghost use Rattle.tf_rows.specs.SealedRow.{PushesIn, entries_of_sealed, kind_of_sealed};
ghost use Rattle.tf_registry.specs.Install.{IfNoMemory, OnFull, OnStale};
ghost use Rattle.tf_manifest.specs.Jobs.{InstallsIn, StandsIn, output_of};
ghost use Rattle.tf_manifest.specs.Registries.{AreShelves};
ghost use Rattle.tf_manifest.specs.View.{content_in, no_tables, tables_by};
ghost use Rattle.tf_manifest.specs.declared.row.Row.{Row};
ghost use Rattle.tf_table.specs.declared.key.Key.{Key};

use crate::in_front::push_in_front;
use std::alloc::Allocator;
use std::marker::Model;
use std::sync::Wait;
use tf_manifest::{Manifest, Merged, Registries};
use tf_records::Refusal;
use tf_registry::{Naming, Pushes, Uninstalled};
use tf_rows::SealedRow;

/// The sealed tables of all rows, with how many entries of mutable tables were sealed, and how many all tables that were
/// pushed have.
///
/// Merges of the tables that stand in rows may push the entries of each once for each level above its own. Those together
/// with what is held are at most 21 times what was sealed.
#[derive(Drop)]
pub(crate) struct CountedTables<A: Allocator, N: Naming> {
    manifest: Manifest<A, N>,
    sealed: u128,
    held: u128,
}

impl<A: Allocator, N: Naming> Model for CountedTables<A, N> {
    ghost use Rattle.tf_rows.specs.Counts.{Counted, IsCounted};

    ghost Value = { Counted };

    ghost view = { λ t. record { tables = t.manifest; sealed = t.sealed; held = t.held } };

    ghost invariant = { λ t. IsCounted (record { tables = t.manifest; sealed = t.sealed; held = t.held }) };
}

/// Counts tables that were pushed, but that no row has.
fn count_lost<A: Allocator, N: Naming>(manifest: &mut Manifest<A, N>, pushes: Pushes)
    requires { manifest.old.pushed.count ≤ pushes.count }
    ensures { manifest.new ≡ record manifest.old { pushed = pushes } }
{
    // Only the count tells how light the rows are.
    let _count = manifest.pushed();
    manifest.pushes = pushes;
}

impl<A: Allocator, N: Naming> CountedTables<A, N> {
    /// The tables.
    #[inline]
    pub(crate) fn manifest(&self) -> &Manifest<A, N>
        ensures { result.now ≡ self.now.tables }
    {
        &self.manifest
    }

    /// How many entries of mutable tables were sealed.
    #[inline]
    pub(crate) fn sealed(&self) -> u128
        ensures value { result ≡ self.now.sealed }
        ensures counted { IsCounted self.now }
    {
        self.sealed
    }

    /// How many entries all tables that were pushed have.
    #[inline]
    pub(crate) fn held(&self) -> u128
        ensures value { result ≡ self.now.held }
        ensures counted { IsCounted self.now }
    {
        self.held
    }

    /// Counts what was pushed onto a copy that stands nowhere yet: its tables as pushed, and their entries both as sealed
    /// and as held. It takes no memory.
    pub(crate) fn count_pushed(&mut self, copy: &CountedTables<A, N>)
        requires { PushesMore self.old copy.now }
        ensures { self.new ≡ record { tables = record self.old.tables { pushed = copy.now.tables.pushed }; sealed = self.old.sealed + (copy.now.held - self.old.held); held = copy.now.held } }
    {
        self.sealed += copy.held - self.held;
        self.held = copy.held;
        count_lost(&mut self.manifest, copy.manifest.pushes);
    }
}

impl<A: Allocator + Clone, N: Naming> CountedTables<A, N> {
    /// No tables, and nothing counted. It takes memory as `Manifest::new` does. The only refusal is `NoMemory`.
    pub(crate) fn new(registries: &Registries<A>, alloc: A) -> Result<CountedTables<A, N>, Refusal>
        requires { AreShelves N.shelf registries.now }
        ensures none { IfOk result (λ counted. counted ≡ record { tables = no_tables registries.now.limit; sealed = 0; held = 0 }) }
        ensures refusal { IfErr result (λ refusal. refusal ≡ Refusal.NoMemory) }
    {
        Ok(CountedTables {
            manifest: Manifest::new(registries, alloc)?,
            sealed: 0,
            held: 0,
        })
    }

    /// A copy, by one more owner for each table. It takes memory as `Manifest::again` does. The only refusal is `NoMemory`.
    pub(crate) fn again(&self, alloc: A) -> Result<CountedTables<A, N>, Refusal>
        ensures copy { IfOk result (λ copy. copy ≡ self.now) }
        ensures refusal { IfErr result (λ refusal. refusal ≡ Refusal.NoMemory) }
    {
        Ok(CountedTables {
            manifest: self.manifest.again(alloc)?,
            sealed: self.sealed,
            held: self.held,
        })
    }

    /// Pushes a sealed table and puts it in front of the tables of its row, as `push_in_front` does.
    pub(crate) fn push_in_front<R: Wait>(
        &mut self,
        rt: &R,
        alloc: A,
        sealed: SealedRow<A>,
    ) -> Result<(), Refusal>
        requires room { length (tables_by self.old.tables (kind_of_sealed sealed)) < 64 }
        requires pushes { self.old.tables.pushed.count < self.old.tables.pushed.limit }
        ensures pushes { OnOk result (PushesIn self.old.tables sealed self.new.tables) }
        ensures sealed { OnOk result (self.new.sealed ≡ self.old.sealed + length (entries_of_sealed sealed)) }
        ensures held { OnOk result (self.new.held ≡ self.old.held + length (entries_of_sealed sealed)) }
        ensures more { PushesMore self.old self.new }
        ensures err { OnErr result (self.new ≡ self.old) }
        ensures refusal { IfErr result (λ refusal. refusal ≡ Refusal.NoMemory) }
    {
        // Only the count tells that the limit isn't above the greatest.
        let _count = self.manifest.pushed();
        let entries = sealed.entries();
        match push_in_front(rt, &mut self.manifest, alloc, sealed) {
            Ok(()) => {
                self.sealed += entries as u128;
                self.held += entries as u128;
                Ok(())
            }
            Err(refusal) => Err(refusal),
        }
    }

    /// Puts a merged table in the place of its run, as `Manifest::install` does, and counts its entries as held.
    pub(crate) fn install<R: Wait>(
        &mut self,
        rt: &R,
        merged: Merged<A, N>,
    ) -> Result<(), Uninstalled<Merged<A, N>>>
        ensures installs { OnOk result (InstallsIn self.old.tables merged self.new.tables) }
        ensures content { (row : Row) (key : Key) → content_in self.new.tables row key ≡ content_in self.old.tables row key }
        ensures room { OnOk result (self.old.tables.pushed.count < self.old.tables.pushed.limit) }
        ensures held { OnOk result (self.new.held ≡ self.old.held + length (output_of merged).table.rows) }
        ensures sealed { self.new.sealed ≡ self.old.sealed }
        ensures few { OnOk result (all_references self.new.tables + 1 ≡ all_references self.old.tables) }
        ensures more { PushesMore self.old self.new }
        ensures err { OnErr result (self.new ≡ self.old) }
        ensures stale { IfErr result (λ e. OnStale e (StandsIn self.old.tables merged → ⊥)) }
        ensures full { IfErr result (λ e. OnFull e (StandsIn self.old.tables merged × (self.old.tables.pushed.count ≡ self.old.tables.pushed.limit))) }
        ensures no_memory { IfErr result (λ e. IfNoMemory e (λ m. StandsIn self.old.tables merged × (self.old.tables.pushed.count < self.old.tables.pushed.limit))) }
        ensures back { IfErr result (λ e. IfNoMemory e (λ m. m ≡ merged)) }
    {
        // Only the count tells that the limit isn't above the greatest.
        let _count = self.manifest.pushed();
        let entries = merged.entries();
        match self.manifest.install(rt, merged) {
            Ok(()) => {
                self.held += entries as u128;
                Ok(())
            }
            Err(refused) => Err(refused),
        }
    }
}
