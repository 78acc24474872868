//! The sealed tables that publishes left, and those that one prepares.
ghost use Rattle.std.specs.Prelude.{◌≡◌, ◌+◌, ◌-◌, ◌<◌, ◌≤◌, ◌==◌, length, OnOk, OnErr, IfOk, IfErr, if◌then◌else◌};
ghost use Rattle.tf_rows.specs.Counts.{AreBounded, HasPublishes, IsReady, Loses, PushesMore, counted, nothing_sealed, settled, with_lost};
ghost use Rattle.tf_registry.specs.Install.{IfNoMemory, OnFull, OnStale};
ghost use Rattle.tf_manifest.specs.Jobs.{InstallsIn, StandsIn, output_of};
ghost use Rattle.tf_manifest.specs.Registries.{AreShelves};
ghost use Rattle.tf_manifest.specs.View.{content_in};
ghost use Rattle.tf_manifest.specs.declared.row.Row.{Row};
ghost use Rattle.tf_table.specs.declared.key.Key.{Key};

use crate::counted::CountedTables;
use std::alloc::Allocator;
use std::marker::Model;
use std::sync::Wait;
use tf_manifest::{Manifest, Merged, Registries};
use tf_records::Refusal;
use tf_registry::{Naming, Uninstalled};
use tf_rows::Counts;

/// The sealed tables of all rows, and what was counted of publishes and installs.
#[derive(Drop)]
pub struct Published<A: Allocator, N: Naming> {
    tables: CountedTables<A, N>,
    publishes: u64,
}

impl<A: Allocator, N: Naming> Model for Published<A, N> {
    ghost use Rattle.tf_rows.specs.Counts.{HasPublishes, Sealed};

    ghost Value = { Sealed };

    ghost view = { λ p. record { tables = p.tables.tables; counts = record { rows_sealed = p.tables.sealed; rows_held = p.tables.held; publishes = p.publishes } } };

    ghost invariant = { λ p. HasPublishes p.tables.tables p.publishes };
}

/// Sealed tables that stand ready to be put in place by `Forest::settle`. All that was pushed for them is counted.
#[derive(Drop)]
pub struct Prepared<A: Allocator, N: Naming> {
    tables: CountedTables<A, N>,
}

impl<A: Allocator, N: Naming> Model for Prepared<A, N> {
    ghost use Rattle.tf_rows.specs.Counts.{Counted};

    ghost Value = { Counted };

    ghost view = { λ p. p.tables };
}

impl<A: Allocator, N: Naming> Prepared<A, N> {
    /// Tables that are ready.
    pub(crate) fn new(tables: CountedTables<A, N>) -> Prepared<A, N>
        ensures { result ≡ tables }
    {
        Prepared { tables }
    }

    /// The tables, for whoever publishes them before they are put in place.
    #[inline]
    pub fn manifest(&self) -> &Manifest<A, N>
        ensures { result.now ≡ self.now.tables }
    {
        self.tables.manifest()
    }
}

/// How many publishes there were, after one that pushed so many tables.
fn publishes_after(publishes: u64, pushed: u32) -> u64
    requires { publishes ≤ 1048576 }
    ensures { result ≡ publishes + (if pushed == 0 then 0 else 1) }
{
    if pushed == 0 {
        publishes
    } else {
        publishes + 1
    }
}

impl<A: Allocator, N: Naming> Published<A, N> {
    /// The tables.
    #[inline]
    pub fn manifest(&self) -> &Manifest<A, N>
        ensures { result.now ≡ self.now.tables }
    {
        self.tables.manifest()
    }

    /// What was counted. It takes no memory.
    pub fn counts(&self) -> Counts
        ensures value { result ≡ self.now.counts }
        ensures bounded { AreBounded self.now }
    {
        Counts {
            rows_sealed: self.tables.sealed(),
            rows_held: self.tables.held(),
            publishes: self.publishes,
        }
    }

    /// How many publishes pushed a table.
    pub(crate) fn publishes(&self) -> u64
        ensures { HasPublishes self.now.tables self.now.counts.publishes }
    {
        self.publishes
    }

    /// Counts what was pushed onto a copy of the tables.
    pub(crate) fn count_pushed(&mut self, copy: &CountedTables<A, N>)
        requires more { PushesMore (counted self.old) copy.now }
        requires most { copy.now.tables.pushed.count ≤ self.old.tables.pushed.count + 42 }
        ensures pushed { self.new.tables.pushed ≡ copy.now.tables.pushed }
        ensures held { self.new.counts.rows_held ≡ copy.now.held }
        ensures loses { Loses self.old self.new (copy.now.tables.pushed.count - self.old.tables.pushed.count) }
        ensures lost { self.new ≡ with_lost (copy.now.tables.pushed.count - self.old.tables.pushed.count) (copy.now.held - self.old.counts.rows_held) self.old }
    {
        let before = self.manifest().pushed();
        let after = copy.manifest().pushed();
        self.publishes = publishes_after(self.publishes, after - before);
        self.tables.count_pushed(copy);
    }

    /// Puts prepared tables in place of these, and lets go of these. It takes no memory.
    pub fn settle(&mut self, prepared: Prepared<A, N>)
        requires { IsReady self.old prepared }
        ensures { self.new ≡ settled prepared self.old }
    {
        self.tables = prepared.tables;
    }
}

impl<A: Allocator + Clone, N: Naming> Published<A, N> {
    /// No tables, and nothing counted. It takes memory as `Manifest::new` does. The only refusal is `NoMemory`.
    pub(crate) fn new(registries: &Registries<A>, alloc: A) -> Result<Published<A, N>, Refusal>
        requires { AreShelves N.shelf registries.now }
        ensures none { IfOk result (λ published. published ≡ nothing_sealed registries.now.limit) }
        ensures refusal { IfErr result (λ refusal. refusal ≡ Refusal.NoMemory) }
    {
        Ok(Published {
            tables: CountedTables::new(registries, alloc)?,
            publishes: 0,
        })
    }

    /// A copy of the tables with what was counted of entries, by one more owner for each table. It takes memory as
    /// `Manifest::again` does. The only refusal is `NoMemory`.
    pub(crate) fn copy(&self, alloc: A) -> Result<CountedTables<A, N>, Refusal>
        ensures copy { IfOk result (λ copy. copy ≡ counted self.now) }
        ensures refusal { IfErr result (λ refusal. refusal ≡ Refusal.NoMemory) }
    {
        self.tables.again(alloc)
    }

    /// Puts a merged table in the place of its run, as `Manifest::install` does, and counts its entries as held.
    pub fn install<R: Wait>(
        &mut self,
        rt: &R,
        merged: Merged<A, N>,
    ) -> Result<(), Uninstalled<Merged<A, N>>>
        ensures installs { OnOk result (InstallsIn self.old.tables merged self.new.tables) }
        ensures content { (row : Row) (key : Key) → content_in self.new.tables row key ≡ content_in self.old.tables row key }
        ensures room { OnOk result (self.old.tables.pushed.count < self.old.tables.pushed.limit) }
        ensures counts { OnOk result (self.new.counts ≡ record self.old.counts { rows_held = self.old.counts.rows_held + length (output_of merged).table.rows }) }
        ensures err { OnErr result (self.new ≡ self.old) }
        ensures stale { IfErr result (λ e. OnStale e (StandsIn self.old.tables merged → ⊥)) }
        ensures full { IfErr result (λ e. OnFull e (StandsIn self.old.tables merged × (self.old.tables.pushed.count ≡ self.old.tables.pushed.limit))) }
        ensures no_memory { IfErr result (λ e. IfNoMemory e (λ m. StandsIn self.old.tables merged × (self.old.tables.pushed.count < self.old.tables.pushed.limit))) }
        ensures back { IfErr result (λ e. IfNoMemory e (λ m. m ≡ merged)) }
    {
        self.tables.install(rt, merged)
    }
}
