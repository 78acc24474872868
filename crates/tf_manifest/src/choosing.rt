//! Jobs of a manifest's rows: picked, and installed once merged.
ghost use Rattle.std.specs.Prelude.{◌≡◌, ◌<◌, ◌≤◌, ℕ, OnOk, OnErr, IfErr, IfOk, IfSome, IfNone, IsSome};
ghost use Rattle.tf_manifest.specs.Jobs.{Answers, InstallsIn, IsPickedFrom, StandsIn};
ghost use Rattle.tf_registry.specs.Install.{IfNoMemory, OnFull, OnStale};
ghost use Rattle.tf_manifest.specs.Install.{AreParts};
ghost use Rattle.tf_manifest.specs.Kinds.{kind_of};
ghost use Rattle.tf_registry.specs.Run.{count_at};
ghost use Rattle.tf_manifest.specs.View.{content_in, references_in, tables_by};
ghost use Rattle.tf_table.specs.declared.key.Key.{Key};

use crate::{Job, Kind, Manifest, Merged, Row};
use std::alloc::{AllocError, Allocator};
use std::sync::Wait;
use tf_registry::{Naming, Uninstalled};

impl<A: Allocator, N: Naming> Manifest<A, N> {
    /// The run of a row to merge next: the two oldest tables of the lowest level that has at least four. None where no
    /// level has four, which a row of 64 tables never is.
    ///
    /// It looks at each reference of the row once, and takes no memory. An `Err` comes only where there is a run of which one
    /// table has 2^63 - 1 owners, which contracts can't see.
    pub fn pick(&self, row: Row) -> Result<Option<Job<A, N>>, AllocError>
        ensures some { IfOk result (λ found. IfSome found (IsPickedFrom self.now row)) }
        ensures none { IfOk result (λ found. IfNone found ((level : ℕ) → count_at level (tables_by self.now (kind_of row)) < 4)) }
        ensures full { references_in self.now row ≡ 64 → IfOk result IsSome }
        ensures err { OnErr result ((level : ℕ) × (4 ≤ count_at level (tables_by self.now (kind_of row)))) }
    {
        match row.kind() {
            Kind::Stamp(row) => match self.stamps.row(row.index()).pick()? {
                Some(job) => Ok(Some(Job::Stamp(row, job))),
                None => Ok(None),
            },
            Kind::Account => match self.accounts.row(0).pick()? {
                Some(job) => Ok(Some(Job::Account(job))),
                None => Ok(None),
            },
            Kind::Transfer => match self.transfers.row(0).pick()? {
                Some(job) => Ok(Some(Job::Transfer(job))),
                None => Ok(None),
            },
            Kind::Id => match self.ids.row(0).pick()? {
                Some(job) => Ok(Some(Job::Id(job))),
                None => Ok(None),
            },
            Kind::Unit(row) => match self.units.row(row.index()).pick()? {
                Some(job) => Ok(Some(Job::Unit(row, job))),
                None => Ok(None),
            },
            Kind::State => match self.states.row(0).pick()? {
                Some(job) => Ok(Some(Job::State(job))),
                None => Ok(None),
            },
            Kind::Sums => match self.sums.row(0).pick()? {
                Some(job) => Ok(Some(Job::Sums(job))),
                None => Ok(None),
            },
            Kind::Status => match self.statuses.row(0).pick()? {
                Some(job) => Ok(Some(Job::Status(job))),
                None => Ok(None),
            },
        }
    }
}

impl<A: Allocator + Clone, N: Naming> Manifest<A, N> {
    /// Puts a merged table in the place of its run, wherever that stands now, and counts it. It may wait in the push.
    ///
    /// `Stale` says that the run's references aren't there, adjacent and in order and with none of their level behind
    /// them; else `RegistryFull` says that no more may be pushed; else `NoMemory` hands the merged table back. A refusal
    /// changes nothing.
    pub fn install<R: Wait>(
        &mut self,
        rt: &R,
        merged: Merged<A, N>,
    ) -> Result<(), Uninstalled<Merged<A, N>>>
        ensures installs { OnOk result (InstallsIn self.old merged self.new) }
        ensures content { (row : Row) (key : Key) → content_in self.new row key ≡ content_in self.old row key }
        ensures room { OnOk result (self.old.pushed.count < self.old.pushed.limit) }
        ensures err { OnErr result (self.new ≡ self.old) }
        ensures stale { IfErr result (λ e. OnStale e (StandsIn self.old merged → ⊥)) }
        ensures full { IfErr result (λ e. OnFull e (StandsIn self.old merged × (self.old.pushed.count ≡ self.old.pushed.limit))) }
        ensures no_memory { IfErr result (λ e. IfNoMemory e (λ m. StandsIn self.old merged × (self.old.pushed.count < self.old.pushed.limit))) }
        ensures back { IfErr result (λ e. IfNoMemory e (λ m. m ≡ merged)) }
    {
        self.put(rt, merged)
    }

    /// An install, in the rows of its kind.
    fn put<R: Wait>(
        &mut self,
        rt: &R,
        merged: Merged<A, N>,
    ) -> Result<(), Uninstalled<Merged<A, N>>>
        ensures { Answers self.old merged result self.new }
    {
        let pushes = &mut self.pushes;
        match merged {
            Merged::Stamp(row, out) => {
                match parted(self.stamps.install(rt, row.index(), pushes, out)) {
                    Ok(answer) => answer,
                    Err(back) => Err(Uninstalled::NoMemory(Merged::Stamp(row, back))),
                }
            }
            Merged::Account(out) => match parted(self.accounts.install(rt, 0, pushes, out)) {
                Ok(answer) => answer,
                Err(back) => Err(Uninstalled::NoMemory(Merged::Account(back))),
            },
            Merged::Transfer(out) => match parted(self.transfers.install(rt, 0, pushes, out)) {
                Ok(answer) => answer,
                Err(back) => Err(Uninstalled::NoMemory(Merged::Transfer(back))),
            },
            Merged::Id(out) => match parted(self.ids.install(rt, 0, pushes, out)) {
                Ok(answer) => answer,
                Err(back) => Err(Uninstalled::NoMemory(Merged::Id(back))),
            },
            Merged::Unit(row, out) => {
                match parted(self.units.install(rt, row.index(), pushes, out)) {
                    Ok(answer) => answer,
                    Err(back) => Err(Uninstalled::NoMemory(Merged::Unit(row, back))),
                }
            }
            Merged::State(out) => match parted(self.states.install(rt, 0, pushes, out)) {
                Ok(answer) => answer,
                Err(back) => Err(Uninstalled::NoMemory(Merged::State(back))),
            },
            Merged::Sums(out) => match parted(self.sums.install(rt, 0, pushes, out)) {
                Ok(answer) => answer,
                Err(back) => Err(Uninstalled::NoMemory(Merged::Sums(back))),
            },
            Merged::Status(out) => match parted(self.statuses.install(rt, 0, pushes, out)) {
                Ok(answer) => answer,
                Err(back) => Err(Uninstalled::NoMemory(Merged::Status(back))),
            },
        }
    }
}

/// The same answer where nothing is handed back, and else what is.
fn parted<M, K>(answer: Result<(), Uninstalled<M>>) -> Result<Result<(), Uninstalled<K>>, M>
    ensures { AreParts answer result }
{
    match answer {
        Ok(()) => Ok(Ok(())),
        Err(Uninstalled::NoMemory(back)) => Err(back),
        Err(Uninstalled::Stale) => Ok(Err(Uninstalled::Stale)),
        Err(Uninstalled::RegistryFull) => Ok(Err(Uninstalled::RegistryFull)),
    }
}
