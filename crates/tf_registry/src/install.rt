//! Installs: a merged table in the place of its run.
ghost use Rattle.std.specs.Prelude.{◌≡◌, ◌+◌, ◌<◌, length, OnOk, OnErr, IfErr, IfSome, IfNone};
ghost use Rattle.tf_registry.specs.Limit.{one_more};
ghost use Rattle.tf_registry.specs.Run.{IsMergeOf, StandsAt, Stands, Installs};
ghost use Rattle.tf_registry.specs.Install.{OnStale, OnFull, IfNoMemory};

use crate::place::{confirm, place, replace};
use crate::{
    Job, Merged, Naming, Pushes, Registry, RowUninstalled, TableRef, TableValue, Tables,
    Uninstalled,
};
use std::alloc::Allocator;
use std::sync::Wait;

impl<V: TableValue, A: Allocator, N: Naming> Tables<V, A, N> {
    /// The place of a job's run, if its references stand adjacent and in order with none of their level behind them.
    fn place_of(&self, job: &Job<V, A, N>) -> Option<usize>
        ensures some { IfSome result (λ at. StandsAt self.now at job.now.newer.number job.now.older.number job.now.older.table.level) }
        ensures none { IfNone result (Stands self.now job.now → ⊥) }
        ensures within { IfSome result (λ at. at + 1 < length self.now) }
    {
        place(
            self.references.as_slice(),
            job.newer.number(),
            job.older.number(),
            job.older.table().level(),
        )
    }

    /// Puts a pushed table in the place of a run.
    fn replace_at(
        &mut self,
        registry: &Registry<V, A>,
        at: usize,
        job: &Job<V, A, N>,
        out: TableRef<V, A, N>,
    )
        requires here { registry.now ≡ N.shelf V.kind }
        requires stands { StandsAt self.old at job.now.newer.number job.now.older.number job.now.older.table.level }
        requires within { at + 1 < length self.old }
        requires merges { IsMergeOf job.now out.table }
        ensures { Installs self.old job.now out.table self.new }
    {
        confirm(
            registry,
            self.references.as_slice(),
            at,
            &job.newer,
            &job.older,
        );
        replace(&mut self.references, at, out);
    }

    /// Puts a merged table that was pushed already in the place of its run: so a full row is merged in place. It takes no
    /// memory.
    ///
    /// `stands` is what `pick` says of a job as long as the row isn't changed.
    pub fn replace(&mut self, registry: &Registry<V, A>, job: &Job<V, A, N>, out: TableRef<V, A, N>)
        requires here { registry.now ≡ N.shelf V.kind }
        requires stands { Stands self.old job.now }
        requires merges { IsMergeOf job.now out.table }
        ensures { Installs self.old job.now out.table self.new }
    {
        match self.place_of(job) {
            Some(at) => self.replace_at(registry, at, job, out),
            None => unreachable!(),
        }
    }
}

impl<V: TableValue, A: Allocator + Clone, N: Naming> Tables<V, A, N> {
    /// Puts a merged table in the place of its run, wherever that stands now, and counts it. It may wait in the push. The
    /// row's references to the two tables of the run go, and with the last reference to each its rows.
    ///
    /// `Stale` says that the run's references aren't there, adjacent and in order and with none of their level behind
    /// them; else `RegistryFull` says that no more may be pushed; else `NoMemory` hands the merged table back. A refusal
    /// changes nothing.
    pub fn install<R: Wait>(
        &mut self,
        rt: &R,
        registry: &Registry<V, A>,
        pushes: &mut Pushes,
        merged: Merged<V, A, N>,
    ) -> Result<(), RowUninstalled<V, A, N>>
        requires { registry.now ≡ N.shelf V.kind }
        ensures installs { OnOk result (Installs self.old merged.run merged.table self.new) }
        ensures pushed { OnOk result (pushes.new ≡ one_more pushes.old) }
        ensures room { OnOk result (pushes.old.count < pushes.old.limit) }
        ensures err { OnErr result ((self.new ≡ self.old) × (pushes.new ≡ pushes.old)) }
        ensures stale { IfErr result (λ e. OnStale e (Stands self.old merged.run → ⊥)) }
        ensures full { IfErr result (λ e. OnFull e (Stands self.old merged.run × (pushes.old.count ≡ pushes.old.limit))) }
        ensures no_memory { IfErr result (λ e. IfNoMemory e (λ m. Stands self.old merged.run × (pushes.old.count < pushes.old.limit))) }
        ensures back { IfErr result (λ e. IfNoMemory e (λ m. m ≡ merged)) }
    {
        let Merged { job, table } = merged;
        let Some(at) = self.place_of(&job) else {
            return Err(Uninstalled::Stale);
        };
        if pushes.is_full() {
            return Err(Uninstalled::RegistryFull);
        }
        match registry.push(rt, table) {
            Ok(out) => {
                self.replace_at(registry, at, &job, out);
                pushes.add();
                Ok(())
            }
            Err(table) => Err(Uninstalled::NoMemory(Merged { job, table })),
        }
    }
}
