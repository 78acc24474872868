//! Jobs: two tables of a row that are to be merged, and what a merge gives.
ghost use Rattle.std.specs.Prelude.{◌≡◌, length, IfOk, IfErr};
ghost use Rattle.std.specs.Arc.{arc_value};
ghost use Rattle.tf_registry.specs.Run.{IsMergeOf, IsRun};

use crate::{Body, Held, Naming, TableRef, TableValue};
use std::alloc::{AllocError, Allocator};
use std::marker::Model;
use tf_records::Refusal;
use tf_table::merge;

/// Two adjacent tables of a row, to be merged. It owns its tables with others and borrows nothing, so that it may be
/// merged beside whatever happens to the row.
#[derive(Drop)]
pub struct Job<V: TableValue, A: Allocator, N: Naming> {
    pub(crate) newer: TableRef<V, A, N>,
    pub(crate) older: TableRef<V, A, N>,
}

impl<V: TableValue, A: Allocator, N: Naming> Model for Job<V, A, N> {
    ghost use Rattle.tf_registry.specs.Run.{Run, IsRun};

    ghost Value = { Run V };

    ghost view = { λ j. record { newer = j.newer; older = j.older } };

    ghost invariant = { λ j. IsRun record { newer = j.newer; older = j.older } };
}

/// A job with the table that it was merged into.
#[derive(Drop)]
pub struct Merged<V: TableValue, A: Allocator, N: Naming> {
    pub(crate) job: Job<V, A, N>,
    pub(crate) table: Held<V, A>,
}

impl<V: TableValue, A: Allocator, N: Naming> Model for Merged<V, A, N> {
    ghost use Rattle.std.specs.Arc.{arc_value};
    ghost use Rattle.tf_registry.specs.Run.{Output, IsMergeOf};

    ghost Value = { Output V };

    ghost view = { λ m. record { run = m.job; table = arc_value m.table } };

    ghost invariant = { λ m. IsMergeOf m.job (arc_value m.table) };
}

impl<V: TableValue, A: Allocator, N: Naming> Job<V, A, N> {
    /// The level of the two tables, below the highest.
    fn level(&self) -> u32
        ensures level { result ≡ self.now.older.table.level }
        ensures run { IsRun self.now }
    {
        self.older.table().level()
    }

    /// The same job again, by one more owner of its tables. It takes no memory.
    ///
    /// It is refused only where one of them has 2^63 - 1 owners.
    pub fn again(&self) -> Result<Job<V, A, N>, AllocError>
        ensures { IfOk result (λ job. job ≡ self.now) }
    {
        let newer = self.newer.again()?;
        let older = self.older.again()?;
        Ok(Job { newer, older })
    }
}

impl<V: TableValue, A: Allocator + Clone, N: Naming> Job<V, A, N> {
    /// Merges the two tables into one, of the next level. Tombstones go where nothing is older, and stay elsewhere.
    ///
    /// It goes over both tables once, takes no lock and doesn't wait. The only refusal is `NoMemory`, which a table with
    /// 2^63 - 1 owners gives too.
    pub fn merge(&self, alloc: A) -> Result<Merged<V, A, N>, Refusal>
        ensures run { IfOk result (λ merged. merged.run ≡ self.now) }
        ensures merges { IfOk result (λ merged. IsMergeOf merged.run merged.table) }
        ensures err { IfErr result (λ refusal. refusal ≡ Refusal.NoMemory) }
    {
        let table = self.merged(alloc.clone()?)?.hold(alloc)?;
        let job = self.again()?;
        Ok(Merged { job, table })
    }

    /// The table that the two are merged into. The only refusal is `NoMemory`.
    fn merged(&self, alloc: A) -> Result<Body<V, A>, Refusal>
        ensures merges { IfOk result (λ body. IsMergeOf self.now body) }
        ensures err { IfErr result (λ refusal. refusal ≡ Refusal.NoMemory) }
    {
        let newer = self.newer.table();
        let older = self.older.table();
        let bottom = older.is_oldest();
        let level = older.level();
        let table = merge(alloc, &[newer.table(), older.table()], bottom)?;
        Ok(Body::new(table, level + 1, bottom))
    }
}

impl<V: TableValue, A: Allocator, N: Naming> Merged<V, A, N> {
    /// How many entries the merged table has: no more than the two that it was merged from have together.
    pub fn entries(&self) -> usize
        ensures entries { result ≡ length self.now.table.rows }
        ensures merges { IsMergeOf self.now.run self.now.table }
        ensures run { IsRun self.now.run }
    {
        // Only the level tells that it is below the highest.
        let _level = self.job.level();
        self.table.table().len()
    }

    /// The job, and the table that it was merged into, to be pushed and put in its place. It takes no memory.
    pub fn into_parts(self) -> (Job<V, A, N>, Held<V, A>)
        ensures parts { record { run = result.0; table = arc_value result.1 } ≡ self }
        ensures merges { IsMergeOf result.0 (arc_value result.1) }
    {
        let Merged { job, table } = self;
        (job, table)
    }
}
