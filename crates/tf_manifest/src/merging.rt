//! The rows of jobs, and their merges.
ghost use Rattle.std.specs.Prelude.{◌≡◌, IfOk, IfErr};
ghost use Rattle.tf_manifest.specs.Kinds.{kind_of};
ghost use Rattle.tf_manifest.specs.Jobs.{HasEntries, IsMerged, job_of, kind_of_job};

use crate::{Job, Kind, Merged, Row};
use std::alloc::Allocator;
use tf_records::Refusal;
use tf_registry::Naming;

impl<A: Allocator, N: Naming> Job<A, N> {
    /// Its row.
    pub fn row(&self) -> Row
        ensures { kind_of result ≡ kind_of_job self.now }
    {
        self.kind().row()
    }

    /// Its row, by the kind of value that it stores.
    fn kind(&self) -> Kind
        ensures { result ≡ kind_of_job self.now }
    {
        match self {
            Job::Stamp(row, _) => Kind::Stamp(*row),
            Job::Account(_) => Kind::Account,
            Job::Transfer(_) => Kind::Transfer,
            Job::Id(_) => Kind::Id,
            Job::Unit(row, _) => Kind::Unit(*row),
            Job::State(_) => Kind::State,
            Job::Sums(_) => Kind::Sums,
            Job::Status(_) => Kind::Status,
        }
    }
}

impl<A: Allocator + Clone, N: Naming> Job<A, N> {
    /// Merges the two tables into one, of the next level. Tombstones go where nothing is older, and stay elsewhere.
    ///
    /// It goes over both tables once, takes no lock and doesn't wait. The only refusal is `NoMemory`,
    /// which a table with 2^63 - 1 owners gives too.
    pub fn merge(&self, alloc: A) -> Result<Merged<A, N>, Refusal>
        ensures job { IfOk result (λ merged. job_of merged ≡ self.now) }
        ensures merges { IfOk result IsMerged }
        ensures err { IfErr result (λ refusal. refusal ≡ Refusal.NoMemory) }
    {
        match self {
            Job::Stamp(row, job) => Ok(Merged::Stamp(*row, job.merge(alloc)?)),
            Job::Account(job) => Ok(Merged::Account(job.merge(alloc)?)),
            Job::Transfer(job) => Ok(Merged::Transfer(job.merge(alloc)?)),
            Job::Id(job) => Ok(Merged::Id(job.merge(alloc)?)),
            Job::Unit(row, job) => Ok(Merged::Unit(*row, job.merge(alloc)?)),
            Job::State(job) => Ok(Merged::State(job.merge(alloc)?)),
            Job::Sums(job) => Ok(Merged::Sums(job.merge(alloc)?)),
            Job::Status(job) => Ok(Merged::Status(job.merge(alloc)?)),
        }
    }
}

impl<A: Allocator, N: Naming> Merged<A, N> {
    /// How many entries the merged table has: no more than the two that it was merged from have together.
    pub fn entries(&self) -> usize
        ensures { HasEntries self.now result }
    {
        match self {
            Merged::Stamp(_, merged) => merged.entries(),
            Merged::Account(merged) => merged.entries(),
            Merged::Transfer(merged) => merged.entries(),
            Merged::Id(merged) => merged.entries(),
            Merged::Unit(_, merged) => merged.entries(),
            Merged::State(merged) => merged.entries(),
            Merged::Sums(merged) => merged.entries(),
            Merged::Status(merged) => merged.entries(),
        }
    }
}
