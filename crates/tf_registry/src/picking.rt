//! The choice of the two tables of a row that are merged next.
ghost use Rattle.std.specs.Prelude.{◌≡◌, ◌+◌, ◌<◌, ◌≤◌, ℕ, length, slice_get, false, IsTrue, IsSome, IfOk, IfSome, IfNone, OnErr};
ghost use Rattle.tf_registry.specs.Row.{levels_of};
ghost use Rattle.tf_registry.specs.Run.{count_at, run_of, IsFourAt, NoFourBefore, NoFour, IsPicked, IsRun, Stands};

use crate::{Job, Naming, TableRef, TableValue, Tables};
use std::alloc::{AllocError, Allocator};

impl<V: TableValue, A: Allocator, N: Naming> Tables<V, A, N> {
    /// The run to merge next, its newer table first: the two oldest tables of the lowest level that has at least four. None
    /// where no level has four, which a row of 64 tables never is.
    ///
    /// It looks at each reference once, and takes no memory.
    pub fn next_run(&self) -> Option<(&TableRef<V, A, N>, &TableRef<V, A, N>)>
        ensures some { IfSome result (λ run. IsPicked self.now (run_of run.0.now run.1.now)) }
        ensures run { IfSome result (λ run. IsRun (run_of run.0.now run.1.now)) }
        ensures stands { IfSome result (λ run. Stands self.now (run_of run.0.now run.1.now)) }
        ensures none { IfNone result ((level : ℕ) → count_at level self.now < 4) }
        ensures full { length self.now ≡ 64 → IsSome result }
    {
        let references = self.references.as_slice();
        let Some(place) = first_four(references) else {
            return None;
        };
        Some((&references[place + 2], &references[place + 3]))
    }

    /// The same run, as a job that owns its two tables with others.
    ///
    /// It takes no memory. An `Err` comes only where there is a run of which one table has 2^63 - 1 owners, which contracts
    /// can't see: no job is given then, and the row is as it was.
    pub fn pick(&self) -> Result<Option<Job<V, A, N>>, AllocError>
        ensures some { IfOk result (λ found. IfSome found (λ job. IsPicked self.now job)) }
        ensures stands { IfOk result (λ found. IfSome found (λ job. Stands self.now job)) }
        ensures none { IfOk result (λ found. IfNone found ((level : ℕ) → count_at level self.now < 4)) }
        ensures full { length self.now ≡ 64 → IfOk result IsSome }
        ensures err { OnErr result ((level : ℕ) × (4 ≤ count_at level self.now)) }
    {
        let Some((first, second)) = self.next_run() else {
            return Ok(None);
        };
        let newer = first.again()?;
        let older = second.again()?;
        Ok(Some(Job { newer, older }))
    }
}

/// The first place from which four tables of one level stand, with no older one of that level.
fn first_four<V: TableValue, A: Allocator, N: Naming>(
    references: &[TableRef<V, A, N>],
) -> Option<usize>
    requires { length references.now ≤ 64 }
    ensures some { IfSome result (λ place. (level : ℕ) × IsFourAt references.now place level) }
    ensures first { IfSome result (λ place. NoFourBefore references.now place) }
    ensures none { IfNone result (NoFour references.now) }
    ensures within { IfSome result (λ place. place + 3 < length references.now) }
{
    for place in 0..references.len() {
        if are_four(references, place) {
            return Some(place);
        }
    }
    None
}

/// Whether four tables of one level stand from the place on, with no older one of that level.
fn are_four<V: TableValue, A: Allocator, N: Naming>(
    references: &[TableRef<V, A, N>],
    place: usize,
) -> bool
    requires { place < 64 }
    ensures yes { IsTrue result → (level : ℕ) × IsFourAt references.now place level }
    ensures no { result ≡ false → (level : ℕ) → IsFourAt references.now place level → ⊥ }
    ensures within { IsTrue result → place + 3 < length references.now }
{
    let Some(level) = level_at(references, place) else {
        return false;
    };
    if level_at(references, place + 3) != Some(level) {
        return false;
    }
    level_at(references, place + 4) != Some(level)
}

/// The level of the table at a place, if there is one.
#[inline]
pub(crate) fn level_at<V: TableValue, A: Allocator, N: Naming>(
    references: &[TableRef<V, A, N>],
    place: usize,
) -> Option<u32>
    ensures value { result ≡ slice_get (levels_of references.now) place }
    ensures within { IsSome result → place < length references.now }
{
    if place < references.len() {
        Some(references[place].table().level())
    } else {
        None
    }
}
