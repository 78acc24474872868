//! Where a run stands in a row.
ghost use Rattle.std.specs.Prelude.{◌≡◌, ◌+◌, ◌<◌, ◌≤◌, ℕ, ◌∷◌, ◌++◌, length, take, drop, slice_get, false, Some, IsTrue, IsSome, IfSome, IfNone, vec_capacity};
ghost use Rattle.tf_registry.specs.Run.{numbers_of, StandsAt};

use crate::picking::level_at;
use crate::{Naming, Registry, TableRef, TableValue};
use std::alloc::Allocator;

/// The place of two adjacent references with these numbers, behind which stands none of this level.
pub(crate) fn place<V: TableValue, A: Allocator, N: Naming>(
    references: &[TableRef<V, A, N>],
    newer: u128,
    older: u128,
    level: u32,
) -> Option<usize>
    requires { length references.now ≤ 64 }
    ensures some { IfSome result (λ at. StandsAt references.now at newer older level) }
    ensures none { IfNone result ((at : ℕ) → StandsAt references.now at newer older level → ⊥) }
    ensures within { IfSome result (λ at. at + 1 < length references.now) }
{
    for at in 0..references.len() {
        if stands_at(references, at, newer, older, level) {
            return Some(at);
        }
    }
    None
}

/// Whether two adjacent references with these numbers stand at a place, and behind them none of this level.
fn stands_at<V: TableValue, A: Allocator, N: Naming>(
    references: &[TableRef<V, A, N>],
    at: usize,
    newer: u128,
    older: u128,
    level: u32,
) -> bool
    requires { at < 64 }
    ensures yes { IsTrue result → StandsAt references.now at newer older level }
    ensures no { result ≡ false → StandsAt references.now at newer older level → ⊥ }
    ensures within { IsTrue result → at + 1 < length references.now }
{
    if number_at(references, at) != Some(newer) {
        return false;
    }
    if number_at(references, at + 1) != Some(older) {
        return false;
    }
    level_at(references, at + 2) != Some(level)
}

/// The number of the reference at a place, if there is one.
#[inline]
fn number_at<V: TableValue, A: Allocator, N: Naming>(
    references: &[TableRef<V, A, N>],
    at: usize,
) -> Option<u128>
    ensures value { result ≡ slice_get (numbers_of references.now) at }
    ensures within { IsSome result → at < length references.now }
{
    if at < references.len() {
        Some(references[at].number())
    } else {
        None
    }
}

/// The references at the place show the run's tables, since a number shows one table. It only tells the proof so.
pub(crate) fn confirm<V: TableValue, A: Allocator, N: Naming>(
    registry: &Registry<V, A>,
    references: &[TableRef<V, A, N>],
    at: usize,
    newer: &TableRef<V, A, N>,
    older: &TableRef<V, A, N>,
)
    requires here { registry.now ≡ N.shelf V.kind }
    requires within { at + 1 < length references.now }
    requires first { slice_get (numbers_of references.now) at ≡ Some newer.now.number }
    requires second { slice_get (numbers_of references.now) (at + 1) ≡ Some older.now.number }
    ensures first { slice_get references.now at ≡ Some newer.now }
    ensures second { slice_get references.now (at + 1) ≡ Some older.now }
{
    registry.agree(&references[at], newer);
    registry.agree(&references[at + 1], older);
}

/// Puts a reference in the place of two, which go. It takes no memory.
pub(crate) fn replace<V: TableValue, A: Allocator, N: Naming>(
    references: &mut Vec<TableRef<V, A, N>, A>,
    at: usize,
    out: TableRef<V, A, N>,
)
    requires { at + 1 < length references.old.items }
    ensures items { references.new.items ≡ take at references.old.items ++ out ∷ drop (at + 2) references.old.items }
    ensures capacity { vec_capacity references.old ≤ vec_capacity references.new }
{
    references.remove(at);
    references[at] = out;
}
