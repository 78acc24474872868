//! What is tried of a row: what installs answer, merges in a full row, and many pushes in little memory. Each trial tells whether
//! all that it asks holds.
ghost use Rattle.std.specs.Prelude.{◌≡◌};
ghost use Rattle.std.specs.Arc.{arc_value};
ghost use Rattle.tf_registry.specs.Run.{IsMergeOf, Stands};

use crate::fixture::{grow, merged, value_at};
use linked_list_allocator::LocalHeap;
use std::alloc::Allocator;
use std::sync::Wait;
use tf_registry::{Held, Job, Naming, Pushes, Registry, Tables, Uninstalled};

/// What became of an install.
#[derive(Clone, Copy, PartialEq, Eq)]
enum Outcome {
    Installed,
    Stale,
    RegistryFull,
    NoMemory,
}

/// What an install answered.
fn outcome_of<M: Drop>(answer: Result<(), Uninstalled<M>>) -> Outcome {
    match answer {
        Ok(()) => Outcome::Installed,
        Err(Uninstalled::Stale) => Outcome::Stale,
        Err(Uninstalled::RegistryFull) => Outcome::RegistryFull,
        Err(Uninstalled::NoMemory(_)) => Outcome::NoMemory,
    }
}

/// Whether the run that is to be merged next, when it is merged and installed, has this outcome.
fn installs_next<A: Allocator + Copy, N: Naming>(
    rt: &impl Wait,
    alloc: A,
    registry: &Registry<u64, A>,
    row: &mut Tables<u64, A, N>,
    pushes: &mut Pushes,
    outcome: Outcome,
) -> bool
    requires here { registry.now ≡ N.shelf 0 }
{
    match merged(alloc, row) {
        Some(out) => outcome_of(row.install(rt, registry, pushes, out)) == outcome,
        None => false,
    }
}

/// Whether the row has so many tables, and its content exactly the numbers below `rows`.
fn has_exactly<A: Allocator, N: Naming>(row: &Tables<u64, A, N>, tables: usize, rows: u64) -> bool {
    for value in 0..rows {
        if value_at(row, value) != Some(value) {
            return false;
        }
    }
    row.len() == tables && value_at(row, rows).is_none()
}

/// Gives a row a table of one row for each of these numbers, with itself as its value.
fn grow_to<A: Allocator + Copy, N: Naming>(
    rt: &impl Wait,
    alloc: A,
    registry: &Registry<u64, A>,
    row: &mut Tables<u64, A, N>,
    first: u64,
    end: u64,
) -> bool
    requires here { registry.now ≡ N.shelf 0 }
{
    for value in first..end {
        if !grow(rt, alloc, registry, row, value, 1) {
            return false;
        }
    }
    true
}

/// Installs two jobs of one run: where nothing may be pushed, and under a limit.
fn installs_under_a_limit<A: Allocator + Copy, N: Naming>(
    rt: &impl Wait,
    alloc: A,
    registry: &Registry<u64, A>,
    row: &mut Tables<u64, A, N>,
    pushes: &mut Pushes,
) -> bool
    requires here { registry.now ≡ N.shelf 0 }
{
    let mut none = Pushes::new(0);
    installs_next(rt, alloc, registry, row, &mut none, Outcome::RegistryFull)
        && installs_next(rt, alloc, registry, row, pushes, Outcome::Installed)
}

/// A third job of the run, which was merged before the two, is stale behind them.
fn is_stale<A: Allocator + Copy, N: Naming>(
    rt: &impl Wait,
    alloc: A,
    registry: &Registry<u64, A>,
    row: &mut Tables<u64, A, N>,
    pushes: &mut Pushes,
) -> bool
    requires here { registry.now ≡ N.shelf 0 }
{
    match merged(alloc, row) {
        Some(late) => {
            let holds = installs_under_a_limit(rt, alloc, registry, row, pushes);
            let outcome = outcome_of(row.install(rt, registry, pushes, late));
            holds && outcome == Outcome::Stale
        }
        None => false,
    }
}

/// The second install of one run of five tables is stale.
pub fn second_install<A: Allocator + Copy, N: Naming>(
    rt: &impl Wait,
    alloc: A,
    registry: &Registry<u64, A>,
    row: &mut Tables<u64, A, N>,
) -> bool
    requires here { registry.now ≡ N.shelf 0 }
{
    let mut pushes = Pushes::new(7);
    grow_to(rt, alloc, registry, row, 0, 5)
        && is_stale(rt, alloc, registry, row, &mut pushes)
        && has_exactly(row, 4, 5)
        && pushes.count() == 1
        && pushes.limit() == 7
}

/// Whether the row has 64 tables, of which the newest has the number 66, and the oldest is the merge.
fn is_full<A: Allocator, N: Naming>(row: &Tables<u64, A, N>) -> bool {
    let references = row.references();
    if references.len() != 64 {
        return false;
    }
    let oldest = &references[63];
    row.weight() == 65
        && references[0].number() == 66
        && oldest.number() == 65
        && oldest.table().level() == 1
        && oldest.table().is_oldest()
}

/// Pushes the table that a run was merged into, and puts it in the place of the run.
fn replaces<A: Allocator + Copy, N: Naming>(
    rt: &impl Wait,
    registry: &Registry<u64, A>,
    row: &mut Tables<u64, A, N>,
    job: &Job<u64, A, N>,
    table: Held<u64, A>,
) -> bool
    requires here { registry.now ≡ N.shelf 0 }
    requires merges { IsMergeOf job.now (arc_value table) }
    requires stands { Stands row.old job.now }
{
    match registry.push(rt, table) {
        Ok(pushed) => {
            row.replace(registry, job, pushed);
            true
        }
        Err(_) => false,
    }
}

/// Merges the run of a row in its place.
fn merges_in_place<A: Allocator + Copy, N: Naming>(
    rt: &impl Wait,
    alloc: A,
    registry: &Registry<u64, A>,
    row: &mut Tables<u64, A, N>,
) -> bool
    requires here { registry.now ≡ N.shelf 0 }
{
    match merged(alloc, row) {
        Some(out) => {
            let (job, table) = out.into_parts();
            replaces(rt, registry, row, &job, table)
        }
        None => false,
    }
}

/// A row of 64 tables gains one more over a run that is merged in its place.
pub fn full_row<A: Allocator + Copy, N: Naming>(
    rt: &impl Wait,
    alloc: A,
    registry: &Registry<u64, A>,
    row: &mut Tables<u64, A, N>,
) -> bool
    requires here { registry.now ≡ N.shelf 0 }
{
    grow_to(rt, alloc, registry, row, 0, 64)
        && row.next_run().is_some()
        && merges_in_place(rt, alloc, registry, row)
        && grow_to(rt, alloc, registry, row, 64, 65)
        && has_exactly(row, 64, 65)
        && is_full(row)
}

/// Rows of each of a thousand tables.
const ROWS: u64 = 20;

/// The bytes that all rows take: 32 of each key, 16 of each value, and a little more.
pub const LIVE: usize = 20_000 * (32 + 16);

/// Pushes a table, and merges once where there is something to merge.
fn push_one<A: Allocator + Copy, N: Naming>(
    rt: &impl Wait,
    alloc: A,
    registry: &Registry<u64, A>,
    row: &mut Tables<u64, A, N>,
    pushes: &mut Pushes,
    first: u64,
) -> bool
    requires here { registry.now ≡ N.shelf 0 }
{
    grow(rt, alloc, registry, row, first, ROWS)
        && (row.next_run().is_none()
            || installs_next(rt, alloc, registry, row, pushes, Outcome::Installed))
}

/// Pushes all tables, and tells how many more were pushed for merges, or 0 where there was no memory.
fn push_all<A: Allocator + Copy, N: Naming>(
    rt: &impl Wait,
    alloc: A,
    registry: &Registry<u64, A>,
    row: &mut Tables<u64, A, N>,
) -> u32
    requires here { registry.now ≡ N.shelf 0 }
{
    let mut pushes = Pushes::new(Pushes::MOST);
    for at in 0..1000u64 {
        if !push_one(rt, alloc, registry, row, &mut pushes, at * ROWS) {
            return 0;
        }
    }
    pushes.count()
}

/// A thousand pushes leave all rows in less than twice their bytes.
pub fn many_pushes<A: Allocator + Copy, N: Naming>(
    rt: &impl Wait,
    heap: &LocalHeap,
    alloc: A,
    registry: &Registry<u64, A>,
    row: &mut Tables<u64, A, N>,
) -> bool
    requires here { registry.now ≡ N.shelf 0 }
{
    push_all(rt, alloc, registry, row) > 900
        && value_at(row, 0) == Some(0)
        && value_at(row, 19_999) == Some(19_999)
        && value_at(row, 20_000).is_none()
        && heap.used() < 2 * LIVE
}
