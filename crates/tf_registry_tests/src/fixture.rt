//! Small tables, their pushes and merges. All is generic in the allocator, so that none of it spells out a heap's layout, and what
//! can't be for want of memory or room is no error but `None` or `false`.
ghost use Rattle.std.specs.Prelude.{◌≡◌, Ok, Some, IfOk, IfSome};
ghost use Rattle.std.specs.Arc.{arc_value};
ghost use Rattle.tf_registry.specs.Run.{IsMergeOf, Stands};

use std::alloc::{AllocError, Allocator};
use std::sync::Wait;
use tf_mutable::{Log, MutableTable};
use tf_records::Refusal;
use tf_registry::{Body, Held, Merged, Naming, Registry, TableRef, Tables};
use tf_table::{Key, Sealed};

/// A key with this value, of a record with timestamp 1.
fn key(value: u64) -> Key {
    Key {
        value: u128::from(value),
        timestamp: 1,
    }
}

/// The value of the key of a number.
pub fn value_at<A: Allocator, N: Naming>(row: &Tables<u64, A, N>, value: u64) -> Option<u64> {
    row.find(&key(value)).copied()
}

/// Rows whose keys and values are so many numbers, from one on.
fn sealed<A: Allocator + Copy>(alloc: A, first: u64, rows: u64) -> Result<Sealed<u64, A>, Refusal> {
    let mut log: Log<u64, A> = Log::new_in(alloc);
    for row in 0..rows {
        let value = first.wrapping_add(row);
        let key = key(value);
        if log.find(&key).is_none() && log.put(key, Some(value)).is_err() {
            return Err(Refusal::NoMemory);
        }
    }
    log.seal(alloc)
}

/// A table of level 0 whose keys and values are so many numbers, from one on.
pub fn table<A: Allocator + Copy>(
    alloc: A,
    first: u64,
    rows: u64,
    oldest: bool,
) -> Result<Held<u64, A>, Refusal>
    ensures level { IfOk result (λ held. (arc_value held).level ≡ 0) }
    ensures oldest { IfOk result (λ held. (arc_value held).oldest ≡ oldest) }
{
    match sealed(alloc, first, rows) {
        Ok(sealed) => Body::new(sealed, 0, oldest).hold(alloc),
        Err(refusal) => Err(refusal),
    }
}

/// Pushes such a table.
pub fn pushed<A: Allocator + Copy, N: Naming, R: Wait>(
    rt: &R,
    alloc: A,
    registry: &Registry<u64, A>,
    first: u64,
    rows: u64,
    oldest: bool,
) -> Option<TableRef<u64, A, N>>
    requires here { registry.now ≡ N.shelf 0 }
    ensures level { IfSome result (λ reference. reference.table.level ≡ 0) }
    ensures oldest { IfSome result (λ reference. reference.table.oldest ≡ oldest) }
{
    match table(alloc, first, rows, oldest) {
        Ok(table) => registry.push(rt, table).ok(),
        Err(_) => None,
    }
}

/// Puts a table with so many rows in front of a row. It tells whether there was room and memory for it.
pub fn grow<A: Allocator + Copy, N: Naming, R: Wait>(
    rt: &R,
    alloc: A,
    registry: &Registry<u64, A>,
    row: &mut Tables<u64, A, N>,
    first: u64,
    rows: u64,
) -> bool
    requires here { registry.now ≡ N.shelf 0 }
{
    if row.len() >= 64 || row.weight() >= 2000 {
        return false;
    }
    match pushed(rt, alloc, registry, first, rows, row.is_empty()) {
        Some(reference) => {
            row.add(reference);
            true
        }
        None => false,
    }
}

/// What was picked.
fn found<J: Drop>(picked: Result<Option<J>, AllocError>) -> Option<J>
    ensures { IfSome result (λ job. picked ≡ Ok (Some job)) }
{
    match picked {
        Ok(found) => found,
        Err(_) => None,
    }
}

/// The run that is to be merged next, merged.
pub fn merged<A: Allocator + Copy, N: Naming>(
    alloc: A,
    row: &Tables<u64, A, N>,
) -> Option<Merged<u64, A, N>>
    ensures merges { IfSome result (λ out. IsMergeOf out.run out.table) }
    ensures stands { IfSome result (λ out. Stands row.now out.run) }
{
    match found(row.pick()) {
        Some(job) => job.merge(alloc).ok(),
        None => None,
    }
}
