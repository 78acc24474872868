//! Memory that comes back with the last reference, what stays for good, and pushes that are refused. Each trial tells whether all
//! that it asks holds.
ghost use Rattle.std.specs.Prelude.{◌≡◌};

use crate::fixture::{pushed, table};
use linked_list_allocator::LocalHeap;
use std::alloc::{AllocError, Allocator};
use std::sync::Wait;
use tf_registry::{Body, Held, Name, Naming, Registry, TableRef};
use tf_table::Span;

/// The span of the timestamps of all rows.
const ONE: Span = Span {
    earliest: 1,
    latest: 1,
};

/// The bytes that a thousand rows take at least: 32 of each key, and 16 of each value.
const BYTES: usize = 48_000;

/// How many bytes come back with a value.
pub fn bytes_back<V: Drop>(heap: &LocalHeap, value: V) -> usize {
    let used = heap.used();
    drop(value);
    used.wrapping_sub(heap.used())
}

/// Whether all rows are there.
fn has_rows<A: Allocator, N: Naming>(reference: &TableRef<u64, A, N>) -> bool {
    reference.table().table().len() == 1000
}

/// Whether this is known of the table for good.
fn is_known<A: Allocator, N: Naming>(registry: &Registry<u64, A>, name: &Name<u64, A, N>) -> bool
    requires here { registry.now ≡ N.shelf 0 }
{
    let kept = registry.description(name);
    kept.rows() == 1000
        && kept.level() == 0
        && kept.is_oldest()
        && kept.span() == Some(ONE)
        && name.number() == 1
}

/// The rows are there with the last reference, and come back with it.
fn come_back<A: Allocator, N: Naming>(
    heap: &LocalHeap,
    last: Result<TableRef<u64, A, N>, AllocError>,
) -> bool {
    match last {
        Ok(last) => {
            let has_rows = has_rows(&last);
            bytes_back(heap, last) >= BYTES && has_rows
        }
        Err(_) => false,
    }
}

/// Nothing comes back with the first of two references, all rows with the second, and what is known of the table stays.
fn two_references<A: Allocator, N: Naming>(
    heap: &LocalHeap,
    registry: &Registry<u64, A>,
    first: TableRef<u64, A, N>,
) -> bool
    requires here { registry.now ≡ N.shelf 0 }
{
    let name = first.name().again();
    let second = first.again();
    let bytes = bytes_back(heap, first);
    come_back(heap, second) && bytes == 0 && is_known(registry, &name)
}

/// Rows come back with the last reference to their table.
pub fn last_reference<A: Allocator + Copy, N: Naming>(
    rt: &impl Wait,
    heap: &LocalHeap,
    alloc: A,
    registry: &Registry<u64, A>,
) -> bool
    requires here { registry.now ≡ N.shelf 0 }
{
    match pushed::<A, N, _>(rt, alloc, registry, 0, 1000, true) {
        Some(first) => two_references(heap, registry, first),
        None => false,
    }
}

/// Pushes a table of one row, and lets it go.
fn push_and_drop<A: Allocator + Copy, N: Naming>(
    rt: &impl Wait,
    alloc: A,
    registry: &Registry<u64, A>,
    value: u64,
) -> bool
    requires here { registry.now ≡ N.shelf 0 }
{
    pushed::<A, N, _>(rt, alloc, registry, value, 1, true).is_some()
}

/// A push keeps 56 bytes for good.
pub fn room_for_good<A: Allocator + Copy, N: Naming>(
    rt: &impl Wait,
    heap: &LocalHeap,
    alloc: A,
    registry: &Registry<u64, A>,
) -> bool
    requires here { registry.now ≡ N.shelf 0 }
{
    let before = heap.used();
    for value in 0..1800u64 {
        if !push_and_drop::<A, N>(rt, alloc, registry, value) {
            return false;
        }
    }
    // Room for 32 descriptions and 64 and so on, up to 1,024 at once: 2,016 of 56 bytes each.
    heap.used().wrapping_sub(before) == 2016 * 56
}

/// Takes what a heap has left, but for less than 1,024 bytes in a piece.
fn most_of<A: Allocator + Copy>(heap: A) -> Option<Vec<Vec<u8, A>, A>> {
    let Ok(mut taken) = Vec::with_capacity(heap, 64) else {
        return None;
    };
    for _block in 0..64u64 {
        if let Ok(block) = Vec::with_capacity(heap, 1024) {
            let _ = taken.push(block);
        }
    }
    Some(taken)
}

/// Whether this is the table.
fn is_whole<A: Allocator>(table: &Body<u64, A>) -> bool {
    table.table().len() == 3 && table.level() == 0 && table.is_oldest()
}

/// The table is pushed as the first.
fn is_first<A: Allocator + Copy, N: Naming>(
    rt: &impl Wait,
    registry: &Registry<u64, A>,
    table: Held<u64, A>,
) -> bool
    requires here { registry.now ≡ N.shelf 0 }
{
    let is_whole = is_whole(&table);
    match registry.push::<N, _>(rt, table) {
        Ok(reference) => reference.number() == 1 && is_whole,
        Err(_) => false,
    }
}

/// A push for which memory is refused takes none, and hands its table back.
fn hands_back<A: Allocator + Copy, N: Naming>(
    rt: &impl Wait,
    heap: &LocalHeap,
    alloc: A,
    registry: &Registry<u64, A>,
    table: Held<u64, A>,
) -> Option<Held<u64, A>>
    requires here { registry.now ≡ N.shelf 0 }
{
    let taken = most_of(alloc);
    let used = heap.used();
    let back = registry.push::<N, _>(rt, table).err();
    let has_taken = heap.used() != used;
    drop(taken);
    if has_taken { None } else { back }
}

/// A refused push hands the table back, and uses no number up.
pub fn refused_push<A: Allocator + Copy, N: Naming>(
    rt: &impl Wait,
    heap: &LocalHeap,
    alloc: A,
    registry: &Registry<u64, A>,
) -> bool
    requires here { registry.now ≡ N.shelf 0 }
{
    let Ok(table) = table(alloc, 7, 3, true) else {
        return false;
    };
    match hands_back::<A, N>(rt, heap, alloc, registry, table) {
        Some(back) => is_first::<A, N>(rt, registry, back),
        None => false,
    }
}
