//! The tests, each with a heap and a registry of its own.
ghost use Rattle.std.specs.Prelude.{◌≡◌};

use crate::{memory, rows};
use linked_list_allocator::LocalHeap;
use std::alloc::Allocator;
use std::marker::Brand;
use std::process::Abort;
use std::sync::Wait;
use std::test::Fail;
use tf_registry::{Naming, Registry, Tables};

/// What is tried of a row.
#[derive(Clone, Copy)]
enum RowTrial {
    Empty,
    SecondInstall,
    FullRow,
    ManyPushes,
}

impl RowTrial {
    /// Whether the row may give so many bytes back, where it leaves so many behind.
    fn gives_back(self, bytes: usize, left: usize) -> bool {
        match self {
            // It has 32 bytes for each of 64 references.
            RowTrial::Empty => bytes == 64 * 32 && left == 0,
            _ => true,
        }
    }
}

/// What is tried with a registry.
#[derive(Clone, Copy)]
enum Trial {
    LastReference,
    RoomForGood,
    RefusedPush,
    Row(RowTrial),
}

/// Whether what is tried of a row that has no tables holds.
fn holds_of<A: Allocator + Copy, N: Naming>(
    rt: &impl Wait,
    heap: &LocalHeap,
    alloc: A,
    registry: &Registry<u64, A>,
    row: &mut Tables<u64, A, N>,
    trial: RowTrial,
) -> bool
    requires here { registry.now ≡ N.shelf 0 }
{
    match trial {
        RowTrial::Empty => row.is_empty(),
        RowTrial::SecondInstall => rows::second_install(rt, alloc, registry, row),
        RowTrial::FullRow => rows::full_row(rt, alloc, registry, row),
        RowTrial::ManyPushes => rows::many_pushes(rt, heap, alloc, registry, row),
    }
}

/// Whether it holds of a new row, and what the row gives back.
fn holds_of_row<A: Allocator + Copy, N: Naming>(
    rt: &impl Wait,
    heap: &LocalHeap,
    alloc: A,
    registry: &Registry<u64, A>,
    trial: RowTrial,
) -> bool
    requires here { registry.now ≡ N.shelf 0 }
{
    let used = heap.used();
    match Tables::<u64, A, N>::new(alloc) {
        Ok(mut row) => {
            let holds = holds_of(rt, heap, alloc, registry, &mut row, trial);
            let bytes = memory::bytes_back(heap, row);
            holds && trial.gives_back(bytes, heap.used().wrapping_sub(used))
        }
        Err(_) => false,
    }
}

/// Whether what is tried with a registry that has no tables holds.
fn holds<A: Allocator + Copy, N: Naming>(
    rt: &impl Wait,
    heap: &LocalHeap,
    alloc: A,
    registry: &Registry<u64, A>,
    trial: Trial,
) -> bool
    requires here { registry.now ≡ N.shelf 0 }
{
    match trial {
        Trial::LastReference => memory::last_reference::<A, N>(rt, heap, alloc, registry),
        Trial::RoomForGood => memory::room_for_good::<A, N>(rt, heap, alloc, registry),
        Trial::RefusedPush => memory::refused_push::<A, N>(rt, heap, alloc, registry),
        Trial::Row(trial) => holds_of_row::<A, N>(rt, heap, alloc, registry, trial),
    }
}

/// Whether it holds with a new registry.
fn holds_of_registry<A: Allocator + Copy>(
    rt: &impl Wait,
    heap: &LocalHeap,
    alloc: A,
    trial: Trial,
) -> bool {
    match Registry::new(alloc) {
        Ok(registry) => {
            let holds = holds::<A, Brand>(rt, heap, alloc, &registry, trial);
            drop(registry);
            holds
        }
        Err(_) => false,
    }
}

/// Tries something with a heap of so many bytes.
fn assert_holds(
    rt: &(impl Abort + Wait + AllocGlobal),
    bytes: usize,
    trial: Trial,
) -> Result<(), Fail> {
    let heap = LocalHeap::new(rt.alloc(), bytes)?;
    assert!(rt; holds_of_registry(rt, &heap, &heap, trial));
    Ok(())
}

#[test]
fn rows_come_back_with_the_last_reference(rt: HostRuntime) -> Result<(), Fail> {
    assert_holds(&rt, 1 << 20, Trial::LastReference)
}

#[test]
fn a_push_keeps_56_bytes_for_good(rt: HostRuntime) -> Result<(), Fail> {
    assert_holds(&rt, 1 << 20, Trial::RoomForGood)
}

#[test]
fn a_refused_push_hands_the_table_back(rt: HostRuntime) -> Result<(), Fail> {
    assert_holds(&rt, 1 << 16, Trial::RefusedPush)
}

#[test]
fn a_row_takes_32_bytes_for_each_of_64_references(rt: HostRuntime) -> Result<(), Fail> {
    assert_holds(&rt, 1 << 16, Trial::Row(RowTrial::Empty))
}

#[test]
fn the_second_install_of_one_run_is_stale(rt: HostRuntime) -> Result<(), Fail> {
    assert_holds(&rt, 1 << 20, Trial::Row(RowTrial::SecondInstall))
}

#[test]
fn a_full_row_gains_a_table_over_a_run_merged_in_place(rt: HostRuntime) -> Result<(), Fail> {
    assert_holds(&rt, 1 << 20, Trial::Row(RowTrial::FullRow))
}

#[test]
fn a_thousand_pushes_take_three_times_the_live_data(rt: HostRuntime) -> Result<(), Fail> {
    assert_holds(&rt, 3 * rows::LIVE, Trial::Row(RowTrial::ManyPushes))
}
