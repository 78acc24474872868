//! The forest and the plain ledger are one ledger: the same batches, pulses and look-ups have the same answers.
//!
//! A forest is made by a function that is generic over its rows, to which one that is generic over the rows' mutable tables
//! and allocator hands them: a function that names all types of a forest stops at the checker's limit of steps.

ghost use Rattle.tf_rows.specs.Nest.{AreEmpty};
ghost use Rattle.tf_rows.specs.Parts.{parts_of};
ghost use Rattle.tf_manifest.specs.Registries.{AreShelves};

use linked_list_allocator::LocalHeap;
use std::alloc::{Allocator, Global};
use std::marker::Brand;
use std::test::Fail;
use tf_forest::Forest;
use tf_forest_trials::{
    AMPLE, are_commands_alike, commands_at, lists_of_commands, refused_in_turn,
};
use tf_manifest::Registries;
use tf_mutable_rows::MutableTables;
use tf_publish::Rows;
use tf_records::Refusal;
use tf_registry::Naming;
use tf_rows::{AllRows, EmptyRows, MutableRows};
use tf_script::Command;
use tf_trials::random::commands;

/// Whether a forest over these rows and an empty plain ledger answer commands alike.
fn is_forest_alike<S: AllRows + Drop>(alloc: Global, rows: S, commands: &[Command<Global>]) -> bool
    requires { AreEmpty (S.parts rows) }
{
    let mut forest = Forest::new(alloc, rows);
    let is_alike = are_commands_alike(alloc, &mut forest, commands);
    drop(forest);
    is_alike
}

fn are_rows_alike<T: MutableRows + Drop, A: Allocator + Copy, N: Naming>(
    alloc: Global,
    rows: Rows<T, A, N>,
    commands: &[Command<Global>],
) -> bool
    requires { AreEmpty (parts_of (T.entries rows.fresh) rows.published.tables) }
{
    is_forest_alike(alloc, rows, commands)
}

/// Whether an empty forest and an empty plain ledger answer commands alike.
fn is_alike_from_nothing<T, A, N>(
    lists: Global,
    alloc: A,
    registries: &Registries<A>,
    commands: &[Command<Global>],
) -> Result<bool, Refusal>
where
    T: EmptyRows<A> + Drop,
    A: Allocator + Copy,
    N: Naming,
    requires { AreShelves N.shelf registries.now }
{
    let rows: Rows<T, A, N> = Rows::new(alloc, registries)?;
    Ok(are_rows_alike(lists, rows, commands))
}

/// Whether both answer all worked scripts and random commands alike, each from nothing.
fn are_all_alike<T, A, N>(
    lists: Global,
    alloc: A,
    registries: &Registries<A>,
) -> Result<bool, Refusal>
where
    T: EmptyRows<A> + Drop,
    A: Allocator + Copy,
    N: Naming,
    requires { AreShelves N.shelf registries.now }
{
    for place in 0..lists_of_commands() {
        let commands = commands_at(lists, place)?;
        if !is_alike_from_nothing::<T, A, N>(lists, alloc, registries, commands.as_slice())? {
            return Ok(false);
        }
    }
    Ok(true)
}

#[test]
fn a_forest_answers_as_the_plain_ledger_does(rt: HostRuntime) -> Result<(), Fail> {
    let registries = Registries::new(rt.alloc())?;
    let alike = are_all_alike::<MutableTables<Global>, Global, Brand>(
        rt.alloc(),
        rt.alloc(),
        &registries,
    );
    drop(registries);
    assert!(rt; alike?);
    Ok(())
}

/// The same of a forest over these rows, whose heap refuses memory first. Tells how often, or None where they answer otherwise.
fn forest_refused<S: AllRows + Drop>(
    alloc: Global,
    heap: &LocalHeap,
    rows: S,
    commands: &[Command<Global>],
) -> Result<Option<usize>, Refusal>
    requires { AreEmpty (S.parts rows) }
{
    let mut forest = Forest::new(heap, rows);
    let refused = refused_in_turn(alloc, heap, &mut forest, commands);
    drop(forest);
    refused
}

fn rows_refused<T: MutableRows + Drop, A: Allocator + Copy, N: Naming>(
    alloc: Global,
    heap: &LocalHeap,
    rows: Rows<T, A, N>,
    commands: &[Command<Global>],
) -> Result<Option<usize>, Refusal>
    requires { AreEmpty (parts_of (T.entries rows.fresh) rows.published.tables) }
{
    forest_refused(alloc, heap, rows, commands)
}

/// The same of an empty forest.
fn refused_from_nothing<T, A, N>(
    lists: Global,
    alloc: A,
    heap: &LocalHeap,
    registries: &Registries<A>,
    commands: &[Command<Global>],
) -> Result<Option<usize>, Refusal>
where
    T: EmptyRows<A> + Drop,
    A: Allocator + Copy,
    N: Naming,
    requires { AreShelves N.shelf registries.now }
{
    let rows: Rows<T, A, N> = Rows::new(alloc, registries)?;
    rows_refused(lists, heap, rows, commands)
}

/// Whether an empty forest that is refused memory in turn at each of some random batches and pulses, more than 20 times in all,
/// answers as the plain ledger does: 12 times from nothing.
fn are_random_refused<T, A, N>(
    lists: Global,
    alloc: A,
    heap: &LocalHeap,
    registries: &Registries<A>,
) -> Result<bool, Refusal>
where
    T: EmptyRows<A> + Drop,
    A: Allocator + Copy,
    N: Naming,
    requires { AreShelves N.shelf registries.now }
{
    for seed in 200..212 {
        let commands = commands(lists, seed, 12)?;
        let refused = refused_from_nothing::<T, A, N>(
            lists,
            alloc,
            heap,
            registries,
            commands.as_slice(),
        )?;
        if !matches!(refused, Some(refused) if refused > 20) {
            return Ok(false);
        }
    }
    Ok(true)
}

#[test]
fn a_forest_that_was_refused_memory_is_as_before(rt: HostRuntime) -> Result<(), Fail> {
    let heap = LocalHeap::new(rt.alloc(), AMPLE)?;
    let registries = Registries::new(&heap)?;
    let refused = are_random_refused::<MutableTables<&LocalHeap>, &LocalHeap, Brand>(
        rt.alloc(),
        &heap,
        &heap,
        &registries,
    );
    drop(registries);
    assert!(rt; refused?);
    Ok(())
}
