//! Empty stores, each on a heap of its own.
//!
//! A store is made step by step, by functions that are generic in what they needn't know: one that names all types of a
//! store stops at the checker's limit of steps.
ghost use Rattle.std.specs.Prelude.{◌≡◌, ◌<◌};
ghost use Rattle.tf_manifest.specs.Registries.{AreShelves};
ghost use Rattle.tf_store.specs.Rooms.{FitsRows};

use crate::fixture::{Course, Fixture};
use crate::ran::{Ran, and, refused};
use crate::running::try_opened;
use linked_list_allocator::LocalHeap;
use std::alloc::{Allocator, Global};
use std::marker::Brand;
use std::sync::Wait;
use tf_manifest::Registries;
use tf_mutable_rows::MutableTables;
use tf_query::Version;
use tf_readers::{Copies, Publishable};
use tf_records::Refusal;
use tf_rows::{EmptyRows, SealRows};
use tf_store::{BlankStore, StoreName, StoreOf, VersionOf};
use tf_trials::{Room, Trial, has_room};

/// How many shares each store has.
const SHARES: u32 = 64;

/// Runs a text on a store with 64 shares over these registries. It is generic in the version that readers are shown, which is
/// named where no store is.
fn with_versions<'t, T, A, S, V, R>(
    rt: &R,
    alloc: A,
    trial: &mut Trial<'_>,
    registries: &Registries<A>,
    blank: BlankStore,
    course: Course<'t>,
) -> Ran<'t>
where
    T: EmptyRows<A> + SealRows<A> + Drop,
    A: Allocator + Copy,
    S: StoreName,
    V: VersionOf<Version<A, S>> + Publishable + Drop,
    R: Wait,
    requires fits { FitsRows T.row }
    requires name { blank.ledger.name ≡ S.name }
    requires parts { (blank.ledger.parts ≡ S.parts) × (S.parts ≡ 64) }
    requires history { blank.history ≡ S.history }
    requires registries { AreShelves S.shelf registries.now }
{
    let readers = course.fixture.readers;
    try_opened(
        rt,
        alloc,
        trial,
        StoreOf::<T, Copies<V, A, S, &R>, A, S>::new(alloc, rt, registries, blank, SHARES, readers),
        course,
    )
}

/// The same, with the versions of the store.
fn with_rows<'t, T, A, S, R>(
    rt: &R,
    alloc: A,
    trial: &mut Trial<'_>,
    registries: &Registries<A>,
    blank: BlankStore,
    course: Course<'t>,
) -> Ran<'t>
where
    T: EmptyRows<A> + SealRows<A> + Drop,
    A: Allocator + Copy,
    S: StoreName,
    R: Wait,
    requires fits { FitsRows T.row }
    requires name { blank.ledger.name ≡ S.name }
    requires parts { (blank.ledger.parts ≡ S.parts) × (S.parts ≡ 64) }
    requires history { blank.history ≡ S.history }
    requires registries { AreShelves S.shelf registries.now }
{
    with_versions::<T, A, S, Version<A, S>, R>(rt, alloc, trial, registries, blank, course)
}

/// The same, with mutable tables that lie on a heap.
fn with_name<'h, 't, S: StoreName, R: Wait>(
    rt: &R,
    heap: &'h LocalHeap,
    trial: &mut Trial<'h>,
    registries: &Registries<&'h LocalHeap>,
    blank: BlankStore,
    course: Course<'t>,
) -> Ran<'t>
    requires name { blank.ledger.name ≡ S.name }
    requires parts { (blank.ledger.parts ≡ S.parts) × (S.parts ≡ 64) }
    requires history { blank.history ≡ S.history }
    requires registries { AreShelves S.shelf registries.now }
{
    with_rows::<MutableTables<&'h LocalHeap>, &'h LocalHeap, S, R>(
        rt, heap, trial, registries, blank, course,
    )
}

/// The same, with a name of its own.
fn with_registries<'h, 't, R: Wait>(
    rt: &R,
    heap: &'h LocalHeap,
    trial: &mut Trial<'h>,
    registries: &Registries<&'h LocalHeap>,
    course: Course<'t>,
) -> Ran<'t> {
    with_name::<Brand, R>(rt, heap, trial, registries, BlankStore::new(SHARES), course)
}

/// Leaves no byte of the heap where the store is to lack memory. Whether the list of what is taken of it had memory.
fn is_room_left_so(fixture: Fixture, room: &mut Room<'_>) -> bool {
    !fixture.lacks_memory || room.fill(0).is_ok()
}

/// Runs a text on a store over these registries.
fn with_trial<'h, 't, R: Wait>(
    rt: &R,
    alloc: Global,
    heap: &'h LocalHeap,
    registries: &Registries<&'h LocalHeap>,
    course: Course<'t>,
) -> Ran<'t> {
    let mut trial = Trial::new(alloc, heap, course.fixture.parameter);
    let is_so = is_room_left_so(course.fixture, &mut trial.room);
    let ran = with_registries(rt, heap, &mut trial, registries, course);
    drop(trial);
    and(ran, is_so, "the heap is taken where memory is to lack")
}

/// Runs a text on a store with registries of its own.
fn on_heap<'t, R: Wait>(rt: &R, alloc: Global, heap: &LocalHeap, course: Course<'t>) -> Ran<'t> {
    match Registries::with_limit(heap, course.fixture.limit) {
        Ok(registries) => {
            let ran = with_trial(rt, alloc, heap, &registries, course);
            drop(registries);
            ran
        }
        Err(refusal) => refused("registries are made", refusal),
    }
}

/// Runs a text on an empty store. Once the store and all that it gave are dropped, its heap is whole again.
pub fn try_text<'t, R: Wait>(rt: &R, alloc: Global, fixture: Fixture, text: &'t str) -> Ran<'t> {
    match LocalHeap::new(alloc, fixture.room) {
        Ok(heap) => {
            let ran = on_heap(rt, alloc, &heap, Course { fixture, text });
            let is_whole = heap.used() == 0 && has_room(&heap, fixture.room / 100 * 99);
            drop(heap);
            and(ran, is_whole, "the heap is whole again")
        }
        Err(_) => refused("a heap is made", Refusal::NoMemory),
    }
}
