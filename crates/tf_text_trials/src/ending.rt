//! The end of a store, which is dropped before its readers and the versions that were taken of it.
ghost use Rattle.std.specs.Prelude.{◌≡◌};

use crate::ran::{Ran, and};
use linked_list_allocator::LocalHeap;
use std::alloc::{Allocator, Global};
use tf_forest::Forest;
use tf_query::Version;
use tf_readers::{Publishable, Reader};
use tf_rows::AllRows;
use tf_store::{Share, Store, StoreName, StoredCopies, StoredForest};
use tf_store_trials::{Parties, answers_held, answers_of};
use tf_trials::{Plain, Tally, Trial};

/// Bytes that a version of 200 transfers keeps at least: 43 KB of references, and the tables.
const KEPT: usize = 80_000;

/// Whether all 64 shares are there, and their sum is the book.
fn are_shares<F: StoredForest + Drop, C: StoredCopies + Drop, A: Allocator + Copy, S: StoreName>(
    store: &mut Store<F, C, A, S>,
    shares: Vec<Share<S>, A>,
    book: u64,
) -> bool
    requires { S.parts ≡ 64 }
{
    if shares.len() == 64 {
        store.gather(shares) == book
    } else {
        drop(shares);
        false
    }
}

/// Drops a store. Whether its shares were all there, and their sum was the book. It is generic in the rows, so that none of its
/// calls takes those apart.
fn gathers<F, C, A, S>(store: Store<Forest<F, A>, C, A, S>, shares: Vec<Share<S>, A>) -> bool
where
    F: AllRows + Drop,
    C: StoredCopies + Drop,
    A: Allocator + Copy,
    S: StoreName,
    requires { S.parts ≡ 64 }
{
    let mut store = store;
    let book = store.book();
    let are_shares = are_shares(&mut store, shares, book);
    store.close();
    are_shares
}

/// Whether a reader of a store that was dropped is given nothing more.
fn is_closed<V: Publishable + Drop, A: Allocator, S: StoreName>(
    reader: &mut Reader<V, A, S>,
) -> bool {
    let is_given = reader.latest().is_some();
    !reader.follow() && !is_given
}

fn are_closed<V: Publishable + Drop, A: Allocator, S: StoreName>(
    readers: &mut Vec<Reader<V, A, S>, A>,
) -> bool {
    for reader in readers.iter_mut() {
        if !is_closed(reader) {
            return false;
        }
    }
    true
}

/// Whether what outlives a store answers as the plain ledger did when it was marked, and its tables are kept.
fn outlives(heap: &LocalHeap, tally: Tally) -> bool {
    tally.is_right && tally.rows > 100 && heap.used() >= KEPT
}

fn held_outlives<V: Publishable + Drop, A: Allocator, S: StoreName>(
    alloc: Global,
    heap: &LocalHeap,
    held: Option<&Reader<V, A, S>>,
    then: &Plain,
) -> bool {
    outlives(heap, answers_held(alloc, held, then))
}

fn taken_outlives<A: Allocator, S: StoreName>(
    alloc: Global,
    heap: &LocalHeap,
    taken: Option<&Version<A, S>>,
    then: &Plain,
) -> bool {
    outlives(heap, answers_of(alloc, taken, then))
}

/// What readers and versions of a store that was dropped have to answer.
fn ask_left<'t, V: Publishable + Drop, A: Allocator, S: StoreName>(
    trial: &Trial<'_>,
    readers: &mut Vec<Reader<V, A, S>, A>,
    taken: &Vec<Version<A, S>, Global>,
    ran: Ran<'t>,
) -> Ran<'t> {
    let (alloc, heap, then) = (trial.twin.alloc, trial.room.heap, trial.twin.then());
    let ran = and(
        ran,
        are_closed(readers),
        "readers of a dropped store are given nothing more",
    );
    let held = !trial.outlives.held || held_outlives(alloc, heap, readers.first(), then);
    let ran = and(ran, held, "what the first reader holds outlives the store");
    let taken = !trial.outlives.taken || taken_outlives(alloc, heap, taken.first(), then);
    and(ran, taken, "the first version outlives the store")
}

/// Drops what a store that was dropped had given.
fn end_left<'t, V: Publishable + Drop, A: Allocator, S: StoreName>(
    trial: &Trial<'_>,
    readers: Vec<Reader<V, A, S>, A>,
    taken: Vec<Version<A, S>, Global>,
    ran: Ran<'t>,
) -> Ran<'t> {
    let mut readers = readers;
    let ran = ask_left(trial, &mut readers, &taken, ran);
    drop(readers);
    drop(taken);
    ran
}

/// Drops a store, and then what it gave. What came of it behind what came of its text.
pub fn end<'t, F, A, S, C, V>(
    trial: &Trial<'_>,
    store: Store<Forest<F, A>, C, A, S>,
    parties: Parties<V, A, S>,
    ran: Ran<'t>,
) -> Ran<'t>
where
    F: AllRows + Drop,
    A: Allocator + Copy,
    S: StoreName,
    C: StoredCopies + Drop,
    V: Publishable + Drop,
    requires { S.parts ≡ 64 }
{
    let (shares, readers, taken) = parties;
    let gathers = gathers(store, shares);
    let ran = and(ran, gathers, "the sum of the 64 shares is the book");
    end_left(trial, readers, taken, ran)
}
