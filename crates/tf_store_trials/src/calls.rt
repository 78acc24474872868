//! Calls of a store, each by a function of its own that knows it by what it is made of.
//!
//! They take the prover the most memory, and it proves this module before those that use it, while it holds less.

use crate::alike::is_store_alike;
use std::alloc::{Allocator, Global};
use tf_forest::Forest;
use tf_manifest::{Manifest, Row};
use tf_rows::{AllRows, MutableRows};
use tf_script::Command;
use tf_store::{Share, Store, StoreName, StoreOf, StoredCopies};
use tf_trials::{Answer, Counted, Outcome, Plain, ROWS, batch_outcome, pulse_outcome};

/// Runs a batch or a pulse with the share at this place, and no other command.
pub(crate) fn run<T, C, A, S>(
    lists: Global,
    store: &mut StoreOf<T, C, A, S>,
    shares: &mut Vec<Share<S>, A>,
    share: usize,
    command: &Command<Global>,
) -> Outcome
where
    T: MutableRows + Drop,
    C: StoredCopies + Drop,
    A: Allocator + Copy,
    S: StoreName,
{
    run_at(lists, store, shares, share, command)
}

/// Whether a store answers look-ups as the plain ledger does: of so many ids, from 0 on.
pub(crate) fn is_alike<T, C, A, S>(store: &StoreOf<T, C, A, S>, plain: &Plain, ids: u32) -> bool
where
    T: MutableRows + Drop,
    C: StoredCopies + Drop,
    A: Allocator + Copy,
    S: StoreName,
{
    is_store_alike(store, plain, ids)
}

/// What a store counts, but for shares and readers.
pub(crate) fn counts_of<T, C, A, S>(store: &StoreOf<T, C, A, S>) -> Counted
where
    T: MutableRows + Drop,
    C: StoredCopies + Drop,
    A: Allocator + Copy,
    S: StoreName,
{
    Counted {
        facts: store.facts(),
        registered: store.registered(),
        rows_sealed: store.rows_sealed(),
        rows_held: store.rows_held(),
        references: references_of(store.tables()),
        ..entries_of(store)
    }
}

/// What of that its entries tell. A store's type is compared once for all of it.
fn entries_of<R: AllRows + Drop, C: StoredCopies + Drop, A: Allocator + Copy, S: StoreName>(
    store: &Store<Forest<R, A>, C, A, S>,
) -> Counted {
    Counted {
        book: store.book(),
        failed: store.failed_book(),
        clock: store.forest().clock(),
        ..Counted::NOTHING
    }
}

/// The tables of each row.
fn references_of<A: Allocator, S: StoreName>(manifest: &Manifest<A, S>) -> [u32; ROWS] {
    let mut references = [0; ROWS];
    for place in 0..ROWS {
        references[place] = manifest.references(Row::ALL[place]);
    }
    references
}

/// The same, of a store that is known by its forest alone.
fn run_at<R: AllRows + Drop, C: StoredCopies + Drop, A: Allocator + Copy, S: StoreName>(
    lists: Global,
    store: &mut Store<Forest<R, A>, C, A, S>,
    shares: &mut Vec<Share<S>, A>,
    share: usize,
    command: &Command<Global>,
) -> Outcome {
    match shares.get_mut(share) {
        Some(share) => run_with(lists, store, share, command),
        None => Ok(Answer::Nothing),
    }
}

/// Runs a batch or a pulse with a share, and no other command.
fn run_with<R: AllRows + Drop, C: StoredCopies + Drop, A: Allocator + Copy, S: StoreName>(
    lists: Global,
    store: &mut Store<Forest<R, A>, C, A, S>,
    share: &mut Share<S>,
    command: &Command<Global>,
) -> Outcome {
    match command {
        Command::Accounts { now, events } => {
            batch_outcome(lists, store.create_accounts(events.as_slice(), *now, share))
        }
        Command::Transfers { now, events } => {
            batch_outcome(
                lists,
                store.create_transfers(events.as_slice(), *now, share),
            )
        }
        Command::Pulse { now, max } => pulse_outcome(store.pulse(*now, *max, share)),
        _ => Ok(Answer::Nothing),
    }
}
