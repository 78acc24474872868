//! Look-ups of a store and of the plain ledger, which answer alike.

use std::alloc::Allocator;
use tf_forest::Forest;
use tf_journal::Ledger;
use tf_rows::AllRows;
use tf_store::{Store, StoreName, StoredCopies};
use tf_trials::Plain;

/// Whether books, clocks, lengths, what is due, and the look-ups of so many ids, from 0 on, are the same.
pub fn is_store_alike<R: AllRows + Drop, C: StoredCopies + Drop, A: Allocator + Copy, S: StoreName>(
    store: &Store<Forest<R, A>, C, A, S>,
    plain: &Plain,
    ids: u32,
) -> bool {
    are_books_alike(store.book(), store.failed_book(), plain)
        && are_ledgers_alike(plain.ledger(), store.forest(), ids)
}

/// The number of what is stored, and that of failed ids.
fn are_books_alike(book: u64, failed: u64, plain: &Plain) -> bool {
    let entries = plain.ledger().mark().length;
    let stored = plain.book();
    book == stored as u64 && failed == entries.saturating_sub(stored) as u64
}

/// Clocks, lengths, what is due, and the look-ups of so many ids.
fn are_ledgers_alike<L: Ledger, M: Ledger>(plain: &L, forest: &M, ids: u32) -> bool {
    let clock = plain.clock();
    forest.clock() == clock
        && forest.mark() == plain.mark()
        && is_due_alike(plain, forest, clock)
        && is_due_alike(plain, forest, u64::MAX)
        && are_ids_alike(plain, forest, ids)
}

fn are_ids_alike<L: Ledger, M: Ledger>(plain: &L, forest: &M, ids: u32) -> bool {
    for id in 0..ids {
        if !is_id_alike(plain, forest, id.into()) {
            return false;
        }
    }
    true
}

fn is_id_alike<L: Ledger, M: Ledger>(plain: &L, forest: &M, id: u128) -> bool {
    forest.account(id) == plain.account(id)
        && forest.failed(id) == plain.failed(id)
        && forest.id_use(id) == plain.id_use(id)
        && is_transfer_alike(plain, forest, id)
}

/// The transfer with an id, and what became of it where it was pending.
fn is_transfer_alike<L: Ledger, M: Ledger>(plain: &L, forest: &M, id: u128) -> bool {
    let expected = plain.transfer(id);
    if forest.transfer(id) != expected {
        return false;
    }
    match expected {
        Some(transfer) => { forest.status(transfer.timestamp) == plain.status(transfer.timestamp) }
        None => true,
    }
}

/// What is due at a moment.
fn is_due_alike<L: Ledger, M: Ledger>(plain: &L, forest: &M, moment: u64) -> bool {
    forest.next_due(moment) == plain.next_due(moment)
        && forest.due_count(moment, 0) == plain.due_count(moment, 0)
        && forest.due_count(moment, 1) == plain.due_count(moment, 1)
        && forest.due_count(moment, u32::MAX) == plain.due_count(moment, u32::MAX)
}
