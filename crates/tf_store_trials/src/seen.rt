//! One account that is stored, and whether readers see it.

use std::alloc::{Allocator, Global};
use tf_forest::Forest;
use tf_readers::{Asked, Found, Publishable, Reader};
use tf_rows::AllRows;
use tf_store::{Share, Store, StoreName, StoredCopies};
use tf_trials::bare_account;

/// The account that is stored.
pub const ID: u64 = 7;

/// Stores an account, and tells whether it is stored.
pub fn stores<R: AllRows + Drop, C: StoredCopies + Drop, A: Allocator + Copy, S: StoreName>(
    store: &mut Store<Forest<R, A>, C, A, S>,
    share: &mut Share<S>,
) -> bool {
    store.create_accounts(&[bare_account(ID)], 0, share).is_ok()
}

/// Whether the version that was published last has that account, if there is one to be had.
pub fn sees<V: Publishable + Drop, A: Allocator, S: StoreName>(
    alloc: Global,
    reader: &mut Reader<V, A, S>,
) -> Option<bool> {
    match reader.latest() {
        Some(version) => Some(has_account(alloc, &version)),
        None => None,
    }
}

/// Whether a version has that account.
fn has_account<V: Publishable>(alloc: Global, version: &V) -> bool {
    match version.ask(alloc, &Asked::AccountWithId(u128::from(ID))) {
        Ok(Found::Accounts(rows)) => rows.len() == 1,
        _ => false,
    }
}
