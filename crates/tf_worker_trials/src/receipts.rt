//! A receipt, of which a reader learns.

use crate::calls::{publish, stores_one, take_book};
use std::alloc::Global;
use std::sync::Wait;
use tf_query::Version;
use tf_readers::{Publishable, Reader};
use tf_records::Refusal;
use tf_rows::SealRows;
use tf_store::{Receipt, Share, StoreName, VersionCopies};
use tf_store_trials::sees;
use tf_workers::SharedStore;

/// Tells a reader of receipts, and how many they are.
fn show_all<V: Publishable + Drop, S: StoreName>(
    receipts: Result<Vec<Receipt<Global, S>, Global>, Refusal>,
    reader: &mut Reader<V, Global, S>,
) -> usize {
    let Ok(receipts) = receipts else {
        return 0;
    };
    for receipt in &receipts {
        receipt.show(reader);
    }
    receipts.len()
}

/// Whether a reader sees an account only once it is published, and has learned of its receipt. Ends the store.
pub(crate) fn learn<T, C, V, S, R>(
    rt: &R,
    alloc: Global,
    shared: SharedStore<T, C, Global, S>,
    share: Share<S>,
    reader: Reader<V, Global, S>,
) -> bool
where
    T: SealRows<Global> + Drop,
    C: VersionCopies<Version<Global, S>, S> + Drop,
    V: Publishable + Drop,
    S: StoreName,
    R: Wait,
{
    let (mut shared, mut share, mut reader) = (shared, share, reader);
    let is_stored = stores_one(&mut shared, &mut share);
    let is_early = sees(alloc, &mut reader) != Some(false);
    let receipts = show_all(publish(rt, &mut shared), &mut reader);
    let is_seen = sees(alloc, &mut reader) == Some(true);
    take_book(shared) == 1 && is_stored && !is_early && receipts == 1 && is_seen
}
