//! Tables of rows that are given.

use super::words::Row;
use std::alloc::Allocator;
use tf_btree::Tree;
use tf_mutable::MutableTable;
use tf_records::Refusal;
use tf_table::{Key, Sealed};

/// A tree of the rows of these tests.
pub(super) type Rows<A> = Tree<Key, Option<u64>, A>;

/// Puts a row of a new key. It tells whether the key was new.
pub(super) fn put<A: Allocator + Clone, M: MutableTable<u64, A>>(
    table: &mut M,
    key: Key,
    entry: Option<u64>,
) -> Result<bool, Refusal> {
    if table.find(&key).is_some() {
        return Ok(false);
    }
    let _ = table.put(key, entry)?;
    Ok(true)
}

/// Puts these rows, of which no key comes twice.
pub(super) fn put_all<A: Allocator + Clone, M: MutableTable<u64, A>>(
    table: &mut M,
    rows: &[Row],
) -> Result<bool, Refusal> {
    for row in rows {
        if !put(table, row.0, row.1)? {
            return Ok(false);
        }
    }
    Ok(true)
}

/// A table that is sealed from a mutable one of these rows.
pub(super) fn sealed<A: Allocator + Clone + Copy, M: MutableTable<u64, A>>(
    alloc: A,
    rows: &[Row],
) -> Result<Sealed<u64, A>, Refusal> {
    let mut table = M::new_in(alloc);
    let sealed = match put_all(&mut table, rows) {
        Ok(_) => table.seal(alloc),
        Err(refusal) => Err(refusal),
    };
    drop(table);
    sealed
}

/// Whether the table has these rows and no other.
pub(super) fn has_rows<A: Allocator>(table: &Sealed<u64, A>, rows: &[Row]) -> bool {
    let mut walk = table.seek(&Key::LEAST);
    for row in rows {
        if walk.next() != Some((&row.0, row.1.as_ref())) {
            return false;
        }
    }
    table.len() == rows.len() && walk.next().is_none()
}

/// Whether a sealed table has the rows of a mutable one, by rising key.
pub(super) fn is_copy<A: Allocator + Clone, M: MutableTable<u64, A>>(
    sealed: &Sealed<u64, A>,
    table: &M,
) -> bool {
    let mut last = None;
    for (key, entry) in sealed.seek(&Key::LEAST) {
        if last >= Some(*key) || table.find(key) != Some(entry) {
            return false;
        }
        last = Some(*key);
    }
    sealed.len() == table.len()
}
