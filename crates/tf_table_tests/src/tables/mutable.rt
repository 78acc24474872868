//! Mutable tables of both kinds, beside the rows that should be left of them.

use super::making::{Rows, is_copy, put};
use super::places::{Spread, entry_at, key_at};
use crate::asserts::assert_at;
use std::alloc::Global;
use std::process::Abort;
use std::test::Fail;
use tf_mutable::{Log, MutableTable};
use tf_records::Refusal;

/// Rows of a table that is filled.
const ROWS: u64 = 2000;

/// Takes back the row of a place. It tells whether there was one.
fn take_back<M: MutableTable<u64, Global>>(
    table: &mut M,
    spread: Spread,
    place: u64,
    before: Option<Option<u64>>,
) -> bool {
    let key = key_at(spread, place);
    if table.find(&key).is_none() {
        return false;
    }
    table.take_back(&key, before);
    true
}

/// Puts a row. After every tenth it takes back the last three, newest first, and puts the first of them again, and after every
/// hundredth it takes back one that is older. It tells whether all were there that were taken back, and no other.
fn put_in_turn<M: MutableTable<u64, Global>>(
    table: &mut M,
    spread: Spread,
    i: u64,
) -> Result<bool, Refusal> {
    let mut is_right = put(table, key_at(spread, i), entry_at(spread, 1, i))?;
    if i % 10 == 9 {
        for back in 0..3 {
            is_right = is_right && take_back(table, spread, i.wrapping_sub(back), None);
        }
        is_right = is_right && put(table, key_at(spread, i.wrapping_sub(2)), Some(1))?;
    }
    if i % 100 == 99 {
        is_right = is_right
            && take_back(table, spread, i.wrapping_sub(49), None)
            && take_back(table, spread, i.wrapping_sub(59), Some(Some(2)));
    }
    Ok(is_right)
}

/// What is left at place `i` of a table that was filled so.
fn left(spread: Spread, i: u64) -> Option<Option<u64>> {
    match (i % 100, i % 10) {
        (50, _) | (_, 8) | (_, 9) => None,
        (40, _) => Some(Some(2)),
        (_, 7) => Some(Some(1)),
        _ => Some(entry_at(spread, 1, i)),
    }
}

/// The table has at each place what is left, and no other row.
fn assert_filled<M: MutableTable<u64, Global>>(rt: &impl Abort, table: &M, spread: Spread) {
    let mut rows = 0usize;
    for i in 0..ROWS {
        let expected = left(spread, i);
        rows = rows.wrapping_add(usize::from(expected.is_some()));
        let is_found = match (table.find(&key_at(spread, i)), expected) {
            (Some(found), Some(entry)) => found.copied() == entry,
            (None, None) => true,
            _ => false,
        };
        assert_at(rt, is_found, "what is found", i);
    }
    assert!(rt; table.len() == rows);
}

/// Whether a mutable table is sealed with its rows.
fn is_sealed_so<M: MutableTable<u64, Global>>(
    alloc: Global,
    table: &mut M,
) -> Result<bool, Refusal> {
    let sealed = table.seal(alloc)?;
    let is_copy = is_copy(&sealed, table);
    drop(sealed);
    Ok(is_copy)
}

/// A table that was sealed has the same rows, takes one more and gives it back, and is sealed with them again. Without rows it is
/// sealed as a table without rows, and takes rows again.
fn goes_on<M: MutableTable<u64, Global>>(
    alloc: Global,
    table: &mut M,
    spread: Spread,
) -> Result<bool, Refusal> {
    let goes_on = put(table, key_at(spread, ROWS), Some(7))?
        && take_back(table, spread, ROWS, None)
        && is_sealed_so(alloc, table)?;
    table.clear();
    Ok(
        goes_on
            && table.is_empty()
            && is_sealed_so(alloc, table)?
            && put(table, key_at(spread, 1), Some(7))?
            && table.len() == 1,
    )
}

/// A table that is filled one row after another has the rows that are left, before and after it is sealed with them.
fn assert_turns<M: MutableTable<u64, Global>>(
    rt: &(impl Abort + AllocGlobal),
    table: &mut M,
    spread: Spread,
) -> Result<(), Refusal> {
    assert!(rt; table.is_empty());
    for i in 0..ROWS {
        assert_at(rt, put_in_turn(table, spread, i)?, "a row", i);
    }
    assert_filled(rt, table, spread);
    assert!(rt; is_sealed_so(rt.alloc(), table)?);
    assert_filled(rt, table, spread);
    assert!(rt; goes_on(rt.alloc(), table, spread)?);
    Ok(())
}

/// The same of a table of a kind.
fn assert_kind<M: MutableTable<u64, Global>>(
    rt: &(impl Abort + AllocGlobal),
    spread: Spread,
) -> Result<(), Refusal> {
    let mut table = M::new_in(rt.alloc());
    let outcome = assert_turns(rt, &mut table, spread);
    drop(table);
    outcome
}

#[test]
fn both_kinds_mean_the_same_rows(rt: HostRuntime) -> Result<(), Fail> {
    for spread in [Spread::Bare, Spread::Scattered] {
        assert_kind::<Log<u64, Global>>(&rt, spread)?;
        assert_kind::<Rows<Global>>(&rt, spread)?;
    }
    Ok(())
}
