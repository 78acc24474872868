//! Walks from random keys, up and down, beside the rows of an ordered map.
use super::{advance, copied, insert_both};
use crate::asserts::assert_at;
use std::alloc::{AllocError, Global};
use std::collections::BTreeMap;
use std::process::Abort;
use std::test::Fail;
use tf_btree::Tree;

/// The steps of a walk.
const STEPS: usize = 100;

/// Fills both with a few thousand rows of random keys below 20,000. It tells whether there was memory for them.
fn is_filled(tree: &mut Tree<u64, u64, Global>, map: &mut BTreeMap<u64, u64>) -> bool {
    let mut state = 5;
    for _ in 0..5000 {
        state = advance(state);
        let is_inserted = insert_both(tree, map, (state >> 33) % 20000, state);
        let gone = (state >> 11) % 20000;
        if !is_inserted || tree.remove(&gone) != map.remove(&gone) {
            return false;
        }
    }
    true
}

/// The rows of a map.
fn rows_of(alloc: Global, map: &BTreeMap<u64, u64>) -> Result<Vec<(u64, u64)>, AllocError> {
    let mut rows = Vec::new(alloc);
    for (key, value) in map {
        rows.push((*key, *value))?;
    }
    Ok(rows)
}

/// How many rows have keys below this one.
fn count_below(rows: &[(u64, u64)], key: u64) -> usize {
    let mut count = 0usize;
    for row in rows {
        if row.0 < key {
            count = count.saturating_add(1);
        }
    }
    count
}

/// Whether walks up and down from a key give the next rows.
fn gives_next(tree: &Tree<u64, u64, Global>, rows: &[(u64, u64)], key: u64) -> bool {
    let above = count_below(rows, key);
    let upto = count_below(rows, key.saturating_add(1));
    let (mut up, mut down) = (tree.seek(&key), tree.seek_back(&key));
    for step in 0..STEPS {
        // Below the first row the place wraps to one behind all rows.
        let next = rows.get(above.saturating_add(step));
        let last = rows.get(upto.wrapping_sub(step).wrapping_sub(1));
        if copied(up.next()) != next.copied() || copied(down.next()) != last.copied() {
            return false;
        }
    }
    true
}

/// Walks from random keys of a tree with random rows give the next rows.
fn assert_walks(
    rt: &(impl Abort + AllocGlobal),
    tree: &mut Tree<u64, u64, Global>,
    map: &mut BTreeMap<u64, u64>,
) -> Result<(), AllocError> {
    assert!(rt; is_filled(tree, map));
    let rows = rows_of(rt.alloc(), map)?;
    assert!(rt; tree.len() == rows.len());
    let mut state = 9;
    for _ in 0..300 {
        state = advance(state);
        let key = (state >> 33) % 20100;
        assert_at(rt, gives_next(tree, &rows, key), "the next rows", key);
    }
    Ok(())
}

#[test]
fn walks_from_random_keys_give_the_next_rows(rt: HostRuntime) -> Result<(), Fail> {
    let mut tree = Tree::new_in(rt.alloc());
    let mut map = BTreeMap::new(rt.alloc());
    let outcome = assert_walks(&rt, &mut tree, &mut map);
    drop(tree);
    drop(map);
    Ok(outcome?)
}

/// Whether a walk down from the greatest key gives every row, and then none for good.
fn gives_all_down(tree: &Tree<u64, u64, Global>, rows: &[(u64, u64)]) -> bool {
    let mut down = tree.rows_back();
    for row in rows.iter().rev() {
        if copied(down.next()) != Some(*row) {
            return false;
        }
    }
    down.next().is_none() && down.next().is_none()
}

/// It does so of a tree with random rows.
fn assert_walk_down(
    rt: &(impl Abort + AllocGlobal),
    tree: &mut Tree<u64, u64, Global>,
    map: &mut BTreeMap<u64, u64>,
) -> Result<(), AllocError> {
    assert!(rt; is_filled(tree, map));
    let rows = rows_of(rt.alloc(), map)?;
    assert!(rt; gives_all_down(tree, &rows));
    Ok(())
}

#[test]
fn a_walk_down_gives_every_row_from_the_greatest_key(rt: HostRuntime) -> Result<(), Fail> {
    let mut tree = Tree::new_in(rt.alloc());
    let mut map = BTreeMap::new(rt.alloc());
    let outcome = assert_walk_down(&rt, &mut tree, &mut map);
    drop(tree);
    drop(map);
    Ok(outcome?)
}

/// The first two rows of a walk down from a key.
fn two_down(tree: &Tree<u32, u32, Global>, key: u32) -> [Option<(u32, u32)>; 2] {
    let mut rows = tree.seek_back(&key);
    [copied(rows.next()), copied(rows.next())]
}

/// Whether walks down end where they should from keys below, on and between those of a tree with each tenth key, and above them.
fn has_ends(tree: &Tree<u32, u32, Global>) -> bool {
    two_down(tree, 9) == [None, None]
        && two_down(tree, 10) == [Some((10, 1)), None]
        && two_down(tree, 335) == [Some((330, 33)), Some((320, 32))]
        && two_down(tree, 5000)[0] == Some((640, 64))
}

/// Inserts each tenth key. It tells whether there was memory for them.
fn insert_tens(tree: &mut Tree<u32, u32, Global>) -> bool {
    for key in 1..=64u32 {
        if !matches!(tree.insert(10 * key, key), Ok(None)) {
            return false;
        }
    }
    true
}

#[test]
fn a_walk_down_ends_where_no_key_is_left(rt: HostRuntime) -> Result<(), Fail> {
    let mut tree = Tree::new_in(rt.alloc());
    let is_empty = tree.rows_back().next().is_none() && two_down(&tree, 0) == [None, None];
    let has_ends = insert_tens(&mut tree) && has_ends(&tree);
    drop(tree);
    assert!(rt; is_empty && has_ends);
    Ok(())
}
