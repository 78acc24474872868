//! The tree beside an ordered map.
mod cursors;
mod refusals;

use crate::asserts::assert_at;
use std::alloc::{Allocator, Global};
use std::collections::BTreeMap;
use std::process::Abort;
use std::test::Fail;
use tf_btree::Tree;
use tf_records::Refusal;

/// The number behind `state` of a small generator.
fn advance(state: u64) -> u64 {
    state
        .wrapping_mul(6364136223846793005)
        .wrapping_add(1442695040888963407)
}

/// A row that is lent, if there is one.
fn copied<K: Copy, V: Copy>(row: Option<(&K, &V)>) -> Option<(K, V)> {
    match row {
        Some((key, value)) => Some((*key, *value)),
        None => None,
    }
}

/// Whether the tree has the rows of the map and no other.
fn has_rows<A: Allocator>(tree: &Tree<u64, u64, A>, map: &BTreeMap<u64, u64>) -> bool {
    let mut rows = tree.rows();
    for (key, value) in map {
        if copied(rows.next()) != Some((*key, *value)) {
            return false;
        }
    }
    tree.len() == map.len() && rows.next().is_none()
}

/// Inserts a row in both. It tells whether there was memory for it and both answer alike.
fn insert_both(
    tree: &mut Tree<u64, u64, Global>,
    map: &mut BTreeMap<u64, u64>,
    key: u64,
    value: u64,
) -> bool {
    match (tree.insert(key, value), map.insert(key, value)) {
        (Ok(old), Ok(other)) => old == other,
        _ => false,
    }
}

/// Removes or inserts the key of a state in both. It tells whether both answer alike.
fn answer_alike(
    tree: &mut Tree<u64, u64, Global>,
    map: &mut BTreeMap<u64, u64>,
    state: u64,
) -> bool {
    let key = (state >> 33) % 3000;
    let alike = if (state >> 20) % 3 == 0 {
        tree.remove(&key) == map.remove(&key)
    } else {
        insert_both(tree, map, key, state)
    };
    alike && tree.get(&key).copied() == map.get(&key).copied()
}

/// The number of rows of a copy.
fn count_copied<A: Allocator, B: Allocator>(
    tree: &Tree<u64, u64, A>,
    alloc: B,
) -> Result<usize, Refusal> {
    Ok(tree.copy_rows(alloc)?.len())
}

/// Mixed calls of both, which answer alike and leave the same rows.
fn assert_same_answers(
    rt: &(impl Abort + AllocGlobal),
    tree: &mut Tree<u64, u64, Global>,
    map: &mut BTreeMap<u64, u64>,
) {
    let mut state = 1;
    for call in 0..10000u64 {
        state = advance(state);
        assert_at(rt, answer_alike(tree, map, state), "the answer", call);
    }
    assert!(rt; has_rows(tree, map));
    assert!(rt; count_copied(tree, rt.alloc()).ok() == Some(map.len()));
}

#[test]
fn answers_as_an_ordered_map_over_mixed_calls(rt: HostRuntime) -> Result<(), Fail> {
    let mut tree = Tree::new_in(rt.alloc());
    let mut map = BTreeMap::new(rt.alloc());
    assert_same_answers(&rt, &mut tree, &mut map);
    drop(tree);
    drop(map);
    Ok(())
}

/// Whether the tree has no row.
fn has_none(tree: &Tree<u32, u64, Global>) -> bool {
    tree.is_empty() && tree.height() == 0 && tree.rows().next().is_none()
}

/// Whether the tree has the rising keys, which are found from any key on.
fn has_rising(tree: &Tree<u32, u64, Global>) -> bool {
    // There are 62 full leaves of 32 rows and a last one, so two branches and a root over them.
    tree.len() == 2000
        && tree.height() == 3
        && copied(tree.seek(&777).next()) == Some((777, 777))
        && tree.seek(&2000).next().is_none()
}

/// Inserts rising keys. It tells whether there was memory for them and none was there.
fn insert_rising(tree: &mut Tree<u32, u64, Global>) -> bool {
    for key in 0..2000u32 {
        if !matches!(tree.insert(key, u64::from(key)), Ok(None)) {
            return false;
        }
    }
    true
}

/// Removes all of them but the first. It tells whether they were there.
fn remove_rising(tree: &mut Tree<u32, u64, Global>) -> bool {
    for key in 1..2000u32 {
        if tree.remove(&key) != Some(u64::from(key)) {
            return false;
        }
    }
    true
}

/// Rising keys are inserted and removed again.
fn assert_rising(rt: &impl Abort, tree: &mut Tree<u32, u64, Global>) {
    assert!(rt; has_none(tree) && insert_rising(tree));
    assert!(rt; has_rising(tree) && remove_rising(tree));
    assert!(rt; tree.height() == 1);
    tree.clear();
    assert!(rt; has_none(tree));
}

#[test]
fn rising_keys_are_found_from_any_key_on(rt: HostRuntime) -> Result<(), Fail> {
    let mut tree = Tree::new_in(rt.alloc());
    assert_rising(&rt, &mut tree);
    drop(tree);
    Ok(())
}
