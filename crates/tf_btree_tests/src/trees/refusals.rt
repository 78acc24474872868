//! Calls whose requests for memory are refused, each in turn.
use super::{count_copied, has_rows};
use crate::asserts::assert_at;
use linked_list_allocator::LocalHeap;
use std::alloc::{AllocError, Global};
use std::collections::BTreeMap;
use std::process::Abort;
use std::test::Fail;
use tf_btree::Tree;
use tf_records::Refusal;

/// Bytes by which the room grows from one try to the next.
///
/// They are no more than the least block that an insert asks for, a node without its runs, so each of its requests is
/// the first to be refused at some room.
const STEP: usize = 96;

/// Blocks that leave no memory of `heap` but one piece of `room` bytes, until they are dropped.
fn leave_room<'a>(
    rt: &impl AllocGlobal,
    heap: &'a LocalHeap,
    room: usize,
) -> Result<Vec<Vec<u8, &'a LocalHeap>>, AllocError> {
    let piece: Vec<u8, &LocalHeap> = Vec::with_capacity(heap, room)?;
    let mut blocks = Vec::new(rt.alloc());
    let mut size = heap.free();
    for _ in 0..1000 {
        if heap.free() == 0 {
            break;
        }
        match Vec::with_capacity(heap, size) {
            Ok(block) => blocks.push(block)?,
            Err(_) => size /= 2,
        }
    }
    drop(piece);
    Ok(blocks)
}

/// Puts a row in beside so much room. It tells the value that was there, or nothing where the row was refused.
fn insert_beside<'a>(
    rt: &(impl Abort + AllocGlobal),
    heap: &'a LocalHeap,
    tree: &mut Tree<u64, u64, &'a LocalHeap>,
    row: (u64, u64),
    room: usize,
) -> Result<Option<Option<u64>>, AllocError> {
    let blocks = leave_room(rt, heap, room)?;
    assert!(rt; heap.free() == room);
    let inserted = match tree.insert(row.0, row.1) {
        Ok(old) => Some(old),
        Err(returned) => {
            assert!(rt; returned == row && heap.free() == room);
            None
        }
    };
    drop(blocks);
    Ok(inserted)
}

/// Puts a row in with no room, and then with ever more of it, and gives the number of refusals before it goes in.
fn insert_in_the_end<'a>(
    rt: &(impl Abort + AllocGlobal),
    heap: &'a LocalHeap,
    tree: &mut Tree<u64, u64, &'a LocalHeap>,
    map: &mut BTreeMap<u64, u64>,
    row: (u64, u64),
) -> Result<usize, AllocError> {
    for refusals in 0..1000usize {
        if let Some(old) = insert_beside(rt, heap, tree, row, refusals * STEP)? {
            assert!(rt; map.insert(row.0, row.1)? == old);
            return Ok(refusals);
        }
        assert_at(rt, has_rows(tree, map), "rows after a refusal", row.0);
    }
    assert_at(rt, false, "no insert", row.0);
    Ok(0)
}

/// Keys `first`, `first + step` and so on, modulo 2,000.
#[derive(Clone, Copy)]
struct Order {
    first: u64,
    step: u64,
}

impl Order {
    /// The key of a place.
    fn key(self, place: u64) -> u64 {
        place.wrapping_mul(self.step).wrapping_add(self.first) % 2000
    }
}

/// Puts 2,000 rows in, in an order. It tells how many of them asked for memory.
fn count_refused<'a>(
    rt: &(impl Abort + AllocGlobal),
    heap: &'a LocalHeap,
    tree: &mut Tree<u64, u64, &'a LocalHeap>,
    map: &mut BTreeMap<u64, u64>,
    order: Order,
) -> Result<usize, AllocError> {
    let mut refused = 0usize;
    for value in 0..2000u64 {
        let row = (order.key(value), value);
        if insert_in_the_end(rt, heap, tree, map, row)? > 0 {
            refused = refused.saturating_add(1);
        }
    }
    assert!(rt; has_rows(tree, map));
    assert!(rt; tree.len() == 2000);
    Ok(refused)
}

/// Inserts in an order that are refused change nothing.
fn assert_refusals_change_nothing(
    rt: &(impl Abort + AllocGlobal),
    order: Order,
) -> Result<(), Fail> {
    let heap = LocalHeap::new(rt.alloc(), 1 << 18)?;
    let mut tree = Tree::new_in(&heap);
    let mut map = BTreeMap::new(rt.alloc());
    let refused = count_refused(rt, &heap, &mut tree, &mut map, order);
    drop(tree);
    drop(map);
    drop(heap);
    assert!(rt; refused? > 60);
    Ok(())
}

#[test]
fn refused_inserts_of_rising_keys_change_nothing(rt: HostRuntime) -> Result<(), Fail> {
    assert_refusals_change_nothing(&rt, Order { first: 0, step: 1 })
}

#[test]
fn refused_inserts_of_falling_keys_change_nothing(rt: HostRuntime) -> Result<(), Fail> {
    assert_refusals_change_nothing(
        &rt,
        Order {
            first: 1999,
            step: 1999,
        },
    )
}

#[test]
fn refused_inserts_of_mixed_keys_change_nothing(rt: HostRuntime) -> Result<(), Fail> {
    assert_refusals_change_nothing(
        &rt,
        Order {
            first: 7,
            step: 1009,
        },
    )
}

/// Copies rows into a heap that has no room for them.
fn assert_copy_refused(
    rt: &(impl Abort + AllocGlobal),
    tree: &mut Tree<u64, u64, Global>,
    heap: &LocalHeap,
) {
    for key in 0..100u64 {
        assert!(rt; matches!(tree.insert(key, key), Ok(None)));
    }
    assert!(rt; count_copied(tree, heap).err() == Some(Refusal::NoMemory));
    assert!(rt; count_copied(tree, rt.alloc()).ok() == Some(100));
}

#[test]
fn a_refused_copy_leaves_the_tree_as_it_was(rt: HostRuntime) -> Result<(), Fail> {
    let heap = LocalHeap::new(rt.alloc(), 64)?;
    let mut tree = Tree::new_in(rt.alloc());
    assert_copy_refused(&rt, &mut tree, &heap);
    drop(tree);
    drop(heap);
    Ok(())
}
