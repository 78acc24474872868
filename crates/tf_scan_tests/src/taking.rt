//! Timestamps that are moved into a slice, beside lists that were made apart.
ghost use Rattle.std.specs.Prelude.{◌≡◌};

use crate::joins::{JOINS, Joined};
use crate::lists::{DIRECTIONS, Multiples, leaf_of, list_of};
use std::alloc::Allocator;
use std::process::Abort;
use std::test::Fail;
use tf_scan::{Direction, Leaf, Scan};

/// The scan moves these timestamps and no other, so many at once.
fn assert_moves<P: Leaf, A: Allocator>(
    rt: &impl Abort,
    scan: &mut Scan<P, A>,
    list: &[u64],
    room: &mut [u64],
) {
    let mut left = list.iter();
    for _part in 0..=list.len() {
        let taken = scan.take_into(room);
        for timestamp in &room[..taken] {
            assert!(rt; left.next().copied() == Some(*timestamp));
        }
        if taken < room.len() {
            assert!(rt; left.next().is_none());
            break;
        }
    }
    assert!(rt; scan.next() == left.next().copied());
}

/// The same of a leaf, which seeks first where it is told to.
pub(super) fn assert_leaf_moves<P: Leaf + Drop, A: Allocator>(
    rt: &impl Abort,
    alloc: A,
    leaf: P,
    from: Option<u64>,
    list: &[u64],
    room: &mut [u64],
) -> Result<(), Fail> {
    let mut scan = Scan::leaf(alloc, leaf)?;
    if let Some(from) = from {
        scan.seek(from);
    }
    assert_moves(rt, &mut scan, list, room);
    Ok(())
}

/// The same of a join of two leaves of one list.
fn assert_join_moves<P: Leaf + Drop, A: Allocator + Copy>(
    rt: &impl Abort,
    alloc: A,
    joined: Joined,
    left: P,
    right: P,
    list: &[u64],
    room: &mut [u64],
) -> Result<(), Fail>
    requires one_direction { P.direction right ≡ P.direction left }
{
    let mut scan = joined.of(alloc, left, right)?;
    assert_moves(rt, &mut scan, list, room);
    Ok(())
}

/// The same of a list, and of its union and its intersection with itself.
fn assert_list_moves(
    rt: &(impl Abort + AllocGlobal),
    direction: Direction,
    list: &[u64],
    room: &mut [u64],
) -> Result<(), Fail> {
    let leaf = leaf_of(direction, list)?;
    assert_leaf_moves(rt, rt.alloc(), leaf, None, list, room)?;
    for joined in JOINS {
        let left = leaf_of(direction, list)?;
        let right = leaf_of(direction, list)?;
        assert_join_moves(rt, rt.alloc(), joined, left, right, list, room)?;
    }
    Ok(())
}

#[test]
fn lists_are_moved_in_parts(rt: HostRuntime) -> Result<(), Fail> {
    for count in [0, 1, 64] {
        for direction in DIRECTIONS {
            let list = list_of(rt.alloc(), direction, Multiples { of: 3, count })?;
            for size in [0, 1, 63, 64, 65] {
                let mut room = vec![in rt.alloc(); 0; size]?;
                assert_list_moves(&rt, direction, &list, &mut room)?;
            }
        }
    }
    Ok(())
}
