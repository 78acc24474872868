//! Boxes whose memory is refused, each in turn.
ghost use Rattle.std.specs.Prelude.{◌≡◌};

use crate::joins::Joined;
use crate::lists::{leaf_of, rising_of};
use linked_list_allocator::LocalHeap;
use std::alloc::Allocator;
use std::process::Abort;
use std::test::Fail;
use tf_records::Refusal;
use tf_scan::{Direction, Leaf, Scan};

/// Bytes by which a heap grows from one try to the next. No box is smaller.
const STEP: usize = 16;

/// What a join has: 0, its second timestamp, and none from an end on.
#[derive(Clone, Copy)]
pub(super) struct Has {
    pub(super) second: u64,
    pub(super) end: u64,
}

/// The scan gives 0 and its second timestamp, and none from the end on, and takes no memory for them.
fn assert_gives_two<P: Leaf, A: Allocator>(
    rt: &impl Abort,
    heap: &LocalHeap,
    scan: &mut Scan<P, A>,
    has: Has,
) {
    let used = heap.used();
    assert!(rt; scan.next() == Some(0));
    assert!(rt; scan.next() == Some(has.second));
    scan.seek(has.end);
    assert!(rt; scan.next().is_none());
    assert!(rt; heap.used() == used);
}

/// Joins two leaves, all of it in one heap. It tells whether its memory sufficed. A join that was refused gave everything back.
pub(super) fn is_joined<P: Leaf + Drop, A: Allocator + Copy>(
    rt: &impl Abort,
    heap: &LocalHeap,
    alloc: A,
    joined: Joined,
    left: P,
    right: P,
    has: Has,
) -> bool
    requires one_direction { P.direction right ≡ P.direction left }
{
    match joined.of(alloc, left, right) {
        Err(refusal) => {
            assert!(rt; refusal == Refusal::NoMemory);
            assert!(rt; heap.used() == 0);
            false
        }
        Ok(mut scan) => {
            assert_gives_two(rt, heap, &mut scan, has);
            true
        }
    }
}

/// How many heaps, each greater than the one before, are too small for a join of the first multiples of 2 and of 3.
fn count_refusals(
    rt: &(impl Abort + AllocGlobal),
    joined: Joined,
    second: u64,
) -> Result<usize, Fail> {
    let twos = rising_of(rt.alloc(), 2, 4)?;
    let threes = rising_of(rt.alloc(), 3, 3)?;
    for tries in 0..256usize {
        let heap = LocalHeap::new(rt.alloc(), tries * STEP)?;
        let left = leaf_of(Direction::Rising, &twos)?;
        let right = leaf_of(Direction::Rising, &threes)?;
        let has = Has { second, end: 7 };
        if is_joined(rt, &heap, &heap, joined, left, right, has) {
            return Ok(tries);
        }
    }
    Err(Fail::new("the join never succeeds"))
}

#[test]
fn each_box_may_be_refused(rt: HostRuntime) -> Result<(), Fail> {
    assert!(rt; count_refusals(&rt, Joined::Union, 2)? > 8);
    assert!(rt; count_refusals(&rt, Joined::Intersection, 6)? > 8);
    Ok(())
}
