//! How far scans read their leaves: no contract counts calls.
ghost use Rattle.std.specs.Prelude.{◌≡◌, IfOk};
ghost use Rattle.tf_scan.specs.declared.direction.Direction.TheVariants.{Rising};

use crate::joins::Joined;
use crate::lists::{leaf_of, rising_of};
use std::alloc::Allocator;
use std::cell::Cell;
use std::process::Abort;
use std::test::Fail;
use tf_scan::{Direction, Leaf, PostingList, Scan};

/// A list that counts how often it is read.
#[derive(Drop)]
struct Counted<'a> {
    list: PostingList<'a>,
    reads: &'a Cell<u64>,
}

impl<'a> Counted<'a> {
    /// Counts one more.
    fn count(&self) {
        self.reads.set(self.reads.get().saturating_add(1));
    }
}

impl<'a> Leaf for Counted<'a> {
    ghost left = { λ c. c.list.left };

    ghost direction = { λ c. c.list.direction };

    fn direction(&self) -> Direction {
        self.list.direction()
    }

    fn next(&mut self) -> Option<u64> {
        self.count();
        self.list.next()
    }

    fn seek(&mut self, timestamp: u64) {
        self.count();
        self.list.seek(timestamp);
    }
}

/// A leaf of the timestamps in a list, which rise, that counts how often it is read.
fn count_reads<'a>(list: &'a [u64], reads: &'a Cell<u64>) -> Result<Counted<'a>, Fail>
    ensures { IfOk result (λ leaf. leaf.list.direction ≡ Rising) }
{
    let list = leaf_of(Direction::Rising, list)?;
    Ok(Counted { list, reads })
}

/// Whether the two parts were read so often.
fn have_read(left: &Cell<u64>, right: &Cell<u64>, lefts: u64, rights: u64) -> bool {
    left.get() == lefts && right.get() == rights
}

/// The union reads the first timestamp of each part at its first `next`, and then no further than it needs.
fn assert_reads_late<P: Leaf, A: Allocator>(
    rt: &impl Abort,
    scan: &mut Scan<P, A>,
    evens: &Cell<u64>,
    tens: &Cell<u64>,
) {
    assert!(rt; have_read(evens, tens, 0, 0));
    // Behind 0 both gave theirs, so both are asked again, and then one of them until the other's turn.
    for (timestamp, lefts, rights) in [(0, 1, 1), (2, 2, 2), (4, 3, 2), (6, 4, 2)] {
        assert!(rt; scan.next() == Some(timestamp));
        assert!(rt; have_read(evens, tens, lefts, rights));
    }
    // The seek stays before the first timestamp of one, so the other alone is asked.
    scan.seek(9);
    assert!(rt; have_read(evens, tens, 5, 2));
}

/// The one with many timestamps is sought about as often as the other has some.
fn assert_seeks<P: Leaf, A: Allocator>(
    rt: &impl Abort,
    scan: &mut Scan<P, A>,
    few: &Cell<u64>,
    many: &Cell<u64>,
) {
    assert!(rt; have_read(few, many, 0, 0));
    for place in 0..10u64 {
        assert!(rt; scan.next() == Some(500 * place));
    }
    assert!(rt; scan.next().is_none());
    assert!(rt; few.get() <= 11 && many.get() <= 40);
}

/// How far a join of two lists reads them.
fn assert_reads(
    rt: &(impl Abort + AllocGlobal),
    joined: Joined,
    lefts: &[u64],
    rights: &[u64],
) -> Result<(), Fail> {
    let (left, right) = (Cell::new(0), Cell::new(0));
    let first = count_reads(lefts, &left)?;
    let second = count_reads(rights, &right)?;
    let mut scan = joined.of(rt.alloc(), first, second)?;
    match joined {
        Joined::Union => assert_reads_late(rt, &mut scan, &left, &right),
        Joined::Intersection => assert_seeks(rt, &mut scan, &left, &right),
    }
    Ok(())
}

#[test]
fn leaves_are_read_no_further_than_needed(rt: HostRuntime) -> Result<(), Fail> {
    let evens = rising_of(rt.alloc(), 2, 50)?;
    let tens = rising_of(rt.alloc(), 10, 10)?;
    assert_reads(&rt, Joined::Union, &evens, &tens)?;
    let few = rising_of(rt.alloc(), 500, 10)?;
    let many = rising_of(rt.alloc(), 1, 5_000)?;
    assert_reads(&rt, Joined::Intersection, &few, &many)
}
