//! Unions and intersections beside the plain filter. What makes and asks them is generic in the leaf, and names no type of a row.
ghost use Rattle.std.specs.Prelude.{◌≡◌, IfOk};

use crate::lists::{DIRECTIONS, Multiples, leaf_of, list_of};
use std::alloc::Allocator;
use std::process::Abort;
use std::test::Fail;
use tf_records::Refusal;
use tf_scan::{Direction, Leaf, Scan};

/// Which timestamps a join of two lists has.
#[derive(Clone, Copy)]
pub(super) enum Joined {
    Union,
    Intersection,
}

/// Both joins.
pub(super) const JOINS: [Joined; 2] = [Joined::Union, Joined::Intersection];

impl Joined {
    /// A join of two leaves: a box for each of them, and two for the join.
    pub(super) fn of<P: Leaf + Drop, A: Allocator + Copy>(
        self,
        alloc: A,
        left: P,
        right: P,
    ) -> Result<Scan<P, A>, Refusal>
        requires one_direction { P.direction right ≡ P.direction left }
        ensures { IfOk result (λ scan. scan.direction ≡ P.direction left) }
    {
        let left = Scan::leaf(alloc, left)?;
        let right = Scan::leaf(alloc, right)?;
        match self {
            Joined::Union => Scan::union(alloc, left, right),
            Joined::Intersection => Scan::intersection(alloc, left, right),
        }
    }

    /// Whether it has a timestamp.
    fn has(self, left: Multiples, right: Multiples, timestamp: u64) -> bool {
        match self {
            Joined::Union => left.has(timestamp) || right.has(timestamp),
            Joined::Intersection => left.has(timestamp) && right.has(timestamp),
        }
    }
}

/// Two lists to be joined, how many timestamps the join gives before it seeks, and where it seeks to.
#[derive(Clone, Copy)]
pub(super) struct Case {
    pub(super) left: Multiples,
    pub(super) right: Multiples,
    pub(super) after: u64,
    pub(super) to: u64,
}

impl Case {
    /// Two lists, with no seek before everything was given.
    pub(super) fn of(left: Multiples, right: Multiples) -> Case {
        Case {
            left,
            right,
            after: u64::MAX,
            to: 0,
        }
    }
}

/// The scan gives what the plain filter does, where it seeks once.
fn assert_gives<P: Leaf, A: Allocator>(
    rt: &impl Abort,
    scan: &mut Scan<P, A>,
    joined: Joined,
    case: Case,
) {
    let direction = scan.direction();
    let end = case.left.end().max(case.right.end());
    let mut given = 0u64;
    let mut sought = false;
    for place in 0..end {
        let timestamp = match direction {
            Direction::Rising => place,
            Direction::Falling => end - 1 - place,
        };
        if given == case.after && !sought {
            scan.seek(case.to);
            sought = true;
        }
        let passed = sought && direction.is_before(timestamp, case.to);
        if !passed && joined.has(case.left, case.right, timestamp) {
            assert!(rt; scan.next() == Some(timestamp));
            given = given.saturating_add(1);
        }
    }
    assert!(rt; scan.next().is_none());
    scan.seek(case.to);
    assert!(rt; scan.next().is_none());
}

/// The same of a join of these two leaves.
pub(super) fn assert_join<P: Leaf + Drop, A: Allocator + Copy>(
    rt: &impl Abort,
    alloc: A,
    joined: Joined,
    left: P,
    right: P,
    case: Case,
) -> Result<(), Fail>
    requires one_direction { P.direction right ≡ P.direction left }
{
    let mut scan = joined.of(alloc, left, right)?;
    assert_gives(rt, &mut scan, joined, case);
    Ok(())
}

/// The same of both joins of two lists, in both directions.
fn assert_joins(rt: &(impl Abort + AllocGlobal), case: Case) -> Result<(), Fail> {
    for direction in DIRECTIONS {
        let lefts = list_of(rt.alloc(), direction, case.left)?;
        let rights = list_of(rt.alloc(), direction, case.right)?;
        for joined in JOINS {
            let left = leaf_of(direction, &lefts)?;
            let right = leaf_of(direction, &rights)?;
            assert_join(rt, rt.alloc(), joined, left, right, case)?;
        }
    }
    Ok(())
}

#[test]
fn joins_are_the_plain_filter(rt: HostRuntime) -> Result<(), Fail> {
    for count in [0, 1, 5_000] {
        for other in [0, 1, 5_000] {
            for of in [3, 2] {
                let left = Multiples { of: 2, count };
                let right = Multiples { of, count: other };
                assert_joins(&rt, Case::of(left, right))?;
            }
        }
    }
    // One with few timestamps and one with many.
    let few = Multiples { of: 500, count: 30 };
    let many = Multiples {
        of: 1,
        count: 5_000,
    };
    assert_joins(&rt, Case::of(few, many))?;
    assert_joins(&rt, Case::of(many, few))
}

#[test]
fn seeks_before_on_and_past_each_end_are_the_plain_filter(rt: HostRuntime) -> Result<(), Fail> {
    let left = Multiples {
        of: 2,
        count: 5_000,
    };
    let right = Multiples {
        of: 3,
        count: 5_000,
    };
    let tos = [
        0,
        1,
        6,
        7,
        8,
        9,
        5_000,
        9_996,
        9_998,
        9_999,
        14_996,
        14_997,
        14_998,
        u64::MAX,
    ];
    for after in [0, 1, 100] {
        for to in tos {
            assert_joins(
                &rt,
                Case {
                    left,
                    right,
                    after,
                    to,
                },
            )?;
        }
    }
    let left = Multiples { of: 7, count: 1 };
    for to in [0, 1, u64::MAX] {
        for right in [right, left] {
            assert_joins(
                &rt,
                Case {
                    left,
                    right,
                    after: 0,
                    to,
                },
            )?;
        }
    }
    Ok(())
}

/// The union of a list with the intersection of two others.
fn assert_join_of_join<P: Leaf + Drop, A: Allocator + Copy>(
    rt: &impl Abort,
    alloc: A,
    two: P,
    three: P,
    five: P,
) -> Result<(), Fail>
    requires two { P.direction three ≡ P.direction two }
    requires three { P.direction five ≡ P.direction two }
{
    let both = Joined::Intersection.of(alloc, two, three)?;
    let five = Scan::leaf(alloc, five)?;
    let mut scan = Scan::union(alloc, both, five)?;
    let case = Case {
        left: Multiples { of: 6, count: 500 },
        right: Multiples { of: 5, count: 600 },
        after: 3,
        to: 1_500,
    };
    assert_gives(rt, &mut scan, Joined::Union, case);
    Ok(())
}

#[test]
fn joins_of_joins_are_joins_too(rt: HostRuntime) -> Result<(), Fail> {
    for direction in DIRECTIONS {
        let twos = list_of(
            rt.alloc(),
            direction,
            Multiples {
                of: 2,
                count: 1_500,
            },
        )?;
        let threes = list_of(
            rt.alloc(),
            direction,
            Multiples {
                of: 3,
                count: 1_000,
            },
        )?;
        let fives = list_of(rt.alloc(), direction, Multiples { of: 5, count: 600 })?;
        let two = leaf_of(direction, &twos)?;
        let three = leaf_of(direction, &threes)?;
        let five = leaf_of(direction, &fives)?;
        assert_join_of_join(&rt, rt.alloc(), two, three, five)?;
    }
    Ok(())
}
