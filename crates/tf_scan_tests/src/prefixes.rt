//! Prefixes of rows over several tables, beside the plain filter and beside lists.
ghost use Rattle.std.specs.Prelude.{◌≡◌};

use crate::joins::{Case, JOINS, Joined, assert_join};
use crate::lists::{DIRECTIONS, list_of};
use crate::refusals::{Has, is_joined};
use crate::rows::{LISTS, Layout, fill, value_of};
use crate::taking::assert_leaf_moves;
use linked_list_allocator::LocalHeap;
use std::alloc::{AllocError, Allocator, Global};
use std::marker::Brand;
use std::process::Abort;
use std::sync::Wait;
use std::test::Fail;
use tf_registry::{Naming, Registry, Tables};
use tf_scan::{Direction, Leaf, Prefix, expected_places};

/// Tables as those see them that ask their prefixes, so that none of these spells out what tables are made of.
trait Prefixes<P: Leaf> {
    /// The prefix of a value.
    fn prefix(&self, value: u128, direction: Direction) -> P
        ensures { P.direction result ≡ direction };

    /// The same, which expects its rows where they stand.
    fn expecting(&self, value: u128, direction: Direction) -> P;

    /// How many of its tables weren't searched yet.
    fn unsearched(&self, prefix: &P) -> usize;
}

/// The tables of a row.
#[derive(Drop)]
struct Lent<'r, A: Allocator, N: Naming> {
    tables: &'r Tables<(), A, N>,
}

impl<'r, A: Allocator, N: Naming> Prefixes<Prefix<'r, (), A>> for Lent<'r, A, N> {
    fn prefix(&self, value: u128, direction: Direction) -> Prefix<'r, (), A> {
        Prefix::new(self.tables, value, direction)
    }

    fn expecting(&self, value: u128, direction: Direction) -> Prefix<'r, (), A> {
        let places = expected_places(self.tables, value);
        Prefix::expecting(self.tables, value, direction, &places)
    }

    fn unsearched(&self, prefix: &Prefix<'r, (), A>) -> usize {
        prefix.unsearched()
    }
}

/// Both joins of two prefixes give what the plain filter does, in both directions.
fn assert_joins<P: Leaf + Drop, T: Prefixes<P>, A: Allocator + Copy>(
    rt: &impl Abort,
    alloc: A,
    tables: &T,
    case: Case,
) -> Result<(), Fail> {
    for direction in DIRECTIONS {
        for joined in JOINS {
            let left = tables.prefix(value_of(case.left), direction);
            let right = tables.prefix(value_of(case.right), direction);
            assert_join(rt, alloc, joined, left, right, case)?;
        }
    }
    Ok(())
}

/// The same of each two of the lists, and of some with seeks.
fn assert_all_joins<P: Leaf + Drop, T: Prefixes<P>, A: Allocator + Copy>(
    rt: &impl Abort,
    alloc: A,
    tables: &T,
) -> Result<(), Fail> {
    for left in LISTS {
        for right in LISTS {
            assert_joins(rt, alloc, tables, Case::of(left, right))?;
        }
    }
    for to in [0, 1, 6, 7, 5_000, 9_998, 9_999, 14_997, 14_998, u64::MAX] {
        for (left, right, after) in [(2, 4, 0), (2, 4, 100), (1, 3, 0)] {
            let case = Case {
                left: LISTS[left],
                right: LISTS[right],
                after,
                to,
            };
            assert_joins(rt, alloc, tables, case)?;
        }
    }
    Ok(())
}

/// Two leaves give the same timestamps, so many of them, or both come to their ends.
fn assert_same<P: Leaf>(rt: &impl Abort, left: &mut P, right: &mut P, count: u64) {
    for _timestamp in 0..count {
        assert!(rt; left.next() == right.next());
    }
}

/// A prefix that expects its rows at places gives what one does that expects them nowhere, before a seek and after it.
fn assert_expecting<P: Leaf + Drop, T: Prefixes<P>>(
    rt: &impl Abort,
    tables: &T,
    value: u128,
    direction: Direction,
    to: u64,
) {
    let mut plain = tables.prefix(value, direction);
    let mut expecting = tables.expecting(value, direction);
    assert_same(rt, &mut plain, &mut expecting, 100);
    plain.seek(to);
    expecting.seek(to);
    assert_same(rt, &mut plain, &mut expecting, 16_000);
}

/// The same of values that the tables have, and of one that none has.
fn assert_all_expecting<P: Leaf + Drop, T: Prefixes<P>>(rt: &impl Abort, tables: &T) {
    for direction in DIRECTIONS {
        for value in [1, 7, value_of(LISTS[2]), value_of(LISTS[4])] {
            for to in [0, 1_095, 5_000, u64::MAX] {
                assert_expecting(rt, tables, value, direction, to);
            }
        }
    }
}

/// How timestamps are read.
#[derive(Clone, Copy)]
enum Way {
    OneByOne,
    Moved,
    AtHand,
}

/// Reads ten timestamps, or those at hand, and tells how many there are.
fn read<P: Leaf>(leaf: &mut P, way: Way, room: &mut [u64]) -> usize {
    match way {
        Way::Moved => leaf.take_into(room),
        Way::AtHand => leaf.take_some(room),
        Way::OneByOne => {
            for place in 0..room.len() {
                match leaf.next() {
                    Some(timestamp) => room[place] = timestamp,
                    None => return place,
                }
            }
            room.len()
        }
    }
}

/// Whether these are the timestamps from 1,095 on.
fn follow(direction: Direction, timestamps: &[u64]) -> bool {
    let mut wanted = 1_095u64;
    for timestamp in timestamps {
        if *timestamp != wanted {
            return false;
        }
        wanted = match direction {
            Direction::Rising => wanted.saturating_add(1),
            Direction::Falling => wanted.saturating_sub(1),
        };
    }
    true
}

/// How many timestamps are read from 1,095 on, and how many tables are searched for them at most, one at least.
fn wanted(direction: Direction, way: Way) -> (usize, usize) {
    match (way, direction) {
        (Way::AtHand, Direction::Rising) => (5, 1),
        (Way::AtHand, Direction::Falling) => (10, 1),
        _ => (10, 2),
    }
}

/// Ten timestamps of twenty tables search two of them at most, whichever way they are read, and what is at hand behind the first
/// searches no table but that timestamp's.
fn assert_few_searched<P: Leaf + Drop, T: Prefixes<P>>(
    rt: &impl Abort,
    tables: &T,
    direction: Direction,
    way: Way,
) {
    let mut prefix = tables.prefix(1, direction);
    prefix.seek(1_095);
    let closed = tables.unsearched(&prefix);
    let mut room = [0u64; 10];
    let count = read(&mut prefix, way, &mut room);
    let searched = closed.saturating_sub(tables.unsearched(&prefix));
    let (timestamps, most) = wanted(direction, way);
    assert!(rt; count == timestamps && count <= 10);
    assert!(rt; follow(direction, &room[..count]));
    assert!(rt; searched > 0 && searched <= most);
}

/// The same in both directions, and however they are read.
fn assert_few_are_searched<P: Leaf + Drop, T: Prefixes<P>>(rt: &impl Abort, tables: &T) {
    for direction in DIRECTIONS {
        for way in [Way::OneByOne, Way::Moved, Way::AtHand] {
            assert_few_searched(rt, tables, direction, way);
        }
    }
}

/// How many heaps, each greater than the one before, are too small for a join of two prefixes.
fn count_refusals<P: Leaf + Drop, T: Prefixes<P>>(
    rt: &(impl Abort + AllocGlobal),
    tables: &T,
) -> Result<usize, Fail> {
    for tries in 0..64usize {
        let heap = LocalHeap::new(rt.alloc(), tries * 128)?;
        let left = tables.prefix(1, Direction::Rising);
        let right = tables.prefix(1, Direction::Rising);
        let has = Has {
            second: 1,
            end: 2_000,
        };
        if is_joined(rt, &heap, &heap, Joined::Intersection, left, right, has) {
            return Ok(tries);
        }
    }
    Err(Fail::new("the join never succeeds"))
}

/// Prefixes move all lists, over tombstones and covered rows, in both directions and so many timestamps at once.
fn assert_prefixes_move<P: Leaf + Drop, T: Prefixes<P>, A: Allocator + Copy>(
    rt: &impl Abort,
    alloc: A,
    tables: &T,
) -> Result<(), Fail> {
    for list in LISTS {
        for size in [0, 1, 2, 4_999, 5_000, 5_001] {
            let mut room = vec![in alloc; 0; size]?;
            for direction in DIRECTIONS {
                let wanted = list_of(alloc, direction, list)?;
                let prefix = tables.prefix(value_of(list), direction);
                assert_leaf_moves(rt, alloc, prefix, None, &wanted, &mut room)?;
            }
        }
    }
    Ok(())
}

/// The timestamps up to 1,999 from one on.
fn timestamps_from<A: Allocator>(
    alloc: A,
    direction: Direction,
    from: u64,
) -> Result<Vec<u64, A>, AllocError> {
    let mut list = Vec::new(alloc);
    for place in 0..2_000u64 {
        let timestamp = match direction {
            Direction::Rising => place,
            Direction::Falling => 1_999 - place,
        };
        if !direction.is_before(timestamp, from) {
            list.push(timestamp)?;
        }
    }
    Ok(list)
}

/// Tables of a hundred timestamps each move what they have from several timestamps on, in both directions and so many at once.
fn assert_tables_move<P: Leaf + Drop, T: Prefixes<P>, A: Allocator + Copy>(
    rt: &impl Abort,
    alloc: A,
    tables: &T,
) -> Result<(), Fail> {
    for from in [0, 99, 100, 1_095, 1_999] {
        for size in [1, 99, 100, 101, 2_000] {
            let mut room = vec![in alloc; 0; size]?;
            for direction in DIRECTIONS {
                let wanted = timestamps_from(alloc, direction, from)?;
                let prefix = tables.prefix(1, direction);
                assert_leaf_moves(rt, alloc, prefix, Some(from), &wanted, &mut room)?;
            }
        }
    }
    Ok(())
}

/// What is tried with a row.
#[derive(Clone, Copy)]
enum Trial {
    Joins,
    ExpectedPlaces,
    FewTables,
    Refusals,
    ListsMove,
    TablesMove,
}

/// Tries something with the tables of a row.
fn assert_trial<P: Leaf + Drop, T: Prefixes<P>, A: Allocator + Copy>(
    rt: &(impl Abort + AllocGlobal),
    alloc: A,
    tables: &T,
    trial: Trial,
) -> Result<(), Fail> {
    match trial {
        Trial::Joins => assert_all_joins(rt, alloc, tables)?,
        Trial::ExpectedPlaces => assert_all_expecting(rt, tables),
        Trial::FewTables => assert_few_are_searched(rt, tables),
        // Each of the prefixes has two kilobytes, and is refused in any smaller heap.
        Trial::Refusals => assert!(rt; count_refusals(rt, tables)? > 32),
        Trial::ListsMove => assert_prefixes_move(rt, alloc, tables)?,
        Trial::TablesMove => assert_tables_move(rt, alloc, tables)?,
    }
    Ok(())
}

/// Tries something with a row of its own.
fn with_row<A: Allocator + Copy, N: Naming>(
    rt: &(impl Abort + AllocGlobal + Wait),
    alloc: A,
    registry: &Registry<(), A>,
    layout: Layout,
    trial: Trial,
) -> Result<(), Fail>
    requires here { registry.now ≡ N.shelf 4 }
{
    let mut tables: Tables<(), A, N> = Tables::new(alloc)?;
    let tried = if fill(rt, alloc, registry, &mut tables, layout) {
        assert_trial(rt, alloc, &Lent { tables: &tables }, trial)
    } else {
        Err(Fail::new("no memory for tables"))
    };
    drop(tables);
    tried
}

/// Tries something with a registry of its own.
fn on_a_row(
    rt: &(impl Abort + AllocGlobal + Wait),
    layout: Layout,
    trial: Trial,
) -> Result<(), Fail> {
    let registry = Registry::new(rt.alloc())?;
    let tried = with_row::<Global, Brand>(rt, rt.alloc(), &registry, layout, trial);
    drop(registry);
    tried
}

#[test]
fn joins_of_prefixes_are_the_plain_filter(rt: HostRuntime) -> Result<(), Fail> {
    on_a_row(&rt, Layout::Spread, Trial::Joins)
}

// Tables that the lists are spread over have fences.
#[test]
fn expected_places_change_no_timestamp(rt: HostRuntime) -> Result<(), Fail> {
    on_a_row(&rt, Layout::Spread, Trial::ExpectedPlaces)
}

#[test]
fn expected_places_in_small_tables_change_no_timestamp(rt: HostRuntime) -> Result<(), Fail> {
    on_a_row(&rt, Layout::InTurn, Trial::ExpectedPlaces)
}

#[test]
fn few_timestamps_search_few_tables(rt: HostRuntime) -> Result<(), Fail> {
    on_a_row(&rt, Layout::InTurn, Trial::FewTables)
}

#[test]
fn each_box_of_a_prefix_may_be_refused(rt: HostRuntime) -> Result<(), Fail> {
    on_a_row(&rt, Layout::InTurn, Trial::Refusals)
}

#[test]
fn prefixes_are_moved_in_parts(rt: HostRuntime) -> Result<(), Fail> {
    on_a_row(&rt, Layout::Spread, Trial::ListsMove)
}

#[test]
fn tables_are_moved_in_turn(rt: HostRuntime) -> Result<(), Fail> {
    on_a_row(&rt, Layout::InTurn, Trial::TablesMove)
}
