//! Rows of several tables. They are generic in the allocator, so that none of what makes them spells out its layout.
ghost use Rattle.std.specs.Prelude.{◌≡◌, IfSome};

use crate::lists::Multiples;
use std::alloc::Allocator;
use std::sync::Wait;
use tf_mutable::{Log, MutableTable};
use tf_records::Refusal;
use tf_registry::{Body, Naming, Registry, TableRef, Tables};
use tf_table::{Key, Sealed};

/// The tables over which the lists are spread.
const TABLES: u64 = 16;

/// What the prefixes of the row have.
pub(super) const LISTS: [Multiples; 5] = [
    Multiples { of: 2, count: 0 },
    Multiples { of: 2, count: 1 },
    Multiples {
        of: 2,
        count: 5_000,
    },
    Multiples { of: 3, count: 1 },
    Multiples {
        of: 3,
        count: 5_000,
    },
];

/// The value under which a list stands.
pub(super) fn value_of(list: Multiples) -> u128 {
    u128::from(list.of.wrapping_mul(10_000).wrapping_add(list.count))
}

/// What table `t`, counted from the oldest, has of a list at a timestamp, if it has the key.
///
/// Each timestamp has its own table. What it says there covers what an older one says, of some timestamps: of those
/// that are in the list a tombstone, and of those that aren't a value, under a tombstone.
fn entry(t: u64, list: Multiples, timestamp: u64) -> Option<Option<()>> {
    let own = timestamp % TABLES;
    let has = list.has(timestamp);
    let covers = own > 0 && timestamp % 7 == 0;
    if t == own && (has || covers) {
        Some(has.then_some(()))
    } else if covers && t == own / 2 {
        Some((!has).then_some(()))
    } else {
        None
    }
}

/// Puts an entry into a log, unless it has the key.
fn put<A: Allocator + Copy>(
    log: &mut Log<(), A>,
    value: u128,
    timestamp: u64,
    entry: Option<()>,
) -> Result<(), Refusal> {
    let key = Key { value, timestamp };
    if log.find(&key).is_none() {
        let _ = log.put(key, entry)?;
    }
    Ok(())
}

/// Puts into a log what table `t` has of all lists.
fn put_lists<A: Allocator + Copy>(log: &mut Log<(), A>, t: u64) -> Result<(), Refusal> {
    for list in LISTS {
        for timestamp in 0..list.end() {
            if let Some(entry) = entry(t, list, timestamp) {
                put(log, value_of(list), timestamp, entry)?;
            }
        }
    }
    Ok(())
}

/// Puts into a log a hundred timestamps, which follow those of table `t` - 1.
fn put_in_turn<A: Allocator + Copy>(log: &mut Log<(), A>, t: u64) -> Result<(), Refusal> {
    for place in 0..100u64 {
        let timestamp = t.saturating_mul(100).saturating_add(place);
        put(log, 1, timestamp, Some(()))?;
    }
    Ok(())
}

/// Which tables a row has.
#[derive(Clone, Copy)]
pub(super) enum Layout {
    /// Those over which the lists are spread, and which cover each other's rows.
    Spread,
    /// Twenty that follow each other in time.
    InTurn,
}

impl Layout {
    /// How many tables there are.
    fn tables(self) -> u64 {
        match self {
            Layout::Spread => TABLES,
            Layout::InTurn => 20,
        }
    }

    /// Table `t`, counted from the oldest.
    fn table<A: Allocator + Copy>(self, alloc: A, t: u64) -> Result<Sealed<(), A>, Refusal> {
        let mut log: Log<(), A> = Log::new_in(alloc);
        match self {
            Layout::Spread => put_lists(&mut log, t)?,
            Layout::InTurn => put_in_turn(&mut log, t)?,
        }
        log.seal(alloc)
    }
}

/// Pushes a table of level 0.
fn pushed<A: Allocator + Copy, N: Naming, R: Wait>(
    rt: &R,
    alloc: A,
    registry: &Registry<(), A>,
    sealed: Sealed<(), A>,
    oldest: bool,
) -> Option<TableRef<(), A, N>>
    requires here { registry.now ≡ N.shelf 4 }
    ensures level { IfSome result (λ reference. reference.table.level ≡ 0) }
    ensures oldest { IfSome result (λ reference. reference.table.oldest ≡ oldest) }
{
    let table = Body::new(sealed, 0, oldest).hold(alloc).ok()?;
    registry.push(rt, table).ok()
}

/// Puts a table in front of the others. It tells whether there was room and memory for it.
fn grow<A: Allocator + Copy, N: Naming, R: Wait>(
    rt: &R,
    alloc: A,
    registry: &Registry<(), A>,
    tables: &mut Tables<(), A, N>,
    sealed: Sealed<(), A>,
) -> bool
    requires here { registry.now ≡ N.shelf 4 }
{
    if tables.len() >= 64 || tables.weight() >= 1000 {
        return false;
    }
    match pushed(rt, alloc, registry, sealed, tables.is_empty()) {
        Some(table) => {
            tables.add(table);
            true
        }
        None => false,
    }
}

/// Gives a row without tables those of a layout.
pub(super) fn fill<A: Allocator + Copy, N: Naming, R: Wait>(
    rt: &R,
    alloc: A,
    registry: &Registry<(), A>,
    tables: &mut Tables<(), A, N>,
    layout: Layout,
) -> bool
    requires here { registry.now ≡ N.shelf 4 }
{
    for t in 0..layout.tables() {
        match layout.table(alloc, t) {
            Ok(sealed) => {
                if !grow(rt, alloc, registry, tables, sealed) {
                    return false;
                }
            }
            Err(_) => return false,
        }
    }
    true
}
