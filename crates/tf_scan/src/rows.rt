//! Rows of a table that was searched, from the side that comes first.
ghost use Rattle.std.specs.Prelude.{◌≡◌, ◌≤◌, [], length, MatchOption};
ghost use Rattle.tf_table.specs.Merge.{seen};
ghost use Rattle.tf_table.specs.Span.{timestamps};
ghost use Rattle.tf_scan.specs.Place.{first_in, IsTaken, rows_behind};
ghost use Rattle.tf_scan.specs.Run.{without};

use crate::Direction;
use std::alloc::Allocator;
use tf_table::{Cursor, Key, Row};

/// The timestamp of the row that comes first, None where there is no row.
#[inline(always)]
pub(crate) fn first_timestamp<V, A: Allocator>(
    direction: Direction,
    rows: &Cursor<'_, V, A>,
) -> Option<u64>
    ensures { result ≡ first_in direction (timestamps rows.now) }
{
    let (keys, _entries) = rows.runs();
    match direction.split_first(keys) {
        Some((key, _others)) => Some(key.timestamp),
        None => None,
    }
}

/// Takes out the row that comes first.
#[inline]
pub(crate) fn first<'r, V, A: Allocator>(
    direction: Direction,
    rows: &mut Cursor<'r, V, A>,
) -> Option<Row<'r, V>>
    ensures { MatchOption result ((rows.old ≡ []) × (rows.new ≡ [])) (λ row. IsTaken direction (seen row) rows.old rows.new) }
{
    match direction {
        Direction::Rising => rows.next(),
        Direction::Falling => rows.next_back(),
    }
}

/// Passes over the rows that come before the key.
#[inline]
pub(crate) fn seek<V, A: Allocator>(direction: Direction, rows: &mut Cursor<'_, V, A>, key: &Key)
    ensures { rows.new ≡ rows_behind direction key.now rows.old }
{
    match direction {
        Direction::Rising => rows.seek(key),
        Direction::Falling => rows.seek_back(key),
    }
}

/// Passes over so many rows from the side that comes first.
#[inline]
pub(crate) fn pass<V, A: Allocator>(direction: Direction, rows: &mut Cursor<'_, V, A>, count: usize)
    requires { count ≤ length rows.old }
    ensures { rows.new ≡ without direction count rows.old }
{
    match direction {
        Direction::Rising => rows.pass(count),
        Direction::Falling => rows.pass_back(count),
    }
}
