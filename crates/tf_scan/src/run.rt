//! Runs of rows that one table alone has next.
ghost use Rattle.std.specs.Prelude.{◌≡◌, ◌<◌, ◌≤◌, true, [], ◌∷◌, length, IsTrue, MatchOption};
ghost use Rattle.tf_table.specs.Content.{values_of};
ghost use Rattle.tf_table.specs.Merge.{seen};
ghost use Rattle.tf_table.specs.Span.{timestamps};
ghost use Rattle.tf_scan.specs.Place.{is_past, IsTaken};
ghost use Rattle.tf_scan.specs.Run.{AreRising, EndsArePast, AreWritten, WritesEntries, WritesKeys, WritesRows};

use crate::Direction;
use crate::rows::{first, first_timestamp, pass};
use crate::turn::Turn;
use std::alloc::Allocator;
use tf_table::{Column, Cursor, Key, Row};

/// Takes out rows as long as the turn lasts and there is room in `out`, writes the timestamps of those with a value there
/// from one place on, and tells the place behind the last.
pub(crate) fn take_rows<V, A: Allocator>(
    direction: Direction,
    turn: Turn,
    rows: &mut Cursor<'_, V, A>,
    out: &mut [u64],
    from: usize,
) -> usize
    requires { from ≤ length out.old }
    ensures { WritesRows direction turn.until from result rows.old rows.new out.old out.new }
{
    let values_to = take_values(direction, turn, rows, out, from);
    let entries_to = take_entries(direction, turn, rows, out, values_to);
    take_each(direction, turn, rows, out, entries_to)
}

/// The same, row by row.
fn take_each<V, A: Allocator>(
    direction: Direction,
    turn: Turn,
    rows: &mut Cursor<'_, V, A>,
    out: &mut [u64],
    from: usize,
) -> usize
    requires { from ≤ length out.old }
    ensures { WritesRows direction turn.until from result rows.old rows.new out.old out.new }
{
    let mut to = from;
    while to < out.len() {
        let Some(row) = next_in_turn(direction, turn, rows) else {
            return to;
        };
        to = write_row(row, out, to);
    }
    to
}

/// Takes out the row that comes first, if the turn lasts for it.
#[inline]
fn next_in_turn<'r, V, A: Allocator>(
    direction: Direction,
    turn: Turn,
    rows: &mut Cursor<'r, V, A>,
) -> Option<Row<'r, V>>
    ensures { MatchOption result (rows.new ≡ rows.old) (λ row. IsTaken direction (seen row) rows.old rows.new × (is_past direction row.0.now.timestamp turn.until ≡ true)) }
{
    let timestamp = first_timestamp(direction, rows)?;
    if !turn.has(direction, timestamp) {
        return None;
    }
    first(direction, rows)
}

/// Writes the timestamp of a row with a value at a place in `out`, and tells the place behind it. Of a tombstone it writes
/// none.
#[inline]
fn write_row<V>(row: Row<'_, V>, out: &mut [u64], to: usize) -> usize
    requires { to < length out.old }
    ensures { AreWritten (timestamps (values_of (seen row.entry ∷ []))) to result out.old out.new }
{
    if row.1.is_none() {
        return to;
    }
    out[to] = row.0.timestamp;
    to + 1
}

/// The same as `take_rows`, where the rows have one value, which is stored once. Else it takes none.
///
/// It goes over the keys alone.
fn take_values<V, A: Allocator>(
    direction: Direction,
    turn: Turn,
    rows: &mut Cursor<'_, V, A>,
    out: &mut [u64],
    from: usize,
) -> usize
    requires { from ≤ length out.old }
    ensures { WritesRows direction turn.until from result rows.old rows.new out.old out.new }
{
    let (keys, entries) = rows.runs();
    let Column::Same(entry) = entries else {
        return from;
    };
    let Some(_value) = entry else {
        return from;
    };
    let to = write_first(direction, turn, keys, out, from);
    pass(direction, rows, to - from);
    to
}

/// The same as `take_rows`, where the rows have an entry each. Else it takes none.
fn take_entries<V, A: Allocator>(
    direction: Direction,
    turn: Turn,
    rows: &mut Cursor<'_, V, A>,
    out: &mut [u64],
    from: usize,
) -> usize
    requires { from ≤ length out.old }
    ensures { WritesRows direction turn.until from result rows.old rows.new out.old out.new }
{
    let (keys, column) = rows.runs();
    let Column::Each(entries) = column else {
        return from;
    };
    let (to, passed) = write_entries(direction, turn, keys, entries, out, from);
    pass(direction, rows, passed);
    to
}

/// Writes the timestamps of the first rows with these keys and entries, of those with a value, into `out` from one place on, as
/// long as the turn lasts and there is room. It tells the place behind the last, and how many rows it passed over.
fn write_entries<V>(
    direction: Direction,
    turn: Turn,
    keys: &[Key],
    entries: &[Option<V>],
    out: &mut [u64],
    from: usize,
) -> (usize, usize)
    requires room { from ≤ length out.old }
    requires paired { length keys.now ≡ length entries.now }
    ensures { WritesEntries direction turn.until from result.0 result.1 keys.now entries.now out.old out.new }
{
    let mut left_keys = keys;
    let mut left_entries = entries;
    let mut to = from;
    let mut passed = 0;
    while to < out.len() {
        let Some((key, other_keys)) = direction.split_first(left_keys) else {
            return (to, passed);
        };
        let Some((entry, other_entries)) = direction.split_first(left_entries) else {
            return (to, passed);
        };
        let is_in_turn = turn.has(direction, key.timestamp);
        if !is_in_turn {
            return (to, passed);
        }
        to = write_row((key, entry.as_ref()), out, to);
        passed += 1;
        left_keys = other_keys;
        left_entries = other_entries;
    }
    (to, passed)
}

/// Writes the timestamps of the first keys, which rise, into `out` from one place on, as long as the turn lasts and there
/// is room, and tells the place behind the last.
///
/// Where the turn lasts for the keys at both ends and they have one value it lasts for all, and no other key is asked.
fn write_first(
    direction: Direction,
    turn: Turn,
    keys: &[Key],
    out: &mut [u64],
    from: usize,
) -> usize
    requires { from ≤ length out.old }
    ensures { AreRising keys.now → WritesKeys direction turn.until from result keys.now out.old out.new }
{
    if lasts_for_ends(direction, turn, keys) {
        let endless = Turn {
            place: turn.place,
            until: None,
        };
        return write_timestamps(direction, endless, keys, out, from);
    }
    write_timestamps(direction, turn, keys, out, from)
}

/// Whether the keys at both ends have one value and the turn lasts for them.
#[inline]
fn lasts_for_ends(direction: Direction, turn: Turn, keys: &[Key]) -> bool
    ensures { IsTrue result → EndsArePast direction turn.until keys.now }
{
    let Some((least, _above)) = Direction::Rising.split_first(keys) else {
        return false;
    };
    let Some((greatest, _below)) = Direction::Falling.split_first(keys) else {
        return false;
    };
    if least.value != greatest.value
        || !turn.has(direction, least.timestamp)
        || !turn.has(direction, greatest.timestamp)
    {
        return false;
    }
    true
}

/// Writes the timestamps of the first keys into `out` from one place on, as long as the turn lasts and there is room, and
/// tells the place behind the last.
fn write_timestamps(
    direction: Direction,
    turn: Turn,
    keys: &[Key],
    out: &mut [u64],
    from: usize,
) -> usize
    requires { from ≤ length out.old }
    ensures { WritesKeys direction turn.until from result keys.now out.old out.new }
{
    let mut left = keys;
    let mut to = from;
    while to < out.len() {
        let Some((key, others)) = direction.split_first(left) else {
            return to;
        };
        if !turn.has(direction, key.timestamp) {
            return to;
        }
        out[to] = key.timestamp;
        to += 1;
        left = others;
    }
    to
}
