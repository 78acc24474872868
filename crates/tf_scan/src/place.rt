//! What is left of one table in a prefix.
ghost use Rattle.std.specs.Prelude.{◌≡◌, ◌≤◌, ℕ, true, false, length, None, IsTrue};
ghost use Rattle.std.specs.Option.{option_copied, option_map};
ghost use Rattle.tf_sorted.specs.Rows.{rows_from, rows_upto};
ghost use Rattle.tf_table.specs.Content.{entry_at};
ghost use Rattle.tf_table.specs.Key.{key_cmp};
ghost use Rattle.tf_manifest.specs.Rows.{key_of};
ghost use Rattle.tf_scan.specs.declared.place.Place.TheVariants.{End};
ghost use Rattle.tf_scan.specs.Order.{is_before};
ghost use Rattle.tf_scan.specs.Place.{rows_left, first_of, span_from, nearest_in, opened, IsFrom, IsPlace, Takes, Seeks};
ghost use Rattle.tf_scan.specs.Run.{WritesRun};

use crate::Direction;
use crate::expected::ANYWHERE;
use crate::rows::{first, first_timestamp, seek};
use crate::run::take_rows;
use crate::turn::Turn;
use std::alloc::Allocator;
use tf_table::{Cursor, Key, Sealed, Span};

/// The rows of one table that are still to come, of one value and in one direction.
#[derive(Drop)]
pub(crate) enum Place<'r, V, A: Allocator> {
    /// The table wasn't searched yet. The timestamps of the rows don't come before this one. The first of the rows of the
    /// value is expected at a place, or `ANYWHERE`.
    Closed(&'r Sealed<V, A>, u64, usize),
    /// The table was searched, and these are the rows.
    Open(Cursor<'r, V, A>),
    /// There is none.
    End,
}

impl<'r, V, A: Allocator> Default for Place<'r, V, A> {
    fn default() -> Self
        ensures { result ≡ End }
    {
        Place::End
    }
}

impl<'r, V, A: Allocator> Place<'r, V, A> {
    /// The rows of a table, of which the first of the value is expected at a place. It isn't searched yet.
    pub(crate) fn new(direction: Direction, table: &'r Sealed<V, A>, expected: usize) -> Self
        ensures right { (value : ℕ) → IsPlace direction value result }
        ensures rows { (value t : ℕ) → entry_at (key_of value t) (rows_left direction value result) ≡ entry_at (key_of value t) table.now }
    {
        // `len` tells the proof that the rows rise.
        let _length = table.len();
        match table.span() {
            Some(span) => Place::Closed(table, start(direction, span), expected),
            None => Place::End,
        }
    }

    /// A timestamp before which no row comes, None at the end.
    #[inline]
    pub(crate) fn nearest(&self, direction: Direction) -> Option<u64>
        ensures { result ≡ nearest_in direction self.now }
    {
        match self {
            Place::Closed(_, bound, _) => Some(*bound),
            Place::Open(rows) => first_timestamp(direction, rows),
            Place::End => None,
        }
    }

    /// Takes out the row at this timestamp and tells its entry, if there is one. No row comes before it.
    ///
    /// The table is searched only where the timestamp is the nearest.
    pub(crate) fn take(
        &mut self,
        direction: Direction,
        value: u128,
        timestamp: u64,
    ) -> Option<Option<&'r V>>
        requires right { IsPlace direction value self.old }
        requires nearest { IsFrom direction timestamp (nearest_in direction self.old) }
        ensures entry { option_map option_copied result ≡ entry_at (key_of value timestamp) (rows_left direction value self.old) }
        ensures taken { Takes direction value timestamp self.old self.new }
    {
        if self.nearest(direction) != Some(timestamp) {
            return None;
        }
        self.open(direction, value);
        let Place::Open(rows) = self else {
            return None;
        };
        if first_timestamp(direction, rows) != Some(timestamp) {
            return None;
        }
        let (_key, entry) = first(direction, rows)?;
        Some(entry)
    }

    /// Takes out the rows before this timestamp.
    ///
    /// The table isn't searched for it. Where it was searched already, the search goes on from the next row.
    pub(crate) fn seek(&mut self, direction: Direction, value: u128, timestamp: u64)
        requires { IsPlace direction value self.old }
        ensures { Seeks direction value timestamp self.old self.new }
    {
        match self {
            Place::Closed(table, bound, _expected) => {
                if direction.is_before(*bound, timestamp) {
                    if ends_before(direction, table, timestamp) {
                        *self = Place::End;
                    } else {
                        *bound = timestamp;
                    }
                }
            }
            Place::Open(rows) => seek(direction, rows, &Key { value, timestamp }),
            Place::End => {}
        }
    }

    /// Takes out rows as long as the turn lasts and there is room in `out`, writes the timestamps of those with a value
    /// there from one place on, and tells the place behind the last. It takes none where the table wasn't searched.
    #[inline]
    pub(crate) fn take_run(
        &mut self,
        direction: Direction,
        turn: Turn,
        out: &mut [u64],
        from: usize,
    ) -> usize
        requires { from ≤ length out.old }
        ensures { WritesRun direction turn.until from result self.old self.new out.old out.new }
    {
        match self {
            Place::Open(rows) => take_rows(direction, turn, rows, out, from),
            _ => from,
        }
    }

    /// Searches the table, if that wasn't done.
    fn open(&mut self, direction: Direction, value: u128)
        ensures { self.new ≡ opened direction value self.old }
    {
        if let Place::Closed(table, bound, expected) = self {
            let span = span_from(direction, *bound);
            let from = Key {
                value,
                timestamp: span.earliest,
            };
            let to = Key {
                value,
                timestamp: span.latest,
            };
            *self = Place::Open(range(table, &from, &to, *expected));
        }
    }
}

/// The rows of a table between two keys, the first of which is expected at a place. Where that is right, no search for it
/// waits for a fence.
#[inline]
fn range<'r, V, A: Allocator>(
    table: &'r Sealed<V, A>,
    from: &Key,
    to: &Key,
    expected: usize,
) -> Cursor<'r, V, A>
    ensures { result ≡ rows_upto key_cmp to.now (rows_from key_cmp from.now table.now) }
{
    if expected == ANYWHERE {
        table.range(from, to)
    } else {
        table.range_near(from, to, expected)
    }
}

/// The timestamp of a span that comes first.
#[inline]
fn start(direction: Direction, span: Span) -> u64
    ensures { result ≡ first_of direction span }
{
    match direction {
        Direction::Rising => span.earliest,
        Direction::Falling => span.latest,
    }
}

/// The timestamps that don't come before this one.
#[inline]
fn span_from(direction: Direction, timestamp: u64) -> Span
    ensures { result ≡ span_from direction timestamp }
{
    match direction {
        Direction::Rising => Span {
            earliest: timestamp,
            latest: u64::MAX,
        },
        Direction::Falling => Span {
            earliest: 0,
            latest: timestamp,
        },
    }
}

/// Whether all timestamps of a table come before this one.
#[inline]
fn ends_before<V, A: Allocator>(direction: Direction, table: &Sealed<V, A>, timestamp: u64) -> bool
    ensures { IsTrue result → (value u : ℕ) → is_before direction u timestamp ≡ false → entry_at (key_of value u) table.now ≡ None }
{
    match (table.span(), direction) {
        (Some(span), Direction::Rising) => span.latest < timestamp,
        (Some(span), Direction::Falling) => timestamp < span.earliest,
        (None, _) => true,
    }
}
