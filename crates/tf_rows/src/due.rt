//! What is due: pending transfers whose time is over, by the keys of expiry.
ghost use Rattle.std.specs.Prelude.{◌≡◌, ◌≤◌, length, min, IsTrue, IfSome};
ghost use Rattle.tf_rows.specs.Due.{first_due_from};
ghost use Rattle.tf_rows.specs.DueSet.{AreHeld};
ghost use Rattle.tf_rows.specs.Floors.{IsFloor};
ghost use Rattle.tf_rows.specs.Spelled.{ShowTheirJournal, journal_in, pairs_in};
ghost use Rattle.tf_journal.specs.Due.{due, next_due_of};
ghost use Rattle.tf_journal.specs.Journal.{last_timestamp};
ghost use Rattle.tf_manifest.specs.declared.row.Row.{Row};

use crate::look_ups::transfer_at;
use crate::{DueSet, RowSet, rows_tell_what_is_due};
use std::alloc::Allocator;
use tf_manifest::Value;
use tf_records::Transfer;
use tf_table::{Key, content_is_a_map};

/// The first key of expiry, from this one on, that is due at a moment.
fn first_due<S: RowSet, A: Allocator + Copy>(
    rows: &S,
    held: &DueSet<A>,
    from: &Key,
    at: u64,
) -> Option<Key>
    requires has { (r : Row) → IsTrue (S.has_row r) }
    requires shows { ShowTheirJournal (S.parts rows.now) }
    requires held { AreHeld held.now (journal_in (S.parts rows.now)) }
    ensures first { result ≡ first_due_from at from.now (pairs_in (S.parts rows.now) Row.Expiry) }
    ensures in_range { IfSome result (λ key. key.timestamp ≤ last_timestamp) }
{
    content_is_a_map::<Value>();
    rows_tell_what_is_due();
    let key = held.first_from(rows, from)?;
    if key.value > at as u128 {
        return None;
    }
    Some(key)
}

/// The next transfer to expire at a moment, looked for among the keys that are held, from one on below which there is none.
pub fn next_due<S: RowSet, A: Allocator + Copy>(
    rows: &S,
    held: &DueSet<A>,
    floor: Key,
    at: u64,
) -> Option<Transfer>
    requires has { (r : Row) → IsTrue (S.has_row r) }
    requires shows { ShowTheirJournal (S.parts rows.now) }
    requires held { AreHeld held.now (journal_in (S.parts rows.now)) }
    requires floor { IsFloor floor (journal_in (S.parts rows.now)) }
    ensures { result ≡ next_due_of (journal_in (S.parts rows.now)) at }
{
    content_is_a_map::<Value>();
    rows_tell_what_is_due();
    let key = first_due(rows, held, &floor, at)?;
    transfer_at(rows, key.timestamp)
}

/// How many transfers are due at a moment, or `most` if there are more: by a walk over the keys that are held, from one on below
/// which there is none.
pub fn due_count<S: RowSet, A: Allocator + Copy>(
    rows: &S,
    held: &DueSet<A>,
    floor: Key,
    at: u64,
    most: u32,
) -> u32
    requires has { (r : Row) → IsTrue (S.has_row r) }
    requires shows { ShowTheirJournal (S.parts rows.now) }
    requires held { AreHeld held.now (journal_in (S.parts rows.now)) }
    requires floor { IsFloor floor (journal_in (S.parts rows.now)) }
    ensures { result ≡ min most (length (due (journal_in (S.parts rows.now)) at)) }
{
    content_is_a_map::<Value>();
    rows_tell_what_is_due();
    let mut from = floor;
    for count in 0..most {
        let Some(key) = first_due(rows, held, &from, at) else {
            return count;
        };
        from = Key {
            value: key.value,
            timestamp: key.timestamp + 1,
        };
    }
    most
}
