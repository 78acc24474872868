//! What is left of the tables of a row in a prefix, newest first.
ghost use Rattle.std.specs.Prelude.{◌≡◌, ℕ, ◌≤◌, ◌<◌, ◌++◌, [], length, min, take, drop, slice_get, Some};
ghost use Rattle.std.specs.List.{AllByRecursion, AllZip};
ghost use Rattle.std.specs.Option.{option_copied, option_map};
ghost use Rattle.tf_table.specs.Content.{entry_of};
ghost use Rattle.tf_manifest.specs.Rows.{key_of};
ghost use Rattle.tf_scan.specs.Order.{those_from};
ghost use Rattle.tf_scan.specs.Prefix.{prefix_of};
ghost use Rattle.tf_scan.specs.Place.{lists_left, nearest_in, nearest_of, IsFrom, IsPlace, Takes, Seeks};
ghost use Rattle.tf_scan.specs.Turn.{IsTurn};
ghost use Rattle.tf_scan.specs.Run.{WritesPrefix};

use crate::Direction;
use crate::place::Place;
use crate::turn::Turn;
use std::alloc::Allocator;

/// Takes out the first timestamp at which the tables' content has the value.
///
/// As long as one place alone has the next timestamp it looks at that one. Then it goes over all places once to find whose
/// turn it is, and where several have the next timestamp, twice more.
pub(crate) fn next<V, A: Allocator>(
    direction: Direction,
    value: u128,
    places: &mut [Place<'_, V, A>],
    turn: &mut Turn,
) -> Option<u64>
    requires right { AllByRecursion (IsPlace direction value) places.old }
    requires turn { IsTurn direction turn.old places.old }
    ensures right { AllByRecursion (IsPlace direction value) places.new }
    ensures turn { IsTurn direction turn.new places.new }
    ensures first { result ≡ slice_get (prefix_of direction value (lists_left direction value places.old)) 0 }
    ensures others { prefix_of direction value (lists_left direction value places.new) ≡ drop 1 (prefix_of direction value (lists_left direction value places.old)) }
{
    while let Some(timestamp) = turn.nearest(direction, places) {
        let entry = take(direction, value, timestamp, places, turn);
        if entry.flatten().is_some() {
            return Some(timestamp);
        }
    }
    None
}

/// Moves the first timestamps at which the tables' content has the value to the front of `out`, until it is full or none
/// is left, and tells how many those are.
///
/// What one place alone has next it moves in one loop over that place's rows.
pub(crate) fn take_into<V, A: Allocator>(
    direction: Direction,
    value: u128,
    places: &mut [Place<'_, V, A>],
    turn: &mut Turn,
    out: &mut [u64],
) -> usize
    requires right { AllByRecursion (IsPlace direction value) places.old }
    requires turn { IsTurn direction turn.old places.old }
    ensures right { AllByRecursion (IsPlace direction value) places.new }
    ensures turn { IsTurn direction turn.new places.new }
    ensures count { result ≡ min (length out.old) (length (prefix_of direction value (lists_left direction value places.old))) }
    ensures moved { out.new ≡ take result (prefix_of direction value (lists_left direction value places.old)) ++ drop result out.old }
    ensures others { prefix_of direction value (lists_left direction value places.new) ≡ drop result (prefix_of direction value (lists_left direction value places.old)) }
{
    let mut taken = 0;
    while taken < out.len() {
        let to = take_some(direction, value, places, turn, out, taken);
        if to == taken {
            return to;
        }
        taken = to;
    }
    taken
}

/// Moves the first timestamp at which the tables' content has the value to one place in `out`, and behind it what the place
/// alone has next whose turn it is then, and tells the place behind the last. It moves none where none is left.
///
/// It searches no table that `next` wouldn't search.
pub(crate) fn take_some<V, A: Allocator>(
    direction: Direction,
    value: u128,
    places: &mut [Place<'_, V, A>],
    turn: &mut Turn,
    out: &mut [u64],
    from: usize,
) -> usize
    requires room { from < length out.old }
    requires right { AllByRecursion (IsPlace direction value) places.old }
    requires turn { IsTurn direction turn.old places.old }
    ensures moved { WritesPrefix direction value from result places.old places.new out.old out.new }
    ensures turn { IsTurn direction turn.new places.new }
    ensures none { result ≡ from → prefix_of direction value (lists_left direction value places.old) ≡ [] }
{
    let Some(timestamp) = next(direction, value, places, turn) else {
        return from;
    };
    out[from] = timestamp;
    take_turn(direction, places, *turn, out, from + 1)
}

/// Moves what the place has whose turn it is to `out`, from one place there on, and tells the place behind the last.
fn take_turn<V, A: Allocator>(
    direction: Direction,
    places: &mut [Place<'_, V, A>],
    turn: Turn,
    out: &mut [u64],
    from: usize,
) -> usize
    requires room { from ≤ length out.old }
    requires turn { IsTurn direction turn places.old }
    ensures moved { (value : ℕ) → AllByRecursion (IsPlace direction value) places.old → WritesPrefix direction value from result places.old places.new out.old out.new }
    ensures turn { IsTurn direction turn places.new }
{
    if turn.place >= places.len() {
        return from;
    }
    places[turn.place].take_run(direction, turn, out, from)
}

/// Takes out the timestamps before this one.
///
/// Where one place alone has timestamps before it, it looks at that one. Else it goes over all places twice.
pub(crate) fn seek<V, A: Allocator>(
    direction: Direction,
    value: u128,
    places: &mut [Place<'_, V, A>],
    turn: &mut Turn,
    timestamp: u64,
)
    requires right { AllByRecursion (IsPlace direction value) places.old }
    requires turn { IsTurn direction turn.old places.old }
    ensures sought { AllZip (Seeks direction value timestamp) places.old places.new }
    ensures turn { IsTurn direction turn.new places.new }
{
    if turn.has(direction, timestamp) && turn.place < places.len() {
        places[turn.place].seek(direction, value, timestamp);
        return;
    }
    seek_all(direction, value, places, timestamp);
    *turn = Turn::of(direction, places);
}

/// Takes the timestamps before this one out of each place.
fn seek_all<V, A: Allocator>(
    direction: Direction,
    value: u128,
    places: &mut [Place<'_, V, A>],
    timestamp: u64,
)
    requires { AllByRecursion (IsPlace direction value) places.old }
    ensures { AllZip (Seeks direction value timestamp) places.old places.new }
{
    for place in places.iter_mut() {
        place.seek(direction, value, timestamp);
    }
}

/// Takes the rows at the nearest timestamp out of all places, and tells the entry of the newest table that has one.
fn take<'r, V, A: Allocator>(
    direction: Direction,
    value: u128,
    timestamp: u64,
    places: &mut [Place<'r, V, A>],
    turn: &mut Turn,
) -> Option<Option<&'r V>>
    requires right { AllByRecursion (IsPlace direction value) places.old }
    requires turn { IsTurn direction turn.old places.old }
    requires nearest { Some timestamp ≡ nearest_of direction places.old }
    ensures entry { option_map option_copied result ≡ entry_of (key_of value timestamp) (lists_left direction value places.old) }
    ensures taken { AllZip (Takes direction value timestamp) places.old places.new }
    ensures turn { IsTurn direction turn.new places.new }
{
    *turn = turn_at(direction, timestamp, places, *turn);
    if turn.has(direction, timestamp) && turn.place < places.len() {
        return places[turn.place].take(direction, value, timestamp);
    }
    let entry = take_all(direction, value, timestamp, places);
    *turn = Turn::of(direction, places);
    entry
}

/// The turn at this timestamp: a new one, unless the old one lasts so long.
#[inline]
fn turn_at<V, A: Allocator>(
    direction: Direction,
    timestamp: u64,
    places: &[Place<'_, V, A>],
    turn: Turn,
) -> Turn
    requires { IsTurn direction turn places.now }
    ensures { IsTurn direction result places.now }
{
    if turn.has(direction, timestamp) {
        turn
    } else {
        Turn::of(direction, places)
    }
}

/// Takes the rows at this timestamp out of all places, and tells the entry of the newest table that has one. No row comes
/// before it.
fn take_all<'r, V, A: Allocator>(
    direction: Direction,
    value: u128,
    timestamp: u64,
    places: &mut [Place<'r, V, A>],
) -> Option<Option<&'r V>>
    requires right { AllByRecursion (IsPlace direction value) places.old }
    requires nearest { AllByRecursion (λ place. IsFrom direction timestamp (nearest_in direction place)) places.old }
    ensures entry { option_map option_copied result ≡ entry_of (key_of value timestamp) (lists_left direction value places.old) }
    ensures taken { AllZip (Takes direction value timestamp) places.old places.new }
{
    let mut newest = None;
    for place in places.iter_mut() {
        let entry = place.take(direction, value, timestamp);
        if newest.is_none() {
            newest = entry;
        }
    }
    newest
}
