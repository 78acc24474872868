//! Searches for the keys of places, beside what their numbers tell.

use super::places::{Run, Spread, entry_at, key_at};
use super::words::{Row, number, row_of};
use crate::asserts::assert_at;
use std::alloc::Allocator;
use std::process::Abort;
use tf_table::{Cursor, Key, Probe, Sealed, take_turns};

/// Whether a table of the places of a run, with keys spread so, answers a question at each of some places.
pub(super) fn answers_at_places<A: Allocator>(
    rt: &impl Abort,
    table: &Sealed<u64, A>,
    asked: &str,
    spread: Spread,
    places: Run,
    answer: &str,
) -> bool {
    match asked {
        "taken_below" => count_taken(table, spread, places) < number(rt, answer),
        "newest_above" => are_newest(table, places, number(rt, answer), false),
        "newest_bottom" => are_newest(table, places, number(rt, answer), true),
        "cursors" => are_sought(table, spread, places, Run::in_word(rt, answer)).is_some(),
        _ => {
            let rows = Run::in_word(rt, answer);
            for number in 0..places.below(u64::MAX) {
                let place = places
                    .from
                    .saturating_add(number.saturating_mul(places.step));
                assert_at(rt, is_told(table, asked, spread, rows, place), asked, place);
            }
            true
        }
    }
}

/// Whether what is asked at a place is told.
fn is_told<A: Allocator>(
    table: &Sealed<u64, A>,
    asked: &str,
    spread: Spread,
    rows: Run,
    place: u64,
) -> bool {
    match asked {
        "found" => is_found(table, spread, rows, place),
        "firsts_above" => is_next_found(table, spread, rows, place),
        "turns" => end_at_rows(table, spread, rows, place),
        "expected" => are_found_near(table, spread, place),
        "searched" => is_searched(table, spread, rows, place),
        _ => false,
    }
}

/// How many places of a run the filter of a table takes for some that may have a row.
fn count_taken<A: Allocator>(table: &Sealed<u64, A>, spread: Spread, places: Run) -> u64 {
    let mut taken = 0u64;
    for place in places.from..places.from.saturating_add(places.len) {
        if table.may_have(&key_at(spread, place)) {
            taken = taken.saturating_add(1);
        }
    }
    taken
}

/// The entry of a place in the first of so many layers that has it, the layer of step 2 being the newest. At the bottom a tombstone
/// is none.
fn newest(count: u64, is_bottom: bool, place: u64) -> Option<Option<u64>> {
    for step in 2..count.saturating_add(2) {
        if place % step == 0 {
            let entry = entry_at(Spread::Layers, step, place);
            return if is_bottom && entry.is_none() {
                None
            } else {
                Some(entry)
            };
        }
    }
    None
}

/// The first newest row from a place on, with its place.
fn newest_row(count: u64, is_bottom: bool, places: Run, from: u64) -> Option<(u64, Row)> {
    for place in from..places.from.saturating_add(places.len) {
        if let Some(entry) = newest(count, is_bottom, place) {
            return Some((place, (key_at(Spread::Layers, place), entry)));
        }
    }
    None
}

/// Whether a merge of so many layers has their newest rows and no other.
fn are_newest<A: Allocator>(
    table: &Sealed<u64, A>,
    places: Run,
    count: u64,
    is_bottom: bool,
) -> bool {
    let mut rows = table.seek(&Key::LEAST);
    let mut from = places.from;
    for _ in 0..places.len.saturating_add(1) {
        let row = row_of(rows.next());
        match newest_row(count, is_bottom, places, from) {
            Some((place, newest)) if row == Some(newest) => from = place.saturating_add(1),
            Some(_) => return false,
            None => return row.is_none(),
        }
    }
    false
}

/// What is found of the key of a place.
fn is_found<A: Allocator>(table: &Sealed<u64, A>, spread: Spread, rows: Run, place: u64) -> bool {
    let found = table.find(&key_at(spread, place));
    if rows.has(place) {
        found == Some(entry_at(spread, rows.step, place).as_ref())
    } else {
        found.is_none()
    }
}

/// The row of this number in a table of the places of a run, if it has so many.
fn row_at(spread: Spread, rows: Run, number: Option<u64>) -> Option<Row> {
    let place = rows.at(number?)?;
    Some((key_at(spread, place), entry_at(spread, rows.step, place)))
}

/// The first rows from the key of a place on, and up to it.
fn are_ends_found<A: Allocator>(
    table: &Sealed<u64, A>,
    spread: Spread,
    rows: Run,
    place: u64,
) -> bool {
    let here = key_at(spread, place);
    let next = Some(rows.below(place));
    let last = rows.below(place.saturating_add(1)).checked_sub(1);
    row_of(table.seek(&here).next()) == row_at(spread, rows, next)
        && row_of(table.seek_back(&here).next_back()) == row_at(spread, rows, last)
}

/// The first key above that of a place.
fn is_next_found<A: Allocator>(
    table: &Sealed<u64, A>,
    spread: Spread,
    rows: Run,
    place: u64,
) -> bool {
    let first = table.first_above(&key_at(spread, place));
    match rows.at(rows.below(place.saturating_add(1))) {
        Some(above) => first == Some(key_at(spread, above)),
        None => first.is_none(),
    }
}

/// As many rows between two places as there are places of the run from the one to the other.
fn are_counted<A: Allocator>(
    table: &Sealed<u64, A>,
    spread: Spread,
    rows: Run,
    place: u64,
    len: u64,
) -> bool {
    let to = place
        .saturating_add(len)
        .min(rows.from.saturating_add(rows.len).saturating_sub(1));
    let count = rows
        .below(to.saturating_add(1))
        .saturating_sub(rows.below(place));
    let range = table.range(&key_at(spread, place), &key_at(spread, to));
    range.runs().0.len() as u64 == count
}

/// Whether all searches find what they should at a place.
fn is_searched<A: Allocator>(
    table: &Sealed<u64, A>,
    spread: Spread,
    rows: Run,
    place: u64,
) -> bool {
    for len in [0, 1, 7, 400] {
        if !are_counted(table, spread, rows, place, len) {
            return false;
        }
    }
    is_found(table, spread, rows, place)
        && are_ends_found(table, spread, rows, place)
        && is_next_found(table, spread, rows, place)
}

/// Whether four searches that take turns, from a place on, end at its row each: that of the key, or of the next one, unless the
/// values are so far apart that fences don't tell rows of one value from each other. Whichever it is, what is found there is the
/// key's.
fn end_at_rows<A: Allocator>(
    table: &Sealed<u64, A>,
    spread: Spread,
    rows: Run,
    place: u64,
) -> bool {
    let [first, second, third, fourth] = [
        place,
        place.saturating_add(1),
        place.saturating_add(2),
        place.saturating_add(3),
    ];
    let mut probes = [
        table.probe(&key_at(spread, first)),
        table.probe(&key_at(spread, second)),
        table.probe(&key_at(spread, third)),
        table.probe(&key_at(spread, fourth)),
    ];
    take_turns(&mut probes);
    ends_at_row(table, spread, rows, first, probes[0].place())
        && ends_at_row(table, spread, rows, second, probes[1].place())
        && ends_at_row(table, spread, rows, third, probes[2].place())
        && ends_at_row(table, spread, rows, fourth, probes[3].place())
}

/// Whether a search did.
fn ends_at_row<A: Allocator>(
    table: &Sealed<u64, A>,
    spread: Spread,
    rows: Run,
    place: u64,
    row: usize,
) -> bool {
    let found = table.entry_near(&key_at(spread, place), row).copied();
    let expected = if rows.has(place) {
        Some(entry_at(spread, rows.step, place))
    } else {
        None
    };
    found == expected && (matches!(spread, Spread::Far) || row as u64 == rows.below(place))
}

/// Whether searches in three tables, and one that has ended, end where they should when they take turns: for a place in the midst
/// of a table with fences, in one with few of its rows, and in one with none.
pub(super) fn end_right<A: Allocator>(tables: &[Sealed<u64, A>]) -> bool {
    let [large, small, none] = tables else {
        return false;
    };
    let no_searches: &mut [Probe<'_>] = &mut [];
    take_turns(no_searches);
    let here = key_at(Spread::Wide, 5_001);
    let mut probes = [
        large.probe(&here),
        small.probe(&here),
        none.probe(&here),
        Probe::ended(),
    ];
    take_turns(&mut probes);
    // Without fences a search ends among the first eight rows.
    probes[0].place() == 2_500
        && probes[1].place() == 5
        && probes[2].place() == 0
        && probes[3].place() == 0
        && large.entry_near(&here, 2_500) == Some(&Some(5_001))
        && small.entry_near(&here, 5) == Some(&Some(5_001))
        && none.entry_near(&here, 0).is_none()
}

/// Whether what is found of the key of a place doesn't depend on the row at which it is expected.
fn are_found_near<A: Allocator>(table: &Sealed<u64, A>, spread: Spread, place: u64) -> bool {
    let here = key_at(spread, place);
    let there = key_at(spread, place.saturating_add(20).min(10_000));
    for row in [0, 1, 2_499, 2_500, 2_501, 4_999, 5_000, usize::MAX] {
        if !is_found_near(table, &here, &there, row) {
            return false;
        }
    }
    true
}

/// Whether what is found of a key where it is expected at a row is what is found of it anywhere.
fn is_found_near<A: Allocator>(
    table: &Sealed<u64, A>,
    here: &Key,
    there: &Key,
    row: usize,
) -> bool {
    let (entry, next, _place) = table.entry_and_next(here, row);
    table.entry_near(here, row) == table.entry(here)
        && entry == table.entry(here)
        && next == table.first_above(here)
        && table.range_near(here, there, row).runs().0 == table.range(here, there).runs().0
}

/// A cursor seeks the key of a place and takes a row: the next one, unless it was passed before. It tells the number of the row
/// behind it, if the row was right.
fn sought<A: Allocator>(
    up: &mut Cursor<'_, u64, A>,
    spread: Spread,
    rows: Run,
    place: u64,
    passed: u64,
) -> Option<u64> {
    up.seek(&key_at(spread, place));
    let number = rows.below(place).max(passed);
    if row_of(up.next()) == row_at(spread, rows, Some(number)) {
        Some(number.saturating_add(1))
    } else {
        None
    }
}

/// The same of a cursor that seeks back, to the last row up to the key of a place. It tells how many rows are left below.
fn sought_back<A: Allocator>(
    down: &mut Cursor<'_, u64, A>,
    spread: Spread,
    rows: Run,
    place: u64,
    left: u64,
) -> Option<u64> {
    down.seek_back(&key_at(spread, place));
    let number = rows.below(place.saturating_add(1)).min(left).checked_sub(1);
    if row_of(down.next_back()) == row_at(spread, rows, number) {
        Some(number.unwrap_or(0))
    } else {
        None
    }
}

/// Cursors from both ends seek the keys of places and take a row each.
fn are_sought<A: Allocator>(
    table: &Sealed<u64, A>,
    spread: Spread,
    places: Run,
    rows: Run,
) -> Option<()> {
    let (mut up, mut down) = (table.seek(&Key::LEAST), table.seek(&Key::LEAST));
    let (mut passed, mut left) = (0, u64::MAX);
    let last = places.from.saturating_add(places.len).saturating_sub(1);
    for number in 0..places.below(u64::MAX) {
        let behind = number.saturating_mul(places.step);
        passed = sought(
            &mut up,
            spread,
            rows,
            places.from.saturating_add(behind),
            passed,
        )?;
        left = sought_back(&mut down, spread, rows, last.saturating_sub(behind), left)?;
    }
    // A key that was passed over doesn't bring rows back.
    up.seek(&Key::LEAST);
    if gives_rest(&mut up, spread, rows, passed) {
        Some(())
    } else {
        None
    }
}

/// Whether a cursor gives the rows from this number on, and no other.
fn gives_rest<A: Allocator>(
    rest: &mut Cursor<'_, u64, A>,
    spread: Spread,
    rows: Run,
    from: u64,
) -> bool {
    for number in from..rows.below(u64::MAX).saturating_add(1) {
        if row_of(rest.next()) != row_at(spread, rows, Some(number)) {
            return false;
        }
    }
    true
}
