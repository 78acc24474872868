//! The fences of a table: where among its keys a search for a key begins.
ghost use Rattle.std.specs.Prelude.{◌*◌, ◌≤◌};

use crate::search::{Start, part};
use crate::{Key, Span};

/// How many keys there are to a fence. A fence has eight bytes and a key 32, so fences take a 32nd of what the keys take.
pub(crate) const KEYS_A_FENCE: usize = 8;

/// Fewer keys have no fences: they fit into the nearest cache themselves.
const FEWEST: usize = 1024;

/// Of so many fences the first lie in one or two lines of a cache.
const FEWEST_FENCES: usize = 8;

/// How many fences so many keys have: one for each eight, or none if they are fewer than 1,024.
#[inline]
pub(crate) fn fences_of(keys: usize) -> usize
    ensures { result * KEYS_A_FENCE ≤ keys }
{
    if keys < FEWEST {
        0
    } else {
        keys / KEYS_A_FENCE
    }
}

/// Where a search for a key among a table's keys begins: mostly at the place at which it ends.
///
/// A fence is the rank of the last of eight keys. The ranks lie in a run of their own, small enough for a cache. A search in
/// it tells the eight keys among which a key lies, and these tell its place. A search in the table alone would read keys all
/// over it. The place is a hint: whatever the ranks are, the search in the table is right.
///
/// It takes a number of comparisons that grows with the logarithm of the fences, and reads seven keys that lie side by side.
#[inline]
pub(crate) fn near(fences: &[u64], scale: &Scale, keys: &[Key], key: &Key) -> Start {
    let passed = count_passed(fences, scale.rank(key));
    Start::Near(place_behind(passed, keys, key))
}

/// The same, of a search among the keys from a place on, whose place is counted from there. Where one of the next eight keys
/// isn't less it begins at the first of them; else it takes a number of comparisons that grows with the logarithm of the fences
/// passed over.
#[inline]
pub(crate) fn near_behind(
    fences: &[u64],
    scale: &Scale,
    keys: &[Key],
    key: &Key,
    first: usize,
) -> Start {
    if !is_less_at(keys, first.saturating_add(KEYS_A_FENCE - 1), key) {
        return Start::Front;
    }
    let rank = scale.rank(key);
    let skipped = (first / KEYS_A_FENCE).min(fences.len());
    let passed = count_passed(front(&fences[skipped..], rank), rank);
    let place = place_behind(skipped.saturating_add(passed), keys, key);
    Start::Near(place.saturating_sub(first))
}

/// Whether there is a key at a place, and it is below `key`.
#[inline]
fn is_less_at(keys: &[Key], place: usize, key: &Key) -> bool {
    match keys.get(place) {
        Some(other) => other.is_below(key),
        None => false,
    }
}

/// The place of a key among those behind so many fences.
#[inline]
pub(crate) fn place_behind(fences: usize, keys: &[Key], key: &Key) -> usize {
    let from = fences.saturating_mul(KEYS_A_FENCE).min(keys.len());
    let to = from.saturating_add(KEYS_A_FENCE - 1).min(keys.len());
    from.saturating_add(count_less(part(keys, from, to), key))
}

/// So many of the first ranks, which rise, that all that are less than `rank` are among them.
#[inline]
fn front(ranks: &[u64], rank: u64) -> &[u64] {
    let mut many = FEWEST_FENCES;
    while many < ranks.len() && ranks[many] < rank {
        many = many.saturating_mul(2);
    }
    &ranks[..many.min(ranks.len())]
}

/// How the keys of a table are ranked: the greater a key, the greater its rank, or the same.
///
/// A rank is the first 64 of the bits of the value that vary within the table and those of the timestamp that do. So values
/// of more bits are told apart by their values alone, and rows of one value by their timestamps.
#[derive(Clone, Copy)]
pub(crate) struct Scale {
    value: u128,
    value_zeros: u32,
    timestamp: u64,
    timestamp_zeros: u32,
}

impl Scale {
    /// The scale of keys from `least` to `greatest`, whose timestamps lie within the span.
    #[inline]
    pub(crate) fn of(least: &Key, greatest: &Key, span: Option<Span>) -> Scale {
        let (earliest, latest) = match span {
            Some(span) => (span.earliest, span.latest),
            None => (0, 0),
        };
        let values = greatest.value.saturating_sub(least.value);
        let timestamps = latest.saturating_sub(earliest);
        Scale {
            value: least.value,
            value_zeros: values.leading_zeros(),
            timestamp: earliest,
            timestamp_zeros: u128::from(timestamps).leading_zeros(),
        }
    }

    /// The rank of a key.
    #[inline]
    pub(crate) fn rank(&self, key: &Key) -> u64 {
        if key.value < self.value {
            return 0;
        }
        let value = without_zeros(key.value - self.value, self.value_zeros);
        let timestamp = key.timestamp.saturating_sub(self.timestamp);
        let rest = without_zeros(u128::from(timestamp), self.timestamp_zeros);
        let value_bits = 128u32.saturating_sub(self.value_zeros).min(127);
        top(value) | top(rest >> value_bits)
    }
}

/// The number without so many of the zeros that it begins with, or the greatest number if it begins with fewer.
#[inline]
fn without_zeros(number: u128, zeros: u32) -> u128 {
    if number.leading_zeros() < zeros {
        u128::MAX
    } else {
        number << zeros.min(127)
    }
}

/// The first half of the 128 bits of a number.
#[inline]
fn top(number: u128) -> u64 {
    (number >> 64) as u64
}

/// How many of the ranks, which rise, are less than `rank`. It branches, so that a processor reads on along the likelier half
/// before a rank has come from memory.
#[inline]
fn count_passed(ranks: &[u64], rank: u64) -> usize {
    let mut low = 0;
    let mut high = ranks.len();
    while low < high {
        let look = low + (high - low) / 2;
        if ranks[look] < rank {
            low = look + 1;
        } else {
            high = look;
        }
    }
    low
}

/// How many of the keys are below `key`. Each is compared, without a branch, so that no one waits for another to come from
/// memory.
#[inline]
fn count_less(keys: &[Key], key: &Key) -> usize {
    let mut count = 0usize;
    for other in keys {
        count = count.saturating_add(usize::from(other.is_below(key)));
    }
    count
}
