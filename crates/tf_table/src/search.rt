//! Searches in a run of keys that rises.
ghost use Rattle.std.specs.Prelude.{◌≡◌, ℕ, ◌+◌, ◌-◌, ◌<◌, ◌≤◌, length, take, drop, slice_index_or, true, false, IsTrue};
ghost use Rattle.std.specs.Ordering.{is_lt, is_gt};
ghost use Rattle.tf_table.specs.Key.{key_cmp};

use crate::Key;

/// Where a search in a run looks first.
#[derive(Clone, Copy)]
pub(crate) enum Start {
    /// In the middle. The number of looks grows with the logarithm of the run.
    Middle,
    /// At the first key, and then ever further. The number of looks grows with the logarithm of the keys passed over.
    Front,
    /// At the last key, and then ever further. The number of looks grows with the logarithm of the keys passed over.
    Back,
    /// At a place, and then ever further from it. The number of looks grows with the logarithm of the keys passed over.
    Near(usize),
}

/// Where to look next, between two places of a run of `len` keys.
#[inline]
fn next_look(low: usize, high: usize, len: usize, start: Start) -> usize
    requires some { low < high }
    requires within { high ≤ len }
    ensures { (low ≤ result) × (result < high) }
{
    let half = (high - low) / 2;
    match start {
        Start::Middle => low + half,
        Start::Front => low + half.min(low),
        Start::Back => high - 1 - half.min(len - high),
        Start::Near(place) if place < low => low + half.min(low - place),
        Start::Near(place) if place >= high => high - 1 - half.min(place - high),
        Start::Near(place) => place,
    }
}

/// How many keys lie before `key`: a place with a lesser key right before it and no lesser key at it.
#[inline]
pub(crate) fn count_below(keys: &[Key], key: &Key, start: Start) -> usize
    ensures within { result ≤ length keys.now }
    ensures before { (place : ℕ) (d : Key) → place + 1 ≡ result → is_lt (key_cmp (slice_index_or keys.now place d) key.now) ≡ true }
    ensures after { (d : Key) → result < length keys.now → is_lt (key_cmp (slice_index_or keys.now result d) key.now) ≡ false }
{
    let mut low = 0;
    let mut high = keys.len();
    while low < high {
        let look = next_look(low, high, keys.len(), start);
        let is_below = keys[look].is_below(key);
        low = if is_below { look + 1 } else { low };
        high = if is_below { high } else { look };
    }
    low
}

/// The keys from one place up to another.
#[inline]
pub(crate) fn part(keys: &[Key], from: usize, to: usize) -> &[Key]
    requires ordered { from ≤ to }
    requires within { to ≤ length keys.now }
    ensures { result.now ≡ take (to - from) (drop from keys.now) }
{
    &keys[from..to]
}

/// Whether so many keys from `least` to `greatest` have no value, and no timestamp is missing between them.
#[inline]
pub(crate) fn are_dense(len: usize, least: &Key, greatest: &Key) -> bool
    ensures { IsTrue result → (0 < len) × (greatest.now.value ≡ 0) × (len - 1 ≡ greatest.now.timestamp - least.now.timestamp) }
{
    let between = greatest.timestamp.saturating_sub(least.timestamp) as usize;
    len > 0 && greatest.value == 0 && len - 1 == between
}

/// How many keys are not above `key`: a place with no greater key right before it and a greater one at it.
#[inline]
pub(crate) fn count_upto(keys: &[Key], key: &Key, start: Start) -> usize
    ensures within { result ≤ length keys.now }
    ensures before { (place : ℕ) (d : Key) → place + 1 ≡ result → is_gt (key_cmp (slice_index_or keys.now place d) key.now) ≡ false }
    ensures after { (d : Key) → result < length keys.now → is_gt (key_cmp (slice_index_or keys.now result d) key.now) ≡ true }
{
    let mut low = 0;
    let mut high = keys.len();
    while low < high {
        let look = next_look(low, high, keys.len(), start);
        let is_above = keys[look].is_above(key);
        low = if is_above { low } else { look + 1 };
        high = if is_above { look } else { high };
    }
    low
}
