//! Searches in a run of keys.
ghost use Rattle.std.specs.Prelude.{◌≡◌, ◌+◌, ◌-◌, ◌<◌, ◌≤◌, length, slice_index_or, true, false};
ghost use Rattle.std.specs.Ordering.{is_lt, is_gt};

/// How many keys lie before `key`, in a run that rises: a place with only lesser keys before it and no lesser key at it.
///
/// It goes down from the end, a key at a time: in the short runs of a node that is faster than halving, whose turns the
/// processor can't foretell, and a key behind all others is found at once. It isn't inlined: among a caller's other
/// values the compiler keeps neither the key nor the place in registers.
#[inline(never)]
pub(crate) fn count_below<K: Copy + Ord>(keys: &[K], key: &K) -> usize
    ensures within { result ≤ length keys.now }
    ensures before { (d : K) → 0 < result → is_lt (K.cmp (slice_index_or keys.now (result - 1) d) key.now) ≡ true }
    ensures after { (d : K) → result < length keys.now → is_lt (K.cmp (slice_index_or keys.now result d) key.now) ≡ false }
{
    let sought = *key;
    let mut count = keys.len();
    while count > 0 && !keys[count - 1].cmp(&sought).is_lt() {
        count -= 1;
    }
    count
}

/// How many keys are not above `key`, in a run that rises: a place with no greater key before it and a greater one at it.
///
/// It goes down from the end, as `count_below` does.
#[inline(never)]
pub(crate) fn count_upto<K: Copy + Ord>(keys: &[K], key: &K) -> usize
    ensures within { result ≤ length keys.now }
    ensures before { (d : K) → 0 < result → is_gt (K.cmp (slice_index_or keys.now (result - 1) d) key.now) ≡ false }
    ensures after { (d : K) → result < length keys.now → is_gt (K.cmp (slice_index_or keys.now result d) key.now) ≡ true }
{
    let sought = *key;
    let mut count = keys.len();
    while count > 0 && sought.cmp(&keys[count - 1]).is_lt() {
        count -= 1;
    }
    count
}
