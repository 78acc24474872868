//! The filter of a table: which values its keys may have.
ghost use Rattle.std.specs.Prelude.{◌≡◌, ◌+◌, ◌/◌, ℕ, length, true};
ghost use Rattle.tf_table.specs.Filter.{hash_of, place_of, bit_of, bits_of, Holds};

use std::alloc::Allocator;

/// How many keys share a word, which leaves some ten bits for each.
const KEYS_A_WORD: usize = 6;

/// How many words the filter of so many keys has.
#[inline]
pub(crate) fn filter_words_of(keys: usize) -> usize
    ensures { result ≡ keys / KEYS_A_WORD + 1 }
{
    keys / KEYS_A_WORD + 1
}

/// Whether a key may have the value: whether its bits are set among the first `count` words. It reads one word.
#[inline]
pub(crate) fn may_hold(words: &[u64], count: usize, value: u128) -> bool
    ensures held { Holds words.now count value → result ≡ true }
    ensures unheld { result ≡ true → Holds words.now count value }
{
    let hash = hash(value);
    let place = place(count, hash);
    place >= count || place >= words.len() || words[place] | bits(hash) == words[place]
}

/// Sets the value's bits among the first `count` words.
#[inline]
pub(crate) fn put<A: Allocator>(words: &mut Vec<u64, A>, count: usize, value: u128)
    ensures value { Holds words.new.items count value }
    ensures others { (other : ℕ) → Holds words.old.items count other → Holds words.new.items count other }
    ensures length { length words.new.items ≡ length words.old.items }
{
    let hash = hash(value);
    let place = place(count, hash);
    if place < count && place < words.len() {
        words[place] |= bits(hash);
    }
}

/// A number that is spread evenly over the values.
#[inline]
#[tactic(auto, unfolding(crate::specs::Filter::hash_of))]
fn hash(value: u128) -> u64
    ensures { result ≡ hash_of value }
{
    let low = (value % (1 << 64)) as u64;
    let high = (value >> 64) as u64;
    low.wrapping_add(high).wrapping_mul(0x9E37_79B9_7F4A_7C15)
}

/// The word of a hash among so many.
#[inline]
#[tactic(auto, unfolding(crate::specs::Filter::place_of))]
fn place(words: usize, hash: u64) -> usize
    ensures { result ≡ place_of words hash }
{
    (u128::from(hash).wrapping_mul(words as u128) >> 64) as usize
}

/// The bit that the lowest six bits of a number name.
#[inline]
fn bit(number: u64) -> u64
    ensures { result ≡ bit_of number }
{
    1 << (number % 64)
}

/// The bits of a hash in its word.
#[inline]
#[tactic(auto, unfolding(crate::specs::Filter::bits_of))]
fn bits(hash: u64) -> u64
    ensures { result ≡ bits_of hash }
{
    bit(hash >> 22) | bit(hash >> 28) | (bit(hash >> 34) | bit(hash >> 40))
}
