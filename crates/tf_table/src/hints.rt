//! What a table knows of its keys beside them: which values they may have, and where among them a search begins.
ghost use Rattle.std.specs.Prelude.{◌≡◌, ◌+◌, ◌*◌, ◌/◌, ◌<◌, ◌≤◌, length, IfOk, true, if◌then◌else◌};
ghost use Rattle.tf_table.specs.Filter.{Holds, HoldsEach};

use crate::Key;
use crate::fences::{KEYS_A_FENCE, Scale, fences_of};
use crate::filter::{filter_words_of, may_hold, put};
use std::alloc::{AllocError, Allocator};

/// The words of a filter, and behind them the fences, in one run. Without words of a filter it says nothing of values, and
/// without fences nothing of places.
#[derive(Drop)]
pub(crate) struct Hints<A: Allocator> {
    words: Vec<u64, A>,
    filter_words: usize,
}

impl<A: Allocator> Hints<A> {
    /// The hints of keys that rise, with a filter if it is wanted. It goes over an eighth of the keys where they have fences,
    /// and over all of them for a filter. Without either it takes no memory.
    pub(crate) fn of(
        alloc: A,
        keys: &[Key],
        is_filtered: bool,
        scale: &Scale,
    ) -> Result<Self, AllocError>
        ensures held { IfOk result (λ hints. HoldsEach hints.words.items hints.filter_words keys.now) }
        ensures filter { IfOk result (λ hints. hints.filter_words ≡ (if is_filtered then length keys.now / 6 + 1 else 0)) }
        ensures fences { IfOk result (λ hints. length hints.words.items * 8 ≤ hints.filter_words * 8 + length keys.now) }
    {
        let filter_words = if is_filtered {
            filter_words_of(keys.len())
        } else {
            0
        };
        let mut words = Vec::from_elem(alloc, 0, filter_words + fences_of(keys.len()))?;
        set_fences(&mut words, filter_words, keys, scale);
        if is_filtered {
            put_each(&mut words, filter_words, keys);
        }
        Ok(Hints {
            words,
            filter_words,
        })
    }

    /// Whether a key may have the value.
    #[inline]
    pub(crate) fn may_hold(&self, value: u128) -> bool
        ensures held { Holds self.now.words.items self.now.filter_words value → result ≡ true }
        ensures unheld { result ≡ true → Holds self.now.words.items self.now.filter_words value }
    {
        self.filter_words == 0 || may_hold(&self.words, self.filter_words, value)
    }

    /// The fences.
    #[inline]
    pub(crate) fn fences(&self) -> &[u64] {
        &self.words[self.filter_words.min(self.words.len())..]
    }
}

/// Puts the rank of the last of each eight keys behind the words of a filter.
fn set_fences<A: Allocator>(
    words: &mut Vec<u64, A>,
    filter_words: usize,
    keys: &[Key],
    scale: &Scale,
)
    requires words { length words.old.items * KEYS_A_FENCE ≤ filter_words * KEYS_A_FENCE + length keys.now }
    ensures { length words.new.items ≡ length words.old.items }
{
    for place in filter_words..words.len() {
        let last = (place - filter_words) * KEYS_A_FENCE + (KEYS_A_FENCE - 1);
        words[place] = scale.rank(&keys[last]);
    }
}

/// Puts the value of each key into the filter.
fn put_each<A: Allocator>(words: &mut Vec<u64, A>, filter_words: usize, keys: &[Key])
    ensures held { HoldsEach words.new.items filter_words keys.now }
    ensures length { length words.new.items ≡ length words.old.items }
{
    for key in keys {
        put(words, filter_words, key.value);
    }
}
