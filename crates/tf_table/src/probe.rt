//! Searches that take turns.

use crate::Key;
use crate::fences::KEYS_A_FENCE;

/// A search by the fences of a table for the place at which a key mostly stands, if the table has it.
///
/// It goes on step by step, so that several searches take turns: each step reads one fence, and in the end one of eight keys, and
/// those of all searches come from memory together. Where it ends is a hint, and so is the place before the end: what is found
/// there says what the table has. In a table without fences it ends among the first eight rows.
#[derive(Clone, Copy)]
pub struct Probe<'a> {
    keys: &'a [Key],
    fences: &'a [u64],
    key: Key,
    rank: u64,
    /// The fences before this one are less than the rank. In the end it is the place.
    low: usize,
}

impl<'a> Probe<'a> {
    /// A search among fences for the key of a rank.
    #[inline]
    pub(crate) fn new(keys: &'a [Key], fences: &'a [u64], key: Key, rank: u64) -> Probe<'a> {
        Probe {
            keys,
            fences,
            key,
            rank,
            low: 0,
        }
    }

    /// A search that has ended, at place 0.
    #[inline]
    pub fn ended() -> Probe<'a> {
        let key = Key {
            value: 0,
            timestamp: 0,
        };
        Probe::new(&[], &[], key, 0)
    }

    /// The place at which the search has ended.
    #[inline]
    pub fn place(&self) -> usize {
        self.low
    }

    /// Whether the fence at a place is less than the rank.
    #[inline]
    fn is_passed(&self, place: usize) -> bool {
        match self.fences.get(place) {
            Some(fence) => *fence < self.rank,
            None => false,
        }
    }

    /// Whether the key at a place is less than the key that is looked for.
    #[inline]
    fn is_key_passed(&self, place: usize) -> bool {
        match self.keys.get(place) {
            Some(other) => other.is_below(&self.key),
            None => false,
        }
    }

    /// Passes a power of two of fences, if the last of them is less. What is read is shifted into the place: a choice between
    /// two places would be a branch again, and a processor that foretells it wrongly waits for the fence.
    #[inline]
    fn pass_fences(&mut self, power: u32) {
        let step = 1usize.wrapping_shl(power);
        let last = self.low.wrapping_add(step - 1);
        let is_passed = usize::from(self.is_passed(last));
        self.low = self.low.wrapping_add(is_passed.wrapping_shl(power));
    }

    /// The same of keys.
    #[inline]
    fn pass_keys(&mut self, power: u32) {
        let step = 1usize.wrapping_shl(power);
        let last = self.low.wrapping_add(step - 1);
        let is_passed = usize::from(self.is_key_passed(last));
        self.low = self.low.wrapping_add(is_passed.wrapping_shl(power));
    }

    /// Goes from the fences that were passed to the keys behind them.
    #[inline]
    fn end_fences(&mut self) {
        self.low = self.low.wrapping_mul(KEYS_A_FENCE);
    }
}

/// Has these searches take turns until each has ended.
///
/// It takes as many rounds as the logarithm of the greatest number of fences, and three more for the keys. In each round no
/// search waits for what another reads.
pub fn take_turns(probes: &mut [Probe<'_>]) {
    let mut most = 0;
    for probe in probes.iter() {
        most = probe.fences.len().max(most);
    }
    for power in (0..usize::BITS - most.leading_zeros()).rev() {
        for probe in probes.iter_mut() {
            probe.pass_fences(power);
        }
    }
    for probe in probes.iter_mut() {
        probe.end_fences();
    }
    for power in (0..3u32).rev() {
        for probe in probes.iter_mut() {
            probe.pass_keys(power);
        }
    }
}
