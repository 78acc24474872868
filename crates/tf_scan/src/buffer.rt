//! The next few timestamps of a leaf.
ghost use Rattle.std.specs.Prelude.{◌≡◌, ◌≤◌, ◌<◌, ◌++◌, [], Decides, length, min, take, drop, slice_get};
ghost use Rattle.tf_scan.specs.Order.{IsInOrder, those_from};

use crate::{Direction, Leaf};
use std::marker::Model;

/// How many timestamps a buffer has room for.
const ROOM: usize = 16;

/// The next few timestamps of a leaf, which were moved out of it together.
///
/// A contract sees it as the timestamps that are still to come.
#[derive(Drop)]
pub(crate) struct Buffer {
    timestamps: [u64; ROOM],
    /// The place of the first timestamp that is still to come.
    from: usize,
    /// The place behind the last.
    to: usize,
    /// How many timestamps the leaf is asked for next.
    asked: usize,
}

impl Model for Buffer {
    ghost use Rattle.std.specs.Prelude.{◌≤◌, ◌<◌, ℕ, List, slice_range};

    ghost Value = { List ℕ };

    ghost view = { λ b. slice_range b.timestamps b.from b.to };

    ghost invariant = { λ b. (b.from ≤ b.to) × (b.to ≤ 16) × (0 < b.asked) × (b.asked ≤ 16) };
}

impl Buffer {
    /// A buffer with no timestamp.
    #[inline(always)]
    pub(crate) fn new() -> Self
        ensures { result ≡ [] }
    {
        Buffer {
            timestamps: [0; ROOM],
            from: 0,
            to: 0,
            asked: ROOM / 2,
        }
    }

    /// Whether no timestamp is left.
    #[inline]
    pub(crate) fn is_empty(&self) -> bool
        ensures { Decides result (self.now ≡ []) }
    {
        self.from == self.to
    }

    /// Takes out the first timestamp, None where none is left.
    #[inline]
    pub(crate) fn next(&mut self) -> Option<u64>
        ensures first { result ≡ slice_get self.old 0 }
        ensures others { self.new ≡ drop 1 self.old }
    {
        if self.from == self.to {
            return None;
        }
        let timestamp = self.timestamps[self.from];
        self.from += 1;
        Some(timestamp)
    }

    /// Moves some of a leaf's first timestamps into the buffer, which has none left: one at least, if the leaf has one.
    ///
    /// It asks for more each time, until it asks for as many as it has room for.
    pub(crate) fn fill<P: Leaf>(&mut self, leaf: &mut P)
        requires { self.old ≡ [] }
        ensures moved { P.left leaf.old ≡ self.new ++ P.left leaf.new }
        ensures some { self.new ≡ [] → P.left leaf.old ≡ [] }
        ensures direction_kept { P.direction leaf.new ≡ P.direction leaf.old }
    {
        self.to = leaf.take_some(&mut self.timestamps[..self.asked]);
        self.from = 0;
        self.asked = ROOM.min(4 * self.asked);
    }

    /// Takes out the timestamps before this one.
    pub(crate) fn seek(&mut self, direction: Direction, timestamp: u64)
        requires { IsInOrder direction self.old }
        ensures { self.new ≡ those_from direction timestamp self.old }
    {
        let left = self.to - self.from;
        let passed = count_before(direction, &self.timestamps[self.from..self.to], timestamp);
        self.from += passed;
        self.asked = asked_after(self.asked, passed, left);
    }

    /// Moves the first timestamps to the front of `out`, until it is full or none is left, and tells how many those are.
    pub(crate) fn take_into(&mut self, out: &mut [u64]) -> usize
        ensures count { result ≡ min (length out.old) (length self.old) }
        ensures moved { out.new ≡ take result self.old ++ drop result out.old }
        ensures others { self.new ≡ drop result self.old }
    {
        let count = out.len().min(self.to - self.from);
        let end = self.from + count;
        out[..count].copy_from_slice(&self.timestamps[self.from..end]);
        self.from = end;
        count
    }
}

/// How many timestamps a leaf is asked for next, where it was to be asked for so many, and so many of those left were passed
/// over.
///
/// Where several were left and none is, most of what the leaf gives is passed over: it is asked for one.
#[inline]
fn asked_after(asked: usize, passed: usize, left: usize) -> usize
    requires { 0 < asked }
    ensures some { 0 < result }
    ensures most { result ≤ asked }
{
    if passed > 1 && passed == left {
        1
    } else {
        asked
    }
}

/// How many of these timestamps, which are in order, come before this one.
fn count_before(direction: Direction, timestamps: &[u64], timestamp: u64) -> usize
    requires { IsInOrder direction timestamps.now }
    ensures count { result ≤ length timestamps.now }
    ensures others { drop result timestamps.now ≡ those_from direction timestamp timestamps.now }
{
    for count in 0..timestamps.len() {
        if !direction.is_before(timestamps[count], timestamp) {
            return count;
        }
    }
    timestamps.len()
}
