//! What a scan reads from.
ghost use Rattle.std.specs.Prelude.{◌≡◌, ◌≤◌, ◌<◌, ℕ, List, ◌++◌, length, min, take, drop, slice_get};
ghost use Rattle.tf_scan.specs.declared.direction.Direction as declared;
ghost use Rattle.tf_scan.specs.Order.{IsInOrder, those_from};

use crate::Direction;

/// Timestamps in one direction, each once, of which some are still to come.
pub trait Leaf {
    /// The timestamps that are still to come, in their order.
    ghost left: { Self → List ℕ };

    /// The order in which they come.
    ghost direction: { Self → declared.Direction };

    /// The order in which they come. Takes no memory.
    fn direction(&self) -> Direction
        ensures value { result ≡ direction self.now }
        ensures in_order { IsInOrder (direction self.now) (left self.now) };

    /// Takes out the first of them, None where none is left. Takes no memory.
    fn next(&mut self) -> Option<u64>
        ensures first { result ≡ slice_get (left self.old) 0 }
        ensures others { left self.new ≡ drop 1 (left self.old) }
        ensures direction_kept { direction self.new ≡ direction self.old };

    /// Takes out those that come before this timestamp: where they rise, those below it, and where they fall, those
    /// above it. Takes no memory.
    fn seek(&mut self, timestamp: u64)
        ensures others { left self.new ≡ those_from (direction self.old) timestamp (left self.old) }
        ensures direction_kept { direction self.new ≡ direction self.old };

    /// Moves the first of them to the front of `out`, in their order, until it is full or none is left, and tells how
    /// many those are. Takes no memory.
    fn take_into(&mut self, out: &mut [u64]) -> usize
        ensures count { result ≡ min (length out.old) (length (left self.old)) }
        ensures moved { out.new ≡ take result (left self.old) ++ drop result out.old }
        ensures others { left self.new ≡ drop result (left self.old) }
        ensures direction_kept { direction self.new ≡ direction self.old }
    {
        for taken in 0..out.len() {
            match self.next() {
                Some(timestamp) => out[taken] = timestamp,
                None => return taken,
            }
        }
        out.len()
    }

    /// Moves the first of them to the front of `out`, in their order, and tells how many those are: one at least, where
    /// there is room and one is left, and as many more as are at hand. Takes no memory.
    fn take_some(&mut self, out: &mut [u64]) -> usize
        ensures room { result ≤ length out.old }
        ensures count { result ≤ length (left self.old) }
        ensures some { 0 < length out.old → 0 < length (left self.old) → 0 < result }
        ensures moved { out.new ≡ take result (left self.old) ++ drop result out.old }
        ensures others { left self.new ≡ drop result (left self.old) }
        ensures direction_kept { direction self.new ≡ direction self.old }
    {
        if out.is_empty() {
            return 0;
        }
        let Some(timestamp) = self.next() else {
            return 0;
        };
        out[0] = timestamp;
        1
    }
}
