//! Timestamps in a slice.
ghost use Rattle.std.specs.Prelude.{◌≡◌, Decides, IfNone, IfSome};
ghost use Rattle.tf_scan.specs.Order.{IsInOrder};

use crate::{Direction, Leaf};
use std::marker::Model;

/// Timestamps that lie in a slice, in their order: the plainest leaf of a scan.
///
/// A contract sees it as its direction and the timestamps that are still to come.
#[derive(Drop)]
pub struct PostingList<'a> {
    direction: Direction,
    timestamps: &'a [u64],
}

impl<'a> Model for PostingList<'a> {
    ghost use Rattle.tf_scan.specs.Sequence.{Sequence};

    ghost Value = { Sequence };

    ghost use Rattle.tf_scan.specs.Order.{IsInOrder};

    ghost view = { λ p. record { direction = p.direction; left = p.timestamps.now } };

    ghost invariant = { λ p. IsInOrder p.direction p.timestamps.now };
}

/// Whether each of these timestamps comes before the next one.
fn is_in_order(direction: Direction, timestamps: &[u64]) -> bool
    ensures { Decides result (IsInOrder direction timestamps.now) }
{
    let mut left = timestamps;
    while let Some((first, others)) = left.split_first() {
        if let Some(next) = others.first() {
            if !direction.is_before(*first, *next) {
                return false;
            }
        }
        left = others;
    }
    true
}

impl<'a> PostingList<'a> {
    /// These timestamps, or None where they aren't in order in this direction. It looks at each of them, and takes no
    /// memory.
    pub fn new(direction: Direction, timestamps: &'a [u64]) -> Option<Self>
        ensures some { IfSome result (λ list. list ≡ record { direction = direction; left = timestamps.now }) }
        ensures none { IfNone result (¬ (IsInOrder direction timestamps.now)) }
    {
        if !is_in_order(direction, timestamps) {
            return None;
        }
        Some(PostingList {
            direction,
            timestamps,
        })
    }
}

impl<'a> Leaf for PostingList<'a> {
    ghost left = { λ p. p.left };

    ghost direction = { λ p. p.direction };

    fn direction(&self) -> Direction {
        self.direction
    }

    fn next(&mut self) -> Option<u64> {
        let (first, others) = self.timestamps.split_first()?;
        self.timestamps = others;
        Some(*first)
    }

    /// It goes through the timestamps that it takes out one by one.
    fn seek(&mut self, timestamp: u64) {
        while let Some((first, others)) = self.timestamps.split_first() {
            if !self.direction.is_before(*first, timestamp) {
                return;
            }
            self.timestamps = others;
        }
    }
}
