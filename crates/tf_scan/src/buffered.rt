//! Leaves that are read some timestamps at a time.
ghost use Rattle.std.specs.Prelude.{◌≡◌};

use crate::buffer::Buffer;
use crate::{Direction, Leaf};
use std::marker::Model;

/// A leaf of which some timestamps are read at a time, and given one by one.
///
/// A contract sees it as its direction and the timestamps that are still to come. The leaf is read only where a timestamp
/// is asked for and none is kept, and then no further than the leaf itself says.
#[derive(Drop)]
pub(crate) struct Buffered<P: Leaf> {
    /// Those of its timestamps that were read and are still to come.
    buffer: Buffer,
    leaf: P,
}

impl<P: Leaf> Model for Buffered<P> {
    ghost use Rattle.std.specs.Prelude.{◌++◌};
    ghost use Rattle.tf_scan.specs.Sequence.{Sequence};

    ghost Value = { Sequence };

    ghost use Rattle.tf_scan.specs.Order.{IsInOrder};

    ghost view = { λ b. record { direction = P.direction b.leaf; left = b.buffer ++ P.left b.leaf } };

    ghost invariant = { λ b. IsInOrder (P.direction b.leaf) (b.buffer ++ P.left b.leaf) };
}

impl<P: Leaf> Buffered<P> {
    /// A leaf, of which nothing is read yet.
    #[inline(always)]
    pub(crate) fn new(leaf: P) -> Self
        ensures direction { result.direction ≡ P.direction leaf }
        ensures left { result.left ≡ P.left leaf }
    {
        // `direction` tells the proof that the timestamps are in order.
        let _direction = leaf.direction();
        Buffered {
            buffer: Buffer::new(),
            leaf,
        }
    }
}

impl<P: Leaf> Leaf for Buffered<P> {
    ghost left = { λ b. b.left };

    ghost direction = { λ b. b.direction };

    #[inline]
    fn direction(&self) -> Direction {
        self.leaf.direction()
    }

    #[inline]
    fn next(&mut self) -> Option<u64> {
        if let Some(timestamp) = self.buffer.next() {
            return Some(timestamp);
        }
        self.buffer.fill(&mut self.leaf);
        self.buffer.next()
    }

    /// The leaf isn't asked where one that was read stays.
    fn seek(&mut self, timestamp: u64) {
        self.buffer.seek(self.leaf.direction(), timestamp);
        if !self.buffer.is_empty() {
            return;
        }
        self.leaf.seek(timestamp);
    }

    /// What was read is moved first, and then the leaf moves its own.
    fn take_into(&mut self, out: &mut [u64]) -> usize {
        let kept = self.buffer.take_into(out);
        let more = self.leaf.take_into(&mut out[kept..]);
        kept + more
    }
}
