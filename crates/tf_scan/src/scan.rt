//! Scans.
ghost use Rattle.std.specs.Prelude.{◌≡◌, ◌||◌, ◌&&◌, ℕ, ◌++◌, IfErr, IfOk, length, min, take, drop, slice_get};
ghost use Rattle.tf_records.specs.declared.refusal.Refusal.TheVariants.{NoMemory};
ghost use Rattle.tf_scan.specs.Order.{IsInOrder, those_from};
ghost use Rattle.tf_scan.specs.Sets.{is_among, union_of, intersection_of};
ghost use Rattle.tf_scan.specs.Node.{join_of};

use crate::buffered::Buffered;
use crate::node::Node;
use crate::operation::Operation;
use crate::{Direction, Leaf};
use std::alloc::Allocator;
use std::marker::Model;
use tf_records::Refusal;

/// Timestamps in one direction, each once: those of a leaf, of a union or of an intersection of two scans.
///
/// A contract sees a scan as its direction and the timestamps that are still to come. No leaf is read before the first
/// `next` or `seek`, and of a union or an intersection no further than the next timestamp needs, but for what a leaf has at
/// hand behind it: up to 16 timestamps of each leaf are kept.
#[derive(Drop)]
pub struct Scan<P: Leaf, A: Allocator> {
    root: Node<Buffered<P>, A>,
}

impl<P: Leaf, A: Allocator> Model for Scan<P, A> {
    ghost use Rattle.tf_scan.specs.Sequence.{Sequence};

    ghost Value = { Sequence };

    ghost use Rattle.tf_scan.specs.Order.{IsInOrder};

    ghost view = { λ s. record { direction = s.root.direction; left = s.root.left } };

    ghost invariant = { λ s. IsInOrder s.root.direction s.root.left };
}

impl<P: Leaf, A: Allocator> Scan<P, A> {
    /// The timestamps of a leaf, or [`Refusal::NoMemory`], where the memory for a box on `alloc` was refused.
    #[inline(always)]
    pub fn leaf(alloc: A, leaf: P) -> Result<Self, Refusal>
    where
        P: Drop,
        ensures direction { IfOk result (λ scan. scan.direction ≡ P.direction leaf) }
        ensures left { IfOk result (λ scan. scan.left ≡ P.left leaf) }
        ensures err { IfErr result (λ refusal. refusal ≡ NoMemory) }
    {
        let leaf = Box::new(alloc, Buffered::new(leaf))?;
        Ok(Scan {
            root: Node::leaf(leaf),
        })
    }

    /// The timestamps of both scans, each once, or [`Refusal::NoMemory`], where the memory for two boxes on `alloc` was
    /// refused. Both scans have one direction.
    ///
    /// Its `next` compares the first timestamps of the two, and takes it out of one of them, or out of both.
    #[inline(always)]
    pub fn union(alloc: A, left: Self, right: Self) -> Result<Self, Refusal>
    where
        P: Drop,
        A: Clone,
        requires one_direction { right.direction ≡ left.direction }
        ensures direction { IfOk result (λ scan. scan.direction ≡ left.direction) }
        ensures left { IfOk result (λ scan. scan.left ≡ union_of left.direction left.left right.left) }
        // It is the list in order of the timestamps that are in one or in both.
        ensures in_order { IfOk result (λ scan. IsInOrder left.direction scan.left) }
        ensures members { IfOk result (λ scan. (t : ℕ) → is_among t scan.left ≡ (is_among t left.left || is_among t right.left)) }
        ensures err { IfErr result (λ refusal. refusal ≡ NoMemory) }
    {
        Self::join(alloc, Operation::Union, left, right)
    }

    /// The timestamps that are in both scans, or [`Refusal::NoMemory`], where the memory for two boxes on `alloc` was
    /// refused. Both scans have one direction.
    ///
    /// In its `next` the scan that is behind seeks to the first timestamp of the other, until they meet. So where one
    /// has few timestamps, they cost about as many seeks in the other, however many that one has.
    #[inline(always)]
    pub fn intersection(alloc: A, left: Self, right: Self) -> Result<Self, Refusal>
    where
        P: Drop,
        A: Clone,
        requires one_direction { right.direction ≡ left.direction }
        ensures direction { IfOk result (λ scan. scan.direction ≡ left.direction) }
        ensures left { IfOk result (λ scan. scan.left ≡ intersection_of left.left right.left) }
        // It is the list in order of the timestamps that are in both.
        ensures in_order { IfOk result (λ scan. IsInOrder left.direction scan.left) }
        ensures members { IfOk result (λ scan. (t : ℕ) → is_among t scan.left ≡ (is_among t left.left && is_among t right.left)) }
        ensures err { IfErr result (λ refusal. refusal ≡ NoMemory) }
    {
        Self::join(alloc, Operation::Intersection, left, right)
    }

    /// Both scans in a box each, joined.
    #[inline]
    fn join(alloc: A, operation: Operation, left: Self, right: Self) -> Result<Self, Refusal>
    where
        P: Drop,
        A: Clone,
        requires one_direction { right.direction ≡ left.direction }
        ensures direction { IfOk result (λ scan. scan.direction ≡ left.direction) }
        ensures left { IfOk result (λ scan. scan.left ≡ join_of operation left.direction left.left right.left) }
        ensures in_order { IfOk result (λ scan. IsInOrder left.direction scan.left) }
        ensures err { IfErr result (λ refusal. refusal ≡ NoMemory) }
    {
        let left = Box::new(alloc.clone()?, left.root)?;
        let right = Box::new(alloc, right.root)?;
        Ok(Scan {
            root: Node::join(operation, left, right),
        })
    }

    /// The order in which the timestamps come. It takes no memory.
    pub fn direction(&self) -> Direction
        ensures value { result ≡ self.now.direction }
        // No timestamp comes twice.
        ensures in_order { IsInOrder self.now.direction self.now.left }
    {
        self.root.direction()
    }

    /// Takes out the first timestamp, None where none is left. It takes no memory.
    pub fn next(&mut self) -> Option<u64>
        ensures first { result ≡ slice_get self.old.left 0 }
        ensures others { self.new.left ≡ drop 1 self.old.left }
        ensures direction { self.new.direction ≡ self.old.direction }
    {
        self.root.next()
    }

    /// Moves the first timestamps to the front of `out`, in their order, until it is full or none is left, and tells how
    /// many those are. It takes no memory.
    ///
    /// Of a leaf it moves as many at once as the leaf can, of a union those of one part as long as they come before the
    /// other's, and those of an intersection one by one. What it gives is what as many calls of `next` would give.
    pub fn take_into(&mut self, out: &mut [u64]) -> usize
        ensures count { result ≡ min (length out.old) (length self.old.left) }
        ensures moved { out.new ≡ take result self.old.left ++ drop result out.old }
        ensures others { self.new.left ≡ drop result self.old.left }
        ensures direction { self.new.direction ≡ self.old.direction }
    {
        self.root.take_into(out)
    }

    /// Takes out the timestamps that come before this one: where they rise, those below it, and where they fall, those
    /// above it. It takes no memory.
    pub fn seek(&mut self, timestamp: u64)
        ensures others { self.new.left ≡ those_from self.old.direction timestamp self.old.left }
        ensures direction { self.new.direction ≡ self.old.direction }
    {
        self.root.seek(timestamp);
    }
}
