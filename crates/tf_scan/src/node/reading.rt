//! How a part is read.
ghost use Rattle.std.specs.Prelude.{◌≡◌, drop, slice_get};
ghost use Rattle.tf_scan.specs.Order.{IsInOrder, those_from};
ghost use Rattle.tf_scan.specs.Sets.{union_of, intersection_of};
ghost use Rattle.tf_scan.specs.Node.{left_behind, height_of, IsKind, IsPartOf, KeepsPart};

use super::{Kind, Node};
use crate::head::Head;
use crate::operation::Operation;
use crate::{Direction, Leaf};
use std::alloc::Allocator;

impl<P: Leaf, A: Allocator> Node<P, A> {
    /// The first timestamp, which stays. It is read from what is below only where it wasn't read before.
    #[cycle(read)]
    #[inline]
    pub(crate) fn peek(&mut self) -> Option<u64>
        ensures first { result ≡ slice_get self.old.left 0 }
        ensures same { self.new ≡ self.old }
    {
        match self.head {
            Head::At(timestamp) => Some(timestamp),
            Head::End => None,
            Head::Unread => {
                let first = read(self.direction, &mut self.kind);
                self.head = match first {
                    Some(timestamp) => Head::At(timestamp),
                    None => Head::End,
                };
                first
            }
        }
    }

    /// Takes out the first timestamp.
    #[cycle(read)]
    #[inline]
    pub(crate) fn next(&mut self) -> Option<u64>
        ensures first { result ≡ slice_get self.old.left 0 }
        ensures others { self.new.left ≡ drop 1 self.old.left }
        ensures kept { KeepsPart self.old self.new }
    {
        match self.head {
            Head::At(timestamp) => {
                self.head = Head::Unread;
                Some(timestamp)
            }
            Head::End => None,
            Head::Unread => read(self.direction, &mut self.kind),
        }
    }

    /// Takes out the timestamps before this one. Nothing below is asked where the first one stays.
    #[cycle(seek)]
    pub(crate) fn seek(&mut self, timestamp: u64)
        ensures others { self.new.left ≡ those_from self.old.direction timestamp self.old.left }
        ensures kept { KeepsPart self.old self.new }
    {
        match self.head {
            Head::At(first) => {
                if self.direction.is_before(first, timestamp) {
                    self.head = Head::Unread;
                    seek_below(self.direction, &mut self.kind, timestamp);
                }
            }
            Head::End => {}
            Head::Unread => seek_below(self.direction, &mut self.kind, timestamp),
        }
    }
}

/// Takes the timestamps before this one out of what a part reads from.
#[cycle(seek)]
fn seek_below<P: Leaf, A: Allocator>(direction: Direction, kind: &mut Kind<P, A>, timestamp: u64)
    requires kind { IsKind P.direction P.left direction kind.old }
    ensures others { left_behind P.left direction kind.new ≡ those_from direction timestamp (left_behind P.left direction kind.old) }
    ensures kind { IsKind P.direction P.left direction kind.new }
    ensures height { height_of kind.new ≡ height_of kind.old }
{
    match kind {
        Kind::Leaf(leaf) => leaf.seek(timestamp),
        Kind::Join(_, left, right) => {
            left.seek(timestamp);
            right.seek(timestamp);
        }
    }
}

/// Takes out the first timestamp of what a part reads from.
#[cycle(read)]
fn read<P: Leaf, A: Allocator>(direction: Direction, kind: &mut Kind<P, A>) -> Option<u64>
    requires kind { IsKind P.direction P.left direction kind.old }
    ensures first { result ≡ slice_get (left_behind P.left direction kind.old) 0 }
    ensures others { left_behind P.left direction kind.new ≡ drop 1 (left_behind P.left direction kind.old) }
    ensures kind { IsKind P.direction P.left direction kind.new }
    ensures height { height_of kind.new ≡ height_of kind.old }
{
    match kind {
        Kind::Leaf(leaf) => leaf.next(),
        Kind::Join(Operation::Union, left, right) => next_of_union(direction, left, right),
        Kind::Join(Operation::Intersection, left, right) => {
            next_of_intersection(direction, left, right)
        }
    }
}

/// Takes the first timestamp of a union out of the part that has it, or out of both.
#[cycle(read)]
fn next_of_union<P: Leaf, A: Allocator>(
    direction: Direction,
    left: &mut Node<P, A>,
    right: &mut Node<P, A>,
) -> Option<u64>
    requires left { IsPartOf direction left.old }
    requires right { IsPartOf direction right.old }
    ensures first { result ≡ slice_get (union_of direction left.old.left right.old.left) 0 }
    ensures others { union_of direction left.new.left right.new.left ≡ drop 1 (union_of direction left.old.left right.old.left) }
    ensures left { KeepsPart left.old left.new }
    ensures right { KeepsPart right.old right.new }
{
    let Some(first) = left.peek() else {
        return right.next();
    };
    let Some(other) = right.peek() else {
        return left.next();
    };
    if direction.is_before(first, other) {
        return left.next();
    }
    if direction.is_before(other, first) {
        return right.next();
    }
    left.next();
    right.next()
}

/// Takes the first timestamp that both parts have out of them. The part that is behind seeks to the first of the other.
#[cycle(read)]
fn next_of_intersection<P: Leaf, A: Allocator>(
    direction: Direction,
    left: &mut Node<P, A>,
    right: &mut Node<P, A>,
) -> Option<u64>
    requires left { IsPartOf direction left.old }
    requires right { IsPartOf direction right.old }
    ensures first { result ≡ slice_get (intersection_of left.old.left right.old.left) 0 }
    ensures others { intersection_of left.new.left right.new.left ≡ drop 1 (intersection_of left.old.left right.old.left) }
    ensures left { KeepsPart left.old left.new }
    ensures right { KeepsPart right.old right.new }
{
    while let (Some(first), Some(other)) = (left.peek(), right.peek()) {
        if direction.is_before(first, other) {
            left.seek(other);
        } else if direction.is_before(other, first) {
            right.seek(first);
        } else {
            left.next();
            return right.next();
        }
    }
    None
}
