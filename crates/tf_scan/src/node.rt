//! A part of a scan.
ghost use Rattle.std.specs.Prelude.{◌≡◌};
ghost use Rattle.tf_scan.specs.Order.{IsInOrder};
ghost use Rattle.tf_scan.specs.Node.{join_of, IsPartOf};

mod reading;
mod taking;

use crate::head::Head;
use crate::operation::Operation;
use crate::{Direction, Leaf};
use std::alloc::Allocator;
use std::marker::Model;

/// A part of a scan: a leaf, or a join of two parts. It keeps its first timestamp, once that is read.
#[cycle(part)]
#[derive(Drop)]
pub(crate) struct Node<P: Leaf, A: Allocator> {
    direction: Direction,
    head: Head,
    kind: Kind<P, A>,
}

/// What a part reads from. A leaf may be large, and a scan is moved into others, so it lies in a box.
#[cycle(part)]
#[derive(Drop)]
enum Kind<P: Leaf, A: Allocator> {
    Leaf(Box<P, A>),
    Join(Operation, Box<Node<P, A>, A>, Box<Node<P, A>, A>),
}

impl<P: Leaf, A: Allocator> Model for Node<P, A> {
    ghost use Rattle.tf_scan.specs.Part.{Part};

    ghost Value = { Part };

    ghost use Rattle.tf_scan.specs.Node.{left_behind, with_head, height_of, IsNode};

    ghost view = { λ n. record { direction = n.direction; left = with_head n.head (left_behind P.left n.direction n.kind); height = height_of n.kind } };

    ghost invariant = { λ n. IsNode P.direction P.left n.direction n.head n.kind };

    ghost size = { λ part. part.height };

    ghost use Rattle.tf_scan.specs.Falls.{deep_le-height};

    ghost size_decreases = { λ n h. deep_le-height P.Leaf A.Allocator n.kind };
}

impl<P: Leaf, A: Allocator> Node<P, A> {
    /// A leaf, of which nothing is read yet.
    #[inline(always)]
    pub(crate) fn leaf(leaf: Box<P, A>) -> Self
        ensures direction { result.direction ≡ P.direction leaf.value }
        ensures left { result.left ≡ P.left leaf.value }
        ensures in_order { IsInOrder result.direction result.left }
    {
        let direction = leaf.direction();
        Node {
            direction,
            head: Head::Unread,
            kind: Kind::Leaf(leaf),
        }
    }

    /// A join of two parts of one direction, of which nothing is read yet.
    #[inline(always)]
    pub(crate) fn join(
        operation: Operation,
        left: Box<Node<P, A>, A>,
        right: Box<Node<P, A>, A>,
    ) -> Self
        requires left { IsInOrder left.value.direction left.value.left }
        requires right { IsPartOf left.value.direction right.value }
        ensures direction { result.direction ≡ left.value.direction }
        ensures left { result.left ≡ join_of operation left.value.direction left.value.left right.value.left }
        ensures in_order { IsInOrder result.direction result.left }
    {
        Node {
            direction: left.direction(),
            head: Head::Unread,
            kind: Kind::Join(operation, left, right),
        }
    }

    /// The order in which the timestamps come.
    pub(crate) fn direction(&self) -> Direction
        ensures { result ≡ self.now.direction }
    {
        self.direction
    }
}
