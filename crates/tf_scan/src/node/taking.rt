//! How the timestamps of a part are moved into a slice.
ghost use Rattle.std.specs.Prelude.{◌≡◌, ◌≤◌, ◌<◌, ◌++◌, [], length, min, take, drop, slice_get};
ghost use Rattle.tf_scan.specs.Order.{IsInOrder};
ghost use Rattle.tf_scan.specs.Sets.{union_of};
ghost use Rattle.tf_scan.specs.Node.{IsNotPast, IsPartOf, KeepsPart, WritesPart, WritesUnion};

use super::{Kind, Node};
use crate::head::Head;
use crate::operation::Operation;
use crate::{Direction, Leaf};
use std::alloc::Allocator;

impl<P: Leaf, A: Allocator> Node<P, A> {
    /// Moves the first timestamps to the front of `out`, until it is full or none is left, and tells how many those are.
    /// A leaf moves its own at once, and a union goes on with one part as long as that one's come first.
    pub(crate) fn take_into(&mut self, out: &mut [u64]) -> usize
        ensures count { result ≡ min (length out.old) (length self.old.left) }
        ensures moved { out.new ≡ take result self.old.left ++ drop result out.old }
        ensures others { self.new.left ≡ drop result self.old.left }
        ensures kept { KeepsPart self.old self.new }
    {
        match self.head {
            Head::Unread => match &mut self.kind {
                Kind::Leaf(leaf) => leaf.take_into(out),
                Kind::Join(Operation::Union, left, right) => {
                    take_union(self.direction, left, right, out)
                }
                Kind::Join(..) => self.take_each(out),
            },
            _ => self.take_each(out),
        }
    }

    /// The same, one by one.
    fn take_each(&mut self, out: &mut [u64]) -> usize
        requires { IsInOrder self.old.direction self.old.left }
        ensures count { result ≡ min (length out.old) (length self.old.left) }
        ensures moved { out.new ≡ take result self.old.left ++ drop result out.old }
        ensures others { self.new.left ≡ drop result self.old.left }
        ensures kept { KeepsPart self.old self.new }
    {
        for taken in 0..out.len() {
            match self.next() {
                Some(timestamp) => out[taken] = timestamp,
                None => return taken,
            }
        }
        out.len()
    }

    /// Moves the timestamps that come before another one, or all where there is none, to `out` from one place on, as long as
    /// there is room, and tells the place behind the last.
    fn take_ahead(&mut self, until: Option<u64>, out: &mut [u64], from: usize) -> usize
        requires room { from ≤ length out.old }
        requires in_order { IsInOrder self.old.direction self.old.left }
        ensures moved { WritesPart until from result self.old self.new out.old out.new }
        ensures last { result < length out.old → IsNotPast self.old.direction until (slice_get self.new.left 0) }
    {
        let mut to = from;
        while to < out.len() {
            let Some(timestamp) = self.peek() else {
                return to;
            };
            if !self.direction().is_past(timestamp, until) {
                return to;
            }
            out[to] = timestamp;
            self.next();
            to += 1;
        }
        to
    }
}

/// Moves the first timestamps of a union to the front of `out`, until it is full or none is left, and tells how many those
/// are.
fn take_union<P: Leaf, A: Allocator>(
    direction: Direction,
    left: &mut Node<P, A>,
    right: &mut Node<P, A>,
    out: &mut [u64],
) -> usize
    requires left { IsPartOf direction left.old }
    requires right { IsPartOf direction right.old }
    ensures count { result ≡ min (length out.old) (length (union_of direction left.old.left right.old.left)) }
    ensures moved { out.new ≡ take result (union_of direction left.old.left right.old.left) ++ drop result out.old }
    ensures others { union_of direction left.new.left right.new.left ≡ drop result (union_of direction left.old.left right.old.left) }
    ensures left { KeepsPart left.old left.new }
    ensures right { KeepsPart right.old right.new }
{
    let mut taken = 0;
    while taken < out.len() {
        let to = take_of_union(direction, left, right, out, taken);
        if to == taken {
            return to;
        }
        taken = to;
    }
    taken
}

/// Moves the first timestamp of a union to one place in `out`, and behind it those of the same part that come before the
/// other part's, and tells the place behind the last. It moves none where none is left.
fn take_of_union<P: Leaf, A: Allocator>(
    direction: Direction,
    left: &mut Node<P, A>,
    right: &mut Node<P, A>,
    out: &mut [u64],
    from: usize,
) -> usize
    requires room { from < length out.old }
    requires left { IsPartOf direction left.old }
    requires right { IsPartOf direction right.old }
    ensures moved { WritesUnion direction from result left.old right.old left.new right.new out.old out.new }
    ensures none { result ≡ from → union_of direction left.old.left right.old.left ≡ [] }
{
    let Some(first) = left.peek() else {
        return right.take_ahead(None, out, from);
    };
    let Some(other) = right.peek() else {
        return left.take_ahead(None, out, from);
    };
    if direction.is_before(first, other) {
        return left.take_ahead(Some(other), out, from);
    }
    if direction.is_before(other, first) {
        return right.take_ahead(Some(first), out, from);
    }
    left.next();
    right.next();
    out[from] = other;
    from + 1
}
