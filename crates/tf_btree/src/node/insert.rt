//! Inserts into a node.
ghost use Rattle.std.specs.Prelude.{◌≡◌, ◌+◌, ◌<◌, ◌≤◌, [], ◌∷◌, ◌++◌, length, insert, take, drop, suc, slice_index_or, slice_set, true, false, IsSome, IfSome, IfNone, None, OnErr};
ghost use Rattle.tf_btree.specs.Shape.{AllFilled, Fill, IsFilled, edge_at};
ghost use Rattle.tf_btree.specs.Subtree.{Subtree, joined, rows, fill_of};
ghost use Rattle.tf_sorted.specs.Rows.{IsRising};
ghost use Rattle.tf_btree.specs.Place.{IsGap};
ghost use Rattle.tf_btree.specs.Node.{empty_node};
ghost use Rattle.tf_btree.specs.Inserted.{IsInsert, IsParted, IsSplitOf, IsFilledWith, rows_behind, fills_behind};

use super::{CAPACITY, HALF, Node};
use std::alloc::{AllocError, Allocator};
use std::mem;

/// How a node stands in its tree when a row is put below it.
#[derive(Clone, Copy)]
pub(crate) struct Standing {
    /// No node of its height lies behind it.
    pub(crate) at_edge: bool,
    /// Its parent can take the second part where it is split.
    pub(crate) may_split: bool,
}

/// How many entries a full node keeps where it is split for one more at `at`.
///
/// They are half of them. At the right end of the tree, where that one goes behind all others, they are all.
fn kept_by_split(at: usize, at_edge: bool) -> usize
    ensures half { HALF ≤ result }
    ensures fits { result ≤ CAPACITY }
    ensures off { at_edge ≡ false → result ≡ HALF }
    ensures front { at ≤ HALF → result ≡ HALF }
    ensures back { HALF < at → at ≤ CAPACITY → result ≤ at }
    ensures end { at_edge ≡ true → at ≡ CAPACITY → result ≡ CAPACITY }
{
    if at_edge && at == CAPACITY {
        CAPACITY
    } else {
        HALF
    }
}

impl<K: Copy, V: Copy, A: Allocator> Node<K, V, A> {
    /// An empty node on the allocator of this one, or `None` for want of memory.
    pub(super) fn spare(&self, is_branch: bool) -> Option<Box<Node<K, V, A>, A>>
    where
        A: Clone,
        ensures { IfSome result (λ b. b.value ≡ empty_node is_branch) }
    {
        let alloc = self.keys.allocator().clone().ok()?;
        let own = self.keys.allocator().clone().ok()?;
        let node = if is_branch {
            Node::new_branch(own).ok()?
        } else {
            Node::new_leaf(own).ok()?
        };
        Box::new(alloc, node).ok()
    }

    /// Puts another row over the entry of a leaf at `at`, and gives the value that was there.
    pub(super) fn replace_row(&mut self, at: usize, key: K, value: V) -> V
        requires leaf { self.old.is_branch ≡ false }
        requires in_range { at < length self.old.parts }
        ensures old { (k : K) (w : V) → slice_index_or self.old.parts at [] ≡ (k, w) ∷ [] → result ≡ w }
        ensures new { self.new ≡ record self.old { parts = slice_set self.old.parts at ((key, value) ∷ []) } }
    {
        self.keys[at] = key;
        mem::replace(&mut self.values[at], value)
    }

    /// Splits a full leaf to put a row in as the entry at `at`, and gives the second part.
    ///
    /// At the right end of the tree a row behind all others leaves the first part full.
    fn split_with_row(
        &mut self,
        mut right: Box<Node<K, V, A>, A>,
        at: usize,
        key: K,
        value: V,
        at_edge: bool,
    ) -> Box<Node<K, V, A>, A>
        requires leaf { self.old.is_branch ≡ false }
        requires full { length self.old.parts ≡ CAPACITY }
        requires in_bounds { at ≤ CAPACITY }
        requires empty { right.value ≡ empty_node false }
        ensures split { IsSplitOf self.old self.new result.value (joined (insert self.old.parts at ((key, value) ∷ []))) }
        ensures filled { IsFilled false (fill_of self.new) }
        ensures right_filled { IsFilled at_edge (fill_of result.value) }
        ensures kept { at_edge ≡ true → at ≡ CAPACITY → self.new.parts ≡ self.old.parts }
    {
        let kept = kept_by_split(at, at_edge);
        self.split_off(kept, &mut right);
        if at <= HALF {
            self.insert_row(at, key, value);
        } else {
            right.insert_row(at - kept, key, value);
        }
        right
    }

    /// Splits a full branch to put a child in as the entry at `at`, and gives the second part.
    ///
    /// At the right end of the tree a child behind all others leaves the first part full.
    fn split_with_child(
        &mut self,
        mut right: Box<Node<K, V, A>, A>,
        at: usize,
        child: Box<Node<K, V, A>, A>,
        at_edge: bool,
    ) -> Box<Node<K, V, A>, A>
        requires branch { self.old.is_branch ≡ true }
        requires full { length self.old.parts ≡ CAPACITY }
        requires in_bounds { at ≤ CAPACITY }
        requires some { 0 < length child.value.parts }
        requires level { self.old.height ≡ suc child.value.height }
        requires empty { right.value ≡ empty_node true }
        ensures split { IsSplitOf self.old self.new result.value (joined (insert self.old.parts at (rows child.value))) }
        ensures filled { AllFilled at_edge (insert self.old.fills at (fill_of child.value)) → IsFilled false (fill_of self.new) × IsFilled at_edge (fill_of result.value) }
        ensures kept { at_edge ≡ true → at ≡ CAPACITY → self.new.parts ≡ self.old.parts }
    {
        let kept = kept_by_split(at, at_edge);
        self.split_off(kept, &mut right);
        if at <= HALF {
            self.insert_child(at, child);
        } else {
            right.insert_child(at - kept, child);
        }
        right
    }

    /// Puts a child into a branch as the entry at `at`. A full branch is split with `spare`, and its second part is given.
    fn adopt(
        &mut self,
        at: usize,
        child: Box<Node<K, V, A>, A>,
        spare: Option<Box<Node<K, V, A>, A>>,
        at_edge: bool,
    ) -> Option<Box<Node<K, V, A>, A>>
        requires branch { self.old.is_branch ≡ true }
        requires in_bounds { at ≤ length self.old.parts }
        requires some { 0 < length child.value.parts }
        requires old_some { 0 < length self.old.parts }
        requires level { self.old.height ≡ suc child.value.height }
        requires room { length self.old.parts ≡ CAPACITY → IsSome spare }
        requires empty { IfSome spare (λ b. b.value ≡ empty_node true) }
        ensures all { rows self.new ++ rows_behind result ≡ joined (insert self.old.parts at (rows child.value)) }
        ensures parted { IsParted self.old self.new result }
        ensures filled { (at_edge ≡ false → HALF ≤ length self.old.parts) → AllFilled at_edge (insert self.old.fills at (fill_of child.value)) → IsFilledWith at_edge self.new result }
    {
        if self.len() < CAPACITY {
            self.insert_child(at, child);
            return None;
        }
        let right = spare.unwrap();
        Some(self.split_with_child(right, at, child, at_edge))
    }

    /// Puts the second part of the child at `at` behind it, where that child was split.
    fn settle(
        &mut self,
        at: usize,
        split: Option<Box<Node<K, V, A>, A>>,
        spare: Option<Box<Node<K, V, A>, A>>,
        at_edge: bool,
    ) -> Option<Box<Node<K, V, A>, A>>
        requires branch { self.old.is_branch ≡ true }
        requires in_range { at < length self.old.parts }
        requires fits { length self.old.parts ≤ CAPACITY }
        requires some { IfSome split (λ b. 0 < length b.value.parts) }
        requires level { IfSome split (λ b. self.old.height ≡ suc b.value.height) }
        requires room { IsSome split → length self.old.parts ≡ CAPACITY → IsSome spare }
        requires empty { IfSome spare (λ b. b.value ≡ empty_node true) }
        ensures all { rows self.new ++ rows_behind result ≡ joined (insert self.old.parts (at + 1) (rows_behind split)) }
        ensures parted { IsParted self.old self.new result }
        ensures only_split { IsSome result → IsSome split }
        ensures kept { split ≡ None → (self.new ≡ self.old) × (result ≡ None) }
        ensures filled { (at_edge ≡ false → HALF ≤ length self.old.parts) → AllFilled at_edge (take (at + 1) self.old.fills ++ (fills_behind split ++ drop (at + 1) self.old.fills)) → IsFilledWith at_edge self.new result }
    {
        match split {
            None => None,
            Some(right) => self.adopt(at + 1, right, spare, at_edge),
        }
    }

    /// Whether no node of its height lies behind the child at `at` of a branch, where `at_edge` says so of the branch.
    fn is_child_at_edge(&self, at: usize, at_edge: bool) -> bool
        requires branch { self.now.is_branch ≡ true }
        requires in_range { at < length self.now.parts }
        ensures { result ≡ edge_at at_edge self.now.fills at }
    {
        let len = self.len();
        at_edge && at + 1 == len
    }

    /// How the child of a branch at `at` stands, and the spare node that a split of this one needs where both are full.
    /// Only then it takes memory.
    fn room_for_split(
        &self,
        at: usize,
        standing: Standing,
    ) -> (Standing, Option<Box<Node<K, V, A>, A>>)
    where
        A: Clone,
        requires branch { self.now.is_branch ≡ true }
        requires in_range { at < length self.now.parts }
        ensures edge { result.0.at_edge ≡ edge_at standing.at_edge self.now.fills at }
        ensures may { result.0.may_split ≡ true → standing.may_split ≡ true }
        ensures room { (child : Fill) → result.0.may_split ≡ true → CAPACITY ≤ (slice_index_or self.now.fills at child).entries → length self.now.parts ≡ CAPACITY → IsSome result.1 }
        ensures taken { (child : Fill) → IsSome result.1 → (standing.may_split ≡ true) × (length self.now.parts ≡ CAPACITY) × (CAPACITY ≤ (slice_index_or self.now.fills at child).entries) }
        ensures empty { IfSome result.1 (λ b. b.value ≡ empty_node true) }
    {
        let child = Standing {
            at_edge: self.is_child_at_edge(at, standing.at_edge),
            may_split: standing.may_split,
        };
        if !standing.may_split || self.len() < CAPACITY || self.child(at).len() < CAPACITY {
            return (child, None);
        }
        let spare = self.spare(true);
        let may_split = spare.is_some();
        (Standing { may_split, ..child }, spare)
    }

    /// Puts a row into a leaf as the entry at `at`, where its key isn't there. A full leaf is split where it may be,
    /// and its second part is given.
    fn add_row(
        &mut self,
        at: usize,
        key: K,
        value: V,
        standing: Standing,
    ) -> (Result<Option<V>, AllocError>, Option<Box<Node<K, V, A>, A>>)
    where
        K: Ord,
        A: Clone,
        requires leaf { self.old.is_branch ≡ false }
        requires some { 0 < length self.old.parts }
        requires gap { IsGap K.cmp key self.old.parts at }
        ensures rows { IsInsert K.cmp key value (rows self.old) result.0 (rows self.new ++ rows_behind result.1) }
        ensures kept { OnErr result.0 ((self.new ≡ self.old) × (result.1 ≡ None)) }
        ensures may { IsSome result.1 → standing.may_split ≡ true }
        ensures parted { IsParted self.old self.new result.1 }
        ensures filled { IsFilled standing.at_edge (fill_of self.old) → IsFilledWith standing.at_edge self.new result.1 }
    {
        if self.len() < CAPACITY {
            self.insert_row(at, key, value);
            return (Ok(None), None);
        }
        if !standing.may_split {
            return (Err(AllocError), None);
        }
        match self.spare(false) {
            None => (Err(AllocError), None),
            Some(right) => (
                Ok(None),
                Some(self.split_with_row(right, at, key, value, standing.at_edge)),
            ),
        }
    }

    /// Puts a row into a leaf, over the one of its key if that is there.
    fn insert_into_leaf(
        &mut self,
        key: K,
        value: V,
        standing: Standing,
    ) -> (Result<Option<V>, AllocError>, Option<Box<Node<K, V, A>, A>>)
    where
        K: Ord,
        A: Clone,
        requires leaf { self.old.is_branch ≡ false }
        requires rising { IsRising K.cmp (rows self.old) }
        requires some { 0 < length self.old.parts }
        ensures rows { IsInsert K.cmp key value (rows self.old) result.0 (rows self.new ++ rows_behind result.1) }
        ensures kept { OnErr result.0 ((self.new ≡ self.old) × (result.1 ≡ None)) }
        ensures may { IsSome result.1 → standing.may_split ≡ true }
        ensures parted { IsParted self.old self.new result.1 }
        ensures filled { IsFilled standing.at_edge (fill_of self.old) → IsFilledWith standing.at_edge self.new result.1 }
    {
        match self.find_row(&key) {
            Ok(at) => (Ok(Some(self.replace_row(at, key, value))), None),
            Err(at) => self.add_row(at, key, value, standing),
        }
    }

    /// Puts the row of `key` below this node, over the one that is there.
    ///
    /// It gives the value that was there, and the second part where the node was split, which is only where it was full.
    /// It takes memory for new nodes alone, before anything changes; an `Err` leaves every node as it was.
    pub(crate) fn insert(
        &mut self,
        key: K,
        value: V,
        standing: Standing,
    ) -> (Result<Option<V>, AllocError>, Option<Box<Node<K, V, A>, A>>)
    where
        K: Ord,
        A: Clone,
        requires rising { IsRising K.cmp (rows self.old) }
        requires some { 0 < length self.old.parts }
        ensures rows { IsInsert K.cmp key value (rows self.old) result.0 (rows self.new ++ rows_behind result.1) }
        ensures kept { OnErr result.0 ((self.new ≡ self.old) × (result.1 ≡ None)) }
        ensures may { IsSome result.1 → standing.may_split ≡ true }
        ensures parted { IsParted self.old self.new result.1 }
        ensures filled { IsFilled standing.at_edge (fill_of self.old) → IsFilledWith standing.at_edge self.new result.1 }
    {
        if !self.is_branch() {
            return self.insert_into_leaf(key, value, standing);
        }
        let at = self.find_child(&key);
        let (child_standing, spare) = self.room_for_split(at, standing);
        let child: &mut Node<K, V, A> = &mut self.children[at];
        let (done, split) = child.insert(key, value, child_standing);
        self.keys[at] = child.first();
        (done, self.settle(at, split, spare, standing.at_edge))
    }
}
