//! Edits of one node, seen as the list of its entries.
ghost use Rattle.std.specs.Prelude.{◌≡◌, ◌+◌, ◌-◌, ◌<◌, ◌≤◌, ◌==◌, [], ◌∷◌, ◌++◌, true, false, suc, length, insert, remove, take, drop, slice_index_or};
ghost use Rattle.tf_btree.specs.Subtree.{Subtree, IsChildAt, rows, fill_of};
ghost use Rattle.tf_btree.specs.Node.{empty_node};

use super::runs::{copy_tail, move_all, move_tail, put};
use super::{CAPACITY, Node};
use std::alloc::Allocator;

impl<K: Copy, V: Copy, A: Allocator> Node<K, V, A> {
    /// Puts a row into a leaf with room, as the entry at `at`.
    pub(super) fn insert_row(&mut self, at: usize, key: K, value: V)
        requires leaf { self.old.is_branch ≡ false }
        requires in_bounds { at ≤ length self.old.parts }
        requires room { length self.old.parts < CAPACITY }
        ensures { self.new ≡ record self.old { parts = insert self.old.parts at ((key, value) ∷ []) } }
    {
        put(&mut self.keys, at, key);
        put(&mut self.values, at, value);
    }

    /// Puts a child into a branch with room, as the entry at `at`.
    pub(super) fn insert_child(&mut self, at: usize, child: Box<Node<K, V, A>, A>)
        requires branch { self.old.is_branch ≡ true }
        requires in_bounds { at ≤ length self.old.parts }
        requires room { length self.old.parts < CAPACITY }
        requires some { 0 < length child.value.parts }
        requires level { 0 < length self.old.parts → self.old.height ≡ suc child.value.height }
        ensures { self.new ≡ record { is_branch = true; height = suc child.value.height; parts = insert self.old.parts at (rows child.value); fills = insert self.old.fills at (fill_of child.value) } }
    {
        let first = child.first();
        put(&mut self.keys, at, first);
        put(&mut self.children, at, child);
    }

    /// The child of a branch at `at`.
    pub(super) fn child(&self, at: usize) -> &Node<K, V, A>
        requires branch { self.now.is_branch ≡ true }
        requires in_range { at < length self.now.parts }
        ensures { IsChildAt self.now at result.now }
    {
        &self.children[at]
    }

    /// Takes the row of the entry at `at` out of a leaf.
    pub(super) fn remove_row(&mut self, at: usize) -> (K, V)
        requires leaf { self.old.is_branch ≡ false }
        requires in_bounds { at < length self.old.parts }
        ensures value { slice_index_or self.old.parts at [] ≡ result ∷ [] }
        ensures rest { self.new ≡ record self.old { parts = remove self.old.parts at } }
    {
        let key = self.keys.remove(at);
        let value = self.values.remove(at);
        (key, value)
    }

    /// Takes the child at `at` out of a branch.
    pub(super) fn remove_child(&mut self, at: usize) -> Box<Node<K, V, A>, A>
        requires branch { self.old.is_branch ≡ true }
        requires in_bounds { at < length self.old.parts }
        ensures taken { IsChildAt self.old at result.value }
        ensures branch { self.new.is_branch ≡ true }
        ensures rest { self.new.parts ≡ remove self.old.parts at }
        ensures rest_fills { self.new.fills ≡ remove self.old.fills at }
        ensures same_level { 0 < length self.new.parts → self.new.height ≡ self.old.height }
    {
        let _ = self.keys.remove(at);
        self.children.remove(at)
    }

    /// Moves the entries from `at` on, which isn't the first, to `right`, which is an empty node of the same kind.
    pub(super) fn split_off(&mut self, at: usize, right: &mut Node<K, V, A>)
        requires some { 0 < at }
        requires in_bounds { at ≤ length self.old.parts }
        requires empty { right.old ≡ empty_node self.old.is_branch }
        ensures left { self.new ≡ record self.old { parts = take at self.old.parts; fills = take at self.old.fills } }
        ensures right_kind { right.new.is_branch ≡ self.old.is_branch }
        ensures right { right.new.parts ≡ drop at self.old.parts }
        ensures right_fills { right.new.fills ≡ drop at self.old.fills }
        ensures right_level { at < length self.old.parts → right.new.height ≡ self.old.height }
        ensures right_leaf_level { self.old.is_branch ≡ false → right.new.height ≡ 0 }
        ensures leaf_level { self.old.is_branch ≡ false → self.old.height ≡ 0 }
        ensures leaf_fills { self.old.is_branch ≡ false → self.old.fills ≡ [] }
        ensures branch_fills { self.old.is_branch ≡ true → length self.old.fills ≡ length self.old.parts }
    {
        copy_tail(&mut self.keys, at, &mut right.keys);
        if self.is_branch {
            move_tail(&mut self.children, at, &mut right.children);
        } else {
            copy_tail(&mut self.values, at, &mut right.values);
        }
    }

    /// Moves the entries of `right` to the end, where there is room for them.
    pub(super) fn append(&mut self, right: &mut Node<K, V, A>)
        requires kind { right.old.is_branch ≡ self.old.is_branch }
        requires room { length self.old.parts + length right.old.parts ≤ CAPACITY }
        requires level { self.old.height ≡ right.old.height }
        requires some { 0 < length self.old.parts }
        requires right_some { 0 < length right.old.parts }
        ensures all { self.new ≡ record self.old { parts = self.old.parts ++ right.old.parts; fills = self.old.fills ++ right.old.fills } }
    {
        move_all(&mut right.keys, &mut self.keys);
        if self.is_branch {
            move_all(&mut right.children, &mut self.children);
        } else {
            move_all(&mut right.values, &mut self.values);
        }
    }
}
