//! Removals from a node.
ghost use Rattle.std.specs.Prelude.{◌≡◌, ◌+◌, ◌<◌, ◌≤◌, [], ◌++◌, length, suc, Bool, true, false};
ghost use Rattle.tf_btree.specs.Shape.{AllFilled, IsFilled, one_more, one_more_at};
ghost use Rattle.tf_btree.specs.Subtree.{Subtree, rows, fill_of};
ghost use Rattle.tf_sorted.specs.Rows.{IsRising, value_at, without_row};
ghost use Rattle.tf_btree.specs.Inserted.{KeepsLevel};
ghost use Rattle.tf_btree.specs.Pair.{IsPairIn};

use super::{CAPACITY, HALF, Node};
use std::alloc::Allocator;

impl<K: Copy, V: Copy, A: Allocator> Node<K, V, A> {
    /// Moves the first entry of `second` behind those of this node.
    fn take_first(&mut self, second: &mut Node<K, V, A>)
        requires kind { second.old.is_branch ≡ self.old.is_branch }
        requires level { second.old.height ≡ self.old.height }
        requires some { 0 < length self.old.parts }
        requires more { 1 < length second.old.parts }
        requires room { length self.old.parts < CAPACITY }
        ensures all { rows self.new ++ rows second.new ≡ rows self.old ++ rows second.old }
        ensures level { KeepsLevel self.old self.new }
        ensures second_level { KeepsLevel second.old second.new }
        ensures more { length self.new.parts ≡ length self.old.parts + 1 }
        ensures second_fewer { length second.new.parts + 1 ≡ length second.old.parts }
        ensures filled { (edge : Bool) → AllFilled false self.old.fills → AllFilled edge second.old.fills → AllFilled false self.new.fills × AllFilled edge second.new.fills }
    {
        let end = self.len();
        if self.is_branch() {
            let child = second.remove_child(0);
            self.insert_child(end, child);
        } else {
            let (key, value) = second.remove_row(0);
            self.insert_row(end, key, value);
        }
    }

    /// Moves the last entry of this node before those of `second`.
    fn give_last(&mut self, second: &mut Node<K, V, A>)
        requires kind { second.old.is_branch ≡ self.old.is_branch }
        requires level { second.old.height ≡ self.old.height }
        requires more { 1 < length self.old.parts }
        requires some { 0 < length second.old.parts }
        requires room { length second.old.parts < CAPACITY }
        ensures all { rows self.new ++ rows second.new ≡ rows self.old ++ rows second.old }
        ensures level { KeepsLevel self.old self.new }
        ensures second_level { KeepsLevel second.old second.new }
        ensures fewer { length self.new.parts + 1 ≡ length self.old.parts }
        ensures second_more { length second.new.parts ≡ length second.old.parts + 1 }
        ensures filled { (edge : Bool) → AllFilled false self.old.fills → AllFilled edge second.old.fills → AllFilled false self.new.fills × AllFilled edge second.new.fills }
    {
        let last = self.len() - 1;
        if self.is_branch() {
            let child = self.remove_child(last);
            second.insert_child(0, child);
        } else {
            let (key, value) = self.remove_row(last);
            second.insert_row(0, key, value);
        }
    }

    /// Moves an entry from the fuller one of two neighbours to the other, if one is fuller.
    fn even_out(&mut self, second: &mut Node<K, V, A>)
        requires kind { second.old.is_branch ≡ self.old.is_branch }
        requires level { second.old.height ≡ self.old.height }
        requires some { 0 < length self.old.parts }
        requires second_some { 0 < length second.old.parts }
        requires many { CAPACITY < length self.old.parts + length second.old.parts }
        ensures all { rows self.new ++ rows second.new ≡ rows self.old ++ rows second.old }
        ensures level { KeepsLevel self.old self.new }
        ensures second_level { KeepsLevel second.old second.new }
        ensures filled { (edge : Bool) → IsFilled false (one_more (fill_of self.old)) → IsFilled edge (one_more (fill_of second.old)) → IsFilled false (fill_of self.new) × IsFilled edge (fill_of second.new) }
    {
        let len = self.len();
        let second_len = second.len();
        if len < second_len {
            self.take_first(second);
        } else if second_len < len {
            self.give_last(second);
        }
    }

    /// Joins the child at `at` with a neighbour, or moves an entry over from it, where it is less than half full.
    fn mend(&mut self, at: usize)
        requires branch { self.old.is_branch ≡ true }
        ensures all { rows self.new ≡ rows self.old }
        ensures kind { self.new.is_branch ≡ true }
        ensures entries { 0 < length self.new.parts → 0 < length self.old.parts }
        ensures fewer { length self.old.parts ≤ length self.new.parts + 1 }
        ensures level { self.new.height ≡ self.old.height }
        ensures filled { (edge : Bool) → (edge ≡ false → 1 < length self.old.parts) → AllFilled edge (one_more_at at self.old.fills) → AllFilled edge self.new.fills }
    {
        let len = self.len();
        if at >= len || len < 2 || self.child(at).len() >= HALF {
            return;
        }
        let left = if at == 0 { 0 } else { at - 1 };
        self.mend_pair(left);
    }

    /// Takes the child at `left` and the one behind it out of a branch.
    fn take_pair(&mut self, left: usize) -> (Box<Node<K, V, A>, A>, Box<Node<K, V, A>, A>)
        requires branch { self.old.is_branch ≡ true }
        requires in_range { left + 1 < length self.old.parts }
        requires fits { length self.old.parts ≤ CAPACITY }
        ensures branch { self.new.is_branch ≡ true }
        ensures parts { IsPairIn self.old.parts left (rows result.0.value) (rows result.1.value) self.new.parts }
        ensures fills { IsPairIn self.old.fills left (fill_of result.0.value) (fill_of result.1.value) self.new.fills }
        ensures fewer { length self.new.parts + 2 ≡ length self.old.parts }
        ensures level { 0 < length self.new.parts → self.new.height ≡ self.old.height }
        ensures some { 0 < length result.0.value.parts }
        ensures second_some { 0 < length result.1.value.parts }
        ensures first_level { self.old.height ≡ suc result.0.value.height }
        ensures second_level { self.old.height ≡ suc result.1.value.height }
    {
        let second = self.remove_child(left + 1);
        let first = self.remove_child(left);
        (first, second)
    }

    /// Joins the children at `left` and behind it, or moves an entry from the fuller one to the other.
    fn mend_pair(&mut self, left: usize)
        requires branch { self.old.is_branch ≡ true }
        requires in_range { left + 1 < length self.old.parts }
        requires fits { length self.old.parts ≤ CAPACITY }
        ensures all { rows self.new ≡ rows self.old }
        ensures fewer { length self.old.parts ≤ length self.new.parts + 1 }
        ensures level { KeepsLevel self.old self.new }
        ensures filled { (edge : Bool) → AllFilled edge (one_more_at left (one_more_at (left + 1) self.old.fills)) → AllFilled edge self.new.fills }
    {
        let (mut first, mut second) = self.take_pair(left);
        if first.len() + second.len() <= CAPACITY {
            first.append(&mut second);
            self.insert_child(left, first);
        } else {
            first.even_out(&mut second);
            self.insert_child(left, second);
            self.insert_child(left, first);
        }
    }

    /// Removes the row of `key` below this node, if there is one, and gives its value. It takes no memory.
    ///
    /// It may leave this node one entry short of half full, which the parent mends.
    pub(crate) fn remove(&mut self, key: &K) -> Option<V>
    where
        K: Ord,
        requires rising { IsRising K.cmp (rows self.old) }
        requires some { 0 < length self.old.parts }
        ensures rows { rows self.new ≡ without_row K.cmp key.now (rows self.old) }
        ensures value { result ≡ value_at K.cmp key.now (rows self.old) }
        ensures kind { self.new.is_branch ≡ self.old.is_branch }
        ensures level { 0 < length self.new.parts → self.new.height ≡ self.old.height }
        ensures filled { (edge : Bool) → IsFilled edge (fill_of self.old) → IsFilled edge (one_more (fill_of self.new)) }
    {
        if !self.is_branch() {
            return match self.find_row(key) {
                Ok(at) => Some(self.remove_row(at).1),
                Err(_) => None,
            };
        }
        let at = self.find_child(key);
        let child: &mut Node<K, V, A> = &mut self.children[at];
        let removed = child.remove(key);
        if child.len() == 0 {
            let _ = self.keys.remove(at);
            let _ = self.children.remove(at);
        } else {
            let first = child.first();
            self.keys[at] = first;
        }
        self.mend(at);
        removed
    }
}
