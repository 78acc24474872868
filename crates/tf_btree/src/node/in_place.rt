//! Inserts that change one leaf alone.
ghost use Rattle.std.specs.Prelude.{◌≡◌, ◌<◌, ◌≤◌, [], ◌∷◌, Bool, length, false, IfSome, IfNone};
ghost use Rattle.tf_btree.specs.Shape.{IsFilled};
ghost use Rattle.tf_btree.specs.Subtree.{Subtree, rows, fill_of};
ghost use Rattle.tf_sorted.specs.Rows.{first_key, IsRising, value_at, with_row};
ghost use Rattle.tf_btree.specs.Inserted.{KeepsLevel};

use super::{CAPACITY, Node};
use std::alloc::Allocator;

impl<K: Copy + Ord, V: Copy, A: Allocator> Node<K, V, A> {
    /// Puts the row of `key` into a leaf where it isn't the first one and has room, or over the one of its key.
    ///
    /// It gives the value that was there, or `None` where it did nothing.
    fn insert_into_leaf_in_place(&mut self, key: &K, value: &V) -> Option<Option<V>>
        requires leaf { self.old.is_branch ≡ false }
        requires rising { IsRising K.cmp (rows self.old) }
        requires some { 0 < length self.old.parts }
        ensures all { IfSome result (λ _. rows self.new ≡ with_row K.cmp key.now value.now (rows self.old)) }
        ensures value { IfSome result (λ old. old ≡ value_at K.cmp key.now (rows self.old)) }
        ensures kept { IfNone result (self.new ≡ self.old) }
        ensures first { first_key (rows self.new) ≡ first_key (rows self.old) }
        ensures level { KeepsLevel self.old self.new }
        ensures entries { length self.old.parts ≤ length self.new.parts }
        ensures filled { (edge : Bool) → IsFilled edge (fill_of self.old) → IsFilled edge (fill_of self.new) }
    {
        // The proof needs the node's invariant, which is known where a field is used.
        let _ = &self.is_branch;
        match self.find_row(key) {
            Ok(at) => {
                if at == 0 {
                    return None;
                }
                Some(Some(self.replace_row(at, *key, *value)))
            }
            Err(at) => {
                if at == 0 || self.len() == CAPACITY {
                    return None;
                }
                self.insert_row(at, *key, *value);
                Some(None)
            }
        }
    }

    /// Puts the row of `key` below this node where it changes one leaf alone, and not the first row of that.
    ///
    /// It gives the value that was there, or `None` where it did nothing. It takes no memory, and a number of steps that
    /// grows with the logarithm of the rows.
    pub(crate) fn insert_in_place(&mut self, key: &K, value: &V) -> Option<Option<V>>
        requires rising { IsRising K.cmp (rows self.old) }
        requires some { 0 < length self.old.parts }
        ensures all { IfSome result (λ _. rows self.new ≡ with_row K.cmp key.now value.now (rows self.old)) }
        ensures value { IfSome result (λ old. old ≡ value_at K.cmp key.now (rows self.old)) }
        ensures kept { IfNone result (self.new ≡ self.old) }
        ensures first { first_key (rows self.new) ≡ first_key (rows self.old) }
        ensures level { KeepsLevel self.old self.new }
        ensures entries { length self.old.parts ≤ length self.new.parts }
        ensures filled { (edge : Bool) → IsFilled edge (fill_of self.old) → IsFilled edge (fill_of self.new) }
    {
        if !self.is_branch() {
            return self.insert_into_leaf_in_place(key, value);
        }
        let at = self.find_child(key);
        let child: &mut Node<K, V, A> = &mut self.children[at];
        let replaced = child.insert_in_place(key, value);
        // The proof needs the child's invariant, which is known where a field is used.
        let _ = &child.is_branch;
        replaced
    }
}
