//! Where a key lies among the entries of a node.
ghost use Rattle.std.specs.Prelude.{◌≡◌, ◌<◌, length, true, false, IfOk, IfErr, IfSome};
ghost use Rattle.std.specs.Option.{option_copied};
ghost use Rattle.tf_btree.specs.Subtree.{Subtree, rows};
ghost use Rattle.tf_sorted.specs.Rows.{IsRising, value_at};
ghost use Rattle.tf_btree.specs.Place.{IsAt, IsGap, IsBelow};

use super::Node;
use crate::search::{count_below, count_upto};
use std::alloc::Allocator;

impl<K: Copy + Ord, V: Copy, A: Allocator> Node<K, V, A> {
    /// The entry of a leaf with this key, or else the place where it would go.
    pub(super) fn find_row(&self, key: &K) -> Result<usize, usize>
        requires leaf { self.now.is_branch ≡ false }
        requires rising { IsRising K.cmp (rows self.now) }
        ensures found { IfOk result (IsAt K.cmp key.now self.now.parts) }
        ensures absent { IfErr result (IsGap K.cmp key.now self.now.parts) }
    {
        let at = count_below(&self.keys, key);
        if at < self.keys.len() && self.keys[at].cmp(key).is_eq() {
            Ok(at)
        } else {
            Err(at)
        }
    }

    /// The child of a branch that has the row of this key, if any has.
    pub(super) fn find_child(&self, key: &K) -> usize
        requires branch { self.now.is_branch ≡ true }
        requires rising { IsRising K.cmp (rows self.now) }
        requires some { 0 < length self.now.parts }
        ensures { IsBelow K.cmp key.now self.now.parts result }
    {
        count_upto(&self.keys, key).saturating_sub(1)
    }

    /// The value of this key, in a number of steps that grows with the logarithm of the rows.
    pub(crate) fn get(&self, key: &K) -> Option<&V>
        requires rising { IsRising K.cmp (rows self.now) }
        requires some { 0 < length self.now.parts }
        ensures { option_copied result ≡ value_at K.cmp key.now (rows self.now) }
    {
        if self.is_branch {
            let at = self.find_child(key);
            self.child(at).get(key)
        } else {
            match self.find_row(key) {
                Ok(at) => Some(&self.values[at]),
                Err(_) => None,
            }
        }
    }
}
