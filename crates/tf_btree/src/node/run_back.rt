//! Runs of rows in one leaf, for cursors downwards.
ghost use Rattle.std.specs.Prelude.{◌≡◌, ◌<◌, ◌≤◌, ◌-◌, [], take, drop, length, true, false, None, slice_index_or};
ghost use Rattle.tf_btree.specs.Subtree.{Subtree, joined, rows};
ghost use Rattle.tf_btree.specs.Node.{unboxed};
ghost use Rattle.tf_sorted.specs.Rows.{IsRising};
ghost use Rattle.tf_btree.specs.Run.{AllLeaves, rows_of};
ghost use Rattle.tf_btree.specs.RunBack.{is_within, IsCut, IsRunTo, IsLastWithin};

use super::Node;
use crate::run::Run;
use crate::search::{count_below, count_upto};
use std::alloc::Allocator;
use std::ops::Bound;

/// How many keys lie within `end`, in a run that rises. It goes down from the end of the run, a key at a time.
fn count_within<K: Copy + Ord>(keys: &[K], end: Bound<K>) -> usize
    ensures within { result ≤ length keys.now }
    ensures before { (d : K) → 0 < result → is_within K.cmp end (slice_index_or keys.now (result - 1) d) ≡ true }
    ensures after { (d : K) → result < length keys.now → is_within K.cmp end (slice_index_or keys.now result d) ≡ false }
{
    match end {
        Bound::Included(key) => count_upto(keys, &key),
        Bound::Excluded(key) => count_below(keys, &key),
        Bound::Unbounded => keys.len(),
    }
}

impl<K: Copy + Ord, V: Copy, A: Allocator> Node<K, V, A> {
    /// The rows of a leaf within `end`.
    fn leaf_run_to(&self, end: Bound<K>) -> (&[K], &[V])
        requires leaf { self.now.is_branch ≡ false }
        requires rising { IsRising K.cmp (rows self.now) }
        ensures { IsRunTo K.cmp end (rows self.now) result.0.now result.1.now [] None }
    {
        let at = count_within(&self.keys, end);
        (&self.keys[..at], &self.values[..at])
    }

    /// The child of a branch that has the last row within `end`, if any has one.
    fn find_last_child(&self, end: Bound<K>) -> usize
        requires branch { self.now.is_branch ≡ true }
        requires rising { IsRising K.cmp (rows self.now) }
        requires some { 0 < length self.now.parts }
        ensures { IsLastWithin K.cmp end self.now.parts result }
    {
        count_within(&self.keys, end).saturating_sub(1)
    }

    /// The key of the entry at `at`, if there is an earlier one.
    fn cut_key(&self, at: usize) -> Option<K>
        requires { at < length self.now.parts }
        ensures { IsCut result (joined (take at self.now.parts)) (joined (drop at self.now.parts)) }
    {
        if at > 0 { Some(self.keys[at]) } else { None }
    }

    /// The leaves before that at `at` of a branch over leaves.
    fn leaves_before(&self, at: usize) -> &[Box<Node<K, V, A>, A>]
        requires branch { self.now.is_branch ≡ true }
        requires level { self.now.height ≡ 1 }
        requires in_range { at < length self.now.parts }
        ensures all { rows_of (unboxed result.now) ≡ joined (take at self.now.parts) }
        ensures filled { AllLeaves (unboxed result.now) }
    {
        &self.children[..at]
    }

    /// The last run of rows within `end`, the leaves before it below the same branch, and the first key of that branch,
    /// if there are rows before it.
    ///
    /// It takes a number of steps that grows with the logarithm of the rows.
    pub(crate) fn run_to(&self, end: Bound<K>) -> Run<'_, K, V, A>
        requires rising { IsRising K.cmp (rows self.now) }
        requires some { 0 < length self.now.parts }
        ensures { IsRunTo K.cmp end (rows self.now) result.keys.now result.values.now (unboxed result.leaves.now) result.further }
    {
        if self.is_leaf() {
            let (keys, values) = self.leaf_run_to(end);
            return Run {
                keys,
                values,
                leaves: &[],
                further: None,
            };
        }
        let at = self.find_last_child(end);
        let child = self.child(at);
        if child.is_leaf() {
            let (keys, values) = child.leaf_run_to(end);
            return Run {
                keys,
                values,
                leaves: self.leaves_before(at),
                further: None,
            };
        }
        let own = self.cut_key(at);
        let run = child.run_to(end);
        Run {
            further: run.further.or(own),
            ..run
        }
    }
}
