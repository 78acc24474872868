//! Runs of rows in one leaf, for cursors.
ghost use Rattle.std.specs.Prelude.{◌≡◌, ◌<◌, ◌+◌, [], drop, length, not, true, false, None, IsSome};
ghost use Rattle.tf_btree.specs.Subtree.{Subtree, joined, rows};
ghost use Rattle.tf_btree.specs.Node.{unboxed};
ghost use Rattle.tf_sorted.specs.Rows.{first_key, IsRising, value_at};
ghost use Rattle.tf_btree.specs.Run.{IsRunFrom, AllLeaves, pairs, rows_of};

use super::Node;
use crate::run::Run;
use crate::search::count_below;
use std::alloc::Allocator;

impl<K: Copy + Ord, V: Copy, A: Allocator> Node<K, V, A> {
    /// Whether the entries are rows.
    pub(super) fn is_leaf(&self) -> bool
        ensures kind { self.now.is_branch ≡ not result }
        ensures level { result ≡ true → self.now.height ≡ 0 }
    {
        !self.is_branch
    }

    /// The rows of a leaf, in constant time.
    pub(crate) fn leaf_rows(&self) -> (&[K], &[V])
        requires level { self.now.height ≡ 0 }
        ensures same { length result.0.now ≡ length result.1.now }
        ensures all { pairs result.0.now result.1.now ≡ rows self.now }
        ensures len { length result.0.now ≡ length self.now.parts }
    {
        (&self.keys, &self.values)
    }

    /// The rows of a leaf whose keys aren't below `key`.
    fn leaf_run(&self, key: &K) -> (&[K], &[V])
        requires leaf { self.now.is_branch ≡ false }
        requires rising { IsRising K.cmp (rows self.now) }
        ensures all { IsRunFrom K.cmp key.now (rows self.now) result.0.now result.1.now [] None }
        ensures found { IsSome (value_at K.cmp key.now (rows self.now)) → 0 < length result.0.now }
    {
        let at = count_below(&self.keys, key);
        (&self.keys[at..], &self.values[at..])
    }

    /// The key behind the entry at `at` of a branch, if there is a further one.
    fn key_behind(&self, at: usize) -> Option<K>
        requires { at < length self.now.parts }
        ensures { first_key (joined (drop (at + 1) self.now.parts)) ≡ result }
    {
        let len = self.len();
        if at + 1 < len {
            Some(self.keys[at + 1])
        } else {
            None
        }
    }

    /// The leaves behind that at `at` of a branch over leaves.
    fn leaves_behind(&self, at: usize) -> &[Box<Node<K, V, A>, A>]
        requires branch { self.now.is_branch ≡ true }
        requires level { self.now.height ≡ 1 }
        requires in_range { at < length self.now.parts }
        ensures all { rows_of (unboxed result.now) ≡ joined (drop (at + 1) self.now.parts) }
        ensures filled { AllLeaves (unboxed result.now) }
    {
        &self.children[at + 1..]
    }

    /// The first run of rows whose keys aren't below `key`, the leaves behind it below the same branch, and the key of
    /// the row behind these, if there is one.
    ///
    /// It takes a number of steps that grows with the logarithm of the rows.
    pub(crate) fn run_from(&self, key: &K) -> Run<'_, K, V, A>
        requires rising { IsRising K.cmp (rows self.now) }
        requires some { 0 < length self.now.parts }
        ensures all { IsRunFrom K.cmp key.now (rows self.now) result.keys.now result.values.now (unboxed result.leaves.now) result.further }
        ensures found { IsSome (value_at K.cmp key.now (rows self.now)) → 0 < length result.keys.now }
    {
        if self.is_leaf() {
            let (keys, values) = self.leaf_run(key);
            return Run {
                keys,
                values,
                leaves: &[],
                further: None,
            };
        }
        let at = self.find_child(key);
        let child = self.child(at);
        if child.is_leaf() {
            let (keys, values) = child.leaf_run(key);
            return Run {
                keys,
                values,
                leaves: self.leaves_behind(at),
                further: None,
            };
        }
        let behind = self.key_behind(at);
        let run = child.run_from(key);
        Run {
            further: run.further.or(behind),
            ..run
        }
    }
}
