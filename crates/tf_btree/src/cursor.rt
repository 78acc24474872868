//! Cursors over the rows of a tree.
ghost use Rattle.std.specs.Prelude.{◌≡◌, ◌<◌, ◌++◌, [], length, IfNone, IfSome};
ghost use Rattle.std.specs.Iterator.{YieldsFirstBy, item_count};
ghost use Rattle.tf_btree.specs.Node.{unboxed};
ghost use Rattle.tf_sorted.specs.Rows.{IsRising, rows_from};
ghost use Rattle.tf_btree.specs.Run.{AllLeaves, rows_of, rows_after};
ghost use Rattle.tf_btree.specs.Cursor.{rows_at, IsKeyOf, IsNextRun};

use crate::node::Node;
use crate::run::Run;
use std::alloc::Allocator;
use std::marker::Model;

/// The rows that are left of a tree, in key order, by reference.
///
/// A contract sees a cursor as the list of these rows. A step takes constant time within a leaf and to the next leaf
/// of a branch; from the last leaf of a branch it takes a number of steps that grows with the logarithm of the rows.
#[derive(Drop)]
pub struct Cursor<'a, K: Copy + Ord, V: Copy, A: Allocator> {
    root: Option<&'a Node<K, V, A>>,
    run: Run<'a, K, V, A>,
    at: usize,
}

impl<'a, K: Copy + Ord, V: Copy, A: Allocator> Model for Cursor<'a, K, V, A> {
    ghost use Rattle.std.specs.Prelude.{List};

    ghost Value = { List (K × V) };

    ghost use Rattle.tf_btree.specs.Node.{unboxed};
    ghost use Rattle.tf_btree.specs.Cursor.{rows_left, IsCursor};

    ghost view = { λ c. rows_left K.cmp c.root c.run.keys.now c.run.values.now c.at (unboxed c.run.leaves.now) c.run.further };

    ghost invariant = { λ c. IsCursor K.cmp c.root c.run.keys.now c.run.values.now c.at (unboxed c.run.leaves.now) c.run.further };
}

/// The run of rows that begins with the key `next`, if there is one.
///
/// It takes a number of steps that grows with the logarithm of the rows.
fn run_at<'a, K: Copy + Ord, V: Copy, A: Allocator>(
    root: Option<&'a Node<K, V, A>>,
    next: Option<K>,
) -> Option<Run<'a, K, V, A>>
    requires rising { IsRising K.cmp (rows_at root) }
    requires member { IsKeyOf K.cmp (rows_at root) next }
    ensures none { IfNone result (rows_after K.cmp next (rows_at root.entry) ≡ []) }
    ensures some { IfSome result
        (λ r. IsNextRun K.cmp (rows_at root.entry) [] next r.keys.now r.values.now (unboxed r.leaves.now) r.further) }
{
    match next {
        None => None,
        Some(key) => match root {
            None => None,
            Some(root) => Some(root.run_from(&key)),
        },
    }
}

/// The next run of rows: that of the first of `leaves`, in constant time, or else the one that begins with the key `next`.
///
/// It isn't part of the cursor's own `next`, so that a step within a leaf stays short.
#[inline(never)]
fn next_run<'a, K: Copy + Ord, V: Copy, A: Allocator>(
    root: Option<&'a Node<K, V, A>>,
    leaves: &'a [Box<Node<K, V, A>, A>],
    next: Option<K>,
) -> Option<Run<'a, K, V, A>>
    requires rising { IsRising K.cmp (rows_at root) }
    requires filled { AllLeaves (unboxed leaves.now) }
    requires member { IsKeyOf K.cmp (rows_at root) next }
    ensures none { IfNone result
        (rows_of (unboxed leaves.now) ++ rows_after K.cmp next (rows_at root.entry) ≡ []) }
    ensures some { IfSome result
        (λ r. IsNextRun K.cmp (rows_at root.entry) (unboxed leaves.now) next r.keys.now r.values.now (unboxed r.leaves.now) r.further) }
{
    match leaves.split_first() {
        None => run_at(root, next),
        Some((leaf, behind)) => {
            let (keys, values) = leaf.leaf_rows();
            Some(Run {
                keys,
                values,
                leaves: behind,
                further: next,
            })
        }
    }
}

impl<'a, K: Copy + Ord, V: Copy, A: Allocator> Cursor<'a, K, V, A> {
    /// Every row below `root`.
    pub(crate) fn all(root: Option<&'a Node<K, V, A>>) -> Self
        requires rising { IsRising K.cmp (rows_at root) }
        requires some { IfSome root (λ r. 0 < length r.now.parts) }
        ensures { result ≡ rows_at root.entry }
    {
        match root {
            None => Cursor {
                root: None,
                run: Run::none(),
                at: 0,
            },
            Some(top) => {
                let first = top.first();
                Cursor::from_key(root, &first)
            }
        }
    }

    /// The rows below `root` whose keys aren't below `key`.
    pub(crate) fn from_key(root: Option<&'a Node<K, V, A>>, key: &K) -> Self
        requires rising { IsRising K.cmp (rows_at root) }
        requires some { IfSome root (λ r. 0 < length r.now.parts) }
        ensures { result ≡ rows_from K.cmp key.now (rows_at root.entry) }
    {
        match root {
            None => Cursor {
                root: None,
                run: Run::none(),
                at: 0,
            },
            Some(top) => {
                let run = top.run_from(key);
                Cursor { root, run, at: 0 }
            }
        }
    }
}

impl<'a, K: Copy + Ord, V: Copy, A: Allocator> Iterator for Cursor<'a, K, V, A> {
    type Item = (&'a K, &'a V);

    ghost next_gives = { YieldsFirstBy (λ p. (p.0.now, p.1.now)) (λ s. s) };

    ghost remaining = { item_count (λ s. s) };

    fn size_hint(&self) -> (usize, Option<usize>) {
        (0, None)
    }

    #[inline]
    fn next(&mut self) -> Option<(&'a K, &'a V)> {
        if self.at == self.run.keys.len() {
            self.run = next_run(self.root, self.run.leaves, self.run.further)?;
            self.at = 0;
        }
        let at = self.at;
        self.at = at + 1;
        Some((&self.run.keys[at], &self.run.values[at]))
    }
}
