//! Cursors over the rows of a tree, downwards.
ghost use Rattle.std.specs.Prelude.{◌≡◌, ◌<◌, ◌++◌, [], length, reverse, IfNone, IfSome};
ghost use Rattle.std.specs.Iterator.{YieldsFirstBy, item_count};
ghost use Rattle.tf_btree.specs.Node.{unboxed};
ghost use Rattle.tf_sorted.specs.Rows.{IsRising};
ghost use Rattle.tf_btree.specs.Run.{AllLeaves, rows_of};
ghost use Rattle.tf_btree.specs.Cursor.{rows_at};
ghost use Rattle.tf_btree.specs.RunBack.{rows_to, rows_before, HasBefore, IsRunBefore};

use crate::node::Node;
use crate::run::Run;
use std::alloc::Allocator;
use std::marker::Model;
use std::ops::Bound;

/// The rows that are left of a tree, from the greatest key down, by reference.
///
/// A contract sees such a cursor as the list of these rows, in the order in which they come. A step takes constant
/// time within a leaf and to the leaf before in its branch; from the first leaf of a branch it takes a number of steps
/// that grows with the logarithm of the rows.
#[derive(Drop)]
pub struct BackCursor<'a, K: Copy + Ord, V: Copy, A: Allocator> {
    root: Option<&'a Node<K, V, A>>,
    run: Run<'a, K, V, A>,
    at: usize,
}

impl<'a, K: Copy + Ord, V: Copy, A: Allocator> Model for BackCursor<'a, K, V, A> {
    ghost use Rattle.std.specs.Prelude.{List};

    ghost Value = { List (K × V) };

    ghost use Rattle.tf_btree.specs.Node.{unboxed};
    ghost use Rattle.tf_btree.specs.BackCursor.{rows_left_back, IsBackCursor};

    ghost view = { λ c. rows_left_back K.cmp c.root c.run.keys.now c.run.values.now c.at (unboxed c.run.leaves.now) c.run.further };

    ghost invariant = { λ c. IsBackCursor K.cmp c.root c.run.keys.now c.run.values.now c.at (unboxed c.run.leaves.now) c.run.further };
}

/// The last run of rows before the key `before`, if there is one.
///
/// It takes a number of steps that grows with the logarithm of the rows.
fn run_up_to<'a, K: Copy + Ord, V: Copy, A: Allocator>(
    root: Option<&'a Node<K, V, A>>,
    before: Option<K>,
) -> Option<Run<'a, K, V, A>>
    requires rising { IsRising K.cmp (rows_at root) }
    requires more { HasBefore K.cmp before (rows_at root) }
    ensures none { IfNone result (rows_before K.cmp before (rows_at root.entry) ≡ []) }
    ensures some { IfSome result
        (λ r. IsRunBefore K.cmp (rows_at root.entry) [] before r.keys.now r.values.now (unboxed r.leaves.now) r.further) }
{
    match before {
        None => None,
        Some(key) => match root {
            None => None,
            Some(root) => Some(root.run_to(Bound::Excluded(key))),
        },
    }
}

/// The run of rows before: that of the last of `leaves`, in constant time, or else the last one before the key `before`.
///
/// It isn't part of the cursor's `next`, so that a step within a leaf stays short.
#[inline(never)]
fn run_before<'a, K: Copy + Ord, V: Copy, A: Allocator>(
    root: Option<&'a Node<K, V, A>>,
    leaves: &'a [Box<Node<K, V, A>, A>],
    before: Option<K>,
) -> Option<Run<'a, K, V, A>>
    requires rising { IsRising K.cmp (rows_at root) }
    requires filled { AllLeaves (unboxed leaves.now) }
    requires more { HasBefore K.cmp before (rows_at root) }
    ensures none { IfNone result
        (rows_before K.cmp before (rows_at root.entry) ++ rows_of (unboxed leaves.now) ≡ []) }
    ensures some { IfSome result
        (λ r. IsRunBefore K.cmp (rows_at root.entry) (unboxed leaves.now) before r.keys.now r.values.now (unboxed r.leaves.now) r.further) }
{
    match leaves.split_last() {
        None => run_up_to(root, before),
        Some((leaf, earlier)) => {
            let (keys, values) = leaf.leaf_rows();
            Some(Run {
                keys,
                values,
                leaves: earlier,
                further: before,
            })
        }
    }
}

impl<'a, K: Copy + Ord, V: Copy, A: Allocator> BackCursor<'a, K, V, A> {
    /// The rows below `root` within `end`.
    pub(crate) fn from_end(root: Option<&'a Node<K, V, A>>, end: Bound<K>) -> Self
        requires rising { IsRising K.cmp (rows_at root) }
        requires some { IfSome root (λ r. 0 < length r.now.parts) }
        ensures { result ≡ reverse (rows_to K.cmp end (rows_at root.entry)) }
    {
        match root {
            None => BackCursor {
                root: None,
                run: Run::none(),
                at: 0,
            },
            Some(top) => {
                let run = top.run_to(end);
                let at = run.keys.len();
                BackCursor { root, run, at }
            }
        }
    }
}

impl<'a, K: Copy + Ord, V: Copy, A: Allocator> Iterator for BackCursor<'a, K, V, A> {
    type Item = (&'a K, &'a V);

    ghost next_gives = { YieldsFirstBy (λ p. (p.0.now, p.1.now)) (λ s. s) };

    ghost remaining = { item_count (λ s. s) };

    fn size_hint(&self) -> (usize, Option<usize>) {
        (0, None)
    }

    #[inline]
    fn next(&mut self) -> Option<(&'a K, &'a V)> {
        if self.at == 0 {
            self.run = run_before(self.root, self.run.leaves, self.run.further)?;
            self.at = self.run.keys.len();
        }
        let at = self.at - 1;
        self.at = at;
        Some((&self.run.keys[at], &self.run.values[at]))
    }
}
