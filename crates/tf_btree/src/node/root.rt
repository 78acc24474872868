//! Edits of a whole tree at its root.
ghost use Rattle.std.specs.Prelude.{◌≡◌, ◌+◌, ◌^◌, ◌<◌, ◌≤◌, [], ◌∷◌, ◌++◌, length, suc, None, true, false, IfSome, IsSome, OnErr};
ghost use Rattle.tf_btree.specs.Shape.{IsFilled};
ghost use Rattle.tf_btree.specs.Subtree.{Subtree, rows, fill_of};
ghost use Rattle.tf_sorted.specs.Rows.{IsRising, value_at, without_row};
ghost use Rattle.tf_btree.specs.Node.{empty_node};
ghost use Rattle.tf_btree.specs.Inserted.{IsInsert};
ghost use Rattle.tf_btree.specs.Tree.{rows_under, IsRoot, IsRootIfAny, IsTall};

use super::insert::Standing;
use super::{CAPACITY, Node};
use std::alloc::{AllocError, Allocator};
use std::mem;

impl<K: Copy, V: Copy, A: Allocator> Node<K, V, A> {
    /// A leaf with one row, or `None` for want of memory.
    pub(crate) fn with_row(alloc: &A, key: K, value: V) -> Option<Box<Node<K, V, A>, A>>
    where
        A: Clone,
        ensures all { IfSome result (λ b. rows b.value ≡ (key, value) ∷ []) }
        ensures root { IfSome result (λ b. IsRoot b.value) }
    {
        let mut leaf = Node::new_leaf(alloc.clone().ok()?).ok()?;
        leaf.insert_row(0, key, value);
        Box::new(alloc.clone().ok()?, leaf).ok()
    }

    /// The number of levels of nodes below this one, in as many steps.
    fn levels_below(&self) -> usize
        requires some { 0 < length self.now.parts }
        requires fits { self.now.height < 2 ^ 64 }
        ensures { result ≡ self.now.height }
    {
        if self.is_branch {
            self.child(0).levels_below() + 1
        } else {
            0
        }
    }

    /// The number of levels of nodes from this root down, in as many steps.
    pub(crate) fn levels(&self) -> usize
        requires root { IsRoot self.now }
        requires fits { length (rows self.now) < 2 ^ 64 }
        ensures value { result ≡ suc self.now.height }
        ensures least { IsTall self.now }
        ensures most { length (rows self.now) ≤ CAPACITY ^ suc self.now.height }
    {
        // The proof needs the node's invariant, which is known where a field is used.
        let _ = &self.is_branch;
        self.levels_below() + 1
    }

    /// Whether this root may be split, and the branch that goes over it then. It takes memory only where the root is full.
    fn room_for_level(&self) -> (bool, Option<Box<Node<K, V, A>, A>>)
    where
        A: Clone,
        ensures room { result.0 ≡ true → CAPACITY ≤ length self.now.parts → IsSome result.1 }
        ensures taken { IsSome result.1 → CAPACITY ≤ length self.now.parts }
        ensures empty { IfSome result.1 (λ b. b.value ≡ empty_node true) }
    {
        if self.len() < CAPACITY {
            return (true, None);
        }
        let top = self.spare(true);
        (top.is_some(), top)
    }
}

/// Puts `top`, an empty branch, over `root` and the second part that was split off it.
fn raise<K: Copy, V: Copy, A: Allocator>(
    root: &mut Box<Node<K, V, A>, A>,
    right: Box<Node<K, V, A>, A>,
    mut top: Box<Node<K, V, A>, A>,
)
    requires empty { top.value ≡ empty_node true }
    requires some { 0 < length root.old.value.parts }
    requires right_some { 0 < length right.value.parts }
    requires level { right.value.height ≡ root.old.value.height }
    requires filled { IsFilled false (fill_of root.old.value) }
    requires right_filled { IsFilled true (fill_of right.value) }
    ensures all { rows root.new.value ≡ rows root.old.value ++ rows right.value }
    ensures root { IsRoot root.new.value }
{
    mem::swap(root, &mut top);
    root.insert_child(0, top);
    root.insert_child(1, right);
}

/// Puts a row below `root` where no node has to be split for it. Else an `Err` leaves every node as it was.
fn insert_without_split<K: Copy + Ord, V: Copy, A: Allocator + Clone>(
    root: &mut Box<Node<K, V, A>, A>,
    key: K,
    value: V,
) -> Result<Option<V>, AllocError>
    requires rising { IsRising K.cmp (rows root.old.value) }
    requires root { IsRoot root.old.value }
    ensures rows { IsInsert K.cmp key value (rows root.old.value) result (rows root.new.value) }
    ensures kept { OnErr result (root.new.value ≡ root.old.value) }
    ensures root { IsRoot root.new.value }
{
    let standing = Standing {
        at_edge: true,
        may_split: false,
    };
    let (done, split) = root.insert(key, value, standing);
    match split {
        None => done,
        Some(_) => unreachable!(),
    }
}

/// Puts a row below `root`, with new nodes where some are split. For want of memory an `Err` leaves every node as it was.
fn insert_with_split<K: Copy + Ord, V: Copy, A: Allocator + Clone>(
    root: &mut Box<Node<K, V, A>, A>,
    key: K,
    value: V,
) -> Result<Option<V>, AllocError>
    requires rising { IsRising K.cmp (rows root.old.value) }
    requires root { IsRoot root.old.value }
    ensures rows { IsInsert K.cmp key value (rows root.old.value) result (rows root.new.value) }
    ensures kept { OnErr result (root.new.value ≡ root.old.value) }
    ensures root { IsRoot root.new.value }
{
    let (may_split, top) = root.room_for_level();
    let standing = Standing {
        at_edge: true,
        may_split,
    };
    let (done, split) = root.insert(key, value, standing);
    match split {
        None => done,
        Some(right) => {
            raise(root, right, top.unwrap());
            done
        }
    }
}

/// Puts a row below `root`, over the one of its key. For want of memory an `Err` leaves every node as it was.
///
/// It takes memory only where a leaf has to be split, and then before anything changes.
pub(crate) fn insert_at_root<K: Copy + Ord, V: Copy, A: Allocator + Clone>(
    root: &mut Box<Node<K, V, A>, A>,
    key: K,
    value: V,
) -> Result<Option<V>, AllocError>
    requires rising { IsRising K.cmp (rows root.old.value) }
    requires root { IsRoot root.old.value }
    ensures rows { IsInsert K.cmp key value (rows root.old.value) result (rows root.new.value) }
    ensures kept { OnErr result (root.new.value ≡ root.old.value) }
    ensures root { IsRoot root.new.value }
{
    if let Some(old) = root.insert_in_place(&key, &value) {
        return Ok(old);
    }
    match insert_without_split(root, key, value) {
        Ok(old) => Ok(old),
        Err(_) => insert_with_split(root, key, value),
    }
}

/// Takes away a root with one child, so that the child is the root, until a leaf is or a branch with two children.
fn lower<K: Copy, V: Copy, A: Allocator>(root: &mut Box<Node<K, V, A>, A>)
    requires some { 0 < length root.old.value.parts }
    requires filled { IsFilled true (fill_of root.old.value) }
    ensures all { rows root.new.value ≡ rows root.old.value }
    ensures root { IsRoot root.new.value }
{
    if root.is_branch() && root.len() == 1 {
        let child = root.remove_child(0);
        *root = child;
        lower(root);
    }
}

/// Removes the row of `key` below `root`, if there is one, and gives its value. A root without rows is taken away.
pub(crate) fn remove_at_root<K: Copy + Ord, V: Copy, A: Allocator>(
    root: &mut Option<Box<Node<K, V, A>, A>>,
    key: &K,
) -> Option<V>
    requires rising { IsRising K.cmp (rows_under root.old) }
    requires root { IsRootIfAny root.old }
    ensures all { rows_under root.new ≡ without_row K.cmp key.now (rows_under root.old) }
    ensures value { result ≡ value_at K.cmp key.now (rows_under root.old) }
    ensures root { IsRootIfAny root.new }
{
    let Some(top) = root else {
        return None;
    };
    let removed = top.remove(key);
    if top.len() == 0 {
        *root = None;
    } else {
        lower(top);
    }
    removed
}
