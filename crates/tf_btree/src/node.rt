//! A node of a tree.
ghost use Rattle.std.specs.Prelude.{◌≡◌, ◌+◌, ◌-◌, ◌<◌, ◌≤◌, ◌==◌, [], ◌∷◌, ◌++◌, IfOk, Some, true, false, suc, length, insert, remove, take, drop, slice_index_or};
ghost use Rattle.tf_btree.specs.Subtree.{Subtree, rows};
ghost use Rattle.tf_btree.specs.Node.{empty_node, IsCounted};
ghost use Rattle.tf_sorted.specs.Rows.{first_key};

mod edit;
mod find;
mod in_place;
mod insert;
mod remove;
pub(crate) mod root;
mod run;
mod run_back;
mod runs;

use std::alloc::{AllocError, Allocator};
use std::marker::Model;

/// The most entries of a node: rows of a leaf, children of a branch.
pub(crate) const CAPACITY: usize = 32;

/// The least entries of a node that isn't on the right edge.
pub(crate) const HALF: usize = CAPACITY / 2;

/// A leaf with rows, or a branch with children.
///
/// A leaf has the key of each row in `keys` and its value in `values`. A branch has the first key of each child in
/// `keys` and the child in `children`. The runs of its kind have room for `CAPACITY` entries from the start.
#[derive(Drop)]
pub(crate) struct Node<K, V, A: Allocator> {
    is_branch: bool,
    keys: Vec<K, A>,
    values: Vec<V, A>,
    children: Vec<Box<Node<K, V, A>, A>, A>,
}

impl<K, V, A: Allocator> Model for Node<K, V, A> {
    ghost use Rattle.std.specs.Prelude.{length};
    ghost use Rattle.tf_btree.specs.Subtree.{Subtree};

    ghost Value = { Subtree K V };

    ghost use Rattle.tf_btree.specs.Code.{subtree_code};

    ghost coded = { subtree_code K.code V.code };

    ghost use Rattle.tf_btree.specs.Node.{subtree_of, IsNode, HasRoom, unboxed};

    ghost view = { λ a. subtree_of a.is_branch a.keys.items a.values.items (unboxed a.children.items) };

    ghost use Rattle.tf_btree.specs.Shape.{capacity};

    ghost invariant = { λ a. IsNode a.is_branch a.keys.items a.values.items (unboxed a.children.items)
        × HasRoom capacity a.is_branch (length a.keys.items) a.keys.cap a.values.cap a.children.cap };

    ghost size = { λ s. s.height };

    ghost use Rattle.tf_btree.specs.Falls.{depth_le-height};

    ghost size_decreases = { λ a h. depth_le-height A.Allocator a h.0.kind };
}

impl<K: Copy, V: Copy, A: Allocator> Node<K, V, A> {
    /// A leaf with no rows. It takes memory for a full one.
    pub(crate) fn new_leaf(alloc: A) -> Result<Self, AllocError>
    where
        A: Clone,
        ensures { IfOk result (λ n. n ≡ empty_node false) }
    {
        let keys = Vec::with_capacity(alloc.clone()?, CAPACITY)?;
        let values = Vec::with_capacity(alloc.clone()?, CAPACITY)?;
        let children = Vec::new(alloc);
        Ok(Node {
            is_branch: false,
            keys,
            values,
            children,
        })
    }

    /// A branch with no children. It takes memory for a full one.
    pub(crate) fn new_branch(alloc: A) -> Result<Self, AllocError>
    where
        A: Clone,
        ensures { IfOk result (λ n. n ≡ empty_node true) }
    {
        let keys = Vec::with_capacity(alloc.clone()?, CAPACITY)?;
        let values = Vec::new(alloc.clone()?);
        let children = Vec::with_capacity(alloc, CAPACITY)?;
        Ok(Node {
            is_branch: true,
            keys,
            values,
            children,
        })
    }

    /// The number of entries.
    pub(crate) fn len(&self) -> usize
        ensures value { result ≡ length self.now.parts }
        ensures fits { result ≤ CAPACITY }
        ensures leaf_level { self.now.is_branch ≡ false → self.now.height ≡ 0 }
        ensures branch_level { self.now.is_branch ≡ true → 0 < self.now.height }
        ensures leaf_fills { self.now.is_branch ≡ false → self.now.fills ≡ [] }
        ensures branch_fills { self.now.is_branch ≡ true → length self.now.fills ≡ length self.now.parts }
    {
        self.keys.len()
    }

    /// Whether the entries are children.
    pub(crate) fn is_branch(&self) -> bool
        ensures { result ≡ self.now.is_branch }
    {
        self.is_branch
    }

    /// The first key. Its contract also says how many rows any node has.
    pub(crate) fn first(&self) -> K
        requires { 0 < length self.now.parts }
        ensures key { first_key (rows self.now) ≡ Some result }
        ensures counted { IsCounted self.now }
    {
        self.keys[0]
    }
}
