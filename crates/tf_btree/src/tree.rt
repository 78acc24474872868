//! The tree.
ghost use Rattle.std.specs.Prelude.{◌≡◌, ◌+◌, ◌-◌, ◌^◌, ◌<◌, ◌≤◌, [], length, reverse, None, IsTrue, ◌↔◌, IfOk, IfErr, OnOk, OnErr};
ghost use Rattle.std.specs.Option.{option_copied};
ghost use Rattle.tf_sorted.specs.Rows.{IsRising, rows_from, rows_upto, value_at, with_row, without_row};

use crate::back_cursor::BackCursor;
use crate::cursor::Cursor;
use crate::node::Node;
use crate::node::root::{insert_at_root, remove_at_root};
use std::alloc::Allocator;
use std::marker::Model;
use std::ops::Bound;
use tf_records::Refusal;

/// A map from keys to values in the order of the keys, as a B-tree of boxed nodes on an allocator.
///
/// A contract sees a tree as the list of its rows, a key with its value, in key order. A look-up, an insert and a
/// removal go once down the levels of nodes, of which `height` tells how many there are.
///
/// Every node is at least half full, but for those on the right edge: the root, its last child, the last child of that
/// one, and so on. A root that is a branch has two children at least. On the right edge a split for a row behind all
/// others leaves the first part full, since the newest keys are often the greatest.
#[derive(Drop)]
pub struct Tree<K: Copy + Ord, V: Copy, A: Allocator> {
    root: Option<Box<Node<K, V, A>, A>>,
    len: usize,
    alloc: A,
}

impl<K: Copy + Ord, V: Copy, A: Allocator> Model for Tree<K, V, A> {
    ghost use Rattle.std.specs.Prelude.{List};

    ghost Value = { List (K × V) };

    ghost use Rattle.tf_btree.specs.Tree.{rows_under, IsTree};

    ghost view = { λ t. rows_under t.root };

    ghost invariant = { λ t. IsTree K.cmp t.root t.len };
}

impl<K: Copy + Ord, V: Copy, A: Allocator> Tree<K, V, A> {
    /// An empty tree, whose nodes are made on `alloc`. It takes no memory.
    pub fn new_in(alloc: A) -> Self
        ensures { result ≡ [] }
    {
        Tree {
            root: None,
            len: 0,
            alloc,
        }
    }

    /// The number of rows.
    pub fn len(&self) -> usize
        ensures value { result ≡ length self.now }
        ensures rising { IsRising K.cmp self.now }
    {
        self.len
    }

    /// The number of levels of nodes, which is how many nodes a look-up reads: 0 without rows, 1 where one leaf has all.
    ///
    /// It takes as many steps. It grows with the logarithm of the rows: a tree of two levels or more has more rows than
    /// 16 to the power of the levels below its root.
    pub fn height(&self) -> usize
        ensures none { (result ≡ 0) ↔ (self.now ≡ []) }
        ensures least { 1 < result → 16 ^ (result - 1) < length self.now }
        ensures most { length self.now ≤ 32 ^ result }
    {
        // The proof needs that the number of rows fits its type, which `len` says.
        let _ = self.len();
        match &self.root {
            None => 0,
            Some(root) => root.levels(),
        }
    }

    /// Whether there is no row.
    pub fn is_empty(&self) -> bool
        ensures { IsTrue result ↔ (self.now ≡ []) }
    {
        self.len == 0
    }

    /// The value of `key`, if it has one.
    pub fn get(&self, key: &K) -> Option<&V>
        ensures { option_copied result ≡ value_at K.cmp key.now self.now }
    {
        match &self.root {
            None => None,
            Some(root) => root.get(key),
        }
    }

    /// Removes every row. It takes no memory, and gives back that of the nodes.
    pub fn clear(&mut self)
        ensures { self.new ≡ [] }
    {
        self.root = None;
        self.len = 0;
    }

    /// Puts the row of `key` in, over the one that is there, and gives the value that was there.
    ///
    /// For want of memory an `Err` hands both back, and then no row and no node changes: every node that is needed is
    /// made before. Where the key is there it takes no memory.
    pub fn insert(&mut self, key: K, value: V) -> Result<Option<V>, (K, V)>
    where
        A: Clone,
        ensures ok { OnOk result (self.new ≡ with_row K.cmp key value self.old) }
        ensures value { IfOk result (λ old. old ≡ value_at K.cmp key self.old) }
        ensures err { OnErr result (self.new ≡ self.old) }
        ensures absent { OnErr result (value_at K.cmp key self.old ≡ None) }
        ensures returned { IfErr result (λ row. row ≡ (key, value)) }
    {
        if self.len == usize::MAX && self.get(&key).is_none() {
            return Err((key, value));
        }
        match &mut self.root {
            None => match Node::with_row(&self.alloc, key, value) {
                None => Err((key, value)),
                Some(root) => {
                    self.root = Some(root);
                    self.len = 1;
                    Ok(None)
                }
            },
            Some(root) => match insert_at_root(root, key, value) {
                Err(_) => Err((key, value)),
                Ok(old) => {
                    if old.is_none() {
                        self.len += 1;
                    }
                    Ok(old)
                }
            },
        }
    }

    /// Removes the row of `key`, if there is one, and gives its value. It takes no memory.
    pub fn remove(&mut self, key: &K) -> Option<V>
        ensures rows { self.new ≡ without_row K.cmp key.now self.old }
        ensures value { result ≡ value_at K.cmp key.now self.old }
    {
        let removed = remove_at_root(&mut self.root, key);
        if removed.is_some() {
            self.len -= 1;
        }
        removed
    }

    /// The rows from the least key that isn't below `key` on, in key order.
    pub fn seek(&self, key: &K) -> Cursor<'_, K, V, A>
        ensures { result ≡ rows_from K.cmp key.now self.now }
    {
        match &self.root {
            None => Cursor::from_key(None, key),
            Some(root) => Cursor::from_key(Some(&**root), key),
        }
    }

    /// The rows whose keys aren't above `key`, from the greatest key down.
    pub fn seek_back(&self, key: &K) -> BackCursor<'_, K, V, A>
        ensures { result ≡ reverse (rows_upto K.cmp key.now self.now) }
    {
        match &self.root {
            None => BackCursor::from_end(None, Bound::Included(*key)),
            Some(root) => BackCursor::from_end(Some(&**root), Bound::Included(*key)),
        }
    }

    /// Every row, in key order.
    pub fn rows(&self) -> Cursor<'_, K, V, A>
        ensures { result ≡ self.now }
    {
        match &self.root {
            None => Cursor::all(None),
            Some(root) => Cursor::all(Some(&**root)),
        }
    }

    /// Every row, from the greatest key down.
    pub fn rows_back(&self) -> BackCursor<'_, K, V, A>
        ensures { result ≡ reverse self.now }
    {
        match &self.root {
            None => BackCursor::from_end(None, Bound::Unbounded),
            Some(root) => BackCursor::from_end(Some(&**root), Bound::Unbounded),
        }
    }

    /// A copy of every row on `alloc`, in key order, or `Refusal::NoMemory`.
    pub fn copy_rows<B: Allocator>(&self, alloc: B) -> Result<Vec<(K, V), B>, Refusal>
        ensures ok { IfOk result (λ copy. copy.items ≡ self.now) }
        ensures err { IfErr result (λ refusal. refusal ≡ Refusal.NoMemory) }
    {
        let Ok(mut copy) = Vec::with_capacity(alloc, self.len) else {
            return Err(Refusal::NoMemory);
        };
        let mut rows = self.rows();
        while let Some((key, value)) = rows.next() {
            if copy.push((*key, *value)).is_err() {
                return Err(Refusal::NoMemory);
            }
        }
        Ok(copy)
    }
}
