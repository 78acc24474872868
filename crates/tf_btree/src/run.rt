//! Runs of rows, which cursors go over.
ghost use Rattle.std.specs.Prelude.{◌≡◌, [], None};

use crate::node::Node;
use std::alloc::Allocator;

/// Rows of one leaf, and what a cursor goes on with.
///
/// Upwards these are the leaves behind it below the same branch, and then the rows from the key `further` on. Downwards
/// they are the leaves before it below the same branch, and then the rows before the key `further`.
#[derive(Drop)]
pub(crate) struct Run<'a, K: Copy, V: Copy, A: Allocator> {
    pub(crate) keys: &'a [K],
    pub(crate) values: &'a [V],
    pub(crate) leaves: &'a [Box<Node<K, V, A>, A>],
    pub(crate) further: Option<K>,
}

impl<'a, K: Copy, V: Copy, A: Allocator> Run<'a, K, V, A> {
    /// No rows, and none to go on with.
    pub(crate) fn none() -> Self
        ensures keys { result.keys.now ≡ [] }
        ensures values { result.values.now ≡ [] }
        ensures leaves { result.leaves.now ≡ [] }
        ensures further { result.further ≡ None }
    {
        Run {
            keys: &[],
            values: &[],
            leaves: &[],
            further: None,
        }
    }
}
