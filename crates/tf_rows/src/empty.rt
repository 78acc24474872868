//! Mutable tables that have no entries yet.
ghost use Rattle.std.specs.Prelude.{◌≡◌, []};
ghost use Rattle.tf_manifest.specs.declared.row.Row.{Row};

use crate::MutableRows;
use std::alloc::Allocator;

/// Mutable tables that can be made with no entries.
pub trait EmptyRows<A: Allocator>: MutableRows {
    /// Tables without entries, which grow on `alloc`. It takes no memory.
    fn empty(alloc: A) -> Self
        ensures { (r : Row) → Self.entries result r ≡ [] };
}
