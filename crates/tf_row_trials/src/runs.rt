//! Runs of rows of one kind. This stands beside the trait, since a run is no type of the crates above.

use crate::outcomes::keep;
use crate::subject::Mergeable;
use std::alloc::Allocator;
use tf_manifest::RowValue;
use tf_records::Refusal;
use tf_registry::{Job, Merged, Naming};

impl<V, A, N> Mergeable<A, Merged<V, A, N>> for Job<V, A, N>
where
    V: RowValue,
    A: Allocator + Clone,
    N: Naming,
{
    fn merge_into(&self, alloc: A, place: &mut Option<Merged<V, A, N>>) -> Result<(), Refusal> {
        keep(self.merge(alloc), place)
    }
}
