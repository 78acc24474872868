//! Runs with no more room than they need.
ghost use Rattle.std.specs.Prelude.{◌≡◌, length, IfOk, vec_capacity};

use std::alloc::{AllocError, Allocator};

/// The run, with room for its items alone: the rest is given back.
///
/// To give room back can take memory. Where that is missing it is an `Err`, and the run is dropped.
pub(crate) fn fitted<T: Drop, A: Allocator>(mut run: Vec<T, A>) -> Result<Vec<T, A>, AllocError>
    ensures items { IfOk result (λ fitted. fitted.items ≡ run.items) }
    ensures room { IfOk result (λ fitted. vec_capacity fitted ≡ length run.items) }
{
    run.shrink_to_fit();
    if run.capacity() != run.len() {
        return Err(AllocError);
    }
    Ok(run)
}
