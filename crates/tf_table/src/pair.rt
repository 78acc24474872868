//! The merge of two tables.
ghost use Rattle.std.specs.Prelude.{◌≡◌, ◌+◌, ◌^◌, ◌<◌, [], ◌∷◌, IfOk, IfSome};
ghost use Rattle.std.specs.Option.{option_map};
ghost use Rattle.tf_table.specs.Key.{key_cmp};
ghost use Rattle.tf_table.specs.Merge.{IsMerged, least_at, passed};

use crate::draft::Draft;
use crate::front::Front;
use crate::{Repeats, Sealed};
use std::alloc::{AllocError, Allocator};
use std::cmp::Ordering;

/// The row that comes next of two tables, and the places behind it.
#[derive(Drop)]
struct Step<'a, V, A: Allocator> {
    row: Front<'a, V, A>,
    newer: usize,
    older: usize,
}

/// The merge of two tables, by one comparison for each row.
pub(crate) fn merged_pair<V: Repeats, A: Allocator + Clone>(
    alloc: A,
    newer: &Sealed<V, A>,
    older: &Sealed<V, A>,
    bottom: bool,
) -> Result<Sealed<V, A>, AllocError>
    ensures { IfOk result (λ merged. IsMerged bottom (newer.now ∷ older.now ∷ []) merged) }
{
    let room = newer.len().checked_add(older.len()).ok_or(AllocError)?;
    let mut draft = Draft::with_room(alloc.clone()?, room)?;
    let mut newer_place = 0;
    let mut older_place = 0;
    while let Some(step) = next_step(newer, newer_place, older, older_place) {
        draft.keep(&step.row, bottom)?;
        newer_place = step.newer;
        older_place = step.older;
    }
    draft.seal(alloc)
}

/// The step from two places: the row with the lesser key, the newer one where the keys are the same.
#[inline]
fn next_step<'a, V, A: Allocator>(
    newer: &'a Sealed<V, A>,
    newer_place: usize,
    older: &'a Sealed<V, A>,
    older_place: usize,
) -> Option<Step<'a, V, A>>
    ensures row { option_map (λ step. step.row) result ≡ least_at key_cmp (newer.now ∷ older.now ∷ []) (newer_place ∷ older_place ∷ []) }
    ensures places { IfSome result (λ step. step.newer ∷ step.older ∷ [] ≡ passed key_cmp step.row.0 (newer.now ∷ older.now ∷ []) (newer_place ∷ older_place ∷ [])) }
{
    match (newer.front_at(newer_place), older.front_at(older_place)) {
        (None, None) => None,
        (Some(row), None) => Some(step_to(row, newer_place + 1, older_place)),
        (None, Some(row)) => Some(step_to(row, newer_place, older_place + 1)),
        (Some(newer_row), Some(older_row)) => match newer_row.key().cmp(older_row.key()) {
            Ordering::Less => Some(step_to(newer_row, newer_place + 1, older_place)),
            Ordering::Equal => Some(step_to(newer_row, newer_place + 1, older_place + 1)),
            Ordering::Greater => Some(step_to(older_row, newer_place, older_place + 1)),
        },
    }
}

/// The step over this row, to these places.
#[inline]
fn step_to<V, A: Allocator>(row: Front<'_, V, A>, newer: usize, older: usize) -> Step<'_, V, A>
    ensures row { result.row ≡ row.entry }
    ensures places { (result.newer ≡ newer) × (result.older ≡ older) }
{
    Step { row, newer, older }
}
