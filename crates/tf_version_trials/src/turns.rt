//! Trials of empty forests, each with rows of its own.
ghost use Rattle.tf_manifest.specs.Registries.{AreShelves};

use crate::resting::Resting;
use crate::tried::{Lent, TriedForest};
use std::alloc::{Allocator, Global};
use std::sync::Wait;
use tf_forest_trials::{Course, Trial, try_out};
use tf_manifest::Registries;
use tf_records::Refusal;
use tf_registry::Naming;
use tf_rows::{EmptyRows, SealRows};

/// A trial of a forest that is lent.
fn try_forest<F: TriedForest, R: Wait>(
    rt: &R,
    lists: Global,
    forest: &mut F,
    trial: Trial,
) -> Result<bool, Refusal> {
    let mut lent = Lent { rt, lists, forest };
    try_out(lists, &mut lent, trial)
}

/// A trial of an empty forest of its own, which is let go with what was taken of it.
fn try_turn<T, A, N, R>(
    rt: &R,
    lists: Global,
    alloc: A,
    registries: &Registries<A>,
    trial: Trial,
) -> Result<bool, Refusal>
where
    T: EmptyRows<A> + SealRows<A> + Drop,
    A: Allocator + Copy,
    N: Naming,
    R: Wait,
    requires { AreShelves N.shelf registries.now }
{
    let mut forest = Resting::<T, A, N>::empty(lists, alloc, registries)?;
    let tried = try_forest(rt, lists, &mut forest, trial);
    drop(forest);
    tried
}

/// Each turn of a course, with an empty forest of its own. Tells whether all went as they have to.
pub fn try_each<T, A, N, R>(
    rt: &R,
    lists: Global,
    alloc: A,
    registries: &Registries<A>,
    course: Course,
) -> Result<bool, Refusal>
where
    T: EmptyRows<A> + SealRows<A> + Drop,
    A: Allocator + Copy,
    N: Naming,
    R: Wait,
    requires { AreShelves N.shelf registries.now }
{
    for turn in 0..course.turns() {
        if !try_turn::<T, A, N, R>(rt, lists, alloc, registries, course.trial(turn))? {
            return Ok(false);
        }
    }
    Ok(true)
}
