//! A version of which many queries are asked at once. This crate doesn't ask them so, which takes threads.
ghost use Rattle.tf_manifest.specs.Registries.{AreShelves};

use crate::asking::answered;
use crate::resting::Resting;
use crate::tried::{Lent, TriedForest};
use std::alloc::{Allocator, Global};
use std::sync::Wait;
use tf_forest_trials::{
    Asked, AtOnce, Outcome, Rows, Taken, all_taken, ask_plain, is_same_outcome, take_for_queries,
};
use tf_manifest::Registries;
use tf_query::Version;
use tf_records::Refusal;
use tf_registry::Naming;
use tf_rows::{EmptyRows, SealRows};
use tf_script::{Command, Query};
use tf_trials::Plain;

/// A version of an empty forest, once it ran a journal.
pub type TakenVersion<A, N> = Taken<Version<A, N>>;

/// Runs a journal on a forest that is lent, takes a version, and gives queries of it.
fn take_of_forest<F: TriedForest, R: Wait>(
    rt: &R,
    lists: Global,
    plain: &mut Plain,
    forest: &mut F,
    asked: AtOnce,
) -> Result<Vec<Query, Global>, Refusal> {
    let mut lent = Lent { rt, lists, forest };
    take_for_queries(lists, plain, &mut lent, asked)
}

/// Takes a version of a forest of its own, which is let go.
pub fn take_version<T, A, N, R>(
    rt: &R,
    lists: Global,
    alloc: A,
    registries: &Registries<A>,
    asked: AtOnce,
) -> Result<TakenVersion<A, N>, Refusal>
where
    T: EmptyRows<A> + SealRows<A> + Drop,
    A: Allocator + Copy,
    N: Naming,
    R: Wait,
    requires { AreShelves N.shelf registries.now }
{
    let mut forest = Resting::<T, A, N>::empty(lists, alloc, registries)?;
    let mut plain = Plain::new(lists);
    let queries = take_of_forest(rt, lists, &mut plain, &mut forest, asked);
    let version = forest.last_version();
    drop(forest);
    all_taken(version, plain, queries)
}

/// Lets go of a version.
pub fn let_go<A: Allocator, N: Naming>(taken: TakenVersion<A, N>) {
    drop(taken);
}

/// Whether a version answers a query alone as it did at once, and as the plain ledger does.
fn is_one_answered<A: Allocator, N: Naming>(
    alloc: Global,
    taken: &TakenVersion<A, N>,
    query: &Query,
    rows: Rows<Global>,
) -> bool {
    let question = Command::<Global>::Query(*query);
    let expected = ask_plain(alloc, taken.plain.ledger(), &question);
    let together: Outcome<Global> = Ok(Some(rows));
    let alone = answered(alloc, &taken.version, &question, &expected);
    is_same_outcome(&together, &expected) && matches!(alone, Asked::Expected)
}

/// Whether the answers to all these queries at once are those to one by one, and those of the plain ledger.
pub fn are_answered<A: Allocator, N: Naming>(
    alloc: Global,
    taken: &TakenVersion<A, N>,
    queries: &[Query],
    answers: Vec<Rows<Global>, Global>,
) -> bool {
    if answers.len() != queries.len() {
        return false;
    }
    for (query, rows) in queries.iter().zip(answers) {
        if !is_one_answered(alloc, taken, query, rows) {
            return false;
        }
    }
    true
}
