//! Many filters that are answered at once.
ghost use Rattle.tf_manifest.specs.Registries.{AreShelves};

use std::alloc::{Allocator, Global};
use std::marker::{Send, Sync};
use std::sync::Wait;
use std::thread::Threads;
use tf_forest_trials::{AtOnce, Rows};
use tf_manifest::Registries;
use tf_query::Version;
use tf_query_all::{Answer, Filter, query_all};
use tf_records::Refusal;
use tf_registry::Naming;
use tf_rows::{EmptyRows, SealRows};
use tf_script::Query;
use tf_version_trials::{TakenVersion, are_answered, let_go, take_version};

/// The filter of a query.
fn filter_of(query: &Query) -> Filter {
    match query {
        Query::AccountTransfers(filter) => Filter::AccountTransfers(*filter),
        Query::AccountBalances(filter) => Filter::AccountBalances(*filter),
        Query::Accounts(filter) => Filter::Accounts(*filter),
        Query::Transfers(filter) => Filter::Transfers(*filter),
    }
}

/// The rows of an answer.
fn rows_of(answer: Answer<Global>) -> Rows<Global> {
    match answer {
        Answer::AccountTransfers(rows) => Rows::AccountTransfers(rows),
        Answer::AccountBalances(rows) => Rows::AccountBalances(rows),
        Answer::Accounts(rows) => Rows::Accounts(rows),
        Answer::Transfers(rows) => Rows::Transfers(rows),
    }
}

/// What a version answers to many queries at once.
pub fn at_once<A, N, R>(
    rt: &R,
    alloc: Global,
    version: &Version<A, N>,
    queries: &[Query],
) -> Result<Vec<Rows<Global>, Global>, Refusal>
where
    A: Allocator + Send + Sync,
    N: Naming + Send + Sync,
    R: Threads + Sync,
{
    let filters: Vec<Filter> = queries.iter().map(filter_of).collect(alloc)?;
    let answers = query_all(rt, alloc, version, filters.as_slice())?;
    let rows: Vec<Rows<Global>, Global> = answers.into_iter().map(rows_of).collect(alloc)?;
    Ok(rows)
}

/// Whether a version answers many filters at once as one by one, and none as well.
fn are_right<A, N, R>(rt: &R, alloc: Global, taken: &TakenVersion<A, N>) -> Result<bool, Refusal>
where
    A: Allocator + Send + Sync,
    N: Naming + Send + Sync,
    R: Threads + Sync,
{
    let queries = taken.queries.as_slice();
    let answers = at_once(rt, alloc, &taken.version, queries)?;
    let none = at_once(rt, alloc, &taken.version, &[])?;
    Ok(
        queries.len() == 5000
            && are_answered(alloc, taken, queries, answers)
            && are_answered(alloc, taken, &[], none),
    )
}

/// The same of a version of a random journal.
pub fn try_many<T, A, N, R>(
    rt: &R,
    lists: Global,
    alloc: A,
    registries: &Registries<A>,
) -> Result<bool, Refusal>
where
    T: EmptyRows<A> + SealRows<A> + Drop,
    A: Allocator + Copy + Send + Sync,
    N: Naming + Send + Sync,
    R: Wait + Threads + Sync,
    requires { AreShelves N.shelf registries.now }
{
    match take_version::<T, A, N, R>(rt, lists, alloc, registries, AtOnce::Many) {
        Ok(taken) => {
            let tried = are_right(rt, lists, &taken);
            let_go(taken);
            tried
        }
        Err(refusal) => Err(refusal),
    }
}
