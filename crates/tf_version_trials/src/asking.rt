//! Queries and look-ups, asked of versions.

use std::alloc::{Allocator, Global};
use tf_forest_trials::{Asked, Outcome, Rows, is_same_outcome};
use tf_query::Version;
use tf_records::Refusal;
use tf_registry::Naming;
use tf_script::{Command, Query};

/// What a version answers to a query.
fn ask_query<A: Allocator, N: Naming, B: Allocator + Copy>(
    alloc: B,
    version: &Version<A, N>,
    query: &Query,
) -> Result<Rows<B>, Refusal> {
    Ok(match query {
        Query::AccountTransfers(filter) => {
            Rows::AccountTransfers(version.get_account_transfers(alloc, filter)?)
        }
        Query::AccountBalances(filter) => {
            Rows::AccountBalances(version.get_account_balances(alloc, filter)?)
        }
        Query::Accounts(filter) => Rows::Accounts(version.query_accounts(alloc, filter)?),
        Query::Transfers(filter) => Rows::Transfers(version.query_transfers(alloc, filter)?),
    })
}

/// The rows of an answer, where there are any.
fn some_rows<B: Allocator>(rows: Result<Rows<B>, Refusal>) -> Outcome<B> {
    match rows {
        Ok(rows) => Ok(Some(rows)),
        Err(refusal) => Err(refusal),
    }
}

/// What a version answers.
fn ask<A: Allocator, N: Naming, B: Allocator + Copy>(
    alloc: B,
    version: &Version<A, N>,
    question: &Command<Global>,
) -> Outcome<B> {
    match question {
        Command::Query(query) => some_rows(ask_query(alloc, version, query)),
        Command::LookupAccounts(ids) => Ok(Some(Rows::Accounts(version.lookup_accounts(
            alloc,
            ids.as_slice(),
        )?))),
        Command::LookupTransfers(ids) => Ok(Some(Rows::Transfers(version.lookup_transfers(
            alloc,
            ids.as_slice(),
        )?))),
        _ => Ok(None),
    }
}

/// How a version answers, where this is expected.
pub fn answered<A: Allocator, N: Naming, B: Allocator + Copy>(
    alloc: B,
    version: &Version<A, N>,
    question: &Command<Global>,
    expected: &Outcome<Global>,
) -> Asked {
    compared(&ask(alloc, version, question), expected)
}

/// How one of several versions answers, if it is there.
pub fn answered_at<A: Allocator, N: Naming, B: Allocator + Copy>(
    alloc: B,
    versions: &Vec<Version<A, N>, Global>,
    place: usize,
    question: &Command<Global>,
    expected: &Outcome<Global>,
) -> Asked {
    match versions.get(place) {
        Some(version) => answered(alloc, version, question, expected),
        None => Asked::Wrong,
    }
}

/// How an outcome is, where another one is expected.
fn compared<B: Allocator>(outcome: &Outcome<B>, expected: &Outcome<Global>) -> Asked {
    if is_same_outcome(outcome, expected) {
        Asked::Expected
    } else if matches!(outcome, Err(Refusal::NoMemory)) {
        Asked::NoMemory
    } else {
        Asked::Wrong
    }
}
