//! Queries and look-ups, asked of the plain ledger, and of versions beside it.

use crate::calls;
use crate::tried::{Asked, Tried};
use std::alloc::{Allocator, Global};
use tf_journal::{
    PlainLedger, get_account_balances, get_account_transfers, lookup_accounts, lookup_transfers,
    query_accounts, query_transfers,
};
use tf_records::{Account, AccountBalance, Refusal, Transfer};
use tf_script::{Command, Query};
use tf_trials::{Plain, Tally};

/// The rows that a command asks for.
#[derive(Drop)]
pub enum Rows<A: Allocator> {
    /// The transfers of an account.
    AccountTransfers(Vec<Transfer, A>),
    /// The balances of an account.
    AccountBalances(Vec<AccountBalance, A>),
    /// Accounts.
    Accounts(Vec<Account, A>),
    /// Transfers.
    Transfers(Vec<Transfer, A>),
}

/// The rows that a command asks for, or none where it asks for nothing.
pub type Outcome<A> = Result<Option<Rows<A>>, Refusal>;

/// What the plain ledger answers.
pub fn ask_plain(
    alloc: Global,
    plain: &PlainLedger<Global>,
    question: &Command<Global>,
) -> Outcome<Global> {
    Ok(Some(match question {
        Command::Query(Query::AccountTransfers(filter)) => {
            Rows::AccountTransfers(get_account_transfers(alloc, plain, filter)?)
        }
        Command::Query(Query::AccountBalances(filter)) => {
            Rows::AccountBalances(get_account_balances(alloc, plain, filter)?)
        }
        Command::Query(Query::Accounts(filter)) => {
            Rows::Accounts(query_accounts(alloc, plain, filter)?)
        }
        Command::Query(Query::Transfers(filter)) => {
            Rows::Transfers(query_transfers(alloc, plain, filter)?)
        }
        Command::LookupAccounts(ids) => {
            Rows::Accounts(lookup_accounts(alloc, plain, ids.as_slice())?)
        }
        Command::LookupTransfers(ids) => {
            Rows::Transfers(lookup_transfers(alloc, plain, ids.as_slice())?)
        }
        _ => return Ok(None),
    }))
}

/// Whether both are rows of the same query, the same in the same order.
pub fn has_same_rows<A: Allocator, B: Allocator>(one: &Rows<A>, other: &Rows<B>) -> bool {
    match (one, other) {
        (Rows::AccountTransfers(one), Rows::AccountTransfers(other)) => {
            one.as_slice() == other.as_slice()
        }
        (Rows::AccountBalances(one), Rows::AccountBalances(other)) => {
            one.as_slice() == other.as_slice()
        }
        (Rows::Accounts(one), Rows::Accounts(other)) => one.as_slice() == other.as_slice(),
        (Rows::Transfers(one), Rows::Transfers(other)) => one.as_slice() == other.as_slice(),
        _ => false,
    }
}

/// Whether both outcomes are the same.
pub fn is_same_outcome<A: Allocator, B: Allocator>(one: &Outcome<A>, other: &Outcome<B>) -> bool {
    match (one, other) {
        (Ok(Some(one)), Ok(Some(other))) => has_same_rows(one, other),
        (Ok(None), Ok(None)) => true,
        (Err(one), Err(other)) => one == other,
        _ => false,
    }
}

/// How many rows an outcome has.
pub fn count_of(outcome: &Outcome<Global>) -> usize {
    match outcome {
        Ok(Some(Rows::AccountTransfers(rows) | Rows::Transfers(rows))) => rows.len(),
        Ok(Some(Rows::AccountBalances(rows))) => rows.len(),
        Ok(Some(Rows::Accounts(rows))) => rows.len(),
        Ok(None) | Err(_) => 0,
    }
}

/// Whether a version answers a command as the plain ledger does, and with how many rows.
pub fn answer_of<F: Tried>(
    alloc: Global,
    forest: &mut F,
    place: usize,
    plain: &Plain,
    question: &Command<Global>,
) -> Tally {
    let expected = ask_plain(alloc, plain.ledger(), question);
    let asked = calls::ask(forest, place, question, &expected);
    let rows = count_of(&expected);
    drop(expected);
    Tally {
        rows,
        is_right: matches!(asked, Asked::Expected),
    }
}

/// Whether it answers each of these commands as the plain ledger does, and with how many rows.
pub fn answers_of<F: Tried>(
    alloc: Global,
    forest: &mut F,
    place: usize,
    plain: &Plain,
    questions: &[Command<Global>],
) -> Tally {
    let mut tally = Tally::NONE;
    for question in questions {
        let one = answer_of(alloc, forest, place, plain, question);
        tally.rows = tally.rows.saturating_add(one.rows);
        tally.is_right &= one.is_right;
    }
    tally
}
