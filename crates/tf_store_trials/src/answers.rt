//! Queries and look-ups of versions, which answer as the plain ledger does.

use std::alloc::Global;
use tf_journal::{
    PlainLedger, get_account_balances, get_account_transfers, lookup_accounts, lookup_transfers,
    query_accounts, query_transfers,
};
use tf_readers::{Asked, Found, Publishable};
use tf_records::{AccountFilter, QueryFilter, Refusal};
use tf_trials::{Plain, Tally};

/// The transfers of an account on both sides, rising or falling.
fn of_account(account_id: u128, flags: u32) -> AccountFilter {
    AccountFilter {
        account_id,
        user_data_128: 0,
        user_data_64: 0,
        user_data_32: 0,
        code: 0,
        reserved: [0; 58],
        timestamp_min: 0,
        timestamp_max: 0,
        limit: 1000,
        flags: flags | AccountFilter::DEBITS | AccountFilter::CREDITS,
    }
}

/// All accounts or transfers, or those of a code.
fn of_code(code: u16, flags: u32) -> QueryFilter {
    QueryFilter {
        user_data_128: 0,
        user_data_64: 0,
        user_data_32: 0,
        ledger: 0,
        code,
        reserved: [0; 6],
        timestamp_min: 0,
        timestamp_max: 0,
        limit: 1000,
        flags,
    }
}

/// How a version answers queries and look-ups, beside the plain ledger.
pub fn answers<V: Publishable>(alloc: Global, version: &V, plain: &Plain) -> Tally {
    let mut tally = Tally::NONE;
    let ledger = plain.ledger();
    ask_accounts(alloc, version, ledger, &mut tally);
    ask_codes(alloc, version, ledger, &mut tally);
    ask_ids(alloc, version, ledger, &mut tally);
    tally
}

/// The transfers and the balances of accounts, rising and falling.
fn ask_accounts<V: Publishable>(
    alloc: Global,
    version: &V,
    plain: &PlainLedger<Global>,
    tally: &mut Tally,
) {
    for account_id in 0..6u32 {
        let rising = of_account(account_id.into(), 0);
        let falling = of_account(account_id.into(), AccountFilter::REVERSED);
        ask(
            alloc,
            version,
            plain,
            &Asked::AccountTransfers(rising),
            tally,
        );
        ask(
            alloc,
            version,
            plain,
            &Asked::AccountTransfers(falling),
            tally,
        );
        ask(
            alloc,
            version,
            plain,
            &Asked::AccountBalances(rising),
            tally,
        );
        ask(
            alloc,
            version,
            plain,
            &Asked::AccountBalances(falling),
            tally,
        );
    }
}

/// All accounts and transfers, falling too, and those of some codes.
fn ask_codes<V: Publishable>(
    alloc: Global,
    version: &V,
    plain: &PlainLedger<Global>,
    tally: &mut Tally,
) {
    for (code, flags) in [(0, 0), (0, QueryFilter::REVERSED), (1, 0), (10, 0)] {
        let filter = of_code(code, flags);
        ask(alloc, version, plain, &Asked::Accounts(filter), tally);
        ask(alloc, version, plain, &Asked::Transfers(filter), tally);
    }
}

/// The accounts and the transfers with some ids.
fn ask_ids<V: Publishable>(
    alloc: Global,
    version: &V,
    plain: &PlainLedger<Global>,
    tally: &mut Tally,
) {
    for id in [7, 1, 5, 2, 1, 3, 20, 21, 0, 22] {
        ask(alloc, version, plain, &Asked::AccountWithId(id), tally);
        ask(alloc, version, plain, &Asked::TransferWithId(id), tally);
    }
}

/// Asks both.
fn ask<V: Publishable>(
    alloc: Global,
    version: &V,
    plain: &PlainLedger<Global>,
    asked: &Asked,
    tally: &mut Tally,
) {
    let rows = match (version.ask(alloc, asked), expected(alloc, plain, asked)) {
        (Ok(found), Ok(expected)) => same_rows(&found, &expected),
        _ => None,
    };
    match rows {
        Some(rows) => tally.rows = tally.rows.saturating_add(rows),
        None => tally.is_right = false,
    }
}

/// What the plain ledger answers.
fn expected(
    alloc: Global,
    plain: &PlainLedger<Global>,
    asked: &Asked,
) -> Result<Found<Global>, Refusal> {
    Ok(match asked {
        Asked::AccountTransfers(filter) => {
            Found::Transfers(get_account_transfers(alloc, plain, filter)?)
        }
        Asked::AccountBalances(filter) => {
            Found::Balances(get_account_balances(alloc, plain, filter)?)
        }
        Asked::Accounts(filter) => Found::Accounts(query_accounts(alloc, plain, filter)?),
        Asked::Transfers(filter) => Found::Transfers(query_transfers(alloc, plain, filter)?),
        Asked::AccountWithId(id) => Found::Accounts(lookup_accounts(alloc, plain, &[*id])?),
        Asked::TransferWithId(id) => Found::Transfers(lookup_transfers(alloc, plain, &[*id])?),
    })
}

/// How many rows both found, if they are the same.
fn same_rows(found: &Found<Global>, expected: &Found<Global>) -> Option<usize> {
    match (found, expected) {
        (Found::Transfers(found), Found::Transfers(expected)) => {
            same(found.as_slice(), expected.as_slice())
        }
        (Found::Balances(found), Found::Balances(expected)) => {
            same(found.as_slice(), expected.as_slice())
        }
        (Found::Accounts(found), Found::Accounts(expected)) => {
            same(found.as_slice(), expected.as_slice())
        }
        _ => None,
    }
}

/// The length of two lists that are the same.
fn same<T: PartialEq>(one: &[T], other: &[T]) -> Option<usize> {
    if one == other { Some(one.len()) } else { None }
}
