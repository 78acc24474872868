//! Answers about as long as the parts, of 256 timestamps, in which queries read a scan.

use crate::asking::answer_of;
use crate::calls::does;
use crate::publishing::run_list;
use crate::tried::{Act, Tried};
use std::alloc::Global;
use tf_records::{AccountFilter, QueryFilter, Refusal, Transfer};
use tf_script::{Command, Query};
use tf_trials::random::{first_accounts, transfer_event};
use tf_trials::{Dice, Plain};

/// Limits beside the ends of parts, and above all rows.
const LIMITS: [u32; 8] = [1, 255, 256, 257, 511, 512, 513, 8190];

/// How many transfers each batch has. Each is published, and no table ends with a part.
const BATCHES: [u64; 4] = [250, 250, 250, 50];

/// The first and the last transfer within bounds, by their places: all, as many as a part has, one less and one more, and
/// the last of a part alone.
const BOUNDS: [(usize, usize); 5] = [(0, 799), (300, 555), (300, 554), (299, 555), (255, 255)];

/// A batch of transfers from account 1 to account 3, which has history, with so many ids from the first on.
fn batch(alloc: Global, first: u64, count: u64) -> Result<Command<Global>, Refusal> {
    let mut dice = Dice::new(256);
    let mut events = Vec::new(alloc);
    for before in 0..count {
        events.push(Transfer {
            debit_account_id: 1,
            credit_account_id: 3,
            amount: 1,
            ..transfer_event(&mut dice, first.wrapping_add(before))
        })?;
    }
    Ok(Command::Transfers { now: 0, events })
}

/// The accounts and all batches.
fn commands(alloc: Global) -> Result<Vec<Command<Global>, Global>, Refusal> {
    let mut commands = Vec::new(alloc);
    commands.push(first_accounts(alloc)?)?;
    let mut first: u64 = 1;
    for count in BATCHES {
        commands.push(batch(alloc, first, count)?)?;
        first = first.wrapping_add(count);
    }
    Ok(commands)
}

/// The timestamp of a transfer by its place, behind six accounts.
fn moment(plain: &Plain, place: usize) -> u64 {
    match plain.ledger().entries().get(place.saturating_add(6)) {
        Some(entry) => entry.timestamp(),
        None => 0,
    }
}

/// From when to when a query asks, for how many rows, and whether it is reversed.
#[derive(Clone, Copy)]
struct Span {
    low: u64,
    high: u64,
    limit: u32,
    is_reversed: bool,
}

/// A filter of the transfers on both sides of account 3.
fn of_account(span: Span) -> AccountFilter {
    let reversed = if span.is_reversed {
        AccountFilter::REVERSED
    } else {
        0
    };
    AccountFilter {
        account_id: 3,
        user_data_128: 0,
        user_data_64: 0,
        user_data_32: 0,
        code: 0,
        reserved: [0; 58],
        timestamp_min: span.low,
        timestamp_max: span.high,
        limit: span.limit,
        flags: AccountFilter::DEBITS | AccountFilter::CREDITS | reversed,
    }
}

/// A filter of all transfers, by a code where it isn't 0.
fn of_all(span: Span, code: u16) -> QueryFilter {
    QueryFilter {
        user_data_128: 0,
        user_data_64: 0,
        user_data_32: 0,
        ledger: 0,
        code,
        reserved: [0; 6],
        timestamp_min: span.low,
        timestamp_max: span.high,
        limit: span.limit,
        flags: if span.is_reversed {
            QueryFilter::REVERSED
        } else {
            0
        },
    }
}

/// How many rows a version answers a query with, where it is as the plain ledger answers.
fn rows_of<F: Tried>(alloc: Global, plain: &Plain, forest: &mut F, query: Query) -> Option<usize> {
    let tally = answer_of(alloc, forest, 0, plain, &Command::Query(query));
    tally.is_right.then_some(tally.rows)
}

/// Whether a version answers a union, the same with balances, all records and a field alone as the plain ledger does, with as
/// many rows each, some and no more than are asked for.
fn is_span_answered<F: Tried>(alloc: Global, plain: &Plain, forest: &mut F, span: Span) -> bool {
    let Some(rows) = rows_of(
        alloc,
        plain,
        forest,
        Query::AccountTransfers(of_account(span)),
    ) else {
        return false;
    };
    let balances = Query::AccountBalances(of_account(span));
    let all = Query::Transfers(of_all(span, 0));
    let field = Query::Transfers(of_all(span, 1));
    rows > 0
        && rows <= span.limit as usize
        && rows_of(alloc, plain, forest, balances) == Some(rows)
        && rows_of(alloc, plain, forest, all) == Some(rows)
        && rows_of(alloc, plain, forest, field) == Some(rows)
}

/// The same with each limit between two moments, in both directions.
fn are_limits_answered<F: Tried>(
    alloc: Global,
    plain: &Plain,
    forest: &mut F,
    low: u64,
    high: u64,
) -> bool {
    for limit in LIMITS {
        for is_reversed in [false, true] {
            let span = Span {
                low,
                high,
                limit,
                is_reversed,
            };
            if !is_span_answered(alloc, plain, forest, span) {
                return false;
            }
        }
    }
    true
}

/// The same between each two transfers.
fn are_bounds_answered<F: Tried>(alloc: Global, plain: &Plain, forest: &mut F) -> bool {
    for (first, last) in BOUNDS {
        let low = moment(plain, first);
        let high = moment(plain, last);
        let is_span = 0 < low && low <= high;
        if !is_span || !are_limits_answered(alloc, plain, forest, low, high) {
            return false;
        }
    }
    true
}

/// Whether a version of 800 transfers in four tables answers queries of about as many rows as a part has as the plain ledger
/// does.
pub fn are_parts_answered<F: Tried>(
    alloc: Global,
    plain: &mut Plain,
    forest: &mut F,
) -> Result<bool, Refusal> {
    Ok(
        run_list(alloc, plain, forest, commands(alloc))?
            && does(forest, Act::Take)
            && are_bounds_answered(alloc, plain, forest),
    )
}
