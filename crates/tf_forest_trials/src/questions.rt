//! Random queries and look-ups of a journal. Some are invalid, and most ask for records that are there.
ghost use Rattle.std.specs.Prelude.{◌<◌, length};

use std::alloc::Global;
use tf_journal::PlainLedger;
use tf_records::{AccountFilter, QueryFilter, Refusal, TIMESTAMP_MAX};
use tf_script::{Command, Query};
use tf_trials::Dice;
use tf_trials::random::one_of;

/// The timestamp of an entry of the journal.
fn moment(dice: &mut Dice, plain: &PlainLedger<Global>) -> u64 {
    let entries = plain.entries();
    let many = entries.len().min(1 << 20) as u64;
    match entries.get(dice.below(many) as usize) {
        Some(entry) => entry.timestamp(),
        None => 0,
    }
}

/// A bound of timestamps: none, one at an entry or beside it, or one at which no entry is.
fn bound(dice: &mut Dice, plain: &PlainLedger<Global>) -> u64 {
    match dice.below(20) {
        0..13 => 0,
        13 => one_of(dice, &[1, TIMESTAMP_MAX, u64::MAX - 1, u64::MAX]),
        _ => moment(dice, plain)
            .saturating_add(dice.below(3))
            .saturating_sub(1),
    }
}

/// Limits: none, few, as many as an answer has, and more.
const LIMITS: [u32; 14] = [
    0,
    1,
    1,
    2,
    3,
    7,
    20,
    20,
    8190,
    8190,
    8190,
    8190,
    8191,
    u32::MAX,
];

/// Flags of filters of an account's transfers: each side and both, reversed, no side, and some that no filter may have.
const SIDES: [u32; 20] = [
    1,
    1,
    2,
    2,
    3,
    3,
    3,
    3,
    3,
    5,
    5,
    6,
    6,
    7,
    7,
    7,
    0,
    4,
    11,
    1 << 31,
];

/// A filter of an account's transfers.
fn account_filter(dice: &mut Dice, plain: &PlainLedger<Global>) -> AccountFilter {
    let mut reserved = [0; 58];
    if dice.below(40) == 0 {
        reserved[dice.below(58) as usize] = 1;
    }
    AccountFilter {
        account_id: one_of(
            dice,
            &[1, 1, 2, 2, 3, 3, 3, 3, 4, 4, 4, 4, 5, 6, 7, 8, 0, u128::MAX],
        ),
        user_data_128: one_of(dice, &[0, 0, 0, 0, 0, 5, 5, 1]),
        user_data_64: one_of(dice, &[0, 0, 0, 0, 0, 6, 6, 1]),
        user_data_32: one_of(dice, &[0, 0, 0, 0, 0, 7, 7, 1]),
        code: dice.one_of(&[0, 0, 0, 1, 1, 1, 9]),
        reserved,
        timestamp_min: bound(dice, plain),
        timestamp_max: bound(dice, plain),
        limit: one_of(dice, &LIMITS),
        flags: one_of(dice, &SIDES),
    }
}

/// A filter of all accounts, whose fields have 1, 2, 3, 1 and 10, or all transfers, whose fields have 5, 6, 7, 1 and 1.
fn query_filter(dice: &mut Dice, plain: &PlainLedger<Global>) -> QueryFilter {
    let mut reserved = [0; 6];
    if dice.below(40) == 0 {
        reserved[dice.below(6) as usize] = 1;
    }
    QueryFilter {
        user_data_128: one_of(dice, &[0, 0, 0, 0, 1, 1, 5, 5]),
        user_data_64: one_of(dice, &[0, 0, 0, 0, 2, 2, 6, 6]),
        user_data_32: one_of(dice, &[0, 0, 0, 0, 3, 3, 7, 7]),
        ledger: one_of(dice, &[0, 0, 1, 1, 1, 2]),
        code: dice.one_of(&[0, 0, 0, 1, 1, 10, 10, 9]),
        reserved,
        timestamp_min: bound(dice, plain),
        timestamp_max: bound(dice, plain),
        limit: one_of(dice, &LIMITS),
        flags: one_of(dice, &[0, 0, 0, 0, 0, 1, 1, 1, 1, 1, 2, 3, 1 << 31]),
    }
}

/// A query of any of the four kinds.
pub fn any_query(dice: &mut Dice, plain: &PlainLedger<Global>) -> Query {
    match dice.below(4) {
        0 => Query::AccountTransfers(account_filter(dice, plain)),
        1 => Query::AccountBalances(account_filter(dice, plain)),
        2 => Query::Accounts(query_filter(dice, plain)),
        _ => Query::Transfers(query_filter(dice, plain)),
    }
}

/// Some ids below a number, and of them some twice, and some that nothing has. Each second time they rise, and now and then they are
/// more than are looked up at once.
fn ids(alloc: Global, dice: &mut Dice, below: u64) -> Result<Vec<u128, Global>, Refusal> {
    let mut ids = Vec::new(alloc);
    let most = one_of(dice, &[12, 12, 60]);
    for _ in 0..dice.below(most) {
        let id = u128::from(dice.below(below));
        ids.push(one_of(dice, &[id, id, id, id, id, id, id, id, 3, u128::MAX]))?;
    }
    if dice.below(2) == 0 {
        ids.sort_unstable();
    }
    Ok(ids)
}

/// A query or a look-up of any kind.
fn any_question(
    alloc: Global,
    dice: &mut Dice,
    plain: &PlainLedger<Global>,
) -> Result<Command<Global>, Refusal> {
    Ok(match dice.below(6) {
        0 => Command::LookupAccounts(ids(alloc, dice, 9)?),
        1 => Command::LookupTransfers(ids(alloc, dice, 100)?),
        _ => Command::Query(any_query(dice, plain)),
    })
}

/// So many queries and look-ups.
pub fn questions(
    alloc: Global,
    dice: &mut Dice,
    plain: &PlainLedger<Global>,
    count: u32,
) -> Result<Vec<Command<Global>, Global>, Refusal> {
    let mut questions = Vec::new(alloc);
    for _ in 0..count {
        questions.push(any_question(alloc, dice, plain)?)?;
    }
    Ok(questions)
}
