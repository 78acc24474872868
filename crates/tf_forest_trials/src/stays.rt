//! A version that is kept while its forest goes on.

use crate::asking::answers_of;
use crate::calls::does;
use crate::merges::merge_all;
use crate::publishing::run_one;
use crate::questions::questions;
use crate::tried::{Act, Tried};
use std::alloc::Global;
use tf_records::{Refusal, Transfer};
use tf_script::Command;
use tf_trials::random::{first_accounts, transfer_event};
use tf_trials::{Dice, Plain};

/// A batch of transfers between accounts without limits, with so many ids from the first on, all of which are stored.
pub fn batch(
    alloc: Global,
    dice: &mut Dice,
    first: u64,
    count: u64,
) -> Result<Command<Global>, Refusal> {
    let mut events = Vec::new(alloc);
    for before in 0..count {
        events.push(Transfer {
            debit_account_id: u128::from(dice.below(2)).wrapping_add(1),
            credit_account_id: u128::from(dice.below(2)).wrapping_add(3),
            amount: u128::from(dice.below(100)),
            flags: dice.one_of(&[0, 0, Transfer::PENDING]),
            ..transfer_event(dice, first.wrapping_add(before))
        })?;
    }
    Ok(Command::Transfers { now: 0, events })
}

/// Runs a command, where it could be made, on both plain ledgers and a forest of which no version is kept. Tells whether the
/// forest answers as they do.
fn run_both<F: Tried>(
    alloc: Global,
    then: &mut Plain,
    now: &mut Plain,
    forest: &mut F,
    command: Result<Command<Global>, Refusal>,
) -> bool {
    let Ok(command) = command else {
        return false;
    };
    let _answer = then.run(alloc, &command);
    let is_answered = run_one(alloc, now, forest, &command, 0);
    drop(command);
    is_answered
}

/// Stores the accounts and the first transfer, and takes a version. Both plain ledgers are as it shows.
fn begin<F: Tried>(
    alloc: Global,
    then: &mut Plain,
    now: &mut Plain,
    forest: &mut F,
    dice: &mut Dice,
) -> bool {
    run_both(alloc, then, now, forest, first_accounts(alloc))
        && run_both(alloc, then, now, forest, batch(alloc, dice, 1, 1))
        && does(forest, Act::Take)
}

/// Publishes 250 transfers more, with the ids from the first on, of a forest of which one version is kept.
fn publish_batch<F: Tried>(
    alloc: Global,
    now: &mut Plain,
    forest: &mut F,
    dice: &mut Dice,
    first: u64,
) -> bool {
    let Ok(further) = batch(alloc, dice, first, 250) else {
        return false;
    };
    let is_answered = run_one(alloc, now, forest, &further, 1);
    drop(further);
    is_answered
}

/// Publishes four batches of 250 transfers more, with the ids from 2 on, and merges all rows.
fn go_on<F: Tried>(alloc: Global, now: &mut Plain, forest: &mut F, dice: &mut Dice) -> bool {
    publish_batch(alloc, now, forest, dice, 2)
        && publish_batch(alloc, now, forest, dice, 252)
        && publish_batch(alloc, now, forest, dice, 502)
        && publish_batch(alloc, now, forest, dice, 752)
        && matches!(merge_all(forest), Ok(merges) if merges >= 10)
}

/// Whether the first version answers as the plain ledger did then, and one that is taken as it does now.
fn do_both_answer<F: Tried>(
    alloc: Global,
    then: &Plain,
    now: &Plain,
    forest: &mut F,
    dice: &mut Dice,
) -> Result<bool, Refusal> {
    let asked = questions(alloc, dice, now.ledger(), 400)?;
    let first = answers_of(alloc, forest, 0, then, asked.as_slice());
    let is_taken = does(forest, Act::Take);
    let later = answers_of(alloc, forest, 1, now, asked.as_slice());
    Ok(is_taken && first.is_right && first.rows > 100 && later.is_right && later.rows > 1000)
}

/// Whether a version that was taken after the first transfer answers as the plain ledger did then, once four batches more were
/// published and all rows were merged.
pub fn does_version_stay<F: Tried>(
    alloc: Global,
    then: &mut Plain,
    now: &mut Plain,
    forest: &mut F,
) -> Result<bool, Refusal> {
    let mut dice = Dice::new(1000);
    let has_gone_on = begin(alloc, then, now, forest, &mut dice)
        && go_on(alloc, now, forest, &mut dice);
    Ok(has_gone_on && do_both_answer(alloc, then, now, forest, &mut dice)?)
}
