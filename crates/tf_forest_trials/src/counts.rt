//! What publishes and merges count, and the limit of the tables that they push.

use crate::calls::{act, count, does, run};
use crate::merges::merge_all;
use crate::stays::batch;
use crate::tried::{Act, Counted, Tried};
use std::alloc::Global;
use tf_records::{Refusal, Transfer};
use tf_script::Command;
use tf_trials::random::{first_accounts, transfer_event};
use tf_trials::{Answer, Dice, Outcome};

/// Whether no row of a forest has more than 64 tables, and what was counted is within its bounds.
fn is_within_bounds(counted: &Counted) -> bool {
    let mut references: u64 = 0;
    for count in counted.references {
        if count > 64 {
            return false;
        }
        references = references.wrapping_add(u64::from(count));
    }
    let pushed = u64::from(counted.pushed);
    references.wrapping_add(pushed) <= counted.publishes.wrapping_mul(42)
        && counted.rows_held <= counted.rows_sealed.wrapping_mul(21)
}

/// A batch of one transfer, which isn't pending, to an account with history.
fn one_transfer(alloc: Global) -> Result<Command<Global>, Refusal> {
    let mut events = Vec::new(alloc);
    events.push(Transfer {
        debit_account_id: 1,
        credit_account_id: 3,
        amount: 10,
        ..transfer_event(&mut Dice::new(1), 1)
    })?;
    Ok(Command::Transfers { now: 0, events })
}

/// Whether a batch was run.
fn is_of_batch(outcome: &Outcome) -> bool {
    matches!(outcome, Ok(Answer::Batch(_)))
}

/// Runs a batch, where it could be made, and tells whether it was.
fn is_run<F: Tried>(forest: &mut F, batch: Result<Command<Global>, Refusal>) -> bool {
    let Ok(batch) = batch else {
        return false;
    };
    let outcome = run(forest, &batch);
    let is_run = is_of_batch(&outcome);
    drop(outcome);
    drop(batch);
    is_run
}

/// Stores a transfer with this id in a batch of its own, and publishes it.
fn publish_one<F: Tried>(alloc: Global, forest: &mut F, dice: &mut Dice, id: u64) -> bool {
    is_run(forest, batch(alloc, dice, id, 1))
        && does(forest, Act::Publish)
        && is_within_bounds(&count(forest))
}

/// Merges all rows. Tells how many merges there were, or None where something was out of its bounds.
fn merge_within_bounds<F: Tried>(forest: &mut F) -> Option<u32> {
    let merges = merge_all(forest).ok()?;
    is_within_bounds(&count(forest)).then_some(merges)
}

/// Publishes a thousand batches of one transfer, and merges all rows after each tenth. Tells how many merges there were, or None
/// where something was out of its bounds.
fn publish_a_thousand<F: Tried>(alloc: Global, forest: &mut F, dice: &mut Dice) -> Option<u32> {
    let mut merges: u32 = 0;
    for id in 1..1001u64 {
        if !publish_one(alloc, forest, dice, id) {
            return None;
        }
        if id % 10 == 0 {
            merges = merges.wrapping_add(merge_within_bounds(forest)?);
        }
    }
    Some(merges)
}

/// Whether bounds are kept by a thousand batches of one transfer, each published, with all rows merged after each tenth.
pub fn are_bounds_kept<F: Tried>(alloc: Global, forest: &mut F) -> bool {
    is_run(forest, first_accounts(alloc))
        && matches!(
            publish_a_thousand(alloc, forest, &mut Dice::new(17)),
            Some(merges) if merges > 10_000
        )
        && count(forest).publishes == 1000
}

/// Nothing was published.
fn are_of_nothing(counted: &Counted) -> bool {
    counted.pushed == 0
        && counted.publishes == 0
        && counted.rows_sealed == 0
        && counted.tables_of_transfers == 0
}

/// All 18 tables were published at once, and none was merged.
fn are_of_one_publish(counted: &Counted) -> bool {
    counted.pushed == 18
        && counted.publishes == 1
        && counted.rows_held == counted.rows_sealed
        && counted.tables_of_transfers == 1
}

/// Whether a publish of 18 tables went as it has to under this limit, by its answer and what was counted.
fn is_kept(limit: u32, answer: Result<bool, Refusal>, counted: &Counted) -> bool {
    match answer {
        Ok(is_published) => is_published && limit >= 18 && are_of_one_publish(counted),
        Err(refusal) => {
            limit < 18 && refusal == Refusal::RegistryFull && are_of_nothing(counted)
        }
    }
}

/// Whether accounts and a transfer of one with history, which need 18 tables, are published under a limit of 18. Under 17 the
/// registry is full, and nothing has changed.
pub fn does_limit_hold<F: Tried>(alloc: Global, forest: &mut F, limit: u32) -> bool {
    let is_stored = is_run(forest, first_accounts(alloc)) && is_run(forest, one_transfer(alloc));
    let answer = act(forest, Act::Publish);
    let counted = count(forest);
    is_stored && is_kept(limit, answer, &counted) && counted.has_first
}
