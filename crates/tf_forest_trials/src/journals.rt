//! Random journals, and random queries and look-ups of them.

use crate::asking::answers_of;
use crate::calls::does;
use crate::merges::{merge_all, merge_some};
use crate::publishing::run_published;
use crate::questions::questions;
use crate::tried::{Act, Tried};
use std::alloc::Global;
use tf_records::Refusal;
use tf_script::Command;
use tf_trials::random::commands;
use tf_trials::{Dice, Plain};

/// Runs commands, three at a time, with merges after each three.
fn run_by_threes<F: Tried>(
    alloc: Global,
    plain: &mut Plain,
    forest: &mut F,
    dice: &mut Dice,
    commands: &[Command<Global>],
) -> bool {
    for some in commands.chunks(3) {
        if !(run_published(alloc, plain, forest, some, 0) && merge_some(forest, dice, 10).is_ok()) {
            return false;
        }
    }
    true
}

/// Runs the commands of a random journal so.
fn run_journal<F: Tried>(
    alloc: Global,
    plain: &mut Plain,
    forest: &mut F,
    dice: &mut Dice,
    seed: u64,
) -> Result<bool, Refusal> {
    let commands = commands(alloc, seed, 9)?;
    let is_run = run_by_threes(alloc, plain, forest, dice, commands.as_slice());
    drop(commands);
    Ok(is_run)
}

/// Takes a version, the last of so many and one, and asks it.
fn take_and_ask<F: Tried>(
    alloc: Global,
    plain: &Plain,
    forest: &mut F,
    asked: &[Command<Global>],
    place: usize,
) -> bool {
    does(forest, Act::Take) && answers_of(alloc, forest, place, plain, asked).is_right
}

/// Whether versions answer these commands as the plain ledger does, before merges, after some in any order, and after all. The
/// first of them is asked at the end.
fn are_versions_right<F: Tried>(
    alloc: Global,
    plain: &Plain,
    forest: &mut F,
    dice: &mut Dice,
    asked: &[Command<Global>],
) -> bool {
    does(forest, Act::Take)
        && take_and_ask(alloc, plain, forest, asked, 1)
        && merge_some(forest, dice, 30).is_ok()
        && take_and_ask(alloc, plain, forest, asked, 2)
        && merge_all(forest).is_ok()
        && take_and_ask(alloc, plain, forest, asked, 3)
        && answers_of(alloc, forest, 0, plain, asked).is_right
}

/// Whether versions of a random journal answer random queries and look-ups as the plain ledger does.
pub fn is_journal_answered<F: Tried>(
    alloc: Global,
    plain: &mut Plain,
    forest: &mut F,
    seed: u64,
) -> Result<bool, Refusal> {
    let mut dice = Dice::new(seed.wrapping_add(1 << 40));
    if !run_journal(alloc, plain, forest, &mut dice, seed)? {
        return Ok(false);
    }
    let asked = questions(alloc, &mut dice, plain.ledger(), 32)?;
    let are_right = are_versions_right(alloc, plain, forest, &mut dice, asked.as_slice());
    drop(asked);
    Ok(are_right)
}
