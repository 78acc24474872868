//! Forests that are published after each command.

use crate::asking::answer_of;
use crate::calls::{does, run};
use crate::tried::{Act, Tried};
use std::alloc::Global;
use tf_records::Refusal;
use tf_script::Command;
use tf_trials::{Plain, is_same};

/// Whether a forest and the plain ledger answer a command alike.
fn is_run_alike<F: Tried>(
    alloc: Global,
    plain: &mut Plain,
    forest: &mut F,
    command: &Command<Global>,
) -> bool {
    let expected = plain.run(alloc, command);
    let outcome = run(forest, command);
    let is_alike = is_same(&outcome, &expected);
    drop(outcome);
    drop(expected);
    is_alike
}

/// Runs a command on a forest of which so many versions are kept, and on the plain ledger. Then the forest is published, and
/// where the command asks for rows, a version, which is let go at once, is asked. Tells whether both answer alike.
pub fn run_one<F: Tried>(
    alloc: Global,
    plain: &mut Plain,
    forest: &mut F,
    command: &Command<Global>,
    kept: usize,
) -> bool {
    is_run_alike(alloc, plain, forest, command)
        && does(forest, Act::Take)
        && answer_of(alloc, forest, kept, plain, command).is_right
        && does(forest, Act::LetGo)
}

/// The same with several commands.
pub fn run_published<F: Tried>(
    alloc: Global,
    plain: &mut Plain,
    forest: &mut F,
    commands: &[Command<Global>],
    kept: usize,
) -> bool {
    for command in commands {
        if !run_one(alloc, plain, forest, command, kept) {
            return false;
        }
    }
    true
}

/// The same with commands that are let go then, of a forest of which no version is kept.
pub fn run_list<F: Tried>(
    alloc: Global,
    plain: &mut Plain,
    forest: &mut F,
    commands: Result<Vec<Command<Global>, Global>, Refusal>,
) -> Result<bool, Refusal> {
    let commands = commands?;
    let is_answered = run_published(alloc, plain, forest, commands.as_slice(), 0);
    drop(commands);
    Ok(is_answered)
}
