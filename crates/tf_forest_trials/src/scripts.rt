//! Worked scripts and random commands, which a forest answers, and queries and look-ups of scripts, which versions answer.

use crate::publishing::run_list;
use crate::refusals::are_script_refusals_right;
use crate::tried::Tried;
use crate::worked::{REFUSED_IN_TURN, script_at, scripts};
use std::alloc::Global;
use tf_records::Refusal;
use tf_script::{Command, parse};
use tf_trials::Plain;
use tf_trials::random::commands;

/// How many lists of commands there are: those of all worked scripts, and 100 random ones.
pub fn lists_of_commands() -> usize {
    scripts().saturating_add(100)
}

/// The list of commands at a place: those of a worked script, or 20 random ones.
pub fn commands_at(alloc: Global, place: usize) -> Result<Vec<Command<Global>, Global>, Refusal> {
    match script_at(place) {
        Some(script) => parse(alloc, script.as_bytes()),
        None => commands(alloc, place.saturating_sub(scripts()) as u64, 20),
    }
}

/// Whether versions answer each query and look-up of the script at a place as the plain ledger does. Of the first ones a version of
/// the whole journal is refused memory in turn.
pub fn is_script_answered<F: Tried>(
    alloc: Global,
    plain: &mut Plain,
    forest: &mut F,
    place: usize,
) -> Result<bool, Refusal> {
    let Some(script) = script_at(place) else {
        return Ok(false);
    };
    if !run_list(alloc, plain, forest, parse(alloc, script.as_bytes()))? {
        return Ok(false);
    }
    if place < REFUSED_IN_TURN {
        return are_script_refusals_right(alloc, plain, forest);
    }
    Ok(true)
}
