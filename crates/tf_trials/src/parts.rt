//! The parts of lines: what each does with a store, or asks of it.

use crate::asks::{has_receipt, is_answered, is_counted, is_noted, note};
use crate::attempts::{Attempt, try_out};
use crate::batches::commands_in;
use crate::calls::{act, is_alike};
use crate::room::Room;
use crate::settings::{set, setting_of};
use crate::soak::soak;
use crate::trial::Trial;
use crate::tried::{Act, Acted, ROWS, Tried};
use crate::twin::Twin;
use crate::words::{Numbers, UNREADABLE, number};
use std::alloc::Global;
use tf_records::Refusal;
use tf_script::Command;

/// A part of a line, taken apart.
#[derive(Clone, Copy)]
pub struct Part<'t> {
    pub word: &'t str,
    pub rest: &'t str,
    pub answer: &'t str,
}

/// What a part is about.
#[derive(Clone, Copy)]
enum Kind {
    Attempt,
    Ask,
    Note,
    Same,
    Count,
    Receipt,
    Soak,
    /// What is done with a reader.
    Place,
    /// What is set for the parts that come next, what else the store does, or commands.
    Other,
}

/// What a part is about that begins with this word.
fn kind_of(word: &str) -> Kind {
    match word {
        "publish" | "take" | "merge" | "install" => Kind::Attempt,
        "ask" => Kind::Ask,
        "note" => Kind::Note,
        "same" => Kind::Same,
        "count" | "freed" | "used" => Kind::Count,
        "receipt" => Kind::Receipt,
        "soak" => Kind::Soak,
        "give" | "follow" => Kind::Place,
        _ => Kind::Other,
    }
}

/// Whether a part holds.
pub fn holds<F: Tried>(
    store: &mut F,
    trial: &mut Trial<'_>,
    part: Part<'_>,
) -> Result<bool, Refusal> {
    match kind_of(part.word) {
        Kind::Attempt => attempts(store, trial, part),
        Kind::Ask => is_answered(store, trial, part),
        Kind::Note => Ok(note(store, trial)),
        Kind::Same => Ok(is_noted(store, trial)),
        Kind::Count => is_counted(store, trial, part),
        Kind::Receipt => has_receipt(trial, part),
        Kind::Soak => soak(store, trial, number(trial.numbers, part.rest)?),
        Kind::Place => acts_at(store, trial.numbers, part),
        Kind::Other => match setting_of(part.word) {
            Some(setting) => set(trial, setting, part),
            None => acts_or_runs(store, trial, part),
        },
    }
}

/// Whether a call that takes memory is answered so.
fn attempts<F: Tried>(
    store: &mut F,
    trial: &mut Trial<'_>,
    part: Part<'_>,
) -> Result<bool, Refusal> {
    let attempt = attempt_in(trial.numbers, part)?;
    try_out(
        store,
        &mut trial.twin,
        &mut trial.room,
        attempt,
        part.answer,
    )
}

/// The call of a part: a version is taken, a run of a row is merged or installed, or a publish, of which the reader may learn that
/// it names.
fn attempt_in<'a>(numbers: Numbers, part: Part<'_>) -> Result<Attempt<'a>, Refusal> {
    let place = number(numbers, part.rest)? as usize;
    match part.word {
        "take" => Ok(Attempt::Act(Act::Take)),
        "install" => Ok(Attempt::Act(Act::Install)),
        "merge" if place < ROWS => Ok(Attempt::Act(Act::Merge(place))),
        "merge" => Err(UNREADABLE),
        _ if part.rest.is_empty() => Ok(Attempt::Publish(None)),
        _ => Ok(Attempt::Publish(Some(place))),
    }
}

/// Whether what the store does, or the commands of a part, answer so.
fn acts_or_runs<F: Tried>(
    store: &mut F,
    trial: &mut Trial<'_>,
    part: Part<'_>,
) -> Result<bool, Refusal> {
    match act_of(part.word) {
        Some(asked) => Ok(act(store, asked).is(part.answer)),
        None => runs(store, trial, part),
    }
}

/// What a word says is done with the store, which names no place.
fn act_of(word: &str) -> Option<Act> {
    match word {
        "let_taken" => Some(Act::LetTakenGo),
        "let_given" => Some(Act::LetGivenGo),
        "show" => Some(Act::ShowMerged),
        _ => None,
    }
}

/// Whether what is done with a reader is answered so.
fn acts_at<F: Tried>(store: &mut F, numbers: Numbers, part: Part<'_>) -> Result<bool, Refusal> {
    let place = number(numbers, part.rest)? as usize;
    let asked = match part.word {
        "give" => Act::Give(place),
        _ => Act::Follow(place),
    };
    Ok(act(store, asked).is(part.answer))
}

/// Whether the commands of a part answer so, on both.
fn runs<F: Tried>(store: &mut F, trial: &mut Trial<'_>, part: Part<'_>) -> Result<bool, Refusal> {
    let commands = commands_in(trial.twin.alloc, trial.numbers, part.word, part.rest)?;
    run_commands(
        store,
        &mut trial.twin,
        &mut trial.room,
        &commands,
        part.answer,
    )
}

/// Runs commands on both, whose answers are those of a word.
fn run_commands<F: Tried>(
    store: &mut F,
    twin: &mut Twin,
    room: &mut Room<'_>,
    commands: &Vec<Command<Global>, Global>,
    answer: &str,
) -> Result<bool, Refusal> {
    let mut holds = true;
    for command in commands {
        holds &= run_command(store, twin, room, command, answer)?;
    }
    Ok(holds)
}

/// Runs a command on both.
fn run_command<F: Tried>(
    store: &mut F,
    twin: &mut Twin,
    room: &mut Room<'_>,
    command: &Command<Global>,
    answer: &str,
) -> Result<bool, Refusal> {
    match command {
        Command::Publish => try_out(store, twin, room, Attempt::Publish(None), "any"),
        Command::Compact => Ok(merge_all(store) && is_alike(store, twin)),
        _ => try_out(store, twin, room, Attempt::Run(command), answer),
    }
}

/// Merges the runs of all rows until none has one.
fn merge_all<F: Tried>(store: &mut F) -> bool {
    for row in 0..ROWS {
        if !merge_row(store, row) {
            return false;
        }
    }
    true
}

/// Merges the runs of a row until it has none.
fn merge_row<F: Tried>(store: &mut F, row: usize) -> bool {
    for _ in 0..1000u32 {
        match act(store, Act::Merge(row)) {
            Acted::Nothing => return true,
            Acted::Refused(_) => return false,
            Acted::Done => {}
        }
        if !act(store, Act::Install).is("done") {
            return false;
        }
    }
    false
}
