//! Calls that take memory, tried until they are given enough.

use crate::calls::{act, count, is_alike, publish, run};
use crate::outcomes::is_refusal;
use crate::plain::Outcome;
use crate::room::Room;
use crate::tried::{Act, Acted, Counted, Tried};
use crate::twin::Twin;
use crate::words::is_number;
use std::alloc::Global;
use tf_records::Refusal;
use tf_script::Command;

/// A call that takes memory.
#[derive(Clone, Copy)]
pub enum Attempt<'a> {
    /// A batch or a pulse.
    Run(&'a Command<Global>),
    /// A publish, of which a reader may learn.
    Publish(Option<usize>),
    /// A version is taken, or a run is merged or installed.
    Act(Act),
}

/// Makes a call, again with more and more room where it is refused memory and the trial says so. After each refusal all is as
/// before. Tells whether its answer is that of the word, and that of the plain ledger.
pub fn try_out<F: Tried>(
    store: &mut F,
    twin: &mut Twin,
    room: &mut Room<'_>,
    attempt: Attempt<'_>,
    word: &str,
) -> Result<bool, Refusal> {
    let growth = room.growth;
    for refused in 0..growth.tries() {
        room.limit(refused)?;
        match try_once(store, twin, room, attempt, word) {
            Ok(None) => {}
            Ok(Some(is_right)) => return Ok(is_right && refused >= growth.refusals),
            Err(refusal) => return Err(refusal),
        }
    }
    Ok(is_refusal(Refusal::NoMemory, word))
}

/// Makes a call in the room that it is given. None where it is refused memory and leaves all as it was.
fn try_once<F: Tried>(
    store: &mut F,
    twin: &mut Twin,
    room: &mut Room<'_>,
    attempt: Attempt<'_>,
    word: &str,
) -> Result<Option<bool>, Refusal> {
    let before = count(store, twin);
    let answered = answered(store, twin, attempt, word);
    room.end_limit();
    match answered {
        Ok(Some(true)) => Ok(Some(is_alike(store, twin))),
        Ok(None) if !is_as_before(store, twin, attempt, &before) => Ok(Some(false)),
        _ => answered,
    }
}

/// Whether a call is answered as a word says, or None where it was refused memory.
fn answered<F: Tried>(
    store: &mut F,
    twin: &mut Twin,
    attempt: Attempt<'_>,
    word: &str,
) -> Result<Option<bool>, Refusal> {
    match attempt {
        Attempt::Run(command) => has_run(store, twin, command, word),
        Attempt::Publish(learner) => Ok(has_published(store, twin, learner, word)),
        Attempt::Act(asked) => Ok(has_acted(store, asked, word)),
    }
}

/// The same of a batch or a pulse: whether its outcome is that of the plain ledger too.
fn has_run<F: Tried>(
    store: &mut F,
    twin: &mut Twin,
    command: &Command<Global>,
    word: &str,
) -> Result<Option<bool>, Refusal> {
    let outcome = run(store, twin.share, command);
    let acted = acted_by(&outcome);
    if is_short(acted) {
        return Ok(None);
    }
    let is_right = twin.follow(&outcome, command)?;
    Ok(Some(is_right && acted.is(word)))
}

/// What became of a batch or a pulse.
fn acted_by(outcome: &Outcome) -> Acted {
    match outcome {
        Ok(_) => Acted::Done,
        Err(refusal) => Acted::Refused(*refusal),
    }
}

/// Whether memory was refused.
fn is_short(acted: Acted) -> bool {
    matches!(acted, Acted::Refused(Refusal::NoMemory))
}

/// The same of a publish: whether as many receipts as a word says are handed out, those of all batches that waited.
pub fn has_published<F: Tried>(
    store: &mut F,
    twin: &mut Twin,
    learner: Option<usize>,
    word: &str,
) -> Option<bool> {
    match publish(store, learner) {
        Ok(told) => {
            let is_counted = word == "any" || is_number(word, told.len());
            Some(twin.is_told(told) && is_counted)
        }
        Err(Refusal::NoMemory) => None,
        Err(refusal) => Some(is_refusal(refusal, word)),
    }
}

/// The same of what is done with versions or merges.
pub fn has_acted<F: Tried>(store: &mut F, asked: Act, word: &str) -> Option<bool> {
    let acted = act(store, asked);
    if is_short(acted) {
        None
    } else {
        Some(acted.is(word))
    }
}

/// Whether a call that was refused memory has left all as it was, but for tables that were pushed for what is published.
pub fn is_as_before<F: Tried>(
    store: &mut F,
    twin: &Twin,
    attempt: Attempt<'_>,
    before: &Counted,
) -> bool {
    let counted = count(store, twin);
    let is_same = match attempt {
        Attempt::Publish(_) | Attempt::Act(Act::Take) => has_only_pushed(&counted, before),
        _ => counted == *before,
    };
    is_same && is_alike(store, twin)
}

/// Whether a store counts the same as before, but for tables that were pushed and that no row has.
fn has_only_pushed(counted: &Counted, before: &Counted) -> bool {
    counted.references == before.references
        && counted.registered >= before.registered
        && counted.rows_held <= counted.rows_sealed.wrapping_mul(21)
}
