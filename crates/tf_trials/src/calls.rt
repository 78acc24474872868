//! Calls of a store that is tried, each with its own answer.

use crate::plain::{Answer, Outcome, Plain};
use crate::tried::{Act, Acted, Answered, Call, Counted, Tally, Told, Tried, Whom};
use crate::twin::Twin;
use std::alloc::Global;
use tf_records::Refusal;
use tf_script::Command;

/// Runs a batch or a pulse with a share, and no other command. The first share is 0.
pub fn run<F: Tried>(store: &mut F, share: usize, command: &Command<Global>) -> Outcome {
    match store.call(Call::Run(share, command)) {
        Answered::Ran(outcome) => outcome,
        _ => Ok(Answer::Nothing),
    }
}

/// Publishes. A reader may learn of the last receipt.
pub fn publish<F: Tried>(
    store: &mut F,
    learner: Option<usize>,
) -> Result<Vec<Told, Global>, Refusal> {
    match store.call(Call::Publish(learner)) {
        Answered::Published(told) => told,
        _ => Err(Refusal::Stale),
    }
}

/// Does something with versions, readers or merges.
pub fn act<F: Tried>(store: &mut F, act: Act) -> Acted {
    match store.call(Call::Act(act)) {
        Answered::Acted(acted) => acted,
        _ => Acted::Nothing,
    }
}

/// How many rows a version answers, and whether they are those of the plain ledger.
pub fn ask<F: Tried>(store: &mut F, whom: Whom, plain: &Plain) -> Tally {
    match store.call(Call::Ask(whom, plain)) {
        Answered::Asked(tally) => tally,
        _ => Tally::WRONG,
    }
}

/// Whether the store's look-ups are those of the plain ledger, unless no ids are to be looked up.
pub fn is_alike<F: Tried>(store: &mut F, twin: &Twin) -> bool {
    twin.ids == 0 || is_like(store, twin.plain(), twin.ids)
}

/// Whether the store's look-ups, of so many ids, are those of the plain ledger.
fn is_like<F: Tried>(store: &mut F, plain: &Plain, ids: u32) -> bool {
    match store.call(Call::Compare(plain, ids)) {
        Answered::Compared(is_alike) => is_alike,
        _ => false,
    }
}

/// What the store counts, and what the share does that stores what comes next.
pub fn count<F: Tried>(store: &mut F, twin: &Twin) -> Counted {
    match store.call(Call::Count(twin.share)) {
        Answered::Counted(counted) => counted,
        _ => Counted::NOTHING,
    }
}
