//! Calls of a forest that is tried, each with its own answer.

use crate::asking::Outcome;
use crate::tried::{Act, Answered, Asked, Call, Counted, Tried};
use linked_list_allocator::LocalHeap;
use std::alloc::Global;
use tf_records::Refusal;
use tf_script::Command;
use tf_trials::{Acted, Answer};

/// Runs a batch or a pulse, and no other command.
pub fn run<F: Tried>(forest: &mut F, command: &Command<Global>) -> tf_trials::Outcome {
    match forest.call(Call::Run(command)) {
        Answered::Ran(outcome) => outcome,
        _ => Ok(Answer::Nothing),
    }
}

/// Does something with versions or merges. Tells whether what it needs was there.
pub fn act<F: Tried>(forest: &mut F, act: Act) -> Result<bool, Refusal> {
    match forest.call(Call::Act(act)) {
        Answered::Acted(Acted::Done) => Ok(true),
        Answered::Acted(Acted::Refused(refusal)) => Err(refusal),
        _ => Ok(false),
    }
}

/// Does something with versions or merges for which all that it needs is there. Tells whether it was done.
pub fn does<F: Tried>(forest: &mut F, act: Act) -> bool {
    matches!(forest.call(Call::Act(act)), Answered::Acted(Acted::Done))
}

/// How a version answers.
pub fn ask<F: Tried>(
    forest: &mut F,
    place: usize,
    question: &Command<Global>,
    expected: &Outcome<Global>,
) -> Asked {
    match forest.call(Call::Ask(place, question, expected)) {
        Answered::Asked(asked) => asked,
        _ => Asked::Wrong,
    }
}

/// How it answers with memory of a heap alone.
pub fn ask_on<F: Tried>(
    heap: &LocalHeap,
    forest: &mut F,
    place: usize,
    question: &Command<Global>,
    expected: &Outcome<Global>,
) -> Asked {
    match forest.call(Call::AskOn(heap, place, question, expected)) {
        Answered::Asked(asked) => asked,
        _ => Asked::Wrong,
    }
}

/// What the forest counts.
pub fn count<F: Tried>(forest: &mut F) -> Counted {
    match forest.call(Call::Count) {
        Answered::Counted(counted) => counted,
        _ => Counted::NOTHING,
    }
}
