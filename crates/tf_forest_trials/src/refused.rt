//! Requests for memory of a ledger that are refused in turn.
ghost use Rattle.tf_journal.specs.Lawful.{IsLawfulAt};

use crate::ledgers::run;
use crate::look_ups::{are_all_alike, is_alike};
use crate::tried::Asked;
use linked_list_allocator::LocalHeap;
use std::alloc::{AllocError, Global};
use tf_journal::Ledger;
use tf_records::Refusal;
use tf_script::Command;
use tf_trials::{Outcome, Plain, is_same, take_all_but};

/// How many bytes more are free at each further try.
const STEP: usize = 48;

/// Bytes of a heap on which all has room.
pub const AMPLE: usize = 1 << 20;

/// Runs a command on a ledger, while no more than so many bytes in one piece are free of its heap.
fn run_in_room<M: Ledger>(
    alloc: Global,
    heap: &LocalHeap,
    forest: &mut M,
    command: &Command<Global>,
    room: usize,
) -> Result<Outcome, AllocError>
    requires { IsLawfulAt (M.clock forest.old) (M.journal forest.old) }
    ensures { IsLawfulAt (M.clock forest.new) (M.journal forest.new) }
{
    let mut taken = Vec::new(alloc);
    take_all_but(&mut taken, heap, room)?;
    let outcome = run(alloc, heap, forest, command);
    drop(taken);
    Ok(outcome)
}

/// How a forest answers a command, where the plain ledger, which runs it where the forest isn't refused memory, answers so.
fn compared(
    alloc: Global,
    plain: &mut Plain,
    command: &Command<Global>,
    outcome: &Outcome,
) -> Asked {
    if matches!(outcome, Err(Refusal::NoMemory)) {
        return Asked::NoMemory;
    }
    if is_same(outcome, &plain.run(alloc, command)) {
        Asked::Expected
    } else {
        Asked::Wrong
    }
}

/// The same with so much room.
fn answered_in_room<M: Ledger>(
    alloc: Global,
    heap: &LocalHeap,
    plain: &mut Plain,
    forest: &mut M,
    command: &Command<Global>,
    room: usize,
) -> Result<Asked, AllocError>
    requires { IsLawfulAt (M.clock forest.old) (M.journal forest.old) }
    ensures { IsLawfulAt (M.clock forest.new) (M.journal forest.new) }
{
    let outcome = run_in_room(alloc, heap, forest, command, room)?;
    let asked = compared(alloc, plain, command, &outcome);
    drop(outcome);
    Ok(asked)
}

/// Runs a command on a forest, whose heap has hardly any room at first and then more and more, until it isn't refused any more.
/// After each refusal all look-ups are those of the plain ledger, which didn't run it. Tells how often it was refused, or None
/// where a look-up or the answer is another one.
fn refusals<M: Ledger>(
    alloc: Global,
    heap: &LocalHeap,
    plain: &mut Plain,
    forest: &mut M,
    command: &Command<Global>,
) -> Result<Option<usize>, AllocError>
    requires { IsLawfulAt (M.clock forest.old) (M.journal forest.old) }
    ensures { IsLawfulAt (M.clock forest.new) (M.journal forest.new) }
{
    for refused in 0..AMPLE / STEP {
        match answered_in_room(alloc, heap, plain, forest, command, refused * STEP)? {
            Asked::NoMemory => {}
            Asked::Expected => return Ok(Some(refused)),
            Asked::Wrong => return Ok(None),
        }
        if !is_alike(plain.ledger(), forest, command) {
            return Ok(None);
        }
    }
    Ok(None)
}

/// A forest and an empty plain ledger answer each command alike, though the forest is refused memory in turn before it answers.
/// Tells how often that was, or None where they answer otherwise.
pub fn refused_in_turn<M: Ledger>(
    alloc: Global,
    heap: &LocalHeap,
    forest: &mut M,
    commands: &[Command<Global>],
) -> Result<Option<usize>, Refusal>
    requires { IsLawfulAt (M.clock forest.old) (M.journal forest.old) }
{
    let mut plain = Plain::new(alloc);
    let mut all: usize = 0;
    for command in commands {
        let Some(refused) = refusals(alloc, heap, &mut plain, forest, command)? else {
            return Ok(None);
        };
        if !are_all_alike(plain.ledger(), forest, commands) {
            return Ok(None);
        }
        all = all.saturating_add(refused);
    }
    Ok(Some(all))
}
