//! One chain of events: stored as a whole, or not at all.

ghost use Rattle.std.specs.Prelude.{◌≡◌, ℕ, ◌<◌, ◌≤◌, ◌+◌, ◌-◌, ◌++◌, ◌∷◌, [], length, vec_len, Some, None, Ok, Err, IsTrue, OnOk, OnErr, IfOk, IfErr, IfSome};
ghost use Rattle.std.specs.List.{All};
ghost use Rattle.std.specs.Option.{option_map};
ghost use Rattle.tf_journal.specs.Journal.{IsUpTo};
ghost use Rattle.tf_journal.specs.Lawful.{IsAdmitted};
ghost use Rattle.tf_journal.specs.Ledger.{CanGrow, IsAddition};
ghost use Rattle.tf_events.specs.Batch.{chains_of, chains_step, placed};
ghost use Rattle.tf_events.specs.Chain.{chain_step, entries_left, failures_of, first_failure, with_events};
ghost use Rattle.tf_events.specs.Walk.{Extends, GoesOn, IsSoundAt, IsStepTaken, chain_length, own_failure_of};

use crate::event::Event;
use crate::own_fault::OwnFault;
use std::alloc::Allocator;
use tf_journal::{Entry, Ledger};
use tf_records::{BATCH_MAX, Failure, Outcome, Refusal, TIMESTAMP_MAX};

/// Stores an entry, which the journal admits.
fn add_entry<L: Ledger>(ledger: &mut L, entry: Entry) -> Result<(), Refusal>
    requires { CanGrow (L.journal ledger.old) entry }
    ensures addition { IsAddition L.journal L.clock L.kept ledger.old ledger.new entry result }
    ensures rest { L.rest ledger.new ≡ L.rest ledger.old }
{
    match entry {
        Entry::Account(account) => ledger.add_account(account),
        Entry::Transfer(transfer) => ledger.add_transfer(transfer),
        Entry::Expiry { timestamp, pending } => ledger.add_expiry(timestamp, pending),
        Entry::Failed { timestamp, id } => ledger.add_failed(timestamp, id),
    }
}

/// Adds a failed event to the failures.
fn note<A: Allocator>(
    failures: &mut Vec<Failure, A>,
    index: u32,
    outcome: Outcome,
) -> Result<(), Refusal>
    ensures noted { OnOk result (failures.new.items
        ≡ failures.old.items ++ record { index = index; outcome = outcome } ∷ []) }
    ensures refusal { IfErr result (λ refusal. refusal ≡ Refusal.NoMemory) }
{
    failures.push(Failure { index, outcome })?;
    Ok(())
}

/// Judges and stores events one after another, the first at the timestamp after `before`, up to the
/// first that isn't ok.
fn store_events<E: Event, L: Ledger>(
    ledger: &mut L,
    events: &[E],
    index: u32,
    before: u64,
) -> Result<Option<OwnFault<E>>, Refusal>
    requires sound { IsSoundAt before (L.journal ledger.old) }
    requires size { index + length events.now ≤ BATCH_MAX }
    requires in_range { before + length events.now ≤ TIMESTAMP_MAX }
    ensures own { IfOk result (λ own. option_map own_failure_of own
        ≡ first_failure E.kind (L.journal ledger.old) (placed index (before + 1) events.now)) }
    ensures stored { result ≡ Ok None → L.journal ledger.new
        ≡ with_events E.kind (L.journal ledger.old) (placed index (before + 1) events.now) }
    ensures left { IfOk result (λ own. All (IsAdmitted (L.journal ledger.old))
        (entries_left E.kind (option_map own_failure_of own))) }
    ensures after { IfOk result (λ own. IfSome own (λ o. before < o.timestamp)) }
    ensures within { IfOk result (λ own. IfSome own (λ o. o.timestamp ≤ before + length events.now)) }
    ensures sound { OnOk result (IsSoundAt (before + length events.now) (L.journal ledger.new)) }
    ensures goes_on { GoesOn L.journal L.clock L.kept ledger.old ledger.new result }
    ensures rest { L.rest ledger.new ≡ L.rest ledger.old }
{
    for (i, event) in events.iter().enumerate() {
        let timestamp = before + 1 + i as u64;
        match event.judge(ledger, timestamp) {
            Ok(entry) => add_entry(ledger, entry)?,
            Err(outcome) => {
                let index = index + i as u32;
                return Ok(Some(OwnFault {
                    index,
                    timestamp,
                    event: *event,
                    outcome,
                }));
            }
        }
    }
    Ok(None)
}

/// Stores what the event that failed by itself leaves, if one did and leaves something.
fn leave<E: Event, L: Ledger>(ledger: &mut L, own: &Option<OwnFault<E>>) -> Result<(), Refusal>
    requires { All (CanGrow (L.journal ledger.old)) (entries_left E.kind (option_map own_failure_of own.now)) }
    ensures stored { OnOk result (L.journal ledger.new
        ≡ L.journal ledger.old ++ entries_left E.kind (option_map own_failure_of own.now)) }
    ensures goes_on { GoesOn L.journal L.clock L.kept ledger.old ledger.new result }
    ensures rest { L.rest ledger.new ≡ L.rest ledger.old }
{
    let Some(own) = own else {
        return Ok(());
    };
    match own.event.left_by(own.timestamp, own.outcome) {
        Some(entry) => add_entry(ledger, entry),
        None => Ok(()),
    }
}

/// Notes the events of a chain that isn't stored: the one that failed by itself with its own result.
fn note_events<E: Event, A: Allocator>(
    failures: &mut Vec<Failure, A>,
    own: &Option<OwnFault<E>>,
    events: &[E],
    index: u32,
) -> Result<(), Refusal>
    requires size { index + length events.now ≤ BATCH_MAX }
    ensures noted { OnOk result ((timestamp : ℕ) → failures.new.items ≡ failures.old.items
        ++ failures_of (option_map own_failure_of own.now) (placed index timestamp events.now)) }
    ensures refusal { IfErr result (λ refusal. refusal ≡ Refusal.NoMemory) }
{
    for i in 0..events.len() {
        let index = index + i as u32;
        let outcome = match own {
            Some(own) if own.index == index => own.outcome,
            _ => Outcome::LinkedEventFailed,
        };
        note(failures, index, outcome)?;
    }
    Ok(())
}

/// Runs a chain that ends with an event that isn't linked.
fn run_closed_chain<E: Event, L: Ledger, A: Allocator>(
    ledger: &mut L,
    failures: &mut Vec<Failure, A>,
    events: &[E],
    index: u32,
    before: u64,
) -> Result<(), Refusal>
    requires sound { IsSoundAt before (L.journal ledger.old) }
    requires size { index + length events.now ≤ BATCH_MAX }
    requires in_range { before + length events.now ≤ TIMESTAMP_MAX }
    ensures step { OnOk result (IsStepTaken
        (chain_step E.kind (L.journal ledger.old) (record { events = placed index (before + 1) events.now; open_end = None }))
        (L.journal ledger.new) failures.old.items failures.new.items) }
    ensures sound { OnOk result (IsSoundAt (before + length events.now) (L.journal ledger.new)) }
    ensures goes_on { GoesOn L.journal L.clock L.kept ledger.old ledger.new result }
    ensures rest { L.rest ledger.new ≡ L.rest ledger.old }
{
    let mark = ledger.mark();
    let own = store_events(ledger, events, index, before)?;
    if own.is_none() {
        return Ok(());
    }
    ledger.undo(mark);
    leave(ledger, &own)?;
    note_events(failures, &own, events, index)
}

/// Runs a chain that the end of its batch leaves open: these events, and a last one that is linked too.
fn run_open_chain<E: Event, L: Ledger, A: Allocator>(
    ledger: &mut L,
    failures: &mut Vec<Failure, A>,
    events: &[E],
    index: u32,
    before: u64,
) -> Result<(), Refusal>
    requires sound { IsSoundAt before (L.journal ledger.old) }
    requires size { index + length events.now < BATCH_MAX }
    requires in_range { before + length events.now < TIMESTAMP_MAX }
    ensures step { (timestamp : ℕ) (last : E) → OnOk result (IsStepTaken
        (chain_step E.kind (L.journal ledger.old) (record {
          events = placed index (before + 1) events.now;
          open_end = Some (record { index = index + length events.now; timestamp = timestamp; event = last });
        }))
        (L.journal ledger.new) failures.old.items failures.new.items) }
    ensures sound { OnOk result (IsSoundAt (before + length events.now) (L.journal ledger.new)) }
    ensures goes_on { GoesOn L.journal L.clock L.kept ledger.old ledger.new result }
    ensures rest { L.rest ledger.new ≡ L.rest ledger.old }
{
    let mark = ledger.mark();
    let own = store_events(ledger, events, index, before)?;
    ledger.undo(mark);
    leave(ledger, &own)?;
    note_events(failures, &own, events, index)?;
    note(
        failures,
        index + events.len() as u32,
        Outcome::LinkedEventChainOpen,
    )
}

/// Runs one chain of a batch, the whole of it or as far as the batch goes.
pub fn run_chain<E: Event, L: Ledger, A: Allocator>(
    ledger: &mut L,
    failures: &mut Vec<Failure, A>,
    chain: &[E],
    index: u32,
    before: u64,
) -> Result<(), Refusal>
    requires sound { IsSoundAt before (L.journal ledger.old) }
    requires one { chain_length E.kind chain.now ≡ length chain.now }
    requires some { 0 < length chain.now }
    requires size { index + length chain.now ≤ BATCH_MAX }
    requires in_range { before + length chain.now ≤ TIMESTAMP_MAX }
    ensures step { OnOk result (IsStepTaken
        (chains_step E.kind (L.journal ledger.old) (chains_of E.kind (placed index (before + 1) chain.now)))
        (L.journal ledger.new) failures.old.items failures.new.items) }
    ensures sound { OnOk result (IsSoundAt (before + length chain.now) (L.journal ledger.new)) }
    ensures goes_on { GoesOn L.journal L.clock L.kept ledger.old ledger.new result }
    ensures rest { L.rest ledger.new ≡ L.rest ledger.old }
{
    let last = chain.len() - 1;
    if chain[last].is_linked() {
        run_open_chain(ledger, failures, &chain[..last], index, before)
    } else {
        run_closed_chain(ledger, failures, chain, index, before)
    }
}
