//! Batches over any ledger.

ghost use Rattle.std.specs.Prelude.{◌≡◌, ◌≤◌, ◌+◌, length, Ok, Err, OnOk, OnErr, IfOk, MatchOption};
ghost use Rattle.tf_journal.specs.Lawful.{AreChained, IsLawfulAt};
ghost use Rattle.tf_events.specs.Batch.{IsBatchRun, batch_clock, batch_refusal, chains_of, chains_step, placed};
ghost use Rattle.tf_events.specs.Chain.{accounts, transfers};
ghost use Rattle.tf_events.specs.Walk.{GoesOn, IsSoundAt};

use crate::chain::run_chain;
use crate::cut::chain_len;
use crate::event::Event;
use std::alloc::Allocator;
use tf_journal::Ledger;
use tf_records::{Account, BATCH_MAX, Failure, Refusal, Reply, TIMESTAMP_MAX, Transfer};

/// The clock after a batch of so many events, or why the batch is refused: as [`run_accounts`] and [`run_transfers`] test it
/// first. Takes no memory.
pub fn clock_after(clock: u64, count: usize, now: u64) -> Result<u64, Refusal>
    ensures { MatchOption (batch_refusal clock count now) (result ≡ Ok (batch_clock clock count now)) (λ refusal. result ≡ Err refusal) }
{
    if count > BATCH_MAX as usize {
        return Err(Refusal::BatchTooLarge);
    }
    let start = now.max(clock);
    let count = count as u64;
    if start > TIMESTAMP_MAX - count {
        return Err(Refusal::ClockExhausted);
    }
    Ok(start + count)
}

/// Runs the chains of a batch one after another, the first event at the timestamp after `before`.
fn run_events<E: Event, L: Ledger, A: Allocator>(
    alloc: A,
    ledger: &mut L,
    events: &[E],
    before: u64,
) -> Result<Vec<Failure, A>, Refusal>
    requires sound { IsSoundAt before (L.journal ledger.old) }
    requires chained { AreChained (L.journal ledger.old) }
    requires size { length events.now ≤ BATCH_MAX }
    requires in_range { before + length events.now ≤ TIMESTAMP_MAX }
    ensures stored { OnOk result (L.journal ledger.new
        ≡ (chains_step E.kind (L.journal ledger.old) (chains_of E.kind (placed 0 (before + 1) events.now))).journal) }
    ensures noted { IfOk result (λ failures. failures.items
        ≡ (chains_step E.kind (L.journal ledger.old) (chains_of E.kind (placed 0 (before + 1) events.now))).failures) }
    ensures sound { OnOk result (IsSoundAt (before + length events.now) (L.journal ledger.new)) }
    ensures chained { OnOk result (AreChained (L.journal ledger.new)) }
    ensures goes_on { GoesOn L.journal L.clock L.kept ledger.old ledger.new result }
    ensures rest { L.rest ledger.new ≡ L.rest ledger.old }
{
    let mut failures = Vec::new(alloc);
    let mut start = 0;
    while start < events.len() {
        let rest = &events[start..];
        let len = chain_len(rest);
        run_chain(
            ledger,
            &mut failures,
            &rest[..len],
            start as u32,
            before + start as u64,
        )?;
        start += len;
    }
    Ok(failures)
}

/// Runs a batch of one kind of events.
fn run_batch<E: Event, L: Ledger, A: Allocator>(
    alloc: A,
    ledger: &mut L,
    events: &[E],
    now: u64,
) -> Result<Reply<A>, Refusal>
    requires { IsLawfulAt (L.clock ledger.old) (L.journal ledger.old) }
    ensures run { IsBatchRun E.kind L.journal L.clock L.kept ledger.old ledger.new events.now now result }
    ensures lasting { L.lasting (L.rest ledger.new) ≡ L.lasting (L.rest ledger.old) }
    ensures refused { OnErr result (L.rest ledger.new ≡ L.rest ledger.old) }
{
    let before = now.max(ledger.clock());
    let clock = clock_after(ledger.clock(), events.len(), now)?;
    let mark = ledger.mark();
    match run_events(alloc, ledger, events, before) {
        Ok(failures) => {
            ledger.keep(clock);
            Ok(Reply::from_vec(failures))
        }
        Err(refusal) => {
            ledger.undo(mark);
            Err(refusal)
        }
    }
}

/// Runs a batch of accounts: event i of n gets the timestamp of the later of the clock and `now`, plus i + 1.
/// The batch is cut into chains: a linked event stands or falls with the next one. Each event is judged after
/// all that is stored and the events before it in its chain. If all events of a chain are ok and the batch
/// doesn't end within it, all are stored, else none: the first that fails has its own result, the others
/// `linked_event_failed`, and the last event of the batch, where it is linked, `linked_event_chain_open`. The
/// clock moves by n, also where events failed. The reply names the events that weren't stored.
///
/// Times are nanoseconds. [`Refusal::BatchTooLarge`]: more than [`BATCH_MAX`] events, which is tested first;
/// [`Refusal::ClockExhausted`]: the clock would pass [`TIMESTAMP_MAX`]; [`Refusal::NoMemory`]. After a refusal
/// all is as it was. Costs a verdict for each event, and memory for the entries and the failures alone. As
/// `create_accounts` of TigerBeetle's reference.
pub fn run_accounts<L: Ledger, A: Allocator>(
    alloc: A,
    ledger: &mut L,
    events: &[Account],
    now: u64,
) -> Result<Reply<A>, Refusal>
    requires { IsLawfulAt (L.clock ledger.old) (L.journal ledger.old) }
    ensures run { IsBatchRun accounts L.journal L.clock L.kept ledger.old ledger.new events.now now result }
    ensures lasting { L.lasting (L.rest ledger.new) ≡ L.lasting (L.rest ledger.old) }
    ensures refused { OnErr result (L.rest ledger.new ≡ L.rest ledger.old) }
{
    run_batch(alloc, ledger, events, now)
}

/// Runs a batch of transfers, as [`run_accounts`] runs one of accounts. Where the event that fails by itself
/// fails for a passing reason, its id stays failed from then on, also where its chain is open.
///
/// Times are nanoseconds. [`Refusal::BatchTooLarge`]: more than [`BATCH_MAX`] events, which is tested first;
/// [`Refusal::ClockExhausted`]: the clock would pass [`TIMESTAMP_MAX`]; [`Refusal::NoMemory`]. After a refusal
/// all is as it was. Costs a verdict for each event, and memory for the entries and the failures alone. As
/// `create_transfers` of TigerBeetle's reference.
pub fn run_transfers<L: Ledger, A: Allocator>(
    alloc: A,
    ledger: &mut L,
    events: &[Transfer],
    now: u64,
) -> Result<Reply<A>, Refusal>
    requires { IsLawfulAt (L.clock ledger.old) (L.journal ledger.old) }
    ensures run { IsBatchRun transfers L.journal L.clock L.kept ledger.old ledger.new events.now now result }
    ensures lasting { L.lasting (L.rest ledger.new) ≡ L.lasting (L.rest ledger.old) }
    ensures refused { OnErr result (L.rest ledger.new ≡ L.rest ledger.old) }
{
    run_batch(alloc, ledger, events, now)
}
