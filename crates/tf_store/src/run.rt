//! Batches and pulses over any ledger, with the shares and receipts that count and name what they store.
ghost use mathlib.Core.List.{IsPrefix};
ghost use Rattle.std.specs.Prelude.{◌≡◌, ◌+◌, ◌++◌, ◌∷◌, ◌<◌, ◌≤◌, [], length, vec_len, vec_capacity, OnOk, OnErr, IfOk, IfErr, MatchOption};
ghost use Rattle.tf_events.specs.Batch.{batch_refusal};
ghost use Rattle.tf_journal.specs.Lawful.{IsLawfulAt};
ghost use Rattle.tf_pending.specs.Pulse.{IsPulseRun};
ghost use Rattle.tf_store.specs.Book.{book_of};
ghost use Rattle.tf_store.specs.Events.{batch_of};
ghost use Rattle.tf_store.specs.Receipt.{IsRun, count_of};

use crate::queue::Queue;
use crate::receipt::Waiting;
use crate::tally::Tally;
use crate::{Events, Share, StoreName};
use std::alloc::Allocator;
use tf_events::{clock_after, run_accounts, run_transfers};
use tf_journal::Ledger;
use tf_records::{Failure, Refusal, Reply};

/// Runs a batch of either kind.
fn run_events<L: Ledger, A: Allocator + Copy>(
    alloc: A,
    ledger: &mut L,
    events: &Events<A>,
    now: u64,
) -> Result<Reply<A>, Refusal>
    requires { IsLawfulAt (L.clock ledger.old) (L.journal ledger.old) }
    ensures run { IsRun L.journal L.clock L.kept ledger.old ledger.new (batch_of events.now) now result }
    ensures lasting { L.lasting (L.rest ledger.new) ≡ L.lasting (L.rest ledger.old) }
    ensures unchanged { OnErr result (L.rest ledger.new ≡ L.rest ledger.old) }
{
    match events {
        Events::Accounts(events) => run_accounts(alloc, ledger, events.as_slice(), now),
        Events::Transfers(events) => run_transfers(alloc, ledger, events.as_slice(), now),
    }
}

/// A copy of a reply, for which there is room. It takes no memory.
fn copy_of<A: Allocator>(reply: &Reply<A>, room: Vec<Failure, A>) -> Reply<A>
    requires empty { (room.items ≡ []) × (vec_len room ≡ 0) }
    requires fits { length reply.now ≤ vec_capacity room }
    ensures { result ≡ reply.now }
{
    let mut copy = room;
    match copy.extend_from_slice(reply.as_slice()) {
        Ok(()) => Reply::from_vec(copy),
        Err(_) => unreachable!(),
    }
}

/// Room for the reply and the receipt of a batch. The batch's own refusal comes before any memory is taken.
fn make_room<A: Allocator + Copy, S: StoreName>(
    alloc: A,
    queue: &mut Queue<A, S>,
    clock: u64,
    events: &Events<A>,
    now: u64,
) -> Result<Vec<Failure, A>, Refusal>
    ensures empty { IfOk result (λ room. (room.items ≡ []) × (vec_len room ≡ 0)) }
    ensures room { IfOk result (λ room. count_of (batch_of events.now) ≤ vec_capacity room) }
    ensures place { OnOk result (length queue.new.waiting < queue.new.room) }
    ensures same { queue.new.waiting ≡ queue.old.waiting }
    ensures refused { IfErr result (λ fault. MatchOption (batch_refusal clock (count_of (batch_of events.now)) now) (fault ≡ Refusal.NoMemory) (λ due. fault ≡ due)) }
{
    clock_after(clock, events.len(), now)?;
    let room = Vec::with_capacity(alloc, events.len())?;
    queue.reserve()?;
    Ok(room)
}

/// Runs a batch, counts what it stores, and lets its receipt wait. A refusal leaves all as it was.
pub(crate) fn run_batch<L: Ledger, A: Allocator + Copy, S: StoreName>(
    alloc: A,
    ledger: &mut L,
    tally: &mut Tally<S>,
    queue: &mut Queue<A, S>,
    events: Events<A>,
    now: u64,
    share: &mut Share<S>,
) -> Result<Reply<A>, Refusal>
    requires lawful { IsLawfulAt (L.clock ledger.old) (L.journal ledger.old) }
    requires counted { tally.old ≡ book_of (L.journal ledger.old) }
    ensures run { IsRun L.journal L.clock L.kept ledger.old ledger.new (batch_of events) now result }
    ensures lasting { L.lasting (L.rest ledger.new) ≡ L.lasting (L.rest ledger.old) }
    ensures unchanged { OnErr result (L.rest ledger.new ≡ L.rest ledger.old) }
    ensures begins { IsPrefix (L.journal ledger.old) (L.journal ledger.new) }
    ensures counted { tally.new ≡ book_of (L.journal ledger.new) }
    ensures share { share.new + book_of (L.journal ledger.old) ≡ share.old + book_of (L.journal ledger.new) }
    ensures waits { IfOk result (λ reply. queue.new.waiting ≡ queue.old.waiting ++ record { events = batch_of events; moment = now; clock = L.clock ledger.old; reply = reply; before = length (L.journal ledger.old); after = length (L.journal ledger.new) } ∷ []) }
    ensures refused { OnErr result (queue.new.waiting ≡ queue.old.waiting) }
{
    let clock = ledger.clock();
    let room = make_room(alloc, queue, clock, &events, now)?;
    let before = ledger.mark().length;
    let reply = run_events(alloc, ledger, &events, now)?;
    let after = ledger.mark().length;
    tally.add(share, events.len() as u64 - reply.len() as u64);
    queue.push(Waiting {
        moment: now,
        clock,
        reply: copy_of(&reply, room),
        before,
        after,
        events,
    });
    Ok(reply)
}

/// Runs a pulse, and counts what it stores. A refusal leaves all as it was.
pub(crate) fn run_pulse<L: Ledger, S: StoreName>(
    ledger: &mut L,
    tally: &mut Tally<S>,
    now: u64,
    max: u32,
    share: &mut Share<S>,
) -> Result<u32, Refusal>
    requires lawful { IsLawfulAt (L.clock ledger.old) (L.journal ledger.old) }
    requires counted { tally.old ≡ book_of (L.journal ledger.old) }
    ensures run { IsPulseRun L.journal L.clock L.kept ledger.old ledger.new now max result }
    ensures lasting { L.lasting (L.rest ledger.new) ≡ L.lasting (L.rest ledger.old) }
    ensures unchanged { OnErr result (L.rest ledger.new ≡ L.rest ledger.old) }
    ensures begins { IsPrefix (L.journal ledger.old) (L.journal ledger.new) }
    ensures counted { tally.new ≡ book_of (L.journal ledger.new) }
    ensures share { IfOk result (λ count. share.new ≡ share.old + count) }
    ensures refused { OnErr result (share.new ≡ share.old) }
{
    let count = tf_pending::pulse(ledger, now, max)?;
    let _bounds_the_book = ledger.mark();
    tally.add(share, u64::from(count));
    Ok(count)
}
