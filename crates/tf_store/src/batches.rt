//! What is stored: batches of accounts and of transfers, and expiries.
ghost use Rattle.std.specs.Prelude.{◌≡◌, ◌+◌, ◌++◌, ◌∷◌, [], length, Err, OnErr, OnOk, IfOk, IfErr, MatchOption};
ghost use Rattle.tf_events.specs.Batch.{IsBatchRun, batch_refusal};
ghost use Rattle.tf_events.specs.Chain as kind;
ghost use Rattle.tf_pending.specs.Pulse.{IsPulseRun};
ghost use Rattle.tf_store.specs.Book.{book_of};
ghost use Rattle.tf_store.specs.Events.{batch_of};
ghost use Rattle.tf_store.specs.Receipt.{IsRun, accounts, transfers};

use crate::run::{run_batch, run_pulse};
use crate::{Events, Share, Store, StoreName, StoredCopies};
use std::alloc::Allocator;
use tf_events::clock_after;
use tf_forest::Forest;
use tf_records::{Account, Refusal, Reply, Transfer};
use tf_rows::AllRows;

/// A copy of a batch of accounts. The batch's own refusal comes before any memory is taken.
fn keep_accounts<A: Allocator>(
    alloc: A,
    clock: u64,
    events: &[Account],
    now: u64,
) -> Result<Events<A>, Refusal>
    ensures copy { IfOk result (λ copy. batch_of copy ≡ accounts events.now) }
    ensures refused { IfErr result (λ fault. MatchOption (batch_refusal clock (length events.now) now) (fault ≡ Refusal.NoMemory) (λ due. fault ≡ due)) }
{
    clock_after(clock, events.len(), now)?;
    Ok(Events::Accounts(events.to_vec(alloc)?))
}

/// A copy of a batch of transfers. The batch's own refusal comes before any memory is taken.
fn keep_transfers<A: Allocator>(
    alloc: A,
    clock: u64,
    events: &[Transfer],
    now: u64,
) -> Result<Events<A>, Refusal>
    ensures copy { IfOk result (λ copy. batch_of copy ≡ transfers events.now) }
    ensures refused { IfErr result (λ fault. MatchOption (batch_refusal clock (length events.now) now) (fault ≡ Refusal.NoMemory) (λ due. fault ≡ due)) }
{
    clock_after(clock, events.len(), now)?;
    Ok(Events::Transfers(events.to_vec(alloc)?))
}

impl<R: AllRows + Drop, C: StoredCopies + Drop, A: Allocator + Copy, S: StoreName> Store<
    Forest<R, A>,
    C,
    A,
    S,
> {
    /// Stores a batch of accounts, as `run_accounts` does, and lets its receipt wait for the next publish. The share grows
    /// by the number of accounts stored.
    ///
    /// Times are nanoseconds. `BatchTooLarge`: more than `BATCH_MAX` events; then `ClockExhausted`; both before any memory
    /// is taken; then `NoMemory`. A refusal leaves all as it was, each mutable table entry by entry. Takes a verdict and a
    /// few look-ups in rows for each event, and memory for a copy of the events and of the reply beside the entries. As
    /// `create_accounts` of TigerBeetle's reference.
    pub fn create_accounts(
        &mut self,
        events: &[Account],
        now: u64,
        share: &mut Share<S>,
    ) -> Result<Reply<A>, Refusal>
        ensures run { IsBatchRun kind.accounts (λ f. f.journal) (λ f. f.clock) (λ f. f.kept) self.old.forest self.new.forest events.now now result }
        ensures sealed { self.new.forest.sealed ≡ self.old.forest.sealed }
        ensures unchanged { OnErr result (self.new.forest ≡ self.old.forest) }
        ensures readable { self.new.readable ≡ self.old.readable }
        ensures share { share.new + book_of self.old.forest.journal ≡ share.old + book_of self.new.forest.journal }
        ensures receipt { IfOk result (λ reply. self.new.waiting ≡ self.old.waiting ++ record { events = accounts events.now; moment = now; clock = self.old.forest.clock; reply = reply; first = self.old.forest.journal; second = self.new.forest.journal } ∷ []) }
        ensures refused { OnErr result ((self.new.waiting ≡ self.old.waiting) × (share.new ≡ share.old)) }
    {
        let kept = keep_accounts(self.alloc, self.forest.clock(), events, now)?;
        self.create(kept, now, share)
    }

    /// Stores a batch of transfers, as `run_transfers` does, and lets its receipt wait for the next publish. The share grows
    /// by the number of transfers stored. An id that failed for a passing reason counts in no share.
    ///
    /// Refusals and cost are those of `create_accounts`. As `create_transfers` of TigerBeetle's reference.
    pub fn create_transfers(
        &mut self,
        events: &[Transfer],
        now: u64,
        share: &mut Share<S>,
    ) -> Result<Reply<A>, Refusal>
        ensures run { IsBatchRun kind.transfers (λ f. f.journal) (λ f. f.clock) (λ f. f.kept) self.old.forest self.new.forest events.now now result }
        ensures sealed { self.new.forest.sealed ≡ self.old.forest.sealed }
        ensures unchanged { OnErr result (self.new.forest ≡ self.old.forest) }
        ensures readable { self.new.readable ≡ self.old.readable }
        ensures share { share.new + book_of self.old.forest.journal ≡ share.old + book_of self.new.forest.journal }
        ensures receipt { IfOk result (λ reply. self.new.waiting ≡ self.old.waiting ++ record { events = transfers events.now; moment = now; clock = self.old.forest.clock; reply = reply; first = self.old.forest.journal; second = self.new.forest.journal } ∷ []) }
        ensures refused { OnErr result ((self.new.waiting ≡ self.old.waiting) × (share.new ≡ share.old)) }
    {
        let kept = keep_transfers(self.alloc, self.forest.clock(), events, now)?;
        self.create(kept, now, share)
    }

    /// Stores a batch of either kind whose events were copied already, so that no copy is made under the lock. It does what
    /// `create_accounts` and `create_transfers` do, and is refused as they are.
    pub fn create(
        &mut self,
        events: Events<A>,
        now: u64,
        share: &mut Share<S>,
    ) -> Result<Reply<A>, Refusal>
        ensures run { IsRun (λ f. f.journal) (λ f. f.clock) (λ f. f.kept) self.old.forest self.new.forest (batch_of events) now result }
        ensures sealed { self.new.forest.sealed ≡ self.old.forest.sealed }
        ensures unchanged { OnErr result (self.new.forest ≡ self.old.forest) }
        ensures readable { self.new.readable ≡ self.old.readable }
        ensures share { share.new + book_of self.old.forest.journal ≡ share.old + book_of self.new.forest.journal }
        ensures receipt { IfOk result (λ reply. self.new.waiting ≡ self.old.waiting ++ record { events = batch_of events; moment = now; clock = self.old.forest.clock; reply = reply; first = self.old.forest.journal; second = self.new.forest.journal } ∷ []) }
        ensures refused { OnErr result ((self.new.waiting ≡ self.old.waiting) × (share.new ≡ share.old)) }
    {
        self.forest.facts();
        let reply = run_batch(
            self.alloc,
            &mut self.forest,
            &mut self.tally,
            &mut self.queue,
            events,
            now,
            share,
        );
        self.forest.facts();
        reply
    }

    /// Lets due pending transfers expire, at most `max` and at most `BATCH_MAX` of them, and answers how many, as `pulse` of
    /// a ledger does. The share grows by that number. It leaves no receipt.
    ///
    /// Times are nanoseconds. `ClockExhausted` where the clock has no timestamps left for them, before any memory is taken;
    /// then `NoMemory`. A refusal leaves all as it was, each mutable table entry by entry. Takes a search in the expiry
    /// index and a few look-ups in rows for each.
    pub fn pulse(&mut self, now: u64, max: u32, share: &mut Share<S>) -> Result<u32, Refusal>
        ensures run { IsPulseRun (λ f. f.journal) (λ f. f.clock) (λ f. f.kept) self.old.forest self.new.forest now max result }
        ensures sealed { self.new.forest.sealed ≡ self.old.forest.sealed }
        ensures unchanged { OnErr result (self.new.forest ≡ self.old.forest) }
        ensures readable { self.new.readable ≡ self.old.readable }
        ensures share { IfOk result (λ count. share.new ≡ share.old + count) }
        ensures waiting { self.new.waiting ≡ self.old.waiting }
        ensures refused { OnErr result (share.new ≡ share.old) }
    {
        self.forest.facts();
        let count = run_pulse(&mut self.forest, &mut self.tally, now, max, share);
        self.forest.facts();
        count
    }
}
