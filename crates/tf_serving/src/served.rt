//! A store as what a script is run by.
ghost use Rattle.std.specs.Prelude.{◌≡◌, ◌≤◌, IfOk, OnOk};
ghost use Rattle.tf_events.specs.Batch.{IsBatchRun};
ghost use Rattle.tf_events.specs.Chain as kind;
ghost use Rattle.tf_journal.specs.Answer.{account_transfers_of, found_accounts_of, found_transfers_of, history_of, looked_up_accounts, looked_up_transfers};
ghost use Rattle.tf_manifest.specs.declared.row.Row.{Row};
ghost use Rattle.tf_pending.specs.Pulse.{IsPulseRun};
ghost use Rattle.tf_rows.specs.Counts.{AreBounded};
ghost use Rattle.tf_script.specs.Command as command;
ghost use Rattle.tf_script.specs.declared.command.Query.TheVariants.{AccountTransfers, AccountBalances, Accounts, Transfers};
ghost use Rattle.tf_compaction.specs.Compaction.{IsMergedOut};
ghost use Rattle.tf_serving.specs.Served.{IsRead, Serves};

use std::alloc::Allocator;
use std::sync::Wait;
use tf_compaction::compact;
use tf_forest::Forest;
use tf_journal::Ledger;
use tf_publish::Rows;
use tf_query::Version;
use tf_records::{
    Account, AccountBalance, AccountFilter, BATCH_MAX, QueryFilter, Refusal, Reply, Transfer,
};
use tf_rows::{AllRows, SealRows};
use tf_store::{
    Receipt, Share, Store, StoreName, StoreOf, StoredCopies, StoredForest, VersionCopies,
};

/// A store that is borrowed, with its share, under the greatest limit of pushed tables.
///
/// Each query and look-up publishes what was stored and asks a version; a compaction merges in the thread that asks for it.
#[derive(Drop)]
pub struct Served<
    's,
    F: StoredForest + Drop,
    A: Allocator + Copy,
    S: StoreName,
    C: StoredCopies + Drop,
    W: Wait,
> {
    rt: &'s W,
    store: &'s mut Store<F, C, A, S>,
    share: Share<S>,
    alloc: A,
    ghost roomy: { store.now.forest.sealed.tables.pushed.limit ≡ 1048576 },
}

impl<'s, T, A, S, C, W> Served<'s, Forest<Rows<T, A, S>, A>, A, S, C, W>
where
    T: SealRows<A> + Drop,
    A: Allocator + Copy,
    S: StoreName,
    C: VersionCopies<Version<A, S>, S> + Drop,
    W: Wait,
{
    /// A store, served.
    pub fn new(rt: &'s W, alloc: A, store: &'s mut StoreOf<T, C, A, S>, share: Share<S>) -> Self
        requires { store.old.forest.sealed.tables.pushed.limit ≡ 1048576 }
        ensures { result.store.now.forest ≡ store.old.forest }
    {
        Served {
            rt,
            store,
            share,
            alloc,
        }
    }

    /// Gives the share back.
    pub fn into_share(self) -> Share<S> {
        let Served {
            rt: _,
            store: _,
            share,
            alloc: _,
        } = self;
        share
    }

    /// What bounds how many tables were pushed and how many a publish pushes. It does nothing.
    fn facts(&self)
        ensures bounded { AreBounded self.now.store.now.forest.sealed }
        ensures few { self.now.store.now.forest.needed ≤ 42 }
        ensures roomy { self.now.store.now.forest.sealed.tables.pushed.limit ≡ 1048576 }
    {
        self.needs_few();
        let _book = self.store.facts();
    }

    /// Publishes, and gives the receipts.
    fn receipts(&mut self) -> Result<Vec<Receipt<A, S>, A>, Refusal>
        ensures all { OnOk result (self.new.store.now.forest.waiting ≡ 0) }
        ensures read { IsRead self.old.store.now.forest self.new.store.now.forest result }
    {
        self.facts();
        self.store.publish(self.rt)
    }

    /// Publishes, and gives a version of the journal.
    fn version(&mut self) -> Result<Version<A, S>, Refusal>
        ensures version { IfOk result (λ version. version ≡ self.old.store.now.forest.journal) }
        ensures read { IsRead self.old.store.now.forest self.new.store.now.forest result }
    {
        self.facts();
        self.store.take_version(self.rt)
    }

    /// Seals what was stored since the last publish. Nobody asks for the receipts.
    pub(crate) fn publish(&mut self) -> Result<(), Refusal>
        ensures all { OnOk result (self.new.store.now.forest.waiting ≡ 0) }
        ensures served { Serves self.old.store.now.forest self.new.store.now.forest command.publish result }
    {
        match self.receipts() {
            Ok(_receipts) => Ok(()),
            Err(refusal) => Err(refusal),
        }
    }

    /// Merges sealed tables until no row has a run to merge, and gives back those that were merged.
    pub(crate) fn compact(&mut self) -> Result<(), Refusal>
        ensures merged { OnOk result ((row : Row) → IsMergedOut self.new.store.now.forest row) }
        ensures served { Serves self.old.store.now.forest self.new.store.now.forest command.compact result }
    {
        let store = &mut *self.store;
        let outcome = compact(self.rt, self.alloc, store);
        let _bounds = store.rows_sealed();
        outcome
    }

    /// The transfers of an account that a filter asks for.
    pub(crate) fn get_account_transfers(
        &mut self,
        filter: &AccountFilter,
    ) -> Result<Vec<Transfer, A>, Refusal>
        ensures ok { IfOk result (λ rows. rows.items ≡ account_transfers_of self.old.store.now.forest.journal filter.now) }
        ensures served { Serves self.old.store.now.forest self.new.store.now.forest (command.query (AccountTransfers filter.now)) result }
    {
        match self.version() {
            Ok(version) => version.get_account_transfers(self.alloc, filter),
            Err(refusal) => Err(refusal),
        }
    }

    /// The balances of an account right after each of those transfers.
    pub(crate) fn get_account_balances(
        &mut self,
        filter: &AccountFilter,
    ) -> Result<Vec<AccountBalance, A>, Refusal>
        ensures ok { IfOk result (λ rows. rows.items ≡ history_of self.old.store.now.forest.journal filter.now) }
        ensures served { Serves self.old.store.now.forest self.new.store.now.forest (command.query (AccountBalances filter.now)) result }
    {
        match self.version() {
            Ok(version) => version.get_account_balances(self.alloc, filter),
            Err(refusal) => Err(refusal),
        }
    }

    /// The accounts that a filter asks for.
    pub(crate) fn query_accounts(
        &mut self,
        filter: &QueryFilter,
    ) -> Result<Vec<Account, A>, Refusal>
        ensures ok { IfOk result (λ rows. rows.items ≡ found_accounts_of self.old.store.now.forest.journal filter.now) }
        ensures served { Serves self.old.store.now.forest self.new.store.now.forest (command.query (Accounts filter.now)) result }
    {
        match self.version() {
            Ok(version) => version.query_accounts(self.alloc, filter),
            Err(refusal) => Err(refusal),
        }
    }

    /// The transfers that a filter asks for.
    pub(crate) fn query_transfers(
        &mut self,
        filter: &QueryFilter,
    ) -> Result<Vec<Transfer, A>, Refusal>
        ensures ok { IfOk result (λ rows. rows.items ≡ found_transfers_of self.old.store.now.forest.journal filter.now) }
        ensures served { Serves self.old.store.now.forest self.new.store.now.forest (command.query (Transfers filter.now)) result }
    {
        match self.version() {
            Ok(version) => version.query_transfers(self.alloc, filter),
            Err(refusal) => Err(refusal),
        }
    }

    /// The accounts with these ids, in the order of the ids.
    pub(crate) fn lookup_accounts(&mut self, ids: &[u128]) -> Result<Vec<Account, A>, Refusal>
        ensures ok { IfOk result (λ rows. rows.items ≡ looked_up_accounts self.old.store.now.forest.journal ids.now) }
        ensures served { Serves self.old.store.now.forest self.new.store.now.forest (command.lookup_accounts ids.now) result }
    {
        if ids.len() > BATCH_MAX as usize {
            return Err(Refusal::BatchTooLarge);
        }
        match self.version() {
            Ok(version) => version.lookup_accounts(self.alloc, ids),
            Err(refusal) => Err(refusal),
        }
    }

    /// The transfers with these ids, in the order of the ids.
    pub(crate) fn lookup_transfers(&mut self, ids: &[u128]) -> Result<Vec<Transfer, A>, Refusal>
        ensures ok { IfOk result (λ rows. rows.items ≡ looked_up_transfers self.old.store.now.forest.journal ids.now) }
        ensures served { Serves self.old.store.now.forest self.new.store.now.forest (command.lookup_transfers ids.now) result }
    {
        if ids.len() > BATCH_MAX as usize {
            return Err(Refusal::BatchTooLarge);
        }
        match self.version() {
            Ok(version) => version.lookup_transfers(self.alloc, ids),
            Err(refusal) => Err(refusal),
        }
    }
}

/// What names no type of a row, so that no call of it takes those apart.
impl<'s, R, A, S, C, W> Served<'s, Forest<R, A>, A, S, C, W>
where
    R: AllRows + Drop,
    A: Allocator + Copy,
    S: StoreName,
    C: StoredCopies + Drop,
    W: Wait,
{
    /// How many tables a publish pushes at most. It does nothing.
    fn needs_few(&self)
        ensures { self.now.store.now.forest.needed ≤ 42 }
    {
        self.store.forest().facts();
    }

    /// The moment after which the next timestamps are given out, 0 at first. It takes no memory.
    pub(crate) fn clock(&self) -> u64
        ensures { result ≡ self.now.store.now.forest.clock }
    {
        self.store.forest().clock()
    }

    /// Stores a batch of accounts, as `run_accounts` of `tf_events` does.
    pub(crate) fn create_accounts(
        &mut self,
        events: &[Account],
        now: u64,
    ) -> Result<Reply<A>, Refusal>
        ensures run { IsBatchRun kind.accounts (λ f. f.journal) (λ f. f.clock) (λ f. f.kept) self.old.store.now.forest self.new.store.now.forest events.now now result }
        ensures sealed { self.new.store.now.forest.sealed ≡ self.old.store.now.forest.sealed }
    {
        self.store.create_accounts(events, now, &mut self.share)
    }

    /// Stores a batch of transfers, as `run_transfers` of `tf_events` does.
    pub(crate) fn create_transfers(
        &mut self,
        events: &[Transfer],
        now: u64,
    ) -> Result<Reply<A>, Refusal>
        ensures run { IsBatchRun kind.transfers (λ f. f.journal) (λ f. f.clock) (λ f. f.kept) self.old.store.now.forest self.new.store.now.forest events.now now result }
        ensures sealed { self.new.store.now.forest.sealed ≡ self.old.store.now.forest.sealed }
    {
        self.store.create_transfers(events, now, &mut self.share)
    }

    /// Lets due pending transfers expire, at most so many, as `pulse` of `tf_pending` does.
    pub(crate) fn pulse(&mut self, now: u64, max: u32) -> Result<u32, Refusal>
        ensures run { IsPulseRun (λ f. f.journal) (λ f. f.clock) (λ f. f.kept) self.old.store.now.forest self.new.store.now.forest now max result }
        ensures sealed { self.new.store.now.forest.sealed ≡ self.old.store.now.forest.sealed }
    {
        self.store.pulse(now, max, &mut self.share)
    }
}
