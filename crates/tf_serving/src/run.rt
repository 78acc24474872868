//! Runs commands over a store.
ghost use Rattle.std.specs.Prelude.{◌≡◌, [], true, OnOk, IfErr};
ghost use Rattle.tf_journal.specs.Lawful.{IsLawfulAt};
ghost use Rattle.tf_main.specs.Script.{HasAnswered, StopsRunning};
ghost use Rattle.tf_script.specs.Command as command;
ghost use Rattle.tf_script.specs.CommandViews.{command_view, commands_of};
ghost use Rattle.tf_serving.specs.Served.{IsCommandServed, IsDoneOrFull};

use crate::served::Served;
use std::alloc::Allocator;
use std::io::Write;
use std::sync::Wait;
use tf_forest::Forest;
use tf_main::{RunFault, write_batch, write_compaction, write_found, write_publish, write_pulsed};
use tf_publish::Rows;
use tf_query::Version;
use tf_records::{Account, Transfer};
use tf_rows::{AllRows, SealRows};
use tf_script::{Command, Query};
use tf_store::{StoreName, StoredCopies, VersionCopies};

impl<'s, T, A, S, C, W> Served<'s, Forest<Rows<T, A, S>, A>, A, S, C, W>
where
    T: SealRows<A> + Drop,
    A: Allocator + Copy,
    S: StoreName,
    C: VersionCopies<Version<A, S>, S> + Drop,
    W: Wait,
{
    /// Runs commands by a store that nothing was stored in, one after another up to the first fault, and writes what they
    /// print.
    ///
    /// Its faults are those of `run_commands` of `tf_main`: `RunFault::CannotWrite` where the writer failed, with a part of the
    /// answer written from its first byte on, and `RunFault::NoMemory` where a growth was refused, with the output of the commands
    /// before one that isn't refused itself.
    pub fn run_commands<B: Allocator, O: Write>(
        &mut self,
        commands: &[Command<B>],
        out: &mut O,
    ) -> Result<(), RunFault>
        requires journal { self.old.store.now.forest.journal ≡ [] }
        requires clock { self.old.store.now.forest.clock ≡ 0 }
        requires published { self.old.store.now.forest.sealed.counts.publishes ≡ 0 }
        ensures answered { OnOk result (HasAnswered true (commands_of commands.now) (O.contents out.old) (O.contents out.new)) }
        ensures fault { IfErr result (StopsRunning true (commands_of commands.now) (O.contents out.old) (O.contents out.new)) }
    {
        for command in commands {
            self.run_command(command, out)?;
        }
        Ok(())
    }

    /// Runs one command and writes what it prints.
    fn run_command<B: Allocator, O: Write>(
        &mut self,
        command: &Command<B>,
        out: &mut O,
    ) -> Result<(), RunFault>
        requires { IsLawfulAt self.old.store.now.forest.clock self.old.store.now.forest.journal }
        ensures done { IsDoneOrFull (command_view command.now) self.new.store.now.forest (O.contents out.old) (O.contents out.new) result }
        ensures run { IsCommandServed self.old.store.now.forest self.new.store.now.forest
            (O.contents out.old) (O.contents out.new) (command_view command.now) result }
    {
        match command {
            Command::Accounts { now, events } => self.run_accounts(events.as_slice(), *now, out),
            Command::Transfers { now, events } => self.run_transfers(events.as_slice(), *now, out),
            Command::Pulse { now, max } => self.run_pulse(*now, *max, out),
            Command::Publish => write_publish(self.publish(), out),
            Command::Compact => write_compaction(self.compact(), out),
            Command::Query(query) => self.run_query(query, out),
            Command::LookupAccounts(ids) => write_found(&self.lookup_accounts(ids.as_slice()), out),
            Command::LookupTransfers(ids) => {
                write_found(&self.lookup_transfers(ids.as_slice()), out)
            }
        }
    }

    /// Answers one query and writes its rows.
    fn run_query<O: Write>(&mut self, query: &Query, out: &mut O) -> Result<(), RunFault>
        requires { IsLawfulAt self.old.store.now.forest.clock self.old.store.now.forest.journal }
        ensures { IsCommandServed self.old.store.now.forest self.new.store.now.forest
            (O.contents out.old) (O.contents out.new) (command.query query.now) result }
    {
        match query {
            Query::AccountTransfers(filter) => {
                write_found(&self.get_account_transfers(filter), out)
            }
            Query::AccountBalances(filter) => write_found(&self.get_account_balances(filter), out),
            Query::Accounts(filter) => write_found(&self.query_accounts(filter), out),
            Query::Transfers(filter) => write_found(&self.query_transfers(filter), out),
        }
    }
}

/// What names no type of a row, so that no call of it takes those apart.
impl<'s, R, A, S, C, W> Served<'s, Forest<R, A>, A, S, C, W>
where
    R: AllRows + Drop,
    A: Allocator + Copy,
    S: StoreName,
    C: StoredCopies + Drop,
    W: Wait,
{
    /// Runs a batch of accounts and writes its reply.
    fn run_accounts<O: Write>(
        &mut self,
        events: &[Account],
        now: u64,
        out: &mut O,
    ) -> Result<(), RunFault>
        ensures { IsCommandServed self.old.store.now.forest self.new.store.now.forest
            (O.contents out.old) (O.contents out.new) (command.accounts now events.now) result }
    {
        let outcome = self.create_accounts(events, now);
        write_batch(&outcome, self.clock(), out)
    }

    /// Runs a batch of transfers and writes its reply.
    fn run_transfers<O: Write>(
        &mut self,
        events: &[Transfer],
        now: u64,
        out: &mut O,
    ) -> Result<(), RunFault>
        ensures { IsCommandServed self.old.store.now.forest self.new.store.now.forest
            (O.contents out.old) (O.contents out.new) (command.transfers now events.now) result }
    {
        let outcome = self.create_transfers(events, now);
        write_batch(&outcome, self.clock(), out)
    }

    /// Runs a pulse and writes how many pending transfers expired.
    fn run_pulse<O: Write>(&mut self, now: u64, max: u32, out: &mut O) -> Result<(), RunFault>
        ensures { IsCommandServed self.old.store.now.forest self.new.store.now.forest
            (O.contents out.old) (O.contents out.new) (command.pulse now max) result }
    {
        let outcome = self.pulse(now, max);
        write_pulsed(outcome, self.clock(), out)
    }
}
