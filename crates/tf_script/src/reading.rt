//! What has been read of a script.

ghost use Rattle.std.specs.Prelude.{◌≡◌, OnOk};
ghost use Rattle.tf_script.specs.Statements.{opens, account_event, transfer_event, closes, asks};
ghost use Rattle.tf_script.specs.Reader.LineViews.{request_view, statement_view, CanStand};
ghost use Rattle.tf_script.specs.Reader.Reading.{batch_of, Adds};

use crate::command::Command;
use crate::request::Request;
use crate::statement::{Batch, Statement};
use std::alloc::{AllocError, Allocator};
use tf_records::{Account, Transfer};

/// The batch that a script is in, with its events so far.
#[derive(Drop)]
pub enum Open<A: Allocator> {
    /// The script is outside a batch.
    Nothing,
    Accounts { now: u64, events: Vec<Account, A> },
    Transfers { now: u64, events: Vec<Transfer, A> },
}

impl<A: Allocator> Open<A> {
    /// The batch without its events.
    pub fn batch(&self) -> Option<Batch>
        ensures { result ≡ batch_of self.now }
    {
        match self {
            Open::Nothing => None,
            Open::Accounts { now, .. } => Some(Batch::Accounts { now: *now }),
            Open::Transfers { now, .. } => Some(Batch::Transfers { now: *now }),
        }
    }
}

/// What has been read of a script.
#[derive(Drop)]
pub struct Reading<A: Allocator> {
    /// The commands before the open batch.
    pub commands: Vec<Command<A>, A>,
    pub unfinished: Open<A>,
}

impl<A: Allocator + Clone> Reading<A> {
    /// Adds what a line means.
    pub fn add(&mut self, statement: Statement<'_>) -> Result<(), AllocError>
        requires { CanStand (batch_of self.old.unfinished) statement }
        ensures { OnOk result (Adds self.old self.new (statement_view statement.entry)) }
    {
        match statement {
            Statement::Blank => Ok(()),
            Statement::Opens(batch) => self.open_batch(batch),
            Statement::AccountEvent(event) => self.add_account(event),
            Statement::TransferEvent(event) => self.add_transfer(event),
            Statement::Closes => self.close(),
            Statement::Asks(request) => self.add_command(request),
        }
    }

    /// Begins a batch.
    fn open_batch(&mut self, batch: Batch) -> Result<(), AllocError>
        requires { CanStand (batch_of self.old.unfinished) (Statement.Opens batch) }
        ensures { OnOk result (Adds self.old self.new (opens batch)) }
    {
        let alloc = self.commands.allocator().clone()?;
        self.unfinished = match batch {
            Batch::Accounts { now } => Open::Accounts {
                now,
                events: Vec::new(alloc),
            },
            Batch::Transfers { now } => Open::Transfers {
                now,
                events: Vec::new(alloc),
            },
        };
        Ok(())
    }

    /// Adds an event to the open batch of accounts.
    fn add_account(&mut self, event: Account) -> Result<(), AllocError>
        requires { CanStand (batch_of self.old.unfinished) (Statement.AccountEvent event) }
        ensures { OnOk result (Adds self.old self.new (account_event event)) }
    {
        if let Open::Accounts { events, .. } = &mut self.unfinished {
            events.push(event)?;
        }
        Ok(())
    }

    /// Adds an event to the open batch of transfers.
    fn add_transfer(&mut self, event: Transfer) -> Result<(), AllocError>
        requires { CanStand (batch_of self.old.unfinished) (Statement.TransferEvent event) }
        ensures { OnOk result (Adds self.old self.new (transfer_event event)) }
    {
        if let Open::Transfers { events, .. } = &mut self.unfinished {
            events.push(event)?;
        }
        Ok(())
    }

    /// Ends the open batch.
    fn close(&mut self) -> Result<(), AllocError>
        requires { CanStand (batch_of self.old.unfinished) Statement.Closes }
        ensures { OnOk result (Adds self.old self.new closes) }
    {
        match std::mem::replace(&mut self.unfinished, Open::Nothing) {
            Open::Nothing => {}
            Open::Accounts { now, events } => self
                .commands
                .push(Command::Accounts { now, events })?,
            Open::Transfers { now, events } => self
                .commands
                .push(Command::Transfers { now, events })?,
        }
        Ok(())
    }

    /// Adds a command of one line.
    fn add_command(&mut self, request: Request<'_>) -> Result<(), AllocError>
        requires { CanStand (batch_of self.old.unfinished) (Statement.Asks request) }
        ensures { OnOk result (Adds self.old self.new (asks (request_view request.entry))) }
    {
        let command = request.to_command(self.commands.allocator())?;
        self.commands.push(command)?;
        Ok(())
    }
}
