//! Ledgers that are filled by scripts.

ghost use Rattle.tf_journal.specs.Lawful.{IsLawfulAt};

use std::alloc::{AllocError, Allocator, Global};
use tf_events::{run_accounts, run_transfers};
use tf_journal::{Entry, Ledger, PlainLedger};
use tf_pending::pulse;
use tf_records::{Refusal, Reply};
use tf_script::Command;

/// A ledger that shows its entries.
pub trait Shown {
    /// The entries, by rising timestamp.
    fn shown(&self) -> &[Entry];
}

impl<A: Allocator> Shown for PlainLedger<A> {
    fn shown(&self) -> &[Entry] {
        self.entries()
    }
}

/// The empty ledger.
pub fn empty<A: Allocator>(alloc: A) -> PlainLedger<A>
    ensures { IsLawfulAt (⟦<PlainLedger<A> as Ledger>⟧.clock result) (⟦<PlainLedger<A> as Ledger>⟧.journal result) }
{
    PlainLedger::new(alloc)
}

/// Runs a batch or a pulse with memory of this allocator, and no other command. A pulse names no failed event.
pub fn run<L: Ledger, A: Allocator>(
    alloc: A,
    ledger: &mut L,
    command: &Command<Global>,
) -> Result<Reply<A>, Refusal>
    requires { IsLawfulAt (L.clock ledger.old) (L.journal ledger.old) }
    ensures { IsLawfulAt (L.clock ledger.new) (L.journal ledger.new) }
{
    match command {
        Command::Accounts { now, events } => run_accounts(alloc, ledger, events.as_slice(), *now),
        Command::Transfers { now, events } => run_transfers(alloc, ledger, events.as_slice(), *now),
        Command::Pulse { now, max } => {
            pulse(ledger, *now, *max)?;
            Ok(Reply::new(alloc))
        }
        _ => Ok(Reply::new(alloc)),
    }
}

/// The failed events of a batch as scripts print them, a line each.
pub fn told<A: Allocator>(alloc: Global, reply: &Reply<A>) -> Result<String, AllocError> {
    let mut text = String::new(alloc);
    for failure in reply.as_slice() {
        let index = failure.index;
        let name = failure.outcome.name();
        writeln!(text, "{index} {name}")?;
    }
    Ok(text)
}

/// Runs the batches and pulses of a script, up to the first that is refused.
pub fn run_all<L: Ledger>(
    alloc: Global,
    ledger: &mut L,
    commands: &[Command<Global>],
) -> Result<(), Refusal>
    requires { IsLawfulAt (L.clock ledger.old) (L.journal ledger.old) }
    ensures { IsLawfulAt (L.clock ledger.new) (L.journal ledger.new) }
{
    for command in commands {
        run(alloc, ledger, command)?;
    }
    Ok(())
}
