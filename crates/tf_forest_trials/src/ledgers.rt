//! Batches and pulses of a script, run on any ledger.
ghost use Rattle.std.specs.Prelude.{◌≡◌, length};
ghost use Rattle.tf_journal.specs.Lawful.{IsLawfulAt};

use std::alloc::{Allocator, Global};
use tf_events::{run_accounts, run_transfers};
use tf_journal::Ledger;
use tf_pending::pulse;
use tf_script::Command;
use tf_trials::{Answer, Outcome, batch_outcome, pulse_outcome};

/// Runs a batch or a pulse, and no other command. The answer lies elsewhere than what the run takes memory for.
pub fn run<L: Ledger, A: Allocator>(
    lists: Global,
    alloc: A,
    ledger: &mut L,
    command: &Command<Global>,
) -> Outcome
    requires { IsLawfulAt (L.clock ledger.old) (L.journal ledger.old) }
    ensures lawful { IsLawfulAt (L.clock ledger.new) (L.journal ledger.new) }
    ensures kept { L.kept ledger.old ≡ length (L.journal ledger.old) → L.kept ledger.new ≡ length (L.journal ledger.new) }
{
    match command {
        Command::Accounts { now, events } => {
            batch_outcome(lists, run_accounts(alloc, ledger, events.as_slice(), *now))
        }
        Command::Transfers { now, events } => {
            batch_outcome(lists, run_transfers(alloc, ledger, events.as_slice(), *now))
        }
        Command::Pulse { now, max } => pulse_outcome(pulse(ledger, *now, *max)),
        _ => Ok(Answer::Nothing),
    }
}
