//! The plain ledger, on which a store's commands are run too.
ghost use Rattle.tf_journal.specs.Lawful.{IsLawfulAt};

use std::alloc::{Allocator, Global};
use std::marker::Model;
use tf_events::{run_accounts, run_transfers};
use tf_journal::{Entry, PlainLedger};
use tf_pending::pulse;
use tf_records::{Refusal, Reply};
use tf_script::Command;

/// What a command answers.
#[derive(Drop)]
pub enum Answer {
    /// The failed events of a batch.
    Batch(Reply<Global>),
    /// How many transfers expired in a pulse.
    Pulse(u32),
    /// The command is neither a batch nor a pulse.
    Nothing,
}

/// An answer, or the refusal of the whole command.
pub type Outcome = Result<Answer, Refusal>;

/// Whether both outcomes are the same.
pub fn is_same(one: &Outcome, other: &Outcome) -> bool {
    match (one, other) {
        (Ok(Answer::Batch(one)), Ok(Answer::Batch(other))) => one.as_slice() == other.as_slice(),
        (Ok(Answer::Pulse(one)), Ok(Answer::Pulse(other))) => one == other,
        (Ok(Answer::Nothing), Ok(Answer::Nothing)) => true,
        (Err(one), Err(other)) => one == other,
        _ => false,
    }
}

/// What a batch answers, wherever its reply lies.
pub fn batch_outcome<A: Allocator>(alloc: Global, reply: Result<Reply<A>, Refusal>) -> Outcome {
    let failures = reply?.as_slice().to_vec(alloc)?;
    Ok(Answer::Batch(Reply::from_vec(failures)))
}

/// What a batch answers.
fn answered(reply: Result<Reply<Global>, Refusal>) -> Outcome {
    Ok(Answer::Batch(reply?))
}

/// What a pulse answers.
pub fn pulse_outcome(expired: Result<u32, Refusal>) -> Outcome {
    Ok(Answer::Pulse(expired?))
}

/// A plain ledger between batches. Contracts see it as its entries.
#[derive(Drop)]
pub struct Plain {
    ledger: PlainLedger<Global>,
}

impl Model for Plain {
    ghost use Rattle.std.specs.Prelude.{List};
    ghost use Rattle.tf_journal.specs.declared.entry.Entry.{Entry};
    ghost use Rattle.tf_journal.specs.Lawful.{IsLawfulAt};

    ghost Value = { List Entry };

    ghost view = { λ p. p.ledger.entries.items };

    ghost invariant = { λ p. IsLawfulAt p.ledger.clock p.ledger.entries.items };
}

impl Plain {
    /// The empty ledger.
    pub fn new(alloc: Global) -> Plain {
        Plain {
            ledger: PlainLedger::new(alloc),
        }
    }

    /// The ledger, for look-ups.
    pub fn ledger(&self) -> &PlainLedger<Global> {
        &self.ledger
    }

    /// How many entries are no failed ids.
    pub fn book(&self) -> usize {
        self.ledger
            .entries()
            .iter()
            .filter(|entry| !matches!(entry, Entry::Failed { .. }))
            .count()
    }

    /// Runs a batch or a pulse, and no other command.
    pub fn run(&mut self, alloc: Global, command: &Command<Global>) -> Outcome {
        match command {
            Command::Accounts { now, events } => answered(run_accounts(
                alloc,
                &mut self.ledger,
                events.as_slice(),
                *now,
            )),
            Command::Transfers { now, events } => answered(run_transfers(
                alloc,
                &mut self.ledger,
                events.as_slice(),
                *now,
            )),
            Command::Pulse { now, max } => pulse_outcome(pulse(&mut self.ledger, *now, *max)),
            _ => Ok(Answer::Nothing),
        }
    }
}
