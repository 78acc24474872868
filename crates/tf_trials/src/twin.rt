//! The plain ledger beside a store: what it answers, the store answers too.

use crate::lists::add;
use crate::plain::{Answer, Outcome, Plain, is_same};
use crate::tried::Told;
use std::alloc::Global;
use tf_journal::Ledger;
use tf_records::{Refusal, Reply};
use tf_script::Command;

/// How many ids are looked up, unless a text says otherwise: all that worked examples and random commands use.
const IDS: u32 = 40;

/// A plain ledger, the batches whose receipts a store owes, as the plain ledger ran them, and the ledger as it was when it was
/// marked, with what was run since then.
#[derive(Drop)]
pub struct Twin {
    /// Where its lists lie.
    pub alloc: Global,
    plain: Plain,
    waiting: Vec<Told, Global>,
    told: Vec<Told, Global>,
    then: Plain,
    since: Vec<Command<Global>, Global>,
    /// The share that stores what comes next.
    pub share: usize,
    /// How many ids are looked up after each call.
    pub ids: u32,
}

impl Twin {
    /// An empty ledger, marked, and no batch.
    pub fn new(alloc: Global) -> Twin {
        Twin {
            alloc,
            plain: Plain::new(alloc),
            waiting: Vec::new(alloc),
            told: Vec::new(alloc),
            then: Plain::new(alloc),
            since: Vec::new(alloc),
            share: 0,
            ids: IDS,
        }
    }

    /// The ledger.
    pub fn plain(&self) -> &Plain {
        &self.plain
    }

    /// The ledger as it was when it was marked.
    pub fn then(&self) -> &Plain {
        &self.then
    }

    /// One of the receipts that the last publish handed out. The first is 0.
    pub fn told(&self, place: usize) -> Option<&Told> {
        self.told.get(place)
    }

    /// Marks the ledger as it is.
    pub fn mark(&mut self) {
        run_all(self.alloc, &mut self.then, &self.since);
        self.since.clear();
    }

    /// Runs a batch or a pulse that the store ran. Tells whether both have the same outcome.
    pub fn follow(
        &mut self,
        outcome: &Outcome,
        command: &Command<Global>,
    ) -> Result<bool, Refusal> {
        let alloc = self.alloc;
        let clock = self.plain.ledger().clock();
        let expected = self.plain.run(alloc, command);
        let is_right = is_same(outcome, &expected);
        add(&mut self.since, copy_of(alloc, command))?;
        if let Some(reply) = reply_of(expected) {
            add(&mut self.waiting, waits(alloc, command, clock, reply))?;
        }
        Ok(is_right)
    }

    /// Whether these are the receipts of all batches that waited, in their order. Then none waits.
    pub fn is_told(&mut self, told: Vec<Told, Global>) -> bool {
        let is_right = are_told(&told, &self.waiting);
        self.waiting.clear();
        self.told = told;
        is_right
    }
}

/// What a batch that ran answered.
fn reply_of(outcome: Outcome) -> Option<Reply<Global>> {
    match outcome {
        Ok(Answer::Batch(reply)) => Some(reply),
        _ => None,
    }
}

/// A batch that waits for its receipt.
fn waits(
    alloc: Global,
    command: &Command<Global>,
    clock: u64,
    reply: Reply<Global>,
) -> Result<Told, Refusal> {
    Ok(Told {
        batch: copy_of(alloc, command)?,
        clock,
        reply: reply.into_vec(),
    })
}

/// Runs commands on a ledger.
fn run_all(alloc: Global, plain: &mut Plain, commands: &Vec<Command<Global>, Global>) {
    for command in commands {
        let _answer = plain.run(alloc, command);
    }
}

/// Whether receipts tell of these batches, in their order.
fn are_told(told: &Vec<Told, Global>, waiting: &Vec<Told, Global>) -> bool {
    for place in 0..told.len() {
        if !is_one_told(told.get(place), waiting.get(place)) {
            return false;
        }
    }
    told.len() == waiting.len()
}

fn is_one_told(told: Option<&Told>, waiting: Option<&Told>) -> bool {
    match (told, waiting) {
        (Some(told), Some(waiting)) => {
            told.clock == waiting.clock
                && told.reply.as_slice() == waiting.reply.as_slice()
                && is_same_batch(&told.batch, &waiting.batch)
        }
        _ => false,
    }
}

/// A copy of a batch or of a pulse.
fn copy_of(alloc: Global, command: &Command<Global>) -> Result<Command<Global>, Refusal> {
    Ok(match command {
        Command::Accounts { now, events } => Command::Accounts {
            now: *now,
            events: events.to_vec(alloc)?,
        },
        Command::Transfers { now, events } => Command::Transfers {
            now: *now,
            events: events.to_vec(alloc)?,
        },
        Command::Pulse { now, max } => Command::Pulse {
            now: *now,
            max: *max,
        },
        _ => Command::Publish,
    })
}

/// Whether two batches have the same moment and the same events.
fn is_same_batch(one: &Command<Global>, other: &Command<Global>) -> bool {
    match (one, other) {
        (
            Command::Accounts { now, events },
            Command::Accounts {
                now: moment,
                events: others,
            },
        ) => now == moment && events.as_slice() == others.as_slice(),
        (
            Command::Transfers { now, events },
            Command::Transfers {
                now: moment,
                events: others,
            },
        ) => now == moment && events.as_slice() == others.as_slice(),
        _ => false,
    }
}
