//! What tests call of a store. They name none of the types that a store is made of, nor what is proved of its calls, which would
//! both be spelled out in the proof of each test.

use crate::outcomes::is_refusal;
use crate::plain::{Outcome, Plain};
use std::alloc::Global;
use tf_records::{Failure, Refusal};
use tf_script::Command;

/// How many rows a store has.
pub const ROWS: usize = 21;

/// How many rows were answered, and whether each answer was right.
#[derive(Clone, Copy)]
pub struct Tally {
    pub rows: usize,
    pub is_right: bool,
}

impl Tally {
    /// No answer yet.
    pub const NONE: Tally = Tally {
        rows: 0,
        is_right: true,
    };

    /// What was asked isn't there, or has no memory.
    pub const WRONG: Tally = Tally {
        rows: 0,
        is_right: false,
    };
}

/// A batch that was published, as its receipt tells.
#[derive(Drop)]
pub struct Told {
    pub batch: Command<Global>,
    /// The clock before it.
    pub clock: u64,
    pub reply: Vec<Failure, Global>,
}

/// What a store counts.
#[derive(Clone, Copy, PartialEq, Eq)]
pub struct Counted {
    /// What shares count.
    pub book: u64,
    /// The same, as what always holds of a store tells it.
    pub facts: u64,
    pub failed: u64,
    pub clock: u64,
    /// Tables pushed.
    pub registered: u32,
    pub rows_sealed: u128,
    pub rows_held: u128,
    /// The tables of each row, in the order of the rows' numbers.
    pub references: [u32; ROWS],
    /// What the share that is asked for counts.
    pub by_share: u64,
    pub shares: usize,
    pub readers: usize,
}

impl Counted {
    /// Nothing.
    pub const NOTHING: Counted = Counted {
        book: 0,
        facts: 0,
        failed: 0,
        clock: 0,
        registered: 0,
        rows_sealed: 0,
        rows_held: 0,
        references: [0; ROWS],
        by_share: 0,
        shares: 0,
        readers: 0,
    };
}

/// What is done with a store, its versions and its merges.
#[derive(Clone, Copy)]
pub enum Act {
    /// A version is taken of the store, and kept.
    Take,
    /// The one that was taken last is let go.
    LetTakenGo,
    /// A reader is given a version, which is kept. The first reader is 0.
    Give(usize),
    /// The one that was given last is let go.
    LetGivenGo,
    /// A reader follows.
    Follow(usize),
    /// Readers are shown merged tables.
    ShowMerged,
    /// The next run of the row with a number, below [`ROWS`], is merged. What was merged is kept.
    Merge(usize),
    /// What was merged last is installed.
    Install,
}

/// What became of an act.
#[derive(Clone, Copy)]
pub enum Acted {
    /// It was done.
    Done,
    /// What it needs isn't there.
    Nothing,
    /// It was refused.
    Refused(Refusal),
}

impl Acted {
    /// Whether a word names it.
    pub fn is(self, word: &str) -> bool {
        match self {
            Acted::Done => word == "done" || word == "any",
            Acted::Nothing => word == "nothing",
            Acted::Refused(refusal) => is_refusal(refusal, word),
        }
    }
}

/// A version that is asked.
#[derive(Clone, Copy)]
pub enum Whom {
    /// One that was taken of the store. The first of those that are kept is 0.
    Taken(usize),
    /// One that a reader was given.
    Given(usize),
    /// The one that a reader holds.
    Held(usize),
}

/// A call of a store.
pub enum Call<'a> {
    /// Runs a batch or a pulse with a share, and no other command. The first share is 0.
    Run(usize, &'a Command<Global>),
    /// Publishes. A reader may learn of the last receipt.
    Publish(Option<usize>),
    /// Does something with it.
    Act(Act),
    /// Asks a version what the plain ledger is asked.
    Ask(Whom, &'a Plain),
    /// Compares it with the plain ledger, with the look-ups of so many ids.
    Compare(&'a Plain, u32),
    /// Counts what it has, and what a share counts.
    Count(usize),
}

/// What a store answers.
#[derive(Drop)]
pub enum Answered {
    Ran(Outcome),
    Published(Result<Vec<Told, Global>, Refusal>),
    Acted(Acted),
    /// How many rows a version answered, and whether they are those of the plain ledger.
    Asked(Tally),
    /// Whether it is like the plain ledger.
    Compared(bool),
    Counted(Counted),
    /// A share, a reader or a version isn't there.
    Nothing,
}

/// A store with its shares and readers.
pub trait Tried {
    /// Makes a call.
    fn call(&mut self, call: Call<'_>) -> Answered;
}
