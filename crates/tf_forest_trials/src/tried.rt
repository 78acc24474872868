//! What tests call of a forest and of its versions. They name none of the types that a forest is made of, nor what is proved of
//! its calls, which would both be spelled out in the proof of each test.

use crate::asking::Outcome;
use linked_list_allocator::LocalHeap;
use std::alloc::Global;
use tf_script::Command;
use tf_trials::{Acted, ROWS};

/// What is done with a forest, its versions and its merges.
#[derive(Clone, Copy)]
pub enum Act {
    /// What was stored is published.
    Publish,
    /// The same, and a version is taken and kept.
    Take,
    /// The version that was taken last is let go.
    LetGo,
    /// The next run of the row with a number, below [`ROWS`], is merged. What was merged is kept.
    Merge(usize),
    /// What was merged last is installed.
    Install,
}

/// What a forest counts.
#[derive(Clone, Copy)]
pub struct Counted {
    /// Tables pushed.
    pub pushed: u32,
    pub publishes: u64,
    pub rows_sealed: u128,
    pub rows_held: u128,
    /// The tables of each row, in the order of the rows' numbers.
    pub references: [u32; ROWS],
    /// Those of the row of transfers.
    pub tables_of_transfers: u32,
    /// Whether a transfer has the id 1.
    pub has_first: bool,
}

impl Counted {
    /// Nothing.
    pub const NOTHING: Counted = Counted {
        pushed: 0,
        publishes: 0,
        rows_sealed: 0,
        rows_held: 0,
        references: [0; ROWS],
        tables_of_transfers: 0,
        has_first: false,
    };
}

/// How a version, or a forest whose heap has little room, answered.
#[derive(Clone, Copy)]
pub enum Asked {
    /// It was refused memory.
    NoMemory,
    /// As was expected.
    Expected,
    /// Otherwise, or the version isn't there.
    Wrong,
}

/// A call of a forest.
pub enum Call<'a> {
    /// Runs a batch or a pulse, and no other command.
    Run(&'a Command<Global>),
    /// Does something with it.
    Act(Act),
    /// Asks a version, by its place, what a command asks, where this outcome is expected. The first of those that are kept is 0.
    Ask(usize, &'a Command<Global>, &'a Outcome<Global>),
    /// The same, with memory of a heap alone.
    AskOn(&'a LocalHeap, usize, &'a Command<Global>, &'a Outcome<Global>),
    /// Counts what the forest has.
    Count,
}

/// What a forest answers.
#[derive(Drop)]
pub enum Answered {
    Ran(tf_trials::Outcome),
    Acted(Acted),
    Asked(Asked),
    Counted(Counted),
}

/// A forest with the versions that were taken of it.
pub trait Tried {
    /// Makes a call.
    fn call(&mut self, call: Call<'_>) -> Answered;
}
