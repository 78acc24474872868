//! How workers ended, and what they hand back.

use std::alloc::{AllocError, Global};
use tf_jobs::JobSeat;
use tf_records::Refusal;

/// How a client ended: at the end of its work, or early for want of memory. `H` is the type of its share, `J` of jobs.
#[derive(Drop)]
pub struct Ended<H: Drop, J> {
    /// What it stored, also where it ended early.
    pub share: H,
    /// How many pieces of its work it did, and how many entries they stored, 2^64 - 1 where they are more.
    pub pieces: u64,
    pub stored: u64,
    /// Its seat at the queue.
    pub seat: JobSeat<J>,
    /// Why it ended early: `NoMemory`.
    pub fault: Option<Refusal>,
}

/// How a query worker ended.
#[derive(Drop)]
pub struct Asked {
    /// How many questions it asked.
    pub questions: u64,
    /// The rows of all its answers, 2^64 - 1 where they are more.
    pub rows: u64,
    /// Why it ended early: `NoMemory`.
    pub fault: Option<Refusal>,
}

/// How a compactor ended.
#[derive(Drop)]
pub struct Compacted<J> {
    /// How many jobs it took.
    pub jobs: u64,
    /// How many merged tables it installed, 2^64 - 1 where they are more.
    pub installed: u64,
    /// Its seat at the queue.
    pub seat: JobSeat<J>,
    /// Why it ended early: `NoMemory`.
    pub fault: Option<Refusal>,
}

/// What a worker did. Each count is 2^64 - 1 where it is more.
#[derive(Clone, Copy, PartialEq, Eq, Debug)]
pub enum Done {
    /// How many pieces of its work a client did, and how many entries they stored.
    Client { pieces: u64, stored: u64 },
    /// How many questions a query worker asked, and how many rows their answers have.
    QueryWorker { questions: u64, rows: u64 },
    /// How many jobs a compactor took, and how many merged tables it installed.
    Compactor { jobs: u64, installed: u64 },
}

/// What clients gave back, and what all workers did.
#[derive(Drop)]
pub struct Joined<H: Drop> {
    /// The shares of all clients.
    pub shares: Vec<H, Global>,
    /// What each worker did: clients, compactors and query workers, each kind by rising number.
    pub done: Vec<Done, Global>,
    /// Whether no worker ended early for want of memory.
    pub complete: bool,
}

/// Memory was refused.
#[derive(Clone, Copy, PartialEq, Eq, Debug)]
pub struct WantOfMemory;

impl From<AllocError> for WantOfMemory {
    fn from(_refused: AllocError) -> Self {
        WantOfMemory
    }
}

/// What a client's critical section leaves.
#[derive(Drop)]
pub struct Section<H: Drop, J: Drop> {
    /// The client's share.
    pub share: H,
    /// How many entries were stored.
    pub stored: u64,
    /// The jobs that were picked.
    pub jobs: Result<Vec<J, Global>, WantOfMemory>,
}

/// What a question to a reader leaves.
#[derive(Drop)]
pub struct Answered<Q: Drop> {
    /// The reader.
    pub reader: Q,
    /// How many rows the answer has.
    pub rows: Result<u64, WantOfMemory>,
}
