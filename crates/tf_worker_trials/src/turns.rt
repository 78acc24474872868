//! Workers one after another, in one thread.
ghost use Rattle.std.specs.Prelude.{◌≡◌, IfOk};

use crate::calls::{expiry_tables, take_book};
use std::alloc::{AllocError, Global};
use std::sync::{Mutex, Wait};
use tf_manifest::Job;
use tf_query::Version;
use tf_readers::{Asked, Publishable};
use tf_records::Refusal;
use tf_rows::SealRows;
use tf_store::{Share, StoreName, VersionCopies};
use tf_task_trials::{CountingGate, WatchedReader, transfer_bytes, transfers_of_first};
use tf_workers::{
    Ask, Compacted, Ended, JobQueue, JobSeat, OpenGate, Reckoning, SharedStore, Work, client,
    compactor, query_worker, reckon,
};

/// What came of a client and of a compactor behind it.
#[derive(Clone, Copy)]
pub struct Merges {
    /// What the client's share counts.
    pub share: u64,
    /// Whether neither lacked memory, and the client did all pieces of its work and counted what its share counts.
    pub is_complete: bool,
    /// How many tables the compactor installed.
    pub installed: u64,
    /// What the queue's seats offered and took.
    pub reckoned: Reckoning,
    /// How often the compactor's gate was called before a job, and how often after one.
    pub jobs: (u64, u64),
    /// How many jobs the compactor says that it took.
    pub taken: u64,
    /// How many tables the row of expiries refers to, before the compactor and after it.
    pub references: (u32, u32),
    /// Whether a version that was given before the compactor answered with the same bytes after it, and with some.
    pub is_kept: bool,
}

/// What came of workers in turn.
#[derive(Clone, Copy)]
pub struct Turns {
    pub merges: Merges,
    /// The rows of the query worker's answers, none where it lacked memory or asked too little.
    pub rows: Option<u64>,
    /// How often the query worker's gate was called before a question, and how often after one.
    pub questions: (u64, u64),
    /// How many entries are stored.
    pub book: u64,
}

/// A queue, and its two seats.
type Bench<J> = (JobQueue<J>, JobSeat<J>, JobSeat<J>);

/// A queue with two seats.
fn bench<J: Drop>(alloc: Global) -> Result<Bench<J>, Refusal>
    ensures first { IfOk result (λ b. (b.1.queue ≡ b.0.number) × (b.1.seats ≡ 2)) }
    ensures second { IfOk result (λ b. (b.2.queue ≡ b.0.number) × (b.2.seats ≡ 2)) }
{
    let (queue, mut seats) = JobQueue::new(alloc, 64, 2)?;
    let Some(first) = seats.pop() else {
        unreachable!()
    };
    let Some(second) = seats.pop() else {
        unreachable!()
    };
    Ok((queue, first, second))
}

/// What both seats of a queue offered and took.
fn reckoned<J: Drop>(
    rt: &impl Wait,
    alloc: Global,
    queue: JobQueue<J>,
    first: JobSeat<J>,
    second: JobSeat<J>,
) -> Result<Reckoning, AllocError>
    requires first { (first.queue ≡ queue.number) × (first.seats ≡ 2) }
    requires second { (second.queue ≡ queue.number) × (second.seats ≡ 2) }
{
    let mut seats = Vec::with_capacity(alloc, 2)?;
    let Ok(()) = seats.push(first) else {
        unreachable!()
    };
    let Ok(()) = seats.push(second) else {
        unreachable!()
    };
    Ok(reckon(rt, queue, seats))
}

/// The bytes of the transfers of account 1 in the version that a reader holds.
fn held_bytes<V: Publishable + Drop, S: StoreName>(
    alloc: Global,
    reader: &WatchedReader<V, S>,
) -> Vec<u8, Global> {
    let asked = Asked::AccountTransfers(transfers_of_first());
    transfer_bytes(alloc, reader.reader.held(), &asked)
}

/// A client's work. Gives what its share counts, whether it did all of it and told so, and its seat.
fn store_in_turn<T, C, S, R>(
    rt: &R,
    alloc: Global,
    store: &Mutex<SharedStore<T, C, Global, S>>,
    queue: &JobQueue<Job<Global, S>>,
    seat: JobSeat<Job<Global, S>>,
    share: Share<S>,
    work: &[Work],
) -> (u64, bool, JobSeat<Job<Global, S>>)
where
    T: SealRows<Global> + Drop,
    C: VersionCopies<Version<Global, S>, S> + Drop,
    S: StoreName,
    R: Wait,
    requires { seat.queue ≡ queue.now.number }
    ensures { (result.2.queue ≡ seat.queue) × (result.2.seats ≡ seat.seats) }
{
    let Ended {
        share,
        pieces,
        stored,
        seat,
        fault,
    } = client(rt, alloc, store, queue, seat, work, share, 0, &OpenGate);
    let count = share.count();
    let is_complete = fault.is_none() && pieces == work.len() as u64 && stored == count;
    (count, is_complete, seat)
}

/// What a compactor did in turn.
#[derive(Clone, Copy)]
struct Installs {
    /// How many jobs it says that it took, and how many tables it installed.
    taken: u64,
    installed: u64,
    /// How often its gate was called before a job, and how often after one.
    jobs: (u64, u64),
    /// Whether it had memory.
    is_complete: bool,
}

/// A compactor that takes all that was offered, once the queue is closed. Gives its seat too.
fn install_in_turn<T, C, S, R>(
    rt: &R,
    alloc: Global,
    store: &Mutex<SharedStore<T, C, Global, S>>,
    queue: &JobQueue<Job<Global, S>>,
    seat: JobSeat<Job<Global, S>>,
) -> (Installs, JobSeat<Job<Global, S>>)
where
    T: SealRows<Global> + Drop,
    C: VersionCopies<Version<Global, S>, S> + Drop,
    S: StoreName,
    R: Wait,
    requires { seat.queue ≡ queue.now.number }
    ensures { (result.1.queue ≡ seat.queue) × (result.1.seats ≡ seat.seats) }
{
    let gate = CountingGate::new();
    let Compacted {
        jobs,
        installed,
        seat,
        fault,
    } = compactor(rt, alloc, store, queue, seat, 1, &gate);
    let installs = Installs {
        taken: jobs,
        installed,
        jobs: gate.calls(),
        is_complete: fault.is_none(),
    };
    (installs, seat)
}

/// A client's work, and then a compactor that takes all that it offered.
fn merge_in_turn<T, C, V, S, R>(
    rt: &R,
    alloc: Global,
    store: &Mutex<SharedStore<T, C, Global, S>>,
    share: Share<S>,
    reader: &mut WatchedReader<V, S>,
    work: &[Work],
) -> Result<Merges, Refusal>
where
    T: SealRows<Global> + Drop,
    C: VersionCopies<Version<Global, S>, S> + Drop,
    V: Publishable + Drop,
    S: StoreName,
    R: Wait,
{
    let (queue, first, second) = bench(alloc)?;
    let (count, is_complete, first) = store_in_turn(rt, alloc, store, &queue, first, share, work);
    let follows = reader.reader.follow();
    let before = expiry_tables(&store.lock(rt));
    let answer = held_bytes(alloc, reader);
    queue.close();
    let (installs, second) = install_in_turn(rt, alloc, store, &queue, second);
    let kept = held_bytes(alloc, reader);
    let after = expiry_tables(&store.lock(rt));
    Ok(Merges {
        share: count,
        is_complete: is_complete && follows && installs.is_complete,
        installed: installs.installed,
        reckoned: reckoned(rt, alloc, queue, first, second)?,
        jobs: installs.jobs,
        taken: installs.taken,
        references: (before, after),
        is_kept: !kept.is_empty() && kept.as_slice() == answer.as_slice(),
    })
}

/// A client, a compactor and a query worker at a store, one after another. Ends the store.
pub(crate) fn take_turns<T, C, V, S, R>(
    rt: &R,
    alloc: Global,
    shared: SharedStore<T, C, Global, S>,
    share: Share<S>,
    reader: WatchedReader<V, S>,
    work: &[Work],
    asks: &[Ask],
) -> Option<Turns>
where
    T: SealRows<Global> + Drop,
    C: VersionCopies<Version<Global, S>, S> + Drop,
    V: Publishable + Drop,
    S: StoreName,
    R: Wait,
{
    let lock = Mutex::new(shared);
    let mut reader = reader;
    let merges = merge_in_turn(rt, alloc, &lock, share, &mut reader, work);
    let gate = CountingGate::new();
    let asked = query_worker(alloc, reader, asks, 2, &gate);
    let book = take_book(lock.into_inner());
    match merges {
        Ok(merges) => Some(Turns {
            merges,
            rows: if asked.fault.is_none() && asked.questions == asks.len() as u64 {
                Some(asked.rows)
            } else {
                None
            },
            questions: gate.calls(),
            book,
        }),
        Err(_) => None,
    }
}
