//! Query workers.
ghost use Rattle.std.specs.Prelude.{◌≡◌, IfErr, IfOk, IfSome, Ok};
ghost use Rattle.tf_asking.specs.Asks.{row_count_of};

use crate::Ask;
use std::alloc::{Allocator, Global};
use tf_crew::{Answered, Asked as Counted, Gate, WantOfMemory, query_worker_by};
use tf_history::HistoryName;
use tf_readers::{Asked, Found, Publishable, Reader};
use tf_records::{BATCH_MAX, Refusal};

/// A reader, as query workers see it. It takes no lock.
pub trait VersionReader {
    /// How many rows the version that was published last answers, 0 where there is none to be had, and where more than `BATCH_MAX`
    /// ids are asked for.
    ///
    /// `NoMemory` is the only refusal.
    fn count_rows(&mut self, alloc: Global, ask: &Ask) -> Result<u64, Refusal>
        ensures { IfErr result (λ refusal. refusal ≡ Refusal.NoMemory) };
}

impl<V: Publishable + Drop, A: Allocator, S: HistoryName> VersionReader for Reader<V, A, S> {
    fn count_rows(&mut self, alloc: Global, ask: &Ask) -> Result<u64, Refusal> {
        match self.latest() {
            Some(version) => rows_of(alloc, &version, ask),
            None => Ok(0),
        }
    }
}

/// How many rows a version answers: none where more than `BATCH_MAX` ids are asked for. `NoMemory` is the only refusal.
fn rows_of<V: Publishable>(alloc: Global, version: &V, ask: &Ask) -> Result<u64, Refusal>
    ensures { IfErr result (λ refusal. refusal ≡ Refusal.NoMemory) }
{
    match ask {
        Ask::AccountTransfers(filter) => count(alloc, version, &Asked::AccountTransfers(*filter)),
        Ask::AccountBalances(filter) => count(alloc, version, &Asked::AccountBalances(*filter)),
        Ask::QueryAccounts(filter) => count(alloc, version, &Asked::Accounts(*filter)),
        Ask::QueryTransfers(filter) => count(alloc, version, &Asked::Transfers(*filter)),
        Ask::Accounts(ids) => count_accounts(alloc, version, ids.as_slice()),
        Ask::Transfers(ids) => count_transfers(alloc, version, ids.as_slice()),
    }
}

/// How many rows a version answers to one query or to a look-up of one id.
fn count<V: Publishable>(alloc: Global, version: &V, asked: &Asked) -> Result<u64, Refusal>
    ensures rows { IfOk result (λ rows. rows ≡ row_count_of (V.journal version.now) asked.now) }
    ensures refusal { IfErr result (λ refusal. refusal ≡ Refusal.NoMemory) }
{
    match version.ask(alloc, asked) {
        Ok(Found::Transfers(rows)) => Ok(rows.len() as u64),
        Ok(Found::Balances(rows)) => Ok(rows.len() as u64),
        Ok(Found::Accounts(rows)) => Ok(rows.len() as u64),
        Err(refusal) => Err(refusal),
    }
}

/// How many accounts have these ids, which are looked up one by one: 0 where more than `BATCH_MAX` are asked for.
fn count_accounts<V: Publishable>(alloc: Global, version: &V, ids: &[u128]) -> Result<u64, Refusal>
    ensures { IfErr result (λ refusal. refusal ≡ Refusal.NoMemory) }
{
    if ids.len() > BATCH_MAX as usize {
        return Ok(0);
    }
    let mut rows = 0u64;
    for id in ids {
        match count(alloc, version, &Asked::AccountWithId(*id)) {
            Ok(more) => rows = rows.saturating_add(more),
            Err(refusal) => return Err(refusal),
        }
    }
    Ok(rows)
}

/// How many transfers have these ids, which are looked up one by one: 0 where more than `BATCH_MAX` are asked for.
fn count_transfers<V: Publishable>(alloc: Global, version: &V, ids: &[u128]) -> Result<u64, Refusal>
    ensures { IfErr result (λ refusal. refusal ≡ Refusal.NoMemory) }
{
    if ids.len() > BATCH_MAX as usize {
        return Ok(0);
    }
    let mut rows = 0u64;
    for id in ids {
        match count(alloc, version, &Asked::TransferWithId(*id)) {
            Ok(more) => rows = rows.saturating_add(more),
            Err(refusal) => return Err(refusal),
        }
    }
    Ok(rows)
}

/// Asks a reader, if there is something to ask. A reader's only refusal is `NoMemory`.
fn answer<Q: VersionReader + Drop>(alloc: Global, ask: Option<&Ask>, reader: Q) -> Answered<Q> {
    let mut reader = reader;
    let rows = match ask {
        Some(ask) => told(reader.count_rows(alloc, ask)),
        None => Ok(0),
    };
    Answered { reader, rows }
}

/// What was counted, or that memory was refused.
fn told(found: Result<u64, Refusal>) -> Result<u64, WantOfMemory>
    requires { IfErr found (λ refusal. refusal ≡ Refusal.NoMemory) }
    ensures { IfOk found (λ rows. result ≡ Ok rows) }
{
    match found {
        Ok(rows) => Ok(rows),
        Err(_) => Err(WantOfMemory),
    }
}

/// The question of a number in the list of a query worker.
fn question(asks: &[Vec<Ask>], first: usize, worker: u32, number: usize) -> Option<&Ask> {
    let place = (worker as usize).saturating_sub(first);
    asks.get(place)?.as_slice().get(number)
}

/// Asks a reader the question of this number in the list of the query worker with this one, of which the first has number `first`, if
/// there is such a question: what a crew has query workers do.
pub fn answer_of_list<Q: VersionReader + Drop>(
    alloc: Global,
    asks: &[Vec<Ask>],
    first: usize,
    place: (u32, usize),
    reader: Q,
) -> Answered<Q> {
    let (worker, number) = place;
    answer(alloc, question(asks, first, worker, number), reader)
}

/// Asks a reader one thing after another, each of the version that was published last, and counts the rows of the answers.
///
/// What there is no version for is passed over, as is a look-up of more than `BATCH_MAX` ids. It ends early only for want
/// of memory. It takes no lock and waits for nobody.
pub fn query_worker<Q, G>(alloc: Global, reader: Q, asks: &[Ask], worker: u32, gate: &G) -> Counted
where
    Q: VersionReader + Drop,
    G: Gate,
    ensures { IfSome result.fault (λ fault. fault ≡ Refusal.NoMemory) }
{
    let ask = |_worker: u32, number: usize, reader: Q| answer(alloc, asks.get(number), reader);
    query_worker_by(&ask, reader, asks.len(), worker, gate)
}
