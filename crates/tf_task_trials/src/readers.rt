//! Readers, as query workers of tests see them. They are generic in the version that a reader is given.
ghost use Rattle.std.specs.Prelude.{◌≡◌, vec_len, IfErr, IfOk};

use std::alloc::{AllocError, Global};
use tf_readers::{Asked, Found, Publishable, Reader};
use tf_records::{Refusal, Transfer};
use tf_store::StoreName;
use tf_workers::{Ask, VersionReader};

/// A reader that answers so many questions and is refused memory then. It is refused memory at once where a version has fewer rows
/// than one before it had.
#[derive(Drop)]
pub struct WatchedReader<V: Publishable + Drop, S: StoreName> {
    pub reader: Reader<V, Global, S>,
    answers: u64,
    rows: u64,
}

impl<V: Publishable + Drop, S: StoreName> WatchedReader<V, S> {
    /// What it was given by its count of the rows of a version.
    fn watch(&mut self, found: Result<u64, Refusal>) -> Result<u64, Refusal>
        requires { IfErr found (λ refusal. refusal ≡ Refusal.NoMemory) }
        ensures { IfErr result (λ refusal. refusal ≡ Refusal.NoMemory) }
    {
        let Ok(rows) = found else {
            return Err(Refusal::NoMemory);
        };
        if rows < self.rows || self.answers == 0 {
            return Err(Refusal::NoMemory);
        }
        self.answers -= 1;
        self.rows = rows;
        Ok(rows)
    }
}

impl<V: Publishable + Drop, S: StoreName> VersionReader for WatchedReader<V, S> {
    fn count_rows(&mut self, alloc: Global, ask: &Ask) -> Result<u64, Refusal> {
        match self.reader.latest() {
            Some(version) => self.watch(count(alloc, &version, ask)),
            None => Ok(0),
        }
    }
}

/// Readers that answer so many questions.
pub fn watched<V: Publishable + Drop, S: StoreName>(
    alloc: Global,
    readers: Vec<Reader<V, Global, S>, Global>,
    answers: u64,
) -> Result<Vec<WatchedReader<V, S>, Global>, AllocError>
    ensures { IfOk result (λ watched. vec_len watched ≡ vec_len readers) }
{
    let mut watched = Vec::new(alloc);
    for reader in readers {
        watched.push(WatchedReader {
            reader,
            answers,
            rows: 0,
        })?;
    }
    Ok(watched)
}

/// How many rows a version answers, 0 to a question that no test asks.
fn count<V: Publishable>(alloc: Global, version: &V, ask: &Ask) -> Result<u64, Refusal>
    ensures { IfErr result (λ refusal. refusal ≡ Refusal.NoMemory) }
{
    match ask {
        Ask::AccountTransfers(filter) => {
            count_one(alloc, version, &Asked::AccountTransfers(*filter))
        }
        Ask::QueryAccounts(filter) => count_one(alloc, version, &Asked::Accounts(*filter)),
        _ => Ok(0),
    }
}

/// How many rows a version answers to one query.
fn count_one<V: Publishable>(alloc: Global, version: &V, asked: &Asked) -> Result<u64, Refusal>
    ensures { IfErr result (λ refusal. refusal ≡ Refusal.NoMemory) }
{
    match version.ask(alloc, asked) {
        Ok(Found::Transfers(rows)) => Ok(rows.len() as u64),
        Ok(Found::Balances(rows)) => Ok(rows.len() as u64),
        Ok(Found::Accounts(rows)) => Ok(rows.len() as u64),
        Err(refusal) => Err(refusal),
    }
}

/// The bytes of the transfers that a version answers, nothing where it is refused memory.
pub fn transfer_bytes<V: Publishable>(
    alloc: Global,
    version: &V,
    asked: &Asked,
) -> Vec<u8, Global> {
    match version.ask(alloc, asked) {
        Ok(Found::Transfers(rows)) => match bytes_of(alloc, rows.as_slice()) {
            Ok(bytes) => bytes,
            Err(_) => Vec::new(alloc),
        },
        _ => Vec::new(alloc),
    }
}

/// The bytes of transfers.
fn bytes_of(alloc: Global, rows: &[Transfer]) -> Result<Vec<u8, Global>, AllocError> {
    let mut bytes = Vec::new(alloc);
    for row in rows {
        bytes.extend_from_slice(&row.to_bytes())?;
    }
    Ok(bytes)
}
