//! What each worker of a storm did, in lines for people.

use std::io;
use std::io::Write;
use tf_workers::Done;

/// Writes a line for each worker, each kind numbered from 0:
///
/// - `client 0: 12 calls, 24570 entries`: how many batches, pulses and publishes a client did, and how many entries they stored;
/// - `compactor 0: 3 jobs, 3 installed`: how many merges a compactor did, and how many of them stand in the store;
/// - `query worker 0: 5 questions, 120 rows`: how many questions a query worker asked, and how many rows their answers have.
///
/// A client ends early for want of memory in a call that isn't counted. It takes no memory.
pub fn write_reports<W: Write>(done: &[Done], out: &mut W) -> io::Result<()> {
    let mut clients = 0u64;
    let mut compactors = 0u64;
    let mut query_workers = 0u64;
    for what in done {
        match what {
            Done::Client { pieces, stored } => {
                writeln!(out, "client {clients}: {pieces} calls, {stored} entries")?;
                clients = clients.saturating_add(1);
            }
            Done::Compactor { jobs, installed } => {
                writeln!(
                    out,
                    "compactor {compactors}: {jobs} jobs, {installed} installed"
                )?;
                compactors = compactors.saturating_add(1);
            }
            Done::QueryWorker { questions, rows } => {
                writeln!(
                    out,
                    "query worker {query_workers}: {questions} questions, {rows} rows"
                )?;
                query_workers = query_workers.saturating_add(1);
            }
        }
    }
    Ok(())
}
