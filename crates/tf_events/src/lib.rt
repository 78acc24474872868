//! Batches of events, judged and stored over any ledger.
//!
//! A batch gets its timestamps and is cut into chains. Each event is judged after what is stored and the
//! events before it in its chain; a chain is stored as a whole, or not at all. What a batch leaves and
//! answers is `batch_step` of `specs/Batch.antt`, whatever keeps the journal.
#![tactic(auto)]

mod account;
mod batch;
mod chain;
mod cut;
mod event;
mod fits;
mod moving;
mod own_fault;
mod transfer;

pub use account::{stored_account, verdict_account};
pub use batch::{clock_after, run_accounts, run_transfers};
pub use transfer::{stored_transfer, verdict_transfer};
