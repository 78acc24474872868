//! What workers are given to do in tests, gates at which they meet or are counted, and readers that are watched. No function of it has
//! a store. For tests alone.
#![tactic(auto)]

mod gates;
mod readers;
mod tasks;

pub use gates::{CountingGate, Meetings};
pub use readers::{WatchedReader, transfer_bytes, watched};
pub use tasks::{Tasks, one_client, random_tasks, storm_of, transfers_of_first};
