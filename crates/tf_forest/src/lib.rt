//! The forest: a ledger whose journal its rows spell, whose last entries can be taken back, and which is published.
#![tactic(auto)]

mod compaction;
mod due;
mod forest;
mod ledger;
mod note;
mod publishing;
mod used_ids;

pub use forest::Forest;
