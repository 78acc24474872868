//! Query workers: each asks a reader one thing after another, and counts the rows of the answers. They know versions alone, take no
//! lock, and wait for nobody.
#![tactic(auto)]

mod ask;
mod query_workers;

pub use ask::Ask;
pub use query_workers::{VersionReader, answer_of_list, query_worker};
