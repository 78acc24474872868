//! Trials of rows of tables: what is done with rows, and how they have to look then. They know rows by a trait ([`Subject`]), and so
//! name none of what rows are made of, which is dear to own. A manifest is such rows. For tests alone.
#![tactic(auto)]

mod manifests;
mod outcomes;
mod runs;
mod subject;
mod tables;
mod trials;

pub use outcomes::{Outcome, keep, keep_found, outcome_of};
pub use subject::{Mergeable, Subject, grow_to, installs, merge_next};
pub use tables::{key, push, table};
pub use trials::{LIMIT, Trial, tried};
