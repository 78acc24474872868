//! A store as what a script's commands are run by: each query is answered by a version of sealed tables.
#![tactic(auto)]

mod run;
mod served;

pub use served::Served;
