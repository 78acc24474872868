//! Runs worked scripts and worked storms, and tells whether they write what they should. For tests alone.
//!
//! It is a crate beside the program that reads a list of them, since what a program checks takes the more memory the more it calls.
#![tactic(auto)]

mod files;
mod scripts;
mod storms;
mod verdict;

pub use scripts::verdict_of_script;
pub use storms::verdict_of_storm;
pub use verdict::Verdict;
