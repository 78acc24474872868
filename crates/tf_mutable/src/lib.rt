//! Mutable tables, whose rows are put and taken back until they are sealed: trees and logs.
#![tactic(auto)]

mod log;
mod mutable;
mod sealing;

pub use log::Log;
pub use mutable::MutableTable;
pub use sealing::seal;
