//! Storms of scripts: a client for each script, query workers and compactors, over a store of their own.
//!
//! [`run_storm`] reads all scripts, runs their commands by workers in threads, and writes what was counted. [`storm_files`] does so
//! with the scripts in files.
#![tactic(auto)]

mod bring_up;
mod faults;
mod files;
mod reports;
mod storms;
mod tasks;

pub use faults::RunStormFault;
pub use files::storm_files;
pub use reports::write_reports;
pub use storms::{Storm, run_storm};
pub use tf_workers::Done;
