//! Runs scripts and prints their answers; how the program ends.
//!
//! [`read_script`] reads a whole script, and [`run_commands`] runs its commands one after another by any [`Engine`] and
//! writes the lines of each. [`run_script_plainly`] does both over an empty plain ledger. What runs commands by calls of its
//! own writes their lines by [`write_batch`] and the others. [`write_ending`] writes the program's last line, and
//! [`exit_status`] answers its exit status.
#![tactic(auto)]

mod answer;
mod ending;
mod engine;
mod fault;
mod line;
mod line_buffer;
mod output;
mod plain;
mod row;
mod run;

pub use answer::{write_batch, write_compaction, write_found, write_publish, write_pulsed};
pub use ending::{Ending, exit_status, write_ending};
pub use engine::Engine;
pub use fault::RunFault;
pub use line::write_totals;
pub use plain::{Plain, run_script_plainly};
pub use row::Row;
pub use run::{read_script, run_commands};
