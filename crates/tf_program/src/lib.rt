//! What a program does that runs one script: the file that its arguments name, and the answer on standard output.
//!
//! Two programs do so: `tigerforest`, which knows storms too, and `tigerforest_run`, which doesn't and so is built in half the time.
#![tactic(auto)]

mod files;
mod script;

pub use files::ending_unless_no_memory;
pub use script::run_script_in;
