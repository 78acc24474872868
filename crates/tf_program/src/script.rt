//! Runs of one script.

use crate::files::ending_unless_no_memory;
use std::alloc::Global;
use std::env::Args;
use std::io::{BufWriter, Write};
use std::rt::Files;
use std::sync::Wait;
use std::{fs, io};
use tf_main::{Ending, RunFault};
use tf_served::run_script;

/// Runs the script in the file that these arguments name.
pub fn run_script_in<R: Files + Print + AllocGlobal + Wait>(rt: &R, args: Args<Global>) -> Ending {
    let mut args = args;
    let Some(name) = args.next() else {
        return Ending::Usage;
    };
    if args.next().is_some() {
        return Ending::Usage;
    }
    run_file(rt, name)
}

/// Runs the script in the file of this name.
fn run_file<R: Files + Print + AllocGlobal + Wait>(rt: &R, name: String) -> Ending {
    let script = match fs::read(rt, name.as_str()) {
        Ok(script) => script,
        Err(error) => return ending_unless_no_memory(error, Ending::CannotRead(name)),
    };
    let Ok(mut out) = BufWriter::new(rt.alloc(), io::writer(rt)) else {
        return Ending::Fault(RunFault::NoMemory);
    };
    let outcome = run_script(rt, rt.alloc(), script.as_slice(), &mut out);
    let flushed = out.flush().map_err(RunFault::CannotWrite);
    match outcome.and(flushed) {
        Ok(()) => Ending::Done,
        Err(fault) => Ending::Fault(fault),
    }
}
