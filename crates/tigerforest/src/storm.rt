//! Storms of scripts.

use std::alloc::Global;
use std::env::Args;
use std::io;
use std::io::{BufWriter, Write};
use std::marker::Sync;
use std::rt::Files;
use std::sync::Wait;
use std::thread::Threads;
use tf_main::{Ending, RunFault};
use tf_storm::{Done, storm_files};

/// The word that asks for what each worker did.
const VERBOSE: &str = "-v";

/// Runs the scripts in the files that these arguments name, all at once. Gives what each worker did, if the first argument asks for it
/// and the storm told its totals.
pub(crate) fn storm_scripts_in<R: Files + Print + AllocGlobal + Wait + Threads + Sync>(
    rt: &R,
    args: Args<Global>,
) -> (Ending, Vec<Done, Global>) {
    let nothing = Vec::new(rt.alloc());
    let mut is_verbose = false;
    let mut names = Vec::new(rt.alloc());
    for name in args {
        if names.is_empty() && !is_verbose && name.as_str() == VERBOSE {
            is_verbose = true;
        } else if names.push(name).is_err() {
            return (Ending::Fault(RunFault::NoMemory), nothing);
        }
    }
    let Ok(mut out) = BufWriter::new(rt.alloc(), io::writer(rt)) else {
        return (Ending::Fault(RunFault::NoMemory), nothing);
    };
    let (ending, done) = storm_files(rt, names, &mut out);
    let flushed = out.flush();
    let ending = match (ending, flushed) {
        (Ending::Done, Err(error)) => Ending::Fault(RunFault::CannotWrite(error)),
        (ending, _) => ending,
    };
    (ending, if is_verbose { done } else { nothing })
}
