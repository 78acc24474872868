//! The program. `tigerforest run SCRIPT` runs a script over an empty store and prints its answer. `tigerforest storm SCRIPT..` runs 1
//! to 64 scripts over one empty store, all at once, and prints what their clients stored; with `-v` before the scripts it tells what
//! each worker did, on standard error.
#![tactic(auto)]

mod storm;

use crate::storm::storm_scripts_in;
use std::alloc::Global;
use std::env;
use std::marker::Sync;
use std::process::ExitCode;
use std::rt::{Env, Files};
use std::sync::Wait;
use std::thread::Threads;
use tf_main::{Ending, exit_status, write_ending};
use tf_program::{ending_unless_no_memory, run_script_in};
use tf_storm::{Done, write_reports};

fn main(rt: HostRuntime) -> ExitCode {
    let (ending, done) = run(&rt);
    let mut err = rt.stderr();
    // There is nobody left to tell where they can't be written.
    let _ = write_ending(&ending, &mut err);
    let _ = write_reports(done.as_slice(), &mut err);
    ExitCode::from(exit_status(&ending))
}

/// Does what the arguments ask for. Gives what each worker of a storm did, where they ask for it.
fn run<R: Env + Files + Print + AllocGlobal + Wait + Threads + Sync>(
    rt: &R,
) -> (Ending, Vec<Done, Global>) {
    let mut args = match env::args(rt) {
        Ok(args) => args,
        Err(error) => {
            let ending = ending_unless_no_memory(error, Ending::Usage);
            return (ending, Vec::new(rt.alloc()));
        }
    };
    let _program = args.next();
    let Some(command) = args.next() else {
        return (Ending::Usage, Vec::new(rt.alloc()));
    };
    if command.as_str() == "run" {
        (run_script_in(rt, args), Vec::new(rt.alloc()))
    } else if command.as_str() == "storm" {
        storm_scripts_in(rt, args)
    } else {
        (Ending::Usage, Vec::new(rt.alloc()))
    }
}
