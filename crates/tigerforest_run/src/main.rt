//! The program without storms: `tigerforest_run run SCRIPT` runs a script over an empty store and prints its answer.
#![tactic(auto)]

use std::env;
use std::process::ExitCode;
use std::rt::{Env, Files};
use std::sync::Wait;
use tf_main::{Ending, exit_status, write_ending};
use tf_program::{ending_unless_no_memory, run_script_in};

fn main(rt: HostRuntime) -> ExitCode {
    let ending = run(&rt);
    // There is nobody left to tell where it can't be written.
    let _ = write_ending(&ending, &mut rt.stderr());
    ExitCode::from(exit_status(&ending))
}

/// Does what the arguments ask for.
fn run<R: Env + Files + Print + AllocGlobal + Wait>(rt: &R) -> Ending {
    let mut args = match env::args(rt) {
        Ok(args) => args,
        Err(error) => return ending_unless_no_memory(error, Ending::Usage),
    };
    let _program = args.next();
    match args.next() {
        Some(command) if command.as_str() == "run" => run_script_in(rt, args),
        _ => Ending::Usage,
    }
}
