//! The program: runs worked scripts and worked storms, and compares what they write with what they should.
//!
//! Standard input has a file in each line, of the folder that the program runs in:
//!
//! - NAME.script is a script. It is run over an empty plain ledger, over an empty store, and over stores with publishes and merges
//!   strewn in. What it writes, with the line of its ending, is to be NAME.out.
//! - NAME.args has the words of a storm's call: `storm`, and the scripts' files. What the call writes is to be NAME.out, what it
//!   says on standard error NAME.err, and its exit status NAME.status; where the latter two aren't there, nothing and 0.
#![tactic(auto)]

use std::io;
use std::marker::Sync;
use std::process::ExitCode;
use std::rt::Files;
use std::sync::Wait;
use std::thread::Threads;
use tf_verdicts::{Verdict, verdict_of_script, verdict_of_storm};

/// How many scripts and storms were run, and how many of what is listed is wrong.
#[derive(Clone, Copy)]
struct Tally {
    scripts: u64,
    storms: u64,
    wrong: u64,
}

fn main(rt: HostRuntime) -> io::Result<ExitCode> {
    let Tally {
        scripts,
        storms,
        wrong,
    } = run_listed(&rt)?;
    println!(rt; "{scripts} scripts and {storms} storms, {wrong} wrong")?;
    Ok(if wrong == 0 {
        ExitCode::SUCCESS
    } else {
        ExitCode::FAILURE
    })
}

/// Runs each script and each storm that standard input lists, and prints a line for each.
fn run_listed<R: Input + Print + Files + AllocGlobal + Wait + Threads + Sync>(
    rt: &R,
) -> io::Result<Tally> {
    let mut tally = Tally {
        scripts: 0,
        storms: 0,
        wrong: 0,
    };
    for line in rt.lines(rt.alloc()) {
        let file = line?;
        if file.is_empty() {
            continue;
        }
        let verdict = run_file(rt, file.as_str(), &mut tally)?;
        println!(rt; "{file} {verdict}")?;
        if !verdict.is_right() {
            tally.wrong = tally.wrong.saturating_add(1);
        }
    }
    Ok(tally)
}

/// Runs and counts the script or the storm that a file's ending says it is.
fn run_file<R: Files + AllocGlobal + Wait + Threads + Sync>(
    rt: &R,
    file: &str,
    tally: &mut Tally,
) -> io::Result<Verdict> {
    if let Some(name) = file.strip_suffix(".script") {
        tally.scripts = tally.scripts.saturating_add(1);
        return verdict_of_script(rt, name);
    }
    if let Some(name) = file.strip_suffix(".args") {
        tally.storms = tally.storms.saturating_add(1);
        return verdict_of_storm(rt, name);
    }
    Ok(Verdict::Unread)
}
