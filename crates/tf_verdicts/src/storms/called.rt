//! Calls of the program, as their words ask for, and what comes of them.

use crate::verdict::Verdict;
use std::alloc::AllocError;
use std::marker::Sync;
use std::rt::Files;
use std::sync::Wait;
use std::thread::Threads;
use tf_main::{Ending, exit_status, write_ending};
use tf_storm::storm_files;

/// What a call writes, what it says on standard error, and its exit status, as a text.
#[derive(Drop)]
pub struct Called {
    pub written: Vec<u8>,
    pub said: Vec<u8>,
    pub status: Vec<u8>,
}

impl Called {
    /// Whether all that came of a call is as it should be, or the first part that isn't.
    pub fn verdict(&self, wanted: &Called) -> Verdict {
        let parts = [
            ("standard output", &self.written, &wanted.written),
            ("standard error", &self.said, &wanted.said),
            ("status", &self.status, &wanted.status),
        ];
        for (part, given, wanted) in parts {
            let verdict = Verdict::of(part, given.as_slice(), wanted.as_slice());
            if !verdict.is_right() {
                return verdict;
            }
        }
        Verdict::Right
    }
}

/// Calls the program with these words: `storm`, and the scripts' files.
pub fn call<R: Files + AllocGlobal + Wait + Threads + Sync>(
    rt: &R,
    words: &str,
) -> Result<Called, AllocError> {
    let (mut written, mut said) = (Vec::new(rt.alloc()), Vec::new(rt.alloc()));
    let ending = run(rt, words, &mut written)?;
    let _whole = write_ending(&ending, &mut said);
    let status = exit_status(&ending);
    let status = format!(in rt.alloc(); "{status}\n")?.into_bytes();
    Ok(Called {
        written,
        said,
        status,
    })
}

/// Does what these words ask for, and answers how it ended.
fn run<R: Files + AllocGlobal + Wait + Threads + Sync>(
    rt: &R,
    words: &str,
    out: &mut Vec<u8>,
) -> Result<Ending, AllocError> {
    let mut words = words.split_whitespace();
    if words.next() != Some("storm") {
        return Ok(Ending::Usage);
    }
    let mut files = Vec::new(rt.alloc());
    for word in words {
        files.push(String::from_str(rt.alloc(), word)?)?;
    }
    let (ending, _done) = storm_files(rt, files, out);
    Ok(ending)
}
