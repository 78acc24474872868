//! Worked storms: NAME.args, the words of a call of the program, with what comes of it, in NAME.out, NAME.err and NAME.status.

mod called;

use crate::files::{text_of, text_or};
use crate::verdict::Verdict;
use called::{Called, call};
use std::marker::Sync;
use std::rt::Files;
use std::sync::Wait;
use std::thread::Threads;
use std::{io, str};

/// Runs the storm of a name, and compares what it writes and says and its status with what they should be.
pub fn verdict_of_storm<R: Files + AllocGlobal + Wait + Threads + Sync>(
    rt: &R,
    name: &str,
) -> io::Result<Verdict> {
    let Some(words) = text_of(rt, name, "args")? else {
        return Ok(Verdict::Unread);
    };
    let Ok(words) = str::from_utf8(words.as_slice()) else {
        return Ok(Verdict::Unread);
    };
    let Some(written) = text_of(rt, name, "out")? else {
        return Ok(Verdict::Unread);
    };
    let wanted = Called {
        written,
        said: text_or(rt, name, "err", "")?,
        status: text_or(rt, name, "status", "0\n")?,
    };
    Ok(call(rt, words)?.verdict(&wanted))
}
