//! Worked scripts: NAME.script, run in each [`Way`], and NAME.out with what it writes.

mod strewn;
mod way;

use crate::files::text_of;
use crate::verdict::Verdict;
use std::alloc::AllocError;
use std::io;
use std::rt::Files;
use std::sync::Wait;
use strewn::{strewn, without_reports};
use way::Way;

/// Runs the script of a name in each way, up to the first in which it doesn't write what it should.
pub fn verdict_of_script<R: Files + AllocGlobal + Wait>(rt: &R, name: &str) -> io::Result<Verdict> {
    let Some(script) = text_of(rt, name, "script")? else {
        return Ok(Verdict::Unread);
    };
    let Some(answer) = text_of(rt, name, "out")? else {
        return Ok(Verdict::Unread);
    };
    for way in Way::ALL {
        let verdict = verdict_in(rt, way, script.as_slice(), answer.as_slice())?;
        if !verdict.is_right() {
            return Ok(verdict);
        }
    }
    Ok(Verdict::Right)
}

/// Whether a script, run in this way, writes its answer.
///
/// A script with a fault is run as it stands alone: its answer tells a line by its number.
fn verdict_in<R: AllocGlobal + Wait>(
    rt: &R,
    way: Way,
    script: &[u8],
    answer: &[u8],
) -> Result<Verdict, AllocError> {
    let lines = way.strewn();
    if lines.is_empty() {
        let written = way.run(rt, script);
        return Ok(Verdict::of(way.name(), written.as_slice(), answer));
    }
    if answer.starts_with(b"bad line ") {
        return Ok(Verdict::Right);
    }
    let written = way.run(rt, strewn(rt.alloc(), script, lines)?.as_slice());
    let written = without_reports(rt.alloc(), written.as_slice())?;
    let answer = without_reports(rt.alloc(), answer)?;
    Ok(Verdict::of(way.name(), written.as_slice(), answer.as_slice()))
}
