//! Scripts that are written short. A line that begins with `@` stands for many:
//!
//! | line | what it stands for |
//! |---|---|
//! | `@events FIRST LAST LESS FIELDS` | an event with these fields for each id from FIRST to LAST; `#` in a field is the id less LESS |
//! | `@batches NAME FIRST LAST LESS FIELDS` | the same in batches with that name at moment 0, each as large as a batch may be |
//! | `@ids FIRST LAST COMMAND` | the command, with these ids behind it |
//! | `@times COUNT LINE; LINE ..` | the lines, so often |

use std::alloc::{AllocError, Global};

/// How many events a batch may have.
const BATCH_MAX: u32 = 8190;

/// The first word of a line, and what stands behind the space after it.
fn first_word(line: &str) -> (&str, &str) {
    line.split_once(' ').unwrap_or((line, ""))
}

/// The number at the head of a line, 0 where there is none, and what stands behind it.
fn first_number(line: &str) -> (u32, &str) {
    let (word, rest) = first_word(line);
    (word.parse::<u32>().unwrap_or(0), rest)
}

/// Adds an event.
fn push_event(
    alloc: Global,
    script: &mut String,
    id: u32,
    less: u32,
    fields: &str,
) -> Result<(), AllocError> {
    let line = match fields.split_once('#') {
        Some((before, after)) => {
            let other = id.saturating_sub(less);
            format!(in alloc; "+ id={id} {before}{other}{after}\n")?
        }
        None => format!(in alloc; "+ id={id} {fields}\n")?,
    };
    script.push_str(line.as_str())
}

/// Adds an event for each id of a range.
fn push_events(alloc: Global, script: &mut String, rest: &str) -> Result<(), AllocError> {
    let (first, rest) = first_number(rest);
    let (last, rest) = first_number(rest);
    let (less, fields) = first_number(rest);
    for id in first..=last {
        push_event(alloc, script, id, less, fields)?;
    }
    Ok(())
}

/// Adds the same in batches.
fn push_batches(alloc: Global, script: &mut String, rest: &str) -> Result<(), AllocError> {
    let (name, rest) = first_word(rest);
    let (first, rest) = first_number(rest);
    let (last, rest) = first_number(rest);
    let (less, fields) = first_number(rest);
    for id in first..=last {
        let place = id.saturating_sub(first) % BATCH_MAX;
        if place == 0 {
            script.push_str(name)?;
            script.push_str(" 0\n")?;
        }
        push_event(alloc, script, id, less, fields)?;
        if place == BATCH_MAX - 1 || id == last {
            script.push_str("end\n")?;
        }
    }
    Ok(())
}

/// Adds a command with the ids of a range.
fn push_ids(alloc: Global, script: &mut String, rest: &str) -> Result<(), AllocError> {
    let (first, rest) = first_number(rest);
    let (last, command) = first_number(rest);
    script.push_str(command)?;
    for id in first..=last {
        script.push_str(format!(in alloc; " {id}")?.as_str())?;
    }
    script.push_str("\n")
}

/// Adds lines so often.
fn push_times(script: &mut String, rest: &str) -> Result<(), AllocError> {
    let (count, lines) = first_number(rest);
    for _ in 0..count {
        for line in lines.split("; ") {
            script.push_str(line)?;
            script.push_str("\n")?;
        }
    }
    Ok(())
}

/// Adds what a line stands for.
fn push_line(alloc: Global, script: &mut String, line: &str) -> Result<(), AllocError> {
    let (word, rest) = first_word(line);
    match word {
        "@events" => push_events(alloc, script, rest),
        "@batches" => push_batches(alloc, script, rest),
        "@ids" => push_ids(alloc, script, rest),
        "@times" => push_times(script, rest),
        _ => {
            script.push_str(line)?;
            script.push_str("\n")
        }
    }
}

/// The script that a short one stands for.
pub fn spelled_out(alloc: Global, short: &str) -> Result<String, AllocError> {
    let mut script = String::new(alloc);
    for line in short.lines() {
        push_line(alloc, &mut script, line)?;
    }
    Ok(script)
}
