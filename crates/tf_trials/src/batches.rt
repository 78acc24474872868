//! The commands that a line names.

use crate::events::{account, accounts, any_commands, one_of_round, round, transfer, transfers};
use crate::lists::{only, repeated};
use crate::words::{Numbers, UNREADABLE, first_word, two_numbers};
use std::alloc::{AllocError, Global};
use tf_records::Refusal;
use tf_script::{Command, parse};

/// The commands of a line.
pub fn commands_in(
    alloc: Global,
    numbers: Numbers,
    word: &str,
    rest: &str,
) -> Result<Vec<Command<Global>, Global>, Refusal> {
    if word == "run" {
        return commands_of(alloc, rest);
    }
    let (first, second) = two_numbers(numbers, rest)?;
    match word {
        "any" => any_commands(alloc, numbers.parameter, first),
        "round" if first_word(rest).1.is_empty() => round(alloc, first),
        _ => only(alloc, batch_in(alloc, word, first, second)),
    }
}

/// The commands of a script in which semicolons end lines.
fn commands_of(alloc: Global, line: &str) -> Result<Vec<Command<Global>, Global>, Refusal> {
    parse(alloc, script_in(alloc, line)?.as_slice())
}

/// The script.
fn script_in(alloc: Global, line: &str) -> Result<Vec<u8, Global>, AllocError> {
    let mut script = Vec::with_capacity(alloc, line.len())?;
    for byte in line.as_bytes() {
        script.push(if *byte == b';' { b'\n' } else { *byte })?;
    }
    Ok(script)
}

/// The batch of a line, or one of the commands of a round.
fn batch_in(
    alloc: Global,
    word: &str,
    first: u64,
    second: u64,
) -> Result<Command<Global>, Refusal> {
    match word {
        "round" => one_of_round(alloc, first, second),
        "accounts" => accounts(alloc),
        "transfers" => transfers(alloc, first, second),
        "failing_accounts" => failing_accounts(alloc, first, second),
        "failing_transfers" => failing_transfers(alloc, first, second),
        _ => Err(UNREADABLE),
    }
}

/// A batch of so many accounts, all of which fail.
fn failing_accounts(alloc: Global, count: u64, now: u64) -> Result<Command<Global>, Refusal> {
    let events = repeated(alloc, account(0, 0), count)?;
    Ok(Command::Accounts { now, events })
}

/// A batch of so many transfers, all of which fail.
fn failing_transfers(alloc: Global, count: u64, now: u64) -> Result<Command<Global>, Refusal> {
    let events = repeated(alloc, transfer(0, 0), count)?;
    Ok(Command::Transfers { now, events })
}
