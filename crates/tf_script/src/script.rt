//! Reading a whole script.

ghost use Rattle.std.specs.Prelude.{◌≡◌, ◌+◌, ◌<◌, ◌^◌, length, MatchResult};
ghost use Rattle.tf_script.specs.Lines.{lines_of};
ghost use Rattle.tf_script.specs.Script.{commands_from, script_of};
ghost use Rattle.tf_script.specs.CommandViews.{commands_of, Explains};

use crate::bytes::first_line;
use crate::command::Command;
use crate::reading::{Open, Reading};
use crate::statement::{Batch, read_line};
use std::alloc::Allocator;
use tf_records::Refusal;

/// Reads a script of any bytes: its commands in their order, or its first fault.
///
/// Takes one pass, linear in the script's length, and memory for each command, each event and each id. A batch
/// may have any number of events and a lookup any number of ids: whether they are too many is seen when it runs.
///
/// # Errors
///
/// - `Refusal::BadLine` with the place of the first fault, from the top and from the left: a word that isn't
///   allowed in its place, an unknown or repeated field or a bad value, at that word's column; a missing word,
///   at the column after the line's last byte; and after all these a batch without `end`, at column 1 of the
///   line after the last.
/// - `Refusal::NoMemory` where memory was refused, for a script without fault alone. What was read is dropped.
pub fn parse<A: Allocator + Clone>(alloc: A, script: &[u8]) -> Result<Vec<Command<A>, A>, Refusal>
    ensures { MatchResult result
        (λ commands. script_of script.now ≡ Ok (commands_of commands.items))
        (λ refusal. Explains refusal (script_of script.now)) }
{
    let mut reading = Reading {
        commands: Vec::new(alloc),
        unfinished: Open::Nothing,
    };
    let mut rest = script;
    let mut number: u64 = 1;
    while !rest.is_empty() {
        let (line, after) = first_line(rest);
        let batch = reading.unfinished.batch();
        match read_line(batch, line) {
            Ok(statement) => {
                if reading.add(statement).is_err() {
                    return Err(without_memory(batch, number, rest));
                }
            }
            Err(column) => return Err(bad_line(number, column)),
        }
        number += 1;
        rest = after;
    }
    if reading.unfinished.batch().is_some() {
        return Err(bad_line(number, 1));
    }
    Ok(reading.commands)
}

/// What a reading that lacks memory ends with: the first fault of the lines that are left, or else `NoMemory`.
/// The first of those lines has this number, and this batch is open before it. Takes no memory.
fn without_memory(batch: Option<Batch>, number: u64, lines: &[u8]) -> Refusal
    requires { number + length lines.now < 2 ^ 64 }
    ensures { Explains result (commands_from batch number (lines_of lines.now)) }
{
    let mut batch = batch;
    let mut number = number;
    let mut rest = lines;
    while !rest.is_empty() {
        let (line, after) = first_line(rest);
        match read_line(batch, line) {
            Ok(statement) => batch = statement.batch_after(batch),
            Err(column) => return bad_line(number, column),
        }
        number += 1;
        rest = after;
    }
    match batch {
        None => Refusal::NoMemory,
        Some(_) => bad_line(number, 1),
    }
}

/// The refusal of a script whose first fault is at this place.
fn bad_line(line: u64, column: u64) -> Refusal
    ensures { result ≡ Refusal.BadLine line column }
{
    Refusal::BadLine { line, column }
}
