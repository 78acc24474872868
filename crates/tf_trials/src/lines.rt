//! Tests as texts.
//!
//! A line has parts, with ` | ` between them, each of which is done or asked in turn. A part may end in `: ANSWER`; without one
//! it is to be `done`. After each batch, pulse, publish and compaction the store's look-ups are those of the plain ledger.
//!
//! | part | what it is |
//! |---|---|
//! | `repeat FIRST END ..` | at the head of a line: it is repeated for each number `N` from FIRST on, below END |
//! | `run SCRIPT` | commands of a script, whose lines end in `;` |
//! | `accounts` | a batch of accounts 1 to 4, the second with history and the third with a limit |
//! | `transfers FIRST COUNT` | a batch of so many transfers of 1 from account 1 to account 2, with ids from FIRST on |
//! | `failing_accounts COUNT NOW`, `failing_transfers COUNT NOW` | a batch of so many events, all of which fail |
//! | `round NUMBER [PLACE]` | an account, transfers and a pulse, which store something in each row, or one of these batches |
//! | `any COUNT` | so many random commands, the same for each `M` |
//! | `soak COUNT` | so many random calls of every kind, the same for each `M`, of which some find little of the heap left; the parts of each are compared with the plain ledger |
//! | `by SHARE` | which share stores what comes next |
//! | `publish [READER]: RECEIPTS` | a publish, which hands out so many receipts; the reader learns of the last |
//! | `receipt PLACE CLOCK: PLACE=RESULT ..` | one of those: the clock before its batch, and its failed events, or `none` |
//! | `take`, `let_taken` | takes a version, and lets go of the one that was taken last |
//! | `give READER`, `let_given`, `follow READER` | the same of a version that a reader is given; a reader follows |
//! | `ask taken\|given\|held PLACE now\|then: ROWS` | a version, by its place or that of the reader that holds it, answers as the plain ledger does now, or did when it was marked, with so many rows at least |
//! | `mark` | marks the plain ledger as it is now |
//! | `show`, `merge ROW`, `install` | shows merged tables, merges the next run of a row, installs what was merged last |
//! | `count WHAT: NUMBER` | what the store counts |
//! | `note`, `same`, `freed: BYTES` | notes what it counts and how much of the heap is used; it counts the same; so many bytes came back at least |
//! | `fill ROOM`, `holes SIZE`, `free` | takes all of the heap but so many bytes, or but holes of that size; gives it back |
//! | `used: BYTES` | so much of the heap is used at most, and nine tenths of it at least |
//! | `grow STEP FIRST REFUSALS` | each batch, pulse, publish, `take`, `merge` and `install` has so many bytes of the heap at first and, where it is refused, so many more; it is refused so often at least. `grow` alone ends it |
//! | `ids COUNT` | how many ids are looked up; with 0 the store isn't compared with the plain ledger |
//! | `outlives held\|taken` | what the first reader holds, or the first version that was taken, is asked once more when the store is dropped: it has 200 transfers at least, and answers as the plain ledger did when it was marked |
//!
//! Answers are `done`, `nothing`, `no_memory`, `batch_too_large`, `clock_exhausted`, `stale`, `registry_full`, and `any`, which is
//! done or refused memory.

use crate::parts::{Part, holds};
use crate::trial::Trial;
use crate::tried::Tried;
use crate::words::{Numbers, first_word, number};
use tf_records::Refusal;

/// Where a text stopped.
#[derive(Clone, Copy)]
pub struct Stopped<'t> {
    /// The part at which it stopped, or the line whose head can't be read.
    pub part: &'t str,
    /// Why it can't be read or there is no memory for it, or None where it doesn't hold.
    pub refusal: Option<Refusal>,
}

/// Runs the lines of a text on a store.
pub fn run_text<'t, F: Tried>(
    store: &mut F,
    trial: &mut Trial<'_>,
    text: &'t str,
) -> Result<(), Stopped<'t>> {
    for line in text.lines() {
        run_line(store, trial, line)?;
    }
    Ok(())
}

/// How often a line is run, and its parts.
#[derive(Clone, Copy)]
struct Turns<'t> {
    first: u64,
    end: u64,
    parts: &'t str,
}

/// Runs a line, once or as often as it says.
fn run_line<'t, F: Tried>(
    store: &mut F,
    trial: &mut Trial<'_>,
    line: &'t str,
) -> Result<(), Stopped<'t>> {
    match turns_of(trial.numbers, line) {
        Ok(turns) => run_turns(store, trial, turns),
        Err(refusal) => Err(Stopped {
            part: line,
            refusal: Some(refusal),
        }),
    }
}

/// How often a line is to be run. One that isn't repeated has the number of the last that was.
fn turns_of(numbers: Numbers, line: &str) -> Result<Turns<'_>, Refusal> {
    let (word, repeated) = first_word(line);
    if word != "repeat" {
        return Ok(Turns {
            first: numbers.turn,
            end: numbers.turn.saturating_add(1),
            parts: line,
        });
    }
    let (first, rest) = first_word(repeated);
    let (end, parts) = first_word(rest);
    Ok(Turns {
        first: number(numbers, first)?,
        end: number(numbers, end)?,
        parts,
    })
}

/// Runs the parts of a line as often as it says.
fn run_turns<'t, F: Tried>(
    store: &mut F,
    trial: &mut Trial<'_>,
    turns: Turns<'t>,
) -> Result<(), Stopped<'t>> {
    for turn in turns.first..turns.end {
        trial.numbers.turn = turn;
        run_parts(store, trial, turns.parts)?;
    }
    Ok(())
}

/// Runs the parts of a line.
fn run_parts<'t, F: Tried>(
    store: &mut F,
    trial: &mut Trial<'_>,
    parts: &'t str,
) -> Result<(), Stopped<'t>> {
    for part in parts.split(" | ") {
        run_part(store, trial, part)?;
    }
    Ok(())
}

/// Runs a part of a line.
fn run_part<'t, F: Tried>(
    store: &mut F,
    trial: &mut Trial<'_>,
    part: &'t str,
) -> Result<(), Stopped<'t>> {
    let (words, answer) = part.split_once(": ").unwrap_or((part, "done"));
    let (word, rest) = first_word(words);
    let refusal = match holds(store, trial, Part { word, rest, answer }) {
        Ok(true) => return Ok(()),
        Ok(false) => None,
        Err(refusal) => Some(refusal),
    };
    Err(Stopped { part, refusal })
}
