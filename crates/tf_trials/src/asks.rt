//! What parts of lines ask of a store: what its versions answer, what it counts, and what receipts tell.

use crate::calls::{ask, count, is_alike};
use crate::parts::Part;
use crate::plain::Plain;
use crate::trial::{Noted, Trial};
use crate::tried::{Counted, Tried, Whom};
use crate::twin::Twin;
use crate::words::{Numbers, first_word, number, two_numbers};
use std::alloc::Global;
use tf_records::{Failure, Refusal};

/// Whether a version answers right, with so many rows at least.
pub fn is_answered<F: Tried>(
    store: &mut F,
    trial: &Trial<'_>,
    part: Part<'_>,
) -> Result<bool, Refusal> {
    let (whom, when) = asked_in(trial.numbers, part.rest)?;
    let rows = number(trial.numbers, part.answer)?;
    let tally = ask(store, whom, ledger_at(&trial.twin, when));
    Ok(tally.is_right && tally.rows as u64 >= rows)
}

/// The version that is asked, and when the plain ledger was what it is to answer.
fn asked_in(numbers: Numbers, rest: &str) -> Result<(Whom, &str), Refusal> {
    let (kind, rest) = first_word(rest);
    let (place, when) = first_word(rest);
    let place = number(numbers, place)? as usize;
    let whom = match kind {
        "taken" => Whom::Taken(place),
        "given" => Whom::Given(place),
        _ => Whom::Held(place),
    };
    Ok((whom, when))
}

/// The plain ledger as it is now, or as it was when it was marked.
fn ledger_at<'a>(twin: &'a Twin, when: &str) -> &'a Plain {
    if when == "then" {
        twin.then()
    } else {
        twin.plain()
    }
}

/// Notes what a store counts, and how much of the heap is used.
pub fn note<F: Tried>(store: &mut F, trial: &mut Trial<'_>) -> bool {
    trial.noted = Noted {
        counted: count(store, &trial.twin),
        used: trial.room.heap.used(),
    };
    true
}

/// Whether a store counts the same as when that was noted.
pub fn is_noted<F: Tried>(store: &mut F, trial: &Trial<'_>) -> bool {
    count(store, &trial.twin) == trial.noted.counted && is_alike(store, &trial.twin)
}

/// Whether a store counts so much, or so many bytes came back or are used.
pub fn is_counted<F: Tried>(
    store: &mut F,
    trial: &Trial<'_>,
    part: Part<'_>,
) -> Result<bool, Refusal> {
    let number = number(trial.numbers, part.answer)?;
    let used = trial.room.heap.used();
    Ok(match part.word {
        "count" => counts(&count(store, &trial.twin), part.rest, number),
        "freed" => trial.noted.used.saturating_sub(used) >= number as usize,
        _ => is_near(used, number as usize),
    })
}

/// Whether a number is another one at most, and nine tenths of it at least.
fn is_near(number: usize, most: usize) -> bool {
    number <= most && number >= most / 10 * 9
}

/// Whether a store counts so much of something.
fn counts(counted: &Counted, what: &str, number: u64) -> bool {
    match what {
        "book" => counted.book == number,
        "facts" => counted.facts == number,
        "failed" => counted.failed == number,
        "clock" => counted.clock == number,
        "registered" => u64::from(counted.registered) == number,
        "sealed" => counted.rows_sealed == u128::from(number),
        "held" => counted.rows_held == u128::from(number),
        "references" => has_references(counted, number),
        "share" => counted.by_share == number,
        "shares" => counted.shares as u64 == number,
        "readers" => counted.readers as u64 == number,
        _ => false,
    }
}

/// Whether each row has so many tables.
fn has_references(counted: &Counted, number: u64) -> bool {
    for references in counted.references {
        if u64::from(references) != number {
            return false;
        }
    }
    true
}

/// Whether a receipt tells of this clock and these failed events.
pub fn has_receipt(trial: &Trial<'_>, part: Part<'_>) -> Result<bool, Refusal> {
    let (place, clock) = two_numbers(trial.numbers, part.rest)?;
    match trial.twin.told(place as usize) {
        Some(told) if told.clock == clock => has_failures(trial.numbers, &told.reply, part.answer),
        _ => Ok(false),
    }
}

/// Whether these are the failed events that words name, or `none`.
fn has_failures(
    numbers: Numbers,
    failures: &Vec<Failure, Global>,
    answer: &str,
) -> Result<bool, Refusal> {
    let mut words = if answer == "none" { "" } else { answer };
    for failure in failures {
        let (word, rest) = first_word(words);
        if !is_failure(numbers, failure, word)? {
            return Ok(false);
        }
        words = rest;
    }
    Ok(words.is_empty())
}

/// Whether this is the failed event that a word names.
fn is_failure(numbers: Numbers, failure: &Failure, word: &str) -> Result<bool, Refusal> {
    let (index, name) = word.split_once('=').unwrap_or((word, ""));
    Ok(number(numbers, index)? == u64::from(failure.index) && failure.outcome.name() == name)
}
