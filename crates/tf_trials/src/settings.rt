//! What parts of lines set for those that come next, and what they take of the heap.

use crate::memory::has_room;
use crate::parts::Part;
use crate::room::{Growth, Room};
use crate::trial::Trial;
use crate::words::{Numbers, first_word, number, two_numbers};
use std::alloc::Global;
use tf_records::Refusal;

/// What a part sets.
#[derive(Clone, Copy)]
pub enum Setting {
    /// What is taken of the heap.
    Room,
    /// The room that calls are given.
    Growth,
    /// The share, how many ids are looked up, or the mark of the plain ledger.
    Twin,
    /// What is asked once more when the store is dropped.
    Outlives,
}

/// What a part sets that begins with this word, if anything.
pub fn setting_of(word: &str) -> Option<Setting> {
    match word {
        "fill" | "holes" | "free" => Some(Setting::Room),
        "grow" => Some(Setting::Growth),
        "by" | "ids" | "mark" => Some(Setting::Twin),
        "outlives" => Some(Setting::Outlives),
        _ => None,
    }
}

/// Sets what a part says. Whether it holds.
pub fn set(trial: &mut Trial<'_>, setting: Setting, part: Part<'_>) -> Result<bool, Refusal> {
    match setting {
        Setting::Room => take_room(trial, part),
        Setting::Growth => grow(trial, part.rest),
        Setting::Twin => set_twin(trial, part),
        Setting::Outlives => Ok(outlives(trial, part.rest)),
    }
}

/// Takes the heap, or gives it back. Where no byte is to be left, none is.
fn take_room(trial: &mut Trial<'_>, part: Part<'_>) -> Result<bool, Refusal> {
    let bytes = number(trial.numbers, part.rest)? as usize;
    let alloc = trial.twin.alloc;
    take_all_so(&mut trial.room, alloc, part.word, bytes)
}

/// The same, as a word says.
fn take_all_so(
    room: &mut Room<'_>,
    alloc: Global,
    word: &str,
    bytes: usize,
) -> Result<bool, Refusal> {
    match word {
        "fill" => {
            room.fill(bytes)?;
            Ok(bytes > 0 || !has_room(room.heap, 1))
        }
        "holes" => {
            room.fill_but_holes(alloc, bytes)?;
            Ok(true)
        }
        _ => {
            room.free();
            Ok(true)
        }
    }
}

/// Sets which share stores what comes next and how many ids are looked up, or marks the plain ledger.
fn set_twin(trial: &mut Trial<'_>, part: Part<'_>) -> Result<bool, Refusal> {
    let number = number(trial.numbers, part.rest)?;
    let twin = &mut trial.twin;
    match part.word {
        "by" => twin.share = number as usize,
        "ids" => twin.ids = u32::try_from(number).unwrap_or(0),
        _ => twin.mark(),
    }
    Ok(true)
}

/// Sets what room calls are given that come next.
fn grow(trial: &mut Trial<'_>, rest: &str) -> Result<bool, Refusal> {
    trial.room.growth = growth(trial.numbers, rest)?;
    Ok(true)
}

/// The growth that a line says.
fn growth(numbers: Numbers, rest: &str) -> Result<Growth, Refusal> {
    let (step, rest) = first_word(rest);
    let (first, refusals) = two_numbers(numbers, rest)?;
    Ok(Growth {
        step: number(numbers, step)? as usize,
        first: first as usize,
        refusals: refusals as usize,
    })
}

/// Sets what is asked once more when the store is dropped.
fn outlives(trial: &mut Trial<'_>, rest: &str) -> bool {
    if rest == "held" {
        trial.outlives.held = true;
    } else {
        trial.outlives.taken = true;
    }
    true
}
