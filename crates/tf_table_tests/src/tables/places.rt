//! Keys and rows at places, by rule: for tables of more rows than lines can say.

use super::words::{Row, number};
use std::alloc::AllocError;
use std::process::Abort;
use tf_table::Key;

/// How the keys of places are spread. They rise from place to place, but for `Scattered`.
#[derive(Clone, Copy)]
pub(super) enum Spread {
    /// Values all over 128 bits, with any timestamps.
    Wide,
    /// Few values.
    Few,
    /// Values that differ by 2^80, with 40 places each.
    Far,
    /// Values above 2^127 that follow each other, with the least and the greatest timestamp.
    Near,
    /// Values with seven places each, whose timestamps fall from value to value.
    Sevens,
    /// A value for each place, which differ by 2^64.
    Apart,
    /// A value for each place, one after another.
    Plain,
    /// The same, with entries that differ from step to step of a run.
    Layers,
    /// No values: timestamps alone.
    Bare,
    /// A hundred values in another order than the timestamps.
    Scattered,
}

/// The spread of a name.
pub(super) fn spread_named(name: &str) -> Option<Spread> {
    let spread = match name {
        "wide" => Spread::Wide,
        "few" => Spread::Few,
        "far" => Spread::Far,
        "near" => Spread::Near,
        "sevens" => Spread::Sevens,
        "apart" => Spread::Apart,
        "plain" => Spread::Plain,
        "layers" => Spread::Layers,
        "bare" => Spread::Bare,
        "scattered" => Spread::Scattered,
        _ => return None,
    };
    Some(spread)
}

/// The value of a place's key.
fn value_at(spread: Spread, place: u64) -> u128 {
    match spread {
        Spread::Wide => u128::from(place) << 100 | u128::from(mixed(place)) << 30,
        Spread::Few => u128::from(place / 2_501).saturating_add(9),
        Spread::Far => u128::from(place / 40) << 80,
        Spread::Near => 1 << 127 | u128::from(place / 2),
        Spread::Sevens => u128::from(place / 7),
        Spread::Apart => u128::from(place) << 64,
        Spread::Plain | Spread::Layers => u128::from(place),
        Spread::Bare => 0,
        Spread::Scattered => u128::from(place.wrapping_mul(7919) % 97),
    }
}

/// The timestamp of a place's key.
fn timestamp_at(spread: Spread, place: u64) -> u64 {
    match spread {
        Spread::Wide => mixed(place).rotate_left(32),
        Spread::Few => (place % 2_501 * 3).saturating_add(1_000_000),
        Spread::Far => place % 40,
        Spread::Near if place % 2 == 1 => u64::MAX,
        Spread::Near => 0,
        Spread::Sevens => (place % 7)
            .wrapping_sub((place / 7).wrapping_mul(100))
            .wrapping_add(10_000),
        Spread::Apart | Spread::Plain | Spread::Layers => 1,
        Spread::Bare | Spread::Scattered => place,
    }
}

/// Bits of a place, as if by chance.
fn mixed(place: u64) -> u64 {
    place.wrapping_mul(0x9e37_79b9_7f4a_7c15)
}

/// The key of a place.
pub(super) fn key_at(spread: Spread, place: u64) -> Key {
    Key {
        value: value_at(spread, place),
        timestamp: timestamp_at(spread, place),
    }
}

/// The entry of a place in a run of this step: a tombstone now and then, but for some spreads.
pub(super) fn entry_at(spread: Spread, step: u64, place: u64) -> Option<u64> {
    let (is_gone, value) = match spread {
        Spread::Sevens => (place / 3 % 4 == 1, place),
        Spread::Layers => (
            place.wrapping_add(step) % 5 == 2,
            place.wrapping_mul(100).wrapping_add(step),
        ),
        Spread::Bare | Spread::Scattered => (place % 11 == 3, place.wrapping_mul(3)),
        _ => (false, place),
    };
    if is_gone { None } else { Some(value) }
}

/// Places from `from` on, `step` after `step` and from the end of `len` places round to their start, until the first one would
/// come again.
#[derive(Clone, Copy)]
pub(super) struct Run {
    pub(super) from: u64,
    pub(super) len: u64,
    pub(super) step: u64,
}

impl Run {
    /// The run of a word: `FROM-TO/STEP`, where TO is the first place behind it.
    pub(super) fn in_word(rt: &impl Abort, word: &str) -> Run {
        let (ends, step) = word.split_once('/').unwrap_or((word, "1"));
        let (from, to) = ends.split_once('-').unwrap_or((ends, ""));
        let from = number(rt, from);
        Run {
            from,
            len: number(rt, to).saturating_sub(from).max(1),
            step: number(rt, step).max(1),
        }
    }

    /// How many places of a rising run are below this one.
    pub(super) fn below(self, place: u64) -> u64 {
        let passed = place.saturating_sub(self.from).min(self.len);
        passed.div_ceil(self.step.max(1))
    }

    /// Whether a rising run has this place.
    pub(super) fn has(self, place: u64) -> bool {
        self.below(place.saturating_add(1)) > self.below(place)
    }

    /// The place of this number of a rising run, unless it has fewer.
    pub(super) fn at(self, number: u64) -> Option<u64> {
        let behind = number.saturating_mul(self.step);
        if behind < self.len {
            Some(self.from.saturating_add(behind))
        } else {
            None
        }
    }
}

/// Adds a row for each place of a run.
pub(super) fn add_rows(rows: &mut Vec<Row>, spread: Spread, run: Run) -> Result<(), AllocError> {
    let mut behind = 0;
    for _ in 0..run.len {
        let place = run.from.saturating_add(behind);
        rows.push((key_at(spread, place), entry_at(spread, run.step, place)))?;
        behind = behind.saturating_add(run.step) % run.len.max(1);
        if behind == 0 {
            break;
        }
    }
    Ok(())
}
