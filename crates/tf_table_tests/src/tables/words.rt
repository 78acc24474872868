//! Keys, entries and rows as words.

use std::alloc::{AllocError, Global};
use std::process::Abort;
use tf_table::Key;

/// A row that is owned: a key with its value, or None for a tombstone.
pub(super) type Row = (Key, Option<u64>);

/// A row that is lent, if there is one.
pub(super) fn row_of(row: Option<(&Key, Option<&u64>)>) -> Option<Row> {
    match row {
        Some((key, entry)) => Some((*key, entry.copied())),
        None => None,
    }
}

/// The first word of a line, and what stands behind the space after it.
pub(super) fn first_word(line: &str) -> (&str, &str) {
    line.split_once(' ').unwrap_or((line, ""))
}

/// The number that a word spells.
pub(super) fn number(rt: &impl Abort, word: &str) -> u64 {
    word.parse::<u64>().expect(rt, "a number in a line")
}

/// The key of a word: `VALUE@TIMESTAMP`, or the value alone for timestamp 1.
pub(super) fn key_in(rt: &impl Abort, word: &str) -> Key {
    let (value, timestamp) = word.split_once('@').unwrap_or((word, "1"));
    Key {
        value: value.parse::<u128>().expect(rt, "a value in a line"),
        timestamp: number(rt, timestamp),
    }
}

/// The entry of a word: a value, or `gone` for a tombstone.
pub(super) fn entry_in(rt: &impl Abort, word: &str) -> Option<u64> {
    if word == "gone" {
        None
    } else {
        Some(number(rt, word))
    }
}

/// The row of a word: `KEY=ENTRY`.
pub(super) fn row_in(rt: &impl Abort, word: &str) -> Row {
    let (key, entry) = word.split_once('=').unwrap_or((word, ""));
    (key_in(rt, key), entry_in(rt, entry))
}

/// The rows of a line.
pub(super) fn rows_in(rt: &(impl Abort + AllocGlobal), line: &str) -> Result<Vec<Row>, AllocError> {
    let mut rows: Vec<Row, Global> = Vec::new(rt.alloc());
    for word in line.split_whitespace() {
        rows.push(row_in(rt, word))?;
    }
    Ok(rows)
}
