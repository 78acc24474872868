//! Tables and what is asked of them, a line each.
//!
//! | line | what it is |
//! |---|---|
//! | `# WHAT` | what is asked from here on, with no table left of the lines before |
//! | `table ROW..` | a table, sealed from these rows |
//! | `merge_above N..`, `merge_bottom N..` | a table, merged from tables by their number, counted from 0, newest first |
//! | `QUESTION: ANSWER` | what the last table answers |
//!
//! A key is `VALUE@TIMESTAMP`, or `VALUE` for timestamp 1. A row is `KEY=VALUE`, or `KEY=gone` for a tombstone. In place of rows there
//! may be a spread and runs, `SPREAD FROM-TO/STEP..`, for the rows of their places.

use super::making::{has_rows, put_all, sealed};
use super::places::{Run, Spread, add_rows, key_at, spread_named};
use super::searches::{answers_at_places, end_right};
use super::words::{Row, entry_in, first_word, key_in, number, row_in, row_of, rows_in};
use crate::asserts::{assert_at, assert_line};
use linked_list_allocator::LocalHeap;
use std::alloc::{AllocError, Allocator};
use std::process::Abort;
use tf_mutable::MutableTable;
use tf_records::Refusal;
use tf_table::{Cursor, Key, Sealed, Span, merge};

/// Runs the lines of a text over mutable tables of a kind.
pub(super) fn run<'a, M: MutableTable<u64, &'a LocalHeap>>(
    rt: &(impl Abort + AllocGlobal),
    store: &'a LocalHeap,
    text: &str,
) -> Result<(), Refusal> {
    let mut tables = Vec::new(rt.alloc());
    let outcome = run_lines::<M>(rt, store, &mut tables, text);
    drop(tables);
    outcome
}

/// Runs the lines of a text over the tables of those before.
fn run_lines<'a, M: MutableTable<u64, &'a LocalHeap>>(
    rt: &(impl Abort + AllocGlobal),
    store: &'a LocalHeap,
    tables: &mut Vec<Sealed<u64, &'a LocalHeap>>,
    text: &str,
) -> Result<(), Refusal> {
    for line in text.lines() {
        match line.split_once(": ") {
            None => add_table::<M>(rt, store, tables, line)?,
            Some((question, answer)) => {
                let answers = answers::<M>(rt, store, tables, question, answer)?;
                assert_line(rt, answers, line);
            }
        }
    }
    Ok(())
}

/// Adds the table of a line, or takes all away.
fn add_table<'a, M: MutableTable<u64, &'a LocalHeap>>(
    rt: &(impl Abort + AllocGlobal),
    store: &'a LocalHeap,
    tables: &mut Vec<Sealed<u64, &'a LocalHeap>>,
    line: &str,
) -> Result<(), Refusal> {
    let (kind, words) = first_word(line);
    if kind == "#" {
        tables.clear();
    } else {
        tables.push(table_in::<M>(rt, store, tables, kind, words)?)?;
    }
    Ok(())
}

/// The table of a line.
fn table_in<'a, M: MutableTable<u64, &'a LocalHeap>>(
    rt: &(impl Abort + AllocGlobal),
    store: &'a LocalHeap,
    tables: &[Sealed<u64, &'a LocalHeap>],
    kind: &str,
    words: &str,
) -> Result<Sealed<u64, &'a LocalHeap>, Refusal> {
    if kind == "table" {
        sealed::<&LocalHeap, M>(store, &rows_of_line(rt, words)?)
    } else {
        merge(store, &lent(rt, tables, words)?, kind == "merge_bottom")
    }
}

/// The rows of a line, or of the places that it names.
pub(super) fn rows_of_line(
    rt: &(impl Abort + AllocGlobal),
    words: &str,
) -> Result<Vec<Row>, AllocError> {
    let (name, runs) = first_word(words);
    let Some(spread) = spread_named(name) else {
        return rows_in(rt, words);
    };
    let mut rows = Vec::new(rt.alloc());
    for word in runs.split_whitespace() {
        add_rows(&mut rows, spread, Run::in_word(rt, word))?;
    }
    Ok(rows)
}

/// The table of a number.
fn table_of<'t, T>(rt: &impl Abort, tables: &'t [T], word: &str) -> &'t T {
    tables
        .get(number(rt, word) as usize)
        .expect(rt, "a table of that number")
}

/// The tables of these numbers.
fn lent<'t, T>(
    rt: &(impl Abort + AllocGlobal),
    tables: &'t [T],
    numbers: &str,
) -> Result<Vec<&'t T>, AllocError> {
    let mut lent = Vec::new(rt.alloc());
    for word in numbers.split_whitespace() {
        lent.push(table_of(rt, tables, word))?;
    }
    Ok(lent)
}

/// Whether the last table answers a question so.
fn answers<'a, M: MutableTable<u64, &'a LocalHeap>>(
    rt: &(impl Abort + AllocGlobal),
    store: &'a LocalHeap,
    tables: &[Sealed<u64, &'a LocalHeap>],
    question: &str,
    answer: &str,
) -> Result<bool, Refusal> {
    let Some(table) = tables.last() else {
        return Ok(false);
    };
    let (asked, words) = first_word(question);
    match asked {
        "rows" => are_rows(rt, table, answer),
        "firsts" => has_firsts::<M>(rt, store, table, words, answer),
        "turns_of_all" => Ok(end_right(tables)),
        _ => Ok(table_answers(rt, table, asked, words, answer)),
    }
}

/// Whether a table has the rows of a line and no other.
fn are_rows<A: Allocator>(
    rt: &(impl Abort + AllocGlobal),
    table: &Sealed<u64, A>,
    rows: &str,
) -> Result<bool, Refusal> {
    Ok(has_rows(table, &rows_of_line(rt, rows)?))
}

/// Whether a table answers a question so that is about itself, a key or places.
fn table_answers<A: Allocator>(
    rt: &impl Abort,
    table: &Sealed<u64, A>,
    asked: &str,
    words: &str,
    answer: &str,
) -> bool {
    if words.is_empty() {
        return has_size(rt, table, asked, answer);
    }
    let (word, second) = first_word(words);
    match spread_named(word) {
        Some(spread) => answers_at_places(
            rt,
            table,
            asked,
            spread,
            Run::in_word(rt, second),
            answer,
        ),
        None => answers_at(rt, table, asked, (word, second), answer),
    }
}

/// Whether a table answers a question about a key so, or about two.
fn answers_at<A: Allocator>(
    rt: &impl Abort,
    table: &Sealed<u64, A>,
    asked: &str,
    words: (&str, &str),
    answer: &str,
) -> bool {
    let key = key_in(rt, words.0);
    match asked {
        "find" => is_entry(rt, table.find(&key), answer),
        "entry" => is_entry(rt, table.entry(&key).map(Option::as_ref), answer),
        "seek" => gives(rt, table.seek(&key), answer),
        "seek_back" => gives(rt, table.seek_back(&key), answer),
        "range" => gives(rt, table.range(&key, &key_in(rt, words.1)), answer),
        "lesser" => is_lesser_told(Some(key), Some(key_in(rt, answer))),
        _ => false,
    }
}

/// Whether an entry is that of a word, or `none` without one.
fn is_entry(rt: &impl Abort, entry: Option<Option<&u64>>, word: &str) -> bool {
    match entry {
        None => word == "none",
        Some(entry) => word != "none" && entry.copied() == entry_in(rt, word),
    }
}

/// Whether the lesser of two keys is told, where both are there and where one is.
fn is_lesser_told(low: Option<Key>, high: Option<Key>) -> bool {
    Key::lesser(None, None).is_none()
        && Key::lesser(None, high) == high
        && Key::lesser(high, None) == high
        && Key::lesser(low, high) == low
        && Key::lesser(high, low) == low
}

/// The number of rows, for how many rows and entries there is room, which entries are at hand, or between which timestamps the
/// rows lie.
fn has_size<A: Allocator>(
    rt: &impl Abort,
    table: &Sealed<u64, A>,
    asked: &str,
    answer: &str,
) -> bool {
    match asked {
        "size" => table.len() as u64 == number(rt, answer) && table.is_empty() == (answer == "0"),
        "room" => are_numbers(
            rt,
            answer,
            table.capacity() as u64,
            table.entry_capacity() as u64,
        ),
        "span" => is_span(rt, table.span(), answer),
        "dated" => is_dated(rt, table, answer),
        _ => false,
    }
}

/// Whether these are the numbers of two words.
fn are_numbers(rt: &impl Abort, words: &str, first: u64, second: u64) -> bool {
    let words = first_word(words);
    number(rt, words.0) == first && number(rt, words.1) == second
}

/// Whether a span is that of two words, or `none`.
fn is_span(rt: &impl Abort, span: Option<Span>, words: &str) -> bool {
    match span {
        None => words == "none",
        Some(span) => words != "none" && are_numbers(rt, words, span.earliest, span.latest),
    }
}

/// Whether these are the entries of the words.
fn are_entries(rt: &impl Abort, entries: &[Option<u64>], words: &str) -> bool {
    let mut place = 0usize;
    for word in words.split_whitespace() {
        if place >= entries.len() || entries[place] != entry_in(rt, word) {
            return false;
        }
        place = place.saturating_add(1);
    }
    place == entries.len()
}

/// From which timestamp on the entries are at hand, and which they are, or `none`.
fn is_dated<A: Allocator>(rt: &impl Abort, table: &Sealed<u64, A>, answer: &str) -> bool {
    let (first, words) = first_word(answer);
    match table.dated_entries() {
        None => answer == "none",
        Some((from, entries)) => from == number(rt, first) && are_entries(rt, entries, words),
    }
}

/// What a cursor gives at each turn.
fn gives<A: Allocator>(rt: &impl Abort, rows: Cursor<'_, u64, A>, turns: &str) -> bool {
    let mut rows = rows;
    for word in turns.split_whitespace() {
        if !gives_next(rt, &mut rows, word) {
            return false;
        }
    }
    true
}

/// What a cursor gives at a turn: `next:ROW` or `back:ROW`, or `end` in place of a row.
fn gives_next<A: Allocator>(rt: &impl Abort, rows: &mut Cursor<'_, u64, A>, word: &str) -> bool {
    let (turn, row) = word.split_once(':').unwrap_or((word, ""));
    if turn == "back" {
        is_row(rt, row_of(rows.next_back()), row)
    } else {
        is_row(rt, row_of(rows.next()), row)
    }
}

/// Whether a row is that of a word, or `end` without a row.
fn is_row(rt: &impl Abort, row: Option<Row>, word: &str) -> bool {
    match row {
        None => word == "end",
        Some(row) => word != "end" && row == row_in(rt, word),
    }
}

/// Whether a mutable table of the rows of a line has the same first key above that of each place as a sealed one.
fn has_firsts<'a, M: MutableTable<u64, &'a LocalHeap>>(
    rt: &(impl Abort + AllocGlobal),
    store: &'a LocalHeap,
    sealed: &Sealed<u64, &'a LocalHeap>,
    places: &str,
    rows: &str,
) -> Result<bool, Refusal> {
    let rows = rows_of_line(rt, rows)?;
    let mut table = M::new_in(store);
    let outcome = put_all(&mut table, &rows);
    assert_firsts(rt, &table, sealed, places);
    drop(table);
    outcome
}

/// The first key above that of each of these places is the same in both.
fn assert_firsts<A: Allocator + Clone, M: MutableTable<u64, A>>(
    rt: &impl Abort,
    table: &M,
    sealed: &Sealed<u64, A>,
    places: &str,
) {
    let (name, word) = first_word(places);
    let spread = spread_named(name).unwrap_or(Spread::Plain);
    let run = Run::in_word(rt, word);
    for place in run.from..run.from.saturating_add(run.len) {
        let key = key_at(spread, place);
        assert_at(
            rt,
            table.first_above(&key) == sealed.first_above(&key),
            "the first key above",
            place,
        );
    }
}
