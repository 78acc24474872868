//! Look-ups of several keys at once, in the tables of a row.
ghost use Rattle.std.specs.Prelude.{◌≡◌, ◌≤◌, length, map, take, MatchOption};
ghost use Rattle.std.specs.Option.{option_and_then, option_copied};
ghost use Rattle.tf_table.specs.Content.{entry_at, entry_of};
ghost use Rattle.tf_registry.specs.Row.{lists_of};
ghost use Rattle.tf_manifest.specs.Rows.{key_of};

use crate::finder::table_at;
use crate::reads::{AHEAD, key_of};
use std::alloc::Allocator;
use tf_manifest::RowValue;
use tf_registry::{Naming, TableRef};
use tf_table::{Key, Probe, Sealed, take_turns};

/// Where a key is expected: the place of a table among those of its row, and a place in it. What is found there says whether
/// that was right.
#[derive(Clone, Copy)]
struct Guess {
    table: usize,
    row: usize,
}

impl Guess {
    /// In no table.
    const NONE: Guess = Guess {
        table: usize::MAX,
        row: 0,
    };

    /// The place in this table, if the key is expected there.
    #[inline]
    fn row_in(self, table: usize) -> Option<usize> {
        if self.table == table {
            Some(self.row)
        } else {
            None
        }
    }
}

/// The place of the newest table that may have a key, and a search in it.
fn probe<'r, V: RowValue, A: Allocator, N: Naming>(
    references: &'r [TableRef<V, A, N>],
    key: &Key,
) -> (usize, Probe<'r>) {
    for place in 0..references.len() {
        let table = table_at(references, place);
        if table.may_have(key) {
            return (place, table.probe(key));
        }
    }
    (references.len(), Probe::ended())
}

/// The places of the newest tables that may have the keys of these values, and searches in them, which have not begun.
fn probes<'r, V: RowValue, A: Allocator, N: Naming>(
    references: &'r [TableRef<V, A, N>],
    values: &[u128],
) -> ([usize; AHEAD], [Probe<'r>; AHEAD])
    requires { length values.now ≤ 16 }
{
    let mut tables = [0; AHEAD];
    let mut probes = [Probe::ended(); AHEAD];
    for place in 0..values.len() {
        let (table, probe) = probe(references, &key_of(values[place], 0));
        tables[place] = table;
        probes[place] = probe;
    }
    (tables, probes)
}

/// Where the keys of these values are expected, each in the place of its value. The searches for them take turns.
fn guesses<V: RowValue, A: Allocator, N: Naming>(
    references: &[TableRef<V, A, N>],
    values: &[u128],
) -> [Guess; AHEAD]
    requires { length values.now ≤ 16 }
{
    let (tables, mut probes) = probes(references, values);
    take_turns(&mut probes[..values.len()]);
    let mut guesses = [Guess::NONE; AHEAD];
    for place in 0..values.len() {
        guesses[place] = Guess {
            table: tables[place],
            row: probes[place].place(),
        };
    }
    guesses
}

/// The entry of a key in a table, as it is stored there, where the key may be expected at a place. Most tables that don't have it
/// are passed over without a call.
#[inline]
fn entry_at<'r, V: RowValue, A: Allocator>(
    table: &'r Sealed<V, A>,
    key: &Key,
    row: Option<usize>,
) -> Option<&'r Option<V>>
    ensures { option_copied result ≡ entry_at key.now table.now }
{
    if let Some(row) = row {
        return table.entry_near(key, row);
    }
    if !table.may_have(key) {
        return None;
    }
    table.entry(key)
}

/// The entry of a key in the newest table that has it, as it is stored there. No entry is read.
fn entry_in<'r, V: RowValue, A: Allocator, N: Naming>(
    references: &'r [TableRef<V, A, N>],
    key: &Key,
    guess: Guess,
) -> Option<&'r Option<V>>
    ensures { option_copied result ≡ entry_of key.now (lists_of references.now) }
{
    for place in 0..references.len() {
        let table = table_at(references, place);
        if let Some(entry) = entry_at(table, key, guess.row_in(place)) {
            return Some(entry);
        }
    }
    None
}

/// The entries of the keys of these values, each in the place of its value, as they are stored.
///
/// No entry is read, so that many come from far memory at once when they are. The searches for the keys take turns.
pub fn entries_of_values<'r, V: RowValue, A: Allocator, N: Naming>(
    references: &'r [TableRef<V, A, N>],
    values: &[u128],
) -> [Option<&'r Option<V>>; AHEAD]
    requires { length values.now ≤ 16 }
    ensures { map option_copied (take (length values.now) result) ≡ map (λ value. entry_of (key_of value 0) (lists_of references.now)) values.now }
{
    let guesses = guesses(references, values);
    let mut found = [None; AHEAD];
    for place in 0..values.len() {
        found[place] = entry_in(references, &key_of(values[place], 0), guesses[place]);
    }
    found
}

/// The entry at a timestamp, if there is one, as it is stored.
fn entry_at_stamp<'r, V: RowValue, A: Allocator, N: Naming>(
    references: &'r [TableRef<V, A, N>],
    stamp: Option<u64>,
) -> Option<&'r Option<V>>
    ensures { option_copied result ≡ option_and_then (λ t. entry_of (key_of 0 t) (lists_of references.now)) stamp }
{
    match stamp {
        Some(timestamp) => entry_in(references, &key_of(0, timestamp), Guess::NONE),
        None => None,
    }
}

/// The entries at these timestamps, each in the place of its timestamp, as they are stored. No entry is read.
pub fn entries_at_stamps<'r, V: RowValue, A: Allocator, N: Naming>(
    references: &'r [TableRef<V, A, N>],
    stamps: &[Option<u64>],
) -> [Option<&'r Option<V>>; AHEAD]
    requires { length stamps.now ≤ 16 }
    ensures { map option_copied (take (length stamps.now) result) ≡ map (option_and_then (λ t. entry_of (key_of 0 t) (lists_of references.now))) stamps.now }
{
    let mut found = [None; AHEAD];
    for place in 0..stamps.len() {
        found[place] = entry_at_stamp(references, stamps[place]);
    }
    found
}
