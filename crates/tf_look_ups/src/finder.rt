//! Look-ups of many records in the tables of their row, one after another.
ghost use Rattle.std.specs.Prelude.{◌≡◌, ℕ, ◌<◌, IfSome, IsTrue, MatchOption, None, Some, length, slice_get};
ghost use Rattle.std.specs.Option.{option_copied, option_map};
ghost use Rattle.tf_table.specs.Content.{entry_at, entry_of};
ghost use Rattle.tf_registry.specs.Row.{content_at, lists_of};
ghost use Rattle.tf_manifest.specs.Rows.{key_of};
ghost use Rattle.tf_look_ups.specs.Finder.{IsDatedAt, IsInPart, IsNewest, IsOutside};

use crate::reads::key_of;
use std::alloc::Allocator;
use std::marker::Model;
use tf_manifest::RowValue;
use tf_registry::{Naming, TableRef, Tables};
use tf_table::{Key, Sealed, Span};

/// A part of time, with both ends. There is none where the first comes after the last.
#[derive(Clone, Copy)]
pub struct Part {
    first: u64,
    last: u64,
}

impl Part {
    /// All time.
    fn all() -> Part {
        Part {
            first: 0,
            last: u64::MAX,
        }
    }

    /// Whether a timestamp lies in it.
    #[inline]
    pub fn has(self, timestamp: u64) -> bool
        ensures { IsTrue result → IsInPart self timestamp }
    {
        self.first <= timestamp && timestamp <= self.last
    }

    /// What of it lies on that side of a span on which the timestamp does, none where the timestamp lies within the span.
    #[inline]
    fn beside(self, span: Option<Span>, timestamp: u64) -> Part
        ensures kept { (t : ℕ) → IsInPart result t → IsInPart self t }
        ensures outside { (t : ℕ) → IsInPart result t → IsOutside span t }
    {
        match span {
            None => self,
            Some(span) => {
                if timestamp < span.earliest {
                    Part {
                        first: self.first,
                        last: self.last.min(span.earliest - 1),
                    }
                } else if span.latest < timestamp {
                    Part {
                        first: self.first.max(span.latest + 1),
                        last: self.last,
                    }
                } else {
                    Part { first: 1, last: 0 }
                }
            }
        }
    }
}

/// Looks records up in the tables of their row, one after another, by their timestamps.
///
/// It keeps the table in which it found the last one, and in which part of time no newer table has anything. Where the next
/// timestamp lies in it, that table alone is asked first, and where it misses no timestamp the record is read off its place. So
/// of rising or falling timestamps most cost a few instructions, where the tables of the row follow each other in time.
#[derive(Drop)]
pub struct Finder<'r, V: RowValue, A: Allocator, N: Naming> {
    references: &'r [TableRef<V, A, N>],
    place: usize,
    part: Part,
    /// Entries of the table at the place, at one timestamp after another.
    entries: &'r [Option<V>],
    /// The timestamp of the first of them.
    from: u64,
}

impl<'r, V: RowValue, A: Allocator, N: Naming> Model for Finder<'r, V, A, N> {
    ghost use Rattle.std.specs.Prelude.{List, take};
    ghost use Rattle.tf_registry.specs.Table.{Shown};

    ghost Value = { List (Shown V) };

    ghost use Rattle.tf_registry.specs.Row.{lists_of};
    ghost use Rattle.tf_look_ups.specs.Finder.{AreSilent, IsDatedAt};

    ghost view = { λ f. f.references.now };

    ghost invariant = { λ f. AreSilent f.part (take f.place (lists_of f.references.now)) × IsDatedAt f.place f.from f.entries.now (lists_of f.references.now) };
}

impl<'r, V: RowValue, A: Allocator, N: Naming> Finder<'r, V, A, N> {
    /// For the tables of a row. It takes no memory.
    pub fn new(tables: &'r Tables<V, A, N>) -> Finder<'r, V, A, N>
        ensures { result ≡ tables.now }
    {
        Finder {
            references: tables.references(),
            place: 0,
            part: Part::all(),
            entries: &[],
            from: 0,
        }
    }

    /// The value at a timestamp in the tables' content.
    #[inline]
    pub fn find(&mut self, timestamp: u64) -> Option<&'r V>
        ensures found { option_copied result ≡ content_at (key_of 0 timestamp) self.old }
        ensures same { self.new ≡ self.old }
    {
        if let Some(entry) = self.entry_in_place(timestamp) {
            return entry;
        }
        self.find_in_table(timestamp)
    }

    /// The entry at a timestamp, if its place in the last table is known.
    #[inline]
    fn entry_in_place(&self, timestamp: u64) -> Option<Option<&'r V>>
        ensures { IfSome result (λ entry. entry_of (key_of 0 timestamp) (lists_of self.now) ≡ Some (option_copied entry)) }
    {
        if timestamp < self.from || !self.part.has(timestamp) {
            return None;
        }
        match self.entries.get((timestamp - self.from) as usize) {
            Some(entry) => Some(entry.as_ref()),
            None => None,
        }
    }

    /// The same as `find`, by the last table, and then by all of them.
    #[inline(never)]
    fn find_in_table(&mut self, timestamp: u64) -> Option<&'r V>
        ensures found { option_copied result ≡ content_at (key_of 0 timestamp) self.old }
        ensures same { self.new ≡ self.old }
    {
        let key = key_of(0, timestamp);
        if self.part.has(timestamp) && self.place < self.references.len() {
            if let Some(entry) = table_at(self.references, self.place).find(&key) {
                return entry;
            }
        }
        self.search(&key)
    }

    /// The same, by all tables from the newest on.
    fn search(&mut self, key: &Key) -> Option<&'r V>
        ensures found { option_copied result ≡ content_at key.now self.old }
        ensures same { self.new ≡ self.old }
    {
        let Some((place, part, entry)) = newest(self.references, key, &[]) else {
            return None;
        };
        let (from, entries) = dated_entries(self.references, place);
        self.place = place;
        self.part = part;
        self.from = from;
        self.entries = entries;
        entry
    }
}

/// The table at a place among those of its row.
#[inline]
pub fn table_at<'r, V: RowValue, A: Allocator, N: Naming>(
    references: &'r [TableRef<V, A, N>],
    place: usize,
) -> &'r Sealed<V, A>
    requires { place < length references.now }
    ensures { slice_get (lists_of references.now) place ≡ Some result.now }
{
    references[place].table().table()
}

/// Entries of the table at a place, at one timestamp after another, and the first timestamp. There are none where the table
/// doesn't have them side by side.
fn dated_entries<'r, V: RowValue, A: Allocator, N: Naming>(
    references: &'r [TableRef<V, A, N>],
    place: usize,
) -> (u64, &'r [Option<V>])
    requires { place < length references.now }
    ensures { IsDatedAt place result.0 result.1.now (lists_of references.now) }
{
    match table_at(references, place).dated_entries() {
        Some(found) => found,
        None => (0, &[]),
    }
}

/// The entry of a key in a table, where the key may be expected at a place; at one that the table doesn't have, it isn't. Most tables
/// that don't have the key are passed over without a call.
#[inline]
fn find_in<'r, V: RowValue, A: Allocator>(
    table: &'r Sealed<V, A>,
    key: &Key,
    expected: Option<&usize>,
) -> Option<Option<&'r V>>
    ensures { option_map option_copied result ≡ entry_at key.now table.now }
{
    if !table.may_have(key) {
        return None;
    }
    match expected {
        Some(row) if *row < table.len() => match table.entry_near(key, *row) {
            Some(entry) => Some(entry.as_ref()),
            None => None,
        },
        _ => table.find(key),
    }
}

/// The place of the newest table that has a key, the part of time around the key in which no newer one has anything, and the
/// key's entry. The key may be expected at places in the first tables; where a table doesn't have the place that is given for it, at
/// none. It takes no memory, and asks one table after another, from the newest on.
pub fn newest<'r, V: RowValue, A: Allocator, N: Naming>(
    references: &'r [TableRef<V, A, N>],
    key: &Key,
    expected: &[usize],
) -> Option<(usize, Part, Option<&'r V>)>
    ensures within { IfSome result (λ found. found.0 < length references.now) }
    ensures newest { MatchOption result (entry_of key.now (lists_of references.now) ≡ None) (λ found. IsNewest key.now (lists_of references.now) found.0 found.1 (option_copied found.2)) }
{
    let mut part = Part::all();
    for place in 0..references.len() {
        let table = table_at(references, place);
        if let Some(entry) = find_in(table, key, expected.get(place)) {
            return Some((place, part, entry));
        }
        part = part.beside(table.span(), key.timestamp);
    }
    None
}
