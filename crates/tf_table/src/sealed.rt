//! A sealed table.
ghost use Rattle.std.specs.Prelude.{◌≡◌, ◌+◌, ◌^◌, ◌<◌, ◌≤◌, ◌==◌, [], ◌∷◌, ◌++◌, false, length, IfOk, IfSome, IsSome, None, slice_get};
ghost use Rattle.std.specs.Option.{option_copied, option_map};
ghost use Rattle.tf_sorted.specs.Rows.{IsRising};
ghost use Rattle.tf_table.specs.Key.{key_cmp};
ghost use Rattle.tf_table.specs.Content.{entry_at, AreDated, AreTombstones, HaveOneEntry};
ghost use Rattle.tf_table.specs.First.{IsFirstAbove};
ghost use Rattle.tf_table.specs.Merge.{seen};
ghost use Rattle.tf_table.specs.Span.{HasSpan, timestamps};

use crate::entries::Entries;
use crate::fences::{Scale, near, near_behind};
use crate::hints::Hints;
use crate::probe::Probe;
use crate::search::{Start, are_dense, count_below, count_upto};
use crate::{Key, Span};
use std::alloc::Allocator;
use std::marker::Model;

/// A row of a table: its key, and its value or None for a tombstone.
pub type Row<'a, V> = (&'a Key, Option<&'a V>);

/// Rows that no longer change, in the order of their keys. Each is a value, or None for a tombstone.
///
/// The keys lie in one run and the entries in another, and entries that all repeat the first are stored once. Where the
/// values ask for it there is a filter too, of some ten bits a key, which tells of most absent keys that they are absent.
/// A table of 1,024 rows or more has fences too, of eight bits a key, which tell where a search for a key begins.
#[derive(Drop)]
pub struct Sealed<V, A: Allocator> {
    pub(crate) least: Key,
    pub(crate) greatest: Key,
    pub(crate) span: Option<Span>,
    pub(crate) hints: Hints<A>,
    pub(crate) keys: Vec<Key, A>,
    pub(crate) entries: Entries<V, A>,
}

impl<V, A: Allocator> Model for Sealed<V, A> {
    ghost use Rattle.std.specs.Prelude.{List, Option, vec_capacity};
    ghost use Rattle.tf_table.specs.declared.key.Key.{Key};

    ghost Value = { List (Key × Option V) };

    ghost use Rattle.tf_table.specs.Rows.{rows_of, IsSealed};

    ghost view = { λ t. rows_of t.keys.items t.entries };

    ghost invariant = { λ t. IsSealed t.least t.greatest t.span t.hints.words.items t.hints.filter_words (vec_capacity t.keys) t.keys.items t.entries };
}

impl<V, A: Allocator> Sealed<V, A> {
    /// The number of rows, tombstones included.
    #[inline]
    pub fn len(&self) -> usize
        ensures value { result ≡ length self.now }
        // No key comes twice.
        ensures rising { IsRising key_cmp self.now }
    {
        self.keys.len()
    }

    /// Whether there is no row.
    pub fn is_empty(&self) -> bool
        ensures { result ≡ (length self.now == 0) }
    {
        self.keys.is_empty()
    }

    /// For how many rows there is room: for those that there are.
    pub fn capacity(&self) -> usize
        ensures { result ≡ length self.now }
    {
        self.keys.capacity()
    }

    /// For how many entries there is room: for one of each row, or for one alone where the rows have the same entry and
    /// it is stored once, as a tombstone is.
    pub fn entry_capacity(&self) -> usize
        ensures within { result ≤ length self.now }
        ensures fewer { result < length self.now → (result ≡ 1) × HaveOneEntry self.now }
        ensures tombstones { AreTombstones self.now → result ≤ 1 }
    {
        match &self.entries {
            Entries::Same(_) => self.len().min(1),
            Entries::Each(entries) => entries.capacity(),
        }
    }

    /// The earliest and the latest timestamp of the rows, tombstones included, or None where there is no row.
    #[inline]
    pub fn span(&self) -> Option<Span>
        ensures { HasSpan result (timestamps self.now) }
    {
        self.span
    }

    /// The entry of a key, if the table has the key: its value, or None inside for a tombstone.
    ///
    /// Where there is a filter, it tells by one word of most keys that the table doesn't have them. Of other keys, it takes two
    /// comparisons for one whose timestamp lies outside the span, two more for one below the least key or above the greatest,
    /// and else a number that grows with the logarithm of the rows. Of rows without a value, one before which no timestamp is
    /// missing takes five, and where none is missing at all no key is read. Where there are fences, mostly ten of the
    /// comparisons read keys, which lie side by side, and the others read fences; they read more keys where more than eight
    /// rows have one value and the values of the table differ by 2^64 or more. No entry is read until the key is found.
    #[inline]
    pub fn find(&self, key: &Key) -> Option<Option<&V>>
        ensures { option_map option_copied result ≡ entry_at key.now self.now }
    {
        let entry = self.entry(key)?;
        Some(entry.as_ref())
    }

    /// The same as `find`, as it is stored: no entry is read, so that the entries of several keys come from far memory at once when
    /// they are.
    #[inline]
    pub fn entry(&self, key: &Key) -> Option<&Option<V>>
        ensures { option_copied result ≡ entry_at key.now self.now }
    {
        if !self.may_have(key) {
            return None;
        }
        self.search(key)
    }

    /// The same as `entry`, where the key is expected at a place, which may be any: there it takes one comparison. Else a search goes
    /// ever further from it, and takes a number of comparisons that grows with the logarithm of the rows passed over.
    #[inline]
    pub fn entry_near(&self, key: &Key, place: usize) -> Option<&Option<V>>
        ensures { option_copied result ≡ entry_at key.now self.now }
    {
        if place < self.keys.len() && key.cmp(&self.keys[place]).is_eq() {
            return Some(self.entries.entry(place));
        }
        self.entry_from(key, Start::Near(place))
    }

    /// The entry of a key as `entry` finds it, the first key above it that has an entry, and at which place that key stands, or
    /// would stand. Where the key is expected at a place, which may be any, and stands there, that takes a few comparisons.
    ///
    /// So a look-up of a greater key knows without a search that a table doesn't have it, or where.
    #[inline]
    pub fn entry_and_next(
        &self,
        key: &Key,
        place: usize,
    ) -> (Option<&Option<V>>, Option<Key>, usize)
        ensures entry { option_copied result.0 ≡ entry_at key.now self.now }
        ensures next { IsFirstAbove key.now (λ found. entry_at found self.now) result.1 }
    {
        let (next, behind) = self.next_above(key, self.expected(key, place));
        (self.entry_near(key, behind.saturating_sub(1)), next, behind)
    }

    /// Where a search for the place behind a key begins that is expected at a place: behind it, if it stands there. Else the
    /// fences tell.
    #[inline]
    fn expected(&self, key: &Key, place: usize) -> Start {
        match self.keys.get(place) {
            Some(other) if other.cmp(key).is_eq() => Start::Near(place.saturating_add(1)),
            _ => self.near(key),
        }
    }

    /// A search for the place at which `entry_near` is to look for a key, which goes on step by step.
    #[inline]
    pub fn probe(&self, key: &Key) -> Probe<'_> {
        let rank = self.scale().rank(key);
        Probe::new(&self.keys, self.hints.fences(), *key, rank)
    }

    /// The same as `entry`, by the least and the greatest key, and then by a search. It isn't inlined, so that a look-up that ends
    /// before it saves no registers.
    #[inline(never)]
    fn search(&self, key: &Key) -> Option<&Option<V>>
        ensures { option_copied result ≡ entry_at key.now self.now }
    {
        if key.is_below(&self.least) || self.greatest.is_below(key) {
            return None;
        }
        if are_dense(self.keys.len(), &self.least, &self.greatest) {
            let place = key.timestamp.saturating_sub(self.least.timestamp) as usize;
            return Some(self.entries.entry(place));
        }
        self.entry_from(key, self.first_look(key))
    }

    /// The timestamp of the first row, and the entries, where the rows have no value, no timestamp is missing between them and
    /// the entries don't all repeat one. Of such a table an entry is found by its place. It takes constant time, and reads no row.
    #[inline]
    pub fn dated_entries(&self) -> Option<(u64, &[Option<V>])>
        ensures { IfSome result (λ found. AreDated found.0 found.1.now self.now) }
    {
        if !are_dense(self.keys.len(), &self.least, &self.greatest) {
            return None;
        }
        match &self.entries {
            Entries::Same(_) => None,
            Entries::Each(entries) => Some((self.least.timestamp, entries.as_slice())),
        }
    }

    /// Where a search for a key begins. Of rows without a value that is where the key stands if no timestamp is missing before
    /// it, unless so many rows aren't there. Else the fences tell.
    #[inline]
    fn first_look(&self, key: &Key) -> Start {
        let place = key.timestamp.saturating_sub(self.least.timestamp) as usize;
        if self.greatest.value == 0 && place < self.keys.len() {
            Start::Near(place)
        } else {
            self.near(key)
        }
    }

    /// How the fences rank keys.
    #[inline]
    fn scale(&self) -> Scale {
        Scale::of(&self.least, &self.greatest, self.span)
    }

    /// Where a search for a key begins, by the fences.
    #[inline]
    pub(crate) fn near(&self, key: &Key) -> Start {
        let fences = self.hints.fences();
        if fences.is_empty() {
            return Start::Middle;
        }
        near(fences, &self.scale(), &self.keys, key)
    }

    /// Where a search for a key among the keys from a place on begins, by the fences.
    #[inline]
    pub(crate) fn near_behind(&self, key: &Key, first: usize) -> Start {
        let fences = self.hints.fences();
        if fences.is_empty() {
            return Start::Front;
        }
        near_behind(fences, &self.scale(), &self.keys, key, first)
    }

    /// The entry of a key, by a search that begins somewhere.
    fn entry_from(&self, key: &Key, start: Start) -> Option<&Option<V>>
        ensures { option_copied result ≡ entry_at key.now self.now }
    {
        let place = count_below(&self.keys, key, start);
        if place < self.keys.len() && self.keys[place].cmp(key).is_eq() {
            return Some(self.entries.entry(place));
        }
        None
    }

    /// Whether the table may have the key, by one word of its filter where there is one, and by the span of its timestamps:
    /// false says that it hasn't.
    #[inline]
    pub fn may_have(&self, key: &Key) -> bool
        ensures { result ≡ false → entry_at key.now self.now ≡ None }
    {
        self.hints.may_hold(key.value) && self.may_span(key)
    }

    /// Whether the key's timestamp lies within the span.
    #[inline]
    fn may_span(&self, key: &Key) -> bool
        ensures { result ≡ false → entry_at key.now self.now ≡ None }
    {
        match &self.span {
            Some(span) => {
                let is_early = key.timestamp < span.earliest;
                let is_late = span.latest < key.timestamp;
                !(is_early | is_late)
            }
            None => false,
        }
    }

    /// The first key above `key` that has an entry, a value or a tombstone, if there is one.
    ///
    /// It takes a number of comparisons that grows with the logarithm of the rows, and reads no entry.
    pub fn first_above(&self, key: &Key) -> Option<Key>
        ensures { IsFirstAbove key.now (λ found. entry_at found self.now) result }
    {
        let (next, _behind) = self.next_above(key, self.near(key));
        next
    }

    /// The first key above `key` that has an entry, and its place, by a search that begins somewhere.
    #[inline]
    fn next_above(&self, key: &Key, start: Start) -> (Option<Key>, usize)
        ensures { IsFirstAbove key.now (λ found. entry_at found self.now) result.0 }
    {
        let behind = count_upto(&self.keys, key, start);
        (self.keys.get(behind).copied(), behind)
    }

    /// Whether there is a tombstone at a place, counted from 0. It reads that entry alone.
    #[inline]
    pub fn is_tombstone_at(&self, place: usize) -> bool {
        if place < self.keys.len() {
            self.entries.entry(place).is_none()
        } else {
            false
        }
    }

    /// The row at a place, counted from 0.
    #[inline]
    pub(crate) fn row_at(&self, place: usize) -> Option<Row<'_, V>>
        ensures value { option_map seen result ≡ slice_get self.now place }
        ensures within { IsSome result → place + 1 < 2 ^ 64 }
    {
        if place < self.keys.len() {
            Some((&self.keys[place], self.entries.at(place)))
        } else {
            None
        }
    }
}
