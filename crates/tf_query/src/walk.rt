//! Look-ups of keys whose rows follow one another.
ghost use Rattle.std.specs.Prelude.{◌≡◌, List, Option, IfSome, Some};
ghost use Rattle.std.specs.Option.{option_copied};
ghost use Rattle.tf_table.specs.declared.key.Key.{Key};
ghost use Rattle.tf_table.specs.Content.{entry_of};
ghost use Rattle.tf_registry.specs.Row.{content_at, lists_of};
ghost use Rattle.tf_scan.specs.Place.{rows_behind};
ghost use Rattle.tf_query.specs.Walk.{AreComing, AreTableRows};

use std::alloc::Allocator;
use std::marker::Model;
use tf_look_ups::{Part, newest, table_at};
use tf_manifest::RowValue;
use tf_registry::{Naming, TableRef, Tables};
use tf_scan::{ANYWHERE, Direction, expected_in};
use tf_table::{Column, Cursor, Key, Sealed};

/// Rows of a table that are still to come, whose entries differ, and a part of time in which no newer table has anything.
#[derive(Drop)]
struct Coming<'r, V> {
    part: Part,
    keys: &'r [Key],
    entries: &'r [Option<V>],
}

impl<'r, V> Coming<'r, V> {
    /// The rows of a table behind a key, in a direction, if they have an entry each. The key may be expected at a place.
    fn behind<A: Allocator>(
        direction: Direction,
        part: Part,
        table: &'r Sealed<V, A>,
        key: &Key,
        expected: usize,
    ) -> Option<Coming<'r, V>>
        ensures { IfSome result (λ coming. (coming.part ≡ part) × AreTableRows table.now coming.keys.now coming.entries.now) }
    {
        // The length tells the proof that no key comes twice.
        let _length = table.len();
        let rows = rows_from(direction, table, key, expected);
        let (own_keys, column) = rows.runs();
        let Column::Each(own_entries) = column else {
            return None;
        };
        let Some((_own_key, keys)) = direction.split_first(own_keys) else {
            return None;
        };
        let Some((_own_entry, entries)) = direction.split_first(own_entries) else {
            return None;
        };
        Some(Coming {
            part,
            keys,
            entries,
        })
    }

    /// Takes out the next row, and tells its entry if it has the key.
    #[inline]
    fn entry(&mut self, direction: Direction, key: &Key) -> Option<Option<&'r V>>
        ensures known { (lists : List (List (Key × Option V))) → AreComing lists self.old.part self.old.keys.now self.old.entries.now → AreComing lists self.new.part self.new.keys.now self.new.entries.now }
        ensures found { (lists : List (List (Key × Option V))) → AreComing lists self.old.part self.old.keys.now self.old.entries.now → IfSome result (λ entry. entry_of key.now lists ≡ Some (option_copied entry)) }
    {
        if !self.part.has(key.timestamp) {
            return None;
        }
        let Some((other, keys)) = direction.split_first(self.keys) else {
            return None;
        };
        let Some((entry, entries)) = direction.split_first(self.entries) else {
            return None;
        };
        self.keys = keys;
        self.entries = entries;
        if other.timestamp == key.timestamp && other.value == key.value {
            Some(entry.as_ref())
        } else {
            None
        }
    }
}

/// The rows of a table from a key on, in a direction. The key may be expected at a place.
#[inline]
fn rows_from<'r, V, A: Allocator>(
    direction: Direction,
    table: &'r Sealed<V, A>,
    key: &Key,
    expected: usize,
) -> Cursor<'r, V, A>
    ensures { result ≡ rows_behind direction key.now table.now }
{
    match direction {
        Direction::Rising if expected == ANYWHERE => table.seek(key),
        Direction::Rising => table.seek_near(key, expected),
        Direction::Falling if expected == ANYWHERE => table.seek_back(key),
        Direction::Falling => table.seek_back_near(key, expected),
    }
}

/// Looks keys up in the tables of a row whose rows follow one another in a direction, as do those of one value and of the
/// timestamps that a scan gives.
///
/// It keeps the rows behind the last one in its table, if they have an entry each, and in which part of time no newer table has
/// anything. Where the next key lies in it and the next row has it, that row is all that is read. Else the tables are asked, from
/// the newest on.
#[derive(Drop)]
pub struct Walk<'r, V: RowValue, A: Allocator, N: Naming> {
    references: &'r [TableRef<V, A, N>],
    direction: Direction,
    /// Where the first of the keys are expected in the first tables.
    expected: &'r [usize],
    coming: Option<Coming<'r, V>>,
}

impl<'r, V: RowValue, A: Allocator, N: Naming> Model for Walk<'r, V, A, N> {
    ghost use Rattle.std.specs.Prelude.{List, IfSome};
    ghost use Rattle.tf_registry.specs.Table.{Shown};

    ghost Value = { List (Shown V) };

    ghost use Rattle.tf_registry.specs.Row.{lists_of};
    ghost use Rattle.tf_query.specs.Walk.{AreComing};

    ghost view = { λ w. w.references.now };

    ghost invariant = { λ w. IfSome w.coming (λ c. AreComing (lists_of w.references.now) c.part c.keys.now c.entries.now) };
}

impl<'r, V: RowValue, A: Allocator, N: Naming> Walk<'r, V, A, N> {
    /// In the tables of a row, where the first of the keys may be expected at places in the first tables. It takes no memory.
    pub fn new(
        tables: &'r Tables<V, A, N>,
        direction: Direction,
        expected: &'r [usize],
    ) -> Walk<'r, V, A, N>
        ensures { result ≡ tables.now }
    {
        Walk {
            references: tables.references(),
            direction,
            expected,
            coming: None,
        }
    }

    /// The value of a key in the tables' content.
    pub fn find(&mut self, key: &Key) -> Option<&'r V>
        ensures found { option_copied result ≡ content_at key.now self.old }
        ensures same { self.new ≡ self.old }
    {
        if let Some(entry) = self.next_entry(key) {
            return entry;
        }
        self.search(key)
    }

    /// The key's entry, if the next row has it.
    #[inline]
    fn next_entry(&mut self, key: &Key) -> Option<Option<&'r V>>
        ensures found { IfSome result (λ entry. entry_of key.now (lists_of self.old) ≡ Some (option_copied entry)) }
        ensures same { self.new ≡ self.old }
    {
        let direction = self.direction;
        let Some(coming) = &mut self.coming else {
            return None;
        };
        coming.entry(direction, key)
    }

    /// The same as `find`, by all tables from the newest on.
    fn search(&mut self, key: &Key) -> Option<&'r V>
        ensures found { option_copied result ≡ content_at key.now self.old }
        ensures same { self.new ≡ self.old }
    {
        let Some((place, part, entry)) = newest(self.references, key, self.expected) else {
            return None;
        };
        let table = table_at(self.references, place);
        let expected = expected_in(self.expected, place);
        self.coming = Coming::behind(self.direction, part, table, key, expected);
        entry
    }
}
