//! A walk over some rows of a table.
ghost use Rattle.std.specs.Prelude.{◌≡◌, ◌-◌, ◌≤◌, take, drop, length};
ghost use Rattle.std.specs.Iterator.{YieldsFirstBy, YieldsLastBy, item_count};
ghost use Rattle.tf_sorted.specs.Rows.{IsRising, rows_from, rows_upto};
ghost use Rattle.tf_table.specs.Key.{key_cmp};
ghost use Rattle.tf_table.specs.Merge.{seen};
ghost use Rattle.tf_table.specs.Column.{AreRuns};

use crate::search::{Start, count_below, count_upto, part};
use crate::{Column, Key, Row, Sealed};
use std::alloc::Allocator;
use std::marker::Model;

/// Rows of a table that lie side by side. They come by rising key from the front, and by falling key from the back.
///
/// A step takes constant time and no memory.
#[derive(Drop)]
pub struct Cursor<'a, V, A: Allocator> {
    table: &'a Sealed<V, A>,
    from: usize,
    to: usize,
}

impl<'a, V, A: Allocator> Model for Cursor<'a, V, A> {
    ghost use Rattle.std.specs.Prelude.{List, Option, ◌-◌, ◌≤◌, take, drop, length};
    ghost use Rattle.tf_table.specs.declared.key.Key.{Key};

    ghost Value = { List (Key × Option V) };

    ghost view = { λ c. take (c.to - c.from) (drop c.from c.table.now) };

    ghost invariant = { λ c. (c.from ≤ c.to) × (c.to ≤ length c.table.now) };
}

impl<V, A: Allocator> Sealed<V, A> {
    /// The rows from the least key not below `key` on. It takes no memory.
    pub fn seek(&self, key: &Key) -> Cursor<'_, V, A>
        ensures { result ≡ rows_from key_cmp key.now self.now }
    {
        self.rows_from(key, self.near(key))
    }

    /// The rows up to the greatest key not above `key`: the last of them is the first from the back. It takes no memory.
    pub fn seek_back(&self, key: &Key) -> Cursor<'_, V, A>
        ensures { result ≡ rows_upto key_cmp key.now self.now }
    {
        self.rows_upto(key, self.near(key))
    }

    /// The same as `seek`, by a search that begins at a place, and goes ever further from it.
    pub fn seek_near(&self, key: &Key, place: usize) -> Cursor<'_, V, A>
        ensures { result ≡ rows_from key_cmp key.now self.now }
    {
        self.rows_from(key, Start::Near(place))
    }

    /// The same as `seek_back`, by such a search.
    pub fn seek_back_near(&self, key: &Key, place: usize) -> Cursor<'_, V, A>
        ensures { result ≡ rows_upto key_cmp key.now self.now }
    {
        self.rows_upto(key, Start::Near(place))
    }

    /// The rows whose keys are neither below `from` nor above `to`. It takes no memory.
    ///
    /// The number of keys that it looks at grows with the logarithm of the rows, and from the first of the range on with
    /// that of the rows in the range.
    pub fn range(&self, from: &Key, to: &Key) -> Cursor<'_, V, A>
        ensures { result ≡ rows_upto key_cmp to.now (rows_from key_cmp from.now self.now) }
    {
        self.rows_between(from, to, self.near(from))
    }

    /// The same, by a search for the first of them that begins at a place, and goes ever further from it.
    pub fn range_near(&self, from: &Key, to: &Key, place: usize) -> Cursor<'_, V, A>
        ensures { result ≡ rows_upto key_cmp to.now (rows_from key_cmp from.now self.now) }
    {
        self.rows_between(from, to, Start::Near(place))
    }
}

impl<V, A: Allocator> Sealed<V, A> {
    /// The rows from the least key not below `key` on, by a search that begins somewhere.
    fn rows_from(&self, key: &Key, start: Start) -> Cursor<'_, V, A>
        ensures { result ≡ rows_from key_cmp key.now self.now }
    {
        let to = self.len();
        Cursor {
            table: self,
            from: self.first_from(0, to, key, start),
            to,
        }
    }

    /// The rows up to the greatest key not above `key`, by a search that begins somewhere.
    fn rows_upto(&self, key: &Key, start: Start) -> Cursor<'_, V, A>
        ensures { result ≡ rows_upto key_cmp key.now self.now }
    {
        let len = self.len();
        Cursor {
            table: self,
            from: 0,
            to: self.last_upto(0, len, key, start),
        }
    }

    /// The rows whose keys are neither below `from` nor above `to`, by a search for the first that begins somewhere.
    fn rows_between(&self, from: &Key, to: &Key, start: Start) -> Cursor<'_, V, A>
        ensures { result ≡ rows_upto key_cmp to.now (rows_from key_cmp from.now self.now) }
    {
        let len = self.len();
        let first = self.first_from(0, len, from, start);
        Cursor {
            table: self,
            from: first,
            to: self.last_upto(first, len, to, self.near_behind(to, first)),
        }
    }

    /// Of the rows from one place up to another the first that isn't below `key`.
    #[inline]
    fn first_from(&self, from: usize, to: usize, key: &Key, start: Start) -> usize
        requires ordered { from ≤ to }
        requires within { to ≤ length self.now }
        ensures within { (from ≤ result) × (result ≤ to) }
        ensures rows { take (to - result) (drop result self.now) ≡ rows_from key_cmp key.now (take (to - from) (drop from self.now)) }
    {
        from + count_below(part(&self.keys, from, to), key, start)
    }

    /// The place behind the last of them that isn't above `key`.
    #[inline]
    fn last_upto(&self, from: usize, to: usize, key: &Key, start: Start) -> usize
        requires ordered { from ≤ to }
        requires within { to ≤ length self.now }
        ensures within { (from ≤ result) × (result ≤ to) }
        ensures rows { take (result - from) (drop from self.now) ≡ rows_upto key_cmp key.now (take (to - from) (drop from self.now)) }
    {
        from + count_upto(part(&self.keys, from, to), key, start)
    }

    /// Their keys and their entries.
    #[inline(always)]
    fn runs(&self, from: usize, to: usize) -> (&[Key], Column<'_, V>)
        requires ordered { from ≤ to }
        requires within { to ≤ length self.now }
        ensures rows { AreRuns result.0.now result.1 (take (to - from) (drop from self.now)) }
        ensures rising { IsRising key_cmp (take (to - from) (drop from self.now)) }
    {
        (part(&self.keys, from, to), self.entries.column(from, to))
    }
}

impl<'a, V, A: Allocator> Cursor<'a, V, A> {
    /// Passes over the rows below `key`: of those that are still to come, the rows not below it stay.
    ///
    /// It looks ever further from the front, a number of times that grows with the logarithm of the rows passed over,
    /// and reads keys alone. It takes no memory.
    pub fn seek(&mut self, key: &Key)
        ensures { self.new ≡ rows_from key_cmp key.now self.old }
    {
        let table = self.table;
        self.from = table.first_from(self.from, self.to, key, Start::Front);
    }

    /// The same from the back: of the rows that are still to come, those not above `key` stay.
    pub fn seek_back(&mut self, key: &Key)
        ensures { self.new ≡ rows_upto key_cmp key.now self.old }
    {
        let table = self.table;
        self.to = table.last_upto(self.from, self.to, key, Start::Back);
    }

    /// The rows that are still to come as they lie in the table: their keys, which rise, and their entries.
    ///
    /// It takes constant time and no memory, and reads no row.
    #[inline(always)]
    pub fn runs(&self) -> (&'a [Key], Column<'a, V>)
        ensures rows { AreRuns result.0.now result.1 self.now }
        // No key comes twice.
        ensures rising { IsRising key_cmp self.now }
    {
        let table = self.table;
        table.runs(self.from, self.to)
    }

    /// Passes over so many rows from the front on.
    #[inline]
    pub fn pass(&mut self, count: usize)
        requires { count ≤ length self.old }
        ensures { self.new ≡ drop count self.old }
    {
        self.from += count;
    }

    /// The same from the back.
    #[inline]
    pub fn pass_back(&mut self, count: usize)
        requires { count ≤ length self.old }
        ensures { self.new ≡ take (length self.old - count) self.old }
    {
        self.to -= count;
    }
}

impl<'a, V, A: Allocator> Iterator for Cursor<'a, V, A> {
    type Item = Row<'a, V>;

    ghost next_gives = { YieldsFirstBy seen (λ c. c) };

    ghost remaining = { item_count (λ c. c) };

    fn next(&mut self) -> Option<Row<'a, V>> {
        if self.from == self.to {
            return None;
        }
        let place = self.from;
        self.from += 1;
        self.table.row_at(place)
    }
}

impl<'a, V, A: Allocator> DoubleEndedIterator for Cursor<'a, V, A> {
    ghost next_back_gives = { YieldsLastBy seen (λ c. c) };

    fn next_back(&mut self) -> Option<Row<'a, V>> {
        if self.from == self.to {
            return None;
        }
        self.to -= 1;
        self.table.row_at(self.to)
    }
}
