//! Rows of tables whose entries aren't read yet.
ghost use Rattle.std.specs.Prelude.{◌≡◌, ◌+◌, ◌^◌, ◌<◌, Option, length, IsSome, slice_get, slice_index_or};

use crate::{Key, Sealed};
use std::alloc::Allocator;
use std::marker::Model;

/// A row of a table. Its entry is read only when it is asked for.
#[derive(Drop)]
pub(crate) struct Front<'a, V, A: Allocator> {
    key: &'a Key,
    table: &'a Sealed<V, A>,
    place: usize,
}

impl<'a, V, A: Allocator> Model for Front<'a, V, A> {
    ghost use Rattle.std.specs.Prelude.{◌≡◌, ◌<◌, Option, None, length, slice_index_or};
    ghost use Rattle.tf_table.specs.declared.key.Key.{Key};

    ghost Value = { Key × Option V };

    ghost view = { λ f. slice_index_or f.table.now f.place (f.key.now, None) };

    ghost invariant = { λ f. (f.place < length f.table.now) × ((slice_index_or f.table.now f.place (f.key.now, None)).0 ≡ f.key.now) };
}

impl<'a, V, A: Allocator> Front<'a, V, A> {
    /// Its key.
    #[inline]
    pub(crate) fn key(&self) -> &'a Key
        ensures { result.now ≡ self.now.0 }
    {
        self.key
    }

    /// Its value, or None for a tombstone.
    #[inline]
    pub(crate) fn entry(&self) -> &'a Option<V>
        ensures { result.now ≡ self.now.1 }
    {
        let table = self.table;
        table.entry_at(self.place)
    }
}

impl<V, A: Allocator> Sealed<V, A> {
    /// The entry of the row at a place.
    #[inline]
    fn entry_at(&self, place: usize) -> &Option<V>
        requires { place < length self.now }
        ensures { (d : Key × Option V) → (slice_index_or self.now place d).1 ≡ result.now }
    {
        self.entries.entry(place)
    }

    /// The row at a place, counted from 0.
    #[inline]
    pub(crate) fn front_at(&self, place: usize) -> Option<Front<'_, V, A>>
        ensures value { result ≡ slice_get self.now place }
        ensures within { IsSome result → place + 1 < 2 ^ 64 }
    {
        if place < self.keys.len() {
            Some(Front {
                key: &self.keys[place],
                table: self,
                place,
            })
        } else {
            None
        }
    }
}
