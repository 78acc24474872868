//! Rows on their way into a sealed table.
ghost use Rattle.std.specs.Prelude.{◌≡◌, ◌<◌, [], ◌∷◌, ◌++◌, length, IfOk, OnErr, OnOk};
ghost use Rattle.tf_sorted.specs.Rows.{IsRising};
ghost use Rattle.tf_table.specs.Key.{key_cmp};
ghost use Rattle.tf_table.specs.Content.{kept_row};

use crate::entries::Entries;
use crate::fences::Scale;
use crate::fitted::fitted;
use crate::front::Front;
use crate::hints::Hints;
use crate::span::span_of;
use crate::{Key, Repeats, Sealed};
use std::alloc::{AllocError, Allocator};
use std::marker::Model;

/// Rows that come one after another, before they are sealed.
///
/// Contracts see the rows, and for how many there is room. The keys have their room from the start; so do the entries, from the first
/// one on that differs from the others.
#[derive(Drop)]
pub struct Draft<V, A: Allocator> {
    keys: Vec<Key, A>,
    entries: Entries<V, A>,
    room: usize,
}

impl<V, A: Allocator> Model for Draft<V, A> {
    ghost use Rattle.std.specs.Prelude.{vec_capacity};
    ghost use Rattle.tf_table.specs.Rows.{Drafted, rows_of, IsPaired, IsFitted};

    ghost Value = { Drafted V };

    ghost view = { λ d. record { rows = rows_of d.keys.items d.entries; room = d.room } };

    ghost invariant = { λ d. IsPaired d.keys.items d.entries × IsFitted d.room (vec_capacity d.keys) d.entries };
}

impl<V: Repeats, A: Allocator + Clone> Draft<V, A> {
    /// No rows, and room for `room` rows. It takes memory for their keys.
    pub fn with_room(alloc: A, room: usize) -> Result<Self, AllocError>
        ensures none { IfOk result (λ d. d.rows ≡ []) }
        ensures room { IfOk result (λ d. d.room ≡ room) }
    {
        let keys = Vec::with_capacity(alloc, room)?;
        Ok(Draft {
            keys,
            entries: Entries::Same(None),
            room,
        })
    }

    /// Puts a row behind the others. It takes memory at the first entry that differs from the others alone, and an `Err` for want of
    /// it changes nothing.
    #[inline]
    pub fn add(&mut self, key: &Key, entry: &Option<V>) -> Result<(), AllocError>
        requires fits { length self.old.rows < self.old.room }
        ensures rows { OnOk result (self.new.rows ≡ self.old.rows ++ (key.now, entry.now) ∷ []) }
        ensures room { self.new.room ≡ self.old.room }
        ensures err { OnErr result (self.new ≡ self.old) }
    {
        let rows = self.keys.len();
        self.entries
            .add(self.keys.allocator(), rows, self.room, entry)?;
        self.keys.push_reserved(*key);
        Ok(())
    }

    /// Puts the row behind the others, unless it is a tombstone at the bottom.
    #[inline]
    pub(crate) fn keep(&mut self, row: &Front<'_, V, A>, bottom: bool) -> Result<(), AllocError>
        requires fits { length self.old.rows < self.old.room }
        ensures rows { OnOk result (self.new.rows ≡ self.old.rows ++ kept_row bottom row.now) }
        ensures room { self.new.room ≡ self.old.room }
    {
        let entry = row.entry();
        if bottom && entry.is_none() {
            return Ok(());
        }
        self.add(row.key(), entry)
    }

    /// The table of the rows. Room that they don't take is given back. The memory of its filter and of its fences comes from
    /// `alloc`.
    pub fn seal(self, alloc: A) -> Result<Sealed<V, A>, AllocError>
        requires rising { IsRising key_cmp self.rows }
        ensures { IfOk result (λ sealed. sealed ≡ self.rows) }
    {
        let keys = fitted(self.keys)?;
        let entries = self.entries.fitted()?;
        let least = match keys.first() {
            Some(key) => *key,
            None => Key::LEAST,
        };
        let greatest = match keys.last() {
            Some(key) => *key,
            None => Key::LEAST,
        };
        let span = span_of(&keys);
        // Keys of one value would share their bits.
        let is_filtered = V::FILTERED && least.value < greatest.value;
        let scale = Scale::of(&least, &greatest, span);
        let hints = Hints::of(alloc, &keys, is_filtered, &scale)?;
        Ok(Sealed {
            least,
            greatest,
            span,
            hints,
            keys,
            entries,
        })
    }
}
