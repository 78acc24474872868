//! Rows on their way into a sealed table, as long as their keys rise.
ghost use Rattle.std.specs.Prelude.{◌≡◌, ◌<◌, [], ◌∷◌, ◌++◌, length, IfOk, OnErr, if◌then◌else◌};
ghost use Rattle.tf_sorted.specs.Rows.{IsRising};
ghost use Rattle.tf_table.specs.Key.{key_cmp};
ghost use Rattle.tf_mutable_rows.specs.Rising.{is_above, last_key};

use std::alloc::{AllocError, Allocator};
use std::marker::Model;
use tf_table::{Draft, Key, Repeats, Sealed};

/// Rows that rise. Contracts see them, and for how many there is room.
#[derive(Drop)]
pub(crate) struct RisingDraft<V, A: Allocator> {
    draft: Draft<V, A>,
    last: Option<Key>,
}

impl<V, A: Allocator> Model for RisingDraft<V, A> {
    ghost use Rattle.std.specs.Prelude.{◌≡◌};
    ghost use Rattle.tf_sorted.specs.Rows.{IsRising};
    ghost use Rattle.tf_table.specs.Key.{key_cmp};
    ghost use Rattle.tf_table.specs.Rows.{Drafted};
    ghost use Rattle.tf_mutable_rows.specs.Rising.{last_key};

    ghost Value = { Drafted V };

    ghost view = { λ rising. rising.draft };

    ghost invariant = { λ rising. IsRising key_cmp rising.draft.rows × (rising.last ≡ last_key rising.draft.rows) };
}

impl<V: Repeats, A: Allocator + Clone> RisingDraft<V, A> {
    /// No rows, and room for `room` rows. It takes memory for their keys.
    pub(crate) fn with_room(alloc: A, room: usize) -> Result<Self, AllocError>
        ensures none { IfOk result (λ rising. rising.rows ≡ []) }
        ensures room { IfOk result (λ rising. rising.room ≡ room) }
    {
        Ok(RisingDraft {
            draft: Draft::with_room(alloc, room)?,
            last: None,
        })
    }

    /// Puts a row behind the others if its key is above theirs, and tells whether it is. It takes memory as a draft does, and an
    /// `Err` for want of it changes nothing.
    #[inline]
    pub(crate) fn add(&mut self, key: &Key, entry: &Option<V>) -> Result<bool, AllocError>
        requires fits { length self.old.rows < self.old.room }
        ensures added { IfOk result (λ added. added ≡ is_above key.now (last_key self.old.rows)) }
        ensures rows { IfOk result (λ added. self.new.rows ≡ (if added then self.old.rows ++ (key.now, entry.now) ∷ [] else self.old.rows)) }
        ensures room { self.new.room ≡ self.old.room }
        ensures err { OnErr result (self.new ≡ self.old) }
    {
        if !is_behind(key, &self.last) {
            return Ok(false);
        }
        self.draft.add(key, entry)?;
        self.last = Some(*key);
        Ok(true)
    }

    /// The table of the rows. Room that they don't take is given back. The memory of its filter and of its fences comes from
    /// `alloc`.
    pub(crate) fn seal(self, alloc: A) -> Result<Sealed<V, A>, AllocError>
        ensures rising { IsRising key_cmp self.rows }
        ensures sealed { IfOk result (λ sealed. sealed ≡ self.rows) }
    {
        self.draft.seal(alloc)
    }
}

/// Whether a key is above another one, if there is one.
#[inline]
fn is_behind(key: &Key, last: &Option<Key>) -> bool
    ensures { result ≡ is_above key.now last.now }
{
    match last {
        Some(last) => last.cmp(key).is_lt(),
        None => true,
    }
}
