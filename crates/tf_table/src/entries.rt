//! The entries of a table's rows, apart from their keys.
ghost use Rattle.std.specs.Prelude.{◌≡◌, ◌↔◌, ℕ, ◌+◌, ◌-◌, ◌<◌, ◌≤◌, [], ◌∷◌, ◌++◌, length, replicate, take, drop, Option, None, true, IsTrue, IfOk, OnErr, OnOk, slice_index_or, vec_capacity};
ghost use Rattle.std.specs.Option.{option_copied};
ghost use Rattle.tf_table.specs.Entries.{entries_of, HasEntry, HasEntries, IsStored};
ghost use Rattle.tf_table.specs.Column.{column_of};

use crate::Column;
use crate::fitted::fitted;
use std::alloc::{AllocError, Allocator};

/// Values that can tell whether one repeats another.
///
/// A table whose entries all repeat the first one stores it once. A type for which the test is slow may always answer
/// false.
pub trait Repeats: Copy {
    /// Whether a table of such values has a filter of its keys' values, some ten bits for each. It pays for rows that
    /// are looked up by keys that most tables don't have.
    const FILTERED: bool = false;

    /// Whether the two are the same, where that is quick to tell.
    fn repeats(&self, other: &Self) -> bool
        ensures { IsTrue result → self.now ≡ other.now };
}

impl Repeats for () {
    fn repeats(&self, _other: &()) -> bool
        ensures { IsTrue result }
    {
        true
    }
}

impl Repeats for u64 {
    const FILTERED: bool = true;

    fn repeats(&self, other: &u64) -> bool
        ensures { IsTrue result ↔ (self.now ≡ other.now) }
    {
        *self == *other
    }
}

/// The entries of a number of rows: a value each, or None for a tombstone.
#[derive(Drop)]
pub(crate) enum Entries<V, A: Allocator> {
    /// The same for each row.
    Same(Option<V>),
    /// One for each row.
    Each(Vec<Option<V>, A>),
}

impl<V, A: Allocator> Entries<V, A> {
    /// The entry at a place.
    #[inline]
    pub(crate) fn at(&self, place: usize) -> Option<&V>
        requires { HasEntry place self.now }
        ensures { (rows : ℕ) (d : Option V) → place < rows → slice_index_or (entries_of rows self.now) place d ≡ option_copied result }
    {
        self.entry(place).as_ref()
    }

    /// The same, as it is stored.
    #[inline]
    pub(crate) fn entry(&self, place: usize) -> &Option<V>
        requires { HasEntry place self.now }
        ensures { (rows : ℕ) (d : Option V) → place < rows → slice_index_or (entries_of rows self.now) place d ≡ result.now }
    {
        match self {
            Entries::Same(entry) => entry,
            Entries::Each(entries) => &entries[place],
        }
    }

    /// Those from one place up to another.
    #[inline(always)]
    pub(crate) fn column(&self, from: usize, to: usize) -> Column<'_, V>
        requires ordered { from ≤ to }
        requires within { HasEntries to self.now }
        ensures { (rows : ℕ) → to ≤ rows → column_of (to - from) result ≡ take (to - from) (drop from (entries_of rows self.now)) }
    {
        match self {
            Entries::Same(entry) => Column::Same(entry.as_ref()),
            Entries::Each(entries) => Column::Each(&entries[from..to]),
        }
    }
}

impl<V: Repeats, A: Allocator + Clone> Entries<V, A> {
    /// The same, with no more room than they need.
    pub(crate) fn fitted(self) -> Result<Self, AllocError>
        ensures entries { IfOk result (λ fitted. (rows : ℕ) → entries_of rows fitted ≡ entries_of rows self) }
        ensures stored { IfOk result (λ fitted. (room rows : ℕ) → IsStored room self → length (entries_of rows self) ≡ rows → IsStored rows fitted) }
    {
        match self {
            Entries::Same(entry) => Ok(Entries::Same(entry)),
            Entries::Each(entries) => Ok(Entries::Each(fitted(entries)?)),
        }
    }

    /// Puts an entry behind those of `rows` rows. If it is the first one that differs, it takes room for `room` entries.
    #[inline]
    pub(crate) fn add(
        &mut self,
        alloc: &A,
        rows: usize,
        room: usize,
        entry: &Option<V>,
    ) -> Result<(), AllocError>
        requires paired { length (entries_of rows self.old) ≡ rows }
        requires fits { rows < room }
        requires stored { IsStored room self.old }
        ensures rows { OnOk result (entries_of (rows + 1) self.new ≡ entries_of rows self.old ++ entry.now ∷ []) }
        ensures stored { OnOk result (IsStored room self.new) }
        ensures err { OnErr result (self.new ≡ self.old) }
    {
        match self {
            Entries::Each(entries) => entries.push_reserved(*entry),
            Entries::Same(same) => {
                if rows == 0 {
                    *same = *entry;
                } else if !is_repeated(same, entry) {
                    *self = Entries::Each(spread(alloc.clone()?, same, rows, room, entry)?);
                }
            }
        }
        Ok(())
    }
}

/// Whether the two entries are the same, where that is quick to tell. Tombstones are.
#[inline]
fn is_repeated<V: Repeats>(entry: &Option<V>, other: &Option<V>) -> bool
    ensures same { IsTrue result → entry.now ≡ other.now }
    ensures tombstones { entry.now ≡ None → other.now ≡ None → result ≡ true }
{
    match (entry, other) {
        (None, None) => true,
        (Some(value), Some(other)) => value.repeats(other),
        _ => false,
    }
}

/// A run of its own for entries that were the same up to the last one, with room for `room` of them.
#[cold]
#[inline(never)]
fn spread<V: Copy, A: Allocator>(
    alloc: A,
    same: &Option<V>,
    rows: usize,
    room: usize,
    last: &Option<V>,
) -> Result<Vec<Option<V>, A>, AllocError>
    requires { rows < room }
    ensures items { IfOk result (λ entries. entries.items ≡ replicate rows same.now ++ last.now ∷ []) }
    ensures room { IfOk result (λ entries. vec_capacity entries ≡ room) }
{
    let mut entries = Vec::with_capacity(alloc, room)?;
    for _row in 0..rows {
        entries.push_reserved(*same);
    }
    entries.push_reserved(*last);
    Ok(entries)
}
