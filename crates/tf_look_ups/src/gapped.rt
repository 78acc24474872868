//! Tables of a row that remember between which values they have no key.
ghost use Rattle.std.specs.Prelude.{◌≡◌, ◌<◌, IfErr, IfOk, IsTrue};
ghost use Rattle.std.specs.Option.{option_copied};
ghost use Rattle.tf_table.specs.Content.{entry_at, entry_of};
ghost use Rattle.tf_registry.specs.Row.{lists_of};
ghost use Rattle.tf_manifest.specs.Rows.{key_of};
ghost use Rattle.tf_look_ups.specs.Gapped.{upper_end};

use crate::finder::table_at;
use crate::reads::key_of;
use std::alloc::Allocator;
use std::marker::Model;
use tf_manifest::RowValue;
use tf_records::Refusal;
use tf_registry::{Naming, TableRef};
use tf_table::{Key, Sealed};

/// The values above one and below another.
#[derive(Clone, Copy)]
struct Gap {
    above: u128,
    below: u128,
}

impl Gap {
    /// No values.
    const NONE: Gap = Gap {
        above: u128::MAX,
        below: 0,
    };

    /// Whether a value is one of them.
    #[inline]
    fn has(self, value: u128) -> bool
        ensures { IsTrue result → (self.above < value) × (value < self.below) }
    {
        self.above < value && value < self.below
    }
}

/// A table, and values of which it has no key without a timestamp: those between the last one that was looked up in it and the next
/// one that it has.
///
/// So of values that rise, as of those that fall, most that a table doesn't have cost it two comparisons, and the next one that it
/// has is where it is expected.
#[derive(Drop)]
pub struct GappedTable<'r, V: RowValue, A: Allocator> {
    table: &'r Sealed<V, A>,
    gap: Gap,
    /// The place of the first key behind the gap.
    place: usize,
}

impl<'r, V: RowValue, A: Allocator> Model for GappedTable<'r, V, A> {
    ghost use Rattle.std.specs.Prelude.{List, Option};
    ghost use Rattle.tf_table.specs.declared.key.Key.{Key};
    ghost use Rattle.tf_look_ups.specs.Gapped.{IsGap};

    ghost Value = { List (Key × Option V) };

    ghost view = { λ g. g.table.now };

    ghost invariant = { λ g. IsGap g.gap g.table.now };
}

impl<'r, V: RowValue, A: Allocator> GappedTable<'r, V, A> {
    /// A table of which nothing is remembered yet.
    fn of(table: &'r Sealed<V, A>) -> GappedTable<'r, V, A>
        ensures { result ≡ table.now }
    {
        GappedTable {
            table,
            gap: Gap::NONE,
            place: 0,
        }
    }

    /// The entry of a value's key in the table, as it is stored there.
    #[inline]
    fn entry(&mut self, value: u128) -> Option<&'r Option<V>>
        ensures found { option_copied result ≡ entry_at (key_of value 0) self.old }
        ensures same { self.new ≡ self.old }
    {
        if self.gap.has(value) {
            return None;
        }
        self.look_up(value)
    }

    /// The same for a value that doesn't lie in the gap. Most that the table doesn't have are passed over by its filter, which isn't
    /// asked of the first behind the gap.
    fn look_up(&mut self, value: u128) -> Option<&'r Option<V>>
        ensures found { option_copied result ≡ entry_at (key_of value 0) self.old }
        ensures same { self.new ≡ self.old }
    {
        let table = self.table;
        let key = key_of(value, 0);
        if value != self.gap.below && !table.may_have(&key) {
            return None;
        }
        let (entry, next, place) = table.entry_and_next(&key, self.place);
        self.gap = Gap {
            above: value,
            below: upper_end(next),
        };
        self.place = place;
        entry
    }
}

/// The value of a key, or the greatest one where there is none.
#[inline]
fn upper_end(next: Option<Key>) -> u128
    ensures { result ≡ upper_end next }
{
    match next {
        Some(key) => key.value,
        None => u128::MAX,
    }
}

/// The tables of a row, of which nothing is remembered yet. Room for them is made once, and `NoMemory` is the only refusal.
pub fn gapped<'r, V: RowValue, A: Allocator, N: Naming, B: Allocator>(
    alloc: B,
    references: &'r [TableRef<V, A, N>],
) -> Result<Vec<GappedTable<'r, V, A>, B>, Refusal>
    ensures ok { IfOk result (λ tables. tables.items ≡ lists_of references.now) }
    ensures refusal { IfErr result (λ refusal. refusal ≡ Refusal.NoMemory) }
{
    let Ok(mut tables) = Vec::with_capacity(alloc, references.len()) else {
        return Err(Refusal::NoMemory);
    };
    for place in 0..references.len() {
        tables.push_reserved(GappedTable::of(table_at(references, place)));
    }
    Ok(tables)
}

/// The entry of a value's key in the newest table that has it, as it is stored there. No entry is read.
pub fn entry_in_gapped<'r, V: RowValue, A: Allocator>(
    tables: &mut [GappedTable<'r, V, A>],
    value: u128,
) -> Option<&'r Option<V>>
    ensures found { option_copied result ≡ entry_of (key_of value 0) tables.old }
    ensures same { tables.new ≡ tables.old }
{
    for place in 0..tables.len() {
        if let Some(entry) = tables[place].entry(value) {
            return Some(entry);
        }
    }
    None
}
