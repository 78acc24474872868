//! The sealed tables of a row.
ghost use Rattle.std.specs.Prelude.{◌≡◌, ◌<◌, ◌≤◌, [], ◌∷◌, length, vec_capacity, IfOk, IfErr};
ghost use Rattle.std.specs.Option.{option_copied, option_map};
ghost use Rattle.tf_table.specs.Content.{entry_of};
ghost use Rattle.tf_table.specs.First.{IsFirstAbove};
ghost use Rattle.tf_registry.specs.Row.{lists_of, content_at, is_nil, weight, IsRow};

use crate::{Naming, TableRef, TableValue};
use std::alloc::Allocator;
use std::marker::Model;
use tf_records::Refusal;
use tf_table::Key;

/// How many references a row has at most.
const MOST: usize = 64;

/// The sealed tables of one row, newest first: at most 64 references, for which room was made.
///
/// The newest table that has a key decides. The last table alone is marked oldest, and levels don't fall from the
/// newest to the oldest.
#[derive(Drop)]
pub struct Tables<V: TableValue, A: Allocator, N: Naming> {
    pub(crate) references: Vec<TableRef<V, A, N>, A>,
}

impl<V: TableValue, A: Allocator, N: Naming> Model for Tables<V, A, N> {
    ghost use Rattle.std.specs.Prelude.{◌≤◌, List, length};
    ghost use Rattle.std.specs.Vec.{vec_capacity};
    ghost use Rattle.tf_registry.specs.Table.{Shown};
    ghost use Rattle.tf_registry.specs.Row.{IsRow};

    ghost Value = { List (Shown V) };

    ghost view = { λ t. t.references.items };

    ghost invariant = { λ t. IsRow t.references.items × (length t.references.items ≤ 64) × (64 ≤ vec_capacity t.references) };
}

impl<V: TableValue, A: Allocator, N: Naming> Tables<V, A, N> {
    /// No tables. It takes memory for 64 references, some 2 KB. The only refusal is `NoMemory`.
    pub fn new(alloc: A) -> Result<Tables<V, A, N>, Refusal>
        ensures none { IfOk result (λ tables. tables ≡ []) }
        ensures err { IfErr result (λ refusal. refusal ≡ Refusal.NoMemory) }
    {
        Ok(Tables {
            references: Vec::with_capacity(alloc, MOST)?,
        })
    }

    /// A copy, by one more owner for each table. It takes memory for 64 references, and copies no row.
    ///
    /// The only refusal is `NoMemory`, which a table with 2^63 - 1 owners gives too.
    pub fn again(&self, alloc: A) -> Result<Tables<V, A, N>, Refusal>
        ensures copy { IfOk result (λ tables. tables ≡ self.now) }
        ensures err { IfErr result (λ refusal. refusal ≡ Refusal.NoMemory) }
    {
        let mut references = Vec::with_capacity(alloc, MOST)?;
        for at in 0..self.references.len() {
            references.push_reserved(self.references[at].again()?);
        }
        Ok(Tables { references })
    }

    /// The number of tables, at most 64.
    #[inline]
    pub fn len(&self) -> usize
        ensures value { result ≡ length self.now }
        ensures fits { result ≤ 64 }
        ensures row { IsRow self.now }
    {
        self.references.len()
    }

    /// Whether there is no table.
    #[inline]
    pub fn is_empty(&self) -> bool
        ensures { result ≡ is_nil self.now }
    {
        self.references.is_empty()
    }

    /// How many tables of level 0 the tables are made of at least: one of a level counts as two of the level below it.
    ///
    /// It looks at each reference once.
    pub fn weight(&self) -> u32
        ensures value { result ≡ weight self.now }
        ensures fits { result ≤ 1048576 }
    {
        weight_of(self.references.as_slice())
    }

    /// The references, newest first.
    #[inline]
    pub fn references(&self) -> &[TableRef<V, A, N>]
        ensures value { result.now ≡ self.now }
        ensures fits { length result.now ≤ 64 }
    {
        self.references.as_slice()
    }

    /// The entry of a key, if a table has it: its value, or None inside for a tombstone.
    ///
    /// It goes over the tables from the newest on, up to the first that has the key, by one look-up in each.
    pub fn entry(&self, key: &Key) -> Option<Option<&V>>
        ensures { option_map option_copied result ≡ entry_of key.now (lists_of self.now) }
    {
        newest_entry(self.references.as_slice(), key)
    }

    /// The value of a key in the tables' content.
    pub fn find(&self, key: &Key) -> Option<&V>
        ensures { option_copied result ≡ content_at key.now self.now }
    {
        match self.entry(key) {
            Some(Some(value)) => Some(value),
            _ => None,
        }
    }

    /// The first key above `key` that has an entry, a value or a tombstone, in one of the tables, if there is one.
    ///
    /// It goes over all tables, by one search in each.
    pub fn first_above(&self, key: &Key) -> Option<Key>
        ensures { IsFirstAbove key.now (λ found. entry_of found (lists_of self.now)) result }
    {
        first_entry(self.references.as_slice(), key)
    }

    /// Puts a table that was just sealed in front of all others. It takes no memory.
    pub fn add(&mut self, table: TableRef<V, A, N>)
        requires room { length self.old < 64 }
        requires light { weight self.old < 1048576 }
        requires level { table.table.level ≡ 0 }
        requires oldest { table.table.oldest ≡ is_nil self.old }
        ensures { self.new ≡ table ∷ self.old }
    {
        put_first(&mut self.references, table);
    }
}

/// Puts a reference in front of others, for which there is room. It takes no memory.
fn put_first<V: TableValue, A: Allocator, N: Naming>(
    references: &mut Vec<TableRef<V, A, N>, A>,
    table: TableRef<V, A, N>,
)
    requires few { length references.old.items < 64 }
    requires room { 64 ≤ vec_capacity references.old }
    ensures items { references.new.items ≡ table ∷ references.old.items }
    ensures capacity { 64 ≤ vec_capacity references.new }
{
    let _ = references.insert(0, table);
}

/// How much tables weigh together.
fn weight_of<V: TableValue, A: Allocator, N: Naming>(references: &[TableRef<V, A, N>]) -> u32
    requires { weight references.now ≤ 1048576 }
    ensures { result ≡ weight references.now }
{
    let mut sum = 0;
    for reference in references {
        sum += 2u32.pow(reference.table().level());
    }
    sum
}

/// The entry of a key in the newest table that has it.
fn newest_entry<'a, V: TableValue, A: Allocator, N: Naming>(
    references: &'a [TableRef<V, A, N>],
    key: &Key,
) -> Option<Option<&'a V>>
    ensures { option_map option_copied result ≡ entry_of key.now (lists_of references.now) }
{
    for reference in references {
        let found = reference.table().table().find(key);
        if found.is_some() {
            return found;
        }
    }
    None
}

/// The first key above `key` that has an entry in one of the tables.
fn first_entry<V: TableValue, A: Allocator, N: Naming>(
    references: &[TableRef<V, A, N>],
    key: &Key,
) -> Option<Key>
    ensures { IsFirstAbove key.now (λ found. entry_of found (lists_of references.now)) result }
{
    let mut first = None;
    for reference in references {
        first = Key::lesser(first, reference.table().table().first_above(key));
    }
    first
}
