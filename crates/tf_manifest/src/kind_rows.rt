//! The rows that store one kind of value.
ghost use Rattle.std.specs.Prelude.{◌≡◌, ◌<◌, ◌≤◌, [], ◌∷◌, length, replicate, slice_index_or, slice_set, OnOk, OnErr, IfOk, IfErr};
ghost use Rattle.std.specs.Arc.{arc_value};
ghost use Rattle.std.specs.Option.{option_map};
ghost use Rattle.tf_registry.specs.Install.{OnStale, OnFull, IfNoMemory};
ghost use Rattle.tf_registry.specs.Limit.{one_more};
ghost use Rattle.tf_registry.specs.Row.{content_at, is_nil, weight};
ghost use Rattle.tf_registry.specs.Run.{Stands};
ghost use Rattle.tf_manifest.specs.KindRows.{InstallsAt};

use crate::{RowValue, Value};
use std::alloc::Allocator;
use std::marker::Model;
use std::sync::{Arc, Wait};
use tf_records::Refusal;
use tf_registry::{Held, Merged, Naming, Pushes, Registry, RowUninstalled, TableRef, Tables};
use tf_table::Key;

/// The sealed tables of the rows that store one kind of value. Contracts see the tables of each, in the rows' order.
#[derive(Drop)]
pub struct KindRows<V: RowValue, A: Allocator, N: Naming> {
    registry: Arc<Registry<V, A>, A>,
    list: Vec<Tables<V, A, N>, A>,
}

impl<V: RowValue, A: Allocator, N: Naming> Model for KindRows<V, A, N> {
    ghost use Rattle.std.specs.Prelude.{◌≡◌, List};
    ghost use Rattle.std.specs.Arc.{arc_value};
    ghost use Rattle.tf_registry.specs.Table.{Shown};

    ghost Value = { List (List (Shown V)) };

    ghost view = { λ r. r.list.items };

    ghost invariant = { λ r. arc_value r.registry ≡ N.shelf V.kind };
}

impl<V: RowValue, A: Allocator, N: Naming> KindRows<V, A, N> {
    /// The number of tables of the row at a place, at most 64.
    pub fn references(&self, at: usize) -> u32
        requires { at < length self.now }
        ensures value { result ≡ length (slice_index_or self.now at []) }
        ensures fits { result ≤ 64 }
    {
        self.row(at).len() as u32
    }

    /// The tables of the row at a place.
    #[inline]
    pub fn row(&self, at: usize) -> &Tables<V, A, N>
        requires { at < length self.now }
        ensures row { result.now ≡ slice_index_or self.now at [] }
    {
        &self.list.as_slice()[at]
    }

    /// The value of a key in the content of the row at a place.
    pub fn find(&self, at: usize, key: &Key) -> Option<Value>
        requires { at < length self.now }
        ensures { result ≡ option_map V.seen (content_at key.now (slice_index_or self.now at [])) }
    {
        match self.row(at).find(key) {
            Some(value) => Some(value.to_value()),
            None => None,
        }
    }

    /// Puts a table that was just sealed in front of all others of the row at a place, as `Tables::add` does.
    pub fn add(&mut self, at: usize, table: TableRef<V, A, N>)
        requires at { at < length self.old }
        requires room { length (slice_index_or self.old at []) < 64 }
        requires light { weight (slice_index_or self.old at []) < 1048576 }
        requires level { table.table.level ≡ 0 }
        requires oldest { table.table.oldest ≡ is_nil (slice_index_or self.old at []) }
        ensures value { self.new ≡ slice_set self.old at (table ∷ slice_index_or self.old at []) }
        ensures count { length self.new ≡ length self.old }
    {
        self.list.as_mut_slice()[at].add(table);
    }
}

impl<V: RowValue, A: Allocator + Clone, N: Naming> KindRows<V, A, N> {
    /// So many rows with no tables. It takes memory for each, some 2 KB, and once for all. The only refusal is `NoMemory`,
    /// which a registry with 2^63 - 1 owners gives too.
    pub fn new(
        registry: &Arc<Registry<V, A>, A>,
        count: usize,
        alloc: A,
    ) -> Result<KindRows<V, A, N>, Refusal>
        requires { arc_value registry.now ≡ N.shelf V.kind }
        ensures none { IfOk result (λ rows. rows ≡ replicate count []) }
        ensures err { IfErr result (λ refusal. refusal ≡ Refusal.NoMemory) }
    {
        let registry = Arc::try_clone(registry)?;
        let mut list = Vec::with_capacity(alloc.clone()?, count)?;
        for _row in 0..count {
            list.push(Tables::new(alloc.clone()?)?)?;
        }
        Ok(KindRows { registry, list })
    }

    /// A copy, by one more owner for each table. It takes memory as new rows do, and copies no table. The only refusal is
    /// `NoMemory`, which a table with 2^63 - 1 owners gives too.
    pub fn again(&self, alloc: A) -> Result<KindRows<V, A, N>, Refusal>
        ensures copy { IfOk result (λ rows. rows ≡ self.now) }
        ensures err { IfErr result (λ refusal. refusal ≡ Refusal.NoMemory) }
    {
        let registry = Arc::try_clone(&self.registry)?;
        let mut list = Vec::with_capacity(alloc.clone()?, self.list.len())?;
        for at in 0..self.list.len() {
            list.push(self.row(at).again(alloc.clone()?)?)?;
        }
        Ok(KindRows { registry, list })
    }

    /// Pushes a table into the registry of these rows, and counts it. It may wait while another push makes room.
    ///
    /// For want of memory an `Err` hands the table back, and nothing was pushed.
    pub fn push<R: Wait>(
        &self,
        rt: &R,
        pushes: &mut Pushes,
        table: Held<V, A>,
    ) -> Result<TableRef<V, A, N>, Held<V, A>>
        requires { pushes.old.count < pushes.old.limit }
        ensures pushed { IfOk result (λ t. t.table ≡ arc_value table) }
        ensures numbered { IfOk result (λ t. 0 < t.number) }
        ensures counted { OnOk result (pushes.new ≡ one_more pushes.old) }
        ensures back { IfErr result (λ b. b ≡ table) }
        ensures err { OnErr result (pushes.new ≡ pushes.old) }
    {
        let table = self.registry.push(rt, table)?;
        pushes.add();
        Ok(table)
    }

    /// Puts a merged table in the place of its run in the row at a place, as `Tables::install` does.
    pub fn install<R: Wait>(
        &mut self,
        rt: &R,
        at: usize,
        pushes: &mut Pushes,
        merged: Merged<V, A, N>,
    ) -> Result<(), RowUninstalled<V, A, N>>
        requires { at < length self.old }
        ensures installs { OnOk result (InstallsAt self.old at merged self.new) }
        ensures count { length self.new ≡ length self.old }
        ensures pushed { OnOk result (pushes.new ≡ one_more pushes.old) }
        ensures room { OnOk result (pushes.old.count < pushes.old.limit) }
        ensures err { OnErr result ((self.new ≡ self.old) × (pushes.new ≡ pushes.old)) }
        ensures stale { IfErr result (λ e. OnStale e (Stands (slice_index_or self.old at []) merged.run → ⊥)) }
        ensures full { IfErr result (λ e. OnFull e (Stands (slice_index_or self.old at []) merged.run × (pushes.old.count ≡ pushes.old.limit))) }
        ensures no_memory { IfErr result (λ e. IfNoMemory e (λ m. Stands (slice_index_or self.old at []) merged.run × (pushes.old.count < pushes.old.limit))) }
        ensures back { IfErr result (λ e. IfNoMemory e (λ m. m ≡ merged)) }
    {
        let registry = &self.registry;
        self.list.as_mut_slice()[at].install(rt, registry, pushes, merged)
    }
}
