//! The sealed tables of all rows.
ghost use Rattle.std.specs.Prelude.{◌≡◌, ◌≤◌, IfErr, IfOk};
ghost use Rattle.tf_table.specs.Content.{entry_of};
ghost use Rattle.tf_table.specs.First.{IsFirstAbove};
ghost use Rattle.tf_manifest.specs.Kinds.{kind_of};
ghost use Rattle.tf_registry.specs.Limit.{IsWithinLimit};
ghost use Rattle.tf_manifest.specs.Registries.{AreShelves};
ghost use Rattle.tf_registry.specs.Row.{lists_of};
ghost use Rattle.tf_manifest.specs.View.{View, IsLight, content_in, no_tables, references_in, tables_by};

use crate::making::{new_records, new_states, records_again, states_again};
use crate::{IdStamp, Kind, KindRows, Registries, Row, State, Stored, Value};
use std::alloc::Allocator;
use std::marker::Model;
use tf_journal::Status;
use tf_records::{Account, Refusal, Sums, Transfer};
use tf_registry::{Naming, Pushes};
use tf_table::Key;

/// The sealed tables of the 21 rows, by the kinds of their values, and how many tables were pushed.
///
/// It holds references alone, so a copy of it is a version, which nothing that happens to the original changes, and which
/// keeps its tables while it lives. No row weighs more than the tables pushed, so a row gains a table only where one was
/// pushed and counted first.
#[derive(Drop)]
pub struct Manifest<A: Allocator, N: Naming> {
    /// account_ids and expiry_entries.
    pub stamps: KindRows<u64, A, N>,
    /// account_objects.
    pub accounts: KindRows<Stored<Account>, A, N>,
    /// transfer_objects.
    pub transfers: KindRows<Stored<Transfer>, A, N>,
    /// transfer_ids.
    pub ids: KindRows<IdStamp, A, N>,
    /// The indexes, and expiry.
    pub units: KindRows<(), A, N>,
    /// account_sums.
    pub states: KindRows<State, A, N>,
    /// history.
    pub sums: KindRows<Stored<Sums>, A, N>,
    /// pending_status.
    pub statuses: KindRows<Stored<Status>, A, N>,
    pub pushes: Pushes,
}

impl<A: Allocator, N: Naming> Model for Manifest<A, N> {
    ghost use Rattle.tf_manifest.specs.View.{View, HasRows, IsLight};

    ghost Value = { View };

    ghost use Rattle.tf_manifest.specs.Fields.{view_of};

    ghost view = { view_of };

    ghost invariant = { λ m. IsLight (view_of m) × HasRows (view_of m) };
}

impl<A: Allocator, N: Naming> Manifest<A, N> {
    /// How many tables a row has, at most 64.
    pub fn references(&self, row: Row) -> u32
        ensures value { result ≡ references_in self.now row }
        ensures fits { result ≤ 64 }
    {
        match row.kind() {
            Kind::Stamp(row) => self.stamps.references(row.index()),
            Kind::Account => self.accounts.references(0),
            Kind::Transfer => self.transfers.references(0),
            Kind::Id => self.ids.references(0),
            Kind::Unit(row) => self.units.references(row.index()),
            Kind::State => self.states.references(0),
            Kind::Sums => self.sums.references(0),
            Kind::Status => self.statuses.references(0),
        }
    }

    /// The value of a key in a row's content. It takes no memory.
    pub fn find(&self, row: Row, key: &Key) -> Option<Value>
        ensures { result ≡ content_in self.now row key.now }
    {
        match row.kind() {
            Kind::Stamp(row) => self.stamps.find(row.index(), key),
            Kind::Account => self.accounts.find(0, key),
            Kind::Transfer => self.transfers.find(0, key),
            Kind::Id => self.ids.find(0, key),
            Kind::Unit(row) => self.units.find(row.index(), key),
            Kind::State => self.states.find(0, key),
            Kind::Sums => self.sums.find(0, key),
            Kind::Status => self.statuses.find(0, key),
        }
    }

    /// The first key above `key` that has an entry, a value or a tombstone, in one of a row's tables, if there is one.
    ///
    /// It goes over all tables of the row, by one search in each. It takes no memory.
    pub fn first_above(&self, row: Row, key: &Key) -> Option<Key>
        ensures { IsFirstAbove key.now (λ found. entry_of found (lists_of (tables_by self.now (kind_of row)))) result }
    {
        match row.kind() {
            Kind::Stamp(row) => self.stamps.row(row.index()).first_above(key),
            Kind::Account => self.accounts.row(0).first_above(key),
            Kind::Transfer => self.transfers.row(0).first_above(key),
            Kind::Id => self.ids.row(0).first_above(key),
            Kind::Unit(row) => self.units.row(row.index()).first_above(key),
            Kind::State => self.states.row(0).first_above(key),
            Kind::Sums => self.sums.row(0).first_above(key),
            Kind::Status => self.statuses.row(0).first_above(key),
        }
    }

    /// How many tables were pushed.
    pub fn pushed(&self) -> u32
        ensures value { result ≡ self.now.pushed.count }
        ensures within { IsWithinLimit self.now.pushed }
        ensures light { IsLight self.now }
    {
        self.pushes.count()
    }

    /// How many tables may be pushed.
    pub fn limit(&self) -> u32
        ensures { result ≡ self.now.pushed.limit }
    {
        self.pushes.limit()
    }
}

impl<A: Allocator + Clone, N: Naming> Manifest<A, N> {
    /// No tables in any row, none pushed. It takes memory for 64 references of each row, some 43 KB in all. The only refusal
    /// is `NoMemory`, which a registry with 2^63 - 1 owners gives too.
    pub fn new(registries: &Registries<A>, alloc: A) -> Result<Manifest<A, N>, Refusal>
        requires { AreShelves N.shelf registries.now }
        ensures none { IfOk result (λ manifest. manifest ≡ no_tables registries.now.limit) }
        ensures err { IfErr result (λ refusal. refusal ≡ Refusal.NoMemory) }
    {
        let records = new_records(registries, &alloc);
        let states = new_states(registries, &alloc);
        let Some((records, states)) = records.zip(states) else {
            return Err(Refusal::NoMemory);
        };
        let ((stamps, accounts), (transfers, ids)) = records;
        let ((units, states), (sums, statuses)) = states;
        Ok(Manifest {
            stamps,
            accounts,
            transfers,
            ids,
            units,
            states,
            sums,
            statuses,
            pushes: Pushes::new(registries.limit),
        })
    }

    /// A copy, by one more owner for each table. It takes memory as a new manifest does, and copies no table. The only
    /// refusal is `NoMemory`, which a table with 2^63 - 1 owners gives too.
    pub fn again(&self, alloc: A) -> Result<Manifest<A, N>, Refusal>
        ensures copy { IfOk result (λ manifest. manifest ≡ self.now) }
        ensures err { IfErr result (λ refusal. refusal ≡ Refusal.NoMemory) }
    {
        let records = records_again(self, &alloc);
        let states = states_again(self, &alloc);
        let Some((records, states)) = records.zip(states) else {
            return Err(Refusal::NoMemory);
        };
        let ((stamps, accounts), (transfers, ids)) = records;
        let ((units, states), (sums, statuses)) = states;
        Ok(Manifest {
            stamps,
            accounts,
            transfers,
            ids,
            units,
            states,
            sums,
            statuses,
            pushes: self.pushes,
        })
    }
}
