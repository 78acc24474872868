//! The mutable tables of the 21 rows.
ghost use Rattle.std.specs.Prelude.{◌≡◌, ◌<◌, ℕ, [], None, length, slice_index_or, slice_set, IsSome, IfSome, IfOk, IfErr, OnOk, OnErr};
ghost use Rattle.tf_sorted.specs.Rows.{with_row};
ghost use Rattle.tf_mutable_rows.specs.Fresh.{entries_by};
ghost use Rattle.tf_rows.specs.Held.{unit_held};
ghost use Rattle.tf_rows.specs.Parts.{seen_rows};
ghost use Rattle.tf_manifest.specs.declared.value.Value.{Value};
ghost use Rattle.tf_table.specs.Content.{entry_at};
ghost use Rattle.tf_table.specs.Key.{key_cmp};
ghost use Rattle.tf_mutable.specs.Mutable.{given_back};

use crate::entry::{entry_in, put_entry, take_back};
use crate::hashed::Hashed;
use crate::places::{Place, place_of};
use crate::transfers::Transfers;
use std::alloc::Allocator;
use std::marker::Model;
use tf_btree::Tree;
use tf_journal::Status;
use tf_manifest::{IdStamp, Kind, Row, StampRow, State, Stored, Value};
use tf_mutable::{Log, MutableTable};
use tf_records::{Account, Refusal, Sums, Transfer};
use tf_rows::{Before, EmptyRows, MutableRows, PutTransfer, SealRows, SealedRow};
use tf_table::{Key, Sealed};

/// How many indexes of accounts there are.
const ACCOUNT_INDEXES: usize = 5;

/// The mutable tables of the 21 rows.
///
/// A row that is looked up or changed before it is sealed has a hash table where the ledger itself gives its keys, timestamps,
/// which nobody can make collide, and else a tree. Each other has a log, to which a row is added in constant time, but for the
/// indexes of transfers, which are read off the log of transfers.
#[derive(Drop)]
pub struct MutableTables<A: Allocator + Clone> {
    account_ids: Tree<Key, Option<u64>, A>,
    expiry_entries: Log<u64, A>,
    account_objects: Log<Stored<Account>, A>,
    transfers: Transfers<A>,
    transfer_ids: Tree<Key, Option<IdStamp>, A>,
    /// The indexes of accounts, in the order of their rows.
    account_indexes: [Log<(), A>; ACCOUNT_INDEXES],
    expiry: Tree<Key, Option<()>, A>,
    account_sums: Hashed<State, A>,
    history: Log<Stored<Sums>, A>,
    pending_status: Hashed<Stored<Status>, A>,
}

impl<A: Allocator + Clone> Model for MutableTables<A> {
    ghost use Rattle.std.specs.Prelude.{◌≡◌, [], ◌∷◌, length};
    ghost use Rattle.tf_mutable_rows.specs.Fresh.{Fresh};
    ghost use Rattle.tf_mutable_rows.specs.Indexes.{units_by};

    ghost Value = { Fresh };

    ghost view = { λ t. record {
      stamps = t.account_ids ∷ t.expiry_entries ∷ [];
      accounts = t.account_objects;
      transfers = t.transfers;
      ids = t.transfer_ids;
      units = units_by t.account_indexes t.transfers t.expiry;
      states = t.account_sums;
      sums = t.history;
      statuses = t.pending_status;
    } };

    ghost invariant = { λ t. length t.account_indexes ≡ 5 };
}

/// Gives a key of one of several indexes an entry, as `put_entry` does.
fn put_in_one<A: Allocator + Clone>(
    indexes: &mut [Log<(), A>],
    place: usize,
    key: Key,
    entry: &Option<Value>,
) -> Result<Before, Refusal>
    requires there { place < length indexes.old }
    requires takes { entry_at key (slice_index_or indexes.old place []) ≡ None }
    requires fits { IfSome entry.now (λ value. IsSome (unit_held value)) }
    ensures others { indexes.new ≡ slice_set indexes.old place (slice_index_or indexes.new place []) }
    ensures rows { OnOk result (seen_rows (λ nothing. Value.Unit) (slice_index_or indexes.new place []) ≡ with_row key_cmp key entry.now (seen_rows (λ nothing. Value.Unit) (slice_index_or indexes.old place []))) }
    ensures there { OnOk result (IsSome (entry_at key (seen_rows (λ nothing. Value.Unit) (slice_index_or indexes.new place [])))) }
    ensures held { IfOk result (λ before. IfSome before (λ entry. IfSome entry (λ value. IsSome (unit_held value)))) }
    ensures restores { IfOk result (λ before. given_back key before (seen_rows (λ nothing. Value.Unit) (slice_index_or indexes.new place [])) ≡ seen_rows (λ nothing. Value.Unit) (slice_index_or indexes.old place [])) }
    ensures err { OnErr result (slice_index_or indexes.new place [] ≡ slice_index_or indexes.old place []) }
    ensures refusal { IfErr result (λ refusal. refusal ≡ Refusal.NoMemory) }
{
    put_entry(&mut indexes[place], key, entry)
}

/// Gives a key of one of several indexes the entry back that `put_in_one` told, or none. It takes no memory.
fn take_back_in_one<A: Allocator + Clone>(
    indexes: &mut [Log<(), A>],
    place: usize,
    key: &Key,
    before: Before,
)
    requires there { place < length indexes.old }
    requires entry { IsSome (entry_at key.now (seen_rows (λ nothing. Value.Unit) (slice_index_or indexes.old place []))) }
    requires fits { IfSome before (λ entry. IfSome entry (λ value. IsSome (unit_held value))) }
    ensures others { indexes.new ≡ slice_set indexes.old place (slice_index_or indexes.new place []) }
    ensures rows { seen_rows (λ nothing. Value.Unit) (slice_index_or indexes.new place []) ≡ given_back key.now before (seen_rows (λ nothing. Value.Unit) (slice_index_or indexes.old place [])) }
{
    take_back(&mut indexes[place], key, before);
}

/// The entries of one of several indexes as a sealed table. They stay. The only refusal is `NoMemory`.
fn seal_one<A: Allocator + Clone>(
    indexes: &mut [Log<(), A>],
    place: usize,
    alloc: A,
) -> Result<Sealed<(), A>, Refusal>
    requires { place < length indexes.old }
    ensures sealed { IfOk result (λ sealed. sealed ≡ slice_index_or indexes.old place []) }
    ensures same { indexes.new ≡ indexes.old }
    ensures refusal { IfErr result (λ refusal. refusal ≡ Refusal.NoMemory) }
{
    indexes[place].seal(alloc)
}

/// Takes all entries of indexes away. It takes no memory.
fn clear_all<A: Allocator + Clone>(indexes: &mut [Log<(), A>])
    ensures none { (place : ℕ) → slice_index_or indexes.new place [] ≡ [] }
    ensures many { length indexes.new ≡ length indexes.old }
{
    for place in 0..indexes.len() {
        indexes[place].clear();
    }
}

impl<A: Allocator + Clone> MutableRows for MutableTables<A> {
    ghost entries = { λ tables. entries_by tables };

    fn entry(&self, row: Row, key: &Key) -> Before {
        match row.kind() {
            Kind::Stamp(StampRow::AccountIds) => entry_in(&self.account_ids, key),
            Kind::Stamp(StampRow::ExpiryEntries) => entry_in(&self.expiry_entries, key),
            Kind::Account => entry_in(&self.account_objects, key),
            Kind::Transfer => self.transfers.object(key),
            Kind::Id => entry_in(&self.transfer_ids, key),
            Kind::Unit(row) => match place_of(row) {
                Place::OfAccounts(at) => entry_in(&self.account_indexes.as_slice()[at], key),
                Place::OfTransfers(field) => self.transfers.key_entry(field, key),
                Place::Expiry => entry_in(&self.expiry, key),
            },
            Kind::State => entry_in(&self.account_sums, key),
            Kind::Sums => entry_in(&self.history, key),
            Kind::Status => entry_in(&self.pending_status, key),
        }
    }

    fn put(&mut self, row: Row, key: Key, entry: &Option<Value>) -> Result<Before, Refusal> {
        match row.kind() {
            Kind::Stamp(StampRow::AccountIds) => put_entry(&mut self.account_ids, key, entry),
            Kind::Stamp(StampRow::ExpiryEntries) => put_entry(&mut self.expiry_entries, key, entry),
            Kind::Account => put_entry(&mut self.account_objects, key, entry),
            Kind::Transfer => unreachable!(),
            Kind::Id => put_entry(&mut self.transfer_ids, key, entry),
            Kind::Unit(row) => match place_of(row) {
                Place::OfAccounts(at) => {
                    put_in_one(self.account_indexes.as_mut_slice(), at, key, entry)
                }
                Place::OfTransfers(_) => unreachable!(),
                Place::Expiry => put_entry(&mut self.expiry, key, entry),
            },
            Kind::State => put_entry(&mut self.account_sums, key, entry),
            Kind::Sums => put_entry(&mut self.history, key, entry),
            Kind::Status => put_entry(&mut self.pending_status, key, entry),
        }
    }

    fn take_back(&mut self, row: Row, key: &Key, before: Before) {
        match row.kind() {
            Kind::Stamp(StampRow::AccountIds) => take_back(&mut self.account_ids, key, before),
            Kind::Stamp(StampRow::ExpiryEntries) => {
                take_back(&mut self.expiry_entries, key, before)
            }
            Kind::Account => take_back(&mut self.account_objects, key, before),
            Kind::Transfer => unreachable!(),
            Kind::Id => take_back(&mut self.transfer_ids, key, before),
            Kind::Unit(row) => match place_of(row) {
                Place::OfAccounts(at) => {
                    take_back_in_one(self.account_indexes.as_mut_slice(), at, key, before)
                }
                Place::OfTransfers(_) => unreachable!(),
                Place::Expiry => take_back(&mut self.expiry, key, before),
            },
            Kind::State => take_back(&mut self.account_sums, key, before),
            Kind::Sums => take_back(&mut self.history, key, before),
            Kind::Status => take_back(&mut self.pending_status, key, before),
        }
    }

    fn put_transfer(&mut self, transfer: &Transfer) -> Result<(), Refusal> {
        self.transfers.put(transfer)
    }

    fn take_transfer(&mut self, transfer: &PutTransfer) {
        self.transfers.take(transfer);
    }
}

impl<A: Allocator + Copy> EmptyRows<A> for MutableTables<A> {
    fn empty(alloc: A) -> Self {
        MutableTables {
            account_ids: Tree::new_in(alloc),
            expiry_entries: Log::new_in(alloc),
            account_objects: Log::new_in(alloc),
            transfers: Transfers::new_in(alloc),
            transfer_ids: Tree::new_in(alloc),
            account_indexes: [
                Log::new_in(alloc),
                Log::new_in(alloc),
                Log::new_in(alloc),
                Log::new_in(alloc),
                Log::new_in(alloc),
            ],
            expiry: Tree::new_in(alloc),
            account_sums: Hashed::new_in(alloc),
            history: Log::new_in(alloc),
            pending_status: Hashed::new_in(alloc),
        }
    }
}

impl<A: Allocator + Clone> SealRows<A> for MutableTables<A> {
    fn has_none(&self, row: Row) -> bool {
        match row.kind() {
            Kind::Stamp(StampRow::AccountIds) => self.account_ids.is_empty(),
            Kind::Stamp(StampRow::ExpiryEntries) => self.expiry_entries.is_empty(),
            Kind::Account => self.account_objects.is_empty(),
            Kind::Transfer => self.transfers.is_empty(),
            Kind::Id => self.transfer_ids.is_empty(),
            Kind::Unit(row) => match place_of(row) {
                Place::OfAccounts(at) => self.account_indexes.as_slice()[at].is_empty(),
                Place::OfTransfers(_) => self.transfers.is_empty(),
                Place::Expiry => self.expiry.is_empty(),
            },
            Kind::State => self.account_sums.is_empty(),
            Kind::Sums => self.history.is_empty(),
            Kind::Status => self.pending_status.is_empty(),
        }
    }

    fn seal(&mut self, row: Row, alloc: A) -> Result<SealedRow<A>, Refusal> {
        match row.kind() {
            Kind::Stamp(StampRow::AccountIds) => Ok(SealedRow::Stamp(
                StampRow::AccountIds,
                self.account_ids.seal(alloc)?,
            )),
            Kind::Stamp(StampRow::ExpiryEntries) => Ok(SealedRow::Stamp(
                StampRow::ExpiryEntries,
                self.expiry_entries.seal(alloc)?,
            )),
            Kind::Account => Ok(SealedRow::Account(self.account_objects.seal(alloc)?)),
            Kind::Transfer => Ok(SealedRow::Transfer(self.transfers.seal_objects(alloc)?)),
            Kind::Id => Ok(SealedRow::Id(self.transfer_ids.seal(alloc)?)),
            Kind::Unit(row) => match place_of(row) {
                Place::OfAccounts(at) => {
                    let index = seal_one(self.account_indexes.as_mut_slice(), at, alloc)?;
                    Ok(SealedRow::Unit(row, index))
                }
                Place::OfTransfers(field) => {
                    let keys = self.transfers.seal_keys(field, alloc)?;
                    Ok(SealedRow::Unit(row, keys))
                }
                Place::Expiry => Ok(SealedRow::Unit(row, self.expiry.seal(alloc)?)),
            },
            Kind::State => Ok(SealedRow::State(self.account_sums.seal(alloc)?)),
            Kind::Sums => Ok(SealedRow::Sums(self.history.seal(alloc)?)),
            Kind::Status => Ok(SealedRow::Status(self.pending_status.seal(alloc)?)),
        }
    }

    fn clear(&mut self) {
        self.account_ids.clear();
        self.expiry_entries.clear();
        self.account_objects.clear();
        self.transfers.clear();
        self.transfer_ids.clear();
        clear_all(self.account_indexes.as_mut_slice());
        self.expiry.clear();
        self.account_sums.clear();
        self.history.clear();
        self.pending_status.clear();
    }
}
