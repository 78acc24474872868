//! Transfers that aren't sealed yet, with their indexes.
ghost use Rattle.std.specs.Prelude.{◌≡◌, ◌==◌, ◌≤◌, [], None, length, IfOk, IfErr, OnOk, OnErr};
ghost use Rattle.std.specs.Option.{option_copied};
ghost use Rattle.tf_table.specs.declared.key.Key.{Key};
ghost use Rattle.tf_table.specs.Content.{entry_at};
ghost use Rattle.tf_mutable.specs.Mutable.{in_order, rows_of_key};
ghost use Rattle.tf_manifest.specs.Rows.{key_of};
ghost use Rattle.tf_rows.specs.Parts.{seen_rows};
ghost use Rattle.tf_mutable_rows.specs.Indexes.{AreByTime, IsAmong, IsPutAmong, IsTakenFrom, field_in, field_of, index_of, index_row, key_seen, object_seen};

use crate::entry::entry_in;
use crate::index_words::seal_by_words;
use std::alloc::Allocator;
use std::marker::Model;
use tf_manifest::{Stored, Value};
use tf_mutable::{Log, MutableTable};
use tf_records::{Refusal, Transfer};
use tf_rows::{Before, PutTransfer};
use tf_table::{Key, Sealed};

/// A field of transfers that has an index.
#[derive(Clone, Copy)]
pub(crate) enum Field {
    Debit,
    Credit,
    UserData128,
    UserData64,
    UserData32,
    Ledger,
    Code,
}

impl Field {
    /// What a transfer has in it.
    fn of(self, transfer: &Transfer) -> u128
        ensures { result ≡ field_of self transfer.now }
    {
        match self {
            Field::Debit => transfer.debit_account_id,
            Field::Credit => transfer.credit_account_id,
            Field::UserData128 => transfer.user_data_128,
            Field::UserData64 => transfer.user_data_64 as u128,
            Field::UserData32 => transfer.user_data_32 as u128,
            Field::Ledger => transfer.ledger as u128,
            Field::Code => transfer.code as u128,
        }
    }

    /// What an object has in it. None is a tombstone, which would have 0.
    fn within(self, entry: Option<&Stored<Transfer>>) -> u128
        ensures { result ≡ field_in self (option_copied entry.entry) }
    {
        match entry {
            Some(stored) => self.of(&stored.record),
            None => 0,
        }
    }

    /// The key that its index has for an object.
    pub(crate) fn key(self, row: &Object) -> Key
        ensures { result ≡ (index_row self row.now).0 }
    {
        Key {
            value: self.within(row.1.as_ref()),
            timestamp: row.0.timestamp,
        }
    }
}

/// A transfer's object by its timestamp, None for a tombstone.
pub(crate) type Object = (Key, Option<Stored<Transfer>>);

/// Transfers that aren't sealed yet: their objects in a log, and their keys in seven indexes, which are read off the objects and
/// lie nowhere.
#[derive(Drop)]
pub(crate) struct Transfers<A: Allocator + Clone> {
    objects: Log<Stored<Transfer>, A>,
}

impl<A: Allocator + Clone> Model for Transfers<A> {
    ghost use Rattle.tf_mutable_rows.specs.Indexes.{IsTimeline, Objects};

    ghost Value = { Objects };

    ghost view = { λ transfers. transfers.objects };

    ghost invariant = { λ transfers. IsTimeline transfers.objects };
}

impl<A: Allocator + Clone> Transfers<A> {
    /// No transfers, with memory from `alloc` once there are some. It takes no memory.
    pub(crate) fn new_in(alloc: A) -> Self
        ensures { result ≡ [] }
    {
        Transfers {
            objects: Log::new_in(alloc),
        }
    }

    /// Whether there is no transfer.
    pub(crate) fn is_empty(&self) -> bool
        ensures { result ≡ (length self.now == 0) }
    {
        self.objects.is_empty()
    }

    /// The entry of a key among the objects.
    pub(crate) fn object(&self, key: &Key) -> Before
        ensures { result ≡ entry_at key.now (seen_rows object_seen self.now) }
    {
        entry_in(&self.objects, key)
    }

    /// The entry of a key in the index of a field: the object at the key's timestamp has it, or none.
    pub(crate) fn key_entry(&self, field: Field, key: &Key) -> Before
        ensures { result ≡ entry_at key.now (seen_rows key_seen (index_of field self.now)) }
    {
        let object = time_key(key.timestamp);
        let Some(entry) = self.objects.find(&object) else {
            return None;
        };
        if field.within(entry) == key.value {
            Some(Some(Value::Unit))
        } else {
            None
        }
    }

    /// Puts a transfer among the others, of which none has its timestamp.
    ///
    /// The only refusal is `NoMemory`, and it changes nothing.
    pub(crate) fn put(&mut self, transfer: &Transfer) -> Result<(), Refusal>
        requires { entry_at (key_of 0 transfer.now.timestamp) self.old ≡ None }
        ensures put { OnOk result (IsPutAmong transfer.now self.old self.new) }
        ensures err { OnErr result (self.new ≡ self.old) }
        ensures refusal { IfErr result (λ refusal. refusal ≡ Refusal.NoMemory) }
    {
        let stored = Stored { record: *transfer };
        self.objects
            .put(time_key(transfer.timestamp), Some(stored))?;
        Ok(())
    }

    /// Takes a transfer away again. It takes no memory.
    pub(crate) fn take(&mut self, transfer: &PutTransfer)
        requires { IsAmong transfer.now self.old }
        ensures { IsTakenFrom transfer.now self.old self.new }
    {
        self.objects
            .take_back(&time_key(transfer.timestamp()), None);
    }

    /// The objects as a sealed table. They stay. The only refusal is `NoMemory`.
    pub(crate) fn seal_objects(&mut self, alloc: A) -> Result<Sealed<Stored<Transfer>, A>, Refusal>
        ensures sealed { IfOk result (λ sealed. sealed ≡ self.old) }
        ensures same { self.new ≡ self.old }
        ensures refusal { IfErr result (λ refusal. refusal ≡ Refusal.NoMemory) }
    {
        self.objects.seal(alloc)
    }

    /// The index of a field as a sealed table. The only refusal is `NoMemory`.
    pub(crate) fn seal_keys(&self, field: Field, alloc: A) -> Result<Sealed<(), A>, Refusal>
        ensures sealed { IfOk result (λ sealed. sealed ≡ index_of field self.now) }
        ensures refusal { IfErr result (λ refusal. refusal ≡ Refusal.NoMemory) }
    {
        let objects = self.objects.rows();
        if let Some(sealed) = seal_by_words(objects, field, alloc.clone()?)? {
            return Ok(sealed);
        }
        let mut keys = index_keys(objects, field, alloc.clone()?)?;
        let sealed = keys.seal(alloc);
        drop(keys);
        sealed
    }

    /// Takes all transfers away. It takes no memory.
    pub(crate) fn clear(&mut self)
        ensures { self.new ≡ [] }
    {
        self.objects.clear();
    }
}

/// The key of a transfer's object.
fn time_key(timestamp: u64) -> Key
    ensures { result ≡ key_of 0 timestamp }
{
    Key {
        value: 0,
        timestamp,
    }
}

/// The keys of an index, read off the objects. The only refusal is `NoMemory`.
fn index_keys<A: Allocator + Clone>(
    objects: &[Object],
    field: Field,
    alloc: A,
) -> Result<Log<(), A>, Refusal>
    requires times { AreByTime objects.now }
    requires once { (key : Key) → length (rows_of_key key objects.now) ≤ 1 }
    ensures keys { IfOk result (λ keys. keys ≡ index_of field (in_order objects.now)) }
    ensures refusal { IfErr result (λ refusal. refusal ≡ Refusal.NoMemory) }
{
    let mut keys = Log::new_in(alloc);
    for object in objects {
        keys.put(field.key(object), Some(()))?;
    }
    Ok(keys)
}
