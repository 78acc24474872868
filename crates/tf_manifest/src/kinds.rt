//! The kinds of values that rows store.
ghost use Rattle.std.specs.Prelude.{◌≡◌, false};
ghost use Rattle.tf_manifest.specs.Kinds.{id_value};
ghost use Rattle.tf_manifest.specs.declared.value.Value.{Value};
ghost use Rattle.tf_manifest.specs.declared.value.Value.TheVariants as value;

use crate::{IdStamp, State, Value};
use tf_journal::Status;
use tf_records::{Account, Sums, Transfer};
use tf_registry::TableValue;
use tf_table::Repeats;

/// What a row stores.
pub trait RowValue: TableValue {
    /// The value that a row of it has.
    ghost seen: { Self → Value };

    /// The stored value as a row's value.
    fn to_value(self) -> Value
        ensures { result ≡ seen self };
}

/// A record of a lower crate, as a row stores it. It has the bytes of the record.
#[derive(Clone, Copy, Debug, PartialEq, Eq)]
pub struct Stored<T> {
    pub record: T,
}

impl<T: Copy> Repeats for Stored<T> {
    /// Always false: the test would be slower than what it saves.
    fn repeats(&self, _other: &Stored<T>) -> bool
        ensures { result ≡ false }
    {
        false
    }
}

impl Repeats for IdStamp {
    /// Most tables of a row of ids don't have the id that is looked for.
    const FILTERED: bool = true;

    /// Always false: no two ids have one timestamp.
    fn repeats(&self, _other: &IdStamp) -> bool
        ensures { result ≡ false }
    {
        false
    }
}

impl Repeats for State {
    /// Always false: the test would be slower than what it saves.
    fn repeats(&self, _other: &State) -> bool
        ensures { result ≡ false }
    {
        false
    }
}

/// A timestamp, in account_ids and expiry_entries.
impl RowValue for u64 {
    ghost seen = { λ stamp. value.Stamp stamp };

    fn to_value(self) -> Value {
        Value::Stamp(self)
    }
}

impl TableValue for Stored<Account> {
    ghost kind = { 1 };
}

/// The accounts of account_objects.
impl RowValue for Stored<Account> {
    ghost seen = { λ stored. value.Account stored.record };

    fn to_value(self) -> Value {
        Value::Account(self.record)
    }
}

impl TableValue for Stored<Transfer> {
    ghost kind = { 2 };
}

/// The transfers of transfer_objects.
impl RowValue for Stored<Transfer> {
    ghost seen = { λ stored. value.Transfer stored.record };

    fn to_value(self) -> Value {
        Value::Transfer(self.record)
    }
}

impl TableValue for IdStamp {
    ghost kind = { 3 };
}

/// What transfer ids were used for, in transfer_ids.
impl RowValue for IdStamp {
    ghost seen = { id_value };

    fn to_value(self) -> Value {
        match self {
            IdStamp::Stored(timestamp) => Value::Stamp(timestamp),
            IdStamp::Failed(timestamp) => Value::FailedAt(timestamp),
        }
    }
}

/// Nothing, in the indexes and in expiry: a key alone says all.
impl RowValue for () {
    ghost seen = { λ nothing. value.Unit };

    fn to_value(self) -> Value {
        Value::Unit
    }
}

impl TableValue for State {
    ghost kind = { 5 };
}

/// The present sums of account_sums.
impl RowValue for State {
    ghost seen = { λ state. value.State state };

    fn to_value(self) -> Value {
        Value::State(self)
    }
}

impl TableValue for Stored<Sums> {
    ghost kind = { 6 };
}

/// The sums of history.
impl RowValue for Stored<Sums> {
    ghost seen = { λ stored. value.Sums stored.record };

    fn to_value(self) -> Value {
        Value::Sums(self.record)
    }
}

impl TableValue for Stored<Status> {
    ghost kind = { 7 };
}

/// What became of pending transfers, in pending_status.
impl RowValue for Stored<Status> {
    ghost seen = { λ stored. value.Status stored.record };

    fn to_value(self) -> Value {
        Value::Status(self.record)
    }
}
