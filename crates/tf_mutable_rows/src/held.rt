//! Stored values, read back from what any row may have.
ghost use Rattle.std.specs.Prelude.{◌≡◌, Option, Some, IfSome, refl};
ghost use Rattle.tf_manifest.specs.declared.value.Value.{Value};
ghost use Rattle.tf_rows.specs.Held.{account_held, account_seen, id_back, id_held, id_seen, stamp_held, stamp_seen, state_held, state_seen, status_held, status_seen, sums_held, sums_seen, transfer_held, transfer_seen, unit_held, unit_seen};

use tf_journal::Status;
use tf_manifest::{IdStamp, RowValue, State, Stored, Value};
use tf_records::{Account, Sums, Transfer};

/// What a row stores, read back from what any row may have.
pub trait Held: RowValue {
    /// What is stored as this value, if it is of this kind.
    ghost held: { Value → Option Self };

    /// What is stored as this value, if it is of this kind.
    fn from_value(value: &Value) -> Option<Self>
        ensures { result ≡ held value.now };

    /// What is read is seen as the value.
    ghost seen_so: { (value : Value) → IfSome (held value) (λ stored. Self.seen stored ≡ value) };

    /// What is stored is read back.
    ghost read_back: { (stored : Self) → held (Self.seen stored) ≡ Some stored };
}

/// A timestamp.
impl Held for u64 {
    ghost held = { stamp_held };

    ghost seen_so = { stamp_seen };

    ghost read_back = { λ stored. refl };

    fn from_value(value: &Value) -> Option<Self> {
        match value {
            Value::Stamp(timestamp) => Some(*timestamp),
            _ => None,
        }
    }
}

/// An account.
impl Held for Stored<Account> {
    ghost held = { account_held };

    ghost seen_so = { account_seen };

    ghost read_back = { λ stored. refl };

    fn from_value(value: &Value) -> Option<Self> {
        match value {
            Value::Account(record) => Some(Stored { record: *record }),
            _ => None,
        }
    }
}

/// A transfer.
impl Held for Stored<Transfer> {
    ghost held = { transfer_held };

    ghost seen_so = { transfer_seen };

    ghost read_back = { λ stored. refl };

    fn from_value(value: &Value) -> Option<Self> {
        match value {
            Value::Transfer(record) => Some(Stored { record: *record }),
            _ => None,
        }
    }
}

/// What a transfer id was used for.
impl Held for IdStamp {
    ghost held = { id_held };

    ghost seen_so = { id_seen };

    ghost read_back = { id_back };

    fn from_value(value: &Value) -> Option<Self> {
        match value {
            Value::Stamp(timestamp) => Some(IdStamp::Stored(*timestamp)),
            Value::FailedAt(timestamp) => Some(IdStamp::Failed(*timestamp)),
            _ => None,
        }
    }
}

/// Nothing.
impl Held for () {
    ghost held = { unit_held };

    ghost seen_so = { unit_seen };

    ghost read_back = { λ stored. refl };

    fn from_value(value: &Value) -> Option<Self> {
        match value {
            Value::Unit => Some(()),
            _ => None,
        }
    }
}

/// An account's present state.
impl Held for State {
    ghost held = { state_held };

    ghost seen_so = { state_seen };

    ghost read_back = { λ stored. refl };

    fn from_value(value: &Value) -> Option<Self> {
        match value {
            Value::State(state) => Some(*state),
            _ => None,
        }
    }
}

/// Sums at some moment.
impl Held for Stored<Sums> {
    ghost held = { sums_held };

    ghost seen_so = { sums_seen };

    ghost read_back = { λ stored. refl };

    fn from_value(value: &Value) -> Option<Self> {
        match value {
            Value::Sums(record) => Some(Stored { record: *record }),
            _ => None,
        }
    }
}

/// What became of a pending transfer.
impl Held for Stored<Status> {
    ghost held = { status_held };

    ghost seen_so = { status_seen };

    ghost read_back = { λ stored. refl };

    fn from_value(value: &Value) -> Option<Self> {
        match value {
            Value::Status(record) => Some(Stored { record: *record }),
            _ => None,
        }
    }
}
