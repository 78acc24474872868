//! Changes of single rows: of an account's state and history, and of a pending transfer's status and expiry.
ghost use Rattle.std.specs.Prelude.{◌≡◌, Some, [], map};
ghost use Rattle.std.specs.Option.{option_map_or};
ghost use Rattle.tf_rows.specs.Changes.{listed};
ghost use Rattle.tf_rows.specs.Edits as edit;
ghost use Rattle.tf_rows.specs.Next.{change_of};
ghost use Rattle.tf_manifest.specs.declared.row.Row.{Row};
ghost use Rattle.tf_manifest.specs.declared.value.Value.{Value};

use crate::{Change, Party};
use tf_journal::{Status, expires_at, has_flag};
use tf_manifest::{Row, Value};
use tf_records::{Account, Transfer};
use tf_table::Key;

/// The change after which a row has something at the key of a value and a timestamp.
pub(crate) fn put(row: Row, value: u128, timestamp: u64, has: Value) -> Option<Change>
    ensures { result ≡ Some (record { row = row; key = record { value = value; timestamp = timestamp }; value = Some has }) }
{
    Some(Change {
        row,
        key: Key { value, timestamp },
        value: Some(has),
    })
}

/// The change after which an index has a field and a record's timestamp.
pub(crate) fn index(row: Row, field: u128, timestamp: u64) -> Option<Change>
    ensures { result ≡ Some (record { row = row; key = record { value = field; timestamp = timestamp }; value = Some Value.Unit }) }
{
    put(row, field, timestamp, Value::Unit)
}

/// An account has this state.
pub(crate) fn state_change(party: &Option<Party>) -> Option<Change>
    ensures { listed result ≡ map (change_of Row.AccountSums) (option_map_or (edit.state_edit (λ state. state)) party.now []) }
{
    match party {
        Some(party) => put(
            Row::AccountSums,
            0,
            party.account.timestamp,
            Value::State(party.state),
        ),
        None => None,
    }
}

/// Where an account has history: it had these sums right after a transfer.
pub(crate) fn history_change(transfer: &Transfer, party: &Option<Party>) -> Option<Change>
    ensures { listed result ≡ map (change_of Row.History) (option_map_or (edit.history_edit transfer.now (λ state. state)) party.now []) }
{
    match party {
        Some(party) if has_flag(party.account.flags, Account::HISTORY) => put(
            Row::History,
            party.account.id,
            transfer.timestamp,
            Value::Sums(party.state.sums),
        ),
        _ => None,
    }
}

/// A pending transfer has this status.
pub(crate) fn status_change(pending: &Transfer, status: Status) -> Option<Change>
    ensures { listed result ≡ map (change_of Row.PendingStatus) (edit.status_edit status pending.now) }
{
    put(
        Row::PendingStatus,
        0,
        pending.timestamp,
        Value::Status(status),
    )
}

/// Where a pending transfer has a timeout: its key in expiry has this value, or none.
pub(crate) fn expiry_change(pending: &Transfer, value: Option<Value>) -> Option<Change>
    ensures { listed result ≡ map (change_of Row.Expiry) (edit.expiry_edit (λ key. (key, value)) pending.now) }
{
    if pending.timeout == 0 {
        return None;
    }
    Some(Change {
        row: Row::Expiry,
        key: Key {
            value: expires_at(pending),
            timestamp: pending.timestamp,
        },
        value,
    })
}
