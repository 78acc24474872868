//! What an expiry changes in rows.
ghost use Rattle.std.specs.Prelude.{◌≡◌};
ghost use Rattle.tf_journal.specs.declared.entry.Entry.{Entry};
ghost use Rattle.tf_rows.specs.Changes.{present};
ghost use Rattle.tf_rows.specs.Next.{changes_by};

use crate::account_states::party_expired;
use crate::row_change::{expiry_change, put, state_change, status_change};
use crate::{Change, Found};
use tf_journal::{Side, Status};
use tf_manifest::{Row, Value};

/// What an expiry changes, by what was looked up for it.
pub(crate) fn expiry_changes(found: &Found, timestamp: u64, pending: u64) -> [Option<Change>; 5]
    ensures { present result ≡ changes_by found.now (Entry.Expiry timestamp pending) }
{
    let entry = put(Row::ExpiryEntries, 0, timestamp, Value::Stamp(pending));
    let Some(expiring) = &found.settled else {
        return [None, None, None, None, entry];
    };
    let debit = party_expired(Side::Debit, expiring, &found.debit);
    let credit = party_expired(Side::Credit, expiring, &found.credit);
    [
        state_change(&debit),
        state_change(&credit),
        status_change(expiring, Status::Expired),
        expiry_change(expiring, None),
        entry,
    ]
}
