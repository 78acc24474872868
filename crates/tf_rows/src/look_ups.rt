//! Look-ups in all rows: what an id or a timestamp has there.
ghost use Rattle.std.specs.Prelude.{◌≡◌, IsTrue};
ghost use Rattle.tf_manifest.specs.declared.row.Row.{Row};
ghost use Rattle.tf_manifest.specs.Rows.{key_of};
ghost use Rattle.tf_rows.specs.LookUps.{account_read, party_read, pending_read, shown_party, shown_read, state_read, status_read, transfer_at, transfer_read, use_read};
ghost use Rattle.tf_rows.specs.Next.{content_in};

use crate::{Party, RowSet};
use tf_journal::{IdUse, Status, is_pending};
use tf_manifest::{Row, State, Value};
use tf_records::{Account, Transfer};
use tf_table::Key;

/// The key of a value and a timestamp.
fn key_of(value: u128, timestamp: u64) -> Key
    ensures { result ≡ key_of value timestamp }
{
    Key { value, timestamp }
}

/// The account with this id, as it was stored: two look-ups in rows.
fn stored_account<S: RowSet>(rows: &S, id: u128) -> Option<Account>
    requires { (r : Row) → IsTrue (S.has_row r) }
    ensures { result ≡ account_read (content_in (S.parts rows.now)) id }
{
    let Some(Value::Stamp(timestamp)) = rows.find(Row::AccountIds, &key_of(id, 0)) else {
        return None;
    };
    match rows.find(Row::AccountObjects, &key_of(0, timestamp)) {
        Some(Value::Account(account)) => Some(account),
        _ => None,
    }
}

/// The present state of a stored account.
fn state_of<S: RowSet>(rows: &S, account: &Account) -> Option<State>
    requires { (r : Row) → IsTrue (S.has_row r) }
    ensures { result ≡ state_read (content_in (S.parts rows.now)) account.now }
{
    match rows.find(Row::AccountSums, &key_of(0, account.timestamp)) {
        Some(Value::State(state)) => Some(state),
        _ => None,
    }
}

/// The account with this id as it was stored, with its present state, by three look-ups in rows.
pub fn party<S: RowSet>(rows: &S, id: u128) -> Option<Party>
    requires { (r : Row) → IsTrue (S.has_row r) }
    ensures { result ≡ party_read (content_in (S.parts rows.now)) id }
{
    let account = stored_account(rows, id)?;
    let state = state_of(rows, &account)?;
    Some(Party { account, state })
}

/// An account as answers show it, by its state.
pub fn shown(party: &Party) -> Account
    ensures { result ≡ shown_party party.now }
{
    let stored = party.account;
    let state = party.state;
    let flags = if state.closed {
        stored.flags | Account::CLOSED
    } else {
        stored.flags
    };
    Account {
        debits_pending: state.sums.debits_pending,
        debits_posted: state.sums.debits_posted,
        credits_pending: state.sums.credits_pending,
        credits_posted: state.sums.credits_posted,
        flags,
        ..stored
    }
}

/// The account with this id as answers show it, by three look-ups in rows.
pub fn account<S: RowSet>(rows: &S, id: u128) -> Option<Account>
    requires { (r : Row) → IsTrue (S.has_row r) }
    ensures { result ≡ shown_read (content_in (S.parts rows.now)) id }
{
    let party = party(rows, id)?;
    Some(shown(&party))
}

/// The stored transfer with this timestamp.
pub(crate) fn transfer_at<S: RowSet>(rows: &S, timestamp: u64) -> Option<Transfer>
    requires { (r : Row) → IsTrue (S.has_row r) }
    ensures { result ≡ transfer_at (content_in (S.parts rows.now)) timestamp }
{
    match rows.find(Row::TransferObjects, &key_of(0, timestamp)) {
        Some(Value::Transfer(transfer)) => Some(transfer),
        _ => None,
    }
}

/// What a transfer id is used for: one look-up in transfer_ids, and one of the transfer where it is stored.
pub fn id_use<S: RowSet>(rows: &S, id: u128) -> IdUse
    requires { (r : Row) → IsTrue (S.has_row r) }
    ensures { result ≡ use_read (content_in (S.parts rows.now)) id }
{
    match rows.find(Row::TransferIds, &key_of(id, 0)) {
        Some(Value::Stamp(timestamp)) => match transfer_at(rows, timestamp) {
            Some(transfer) => IdUse::Stored(transfer),
            None => IdUse::Free,
        },
        Some(Value::FailedAt(_)) => IdUse::Failed,
        _ => IdUse::Free,
    }
}

/// The transfer with this id.
pub fn transfer<S: RowSet>(rows: &S, id: u128) -> Option<Transfer>
    requires { (r : Row) → IsTrue (S.has_row r) }
    ensures { result ≡ transfer_read (content_in (S.parts rows.now)) id }
{
    match id_use(rows, id) {
        IdUse::Stored(transfer) => Some(transfer),
        _ => None,
    }
}

/// The pending transfer with this timestamp.
pub fn pending<S: RowSet>(rows: &S, timestamp: u64) -> Option<Transfer>
    requires { (r : Row) → IsTrue (S.has_row r) }
    ensures { result ≡ pending_read (content_in (S.parts rows.now)) timestamp }
{
    let transfer = transfer_at(rows, timestamp)?;
    if is_pending(&transfer) {
        Some(transfer)
    } else {
        None
    }
}

/// The status of the pending transfer with this timestamp.
pub fn status<S: RowSet>(rows: &S, timestamp: u64) -> Option<Status>
    requires { (r : Row) → IsTrue (S.has_row r) }
    ensures { result ≡ status_read (content_in (S.parts rows.now)) timestamp }
{
    match rows.find(Row::PendingStatus, &key_of(0, timestamp)) {
        Some(Value::Status(status)) => Some(status),
        _ => None,
    }
}
