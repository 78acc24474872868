//! Look-ups by a walk over a list of entries.

ghost use Rattle.std.specs.Prelude.{◌≡◌};
ghost use Rattle.std.specs.List.{list_any};
ghost use Rattle.tf_journal.specs.Closed.{closes, is_closed};
ghost use Rattle.tf_journal.specs.Journal.{fails, is_failed};
ghost use Rattle.tf_journal.specs.Lookup.{account_with_id, transfer_with_id};
ghost use Rattle.tf_journal.specs.Status.{expires, is_open, pending_at, posts, status_of, voids};

use crate::flags::{has_flag, is_pending};
use crate::{Entry, Status};
use tf_records::{Account, Transfer};

/// The account with this id as it was stored.
pub fn find_account(entries: &[Entry], id: u128) -> Option<Account>
    ensures { result ≡ account_with_id entries.now id }
{
    entries
        .iter()
        .filter_map(Entry::account)
        .find(|account| account.id == id)
}

/// The transfer with this id.
pub fn find_transfer(entries: &[Entry], id: u128) -> Option<Transfer>
    ensures { result ≡ transfer_with_id entries.now id }
{
    entries
        .iter()
        .filter_map(Entry::transfer)
        .find(|transfer| transfer.id == id)
}

/// The pending transfer with this timestamp.
pub fn find_pending(entries: &[Entry], timestamp: u64) -> Option<Transfer>
    ensures { result ≡ pending_at entries.now timestamp }
{
    entries.iter().filter_map(Entry::transfer).find(|transfer| is_pending(transfer)
        && transfer.timestamp == timestamp)
}

fn is_failure_of(entry: &Entry, id: u128) -> bool
    ensures { result ≡ fails id entry.now }
{
    match entry {
        Entry::Failed { id: failed, .. } => *failed == id,
        _ => false,
    }
}

/// Whether a transfer with this id failed.
pub fn has_failed(entries: &[Entry], id: u128) -> bool
    ensures { result ≡ is_failed entries.now id }
{
    entries.iter().any(|entry| is_failure_of(entry, id))
}

fn is_post_of(entry: &Entry, pending: &Transfer) -> bool
    ensures { result ≡ posts pending.now entry.now }
{
    match entry {
        Entry::Transfer(transfer) => {
            has_flag(transfer.flags, Transfer::POST_PENDING_TRANSFER)
                && transfer.pending_id == pending.id
        }
        _ => false,
    }
}

fn is_void_of(entry: &Entry, pending: &Transfer) -> bool
    ensures { result ≡ voids pending.now entry.now }
{
    match entry {
        Entry::Transfer(transfer) => {
            has_flag(transfer.flags, Transfer::VOID_PENDING_TRANSFER)
                && transfer.pending_id == pending.id
        }
        _ => false,
    }
}

fn is_expiry_of(entry: &Entry, pending: &Transfer) -> bool
    ensures { result ≡ expires pending.now entry.now }
{
    match entry {
        Entry::Expiry {
            pending: expired,
            ..
        } => *expired == pending.timestamp,
        _ => false,
    }
}

fn has_post(entries: &[Entry], pending: &Transfer) -> bool
    ensures { result ≡ list_any (posts pending.now) entries.now }
{
    entries.iter().any(|entry| is_post_of(entry, pending))
}

fn has_void(entries: &[Entry], pending: &Transfer) -> bool
    ensures { result ≡ list_any (voids pending.now) entries.now }
{
    entries.iter().any(|entry| is_void_of(entry, pending))
}

fn has_expiry(entries: &[Entry], pending: &Transfer) -> bool
    ensures { result ≡ list_any (expires pending.now) entries.now }
{
    entries.iter().any(|entry| is_expiry_of(entry, pending))
}

/// What became of a pending transfer.
pub fn status(entries: &[Entry], pending: &Transfer) -> Status
    ensures { result ≡ status_of entries.now pending.now }
{
    if has_post(entries, pending) {
        Status::Posted
    } else if has_void(entries, pending) {
        Status::Voided
    } else if has_expiry(entries, pending) {
        Status::Expired
    } else {
        Status::Open
    }
}

/// Whether a pending transfer is neither posted nor voided nor expired.
pub fn stays_open(entries: &[Entry], pending: &Transfer) -> bool
    ensures { result ≡ is_open entries.now pending.now }
{
    match status(entries, pending) {
        Status::Open => true,
        _ => false,
    }
}

fn is_closing(entries: &[Entry], id: u128, entry: &Entry) -> bool
    ensures { result ≡ closes entries.now id entry.now }
{
    match entry {
        Entry::Transfer(transfer) => {
            let debit = has_flag(transfer.flags, Transfer::CLOSING_DEBIT);
            let credit = has_flag(transfer.flags, Transfer::CLOSING_CREDIT);
            is_pending(transfer)
                && ((debit && transfer.debit_account_id == id)
                    || (credit && transfer.credit_account_id == id))
                && stays_open(entries, transfer)
        }
        _ => false,
    }
}

fn has_closing(entries: &[Entry], id: u128) -> bool
    ensures { result ≡ list_any (closes entries.now id) entries.now }
{
    entries.iter().any(|entry| is_closing(entries, id, entry))
}

/// Whether a stored account is closed.
pub fn stays_closed(entries: &[Entry], account: &Account) -> bool
    ensures { result ≡ is_closed entries.now account.now }
{
    has_flag(account.flags, Account::CLOSED) || has_closing(entries, account.id)
}
