//! Posts and voids, judged at their timestamp after all that is stored.

ghost use Rattle.std.specs.Prelude.{◌≡◌, true, Option, Some};
ghost use Rattle.tf_journal.specs.Flags as flag;
ghost use Rattle.tf_journal.specs.Journal.{IsJournal};
ghost use Rattle.tf_journal.specs.Lookup.{is_closed_at, transfer_with_id};
ghost use Rattle.tf_journal.specs.Status.{status_at, status_of};
ghost use Rattle.tf_journal.specs.Stored as stored_record;
ghost use Rattle.tf_journal.specs.Verdict as table;
ghost use Rattle.tf_journal.specs.Verdict.{closed_faults, first_fault, mismatches, pending_faults, status_faults, transfer_verdict};
ghost use Rattle.tf_pending.specs.Judgement.{IsJudgement};

use crate::faults::{settling_fault, transfer_fault};
use crate::id::{fill_in, id_fault, settled_amount};
use tf_journal::{Ledger, Status, is_marked_closed, is_overdue, is_pending, is_post, is_void};
use tf_records::{Outcome, Transfer};

/// Judges a post or void at this timestamp: the record that it is stored as, or its verdict, the outcome of the
/// first rule that it breaks.
///
/// Takes no memory. Looks up the pending transfer, the event's own id, the status, and for a post the two
/// accounts, each once and only as far as no rule before is broken.
pub fn judge_settling<L: Ledger>(
    ledger: &L,
    timestamp: u64,
    event: &Transfer,
) -> Result<Transfer, Outcome>
    requires journal { IsJournal (L.journal ledger.now) }
    requires settling { flag.is_settling event.now ≡ true }
    ensures { IsJudgement (L.journal ledger.now) timestamp event.now result }
{
    if let Some(fault) = transfer_fault(event) {
        return Err(fault);
    }
    if let Some(fault) = settling_fault(event) {
        return Err(fault);
    }
    let Some(pending) = ledger.transfer(event.pending_id) else {
        return Err(id_fault(ledger, event).unwrap_or(Outcome::PendingTransferNotFound));
    };
    if let Some(fault) = id_fault(ledger, &fill_in(&pending, event)) {
        return Err(fault);
    }
    if let Some(fault) = pending_fault(ledger, timestamp, event, &pending) {
        return Err(fault);
    }
    Ok(settled(&pending, timestamp, event))
}

/// The verdict on a post or void, judged at this timestamp: the outcome of the first rule that it breaks, else
/// [`Outcome::Ok`].
///
/// Takes no memory. Costs what [`judge_settling`] costs.
pub fn verdict_settling<L: Ledger>(ledger: &L, timestamp: u64, event: &Transfer) -> Outcome
    requires journal { IsJournal (L.journal ledger.now) }
    requires settling { flag.is_settling event.now ≡ true }
    ensures { result ≡ transfer_verdict (L.journal ledger.now) timestamp event.now }
{
    match judge_settling(ledger, timestamp, event) {
        Ok(_) => Outcome::Ok,
        Err(fault) => fault,
    }
}

/// The record that an accepted post or void is stored as: filled in from its pending transfer, whose accounts,
/// ledger and code it has.
///
/// Takes no memory. Costs one look-up.
pub fn stored_settling<L: Ledger>(ledger: &L, timestamp: u64, event: &Transfer) -> Transfer
    ensures { result ≡ stored_record.stored_settling (L.journal ledger.now) timestamp event.now }
{
    match ledger.transfer(event.pending_id) {
        Some(pending) => settled(&pending, timestamp, event),
        None => Transfer {
            timestamp,
            ..*event
        },
    }
}

/// A post or void as it is stored.
fn settled(pending: &Transfer, timestamp: u64, event: &Transfer) -> Transfer
    ensures { result ≡ stored_record.settled pending.now timestamp event.now }
{
    Transfer {
        debit_account_id: pending.debit_account_id,
        credit_account_id: pending.credit_account_id,
        ledger: pending.ledger,
        code: pending.code,
        timeout: 0,
        timestamp,
        ..fill_in(pending, event)
    }
}

/// What keeps the pending transfer that a post or void names from being posted or voided.
fn pending_fault<L: Ledger>(
    ledger: &L,
    timestamp: u64,
    event: &Transfer,
    pending: &Transfer,
) -> Option<Outcome>
    requires journal { IsJournal (L.journal ledger.now) }
    requires named { transfer_with_id (L.journal ledger.now) event.now.pending_id ≡ Some pending.now }
    ensures { result ≡ first_fault (pending_faults (L.journal ledger.now) timestamp event.now pending.now) }
{
    if let Some(fault) = mismatch(pending, event) {
        return Some(fault);
    }
    if let Some(fault) = status_fault(ledger, timestamp, pending) {
        return Some(fault);
    }
    closed_fault(ledger, event, pending)
}

/// What of a post or void doesn't fit the pending transfer that it names.
fn mismatch(pending: &Transfer, event: &Transfer) -> Option<Outcome>
    ensures { result ≡ first_fault (mismatches pending.now event.now) }
{
    let amount = settled_amount(pending, event);
    if !is_pending(pending) {
        Some(Outcome::PendingTransferNotPending)
    } else if contradicts(pending.debit_account_id, event.debit_account_id) {
        Some(Outcome::PendingTransferHasDifferentDebitAccountId)
    } else if contradicts(pending.credit_account_id, event.credit_account_id) {
        Some(Outcome::PendingTransferHasDifferentCreditAccountId)
    } else if contradicts(u128::from(pending.ledger), u128::from(event.ledger)) {
        Some(Outcome::PendingTransferHasDifferentLedger)
    } else if contradicts(u128::from(pending.code), u128::from(event.code)) {
        Some(Outcome::PendingTransferHasDifferentCode)
    } else if amount > pending.amount {
        Some(Outcome::ExceedsPendingTransferAmount)
    } else if is_void(event) && amount < pending.amount {
        Some(Outcome::PendingTransferHasDifferentAmount)
    } else {
        None
    }
}

/// Whether a field that is given, so isn't 0, isn't the pending transfer's.
fn contradicts(pending: u128, own: u128) -> bool
    ensures { result ≡ table.contradicts pending own }
{
    own != 0 && own != pending
}

/// What became of a stored pending transfer that keeps it from being posted or voided.
fn status_fault<L: Ledger>(ledger: &L, timestamp: u64, pending: &Transfer) -> Option<Outcome>
    requires status { status_at (L.journal ledger.now) pending.now.timestamp ≡ Some (status_of (L.journal ledger.now) pending.now) }
    ensures { result ≡ first_fault (status_faults (L.journal ledger.now) timestamp pending.now) }
{
    match ledger.status(pending.timestamp) {
        Some(Status::Posted) => Some(Outcome::PendingTransferAlreadyPosted),
        Some(Status::Voided) => Some(Outcome::PendingTransferAlreadyVoided),
        Some(Status::Expired) => Some(Outcome::PendingTransferExpired),
        _ if is_overdue(timestamp, pending) => Some(Outcome::PendingTransferExpired),
        _ => None,
    }
}

/// Which account of a pending transfer is closed, so that it can't be posted.
fn closed_fault<L: Ledger>(ledger: &L, event: &Transfer, pending: &Transfer) -> Option<Outcome>
    ensures { result ≡ first_fault (closed_faults (L.journal ledger.now) event.now pending.now) }
{
    if !is_post(event) {
        None
    } else if is_closed_account(ledger, pending.debit_account_id) {
        Some(Outcome::DebitAccountAlreadyClosed)
    } else if is_closed_account(ledger, pending.credit_account_id) {
        Some(Outcome::CreditAccountAlreadyClosed)
    } else {
        None
    }
}

/// Whether the account with this id is stored and closed.
fn is_closed_account<L: Ledger>(ledger: &L, id: u128) -> bool
    ensures { result ≡ is_closed_at (L.journal ledger.now) id }
{
    match ledger.account(id) {
        Some(account) => is_marked_closed(&account),
        None => false,
    }
}
