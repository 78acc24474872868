//! The result of a transfer event whose id is in use.

ghost use Rattle.std.specs.Prelude.{◌≡◌};
ghost use Rattle.tf_journal.specs.Stored as stored_record;
ghost use Rattle.tf_journal.specs.Verdict as table;
ghost use Rattle.tf_pending.specs.Parts.{fault_of_id};

use tf_journal::{IdUse, Ledger, is_post, is_settling};
use tf_records::{AMOUNT_MAX, Outcome, Transfer};

/// What is wrong with the id of a transfer event: it is stored, so that the event is compared with the stored
/// transfer, or it failed before. A post or void is compared with what it leaves out filled in from its pending
/// transfer.
///
/// Takes no memory. Costs one look-up, and for a post or void another one of its pending transfer.
pub fn used_id_fault<L: Ledger>(ledger: &L, event: &Transfer) -> Option<Outcome>
    ensures { result ≡ table.used_id_fault (L.journal ledger.now) event.now }
{
    if !is_settling(event) {
        return id_fault(ledger, event);
    }
    match ledger.transfer(event.pending_id) {
        Some(pending) => id_fault(ledger, &fill_in(&pending, event)),
        None => id_fault(ledger, event),
    }
}

/// What is wrong with the id of a transfer event that stands as it is compared.
pub(crate) fn id_fault<L: Ledger>(ledger: &L, event: &Transfer) -> Option<Outcome>
    ensures { result ≡ fault_of_id (L.journal ledger.now) event.now }
{
    match ledger.id_use(event.id) {
        IdUse::Stored(stored) => Some(repeated(event, &stored)),
        IdUse::Failed => Some(Outcome::IdAlreadyFailed),
        IdUse::Free => None,
    }
}

/// The result of a transfer event whose id is stored.
fn repeated(event: &Transfer, stored: &Transfer) -> Outcome
    ensures { result ≡ table.repeated (table.transfer_differences event.now stored.now) }
{
    if event.flags != stored.flags {
        Outcome::ExistsWithDifferentFlags
    } else if event.pending_id != stored.pending_id {
        Outcome::ExistsWithDifferentPendingId
    } else if event.debit_account_id != stored.debit_account_id {
        Outcome::ExistsWithDifferentDebitAccountId
    } else if event.credit_account_id != stored.credit_account_id {
        Outcome::ExistsWithDifferentCreditAccountId
    } else if event.amount != stored.amount {
        Outcome::ExistsWithDifferentAmount
    } else if event.user_data_128 != stored.user_data_128 {
        Outcome::ExistsWithDifferentUserData128
    } else if event.user_data_64 != stored.user_data_64 {
        Outcome::ExistsWithDifferentUserData64
    } else if event.user_data_32 != stored.user_data_32 {
        Outcome::ExistsWithDifferentUserData32
    } else if event.ledger != stored.ledger {
        Outcome::ExistsWithDifferentLedger
    } else if event.code != stored.code {
        Outcome::ExistsWithDifferentCode
    } else if event.timeout != stored.timeout {
        Outcome::ExistsWithDifferentTimeout
    } else {
        Outcome::Exists
    }
}

/// The amount that a post or void asks for: the whole pending amount where a post's is the greatest or a void's
/// is 0.
pub(crate) fn settled_amount(pending: &Transfer, event: &Transfer) -> u128
    ensures { result ≡ stored_record.settled_amount pending.now event.now }
{
    let whole = if is_post(event) { AMOUNT_MAX } else { 0 };
    if event.amount == whole {
        pending.amount
    } else {
        event.amount
    }
}

/// A post or void with what it leaves out filled in from its pending transfer.
pub(crate) fn fill_in(pending: &Transfer, event: &Transfer) -> Transfer
    ensures { result ≡ stored_record.filled_in pending.now event.now }
{
    Transfer {
        debit_account_id: if event.debit_account_id == 0 {
            pending.debit_account_id
        } else {
            event.debit_account_id
        },
        credit_account_id: if event.credit_account_id == 0 {
            pending.credit_account_id
        } else {
            event.credit_account_id
        },
        amount: settled_amount(pending, event),
        user_data_128: if event.user_data_128 == 0 {
            pending.user_data_128
        } else {
            event.user_data_128
        },
        user_data_64: if event.user_data_64 == 0 {
            pending.user_data_64
        } else {
            event.user_data_64
        },
        user_data_32: if event.user_data_32 == 0 {
            pending.user_data_32
        } else {
            event.user_data_32
        },
        ledger: if event.ledger == 0 {
            pending.ledger
        } else {
            event.ledger
        },
        code: if event.code == 0 {
            pending.code
        } else {
            event.code
        },
        ..*event
    }
}
