//! The results of transfers that move an amount, or set it aside, between the accounts that they name.

ghost use Rattle.std.specs.Prelude.{◌≡◌, ◌+◌, nat_lt, false, Some};
ghost use Rattle.tf_journal.specs.Balances.{greatest_amount};
ghost use Rattle.tf_journal.specs.Flags.{is_settling};
ghost use Rattle.tf_journal.specs.Verdict.{sides_faults, first_fault, moving_faults, transfer_verdict};
ghost use Rattle.tf_events.specs.Moving.{ledger_faults, limit_faults, sum_faults};

use tf_journal::{Ledger, expiry_of, has_flag, is_marked_closed, is_pending};
use tf_pending::{transfer_fault, used_id_fault};
use tf_records::{AMOUNT_MAX, Account, ID_MAX, Outcome, TIMESTAMP_MAX, Transfer};

/// The verdict on a transfer event that is no post or void, judged at this timestamp.
///
/// Takes no memory. Looks up the event's own id and its two accounts, each once and only as far as no rule
/// before is broken.
pub fn verdict_moving<L: Ledger>(ledger: &L, timestamp: u64, event: &Transfer) -> Outcome
    requires moving { is_settling event.now ≡ false }
    ensures { result ≡ transfer_verdict (L.journal ledger.now) timestamp event.now }
{
    if let Some(fault) = transfer_fault(event) {
        return fault;
    }
    if let Some(fault) = moving_fault(event) {
        return fault;
    }
    if let Some(fault) = used_id_fault(ledger, event) {
        return fault;
    }
    sides_fault(ledger, timestamp, event).unwrap_or(Outcome::Ok)
}

/// What is wrong by itself with a transfer that moves an amount.
fn moving_fault(event: &Transfer) -> Option<Outcome>
    ensures { result ≡ first_fault (moving_faults event.now) }
{
    if event.debit_account_id == 0 {
        Some(Outcome::DebitAccountIdMustNotBeZero)
    } else if event.debit_account_id == ID_MAX {
        Some(Outcome::DebitAccountIdMustNotBeIntMax)
    } else if event.credit_account_id == 0 {
        Some(Outcome::CreditAccountIdMustNotBeZero)
    } else if event.credit_account_id == ID_MAX {
        Some(Outcome::CreditAccountIdMustNotBeIntMax)
    } else if event.debit_account_id == event.credit_account_id {
        Some(Outcome::AccountsMustBeDifferent)
    } else if event.pending_id != 0 {
        Some(Outcome::PendingIdMustBeZero)
    } else if event.timeout != 0 && !is_pending(event) {
        Some(Outcome::TimeoutReservedForPendingTransfer)
    } else if event.ledger == 0 {
        Some(Outcome::LedgerMustNotBeZero)
    } else if event.code == 0 {
        Some(Outcome::CodeMustNotBeZero)
    } else {
        None
    }
}

/// What keeps the accounts of a moving transfer from taking it.
fn sides_fault<L: Ledger>(ledger: &L, timestamp: u64, event: &Transfer) -> Option<Outcome>
    ensures { result ≡ first_fault (sides_faults (L.journal ledger.now) timestamp event.now) }
{
    let Some(debit) = ledger.account(event.debit_account_id) else {
        return Some(Outcome::DebitAccountNotFound);
    };
    let Some(credit) = ledger.account(event.credit_account_id) else {
        return Some(Outcome::CreditAccountNotFound);
    };
    if let Some(fault) = ledger_fault(&debit, &credit, event) {
        return Some(fault);
    }
    if let Some(fault) = sum_fault(&debit, &credit, event) {
        return Some(fault);
    }
    limit_fault(timestamp, &debit, &credit, event)
}

/// Whether the accounts are of another ledger, or closed.
fn ledger_fault(debit: &Account, credit: &Account, event: &Transfer) -> Option<Outcome>
    ensures { result ≡ first_fault (ledger_faults debit.now credit.now event.now) }
{
    if debit.ledger != credit.ledger {
        Some(Outcome::AccountsMustHaveTheSameLedger)
    } else if event.ledger != debit.ledger {
        Some(Outcome::TransferMustHaveTheSameLedgerAsAccounts)
    } else if is_marked_closed(debit) {
        Some(Outcome::DebitAccountAlreadyClosed)
    } else if is_marked_closed(credit) {
        Some(Outcome::CreditAccountAlreadyClosed)
    } else {
        None
    }
}

/// Whether a sum with an amount added is above the greatest amount.
fn overflows(sum: u128, amount: u128) -> bool
    ensures { result ≡ nat_lt greatest_amount (sum + amount) }
{
    amount > AMOUNT_MAX - sum
}

/// Whether two sums with an amount added are above a limit.
fn exceeds(limit: u128, pending: u128, posted: u128, amount: u128) -> bool
    ensures { result ≡ nat_lt limit (pending + posted + amount) }
{
    if overflows(pending, posted) {
        return true;
    }
    let sum = pending + posted;
    overflows(sum, amount) || sum + amount > limit
}

/// Which sum of the accounts would pass the greatest amount.
fn sum_fault(debit: &Account, credit: &Account, event: &Transfer) -> Option<Outcome>
    ensures { result ≡ first_fault (sum_faults debit.now credit.now event.now) }
{
    let amount = event.amount;
    if is_pending(event) && overflows(debit.debits_pending, amount) {
        Some(Outcome::OverflowsDebitsPending)
    } else if is_pending(event) && overflows(credit.credits_pending, amount) {
        Some(Outcome::OverflowsCreditsPending)
    } else if overflows(debit.debits_posted, amount) {
        Some(Outcome::OverflowsDebitsPosted)
    } else if overflows(credit.credits_posted, amount) {
        Some(Outcome::OverflowsCreditsPosted)
    } else if exceeds(
        AMOUNT_MAX,
        debit.debits_pending,
        debit.debits_posted,
        amount,
    ) {
        Some(Outcome::OverflowsDebits)
    } else if exceeds(
        AMOUNT_MAX,
        credit.credits_pending,
        credit.credits_posted,
        amount,
    ) {
        Some(Outcome::OverflowsCredits)
    } else {
        None
    }
}

/// Whether the transfer would expire too late, or an account pass its limit.
fn limit_fault(
    timestamp: u64,
    debit: &Account,
    credit: &Account,
    event: &Transfer,
) -> Option<Outcome>
    ensures { result ≡ first_fault (limit_faults timestamp debit.now credit.now event.now) }
{
    let amount = event.amount;
    if event.timeout != 0 && expiry_of(timestamp, event.timeout) > u128::from(TIMESTAMP_MAX) {
        Some(Outcome::OverflowsTimeout)
    } else if has_flag(debit.flags, Account::DEBITS_MUST_NOT_EXCEED_CREDITS)
        && exceeds(
            debit.credits_posted,
            debit.debits_pending,
            debit.debits_posted,
            amount,
        )
    {
        Some(Outcome::ExceedsCredits)
    } else if has_flag(credit.flags, Account::CREDITS_MUST_NOT_EXCEED_DEBITS)
        && exceeds(
            credit.debits_posted,
            credit.credits_pending,
            credit.credits_posted,
            amount,
        )
    {
        Some(Outcome::ExceedsDebits)
    } else {
        None
    }
}
