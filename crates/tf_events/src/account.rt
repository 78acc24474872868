//! The results of account events.

ghost use Rattle.std.specs.Prelude.{◌≡◌, ◌&&◌};
ghost use Rattle.tf_journal.specs.Stored as record_of;
ghost use Rattle.tf_journal.specs.Flags.{has_reserved_account_flag, limits_credits, limits_debits};
ghost use Rattle.tf_journal.specs.Verdict.{account_differences, account_faults, account_verdict, first_fault, repeated};

use tf_journal::{Ledger, has_flag};
use tf_records::{Account, ID_MAX, Outcome};

/// The verdict on an account event: the outcome of the first rule that it breaks, else [`Outcome::Ok`].
///
/// The timestamp, in nanoseconds, is that at which the event is judged. Takes no memory. Costs one look-up.
/// As `create_accounts` of TigerBeetle's reference.
pub fn verdict_account<L: Ledger>(ledger: &L, timestamp: u64, event: &Account) -> Outcome
    ensures { result ≡ account_verdict (L.journal ledger.now) timestamp event.now }
{
    if let Some(fault) = account_fault(event) {
        return fault;
    }
    match ledger.account(event.id) {
        Some(stored) => repeated_account(event, &stored),
        None => Outcome::Ok,
    }
}

/// The record that an accepted account event is stored as: the event with its timestamp, in nanoseconds.
///
/// Takes no memory, and looks nothing up.
pub fn stored_account<L: Ledger>(ledger: &L, timestamp: u64, event: &Account) -> Account
    ensures { result ≡ record_of.stored_account (L.journal ledger.now) timestamp event.now }
{
    Account {
        timestamp,
        ..*event
    }
}

/// Whether an account has a flag that isn't in use.
fn has_reserved_flag(event: &Account) -> bool
    ensures { result ≡ has_reserved_account_flag event.now }
{
    has_flag(event.flags, Account::IMPORTED) || event.flags >= 2 * Account::CLOSED
}

/// Whether an account has both limits.
fn has_both_limits(event: &Account) -> bool
    ensures { result ≡ (limits_debits event.now && limits_credits event.now) }
{
    has_flag(event.flags, Account::DEBITS_MUST_NOT_EXCEED_CREDITS)
        && has_flag(event.flags, Account::CREDITS_MUST_NOT_EXCEED_DEBITS)
}

/// What is wrong with an account event by itself.
fn account_fault(event: &Account) -> Option<Outcome>
    ensures { result ≡ first_fault (account_faults event.now) }
{
    if event.timestamp != 0 {
        Some(Outcome::TimestampMustBeZero)
    } else if event.reserved != 0 {
        Some(Outcome::ReservedField)
    } else if has_reserved_flag(event) {
        Some(Outcome::ReservedFlag)
    } else if event.id == 0 {
        Some(Outcome::IdMustNotBeZero)
    } else if event.id == ID_MAX {
        Some(Outcome::IdMustNotBeIntMax)
    } else if has_both_limits(event) {
        Some(Outcome::FlagsAreMutuallyExclusive)
    } else if event.debits_pending != 0 {
        Some(Outcome::DebitsPendingMustBeZero)
    } else if event.debits_posted != 0 {
        Some(Outcome::DebitsPostedMustBeZero)
    } else if event.credits_pending != 0 {
        Some(Outcome::CreditsPendingMustBeZero)
    } else if event.credits_posted != 0 {
        Some(Outcome::CreditsPostedMustBeZero)
    } else if event.ledger == 0 {
        Some(Outcome::LedgerMustNotBeZero)
    } else if event.code == 0 {
        Some(Outcome::CodeMustNotBeZero)
    } else {
        None
    }
}

/// The result of an account event whose id is stored, compared with that account as answers show it.
fn repeated_account(event: &Account, stored: &Account) -> Outcome
    ensures { result ≡ repeated (account_differences event.now stored.now) }
{
    if event.flags != stored.flags {
        Outcome::ExistsWithDifferentFlags
    } else if event.user_data_128 != stored.user_data_128 {
        Outcome::ExistsWithDifferentUserData128
    } else if event.user_data_64 != stored.user_data_64 {
        Outcome::ExistsWithDifferentUserData64
    } else if event.user_data_32 != stored.user_data_32 {
        Outcome::ExistsWithDifferentUserData32
    } else if event.ledger != stored.ledger {
        Outcome::ExistsWithDifferentLedger
    } else if event.code != stored.code {
        Outcome::ExistsWithDifferentCode
    } else {
        Outcome::Exists
    }
}
