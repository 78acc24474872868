//! The result of an event.

ghost use Rattle.std.specs.Prelude.{◌≡◌};
ghost use Rattle.tf_records.specs.Outcome.{name_of};

/// The result of one event of a batch.
///
/// The names are those of TigerBeetle's reference; the order of the variants means nothing.
#[derive(Clone, Copy, Debug, PartialEq, Eq)]
pub enum Outcome {
    /// The event is stored.
    Ok,
    /// Another event of the same chain failed.
    LinkedEventFailed,
    /// The last event of the batch is linked to a next one.
    LinkedEventChainOpen,
    /// The event carries a timestamp.
    TimestampMustBeZero,
    /// The event's reserved field isn't 0.
    ReservedField,
    /// The event has a flag that isn't in use.
    ReservedFlag,
    /// The event's id is 0.
    IdMustNotBeZero,
    /// The event's id is `2^128 - 1`.
    IdMustNotBeIntMax,
    /// The event has flags that exclude each other.
    FlagsAreMutuallyExclusive,
    /// The event's pending debits aren't 0.
    DebitsPendingMustBeZero,
    /// The event's posted debits aren't 0.
    DebitsPostedMustBeZero,
    /// The event's pending credits aren't 0.
    CreditsPendingMustBeZero,
    /// The event's posted credits aren't 0.
    CreditsPostedMustBeZero,
    /// The event's ledger is 0.
    LedgerMustNotBeZero,
    /// The event's code is 0.
    CodeMustNotBeZero,
    /// The event closes an account and isn't pending.
    ClosingTransferMustBePending,
    /// The debit account's id is 0.
    DebitAccountIdMustNotBeZero,
    /// The debit account's id is `2^128 - 1`.
    DebitAccountIdMustNotBeIntMax,
    /// The credit account's id is 0.
    CreditAccountIdMustNotBeZero,
    /// The credit account's id is `2^128 - 1`.
    CreditAccountIdMustNotBeIntMax,
    /// The debit account is the credit account.
    AccountsMustBeDifferent,
    /// The event names a pending transfer and neither posts nor voids.
    PendingIdMustBeZero,
    /// The event posts or voids and names no pending transfer.
    PendingIdMustNotBeZero,
    /// The event posts or voids the id `2^128 - 1`.
    PendingIdMustNotBeIntMax,
    /// The event posts or voids itself.
    PendingIdMustBeDifferent,
    /// The event has a timeout and isn't pending.
    TimeoutReservedForPendingTransfer,
    /// The debit account isn't stored.
    DebitAccountNotFound,
    /// The credit account isn't stored.
    CreditAccountNotFound,
    /// The accounts are of two ledgers.
    AccountsMustHaveTheSameLedger,
    /// The event's ledger isn't that of the accounts.
    TransferMustHaveTheSameLedgerAsAccounts,
    /// The debit account is closed.
    DebitAccountAlreadyClosed,
    /// The credit account is closed.
    CreditAccountAlreadyClosed,
    /// The pending transfer isn't stored.
    PendingTransferNotFound,
    /// The transfer named isn't a pending one.
    PendingTransferNotPending,
    /// The pending transfer debits another account.
    PendingTransferHasDifferentDebitAccountId,
    /// The pending transfer credits another account.
    PendingTransferHasDifferentCreditAccountId,
    /// The pending transfer is of another ledger.
    PendingTransferHasDifferentLedger,
    /// The pending transfer has another code.
    PendingTransferHasDifferentCode,
    /// The amount is above that of the pending transfer.
    ExceedsPendingTransferAmount,
    /// A void's amount is below that of the pending transfer.
    PendingTransferHasDifferentAmount,
    /// The pending transfer was posted before.
    PendingTransferAlreadyPosted,
    /// The pending transfer was voided before.
    PendingTransferAlreadyVoided,
    /// The pending transfer's time is over.
    PendingTransferExpired,
    /// The id is stored with other flags.
    ExistsWithDifferentFlags,
    /// The id is stored with another pending transfer.
    ExistsWithDifferentPendingId,
    /// The id is stored with another debit account.
    ExistsWithDifferentDebitAccountId,
    /// The id is stored with another credit account.
    ExistsWithDifferentCreditAccountId,
    /// The id is stored with another amount.
    ExistsWithDifferentAmount,
    /// The id is stored with another `user_data_128`.
    ExistsWithDifferentUserData128,
    /// The id is stored with another `user_data_64`.
    ExistsWithDifferentUserData64,
    /// The id is stored with another `user_data_32`.
    ExistsWithDifferentUserData32,
    /// The id is stored with another ledger.
    ExistsWithDifferentLedger,
    /// The id is stored with another code.
    ExistsWithDifferentCode,
    /// The id is stored with another timeout.
    ExistsWithDifferentTimeout,
    /// The same event is stored already.
    Exists,
    /// A transfer with this id failed before, for a passing reason.
    IdAlreadyFailed,
    /// The debit account's pending debits would be above `2^128 - 1`.
    OverflowsDebitsPending,
    /// The credit account's pending credits would be above `2^128 - 1`.
    OverflowsCreditsPending,
    /// The debit account's posted debits would be above `2^128 - 1`.
    OverflowsDebitsPosted,
    /// The credit account's posted credits would be above `2^128 - 1`.
    OverflowsCreditsPosted,
    /// The debit account's debits together would be above `2^128 - 1`.
    OverflowsDebits,
    /// The credit account's credits together would be above `2^128 - 1`.
    OverflowsCredits,
    /// The pending transfer would expire after `TIMESTAMP_MAX`.
    OverflowsTimeout,
    /// The debit account's debits would be above its posted credits.
    ExceedsCredits,
    /// The credit account's credits would be above its posted debits.
    ExceedsDebits,
}

impl Outcome {
    /// The result's name as TigerBeetle's reference spells it, `ok` for a stored event.
    ///
    /// Takes no memory.
    pub fn name(self) -> &'static str
        ensures { result.now ≡ name_of self }
    {
        match self {
            Outcome::Ok => "ok",
            Outcome::LinkedEventFailed => "linked_event_failed",
            Outcome::LinkedEventChainOpen => "linked_event_chain_open",
            Outcome::TimestampMustBeZero => "timestamp_must_be_zero",
            Outcome::ReservedField => "reserved_field",
            Outcome::ReservedFlag => "reserved_flag",
            Outcome::IdMustNotBeZero => "id_must_not_be_zero",
            Outcome::IdMustNotBeIntMax => "id_must_not_be_int_max",
            Outcome::FlagsAreMutuallyExclusive => "flags_are_mutually_exclusive",
            Outcome::DebitsPendingMustBeZero => "debits_pending_must_be_zero",
            Outcome::DebitsPostedMustBeZero => "debits_posted_must_be_zero",
            Outcome::CreditsPendingMustBeZero => "credits_pending_must_be_zero",
            Outcome::CreditsPostedMustBeZero => "credits_posted_must_be_zero",
            Outcome::LedgerMustNotBeZero => "ledger_must_not_be_zero",
            Outcome::CodeMustNotBeZero => "code_must_not_be_zero",
            Outcome::ClosingTransferMustBePending => "closing_transfer_must_be_pending",
            Outcome::DebitAccountIdMustNotBeZero => "debit_account_id_must_not_be_zero",
            Outcome::DebitAccountIdMustNotBeIntMax => "debit_account_id_must_not_be_int_max",
            Outcome::CreditAccountIdMustNotBeZero => "credit_account_id_must_not_be_zero",
            Outcome::CreditAccountIdMustNotBeIntMax => "credit_account_id_must_not_be_int_max",
            Outcome::AccountsMustBeDifferent => "accounts_must_be_different",
            Outcome::PendingIdMustBeZero => "pending_id_must_be_zero",
            Outcome::PendingIdMustNotBeZero => "pending_id_must_not_be_zero",
            Outcome::PendingIdMustNotBeIntMax => "pending_id_must_not_be_int_max",
            Outcome::PendingIdMustBeDifferent => "pending_id_must_be_different",
            Outcome::TimeoutReservedForPendingTransfer => "timeout_reserved_for_pending_transfer",
            Outcome::DebitAccountNotFound => "debit_account_not_found",
            Outcome::CreditAccountNotFound => "credit_account_not_found",
            Outcome::AccountsMustHaveTheSameLedger => "accounts_must_have_the_same_ledger",
            Outcome::TransferMustHaveTheSameLedgerAsAccounts => {
                "transfer_must_have_the_same_ledger_as_accounts"
            }
            Outcome::DebitAccountAlreadyClosed => "debit_account_already_closed",
            Outcome::CreditAccountAlreadyClosed => "credit_account_already_closed",
            Outcome::PendingTransferNotFound => "pending_transfer_not_found",
            Outcome::PendingTransferNotPending => "pending_transfer_not_pending",
            Outcome::PendingTransferHasDifferentDebitAccountId => {
                "pending_transfer_has_different_debit_account_id"
            }
            Outcome::PendingTransferHasDifferentCreditAccountId => {
                "pending_transfer_has_different_credit_account_id"
            }
            Outcome::PendingTransferHasDifferentLedger => "pending_transfer_has_different_ledger",
            Outcome::PendingTransferHasDifferentCode => "pending_transfer_has_different_code",
            Outcome::ExceedsPendingTransferAmount => "exceeds_pending_transfer_amount",
            Outcome::PendingTransferHasDifferentAmount => "pending_transfer_has_different_amount",
            Outcome::PendingTransferAlreadyPosted => "pending_transfer_already_posted",
            Outcome::PendingTransferAlreadyVoided => "pending_transfer_already_voided",
            Outcome::PendingTransferExpired => "pending_transfer_expired",
            Outcome::ExistsWithDifferentFlags => "exists_with_different_flags",
            Outcome::ExistsWithDifferentPendingId => "exists_with_different_pending_id",
            Outcome::ExistsWithDifferentDebitAccountId => "exists_with_different_debit_account_id",
            Outcome::ExistsWithDifferentCreditAccountId => {
                "exists_with_different_credit_account_id"
            }
            Outcome::ExistsWithDifferentAmount => "exists_with_different_amount",
            Outcome::ExistsWithDifferentUserData128 => "exists_with_different_user_data_128",
            Outcome::ExistsWithDifferentUserData64 => "exists_with_different_user_data_64",
            Outcome::ExistsWithDifferentUserData32 => "exists_with_different_user_data_32",
            Outcome::ExistsWithDifferentLedger => "exists_with_different_ledger",
            Outcome::ExistsWithDifferentCode => "exists_with_different_code",
            Outcome::ExistsWithDifferentTimeout => "exists_with_different_timeout",
            Outcome::Exists => "exists",
            Outcome::IdAlreadyFailed => "id_already_failed",
            Outcome::OverflowsDebitsPending => "overflows_debits_pending",
            Outcome::OverflowsCreditsPending => "overflows_credits_pending",
            Outcome::OverflowsDebitsPosted => "overflows_debits_posted",
            Outcome::OverflowsCreditsPosted => "overflows_credits_posted",
            Outcome::OverflowsDebits => "overflows_debits",
            Outcome::OverflowsCredits => "overflows_credits",
            Outcome::OverflowsTimeout => "overflows_timeout",
            Outcome::ExceedsCredits => "exceeds_credits",
            Outcome::ExceedsDebits => "exceeds_debits",
        }
    }
}
