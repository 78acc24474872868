//! The numbers of the constants, each law the contract of a function that does nothing.
//!
//! A contract above this crate names a constant where it needs its number: here the number itself
//! stands, so that a constant can't be changed and all contracts with it.

ghost use Rattle.std.specs.Prelude.{◌≡◌, ◌-◌, ◌^◌};

use crate::{
    AMOUNT_MAX, Account, AccountBalance, AccountFilter, BATCH_MAX, ID_MAX, QueryFilter,
    TIMESTAMP_MAX, Transfer,
};

/// The limits that every layer shares: 8,190 events, `2^63 - 1` nanoseconds, and `2^128 - 1` as the
/// greatest amount and the id that isn't used. Does nothing.
pub fn limits_are_these()
    ensures batch { BATCH_MAX ≡ 8190 }
    ensures timestamp { TIMESTAMP_MAX ≡ 2 ^ 63 - 1 }
    ensures amount { AMOUNT_MAX ≡ 2 ^ 128 - 1 }
    ensures id { ID_MAX ≡ 2 ^ 128 - 1 }
{}

/// The bits of an account's flags. Does nothing.
pub fn account_flags_are_these()
    ensures linked { Account.LINKED ≡ 1 }
    ensures debits_must_not_exceed_credits { Account.DEBITS_MUST_NOT_EXCEED_CREDITS ≡ 2 }
    ensures credits_must_not_exceed_debits { Account.CREDITS_MUST_NOT_EXCEED_DEBITS ≡ 4 }
    ensures history { Account.HISTORY ≡ 8 }
    ensures imported { Account.IMPORTED ≡ 16 }
    ensures closed { Account.CLOSED ≡ 32 }
{}

/// The bits of a transfer's flags. Does nothing.
pub fn transfer_flags_are_these()
    ensures linked { Transfer.LINKED ≡ 1 }
    ensures pending { Transfer.PENDING ≡ 2 }
    ensures post_pending_transfer { Transfer.POST_PENDING_TRANSFER ≡ 4 }
    ensures void_pending_transfer { Transfer.VOID_PENDING_TRANSFER ≡ 8 }
    ensures balancing_debit { Transfer.BALANCING_DEBIT ≡ 16 }
    ensures balancing_credit { Transfer.BALANCING_CREDIT ≡ 32 }
    ensures closing_debit { Transfer.CLOSING_DEBIT ≡ 64 }
    ensures closing_credit { Transfer.CLOSING_CREDIT ≡ 128 }
    ensures imported { Transfer.IMPORTED ≡ 256 }
{}

/// The bits of the filters' flags. Does nothing.
pub fn filter_flags_are_these()
    ensures debits { AccountFilter.DEBITS ≡ 1 }
    ensures credits { AccountFilter.CREDITS ≡ 2 }
    ensures reversed { AccountFilter.REVERSED ≡ 4 }
    ensures query_reversed { QueryFilter.REVERSED ≡ 1 }
{}

/// The lengths of the records' bytes. Does nothing.
pub fn record_sizes_are_these()
    ensures account { Account.SIZE ≡ 128 }
    ensures transfer { Transfer.SIZE ≡ 128 }
    ensures account_balance { AccountBalance.SIZE ≡ 128 }
    ensures account_filter { AccountFilter.SIZE ≡ 128 }
    ensures query_filter { QueryFilter.SIZE ≡ 64 }
{}
