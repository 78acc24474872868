//! The flags of records.

ghost use Rattle.std.specs.Prelude.{◌≡◌, ◌||◌};
ghost use Rattle.tf_journal.specs.Flags as flag;

use tf_records::{Account, Transfer};

/// Whether one of the bits of a mask is set.
pub fn has_flag(flags: u16, mask: u16) -> bool
    ensures { result ≡ flag.has_flag flags mask }
{
    flags & mask != 0
}

/// Whether a transfer is pending.
pub fn is_pending(transfer: &Transfer) -> bool
    ensures { result ≡ flag.is_pending transfer.now }
{
    has_flag(transfer.flags, Transfer::PENDING)
}

/// Whether a transfer posts a pending one.
pub fn is_post(transfer: &Transfer) -> bool
    ensures { result ≡ flag.is_post transfer.now }
{
    has_flag(transfer.flags, Transfer::POST_PENDING_TRANSFER)
}

/// Whether a transfer voids a pending one.
pub fn is_void(transfer: &Transfer) -> bool
    ensures { result ≡ flag.is_void transfer.now }
{
    has_flag(transfer.flags, Transfer::VOID_PENDING_TRANSFER)
}

/// Whether a transfer posts or voids a pending one.
pub fn is_settling(transfer: &Transfer) -> bool
    ensures { result ≡ flag.is_settling transfer.now }
{
    is_post(transfer) || is_void(transfer)
}

/// Whether a transfer closes its debit account or its credit account.
pub fn is_closing(transfer: &Transfer) -> bool
    ensures { result ≡ (flag.closes_debit transfer.now || flag.closes_credit transfer.now) }
{
    has_flag(transfer.flags, Transfer::CLOSING_DEBIT)
        || has_flag(transfer.flags, Transfer::CLOSING_CREDIT)
}

/// Whether an account has the flag of a closed one: as it was stored, or, of an account as answers show it, as it is.
pub fn is_marked_closed(account: &Account) -> bool
    ensures { result ≡ flag.is_marked_closed account.now }
{
    has_flag(account.flags, Account::CLOSED)
}
