//! What can be wrong with a transfer event by itself.

ghost use Rattle.std.specs.Prelude.{◌≡◌};
ghost use Rattle.tf_journal.specs.Flags.{has_reserved_transfer_flag};
ghost use Rattle.tf_journal.specs.Verdict.{first_fault, has_exclusive_flags, settling_faults, transfer_faults};

use tf_journal::{has_flag, is_closing, is_pending, is_post, is_settling, is_void};
use tf_records::{ID_MAX, Outcome, Transfer};

/// Whether a transfer has a flag that isn't in use.
fn has_reserved_flag(event: &Transfer) -> bool
    ensures { result ≡ has_reserved_transfer_flag event.now }
{
    has_flag(event.flags, Transfer::BALANCING_DEBIT)
        || has_flag(event.flags, Transfer::BALANCING_CREDIT)
        || event.flags >= Transfer::IMPORTED
}

/// Whether a transfer has flags that exclude each other.
fn has_excluding_flags(event: &Transfer) -> bool
    ensures { result ≡ has_exclusive_flags event.now }
{
    is_pending(event) && is_settling(event)
        || is_post(event) && is_void(event)
        || is_settling(event) && is_closing(event)
}

/// What is wrong by itself with any transfer event: the outcome of the first rule that it breaks, or `None`.
///
/// Takes no memory and looks nothing up.
pub fn transfer_fault(event: &Transfer) -> Option<Outcome>
    ensures { result ≡ first_fault (transfer_faults event.now) }
{
    if event.timestamp != 0 {
        Some(Outcome::TimestampMustBeZero)
    } else if has_reserved_flag(event) {
        Some(Outcome::ReservedFlag)
    } else if event.id == 0 {
        Some(Outcome::IdMustNotBeZero)
    } else if event.id == ID_MAX {
        Some(Outcome::IdMustNotBeIntMax)
    } else if has_excluding_flags(event) {
        Some(Outcome::FlagsAreMutuallyExclusive)
    } else if is_closing(event) && !is_pending(event) {
        Some(Outcome::ClosingTransferMustBePending)
    } else {
        None
    }
}

/// What is wrong by itself with a post or void.
pub(crate) fn settling_fault(event: &Transfer) -> Option<Outcome>
    ensures { result ≡ first_fault (settling_faults event.now) }
{
    if event.pending_id == 0 {
        Some(Outcome::PendingIdMustNotBeZero)
    } else if event.pending_id == ID_MAX {
        Some(Outcome::PendingIdMustNotBeIntMax)
    } else if event.pending_id == event.id {
        Some(Outcome::PendingIdMustBeDifferent)
    } else if event.timeout != 0 {
        Some(Outcome::TimeoutReservedForPendingTransfer)
    } else {
        None
    }
}
