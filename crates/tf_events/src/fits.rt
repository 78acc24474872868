//! The ranges of a record's fields, which their types give.

ghost use Rattle.std.specs.Prelude.{◌≡◌};
ghost use Rattle.tf_journal.specs.Fits.{FitsAccount, FitsTransfer};

use tf_records::{Account, Transfer};

/// The same account, whose fields fit their types.
pub fn fitting_account(account: Account) -> Account
    ensures same { result ≡ account }
    ensures fits { FitsAccount account }
{
    account
}

/// The same transfer, whose fields fit their types.
pub fn fitting_transfer(transfer: Transfer) -> Transfer
    ensures same { result ≡ transfer }
    ensures fits { FitsTransfer transfer }
{
    transfer
}
