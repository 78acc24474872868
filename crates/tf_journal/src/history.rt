//! An account's balances in the past.

ghost use Rattle.std.specs.Prelude.{◌≡◌};
ghost use Rattle.tf_journal.specs.Answer.{balance_after, cut_after};
ghost use Rattle.tf_journal.specs.Lawful.{IsSound};

use crate::Entry;
use crate::balances::balances;
use tf_records::{AccountBalance, Transfer};

/// The balances of the account with this id right after a transfer, by a walk over the entries up to it.
pub fn balance_after(entries: &[Entry], id: u128, transfer: &Transfer) -> AccountBalance
    requires { ∥ IsSound entries.now ∥₁ }
    ensures { result ≡ balance_after entries.now id transfer.now }
{
    let sums = balances(cut_after(entries, transfer.timestamp), id);
    AccountBalance {
        debits_pending: sums.debits_pending,
        debits_posted: sums.debits_posted,
        credits_pending: sums.credits_pending,
        credits_posted: sums.credits_posted,
        timestamp: transfer.timestamp,
        reserved: [0; 56],
    }
}

/// The entries up to and with this timestamp, which stand together at the front. Takes logarithmic time.
fn cut_after(entries: &[Entry], timestamp: u64) -> &[Entry]
    requires { ∥ IsSound entries.now ∥₁ }
    ensures cut { result.now ≡ cut_after entries.now timestamp }
    ensures sound { ∥ IsSound result.now ∥₁ }
{
    let count = entries.partition_point(|entry| entry.timestamp() <= timestamp);
    &entries[..count]
}
