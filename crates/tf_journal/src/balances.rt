//! The balances of an account by running sums.

ghost use Rattle.std.specs.Prelude.{◌≡◌, ◌+◌, ◌-◌, ◌^◌, ◌≤◌, ◌==◌, ◌||◌, ◌++◌, ◌∷◌, []};
ghost use Rattle.std.specs.Option.{option_map_or};
ghost use Rattle.tf_journal.specs.Balances.{account_on, balances_of, posted_by};
ghost use Rattle.tf_journal.specs.Ledger.{CanGrow};
ghost use Rattle.tf_journal.specs.Lawful.{IsSound};
ghost use Rattle.tf_journal.specs.Lookup.{shown};
ghost use Rattle.tf_journal.specs.Steps.{amount_on, released, set_aside};
ghost use Rattle.tf_journal.specs.declared.side.Side.{Side};

use crate::flags::{has_flag, is_pending, is_settling};
use crate::walk::{find_pending, find_transfer, stays_closed};
use crate::{Entry, Side};
use tf_records::{Account, Sums, Transfer};

/// The account that a transfer has on a side.
fn account_of_side(side: Side, transfer: &Transfer) -> u128
    ensures { result ≡ account_on side transfer.now }
{
    match side {
        Side::Debit => transfer.debit_account_id,
        Side::Credit => transfer.credit_account_id,
    }
}

/// What an entry posts to a side of the account with this id.
fn posted(entry: &Entry, side: Side, id: u128) -> u128
    ensures { result ≡ posted_by side id entry.now }
{
    match entry {
        Entry::Transfer(transfer) => {
            let void = has_flag(transfer.flags, Transfer::VOID_PENDING_TRANSFER);
            if account_of_side(side, transfer) == id && !is_pending(transfer) && !void {
                transfer.amount
            } else {
                0
            }
        }
        _ => 0,
    }
}

/// What an entry sets aside on a side of the account with this id when it is stored.
fn newly_pending(entry: &Entry, side: Side, id: u128) -> u128
    ensures { result ≡ set_aside side id entry.now }
{
    match entry {
        Entry::Transfer(transfer) => {
            if account_of_side(side, transfer) == id && is_pending(transfer) {
                transfer.amount
            } else {
                0
            }
        }
        _ => 0,
    }
}

/// The amount of a pending transfer that ends, where it has this account on this side.
fn ended_amount(side: Side, id: u128, ended: Option<Transfer>) -> u128
    ensures { result ≡ option_map_or (amount_on side id) ended 0 }
{
    match ended {
        Some(pending) if account_of_side(side, &pending) == id => pending.amount,
        _ => 0,
    }
}

/// Whether a transfer debits or credits the account with this id.
fn has_account(transfer: &Transfer, id: u128) -> bool
    ensures { result ≡ (transfer.now.debit_account_id == id || transfer.now.credit_account_id == id) }
{
    transfer.debit_account_id == id || transfer.credit_account_id == id
}

/// The pending transfer that an entry posts, voids or expires, where it may have this account.
fn ended_by(entries: &[Entry], entry: &Entry, id: u128) -> Option<Transfer>
    requires { ∥ CanGrow entries.now entry.now ∥₁ }
    ensures { (side : Side) → option_map_or (amount_on side id) result 0
        ≡ released entries.now side id entry.now }
{
    match entry {
        Entry::Transfer(transfer) => {
            if is_settling(transfer) && has_account(transfer, id) {
                find_transfer(entries, transfer.pending_id)
            } else {
                None
            }
        }
        Entry::Expiry { pending, .. } => find_pending(entries, *pending),
        _ => None,
    }
}

/// A sum with one amount added and another taken off, whose own value fits.
fn moved(sum: u128, added: u128, off: u128) -> u128
    requires low { off ≤ sum + added }
    requires high { sum + added ≤ off + (2 ^ 128 - 1) }
    ensures { result + off ≡ sum + added }
{
    if off <= added {
        sum + (added - off)
    } else {
        sum - (off - added)
    }
}

/// The balances of an account after one more entry.
fn balances_after(sums: Sums, entries: &[Entry], entry: &Entry, id: u128) -> Sums
    requires before { sums ≡ balances_of entries.now id }
    requires sound { ∥ IsSound entries.now ∥₁ }
    requires grows { ∥ CanGrow entries.now entry.now ∥₁ }
    ensures { result ≡ balances_of (entries.now ++ entry.now ∷ []) id }
{
    let ended = ended_by(entries, entry, id);
    Sums {
        debits_pending: moved(
            sums.debits_pending,
            newly_pending(entry, Side::Debit, id),
            ended_amount(Side::Debit, id, ended),
        ),
        debits_posted: sums.debits_posted + posted(entry, Side::Debit, id),
        credits_pending: moved(
            sums.credits_pending,
            newly_pending(entry, Side::Credit, id),
            ended_amount(Side::Credit, id, ended),
        ),
        credits_posted: sums.credits_posted + posted(entry, Side::Credit, id),
    }
}

/// The balances of an account, in one pass.
pub fn balances(entries: &[Entry], id: u128) -> Sums
    requires { ∥ IsSound entries.now ∥₁ }
    ensures { result ≡ balances_of entries.now id }
{
    let mut sums = Sums {
        debits_pending: 0,
        debits_posted: 0,
        credits_pending: 0,
        credits_posted: 0,
    };
    for (i, entry) in entries.iter().enumerate() {
        sums = balances_after(sums, &entries[..i], entry, id);
    }
    sums
}

/// A stored account as answers show it: with its balances, and marked as closed where it is.
pub fn show(entries: &[Entry], account: &Account) -> Account
    requires { ∥ IsSound entries.now ∥₁ }
    ensures { result ≡ shown entries.now account.now }
{
    let sums = balances(entries, account.id);
    let flags = if stays_closed(entries, account) {
        account.flags | Account::CLOSED
    } else {
        account.flags
    };
    Account {
        debits_pending: sums.debits_pending,
        debits_posted: sums.debits_posted,
        credits_pending: sums.credits_pending,
        credits_posted: sums.credits_posted,
        flags,
        ..*account
    }
}
