//! The next pending transfer to expire, by one walk over the list.

ghost use Rattle.std.specs.Prelude.{◌≡◌, ◌+◌, ◌*◌, ◌<◌, ◌≤◌, ℕ, Some, true, if◌then◌else◌, length, min, slice_index_or};
ghost use Rattle.std.specs.List.{Contains, list_any};
ghost use Rattle.std.specs.Option.{option_map_or};
ghost use Rattle.tf_journal.specs.Due.{due, expires_before, next_due_of};
ghost use Rattle.tf_journal.specs.Expired.{HasExpired, ends, first_due, holds_due};
ghost use Rattle.tf_journal.specs.Lawful.{IsSound};
ghost use Rattle.tf_journal.specs.Verdict as table;

use crate::Entry;
use crate::flags::is_pending;
use crate::walk::{find_pending, stays_open};
use tf_records::Transfer;

/// When a pending transfer with this timestamp, in nanoseconds, and timeout, in seconds, expires: in nanoseconds.
///
/// It may be past the greatest timestamp.
pub fn expiry_of(timestamp: u64, timeout: u32) -> u128
    ensures { result ≡ table.expiry_of timestamp timeout }
{
    u128::from(timestamp) + u128::from(timeout) * 1_000_000_000
}

/// When a stored pending transfer expires, in nanoseconds.
pub fn expires_at(transfer: &Transfer) -> u128
    ensures { result ≡ table.expires_at transfer.now }
{
    expiry_of(transfer.timestamp, transfer.timeout)
}

/// Whether the time of a stored pending transfer is over at this moment, whether or not an expiry says so. One with
/// a timeout of 0 never expires.
pub fn is_overdue(moment: u64, transfer: &Transfer) -> bool
    ensures { result ≡ table.is_overdue moment transfer.now }
{
    transfer.timeout != 0 && expires_at(transfer) <= u128::from(moment)
}

/// Whether a transfer expires before another.
fn is_sooner(first: &Transfer, second: &Transfer) -> bool
    ensures { result ≡ expires_before first.now second.now }
{
    let one = expires_at(first);
    let other = expires_at(second);
    one < other || (one == other && first.timestamp < second.timestamp)
}

/// The timestamp of the pending transfer that the last expiry names.
fn last_ended(entries: &[Entry]) -> Option<u64>
    ensures { (pending : ℕ) → result ≡ Some pending → list_any (ends pending) entries.now ≡ true }
{
    let mut last = None;
    for entry in entries {
        if let Entry::Expiry { pending, .. } = entry {
            last = Some(*pending);
        }
    }
    last
}

/// The pending transfer that expired last.
fn last_expired(entries: &[Entry]) -> Option<Transfer>
    ensures { HasExpired entries.now result }
{
    let pending = last_ended(entries)?;
    find_pending(entries, pending)
}

/// Whether a transfer expires after the one that expired last, if one did.
fn is_after(transfer: &Transfer, last: Option<Transfer>) -> bool
    ensures { result ≡ option_map_or (λ p. expires_before p transfer.now) last true }
{
    match last {
        Some(last) => is_sooner(&last, transfer),
        None => true,
    }
}

/// Whether a transfer expires before the first one so far, if there is one.
fn is_before(transfer: &Transfer, first: Option<Transfer>) -> bool
    ensures { result ≡ option_map_or (λ p. expires_before transfer.now p) first true }
{
    match first {
        Some(first) => is_sooner(transfer, &first),
        None => true,
    }
}

/// The first of the due transfers, after one more entry.
///
/// Transfers expire in the order of their expiry, so only those that expire after the last one that did are
/// looked at, and a status is looked up only for one that would be the first.
fn first_with(
    entries: &[Entry],
    at: u64,
    last: Option<Transfer>,
    first: Option<Transfer>,
    entry: &Entry,
) -> Option<Transfer>
    requires sound { ∥ IsSound entries.now ∥₁ }
    requires last { HasExpired entries.now last }
    requires present { Contains entries.now entry.now }
    ensures { result ≡ first_due entries.now at first entry.now }
{
    match entry {
        Entry::Transfer(transfer)
            if is_pending(transfer)
                && is_overdue(at, transfer)
                && is_after(transfer, last)
                && is_before(transfer, first)
                && stays_open(entries, transfer) => { Some(*transfer) }
        _ => first,
    }
}

/// The next transfer to expire.
pub fn next_due(entries: &[Entry], at: u64) -> Option<Transfer>
    requires { ∥ IsSound entries.now ∥₁ }
    ensures { result ≡ next_due_of entries.now at }
{
    let last = last_expired(entries);
    let mut first = None;
    for entry in entries {
        first = first_with(entries, at, last, first, entry);
    }
    first
}

fn is_due_entry(entries: &[Entry], at: u64, entry: &Entry) -> bool
    ensures { result ≡ holds_due entries.now at entry.now }
{
    match entry {
        Entry::Transfer(transfer) => {
            is_pending(transfer) && is_overdue(at, transfer) && stays_open(entries, transfer)
        }
        _ => false,
    }
}

/// A count of due transfers, or `most` if there are more, after one more entry.
fn count_with(entries: &[Entry], at: u64, most: u32, count: u32, entry: &Entry) -> u32
    requires { count ≤ most }
    ensures { result ≡ min most (count + (if holds_due entries.now at entry.now then 1 else 0)) }
{
    if count < most && is_due_entry(entries, at, entry) {
        count + 1
    } else {
        count
    }
}

/// How many transfers are due, or `most` if there are more.
pub fn count_due(entries: &[Entry], at: u64, most: u32) -> u32
    ensures { result ≡ min most (length (due entries.now at)) }
{
    let mut count = 0;
    for entry in entries {
        count = count_with(entries, at, most, count, entry);
    }
    count
}
