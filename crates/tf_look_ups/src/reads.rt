//! What tables have at timestamps.
ghost use Rattle.std.specs.Prelude.{◌≡◌, ◌+◌, ◌<◌, ◌≤◌, ◌++◌, filter_map, length, map, take, vec_capacity, vec_len, IfErr, IfOk};
ghost use Rattle.std.specs.Option.{option_copied, option_to_list};
ghost use Rattle.tf_registry.specs.Row.{content_at};
ghost use Rattle.tf_manifest.specs.Rows.{key_of};
ghost use Rattle.tf_look_ups.specs.Reads.{account_in, shown_by, shown_in, state_in, stored_record, transfer_in};

use crate::finder::Finder;
use std::alloc::Allocator;
use tf_manifest::{Manifest, State, Stored};
use tf_records::{Account, Refusal, Transfer};
use tf_registry::Naming;
use tf_table::Key;

/// The key of a value and a timestamp.
pub fn key_of(value: u128, timestamp: u64) -> Key
    ensures { result ≡ key_of value timestamp }
{
    Key { value, timestamp }
}

/// The record in what a row stores, if it was found.
#[inline]
pub fn record_of<'r, T>(found: Option<&'r Stored<T>>) -> Option<&'r T>
    ensures { option_copied result ≡ stored_record (option_copied found.entry) }
{
    match found {
        Some(stored) => Some(&stored.record),
        None => None,
    }
}

/// The account with this timestamp, as it was stored, where its table has it.
pub fn stored_account_at<'r, A: Allocator, N: Naming>(
    manifest: &'r Manifest<A, N>,
    timestamp: u64,
) -> Option<&'r Account>
    ensures { option_copied result ≡ account_in manifest.now timestamp }
{
    record_of(manifest.accounts.row(0).find(&key_of(0, timestamp)))
}

/// The present state of the account with this timestamp, where its table has it.
pub fn state_at<'r, A: Allocator, N: Naming>(
    manifest: &'r Manifest<A, N>,
    timestamp: u64,
) -> Option<&'r State>
    ensures { option_copied result ≡ state_in manifest.now timestamp }
{
    manifest.states.row(0).find(&key_of(0, timestamp))
}

/// A stored account as answers show it: with its balances, and marked as closed where it is.
pub fn shown(stored: &Account, state: &State) -> Account
    ensures { result ≡ shown_by stored.now state.now }
{
    let flags = if state.closed {
        stored.flags | Account::CLOSED
    } else {
        stored.flags
    };
    Account {
        debits_pending: state.sums.debits_pending,
        debits_posted: state.sums.debits_posted,
        credits_pending: state.sums.credits_pending,
        credits_posted: state.sums.credits_posted,
        flags,
        ..*stored
    }
}

/// The account with this timestamp as answers show it.
pub fn account_at<A: Allocator, N: Naming>(
    manifest: &Manifest<A, N>,
    timestamp: u64,
) -> Option<Account>
    ensures { result ≡ shown_in manifest.now timestamp }
{
    let Some(stored) = stored_account_at(manifest, timestamp) else {
        return None;
    };
    match state_at(manifest, timestamp) {
        Some(state) => Some(shown(stored, state)),
        None => None,
    }
}

/// Puts what was found at the end of the rows, which have room for it.
pub fn push_found<T: Drop, B: Allocator>(rows: &mut Vec<T, B>, found: Option<T>)
    requires { vec_len rows.old < vec_capacity rows.old }
    ensures items { rows.new.items ≡ rows.old.items ++ option_to_list found }
    ensures len { vec_len rows.new ≤ vec_len rows.old + 1 }
    ensures room { vec_capacity rows.new ≡ vec_capacity rows.old }
{
    if let Some(row) = found {
        rows.push_reserved(row);
    }
}

/// Puts a copy of the record that was found at the end of the rows, which have room for it.
pub fn push_record<T: Copy + Drop, B: Allocator>(rows: &mut Vec<T, B>, found: Option<&T>)
    requires { vec_len rows.old < vec_capacity rows.old }
    ensures items { rows.new.items ≡ rows.old.items ++ option_to_list (option_copied found.entry) }
    ensures len { vec_len rows.new ≤ vec_len rows.old + 1 }
    ensures room { vec_capacity rows.new ≡ vec_capacity rows.old }
{
    if let Some(record) = found {
        rows.push_reserved(*record);
    }
}

/// The transfer with this timestamp, where its table has it, by what looked for others before it.
#[inline]
pub fn found_transfer<'r, A: Allocator, N: Naming>(
    transfers: &mut Finder<'r, Stored<Transfer>, A, N>,
    timestamp: u64,
) -> Option<&'r Transfer>
    ensures found { option_copied result ≡ stored_record (content_at (key_of 0 timestamp) transfers.old) }
    ensures same { transfers.new ≡ transfers.old }
{
    record_of(transfers.find(timestamp))
}

/// How many transfers are found before the first of them is copied. Each lies far from the others in memory, from which many
/// come at once where none is waited for.
pub const AHEAD: usize = 16;

/// The transfers with these timestamps, each in the place of its timestamp, where its table has it.
fn find_transfers<'r, A: Allocator, N: Naming>(
    transfers: &mut Finder<'r, Stored<Transfer>, A, N>,
    timestamps: &[u64],
) -> [Option<&'r Transfer>; AHEAD]
    requires { length timestamps.now ≤ 16 }
    ensures found { map option_copied (take (length timestamps.now) result) ≡ map (λ t. stored_record (content_at (key_of 0 t) transfers.old)) timestamps.now }
    ensures same { transfers.new ≡ transfers.old }
{
    let mut found = [None; AHEAD];
    for place in 0..timestamps.len() {
        found[place] = found_transfer(transfers, timestamps[place]);
    }
    found
}

/// Puts copies of the records that were found at the end of the rows, which have room for them.
pub fn push_records<T: Copy + Drop, B: Allocator>(rows: &mut Vec<T, B>, found: &[Option<&T>])
    requires { vec_len rows.old + length found.now ≤ vec_capacity rows.old }
    ensures items { rows.new.items ≡ rows.old.items ++ filter_map option_copied found.now }
    ensures len { vec_len rows.new ≤ vec_len rows.old + length found.now }
    ensures room { vec_capacity rows.new ≡ vec_capacity rows.old }
{
    for record in found {
        push_record(rows, *record);
    }
}

/// The transfers with these timestamps. Room for them is made once, and `NoMemory` is the only refusal.
pub fn transfers_at<A: Allocator, N: Naming, B: Allocator>(
    alloc: B,
    manifest: &Manifest<A, N>,
    timestamps: &[u64],
) -> Result<Vec<Transfer, B>, Refusal>
    ensures ok { IfOk result (λ rows. rows.items ≡ filter_map (transfer_in manifest.now) timestamps.now) }
    ensures room { IfOk result (λ rows. vec_capacity rows ≡ length timestamps.now) }
    ensures refusal { IfErr result (λ refusal. refusal ≡ Refusal.NoMemory) }
{
    let Ok(mut rows) = Vec::with_capacity(alloc, timestamps.len()) else {
        return Err(Refusal::NoMemory);
    };
    let mut transfers = Finder::new(manifest.transfers.row(0));
    let mut rest = timestamps;
    while !rest.is_empty() {
        let (part, others) = rest.split_at(rest.len().min(AHEAD));
        let found = find_transfers(&mut transfers, part);
        push_records(&mut rows, &found[..part.len()]);
        rest = others;
    }
    Ok(rows)
}

/// The accounts with these timestamps as answers show them, made as `transfers_at` makes its rows.
pub fn accounts_at<A: Allocator, N: Naming, B: Allocator>(
    alloc: B,
    manifest: &Manifest<A, N>,
    timestamps: &[u64],
) -> Result<Vec<Account, B>, Refusal>
    ensures ok { IfOk result (λ rows. rows.items ≡ filter_map (shown_in manifest.now) timestamps.now) }
    ensures room { IfOk result (λ rows. vec_capacity rows ≡ length timestamps.now) }
    ensures refusal { IfErr result (λ refusal. refusal ≡ Refusal.NoMemory) }
{
    let Ok(mut rows) = Vec::with_capacity(alloc, timestamps.len()) else {
        return Err(Refusal::NoMemory);
    };
    for timestamp in timestamps {
        push_found(&mut rows, account_at(manifest, *timestamp));
    }
    Ok(rows)
}
