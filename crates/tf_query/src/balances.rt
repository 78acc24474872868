//! The balances of an account in the past, by the row of sums.
ghost use Rattle.std.specs.Prelude.{◌≡◌, ◌+◌, ◌<◌, ◌≤◌, ◌++◌, filter_map, length, vec_capacity, vec_len, IfErr, IfOk};
ghost use Rattle.std.specs.Option.{option_copied, option_map, option_to_list};
ghost use Rattle.tf_registry.specs.Row.{content_at};
ghost use Rattle.tf_manifest.specs.Rows.{key_of};
ghost use Rattle.tf_look_ups.specs.Reads.{balance_by, balance_in, stored_record};

use crate::walk::Walk;
use std::alloc::Allocator;
use tf_look_ups::{key_of, record_of};
use tf_manifest::{Manifest, Stored};
use tf_records::{AccountBalance, Refusal, Sums};
use tf_registry::Naming;
use tf_scan::Direction;

/// The sums of an account right after the transfer with this timestamp, where their table has them, by what looked for those
/// before them.
fn found_sums<'r, A: Allocator, N: Naming>(
    sums: &mut Walk<'r, Stored<Sums>, A, N>,
    account_id: u128,
    timestamp: u64,
) -> Option<&'r Sums>
    ensures found { option_copied result ≡ stored_record (content_at (key_of account_id timestamp) sums.old) }
    ensures same { sums.new ≡ sums.old }
{
    record_of(sums.find(&key_of(account_id, timestamp)))
}

/// The balance of an account that has these sums right after the transfer with this timestamp.
#[inline]
fn balance_of(timestamp: u64, sums: &Sums) -> AccountBalance
    ensures { result ≡ balance_by timestamp sums.now }
{
    AccountBalance {
        debits_pending: sums.debits_pending,
        debits_posted: sums.debits_posted,
        credits_pending: sums.credits_pending,
        credits_posted: sums.credits_posted,
        timestamp,
        reserved: [0; 56],
    }
}

/// Puts the balance by the sums that were found at the end of the rows, which have room for it.
fn push_balance<B: Allocator>(
    rows: &mut Vec<AccountBalance, B>,
    timestamp: u64,
    found: Option<&Sums>,
)
    requires { vec_len rows.old < vec_capacity rows.old }
    ensures items { rows.new.items ≡ rows.old.items ++ option_to_list (option_map (balance_by timestamp) (option_copied found.entry)) }
    ensures len { vec_len rows.new ≤ vec_len rows.old + 1 }
    ensures room { vec_capacity rows.new ≡ vec_capacity rows.old }
{
    if let Some(sums) = found {
        rows.push_reserved(balance_of(timestamp, sums));
    }
}

/// The balances of an account right after the transfers with these timestamps. Room for them is made once, and `NoMemory` is
/// the only refusal.
///
/// Where the timestamps come in this direction, each that stands in one table with the one before it costs no more than a
/// look at the next row. The first of them in a table costs a few where the account's rows are expected at the right place.
pub fn balances_at<A: Allocator, N: Naming, B: Allocator>(
    alloc: B,
    manifest: &Manifest<A, N>,
    account_id: u128,
    direction: Direction,
    expected: &[usize],
    timestamps: &[u64],
) -> Result<Vec<AccountBalance, B>, Refusal>
    ensures ok { IfOk result (λ rows. rows.items ≡ filter_map (balance_in manifest.now account_id) timestamps.now) }
    ensures room { IfOk result (λ rows. vec_capacity rows ≡ length timestamps.now) }
    ensures refusal { IfErr result (λ refusal. refusal ≡ Refusal.NoMemory) }
{
    let Ok(mut rows) = Vec::with_capacity(alloc, timestamps.len()) else {
        return Err(Refusal::NoMemory);
    };
    let mut sums = Walk::new(manifest.sums.row(0), direction, expected);
    for timestamp in timestamps {
        let found = found_sums(&mut sums, account_id, *timestamp);
        push_balance(&mut rows, *timestamp, found);
    }
    Ok(rows)
}
