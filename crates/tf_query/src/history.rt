//! The balances of an account in the past, read from a manifest that shows a journal.
ghost use Rattle.std.specs.Prelude.{◌≡◌, ◌≤◌, List, true, false, min, vec_capacity, IfErr, IfOk, IsOk};
ghost use Rattle.tf_journal.specs.declared.entry.Entry.{Entry};
ghost use Rattle.tf_journal.specs.Answer.{answer_max, history_of};
ghost use Rattle.tf_journal.specs.Filter.{is_valid_account_filter};
ghost use Rattle.tf_journal.specs.Lawful.{IsSound};
ghost use Rattle.tf_manifest.specs.Rows.{has_history};
ghost use Rattle.tf_manifest.specs.View.{ShowsJournal};
ghost use Rattle.tf_query.specs.History.{asks_whole_account, has_sums, history_at};
ghost use Rattle.tf_query.specs.Windows.{AreFirst, account_window};

use crate::balances::balances_at;
use crate::expected::Expected;
use crate::filters::account_timestamps;
use crate::scans::asks_no_field;
use crate::timestamps::timestamps_unless_refused;
use crate::window::Window;
use crate::{rows_find_ids, scans_answer_filters, sums_date_history};
use std::alloc::Allocator;
use tf_journal::{has_flag, is_valid_account_filter};
use tf_look_ups::stored_account;
use tf_manifest::Manifest;
use tf_records::{Account, AccountBalance, AccountFilter, Refusal};
use tf_registry::Naming;
use tf_scan::{Prefix, Scan};

/// Whether the account with this id is stored with history, in any journal that the manifest shows.
fn has_history<A: Allocator, N: Naming>(manifest: &Manifest<A, N>, id: u128) -> bool
    ensures { (journal : List Entry) → IsSound journal → ShowsJournal manifest.now journal → result ≡ has_history journal id }
{
    rows_find_ids();
    match stored_account(manifest, id) {
        Some(account) => has_flag(account.flags, Account::HISTORY),
        None => false,
    }
}

/// Whether a filter asks for both sides of its account, and for no field.
fn asks_whole_account(filter: &AccountFilter) -> bool
    ensures { result ≡ asks_whole_account filter.now }
{
    filter.flags & AccountFilter::DEBITS != 0
        && filter.flags & AccountFilter::CREDITS != 0
        && asks_no_field(filter)
}

/// The first timestamps in a filter's window, in its direction, at which the row of sums has something of its account. They
/// are read off that row alone, where the account's rows may be expected at places.
fn summed_timestamps<A: Allocator, N: Naming, B: Allocator + Copy>(
    alloc: B,
    manifest: &Manifest<A, N>,
    filter: &AccountFilter,
    expected: &[usize],
) -> Result<Vec<u64, B>, Refusal>
    ensures ok { IfOk result (λ timestamps. AreFirst (account_window filter.now) (has_sums manifest.now filter.now.account_id) timestamps.items) }
    ensures refusal { IfErr result (λ refusal. refusal ≡ Refusal.NoMemory) }
{
    let window = Window::of_account_filter(filter);
    let tables = manifest.sums.row(0);
    let sums = Prefix::expecting(tables, filter.account_id, window.direction, expected);
    timestamps_unless_refused(alloc, Scan::leaf(alloc, sums), &window)
}

/// The timestamps at which a valid filter asks for balances of its account, in its direction.
fn history_timestamps<A: Allocator, N: Naming, B: Allocator + Copy>(
    alloc: B,
    manifest: &Manifest<A, N>,
    filter: &AccountFilter,
    expected: &[usize],
) -> Result<Vec<u64, B>, Refusal>
    requires { is_valid_account_filter filter.now ≡ true }
    ensures ok { IfOk result (λ timestamps. AreFirst (account_window filter.now) (history_at manifest.now filter.now) timestamps.items) }
    ensures refusal { IfErr result (λ refusal. refusal ≡ Refusal.NoMemory) }
{
    if asks_whole_account(filter) {
        summed_timestamps(alloc, manifest, filter, expected)
    } else {
        account_timestamps(alloc, manifest, filter)
    }
}

/// The balances of an account right after the transfers that a filter asks for, in any journal that the manifest shows.
pub fn account_history<A: Allocator, N: Naming, B: Allocator + Copy>(
    alloc: B,
    manifest: &Manifest<A, N>,
    filter: &AccountFilter,
) -> Result<Vec<AccountBalance, B>, Refusal>
    ensures ok { (journal : List Entry) → IsSound journal → ShowsJournal manifest.now journal → IfOk result (λ rows. rows.items ≡ history_of journal filter.now) }
    ensures room { IfOk result (λ rows. vec_capacity rows ≤ min filter.now.limit answer_max) }
    ensures refusal { IfErr result (λ refusal. refusal ≡ Refusal.NoMemory) }
    ensures invalid { is_valid_account_filter filter.now ≡ false → IsOk result }
{
    if !is_valid_account_filter(filter) {
        return Ok(Vec::new(alloc));
    }
    if !has_history(manifest, filter.account_id) {
        return Ok(Vec::new(alloc));
    }
    sums_date_history();
    scans_answer_filters();
    let window = Window::of_account_filter(filter);
    let expected = Expected::by(&window, manifest.sums.row(0), filter.account_id);
    let expected = expected.as_slice();
    match history_timestamps(alloc, manifest, filter, expected) {
        Ok(timestamps) => balances_at(
            alloc,
            manifest,
            filter.account_id,
            window.direction,
            expected,
            timestamps.as_slice(),
        ),
        Err(refusal) => Err(refusal),
    }
}
