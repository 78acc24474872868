//! The answers of filters, read from a manifest that shows a journal.
ghost use Rattle.std.specs.Prelude.{◌≡◌, ◌≤◌, List, true, false, is_some, min, vec_capacity, IfErr, IfOk, IsOk};
ghost use Rattle.tf_journal.specs.declared.entry.Entry.{Entry};
ghost use Rattle.tf_journal.specs.Answer.{account_transfers_of, answer_max, found_accounts_of, found_transfers_of};
ghost use Rattle.tf_journal.specs.Filter.{is_valid_account_filter, is_valid_query_filter};
ghost use Rattle.tf_journal.specs.Lawful.{IsSound};
ghost use Rattle.tf_registry.specs.Row.{content_at};
ghost use Rattle.tf_manifest.specs.Rows.{key_of};
ghost use Rattle.tf_manifest.specs.View.{ShowsJournal};
ghost use Rattle.tf_query.specs.Asked.{account_fields_at, account_filter_at, transfer_fields_at};
ghost use Rattle.tf_query.specs.Conditions.{fields_at};
ghost use Rattle.tf_look_ups.specs.Reads.{transfer_in};
ghost use Rattle.tf_query.specs.Residual.{AreFirstPassing, account_lead, account_residual, query_lead, query_residual};
ghost use Rattle.tf_query.specs.Windows.{AreFirst, AreOfFirst, account_window, query_window};

use crate::condition::{Condition, account_conditions, transfer_conditions};
use crate::laws::leads_answer_filters;
use crate::leading::{tested_of_account_filter, tested_of_query_filter};
use crate::passing::passing_within;
use crate::residual::{Residual, Tested, account_lead, query_lead};
use crate::scans::{account_scan, narrowed, object_scan};
use crate::scans_answer_filters;
use crate::timestamps::{few_within, timestamps_unless_refused, timestamps_within};
use crate::window::{FEW, Window};
use std::alloc::Allocator;
use tf_journal::{is_valid_account_filter, is_valid_query_filter};
use tf_look_ups::{accounts_at, transfers_at};
use tf_manifest::{Manifest, RowValue};
use tf_records::{Account, AccountFilter, QueryFilter, Refusal, Transfer};
use tf_registry::{Naming, Tables};

/// The timestamps of the transfers that a valid filter of an account's transfers asks for, in its direction.
pub fn account_timestamps<A: Allocator, N: Naming, B: Allocator + Copy>(
    alloc: B,
    manifest: &Manifest<A, N>,
    filter: &AccountFilter,
) -> Result<Vec<u64, B>, Refusal>
    requires { is_valid_account_filter filter.now ≡ true }
    ensures ok { IfOk result (λ timestamps. AreFirst (account_window filter.now) (account_filter_at manifest.now filter.now) timestamps.items) }
    ensures refusal { IfErr result (λ refusal. refusal ≡ Refusal.NoMemory) }
{
    let window = Window::of_account_filter(filter);
    let scan = account_scan(alloc, manifest, &window, filter);
    timestamps_unless_refused(alloc, scan, &window)
}

/// The first timestamps in a window of all records of a kind, by the row that has them.
fn object_timestamps<V: RowValue, A: Allocator, N: Naming, B: Allocator + Copy>(
    alloc: B,
    objects: &Tables<V, A, N>,
    window: &Window,
) -> Result<Vec<u64, B>, Refusal>
    ensures ok { IfOk result (λ timestamps. AreFirst window.now (λ t. is_some (content_at (key_of 0 t) objects.now)) timestamps.items) }
    ensures refusal { IfErr result (λ refusal. refusal ≡ Refusal.NoMemory) }
{
    let scan = object_scan(alloc, objects, window.direction);
    timestamps_unless_refused(alloc, scan, window)
}

/// The first timestamps in a window of the records of a kind that meet conditions; of all of them, by the row that has them, where
/// nothing is asked for.
fn field_timestamps<V: RowValue, A: Allocator, N: Naming, B: Allocator + Copy>(
    alloc: B,
    manifest: &Manifest<A, N>,
    objects: &Tables<V, A, N>,
    window: &Window,
    conditions: &[Condition],
) -> Result<Vec<u64, B>, Refusal>
    ensures ok { IfOk result (λ timestamps. AreFirst window.now (fields_at manifest.now objects.now conditions.now) timestamps.items) }
    ensures refusal { IfErr result (λ refusal. refusal ≡ Refusal.NoMemory) }
{
    match narrowed(alloc, manifest, window, None, conditions) {
        Ok(Some(scan)) => timestamps_within(alloc, scan, window),
        Ok(None) => object_timestamps(alloc, objects, window),
        Err(refusal) => Err(refusal),
    }
}

/// The timestamps of the transfers that a valid filter asks for, in its direction.
fn transfer_timestamps<A: Allocator, N: Naming, B: Allocator + Copy>(
    alloc: B,
    manifest: &Manifest<A, N>,
    filter: &QueryFilter,
) -> Result<Vec<u64, B>, Refusal>
    ensures ok { IfOk result (λ timestamps. AreFirst (query_window filter.now) (transfer_fields_at manifest.now filter.now) timestamps.items) }
    ensures refusal { IfErr result (λ refusal. refusal ≡ Refusal.NoMemory) }
{
    let window = Window::of_query_filter(filter);
    let transfers = manifest.transfers.row(0);
    field_timestamps(
        alloc,
        manifest,
        transfers,
        &window,
        &transfer_conditions(filter),
    )
}

/// The timestamps of the accounts that a valid filter asks for, in its direction.
fn found_account_timestamps<A: Allocator, N: Naming, B: Allocator + Copy>(
    alloc: B,
    manifest: &Manifest<A, N>,
    filter: &QueryFilter,
) -> Result<Vec<u64, B>, Refusal>
    ensures ok { IfOk result (λ timestamps. AreFirst (query_window filter.now) (account_fields_at manifest.now filter.now) timestamps.items) }
    ensures refusal { IfErr result (λ refusal. refusal ≡ Refusal.NoMemory) }
{
    let window = Window::of_query_filter(filter);
    let accounts = manifest.accounts.row(0);
    field_timestamps(
        alloc,
        manifest,
        accounts,
        &window,
        &account_conditions(filter),
    )
}

/// The transfers that a valid filter of an account's transfers asks for, each of which was tested for what is left to be. It
/// isn't inlined, so that a query that tests nothing has no room to make for its parts.
#[inline(never)]
fn tested_account_transfers<A: Allocator, N: Naming, B: Allocator + Copy>(
    alloc: B,
    manifest: &Manifest<A, N>,
    filter: &AccountFilter,
    tested: Tested,
) -> Result<Vec<Transfer, B>, Refusal>
    requires { is_valid_account_filter filter.now ≡ true }
    ensures ok { IfOk result (λ rows. AreFirstPassing manifest.now (account_residual tested filter.now) (account_window filter.now) (account_filter_at manifest.now (account_lead tested filter.now)) rows.items) }
    ensures room { IfOk result (λ rows. vec_capacity rows ≤ min filter.now.limit answer_max) }
    ensures refusal { IfErr result (λ refusal. refusal ≡ Refusal.NoMemory) }
{
    let window = Window::of_account_filter(filter);
    let residual = Residual::of_account_filter(tested, filter);
    let lead = account_lead(tested, filter);
    match account_scan(alloc, manifest, &window, &lead) {
        Ok(scan) => passing_within(alloc, manifest, &residual, scan, &window),
        Err(refusal) => Err(refusal),
    }
}

/// The first of all transfers in a window that pass.
fn passing_objects<A: Allocator, N: Naming, B: Allocator + Copy>(
    alloc: B,
    manifest: &Manifest<A, N>,
    residual: &Residual,
    window: &Window,
) -> Result<Vec<Transfer, B>, Refusal>
    ensures ok { IfOk result (λ rows. AreFirstPassing manifest.now residual.now window.now (λ t. is_some (transfer_in manifest.now t)) rows.items) }
    ensures room { IfOk result (λ rows. vec_capacity rows ≤ window.now.most) }
    ensures refusal { IfErr result (λ refusal. refusal ≡ Refusal.NoMemory) }
{
    match object_scan(alloc, manifest.transfers.row(0), window.direction) {
        Ok(scan) => passing_within(alloc, manifest, residual, scan, window),
        Err(refusal) => Err(refusal),
    }
}

/// The transfers that a valid filter asks for, each of which was tested for what is left to be. Nor is this inlined.
#[inline(never)]
fn tested_transfers<A: Allocator, N: Naming, B: Allocator + Copy>(
    alloc: B,
    manifest: &Manifest<A, N>,
    filter: &QueryFilter,
    tested: Tested,
) -> Result<Vec<Transfer, B>, Refusal>
    ensures ok { IfOk result (λ rows. AreFirstPassing manifest.now (query_residual tested filter.now) (query_window filter.now) (transfer_fields_at manifest.now (query_lead tested filter.now)) rows.items) }
    ensures room { IfOk result (λ rows. vec_capacity rows ≤ min filter.now.limit answer_max) }
    ensures refusal { IfErr result (λ refusal. refusal ≡ Refusal.NoMemory) }
{
    let window = Window::of_query_filter(filter);
    let residual = Residual::of_query_filter(tested, filter);
    match narrowed(
        alloc,
        manifest,
        &window,
        None,
        &transfer_conditions(&query_lead(tested, filter)),
    ) {
        Ok(Some(scan)) => passing_within(alloc, manifest, &residual, scan, &window),
        Ok(None) => passing_objects(alloc, manifest, &residual, &window),
        Err(refusal) => Err(refusal),
    }
}

/// The transfers of an account that a filter asks for, in any journal that the manifest shows.
pub fn account_transfers<A: Allocator, N: Naming, B: Allocator + Copy>(
    alloc: B,
    manifest: &Manifest<A, N>,
    filter: &AccountFilter,
) -> Result<Vec<Transfer, B>, Refusal>
    ensures ok { (journal : List Entry) → IsSound journal → ShowsJournal manifest.now journal → IfOk result (λ rows. rows.items ≡ account_transfers_of journal filter.now) }
    ensures room { IfOk result (λ rows. vec_capacity rows ≤ min filter.now.limit answer_max) }
    ensures refusal { IfErr result (λ refusal. refusal ≡ Refusal.NoMemory) }
    ensures invalid { is_valid_account_filter filter.now ≡ false → IsOk result }
{
    if !is_valid_account_filter(filter) {
        return Ok(Vec::new(alloc));
    }
    let tested = tested_of_account_filter(manifest, filter);
    if tested.code {
        leads_answer_filters();
        return tested_account_transfers(alloc, manifest, filter, tested);
    }
    scans_answer_filters();
    scanned_account_transfers(alloc, manifest, filter)
}

/// The transfers at the timestamps that a scan gives for a valid filter of an account's transfers. A few need no memory of their own.
fn scanned_account_transfers<A: Allocator, N: Naming, B: Allocator + Copy>(
    alloc: B,
    manifest: &Manifest<A, N>,
    filter: &AccountFilter,
) -> Result<Vec<Transfer, B>, Refusal>
    requires { is_valid_account_filter filter.now ≡ true }
    ensures ok { IfOk result (λ rows. AreOfFirst (transfer_in manifest.now) (account_window filter.now) (account_filter_at manifest.now filter.now) rows.items) }
    ensures room { IfOk result (λ rows. vec_capacity rows ≤ min filter.now.limit answer_max) }
    ensures refusal { IfErr result (λ refusal. refusal ≡ Refusal.NoMemory) }
{
    if filter.limit <= FEW {
        few_account_transfers(alloc, manifest, filter)
    } else {
        many_account_transfers(alloc, manifest, filter)
    }
}

/// The transfers that a valid filter of an account's transfers asks for, at timestamps for which room is made.
fn many_account_transfers<A: Allocator, N: Naming, B: Allocator + Copy>(
    alloc: B,
    manifest: &Manifest<A, N>,
    filter: &AccountFilter,
) -> Result<Vec<Transfer, B>, Refusal>
    requires { is_valid_account_filter filter.now ≡ true }
    ensures ok { IfOk result (λ rows. AreOfFirst (transfer_in manifest.now) (account_window filter.now) (account_filter_at manifest.now filter.now) rows.items) }
    ensures room { IfOk result (λ rows. vec_capacity rows ≤ min filter.now.limit answer_max) }
    ensures refusal { IfErr result (λ refusal. refusal ≡ Refusal.NoMemory) }
{
    match account_timestamps(alloc, manifest, filter) {
        Ok(timestamps) => transfers_at(alloc, manifest, timestamps.as_slice()),
        Err(refusal) => Err(refusal),
    }
}

/// The same for a filter that asks for a few at most: no room is made for their timestamps.
fn few_account_transfers<A: Allocator, N: Naming, B: Allocator + Copy>(
    alloc: B,
    manifest: &Manifest<A, N>,
    filter: &AccountFilter,
) -> Result<Vec<Transfer, B>, Refusal>
    requires valid { is_valid_account_filter filter.now ≡ true }
    requires few { filter.now.limit ≤ 32 }
    ensures ok { IfOk result (λ rows. AreOfFirst (transfer_in manifest.now) (account_window filter.now) (account_filter_at manifest.now filter.now) rows.items) }
    ensures room { IfOk result (λ rows. vec_capacity rows ≤ min filter.now.limit answer_max) }
    ensures refusal { IfErr result (λ refusal. refusal ≡ Refusal.NoMemory) }
{
    let window = Window::of_account_filter(filter);
    match account_scan(alloc, manifest, &window, filter) {
        Ok(scan) => {
            let mut part = [0; FEW as usize];
            let count = few_within(scan, &window, &mut part);
            transfers_at(alloc, manifest, &part[..count])
        }
        Err(refusal) => Err(refusal),
    }
}

/// The transfers that a filter asks for, in any journal that the manifest shows.
pub fn found_transfers<A: Allocator, N: Naming, B: Allocator + Copy>(
    alloc: B,
    manifest: &Manifest<A, N>,
    filter: &QueryFilter,
) -> Result<Vec<Transfer, B>, Refusal>
    ensures ok { (journal : List Entry) → IsSound journal → ShowsJournal manifest.now journal → IfOk result (λ rows. rows.items ≡ found_transfers_of journal filter.now) }
    ensures room { IfOk result (λ rows. vec_capacity rows ≤ min filter.now.limit answer_max) }
    ensures refusal { IfErr result (λ refusal. refusal ≡ Refusal.NoMemory) }
    ensures invalid { is_valid_query_filter filter.now ≡ false → IsOk result }
{
    if !is_valid_query_filter(filter) {
        return Ok(Vec::new(alloc));
    }
    let tested = tested_of_query_filter(manifest, filter);
    if tested.ledger || tested.code {
        leads_answer_filters();
        return tested_transfers(alloc, manifest, filter, tested);
    }
    scans_answer_filters();
    match transfer_timestamps(alloc, manifest, filter) {
        Ok(timestamps) => transfers_at(alloc, manifest, timestamps.as_slice()),
        Err(refusal) => Err(refusal),
    }
}

/// The accounts that a filter asks for, as answers show them, in any journal that the manifest shows.
pub fn found_accounts<A: Allocator, N: Naming, B: Allocator + Copy>(
    alloc: B,
    manifest: &Manifest<A, N>,
    filter: &QueryFilter,
) -> Result<Vec<Account, B>, Refusal>
    ensures ok { (journal : List Entry) → IsSound journal → ShowsJournal manifest.now journal → IfOk result (λ rows. rows.items ≡ found_accounts_of journal filter.now) }
    ensures room { IfOk result (λ rows. vec_capacity rows ≤ min filter.now.limit answer_max) }
    ensures refusal { IfErr result (λ refusal. refusal ≡ Refusal.NoMemory) }
    ensures invalid { is_valid_query_filter filter.now ≡ false → IsOk result }
{
    if !is_valid_query_filter(filter) {
        return Ok(Vec::new(alloc));
    }
    scans_answer_filters();
    match found_account_timestamps(alloc, manifest, filter) {
        Ok(timestamps) => accounts_at(alloc, manifest, timestamps.as_slice()),
        Err(refusal) => Err(refusal),
    }
}
