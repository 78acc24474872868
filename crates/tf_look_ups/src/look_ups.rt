//! Look-ups of ids in a manifest's tables.
ghost use Rattle.std.specs.Prelude.{◌≡◌, ◌≤◌, filter_map, length, map, take, vec_capacity, IfErr, IfOk, IfSome};
ghost use Rattle.std.specs.Option.{option_and_then, option_copied, option_flatten};
ghost use Rattle.tf_look_ups.specs.Reads.{account_in, account_stamp_in, id_lists, shown_in, stamp_by, stored_record, stored_stamp, transfer_in, transfer_stamp_in};

use crate::at_once::{entries_at_stamps, entries_of_values};
use crate::gapped::{GappedTable, entry_in_gapped, gapped};
use crate::reads::{AHEAD, account_at, key_of, push_found, push_records, stored_account_at};
use std::alloc::Allocator;
use tf_manifest::{IdStamp, Manifest, Stored};
use tf_records::{Account, Refusal, Transfer};
use tf_registry::Naming;

/// The timestamp of the account with this id.
fn account_stamp<A: Allocator, N: Naming>(manifest: &Manifest<A, N>, id: u128) -> Option<u64>
    ensures { result ≡ account_stamp_in manifest.now id }
{
    manifest.stamps.row(0).find(&key_of(id, 0)).copied()
}

/// The account with this id, as it was stored, where its table has it: two look-ups in rows.
pub fn stored_account<'r, A: Allocator, N: Naming>(
    manifest: &'r Manifest<A, N>,
    id: u128,
) -> Option<&'r Account>
    ensures { option_copied result ≡ option_and_then (account_in manifest.now) (account_stamp_in manifest.now id) }
{
    match account_stamp(manifest, id) {
        Some(timestamp) => stored_account_at(manifest, timestamp),
        None => None,
    }
}

/// The account with this id as answers show it: three look-ups in rows.
fn account<A: Allocator, N: Naming>(manifest: &Manifest<A, N>, id: u128) -> Option<Account>
    ensures { result ≡ option_and_then (shown_in manifest.now) (account_stamp_in manifest.now id) }
{
    match account_stamp(manifest, id) {
        Some(timestamp) => account_at(manifest, timestamp),
        None => None,
    }
}

/// The timestamp in an entry of an id, if a transfer is stored with the id.
#[inline]
fn stamp_of(found: Option<&Option<IdStamp>>) -> Option<u64>
    ensures { result ≡ option_and_then stored_stamp (option_flatten (option_copied found.entry)) }
{
    match found {
        Some(Some(IdStamp::Stored(timestamp))) => Some(*timestamp),
        _ => None,
    }
}

/// Whether no id is below the one before it.
fn are_rising(ids: &[u128]) -> bool {
    let mut last = 0;
    for id in ids {
        if *id < last {
            return false;
        }
        last = *id;
    }
    true
}

/// The timestamps of the transfers with these ids, each in the place of its id, by searches that take turns.
fn stamps_at_once<A: Allocator, N: Naming>(
    manifest: &Manifest<A, N>,
    ids: &[u128],
) -> [Option<u64>; AHEAD]
    requires { length ids.now ≤ 16 }
    ensures { take (length ids.now) result ≡ map (transfer_stamp_in manifest.now) ids.now }
{
    let entries = entries_of_values(manifest.ids.row(0).references(), ids);
    let mut stamps = [None; AHEAD];
    for place in 0..ids.len() {
        stamps[place] = stamp_of(entries[place]);
    }
    stamps
}

/// Tables of ids that remember what they don't have.
type IdTables<'r, A, B> = Vec<GappedTable<'r, IdStamp, A>, B>;

/// The tables of the ids of transfers, where these ids rise and are more than are looked up at once. `NoMemory` is the only refusal.
fn tables_of_rising<'r, A: Allocator, N: Naming, B: Allocator>(
    alloc: B,
    manifest: &'r Manifest<A, N>,
    ids: &[u128],
) -> Result<Option<IdTables<'r, A, B>>, Refusal>
    ensures ok { IfOk result (λ tables. IfSome tables (λ t. t.items ≡ id_lists manifest.now)) }
    ensures refusal { IfErr result (λ refusal. refusal ≡ Refusal.NoMemory) }
{
    if ids.len() <= AHEAD || !are_rising(ids) {
        return Ok(None);
    }
    match gapped(alloc, manifest.ids.row(0).references()) {
        Ok(tables) => Ok(Some(tables)),
        Err(refusal) => Err(refusal),
    }
}

/// The timestamps of the transfers with these ids, each in the place of its id, by one look-up after another in tables of ids.
fn stamps_one_by_one<A: Allocator>(
    tables: &mut [GappedTable<'_, IdStamp, A>],
    ids: &[u128],
) -> [Option<u64>; AHEAD]
    requires { length ids.now ≤ 16 }
    ensures found { take (length ids.now) result ≡ map (stamp_by tables.old) ids.now }
    ensures same { tables.new ≡ tables.old }
{
    let mut stamps = [None; AHEAD];
    for place in 0..ids.len() {
        stamps[place] = stamp_of(entry_in_gapped(tables, ids[place]));
    }
    stamps
}

/// The timestamps of the transfers with these ids, each in the place of its id: in the tables of ids, if there are any, and else by
/// searches that take turns.
fn transfer_stamps<A: Allocator, N: Naming, B: Allocator>(
    manifest: &Manifest<A, N>,
    tables: &mut Option<IdTables<'_, A, B>>,
    ids: &[u128],
) -> [Option<u64>; AHEAD]
    requires ids { length ids.now ≤ 16 }
    requires tables { IfSome tables.old (λ t. t.items ≡ id_lists manifest.now) }
    ensures found { take (length ids.now) result ≡ map (transfer_stamp_in manifest.now) ids.now }
    ensures tables { IfSome tables.new (λ t. t.items ≡ id_lists manifest.now) }
{
    match tables {
        Some(tables) => stamps_one_by_one(tables.as_mut_slice(), ids),
        None => stamps_at_once(manifest, ids),
    }
}

/// The transfer in an entry, if there is one.
#[inline]
fn transfer_of<'r>(found: Option<&'r Option<Stored<Transfer>>>) -> Option<&'r Transfer>
    ensures { option_copied result ≡ stored_record (option_flatten (option_copied found.entry)) }
{
    match found {
        Some(Some(stored)) => Some(&stored.record),
        _ => None,
    }
}

/// The transfers with these ids, each in the place of its id, where its table has it: two look-ups in rows for each of them.
///
/// The entries of all ids are found before the first of them is read, and so it is with the transfers, so that many come from
/// far memory at once.
fn transfers_ahead<'r, A: Allocator, N: Naming, B: Allocator>(
    manifest: &'r Manifest<A, N>,
    tables: &mut Option<IdTables<'r, A, B>>,
    ids: &[u128],
) -> [Option<&'r Transfer>; AHEAD]
    requires ids { length ids.now ≤ 16 }
    requires tables { IfSome tables.old (λ t. t.items ≡ id_lists manifest.now) }
    ensures tables { IfSome tables.new (λ t. t.items ≡ id_lists manifest.now) }
    ensures found { map option_copied (take (length ids.now) result) ≡ map (λ id. option_and_then (transfer_in manifest.now) (transfer_stamp_in manifest.now id)) ids.now }
{
    let stamps = transfer_stamps(manifest, tables, ids);
    let entries = entries_at_stamps(manifest.transfers.row(0).references(), &stamps[..ids.len()]);
    let mut found = [None; AHEAD];
    for place in 0..ids.len() {
        found[place] = transfer_of(entries[place]);
    }
    found
}

/// The accounts with these ids as answers show them, in the order of the ids: three look-ups in rows for each. An id under which
/// nothing is stored gives none. Room for them is made once, and `NoMemory` is the only refusal.
pub fn accounts_under_ids<A: Allocator, N: Naming, B: Allocator>(
    alloc: B,
    manifest: &Manifest<A, N>,
    ids: &[u128],
) -> Result<Vec<Account, B>, Refusal>
    ensures ok { IfOk result (λ rows. rows.items ≡ filter_map (λ id. option_and_then (shown_in manifest.now) (account_stamp_in manifest.now id)) ids.now) }
    ensures room { IfOk result (λ rows. vec_capacity rows ≡ length ids.now) }
    ensures refusal { IfErr result (λ refusal. refusal ≡ Refusal.NoMemory) }
{
    let Ok(mut rows) = Vec::with_capacity(alloc, ids.len()) else {
        return Err(Refusal::NoMemory);
    };
    for id in ids {
        push_found(&mut rows, account(manifest, *id));
    }
    Ok(rows)
}

/// The transfers with these ids, in the order of the ids: two look-ups in rows for each. An id under which nothing is stored gives
/// none. Room for them is made once, and once for tables of ids where many rise. `NoMemory` is the only refusal.
pub fn transfers_under_ids<A: Allocator, N: Naming, B: Allocator + Copy>(
    alloc: B,
    manifest: &Manifest<A, N>,
    ids: &[u128],
) -> Result<Vec<Transfer, B>, Refusal>
    ensures ok { IfOk result (λ rows. rows.items ≡ filter_map (λ id. option_and_then (transfer_in manifest.now) (transfer_stamp_in manifest.now id)) ids.now) }
    ensures room { IfOk result (λ rows. vec_capacity rows ≡ length ids.now) }
    ensures refusal { IfErr result (λ refusal. refusal ≡ Refusal.NoMemory) }
{
    let Ok(mut rows) = Vec::with_capacity(alloc, ids.len()) else {
        return Err(Refusal::NoMemory);
    };
    let Ok(mut tables) = tables_of_rising(alloc, manifest, ids) else {
        return Err(Refusal::NoMemory);
    };
    let mut rest = ids;
    while !rest.is_empty() {
        let (part, others) = rest.split_at(rest.len().min(AHEAD));
        let found = transfers_ahead(manifest, &mut tables, part);
        push_records(&mut rows, &found[..part.len()]);
        rest = others;
    }
    Ok(rows)
}
