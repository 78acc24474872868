//! Look-ups of ids, read from a manifest that shows a journal.
ghost use Rattle.std.specs.Prelude.{◌≡◌, List, Err, Ok, length, vec_capacity, IfErr, IfOk, MatchOption};
ghost use Rattle.tf_journal.specs.declared.entry.Entry.{Entry};
ghost use Rattle.tf_journal.specs.Answer.{lookup_refusal, looked_up_accounts, looked_up_transfers};
ghost use Rattle.tf_journal.specs.Lawful.{IsSound};
ghost use Rattle.tf_manifest.specs.View.{ShowsJournal};

use crate::rows_find_ids;
use std::alloc::Allocator;
use tf_look_ups::{accounts_under_ids, transfers_under_ids};
use tf_manifest::Manifest;
use tf_records::{Account, BATCH_MAX, Refusal, Transfer};
use tf_registry::Naming;

/// Refuses too many ids of a look-up.
fn check_count(ids: &[u128]) -> Result<(), Refusal>
    ensures { MatchOption (lookup_refusal (length ids.now)) (result ≡ Ok tt) (λ refusal. result ≡ Err refusal) }
{
    if ids.len() > BATCH_MAX as usize {
        return Err(Refusal::BatchTooLarge);
    }
    Ok(())
}

/// The accounts with these ids as answers show them, in any journal that the manifest shows.
pub fn accounts_with_ids<A: Allocator, N: Naming, B: Allocator>(
    alloc: B,
    manifest: &Manifest<A, N>,
    ids: &[u128],
) -> Result<Vec<Account, B>, Refusal>
    ensures ok { (journal : List Entry) → IsSound journal → ShowsJournal manifest.now journal → IfOk result (λ rows. rows.items ≡ looked_up_accounts journal ids.now) }
    ensures room { IfOk result (λ rows. vec_capacity rows ≡ length ids.now) }
    ensures refused { MatchOption (lookup_refusal (length ids.now))
        (IfErr result (λ refusal. refusal ≡ Refusal.NoMemory)) (λ refusal. result ≡ Err refusal) }
{
    match check_count(ids) {
        Ok(()) => {
            rows_find_ids();
            accounts_under_ids(alloc, manifest, ids)
        }
        Err(refusal) => Err(refusal),
    }
}

/// The transfers with these ids, in any journal that the manifest shows.
pub fn transfers_with_ids<A: Allocator, N: Naming, B: Allocator + Copy>(
    alloc: B,
    manifest: &Manifest<A, N>,
    ids: &[u128],
) -> Result<Vec<Transfer, B>, Refusal>
    ensures ok { (journal : List Entry) → IsSound journal → ShowsJournal manifest.now journal → IfOk result (λ rows. rows.items ≡ looked_up_transfers journal ids.now) }
    ensures room { IfOk result (λ rows. vec_capacity rows ≡ length ids.now) }
    ensures refused { MatchOption (lookup_refusal (length ids.now))
        (IfErr result (λ refusal. refusal ≡ Refusal.NoMemory)) (λ refusal. result ≡ Err refusal) }
{
    match check_count(ids) {
        Ok(()) => {
            rows_find_ids();
            transfers_under_ids(alloc, manifest, ids)
        }
        Err(refusal) => Err(refusal),
    }
}
