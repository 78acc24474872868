//! Entries added to rows.
ghost use Rattle.std.specs.Prelude.{◌≡◌, ◌++◌, ◌∷◌, [], List, IfErr, OnOk, OnErr};
ghost use Rattle.tf_journal.specs.declared.entry.Entry.{Entry};
ghost use Rattle.tf_journal.specs.Lawful.{IsSound};
ghost use Rattle.tf_journal.specs.Ledger.{CanGrow};
ghost use Rattle.tf_manifest.specs.Shows.{Shows};
ghost use Rattle.tf_rows.specs.Changes.{CanChangeAll, all_changed, present};
ghost use Rattle.tf_rows.specs.Edits.{found_for, nothing_found};
ghost use Rattle.tf_rows.specs.Next.{changes_by, content_in};
ghost use Rattle.tf_rows.specs.Range.{LeavesInRange};
ghost use Rattle.tf_rows.specs.Packed.{AreAdded};

use crate::accounts::account_changes;
use crate::expiries::expiry_changes;
use crate::row_change::put;
use crate::transfers::add_transfer;
use crate::{Change, Found, RowSet, Steps, make_changes, rows_show_the_next_entry};
use std::alloc::Allocator;
use tf_journal::Entry;
use tf_manifest::{Row, Value};
use tf_records::Refusal;

/// What a failed id changes.
fn failed_changes(timestamp: u64, id: u128) -> [Option<Change>; 1]
    ensures { present result ≡ changes_by nothing_found (Entry.Failed timestamp id) }
{
    [put(Row::TransferIds, id, 0, Value::FailedAt(timestamp))]
}

/// Adds an entry to rows that show a journal which admits it, by what was looked up for it, and puts the steps that take it
/// back behind others.
///
/// The sums of its accounts are in range afterwards: `entries_leave_sums_in_range` says so of what a journal that admits
/// it has. The only refusal is `NoMemory`, and all is then as it was. A key of a row is written once.
pub fn add_entry<S: RowSet, A: Allocator>(
    rows: &mut S,
    steps: &mut Steps<A>,
    found: &Found,
    entry: &Entry,
) -> Result<(), Refusal>
    requires range { LeavesInRange found.now entry.now }
    requires can { CanChangeAll S.has_row S.fits S.takes_any (changes_by found.now entry.now) (S.parts rows.old) }
    ensures shows { (journal : List Entry) → IsSound journal → CanGrow journal entry.now → found.now ≡ found_for journal entry.now → Shows (content_in (S.parts rows.old)) journal → OnOk result (Shows (content_in (S.parts rows.new)) (journal ++ entry.now ∷ [])) }
    ensures rows { OnOk result (S.parts rows.new ≡ all_changed (changes_by found.now entry.now) (S.parts rows.old)) }
    ensures steps { OnOk result (AreAdded S.has_row S.fits S.takes_any steps.old steps.new (S.parts rows.old) (S.parts rows.new)) }
    ensures sealed { S.sealed rows.new ≡ S.sealed rows.old }
    ensures err { OnErr result ((S.parts rows.new ≡ S.parts rows.old) × (steps.new ≡ steps.old)) }
    ensures refusal { IfErr result (λ refusal. refusal ≡ Refusal.NoMemory) }
{
    rows_show_the_next_entry();
    match entry {
        Entry::Account(account) => make_changes(rows, steps, &account_changes(account)),
        Entry::Transfer(transfer) => add_transfer(rows, steps, found, transfer),
        Entry::Expiry { timestamp, pending } => {
            make_changes(rows, steps, &expiry_changes(found, *timestamp, *pending))
        }
        Entry::Failed { timestamp, id } => {
            make_changes(rows, steps, &failed_changes(*timestamp, *id))
        }
    }
}
