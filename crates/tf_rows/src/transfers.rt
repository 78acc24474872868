//! What a transfer changes in rows.
ghost use Rattle.std.specs.Prelude.{◌≡◌, map, IfErr, OnOk, OnErr};
ghost use Rattle.tf_journal.specs.declared.entry.Entry.{Entry};
ghost use Rattle.tf_manifest.specs.declared.row.Row.{Row};
ghost use Rattle.tf_rows.specs.Changes.{CanChangeAll, all_changed, listed};
ghost use Rattle.tf_rows.specs.Edits.{expiry_edits, status_edits};
ghost use Rattle.tf_rows.specs.Made.{AreMade};
ghost use Rattle.tf_rows.specs.Next.{change_of, changes_by};
ghost use Rattle.tf_rows.specs.Packed.{AreAdded};
ghost use Rattle.tf_rows.specs.Range.{MovesInRange};

use crate::account_states::party_after;
use crate::change::{make_any, make_record, make_two};
use crate::row_change::{expiry_change, history_change, put, state_change, status_change};
use crate::{Change, Found, RowSet, Steps, take_steps};
use std::alloc::Allocator;
use tf_journal::{Side, Status, is_pending, is_post};
use tf_manifest::{Row, Value};
use tf_records::{Refusal, Transfer};

/// The status that a transfer gives the pending transfer that it settles, if one, or has itself where it is pending.
fn status_after(transfer: &Transfer, settled: &Option<Transfer>) -> Option<Change>
    ensures { listed result ≡ map (change_of Row.PendingStatus) (status_edits transfer.now settled.now) }
{
    match settled {
        Some(pending) if is_post(transfer) => status_change(pending, Status::Posted),
        Some(pending) => status_change(pending, Status::Voided),
        None if is_pending(transfer) => status_change(transfer, Status::Open),
        None => None,
    }
}

/// A pending transfer that is settled no longer stands in expiry, and a new one does, where it has a timeout.
fn expiry_after(transfer: &Transfer, settled: &Option<Transfer>) -> Option<Change>
    ensures { listed result ≡ map (change_of Row.Expiry) (expiry_edits transfer.now settled.now) }
{
    match settled {
        Some(pending) => expiry_change(pending, None),
        None if is_pending(transfer) => expiry_change(transfer, Some(Value::Unit)),
        None => None,
    }
}

/// Makes what a transfer changes, one change after another, by what was looked up for it. Where one is refused, those before it
/// stay made.
fn make_transfer<S: RowSet, A: Allocator>(
    rows: &mut S,
    steps: &mut Steps<A>,
    found: &Found,
    transfer: &Transfer,
) -> Result<(), Refusal>
    requires range { MovesInRange found.now transfer.now }
    requires can { CanChangeAll S.has_row S.fits S.takes_any (changes_by found.now (Entry.Transfer transfer.now)) (S.parts rows.old) }
    ensures made { AreMade S.has_row S.fits S.takes_any (changes_by found.now (Entry.Transfer transfer.now)) result steps.old steps.new (S.parts rows.old) (S.parts rows.new) }
    ensures sealed { S.sealed rows.new ≡ S.sealed rows.old }
{
    let debit = party_after(Side::Debit, transfer, &found.settled, &found.debit);
    let credit = party_after(Side::Credit, transfer, &found.settled, &found.credit);
    match make_two(rows, steps, &state_change(&debit), &state_change(&credit)) {
        Ok(()) => {}
        Err(refusal) => return Err(refusal),
    }
    let id = put(
        Row::TransferIds,
        transfer.id,
        0,
        Value::Stamp(transfer.timestamp),
    );
    match make_any(rows, steps, &id) {
        Ok(()) => {}
        Err(refusal) => return Err(refusal),
    }
    match make_record(rows, steps, transfer) {
        Ok(()) => {}
        Err(refusal) => return Err(refusal),
    }
    let status = status_after(transfer, &found.settled);
    let expiry = expiry_after(transfer, &found.settled);
    match make_two(rows, steps, &status, &expiry) {
        Ok(()) => {}
        Err(refusal) => return Err(refusal),
    }
    let debit_history = history_change(transfer, &debit);
    let credit_history = history_change(transfer, &credit);
    make_two(rows, steps, &debit_history, &credit_history)
}

/// Adds a transfer to rows, by what was looked up for it, and puts the steps that take it back behind others.
///
/// The only refusal is `NoMemory`, and each row is then as it was.
pub(crate) fn add_transfer<S: RowSet, A: Allocator>(
    rows: &mut S,
    steps: &mut Steps<A>,
    found: &Found,
    transfer: &Transfer,
) -> Result<(), Refusal>
    requires range { MovesInRange found.now transfer.now }
    requires can { CanChangeAll S.has_row S.fits S.takes_any (changes_by found.now (Entry.Transfer transfer.now)) (S.parts rows.old) }
    ensures rows { OnOk result (S.parts rows.new ≡ all_changed (changes_by found.now (Entry.Transfer transfer.now)) (S.parts rows.old)) }
    ensures steps { OnOk result (AreAdded S.has_row S.fits S.takes_any steps.old steps.new (S.parts rows.old) (S.parts rows.new)) }
    ensures sealed { S.sealed rows.new ≡ S.sealed rows.old }
    ensures err { OnErr result ((S.parts rows.new ≡ S.parts rows.old) × (steps.new ≡ steps.old)) }
    ensures refusal { IfErr result (λ refusal. refusal ≡ Refusal.NoMemory) }
{
    let from = steps.len();
    match make_transfer(rows, steps, found, transfer) {
        Ok(()) => Ok(()),
        Err(refusal) => {
            take_steps(rows, steps, from);
            Err(refusal)
        }
    }
}
