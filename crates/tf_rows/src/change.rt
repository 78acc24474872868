//! Changes of rows, and the steps that take them back.
ghost use Rattle.std.specs.Prelude.{◌≡◌, ◌≤◌, ◌++◌, ◌∷◌, [], length, take, drop, IsTrue, IsSome, IfSome, IfErr, OnOk, OnErr};
ghost use Rattle.tf_table.specs.Content.{entry_at};
ghost use Rattle.tf_rows.specs.Changes.{AreSingle, CanChange, CanChangeAll, CanStep, CanStepAll, CanTakeRecord, IsSingle, all_changed, all_stepped, changed, listed, present, stepped, without_record};
ghost use Rattle.tf_rows.specs.Made.{AreMade};
ghost use Rattle.tf_rows.specs.Packed.{AreAdded};
ghost use Rattle.tf_rows.specs.Parts.{IsTakenBack};
ghost use Rattle.tf_rows.specs.Record.{record_changes};

use crate::{Before, PutTransfer, RowSet, Steps};
use std::alloc::Allocator;
use tf_manifest::{Row, Value};
use tf_records::{Refusal, Transfer};
use tf_table::Key;

/// What a row has at a key afterwards: a value, or None.
#[derive(Clone, Copy)]
pub struct Change {
    pub row: Row,
    pub key: Key,
    pub value: Option<Value>,
}

/// What takes a change back.
#[derive(Drop)]
pub enum Step {
    /// A key of a row's mutable table has the entry again that it had, or none.
    Key { row: Row, key: Key, before: Before },
    /// What a transfer's record put goes.
    Transfer(PutTransfer),
}

/// Makes the changes that there are, one after another, and puts the steps that take them back behind others.
///
/// The only refusal is `NoMemory`, and each row is then as it was.
#[tactic(auto, using(crate::proofs::Touched::more_added, crate::proofs::Touched::none_added))]
pub fn make_changes<S: RowSet, A: Allocator>(
    set: &mut S,
    steps: &mut Steps<A>,
    changes: &[Option<Change>],
) -> Result<(), Refusal>
    requires single { AreSingle (present changes.now) }
    requires can { CanChangeAll S.has_row S.fits S.takes_any (present changes.now) (S.parts set.old) }
    ensures rows { OnOk result (S.parts set.new ≡ all_changed (present changes.now) (S.parts set.old)) }
    ensures steps { OnOk result (AreAdded S.has_row S.fits S.takes_any steps.old steps.new (S.parts set.old) (S.parts set.new)) }
    ensures sealed { S.sealed set.new ≡ S.sealed set.old }
    ensures err { OnErr result ((S.parts set.new ≡ S.parts set.old) × (steps.new ≡ steps.old)) }
    ensures refusal { IfErr result (λ refusal. refusal ≡ Refusal.NoMemory) }
{
    let from = steps.len();
    for change in changes {
        let Some(change) = change else {
            continue;
        };
        match make_change(set, steps, change) {
            Ok(()) => {}
            Err(refusal) => {
                take_steps(set, steps, from);
                return Err(refusal);
            }
        }
    }
    Ok(())
}

/// Puts the step that takes a change back behind others, or takes the change back where there is no memory for the step.
#[inline(always)]
fn note<S: RowSet, A: Allocator>(
    set: &mut S,
    steps: &mut Steps<A>,
    row: Row,
    key: &Key,
    before: &Before,
) -> Result<(), Refusal>
    requires single { IsSingle row }
    requires has { IsTrue (S.has_row row) }
    requires there { IsSome (entry_at key.now (S.parts set.old row).fresh) }
    requires fits { IfSome before.now (λ entry. IfSome entry (λ value. IsTrue (S.fits row value))) }
    ensures ok { OnOk result ((S.parts set.new ≡ S.parts set.old) × (steps.new ≡ steps.old ++ Step.Key row key.now before.now ∷ [])) }
    ensures err { OnErr result (IsTakenBack row key.now before.now (S.parts set.old) (S.parts set.new) × (steps.new ≡ steps.old)) }
    ensures sealed { S.sealed set.new ≡ S.sealed set.old }
    ensures refusal { IfErr result (λ refusal. refusal ≡ Refusal.NoMemory) }
{
    match steps.push(row, key, before) {
        Ok(()) => Ok(()),
        Err(refusal) => {
            set.take_back(row, key, *before);
            Err(refusal)
        }
    }
}

/// Makes one change, and puts the step that takes it back behind others.
///
/// The only refusal is `NoMemory`, and it changes nothing.
fn make_change<S: RowSet, A: Allocator>(
    set: &mut S,
    steps: &mut Steps<A>,
    change: &Change,
) -> Result<(), Refusal>
    requires single { IsSingle change.now.row }
    requires can { CanChange S.has_row S.fits S.takes_any change.now (S.parts set.old) }
    ensures rows { OnOk result (S.parts set.new ≡ changed change.now (S.parts set.old)) }
    ensures steps { OnOk result (AreAdded S.has_row S.fits S.takes_any steps.old steps.new (S.parts set.old) (S.parts set.new)) }
    ensures sealed { S.sealed set.new ≡ S.sealed set.old }
    ensures err { OnErr result ((S.parts set.new ≡ S.parts set.old) × (steps.new ≡ steps.old)) }
    ensures refusal { IfErr result (λ refusal. refusal ≡ Refusal.NoMemory) }
{
    match set.put(change.row, change.key, &change.value) {
        Ok(before) => note(set, steps, change.row, &change.key, &before),
        Err(refusal) => Err(refusal),
    }
}

/// Puts what a transfer's record alone gives, and the step that takes it away again behind others.
pub(crate) fn make_record<S: RowSet, A: Allocator>(
    set: &mut S,
    steps: &mut Steps<A>,
    transfer: &Transfer,
) -> Result<(), Refusal>
    requires { CanChangeAll S.has_row S.fits S.takes_any (record_changes transfer.now) (S.parts set.old) }
    ensures made { AreMade S.has_row S.fits S.takes_any (record_changes transfer.now) result steps.old steps.new (S.parts set.old) (S.parts set.new) }
    ensures sealed { S.sealed set.new ≡ S.sealed set.old }
{
    match set.put_transfer(transfer) {
        Ok(()) => note_record(set, steps, transfer),
        Err(refusal) => Err(refusal),
    }
}

/// Puts the step that takes a transfer's record away behind others, or takes it away where there is no memory for the step.
fn note_record<S: RowSet, A: Allocator>(
    set: &mut S,
    steps: &mut Steps<A>,
    transfer: &Transfer,
) -> Result<(), Refusal>
    requires { CanTakeRecord S.has_row S.fits S.takes_any transfer.now (S.parts set.old) }
    ensures ok { OnOk result ((S.parts set.new ≡ S.parts set.old) × (steps.new ≡ steps.old ++ Step.Transfer transfer.now ∷ [])) }
    ensures err { OnErr result ((S.parts set.new ≡ without_record transfer.now (S.parts set.old)) × (steps.new ≡ steps.old)) }
    ensures sealed { S.sealed set.new ≡ S.sealed set.old }
    ensures refusal { IfErr result (λ refusal. refusal ≡ Refusal.NoMemory) }
{
    match steps.push_transfer(transfer) {
        Ok(()) => Ok(()),
        Err(refusal) => {
            set.take_transfer(&PutTransfer::of(transfer));
            Err(refusal)
        }
    }
}

/// Makes a change, if there is one.
pub(crate) fn make_any<S: RowSet, A: Allocator>(
    set: &mut S,
    steps: &mut Steps<A>,
    change: &Option<Change>,
) -> Result<(), Refusal>
    requires single { AreSingle (listed change.now) }
    requires can { CanChangeAll S.has_row S.fits S.takes_any (listed change.now) (S.parts set.old) }
    ensures made { AreMade S.has_row S.fits S.takes_any (listed change.now) result steps.old steps.new (S.parts set.old) (S.parts set.new) }
    ensures sealed { S.sealed set.new ≡ S.sealed set.old }
{
    match change {
        Some(change) => make_change(set, steps, change),
        None => Ok(()),
    }
}

/// Makes two changes, if there are such, one after the other. Where the second is refused, the first one stays made.
pub(crate) fn make_two<S: RowSet, A: Allocator>(
    set: &mut S,
    steps: &mut Steps<A>,
    first: &Option<Change>,
    second: &Option<Change>,
) -> Result<(), Refusal>
    requires single { AreSingle (listed first.now ++ listed second.now) }
    requires can { CanChangeAll S.has_row S.fits S.takes_any (listed first.now ++ listed second.now) (S.parts set.old) }
    ensures made { AreMade S.has_row S.fits S.takes_any (listed first.now ++ listed second.now) result steps.old steps.new (S.parts set.old) (S.parts set.new) }
    ensures sealed { S.sealed set.new ≡ S.sealed set.old }
{
    match make_any(set, steps, first) {
        Ok(()) => make_any(set, steps, second),
        Err(refusal) => Err(refusal),
    }
}

/// Takes changes back, the last one first, until so many steps are left. It takes no memory.
pub fn take_steps<S: RowSet, A: Allocator>(set: &mut S, steps: &mut Steps<A>, left: usize)
    requires left { left ≤ length steps.old }
    requires can { CanStepAll S.has_row S.fits S.takes_any (drop left steps.old) (S.parts set.old) }
    ensures left { steps.new ≡ take left steps.old }
    ensures rows { S.parts set.new ≡ all_stepped (drop left steps.old) (S.parts set.old) }
    ensures sealed { S.sealed set.new ≡ S.sealed set.old }
{
    while steps.len() > left {
        match steps.pop() {
            Some(step) => take_step(set, step),
            None => {}
        }
    }
}

/// Takes a change back. It takes no memory.
#[inline(always)]
#[tactic(auto, using(crate::proofs::Stepping::taken_stepped))]
fn take_step<S: RowSet>(set: &mut S, step: Step)
    requires { CanStep S.has_row S.fits S.takes_any step (S.parts set.old) }
    ensures rows { S.parts set.new ≡ stepped step (S.parts set.old) }
    ensures sealed { S.sealed set.new ≡ S.sealed set.old }
{
    match step {
        Step::Key { row, key, before } => set.take_back(row, &key, before),
        Step::Transfer(transfer) => set.take_transfer(&transfer),
    }
}
