//! A row's sealed mutable table, put in front of the sealed tables of its row.
ghost use Rattle.std.specs.Prelude.{◌≡◌, ◌<◌, ◌≤◌, [], length, slice_index_or, IfErr, OnErr, OnOk};
ghost use Rattle.tf_registry.specs.Limit.{one_more};
ghost use Rattle.tf_manifest.specs.View.{AreLight, tables_by};
ghost use Rattle.tf_rows.specs.SealedRow.{AddsAt, PushesIn, kind_of_sealed};

use std::alloc::Allocator;
use std::sync::Wait;
use tf_journal::Status;
use tf_manifest::{IdStamp, Kind, KindRows, Manifest, RowValue, StampRow, State, Stored, UnitRow};
use tf_records::{Account, Refusal, Sums, Transfer};
use tf_registry::{Body, Naming, Pushes};
use tf_rows::SealedRow;
use tf_table::Sealed;

/// Pushes a sealed table, counts it, and puts it in front of the tables of the row at a place. It may wait in the push.
///
/// The only refusal is `NoMemory`, and it changes nothing.
fn push_at<R: Wait, V: RowValue, A: Allocator + Clone, N: Naming>(
    rt: &R,
    rows: &mut KindRows<V, A, N>,
    at: usize,
    pushes: &mut Pushes,
    alloc: A,
    table: Sealed<V, A>,
) -> Result<(), Refusal>
    requires at { at < length rows.old }
    requires room { length (slice_index_or rows.old at []) < 64 }
    requires pushes { pushes.old.count < pushes.old.limit }
    requires light { AreLight pushes.old.count rows.old }
    ensures adds { OnOk result (AddsAt rows.old at table rows.new) }
    ensures length { length rows.new ≡ length rows.old }
    ensures light { AreLight pushes.new.count rows.new }
    ensures more { pushes.old.count ≤ pushes.new.count }
    ensures counted { OnOk result (pushes.new ≡ one_more pushes.old) }
    ensures err { OnErr result ((rows.new ≡ rows.old) × (pushes.new ≡ pushes.old)) }
    ensures refusal { IfErr result (λ refusal. refusal ≡ Refusal.NoMemory) }
{
    // Only the count tells that the limit isn't above the greatest.
    let _count = pushes.count();
    let oldest = rows.row(at).is_empty();
    let held = match Body::new(table, 0, oldest).hold(alloc) {
        Ok(held) => held,
        Err(refusal) => return Err(refusal),
    };
    match rows.push(rt, pushes, held) {
        Ok(table) => {
            rows.add(at, table);
            Ok(())
        }
        Err(_) => Err(Refusal::NoMemory),
    }
}

/// As `push_in_front`, where timestamps are stored.
fn push_stamps<R: Wait, A: Allocator + Clone, N: Naming>(
    rt: &R,
    manifest: &mut Manifest<A, N>,
    alloc: A,
    row: StampRow,
    table: Sealed<u64, A>,
) -> Result<(), Refusal>
    requires room { length (tables_by manifest.old (Kind.Stamp row)) < 64 }
    requires pushes { manifest.old.pushed.count < manifest.old.pushed.limit }
    ensures pushes { OnOk result (PushesIn {A = A} manifest.old (SealedRow.Stamp row table) manifest.new) }
    ensures err { OnErr result (manifest.new ≡ manifest.old) }
    ensures refusal { IfErr result (λ refusal. refusal ≡ Refusal.NoMemory) }
{
    let pushes = &mut manifest.pushes;
    push_at(rt, &mut manifest.stamps, row.index(), pushes, alloc, table)
}

/// As `push_in_front`, where accounts are stored.
fn push_accounts<R: Wait, A: Allocator + Clone, N: Naming>(
    rt: &R,
    manifest: &mut Manifest<A, N>,
    alloc: A,
    table: Sealed<Stored<Account>, A>,
) -> Result<(), Refusal>
    requires room { length (tables_by manifest.old Kind.Account) < 64 }
    requires pushes { manifest.old.pushed.count < manifest.old.pushed.limit }
    ensures pushes { OnOk result (PushesIn {A = A} manifest.old (SealedRow.Account table) manifest.new) }
    ensures err { OnErr result (manifest.new ≡ manifest.old) }
    ensures refusal { IfErr result (λ refusal. refusal ≡ Refusal.NoMemory) }
{
    let pushes = &mut manifest.pushes;
    push_at(rt, &mut manifest.accounts, 0, pushes, alloc, table)
}

/// As `push_in_front`, where transfers are stored.
fn push_transfers<R: Wait, A: Allocator + Clone, N: Naming>(
    rt: &R,
    manifest: &mut Manifest<A, N>,
    alloc: A,
    table: Sealed<Stored<Transfer>, A>,
) -> Result<(), Refusal>
    requires room { length (tables_by manifest.old Kind.Transfer) < 64 }
    requires pushes { manifest.old.pushed.count < manifest.old.pushed.limit }
    ensures pushes { OnOk result (PushesIn {A = A} manifest.old (SealedRow.Transfer table) manifest.new) }
    ensures err { OnErr result (manifest.new ≡ manifest.old) }
    ensures refusal { IfErr result (λ refusal. refusal ≡ Refusal.NoMemory) }
{
    let pushes = &mut manifest.pushes;
    push_at(rt, &mut manifest.transfers, 0, pushes, alloc, table)
}

/// As `push_in_front`, where transfer ids are stored.
fn push_ids<R: Wait, A: Allocator + Clone, N: Naming>(
    rt: &R,
    manifest: &mut Manifest<A, N>,
    alloc: A,
    table: Sealed<IdStamp, A>,
) -> Result<(), Refusal>
    requires room { length (tables_by manifest.old Kind.Id) < 64 }
    requires pushes { manifest.old.pushed.count < manifest.old.pushed.limit }
    ensures pushes { OnOk result (PushesIn {A = A} manifest.old (SealedRow.Id table) manifest.new) }
    ensures err { OnErr result (manifest.new ≡ manifest.old) }
    ensures refusal { IfErr result (λ refusal. refusal ≡ Refusal.NoMemory) }
{
    let pushes = &mut manifest.pushes;
    push_at(rt, &mut manifest.ids, 0, pushes, alloc, table)
}

/// As `push_in_front`, where keys alone are stored.
fn push_units<R: Wait, A: Allocator + Clone, N: Naming>(
    rt: &R,
    manifest: &mut Manifest<A, N>,
    alloc: A,
    row: UnitRow,
    table: Sealed<(), A>,
) -> Result<(), Refusal>
    requires room { length (tables_by manifest.old (Kind.Unit row)) < 64 }
    requires pushes { manifest.old.pushed.count < manifest.old.pushed.limit }
    ensures pushes { OnOk result (PushesIn {A = A} manifest.old (SealedRow.Unit row table) manifest.new) }
    ensures err { OnErr result (manifest.new ≡ manifest.old) }
    ensures refusal { IfErr result (λ refusal. refusal ≡ Refusal.NoMemory) }
{
    let pushes = &mut manifest.pushes;
    push_at(rt, &mut manifest.units, row.index(), pushes, alloc, table)
}

/// As `push_in_front`, where states are stored.
fn push_states<R: Wait, A: Allocator + Clone, N: Naming>(
    rt: &R,
    manifest: &mut Manifest<A, N>,
    alloc: A,
    table: Sealed<State, A>,
) -> Result<(), Refusal>
    requires room { length (tables_by manifest.old Kind.State) < 64 }
    requires pushes { manifest.old.pushed.count < manifest.old.pushed.limit }
    ensures pushes { OnOk result (PushesIn {A = A} manifest.old (SealedRow.State table) manifest.new) }
    ensures err { OnErr result (manifest.new ≡ manifest.old) }
    ensures refusal { IfErr result (λ refusal. refusal ≡ Refusal.NoMemory) }
{
    let pushes = &mut manifest.pushes;
    push_at(rt, &mut manifest.states, 0, pushes, alloc, table)
}

/// As `push_in_front`, where sums are stored.
fn push_sums<R: Wait, A: Allocator + Clone, N: Naming>(
    rt: &R,
    manifest: &mut Manifest<A, N>,
    alloc: A,
    table: Sealed<Stored<Sums>, A>,
) -> Result<(), Refusal>
    requires room { length (tables_by manifest.old Kind.Sums) < 64 }
    requires pushes { manifest.old.pushed.count < manifest.old.pushed.limit }
    ensures pushes { OnOk result (PushesIn {A = A} manifest.old (SealedRow.Sums table) manifest.new) }
    ensures err { OnErr result (manifest.new ≡ manifest.old) }
    ensures refusal { IfErr result (λ refusal. refusal ≡ Refusal.NoMemory) }
{
    let pushes = &mut manifest.pushes;
    push_at(rt, &mut manifest.sums, 0, pushes, alloc, table)
}

/// As `push_in_front`, where statuses are stored.
fn push_statuses<R: Wait, A: Allocator + Clone, N: Naming>(
    rt: &R,
    manifest: &mut Manifest<A, N>,
    alloc: A,
    table: Sealed<Stored<Status>, A>,
) -> Result<(), Refusal>
    requires room { length (tables_by manifest.old Kind.Status) < 64 }
    requires pushes { manifest.old.pushed.count < manifest.old.pushed.limit }
    ensures pushes { OnOk result (PushesIn {A = A} manifest.old (SealedRow.Status table) manifest.new) }
    ensures err { OnErr result (manifest.new ≡ manifest.old) }
    ensures refusal { IfErr result (λ refusal. refusal ≡ Refusal.NoMemory) }
{
    let pushes = &mut manifest.pushes;
    push_at(rt, &mut manifest.statuses, 0, pushes, alloc, table)
}

/// Pushes a sealed table, counts it, and puts it in front of the tables of its row. It may wait in the push.
///
/// The only refusal is `NoMemory`, and it changes nothing.
pub(crate) fn push_in_front<R: Wait, A: Allocator + Clone, N: Naming>(
    rt: &R,
    manifest: &mut Manifest<A, N>,
    alloc: A,
    sealed: SealedRow<A>,
) -> Result<(), Refusal>
    requires room { length (tables_by manifest.old (kind_of_sealed sealed)) < 64 }
    requires pushes { manifest.old.pushed.count < manifest.old.pushed.limit }
    ensures pushes { OnOk result (PushesIn manifest.old sealed manifest.new) }
    ensures err { OnErr result (manifest.new ≡ manifest.old) }
    ensures refusal { IfErr result (λ refusal. refusal ≡ Refusal.NoMemory) }
{
    match sealed {
        SealedRow::Stamp(row, table) => push_stamps(rt, manifest, alloc, row, table),
        SealedRow::Account(table) => push_accounts(rt, manifest, alloc, table),
        SealedRow::Transfer(table) => push_transfers(rt, manifest, alloc, table),
        SealedRow::Id(table) => push_ids(rt, manifest, alloc, table),
        SealedRow::Unit(row, table) => push_units(rt, manifest, alloc, row, table),
        SealedRow::State(table) => push_states(rt, manifest, alloc, table),
        SealedRow::Sums(table) => push_sums(rt, manifest, alloc, table),
        SealedRow::Status(table) => push_statuses(rt, manifest, alloc, table),
    }
}
