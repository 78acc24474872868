//! Merges of a store's sealed tables, until no row has a run to merge.
ghost use Rattle.std.specs.Prelude.{◌≡◌, ◌≢◌, ◌⊎◌, ◌+◌, ◌<◌, false, None, Ok, Err, Some, IfErr, IfOk, IsTrue, OnOk};
ghost use Rattle.std.specs.Result.{is_ok};
ghost use Rattle.tf_compaction.specs.Compaction.{IsCompacted, IsMergedOut, KeepsRest};
ghost use Rattle.tf_manifest.specs.declared.kind.Kind.{Kind};
ghost use Rattle.tf_manifest.specs.declared.row.Row.{Row};
ghost use Rattle.tf_manifest.specs.Jobs.{IsPickedFrom, StandsIn, kind_of_merged};
ghost use Rattle.tf_manifest.specs.View.{tables_by};
ghost use Rattle.tf_publish.specs.Tables.{KeepsOthers};
ghost use Rattle.tf_registry.specs.Install.{OnStale};
ghost use Rattle.tf_rows.specs.Parts.{place_of};

use std::alloc::{AllocError, Allocator};
use std::sync::Wait;
use tf_manifest::{Job, Merged, Row};
use tf_query::Version;
use tf_records::Refusal;
use tf_registry::Uninstalled;
use tf_rows::SealRows;
use tf_store::{StoreName, StoreOf, StoredCopies, VersionCopies};

/// Why a row gave no job.
#[derive(Clone, Copy)]
enum NoJob {
    /// It has no run to merge.
    NoRun,
    /// Memory was refused.
    NoMemory,
}

/// The job that a row gave.
fn found<J: Drop>(answer: Result<Option<J>, AllocError>) -> Result<J, NoJob>
    ensures job { IfOk result (λ job. answer ≡ Ok (Some job)) }
    ensures none { IfErr result (λ why. why ≡ NoJob.NoRun → answer ≡ Ok None) }
{
    match answer {
        Ok(Some(job)) => Ok(job),
        Ok(None) => Err(NoJob::NoRun),
        Err(_) => Err(NoJob::NoMemory),
    }
}

/// The answer of an install of what stood in its row. What it hands back is let go.
fn installed<M: Drop>(answer: Result<(), Uninstalled<M>>) -> Result<(), Refusal>
    requires { IfErr answer (λ refused. OnStale refused ⊥) }
    ensures same { is_ok result ≡ is_ok answer }
    ensures refusal { IfErr result (λ refusal. (refusal ≡ Refusal.NoMemory) ⊎ ((refusal ≡ Refusal.RegistryFull) × (answer ≡ Err Uninstalled.RegistryFull))) }
{
    match answer {
        Ok(()) => Ok(()),
        Err(Uninstalled::NoMemory(_)) => Err(Refusal::NoMemory),
        Err(Uninstalled::RegistryFull) => Err(Refusal::RegistryFull),
        Err(Uninstalled::Stale) => unreachable!(),
    }
}

/// Puts a merged table in the place of its run, which stands in its row.
fn install<T, A, S, C>(
    rt: &impl Wait,
    store: &mut StoreOf<T, C, A, S>,
    merged: Merged<A, S>,
) -> Result<(), Refusal>
where
    T: SealRows<A> + Drop,
    A: Allocator + Copy,
    S: StoreName,
    C: StoredCopies + Drop,
    requires { StandsIn store.old.forest.sealed.tables merged }
    ensures compacted { IsCompacted store.old.forest store.new.forest result }
    ensures rest { KeepsRest store.old store.new }
    ensures others { (other : Kind) → other ≢ kind_of_merged merged → tables_by store.new.forest.sealed.tables other ≡ tables_by store.old.forest.sealed.tables other }
    ensures pushed { OnOk result (store.new.forest.sealed.tables.pushed.count ≡ store.old.forest.sealed.tables.pushed.count + 1) }
    ensures room { OnOk result (store.old.forest.sealed.tables.pushed.count < store.old.forest.sealed.tables.pushed.limit) }
{
    installed(store.install(rt, merged))
}

/// Merges the run of a job that was just picked, and puts the merged table in its place.
fn merge<T, A, S, C>(
    rt: &impl Wait,
    alloc: A,
    store: &mut StoreOf<T, C, A, S>,
    row: Row,
    job: &Job<A, S>,
) -> Result<(), Refusal>
where
    T: SealRows<A> + Drop,
    A: Allocator + Copy,
    S: StoreName,
    C: StoredCopies + Drop,
    requires { IsPickedFrom store.old.forest.sealed.tables row job.now }
    ensures compacted { IsCompacted store.old.forest store.new.forest result }
    ensures rest { KeepsRest store.old store.new }
    ensures others { KeepsOthers row store.old.forest.sealed.tables store.new.forest.sealed.tables }
    ensures pushed { OnOk result (store.new.forest.sealed.tables.pushed.count ≡ store.old.forest.sealed.tables.pushed.count + 1) }
    ensures room { OnOk result (store.old.forest.sealed.tables.pushed.count < store.old.forest.sealed.tables.pushed.limit) }
{
    match job.merge(alloc) {
        Ok(merged) => install(rt, store, merged),
        Err(refusal) => Err(refusal),
    }
}

/// Merges the run of a row that is to be merged next. `false` where it has none.
fn merge_next<T, A, S, C>(
    rt: &impl Wait,
    alloc: A,
    store: &mut StoreOf<T, C, A, S>,
    row: Row,
) -> Result<bool, Refusal>
where
    T: SealRows<A> + Drop,
    A: Allocator + Copy,
    S: StoreName,
    C: StoredCopies + Drop,
    ensures compacted { IsCompacted store.old.forest store.new.forest result }
    ensures rest { KeepsRest store.old store.new }
    ensures others { KeepsOthers row store.old.forest.sealed.tables store.new.forest.sealed.tables }
    ensures last { IfOk result (λ merged. merged ≡ false → IsMergedOut store.new.forest row) }
    ensures pushed { IfOk result (λ merged. IsTrue merged → store.new.forest.sealed.tables.pushed.count ≡ store.old.forest.sealed.tables.pushed.count + 1) }
    ensures room { IfOk result (λ merged. IsTrue merged → store.old.forest.sealed.tables.pushed.count < store.old.forest.sealed.tables.pushed.limit) }
{
    let job = match found(store.pick(row)) {
        Ok(job) => job,
        Err(NoJob::NoRun) => return Ok(false),
        Err(NoJob::NoMemory) => return Err(Refusal::NoMemory),
    };
    let outcome = merge(rt, alloc, store, row, &job);
    drop(job);
    match outcome {
        Ok(()) => Ok(true),
        Err(refusal) => Err(refusal),
    }
}

/// Merges the runs of a row until it has none.
fn compact_row<T, A, S, C>(
    rt: &impl Wait,
    alloc: A,
    store: &mut StoreOf<T, C, A, S>,
    row: Row,
) -> Result<(), Refusal>
where
    T: SealRows<A> + Drop,
    A: Allocator + Copy,
    S: StoreName,
    C: StoredCopies + Drop,
    ensures compacted { IsCompacted store.old.forest store.new.forest result }
    ensures rest { KeepsRest store.old store.new }
    ensures others { KeepsOthers row store.old.forest.sealed.tables store.new.forest.sealed.tables }
    ensures merged { OnOk result (IsMergedOut store.new.forest row) }
{
    while merge_next(rt, alloc, store, row)? {}
    Ok(())
}

/// The row of this number.
fn row_at(number: usize) -> Row
    requires { number < 21 }
    ensures { place_of result ≡ number }
{
    Row::ALL[number]
}

/// Merges the runs of all rows until none has one.
fn compact_rows<T, A, S, C>(
    rt: &impl Wait,
    alloc: A,
    store: &mut StoreOf<T, C, A, S>,
) -> Result<(), Refusal>
where
    T: SealRows<A> + Drop,
    A: Allocator + Copy,
    S: StoreName,
    C: StoredCopies + Drop,
    ensures compacted { IsCompacted store.old.forest store.new.forest result }
    ensures rest { KeepsRest store.old store.new }
    ensures merged { OnOk result ((row : Row) → IsMergedOut store.new.forest row) }
{
    for number in 0..Row::ALL.len() {
        let row = row_at(number);
        compact_row(rt, alloc, store, row)?;
    }
    Ok(())
}

/// Merges the runs of all rows until none has one, and shows readers what that left, so that the tables which were merged are
/// given back.
///
/// `NoMemory`, or `RegistryFull` where as many tables were pushed as there is room for: what was merged before stays. Takes
/// a pass over the two tables of each run, and what `show_merged` takes.
pub fn compact<T, A, S, C>(
    rt: &impl Wait,
    alloc: A,
    store: &mut StoreOf<T, C, A, S>,
) -> Result<(), Refusal>
where
    T: SealRows<A> + Drop,
    A: Allocator + Copy,
    S: StoreName,
    C: VersionCopies<Version<A, S>, S> + Drop,
    ensures compacted { IsCompacted store.old.forest store.new.forest result }
    ensures rest { KeepsRest store.old store.new }
    ensures merged { OnOk result ((row : Row) → IsMergedOut store.new.forest row) }
{
    match compact_rows(rt, alloc, store) {
        Ok(()) => store.show_merged(),
        Err(refusal) => Err(refusal),
    }
}
