//! Mutable tables pushed row by row: sealed, and put in front of the sealed tables of their rows.
ghost use Rattle.std.specs.Prelude.{◌≡◌, ◌+◌, ◌<◌, ◌≤◌, length, IfErr, IfOk, IsOk, IsSome, OnErr, OnOk, Ok, Some};
ghost use Rattle.std.specs.Result.{is_ok};
ghost use Rattle.tf_registry.specs.Install.{OnFull, OnStale};
ghost use Rattle.tf_manifest.specs.Jobs.{IsPickedFrom};
ghost use Rattle.tf_rows.specs.Counts.{PushesMore, all_references};
ghost use Rattle.tf_rows.specs.Parts.{parts_of, place_of, value_of_part};
ghost use Rattle.tf_publish.specs.Publish.{MakesRoom, PublishesRow, entries_waiting, needed_for, tables_needed};
ghost use Rattle.tf_publish.specs.Partly.{PublishesPartIn, PublishesParts};
ghost use Rattle.tf_publish.specs.Tables.{MakesPlaceIn, Publishes, PublishesIn};
ghost use Rattle.tf_manifest.specs.View.{content_in, references_in};
ghost use Rattle.tf_manifest.specs.declared.row.Row.{Row};
ghost use Rattle.tf_table.specs.declared.key.Key.{Key};

use crate::counted::CountedTables;
use std::alloc::{AllocError, Allocator};
use std::sync::Wait;
use tf_manifest::{Job, Manifest, Row};
use tf_records::Refusal;
use tf_registry::{Naming, Uninstalled};
use tf_rows::SealRows;

/// The job of a row that has one.
fn found<J: Drop>(answer: Result<Option<J>, AllocError>) -> Result<J, Refusal>
    requires { IfOk answer IsSome }
    ensures job { IfOk result (λ job. answer ≡ Ok (Some job)) }
    ensures refusal { IfErr result (λ refusal. refusal ≡ Refusal.NoMemory) }
{
    match answer {
        Ok(Some(job)) => Ok(job),
        Ok(None) => unreachable!(),
        Err(_) => Err(Refusal::NoMemory),
    }
}

/// The answer of an install that can lack memory, and for no other reason be refused. What it hands back is let go.
fn installed<M: Drop>(answer: Result<(), Uninstalled<M>>) -> Result<(), Refusal>
    requires stale { IfErr answer (λ refused. OnStale refused ⊥) }
    requires full { IfErr answer (λ refused. OnFull refused ⊥) }
    ensures same { is_ok result ≡ is_ok answer }
    ensures refusal { IfErr result (λ refusal. refusal ≡ Refusal.NoMemory) }
{
    match answer {
        Ok(()) => Ok(()),
        Err(Uninstalled::NoMemory(back)) => {
            drop(back);
            Err(Refusal::NoMemory)
        }
        Err(Uninstalled::Stale) => unreachable!(),
        Err(Uninstalled::RegistryFull) => unreachable!(),
    }
}

/// Merges the run of a full row that is to be merged next, in place.
///
/// The only refusal is `NoMemory`, and it changes nothing.
fn merge_in_place<R: Wait, A: Allocator + Copy, N: Naming>(
    rt: &R,
    row: Row,
    job: &Job<A, N>,
    alloc: A,
    next: &mut CountedTables<A, N>,
) -> Result<(), Refusal>
    requires picked { IsPickedFrom next.old.tables row job.now }
    requires full { references_in next.old.tables row ≡ 64 }
    requires limit { next.old.tables.pushed.count < next.old.tables.pushed.limit }
    ensures room { OnOk result (MakesRoom row next.old.tables next.new.tables) }
    ensures place { OnOk result (MakesPlaceIn row next.old next.new) }
    ensures few { OnOk result (references_in next.new.tables row < 64) }
    ensures sealed { next.new.sealed ≡ next.old.sealed }
    ensures more { PushesMore next.old next.new }
    ensures err { OnErr result (next.new ≡ next.old) }
    ensures refusal { IfErr result (λ refusal. refusal ≡ Refusal.NoMemory) }
{
    match job.merge(alloc) {
        Ok(merged) => installed(next.install(rt, merged)),
        Err(refusal) => Err(refusal),
    }
}

/// Makes room for a table in a row: where it is full, its run that is to be merged next is merged in place.
///
/// The only refusal is `NoMemory`, and it changes nothing.
fn make_room<R: Wait, A: Allocator + Copy, N: Naming>(
    rt: &R,
    row: Row,
    alloc: A,
    next: &mut CountedTables<A, N>,
) -> Result<(), Refusal>
    requires { references_in next.old.tables row ≡ 64 → next.old.tables.pushed.count < next.old.tables.pushed.limit }
    ensures room { OnOk result (MakesRoom row next.old.tables next.new.tables) }
    ensures place { OnOk result (MakesPlaceIn row next.old next.new) }
    ensures few { OnOk result (references_in next.new.tables row < 64) }
    ensures sealed { next.new.sealed ≡ next.old.sealed }
    ensures more { PushesMore next.old next.new }
    ensures err { OnErr result (next.new ≡ next.old) }
    ensures refusal { IfErr result (λ refusal. refusal ≡ Refusal.NoMemory) }
{
    let manifest = next.manifest();
    if manifest.references(row) < 64 {
        return Ok(());
    }
    let job = match found(manifest.pick(row)) {
        Ok(job) => job,
        Err(refusal) => return Err(refusal),
    };
    let answer = merge_in_place(rt, row, &job, alloc, next);
    drop(job);
    answer
}

/// Seals a row's mutable table, if it has an entry, and puts it in front of the row's sealed tables.
///
/// The only refusal is `NoMemory`. The push that made room may have been made by then.
fn push_row<R: Wait, F: SealRows<A>, A: Allocator + Copy, N: Naming>(
    rt: &R,
    fresh: &mut F,
    row: Row,
    alloc: A,
    next: &mut CountedTables<A, N>,
) -> Result<(), Refusal>
    requires { next.old.tables.pushed.count + needed_for (F.entries fresh.old row) (references_in next.old.tables row) ≤ next.old.tables.pushed.limit }
    ensures publishes { OnOk result (PublishesRow (F.entries fresh.old) row next.old.tables next.new.tables) }
    ensures tables { OnOk result (PublishesIn (F.entries fresh.old) row next.old next.new) }
    ensures sealed { OnOk result (next.new.sealed ≡ next.old.sealed + length (F.entries fresh.old row)) }
    ensures fresh { F.entries fresh.new ≡ F.entries fresh.old }
    ensures more { PushesMore next.old next.new }
    ensures most { next.new.tables.pushed.count ≤ next.old.tables.pushed.count + needed_for (F.entries fresh.old row) (references_in next.old.tables row) }
    ensures idle { length (F.entries fresh.old row) ≡ 0 → IsOk result }
    ensures still { length (F.entries fresh.old row) ≡ 0 → next.new ≡ next.old }
    ensures part { PublishesPartIn (F.entries fresh.old) row next.old next.new }
    ensures refusal { IfErr result (λ refusal. refusal ≡ Refusal.NoMemory) }
{
    if fresh.has_none(row) {
        return Ok(());
    }
    let sealed = match fresh.seal(row, alloc) {
        Ok(sealed) => sealed,
        Err(refusal) => return Err(refusal),
    };
    match make_room(rt, row, alloc, next) {
        Ok(()) => next.push_in_front(rt, alloc, sealed),
        Err(refusal) => Err(refusal),
    }
}

/// The row of this number.
fn row_at(number: usize) -> Row
    requires { number < 21 }
    ensures { place_of result ≡ number }
{
    Row::ALL[number]
}

/// How many tables a row pushes: none where its mutable table has no entry, two where the row is full, else one.
fn needed_for<F: SealRows<A>, A: Allocator + Copy, N: Naming>(
    fresh: &F,
    manifest: &Manifest<A, N>,
    row: Row,
) -> u32
    ensures needed { result ≡ needed_for (F.entries fresh.now row) (references_in manifest.now row) }
    ensures few { result ≤ 2 }
{
    if fresh.has_none(row) {
        0
    } else if manifest.references(row) == 64 {
        2
    } else {
        1
    }
}

/// How many tables all rows push.
pub(crate) fn tables_needed<F: SealRows<A>, A: Allocator + Copy, N: Naming>(
    fresh: &F,
    manifest: &Manifest<A, N>,
) -> u32
    ensures { result ≡ tables_needed (F.entries fresh.now) manifest.now }
{
    let mut needed = 0;
    for number in 0..Row::ALL.len() {
        needed += needed_for(fresh, manifest, row_at(number));
    }
    needed
}

/// Seals each mutable table that has an entry, row by row, and puts it in front of its row's sealed tables.
///
/// The only refusal is `NoMemory`, and there is none where no mutable table has an entry. The mutable tables keep their
/// entries.
pub(crate) fn push_rows<R: Wait, F: SealRows<A>, A: Allocator + Copy, N: Naming>(
    rt: &R,
    fresh: &mut F,
    alloc: A,
    next: &mut CountedTables<A, N>,
) -> Result<(), Refusal>
    requires { next.old.tables.pushed.count + tables_needed (F.entries fresh.old) next.old.tables ≤ next.old.tables.pushed.limit }
    ensures content { OnOk result ((r : Row) (key : Key) → content_in next.new.tables r key ≡ value_of_part (parts_of (F.entries fresh.old) next.old.tables r) key) }
    ensures publishes { OnOk result (Publishes (F.entries fresh.old) next.old next.new) }
    ensures count { OnOk result (next.new.tables.pushed.count ≡ next.old.tables.pushed.count + tables_needed (F.entries fresh.old) next.old.tables) }
    ensures sealed { OnOk result (next.new.sealed ≡ next.old.sealed + entries_waiting (F.entries fresh.old)) }
    ensures few { OnOk result (next.new.tables.pushed.count + all_references next.new.tables ≤ next.old.tables.pushed.count + all_references next.old.tables + 42) }
    ensures added { OnOk result (all_references next.new.tables + next.old.tables.pushed.count ≤ all_references next.old.tables + next.new.tables.pushed.count) }
    ensures fresh { F.entries fresh.new ≡ F.entries fresh.old }
    ensures more { PushesMore next.old next.new }
    ensures most { next.new.tables.pushed.count ≤ next.old.tables.pushed.count + tables_needed (F.entries fresh.old) next.old.tables }
    ensures idle { entries_waiting (F.entries fresh.old) ≡ 0 → IsOk result }
    ensures still { entries_waiting (F.entries fresh.old) ≡ 0 → next.new ≡ next.old }
    ensures parts { PublishesParts (F.entries fresh.old) next.old next.new }
    ensures refusal { IfErr result (λ refusal. refusal ≡ Refusal.NoMemory) }
{
    for number in 0..Row::ALL.len() {
        let row = row_at(number);
        if let Err(refusal) = push_row(rt, fresh, row, alloc, next) {
            return Err(refusal);
        }
    }
    Ok(())
}
