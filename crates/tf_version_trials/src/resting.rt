//! A forest between batches.
ghost use Rattle.std.specs.Prelude.{◌≡◌, IfOk};
ghost use Rattle.tf_version_trials.specs.Rest.{IsAtRest};
ghost use Rattle.tf_journal.specs.Lawful.{IsLawful};
ghost use Rattle.tf_manifest.specs.Registries.{AreShelves};
ghost use Rattle.tf_manifest.specs.View.{ShowsJournal};
ghost use Rattle.tf_query.specs.Version.{ShowsLawfulJournal};
ghost use Rattle.tf_rows.specs.Nest.{AreEmpty};
ghost use Rattle.tf_rows.specs.Parts.{parts_of};

use crate::asking::answered_at;
use crate::tried::TriedForest;
use std::alloc::{AllocError, Allocator, Global};
use std::marker::Model;
use std::sync::Wait;
use tf_forest::Forest;
use tf_forest_trials::{Act, Answered, Call, Counted, run};
use tf_manifest::{Job, Manifest, Merged, Registries, Row};
use tf_publish::Rows;
use tf_query::{Version, manifests_spell_their_journal};
use tf_records::Refusal;
use tf_registry::{Naming, Uninstalled};
use tf_rows::{AllRows, Counts, EmptyRows, SealRows, transfer};
use tf_script::Command;
use tf_trials::{Acted, Outcome, ROWS, acted, found, keep, last_of, let_go};

/// A forest that can be published.
type Sealing<T, A, N> = Forest<Rows<T, A, N>, A>;

/// A forest that can be published, between batches, with the versions that were taken of it, and what was merged and isn't
/// installed. Contracts see it as its journal.
#[derive(Drop)]
pub struct Resting<T: SealRows<A> + Drop, A: Allocator + Copy, N: Naming> {
    forest: Sealing<T, A, N>,
    /// What its versions and merges take their memory from.
    alloc: A,
    versions: Vec<Version<A, N>, Global>,
    merged: Vec<Merged<A, N>, Global>,
}

impl<T: SealRows<A> + Drop, A: Allocator + Copy, N: Naming> Model for Resting<T, A, N> {
    ghost use Rattle.std.specs.Prelude.{List};
    ghost use Rattle.tf_journal.specs.declared.entry.Entry.{Entry};
    ghost use Rattle.tf_version_trials.specs.Rest.{IsAtRest};

    ghost Value = { List Entry };

    ghost view = { λ r. r.forest.journal };

    ghost invariant = { λ r. IsAtRest r.forest.journal r.forest.clock r.forest.kept };
}

impl<T: SealRows<A> + Drop, A: Allocator + Copy, N: Naming> Resting<T, A, N> {
    /// The empty forest over rows that have nothing.
    fn new(lists: Global, alloc: A, rows: Rows<T, A, N>) -> Resting<T, A, N>
        requires { AreEmpty (parts_of (T.entries rows.fresh) rows.published.tables) }
    {
        Resting {
            forest: Forest::new(alloc, rows),
            alloc,
            versions: Vec::new(lists),
            merged: Vec::new(lists),
        }
    }

    /// The version that was taken last, which isn't kept any more.
    pub fn last_version(&mut self) -> Option<Version<A, N>> {
        self.versions.pop()
    }
}

impl<T: EmptyRows<A> + SealRows<A> + Drop, A: Allocator + Copy, N: Naming> Resting<T, A, N> {
    /// An empty forest, with rows of its own.
    pub fn empty(
        lists: Global,
        alloc: A,
        registries: &Registries<A>,
    ) -> Result<Resting<T, A, N>, Refusal>
        requires { AreShelves N.shelf registries.now }
    {
        Ok(Resting::new(lists, alloc, Rows::new(alloc, registries)?))
    }
}

impl<T: SealRows<A> + Drop, A: Allocator + Copy, N: Naming> TriedForest for Resting<T, A, N> {
    fn call<R: Wait>(&mut self, rt: &R, lists: Global, call: Call<'_>) -> Answered {
        match call {
            Call::Run(command) => Answered::Ran(run_on_forest(lists, &mut self.forest, command)),
            Call::Act(act) => Answered::Acted(act_on(
                rt,
                self.alloc,
                &mut self.forest,
                &mut self.versions,
                &mut self.merged,
                act,
            )),
            Call::Ask(place, question, expected) => {
                Answered::Asked(answered_at(lists, &self.versions, place, question, expected))
            }
            Call::AskOn(heap, place, question, expected) => {
                Answered::Asked(answered_at(heap, &self.versions, place, question, expected))
            }
            Call::Count => Answered::Counted(counted(&self.forest)),
        }
    }
}

/// Does something with a forest, its versions and its merges.
fn act_on<T: SealRows<A> + Drop, A: Allocator + Copy, N: Naming, R: Wait>(
    rt: &R,
    alloc: A,
    forest: &mut Sealing<T, A, N>,
    versions: &mut Vec<Version<A, N>, Global>,
    merged: &mut Vec<Merged<A, N>, Global>,
    act: Act,
) -> Acted
    requires { IsAtRest forest.old.journal forest.old.clock forest.old.kept }
    ensures { IsAtRest forest.new.journal forest.new.clock forest.new.kept }
{
    match act {
        Act::Publish => acted(publish(rt, forest)),
        Act::Take => keep(versions, take(rt, alloc, forest)),
        Act::LetGo => let_go(versions),
        Act::Merge(row) => merge(alloc, forest, merged, row),
        Act::Install => install_last(rt, forest, merged),
    }
}

/// What a forest counts, and whether it has a transfer with the id 1.
fn counted<T: SealRows<A> + Drop, A: Allocator + Copy, N: Naming>(
    forest: &Sealing<T, A, N>,
) -> Counted {
    let rows = rows(forest);
    let published = &rows.published;
    counts(published.manifest(), published.counts(), has_first(rows))
}

/// What a forest with these sealed tables counts.
fn counts<A: Allocator, N: Naming>(
    manifest: &Manifest<A, N>,
    counts: Counts,
    has_first: bool,
) -> Counted {
    Counted {
        pushed: manifest.pushed(),
        publishes: counts.publishes,
        rows_sealed: counts.rows_sealed,
        rows_held: counts.rows_held,
        references: references(manifest),
        tables_of_transfers: manifest.references(Row::TransferObjects),
        has_first,
    }
}

/// How many tables each row has.
fn references<A: Allocator, N: Naming>(manifest: &Manifest<A, N>) -> [u32; ROWS] {
    let mut references = [0; ROWS];
    for place in 0..ROWS {
        references[place] = manifest.references(Row::ALL[place]);
    }
    references
}

/// Whether rows have a transfer with the id 1.
fn has_first<S: AllRows>(rows: &S) -> bool {
    transfer(rows, 1).is_some()
}

/// Runs a batch or a pulse on a forest, and no other command. It knows its rows by what they can do alone: at sealed tables,
/// which are many types deep, a call of what is generic in ledgers would compare the whole forest's layout.
fn run_on_forest<S: AllRows + Drop, A: Allocator + Copy>(
    alloc: Global,
    forest: &mut Forest<S, A>,
    command: &Command<Global>,
) -> Outcome
    requires { IsAtRest forest.old.journal forest.old.clock forest.old.kept }
    ensures { IsAtRest forest.new.journal forest.new.clock forest.new.kept }
{
    run(alloc, alloc, forest, command)
}

/// The rows of a forest.
fn rows<T: SealRows<A> + Drop, A: Allocator + Copy, N: Naming>(
    forest: &Sealing<T, A, N>,
) -> &Rows<T, A, N>
    ensures { result.now.published ≡ forest.now.sealed }
{
    forest.rows()
}

/// The sealed tables of a forest that was just published, for a version of their own.
fn shown<T: SealRows<A> + Drop, A: Allocator + Copy, N: Naming>(
    alloc: A,
    forest: &Sealing<T, A, N>,
) -> Result<Manifest<A, N>, Refusal>
    requires lawful { IsLawful forest.now.journal }
    requires shows { ShowsJournal forest.now.sealed.tables forest.now.journal }
    ensures { IfOk result ShowsLawfulJournal }
{
    manifests_spell_their_journal();
    rows(forest).published.manifest().again(alloc)
}

/// Publishes a forest.
fn publish<T: SealRows<A> + Drop, A: Allocator + Copy, N: Naming, R: Wait>(
    rt: &R,
    forest: &mut Sealing<T, A, N>,
) -> Result<(), Refusal>
    requires { IsAtRest forest.old.journal forest.old.clock forest.old.kept }
    ensures { IsAtRest forest.new.journal forest.new.clock forest.new.kept }
{
    forest.publish(rt)
}

/// Publishes a forest, and gives a version of it.
fn take<T: SealRows<A> + Drop, A: Allocator + Copy, N: Naming, R: Wait>(
    rt: &R,
    alloc: A,
    forest: &mut Sealing<T, A, N>,
) -> Result<Version<A, N>, Refusal>
    requires { IsAtRest forest.old.journal forest.old.clock forest.old.kept }
    ensures { IsAtRest forest.new.journal forest.new.clock forest.new.kept }
{
    forest.publish(rt)?;
    Version::new(alloc, shown(alloc, forest)?)
}

/// Merges the run of a row that is to be merged next, and keeps what was merged.
fn merge<T: SealRows<A> + Drop, A: Allocator + Copy, N: Naming>(
    alloc: A,
    forest: &Sealing<T, A, N>,
    kept: &mut Vec<Merged<A, N>, Global>,
    row: usize,
) -> Acted {
    match Row::ALL.get(row) {
        Some(row) => merge_picked(alloc, forest.pick(*row), kept),
        None => Acted::Nothing,
    }
}

/// Merges a run that was picked, if there is one, and keeps what was merged.
fn merge_picked<A: Allocator + Copy, N: Naming>(
    alloc: A,
    picked: Result<Option<Job<A, N>>, AllocError>,
    kept: &mut Vec<Merged<A, N>, Global>,
) -> Acted {
    match found(picked) {
        Ok(job) => {
            let merged = job.merge(alloc);
            drop(job);
            keep(kept, merged)
        }
        Err(why) => why,
    }
}

/// Puts what was merged last in the place of its run.
fn install_last<T: SealRows<A> + Drop, A: Allocator + Copy, N: Naming, R: Wait>(
    rt: &R,
    forest: &mut Sealing<T, A, N>,
    kept: &mut Vec<Merged<A, N>, Global>,
) -> Acted
    requires { IsAtRest forest.old.journal forest.old.clock forest.old.kept }
    ensures { IsAtRest forest.new.journal forest.new.clock forest.new.kept }
{
    match last_of(kept) {
        Ok(merged) => installed(forest.install(rt, merged)),
        Err(why) => why,
    }
}

/// What became of an install. A merged table that is handed back is let go.
fn installed<M: Drop>(answer: Result<(), Uninstalled<M>>) -> Acted {
    match answer {
        Ok(()) => Acted::Done,
        Err(Uninstalled::Stale) => Acted::Refused(Refusal::Stale),
        Err(Uninstalled::RegistryFull) => Acted::Refused(Refusal::RegistryFull),
        Err(Uninstalled::NoMemory(_)) => Acted::Refused(Refusal::NoMemory),
    }
}
