//! What a store published.
ghost use mathlib.Core.List.{IsPrefix};
ghost use Rattle.std.specs.Prelude.{◌≡◌, ◌+◌, ◌≤◌, [], length, OnErr, OnOk, IfErr, IfOk};
ghost use Rattle.tf_history.specs.Written.{nothing_written};
ghost use Rattle.tf_journal.specs.Lawful.{IsLawful};
ghost use Rattle.tf_manifest.specs.Registries.{AreShelves};
ghost use Rattle.tf_manifest.specs.View.{ShowsJournal};
ghost use Rattle.tf_store.specs.Public.{ReachesUnlessFull, all_public, nothing_public};

use crate::{StoreName, StoredCopies, VersionCopies};
use std::alloc::Allocator;
use std::marker::Model;
use tf_forest::Forest;
use tf_history::{Front, Writer};
use tf_manifest::{Manifest, Registries};
use tf_query::{Version, empty_manifests_show_nothing, version_of};
use tf_readers::Shows;
use tf_records::Refusal;
use tf_rows::AllRows;

/// The history as far as it goes, and what readers enter.
#[derive(Drop)]
pub(crate) struct Public<C: StoredCopies + Drop, A: Allocator, S: StoreName> {
    pub(crate) writer: Writer<S>,
    /// So much of it as the copies show.
    pub(crate) shown: Front<S>,
    pub(crate) copies: C,
    /// The version that the copies show.
    pub(crate) latest: Version<A, S>,
}

impl<C: StoredCopies + Drop, A: Allocator, S: StoreName> Model for Public<C, A, S> {
    ghost use Rattle.tf_store.specs.Public.{PublicView};

    ghost Value = { PublicView };

    ghost use Rattle.std.specs.Prelude.{◌≡◌, length};

    ghost view = { λ p. record { front = p.writer.journal; publications = p.writer.publications; shown = length p.shown; readable = C.shown p.copies } };

    ghost invariant = { λ p. (p.shown ≡ C.shown p.copies) × (p.latest ≡ C.shown p.copies) };
}

impl<C: StoredCopies + Drop, A: Allocator, S: StoreName> Public<C, A, S> {
    /// Nothing that is published yet, over copies and a version that show so.
    pub(crate) fn empty(writer: Writer<S>, copies: C, latest: Version<A, S>) -> Public<C, A, S>
        requires empty { writer ≡ nothing_written }
        requires copies { C.shown copies ≡ [] }
        requires latest { latest ≡ [] }
        ensures { result ≡ nothing_public }
    {
        Public {
            shown: writer.front().again(),
            writer,
            copies,
            latest,
        }
    }

    /// The history as far as it goes.
    pub(crate) fn front(&self) -> &Front<S>
        ensures { result.now ≡ self.now.front }
    {
        self.writer.front()
    }

    /// The version that the copies show, with one more owner. It takes no memory.
    ///
    /// `NoMemory` where the version has 2^63 - 1 owners is the only refusal.
    pub(crate) fn version(&self) -> Result<Version<A, S>, Refusal>
        ensures version { IfOk result (λ version. version ≡ self.now.readable) }
        ensures refusal { IfErr result (λ refusal. refusal ≡ Refusal.NoMemory) }
    {
        match self.latest.again() {
            Ok(version) => Ok(version),
            Err(_) => Err(Refusal::NoMemory),
        }
    }
}

/// Three owners of one version.
type Owners<W> = (W, W, W);

/// The version of tables which show a front's journal, with three owners.
///
/// The only refusal is `NoMemory`.
fn owners_of<A: Allocator + Copy, S: StoreName>(
    alloc: A,
    tables: &Manifest<A, S>,
    front: &Front<S>,
) -> Result<Owners<Version<A, S>>, Refusal>
    requires { ShowsJournal tables.now front.now }
    ensures versions { IfOk result (λ owners. (owners.0 ≡ front.now) × ((owners.1 ≡ front.now) × (owners.2 ≡ front.now))) }
    ensures refusal { IfErr result (λ refusal. refusal ≡ Refusal.NoMemory) }
{
    let first = version_of(alloc, tables, front)?;
    let second = first.again()?;
    let third = first.again()?;
    Ok((first, second, third))
}

/// Two of three owners.
fn two_of<W>(owners: Result<Owners<W>, Refusal>) -> Result<(W, W), Refusal>
where
    W: Shows + Drop,
    requires versions { IfOk owners (λ o. (W.journal o.0 ≡ []) × ((W.journal o.1 ≡ []) × (W.journal o.2 ≡ []))) }
    requires refusal { IfErr owners (λ refusal. refusal ≡ Refusal.NoMemory) }
    ensures nothing { IfOk result (λ two. (W.journal two.0 ≡ []) × (W.journal two.1 ≡ [])) }
    ensures refusal { IfErr result (λ refusal. refusal ≡ Refusal.NoMemory) }
{
    match owners {
        Ok((first, second, third)) => {
            drop(third);
            Ok((first, second))
        }
        Err(refusal) => Err(refusal),
    }
}

/// What is published at first, for the store and for its readers: no tables, which show that nothing was published. The only
/// refusal is `NoMemory`.
pub(crate) fn first_versions<A: Allocator + Copy, S: StoreName>(
    alloc: A,
    registries: &Registries<A>,
    front: &Front<S>,
) -> Result<(Version<A, S>, Version<A, S>), Refusal>
    requires empty { front.now ≡ [] }
    requires registries { AreShelves S.shelf registries.now }
    ensures nothing { IfOk result (λ versions. (versions.0 ≡ []) × (versions.1 ≡ [])) }
    ensures refusal { IfErr result (λ refusal. refusal ≡ Refusal.NoMemory) }
{
    empty_manifests_show_nothing();
    let tables = match Manifest::new(registries, alloc) {
        Ok(tables) => tables,
        Err(refusal) => return Err(refusal),
    };
    let owners = owners_of(alloc, &tables, front);
    drop(tables);
    two_of(owners)
}

/// Shows readers a version of all of a front's journal, if there is one: copies show it, it is the latest, and so much of the
/// history is shown. Gives the last owner. It knows copies and version by what they show alone.
///
/// The only refusal is `NoMemory`: then all stays as it was.
fn show_all<W, C, S>(
    copies: &mut C,
    latest: &mut W,
    shown: &mut Front<S>,
    front: &Front<S>,
    owners: Result<Owners<W>, Refusal>,
) -> Result<W, Refusal>
where
    W: Shows + Drop,
    C: VersionCopies<W, S>,
    S: StoreName,
    requires versions { IfOk owners (λ o. (W.journal o.0 ≡ front.now) × ((W.journal o.1 ≡ front.now) × (W.journal o.2 ≡ front.now))) }
    requires refusal { IfErr owners (λ refusal. refusal ≡ Refusal.NoMemory) }
    ensures version { IfOk result (λ version. W.journal version ≡ front.now) }
    ensures copies { OnOk result (C.shown copies.new ≡ front.now) }
    ensures latest { OnOk result (W.journal latest.new ≡ front.now) }
    ensures shown { OnOk result (shown.new ≡ front.now) }
    ensures kept { OnErr result ((C.shown copies.new ≡ C.shown copies.old) × ((latest.new ≡ latest.old) × (shown.new ≡ shown.old))) }
    ensures refusal { IfErr result (λ refusal. refusal ≡ Refusal.NoMemory) }
{
    let (version, again, given) = match owners {
        Ok(owners) => owners,
        Err(refusal) => return Err(refusal),
    };
    match copies.show(&mut Some(version), front) {
        Ok(()) => {
            *latest = again;
            *shown = front.again();
            Ok(given)
        }
        Err(refusal) => {
            drop(again);
            drop(given);
            Err(refusal)
        }
    }
}

/// Shows readers tables which show the history, and gives a version of them, one more owner of what readers see.
///
/// The only refusal is `NoMemory`: then readers see what they saw.
fn announce<C, A, S>(
    alloc: A,
    public: &mut Public<C, A, S>,
    tables: &Manifest<A, S>,
) -> Result<Version<A, S>, Refusal>
where
    C: VersionCopies<Version<A, S>, S> + Drop,
    A: Allocator + Copy,
    S: StoreName,
    requires { ShowsJournal tables.now public.old.front }
    ensures version { IfOk result (λ version. version ≡ public.old.front) }
    ensures all { OnOk result (public.new ≡ all_public public.old.front public.old.publications) }
    ensures front { public.new.front ≡ public.old.front }
    ensures refused { OnErr result (public.new ≡ public.old) }
    ensures refusal { IfErr result (λ refusal. refusal ≡ Refusal.NoMemory) }
{
    let owners = owners_of(alloc, tables, public.writer.front());
    show_all(
        &mut public.copies,
        &mut public.latest,
        &mut public.shown,
        public.writer.front(),
        owners,
    )
}

/// Goes on to the journal of a forest, which tables show: the history has it then, and readers see the tables. Gives a version
/// of them, one more owner of what readers see.
///
/// The only refusal is `NoMemory`: then readers see what they saw, and the history has the journal nevertheless, unless it had
/// as many publications as can be counted. It knows the forest's rows by what they can do alone: at
/// sealed tables, which are many types deep, a call of what is generic in ledgers would compare the whole forest's layout.
pub(crate) fn tell<R, A, S, C>(
    alloc: A,
    public: &mut Public<C, A, S>,
    forest: &Forest<R, A>,
    tables: &Manifest<A, S>,
) -> Result<Version<A, S>, Refusal>
where
    R: AllRows + Drop,
    A: Allocator + Copy,
    S: StoreName,
    C: VersionCopies<Version<A, S>, S> + Drop,
    requires lawful { IsLawful forest.now.journal }
    requires begins { IsPrefix public.old.front forest.now.journal }
    requires shows { ShowsJournal tables.now forest.now.journal }
    ensures version { IfOk result (λ version. version ≡ forest.now.journal) }
    ensures all { OnOk result (public.new ≡ all_public forest.now.journal (public.old.publications + 1)) }
    ensures history { OnErr result (ReachesUnlessFull forest.now.journal public.old public.new) }
    ensures begins { IsPrefix public.new.front forest.now.journal }
    ensures further { length public.old.front ≤ length public.new.front }
    ensures refused { OnErr result ((public.new.shown ≡ public.old.shown) × (public.new.readable ≡ public.old.readable)) }
    ensures refusal { IfErr result (λ refusal. refusal ≡ Refusal.NoMemory) }
{
    if !public.writer.extend(forest) {
        return Err(Refusal::NoMemory);
    }
    announce(alloc, public, tables)
}

/// Shows readers another version of what they see already, if there is one, by both copies. It knows copies and version by what
/// they show alone.
///
/// The only refusal is `NoMemory`: then readers see this version or the one from before.
fn show_twice<W, C, S>(
    copies: &mut C,
    latest: &mut W,
    shown: &Front<S>,
    owners: Result<Owners<W>, Refusal>,
) -> Result<(), Refusal>
where
    W: Shows + Drop,
    C: VersionCopies<W, S>,
    S: StoreName,
    requires versions { IfOk owners (λ o. (W.journal o.0 ≡ shown.now) × ((W.journal o.1 ≡ shown.now) × (W.journal o.2 ≡ shown.now))) }
    requires refusal { IfErr owners (λ refusal. refusal ≡ Refusal.NoMemory) }
    requires copies { C.shown copies.old ≡ shown.now }
    requires latest { W.journal latest.old ≡ shown.now }
    ensures copies { C.shown copies.new ≡ shown.now }
    ensures latest { W.journal latest.new ≡ shown.now }
    ensures refusal { IfErr result (λ refusal. refusal ≡ Refusal.NoMemory) }
{
    let (first, second, third) = match owners {
        Ok(owners) => owners,
        Err(refusal) => return Err(refusal),
    };
    match copies.show(&mut Some(first), shown) {
        Ok(()) => {
            *latest = third;
            copies.show(&mut Some(second), shown)
        }
        Err(refusal) => {
            drop(second);
            drop(third);
            Err(refusal)
        }
    }
}

/// Shows readers other tables, which show what readers see already, by both copies.
///
/// The only refusal is `NoMemory`: then readers see these tables or those from before.
pub(crate) fn show_again<C, A, S>(
    alloc: A,
    public: &mut Public<C, A, S>,
    tables: &Manifest<A, S>,
) -> Result<(), Refusal>
where
    C: VersionCopies<Version<A, S>, S> + Drop,
    A: Allocator + Copy,
    S: StoreName,
    requires { ShowsJournal tables.now public.old.readable }
    ensures same { public.new ≡ public.old }
    ensures refusal { IfErr result (λ refusal. refusal ≡ Refusal.NoMemory) }
{
    let owners = owners_of(alloc, tables, &public.shown);
    show_twice(
        &mut public.copies,
        &mut public.latest,
        &public.shown,
        owners,
    )
}
