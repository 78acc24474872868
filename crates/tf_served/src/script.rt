//! Runs scripts over a store of their own.
ghost use Rattle.std.specs.Prelude.{◌≡◌, [], true, vec_len, OnOk, IfErr, IfOk};
ghost use Rattle.tf_manifest.specs.Registries.{AreShelves};
ghost use Rattle.tf_script.specs.CommandViews.{commands_of};
ghost use Rattle.tf_main.specs.Script.{FaultTells, HasAnswered, IsAnswered};
ghost use Rattle.tf_served.specs.Rooms.{IsReference};
ghost use Rattle.tf_served.specs.Served.{StopsServing};
ghost use Rattle.tf_store.specs.Rooms.{FitsRows};

use std::alloc::Allocator;
use std::io::Write;
use std::marker::Brand;
use std::sync::Wait;
use tf_main::{RunFault, read_script};
use tf_manifest::Registries;
use tf_mutable_rows::MutableTables;
use tf_query::Version;
use tf_readers::{Copies, Publishable};
use tf_records::Refusal;
use tf_rows::{EmptyRows, SealRows};
use tf_script::Command;
use tf_serving::Served;
use tf_store::{BlankStore, Share, Store, StoreName, StoreOf, VersionCopies, VersionOf};

/// Runs a script over an empty store and writes what its commands print. The whole script is read before any of it is run.
///
/// It may wait in pushes. Takes memory for the script's commands, for the registries and the store, for what commands store
/// and publish, for each batch's failed events and each query's rows; printing takes none.
///
/// # Errors
///
/// - `RunFault::BadLine` with the place of the script's first fault, if it has one: nothing was run.
/// - `RunFault::CannotWrite` where the writer failed: what was written is a part of the answer, from its first byte on.
/// - `RunFault::NoMemory` where a growth was refused, at a script without a fault: what was written is the output of the
///   commands before one that isn't refused itself, each whole.
pub fn run_script<R: Wait, A: Allocator + Copy + Drop, W: Write>(
    rt: &R,
    alloc: A,
    script: &[u8],
    out: &mut W,
) -> Result<(), RunFault>
    ensures answered { OnOk result (IsAnswered true script.now (W.contents out.old) (W.contents out.new)) }
    ensures fault { IfErr result (FaultTells true script.now (W.contents out.old) (W.contents out.new)) }
{
    match read_script(alloc, script) {
        Ok(commands) => run_with_registries(rt, &alloc, commands.as_slice(), out),
        Err(fault) => Err(fault),
    }
}

/// Runs commands over a store with registries of its own, at an allocator that is laid out as a reference.
fn run_with_registries<R: Wait, A: Allocator + Copy + Drop, B: Allocator, W: Write>(
    rt: &R,
    alloc: A,
    commands: &[Command<B>],
    out: &mut W,
) -> Result<(), RunFault>
    requires { IsReference A.row }
    ensures answered { OnOk result (HasAnswered true (commands_of commands.now) (W.contents out.old) (W.contents out.new)) }
    ensures fault { IfErr result (StopsServing (commands_of commands.now) (W.contents out.old) (W.contents out.new)) }
{
    match Registries::new(alloc) {
        Ok(registries) => run_named::<Brand, R, A, B, W>(
            rt,
            alloc,
            &registries,
            BlankStore::new(1),
            commands,
            out,
        ),
        Err(_) => Err(RunFault::NoMemory),
    }
}

/// Runs commands over a store of this name.
fn run_named<S: StoreName, R: Wait, A: Allocator + Copy + Drop, B: Allocator, W: Write>(
    rt: &R,
    alloc: A,
    registries: &Registries<A>,
    blank: BlankStore,
    commands: &[Command<B>],
    out: &mut W,
) -> Result<(), RunFault>
    requires reference { IsReference A.row }
    requires name { blank.ledger.name ≡ S.name }
    requires parts { (blank.ledger.parts ≡ S.parts) × (S.parts ≡ 1) }
    requires history { blank.history ≡ S.history }
    requires registries { AreShelves S.shelf registries.now }
    requires limit { registries.now.limit ≡ 1048576 }
    ensures answered { OnOk result (HasAnswered true (commands_of commands.now) (W.contents out.old) (W.contents out.new)) }
    ensures fault { IfErr result (StopsServing (commands_of commands.now) (W.contents out.old) (W.contents out.new)) }
{
    run_with_rows::<MutableTables<A>, A, S, R, B, W>(rt, alloc, registries, blank, commands, out)
}

/// Runs commands over a store with mutable tables of type `T`.
fn run_with_rows<T, A, S, R, B, W>(
    rt: &R,
    alloc: A,
    registries: &Registries<A>,
    blank: BlankStore,
    commands: &[Command<B>],
    out: &mut W,
) -> Result<(), RunFault>
where
    T: EmptyRows<A> + SealRows<A> + Drop,
    A: Allocator + Copy,
    S: StoreName,
    R: Wait,
    B: Allocator,
    W: Write,
    requires fits { FitsRows T.row }
    requires name { blank.ledger.name ≡ S.name }
    requires parts { (blank.ledger.parts ≡ S.parts) × (S.parts ≡ 1) }
    requires history { blank.history ≡ S.history }
    requires registries { AreShelves S.shelf registries.now }
    requires limit { registries.now.limit ≡ 1048576 }
    ensures answered { OnOk result (HasAnswered true (commands_of commands.now) (W.contents out.old) (W.contents out.new)) }
    ensures fault { IfErr result (StopsServing (commands_of commands.now) (W.contents out.old) (W.contents out.new)) }
{
    run_with_versions::<T, Version<A, S>, A, S, R, B, W>(
        rt, alloc, registries, blank, commands, out,
    )
}

/// Makes a store with one share and one reader, which nobody asks, and runs commands over it. It is generic in the version that
/// readers are shown, which is named where no store is.
fn run_with_versions<T, V, A, S, R, B, W>(
    rt: &R,
    alloc: A,
    registries: &Registries<A>,
    blank: BlankStore,
    commands: &[Command<B>],
    out: &mut W,
) -> Result<(), RunFault>
where
    T: EmptyRows<A> + SealRows<A> + Drop,
    V: VersionOf<Version<A, S>> + Publishable + Drop,
    A: Allocator + Copy,
    S: StoreName,
    R: Wait,
    B: Allocator,
    W: Write,
    requires fits { FitsRows T.row }
    requires name { blank.ledger.name ≡ S.name }
    requires parts { (blank.ledger.parts ≡ S.parts) × (S.parts ≡ 1) }
    requires history { blank.history ≡ S.history }
    requires registries { AreShelves S.shelf registries.now }
    requires limit { registries.now.limit ≡ 1048576 }
    ensures answered { OnOk result (HasAnswered true (commands_of commands.now) (W.contents out.old) (W.contents out.new)) }
    ensures fault { IfErr result (StopsServing (commands_of commands.now) (W.contents out.old) (W.contents out.new)) }
{
    serve_opened(
        rt,
        alloc,
        StoreOf::<T, Copies<V, A, S, &R>, A, S>::new(alloc, rt, registries, blank, 1, 1),
        commands,
        out,
    )
}

/// Runs commands over a new store, if there was memory for it. Nobody asks its readers. It is generic in them and in what they
/// enter, so that no check takes those apart.
fn serve_opened<T, A, S, C, D, R, B, W>(
    rt: &R,
    alloc: A,
    opened: Result<(StoreOf<T, C, A, S>, Vec<Share<S>, A>, D), Refusal>,
    commands: &[Command<B>],
    out: &mut W,
) -> Result<(), RunFault>
where
    T: SealRows<A> + Drop,
    A: Allocator + Copy,
    S: StoreName,
    C: VersionCopies<Version<A, S>, S> + Drop,
    D: Drop,
    R: Wait,
    B: Allocator,
    W: Write,
    requires shares { IfOk opened (λ o. vec_len o.1 ≡ 1) }
    requires limit { IfOk opened (λ o. o.0.forest.sealed.tables.pushed.limit ≡ 1048576) }
    requires journal { IfOk opened (λ o. o.0.forest.journal ≡ []) }
    requires clock { IfOk opened (λ o. o.0.forest.clock ≡ 0) }
    requires published { IfOk opened (λ o. o.0.forest.sealed.counts.publishes ≡ 0) }
    ensures answered { OnOk result (HasAnswered true (commands_of commands.now) (W.contents out.old) (W.contents out.new)) }
    ensures fault { IfErr result (StopsServing (commands_of commands.now) (W.contents out.old) (W.contents out.new)) }
{
    match opened {
        Ok((store, shares, _readers)) => {
            let mut store = store;
            let ended = serve(rt, alloc, &mut store, shares, commands, out);
            store.close();
            ended
        }
        Err(_) => Err(RunFault::NoMemory),
    }
}

/// Runs commands over a store that nothing was stored in.
fn serve<T, A, S, C, R, B, W>(
    rt: &R,
    alloc: A,
    store: &mut StoreOf<T, C, A, S>,
    mut shares: Vec<Share<S>, A>,
    commands: &[Command<B>],
    out: &mut W,
) -> Result<(), RunFault>
where
    T: SealRows<A> + Drop,
    A: Allocator + Copy,
    S: StoreName,
    C: VersionCopies<Version<A, S>, S> + Drop,
    R: Wait,
    B: Allocator,
    W: Write,
    requires shares { vec_len shares ≡ 1 }
    requires limit { store.old.forest.sealed.tables.pushed.limit ≡ 1048576 }
    requires journal { store.old.forest.journal ≡ [] }
    requires clock { store.old.forest.clock ≡ 0 }
    requires published { store.old.forest.sealed.counts.publishes ≡ 0 }
    ensures answered { OnOk result (HasAnswered true (commands_of commands.now) (W.contents out.old) (W.contents out.new)) }
    ensures fault { IfErr result (StopsServing (commands_of commands.now) (W.contents out.old) (W.contents out.new)) }
{
    let Some(share) = shares.pop() else {
        unreachable!()
    };
    let mut served = Served::new(rt, alloc, store, share);
    let ended = served.run_commands(commands, out);
    let _share = served.into_share();
    ended
}
