//! New stores.
ghost use Rattle.std.specs.Prelude.{◌≡◌, ◌<◌, [], vec_len, IfOk, IfErr};
ghost use Rattle.std.specs.List.{All};
ghost use Rattle.tf_history.specs.Written.{nothing_written};
ghost use Rattle.tf_manifest.specs.Registries.{AreShelves};
ghost use Rattle.tf_rows.specs.Counts.{nothing_sealed};
ghost use Rattle.tf_publish.specs.Tables.{nothing_fresh};
ghost use Rattle.tf_readers.specs.Reader.{HasSeen};

use crate::assembly::{Names, over_rows};
use crate::copies::version_in;
use crate::public::first_versions;
use crate::{BlankStore, Share, Store, StoreName, StoreOf, StoredCopies, StoredForest, VersionOf};
use std::alloc::Allocator;
use std::sync::{Wait, ledger};
use tf_forest::Forest;
use tf_manifest::Registries;
use tf_publish::Rows;
use tf_query::Version;
use tf_readers::{Copies, Publishable, Published, Reader, open};
use tf_records::Refusal;
use tf_rows::EmptyRows;

/// Cuts a whole share of the ledger into so many shares, each 0.
fn cut<S: StoreName, A: Allocator>(
    alloc: A,
    whole: ledger::Share<S>,
    shares: u32,
) -> Result<Vec<Share<S>, A>, Refusal>
    requires { (whole.parts ≡ shares) × (whole.amount ≡ 0) }
    ensures shares { IfOk result (λ cut. (vec_len cut ≡ shares) × All (λ s. s ≡ 0) cut.items) }
    ensures refusal { IfErr result (λ refusal. refusal ≡ Refusal.NoMemory) }
{
    let mut whole = whole;
    let mut cut = Vec::with_capacity(alloc, shares as usize)?;
    for _share in 0..shares {
        cut.push(Share {
            count: 0,
            token: whole.split_off(1, 0),
        })?;
    }
    Ok(cut)
}

/// What a new store is made of beside its rows: its names, its shares, and the empty versions for it and for readers.
type Begun<V, A, S> = (Names<S>, Vec<Share<S>, A>, (Version<A, S>, V));

/// Takes a blank store's names, and cuts its shares.
fn begin<V, A, S>(
    alloc: A,
    registries: &Registries<A>,
    blank: BlankStore,
    shares: u32,
) -> Result<Begun<V, A, S>, Refusal>
where
    V: VersionOf<Version<A, S>> + Drop,
    A: Allocator + Copy,
    S: StoreName,
    requires some { 0 < shares }
    requires name { blank.ledger.name ≡ S.name }
    requires parts { (blank.ledger.parts ≡ S.parts) × (S.parts ≡ shares) }
    requires history { blank.history ≡ S.history }
    requires registries { AreShelves S.shelf registries.now }
    ensures names { IfOk result (λ r. (r.0.0.total ≡ 0) × (r.0.1 ≡ nothing_written)) }
    ensures shares { IfOk result (λ r. (vec_len r.1 ≡ shares) × All (λ s. s ≡ 0) r.1.items) }
    ensures versions { IfOk result (λ r. (r.2.0 ≡ []) × (V.journal r.2.1 ≡ [])) }
    ensures refusal { IfErr result (λ refusal. refusal ≡ Refusal.NoMemory) }
{
    let BlankStore { ledger, history } = blank;
    let (book, whole) = ledger.open::<S>();
    let writer = history.named::<S>();
    let shares = cut(alloc, whole, shares)?;
    let (first, again) = first_versions(alloc, registries, writer.front())?;
    Ok((
        (book, writer),
        shares,
        (first, version_in(&mut Some(again))),
    ))
}

/// A new store, its shares, and its readers, which enter versions `V`.
pub type NewStore<T, V, A, S, R> = (
    StoreOf<T, Copies<V, A, S, R>, A, S>,
    Vec<Share<S>, A>,
    Vec<Reader<V, A, S>, A>,
);

impl<T, V, A, S, R> Store<Forest<Rows<T, A, S>, A>, Copies<V, A, S, R>, A, S>
where
    T: EmptyRows<A> + Drop,
    V: VersionOf<Version<A, S>> + Publishable + Drop,
    A: Allocator + Copy,
    S: StoreName,
    R: Wait + Drop,
{
    /// An empty store over these registries, its shares, each 0, and as many readers as are asked for. What readers enter, `V`, is
    /// `Version<A, S>`. `NoMemory` is the only refusal.
    pub fn new(
        alloc: A,
        rt: R,
        registries: &Registries<A>,
        blank: BlankStore,
        shares: u32,
        readers: u32,
    ) -> Result<NewStore<T, V, A, S, R>, Refusal>
        requires some { 0 < shares }
        requires name { blank.ledger.name ≡ S.name }
        requires parts { (blank.ledger.parts ≡ S.parts) × (S.parts ≡ shares) }
        requires history { blank.history ≡ S.history }
        requires registries { AreShelves S.shelf registries.now }
        ensures empty { IfOk result (λ r. (r.0.forest.journal ≡ []) × (r.0.forest.clock ≡ 0) × (r.0.waiting ≡ [])) }
        ensures fresh { IfOk result (λ r. (r.0.forest.fresh ≡ nothing_fresh) × (r.0.forest.needed ≡ 0) × (r.0.forest.waiting ≡ 0)) }
        ensures readable { IfOk result (λ r. r.0.readable ≡ []) }
        ensures sealed { IfOk result (λ r. r.0.forest.sealed ≡ nothing_sealed registries.now.limit) }
        ensures shares { IfOk result (λ r. (vec_len r.1 ≡ shares) × All (λ s. s ≡ 0) r.1.items) }
        ensures readers { IfOk result (λ r. (vec_len r.2 ≡ readers) × All (HasSeen []) r.2.items) }
        ensures refusal { IfErr result (λ refusal. refusal ≡ Refusal.NoMemory) }
    {
        let (names, shares, (latest, version)) = match begin(alloc, registries, blank, shares) {
            Ok(begun) => begun,
            Err(refusal) => return Err(refusal),
        };
        let page = Published::new(version, names.1.front());
        let opened = open(alloc, rt, &page, readers);
        drop(page);
        over_rows(alloc, registries, names, shares, latest, opened)
    }
}

impl<F: StoredForest + Drop, C: StoredCopies + Drop, A: Allocator + Copy, S: StoreName> Store<
    F,
    C,
    A,
    S,
> {
    /// Uses the store up. It waits for readers that are reading right now; they go on with what they hold, and enter nothing
    /// more.
    pub fn close(self) {}
}
