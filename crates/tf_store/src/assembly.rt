//! An empty store, put together of what was made for it.
//!
//! That takes the prover the most memory, and it proves this module first, while it holds little else.
ghost use Rattle.std.specs.Prelude.{◌≡◌, ℕ, [], true, is_ok, Ok, IfOk, IfErr};
ghost use Rattle.tf_history.specs.Written.{nothing_written};
ghost use Rattle.tf_manifest.specs.Registries.{AreShelves};
ghost use Rattle.tf_rows.specs.Counts.{nothing_sealed};
ghost use Rattle.tf_rows.specs.Nest.{AreEmpty};
ghost use Rattle.tf_publish.specs.Tables.{nothing_fresh};

use crate::public::Public;
use crate::queue::Queue;
use crate::tally::Tally;
use crate::{Share, Store, StoreName, StoredCopies};
use std::alloc::Allocator;
use std::sync::ledger::Book;
use tf_forest::Forest;
use tf_history::Writer;
use tf_manifest::Registries;
use tf_publish::Rows;
use tf_query::{Version, empty_manifests_show_nothing};
use tf_records::Refusal;
use tf_rows::{AllRows, EmptyRows};

/// The names of a store: its book, and the right to add to its history.
pub(crate) type Names<S> = (Book<S>, Writer<S>);

/// Both of what was made, or the refusal of either.
fn both<X: Drop, Y: Drop>(
    first: Result<X, Refusal>,
    second: Result<Y, Refusal>,
) -> Result<(X, Y), Refusal>
    requires first { IfErr first (λ refusal. refusal ≡ Refusal.NoMemory) }
    requires second { IfErr second (λ refusal. refusal ≡ Refusal.NoMemory) }
    ensures first { IfOk result (λ r. first ≡ Ok r.0) }
    ensures second { IfOk result (λ r. second ≡ Ok r.1) }
    ensures refusal { IfErr result (λ refusal. refusal ≡ Refusal.NoMemory) }
{
    let first = match first {
        Ok(first) => first,
        Err(refusal) => return Err(refusal),
    };
    match second {
        Ok(second) => Ok((first, second)),
        Err(refusal) => Err(refusal),
    }
}

/// A new store over the rows `R`, its shares, and what was opened beside the copies `C` that its readers enter.
pub(crate) type Opening<R, C, H, A, S> = (Store<Forest<R, A>, C, A, S>, Vec<Share<S>, A>, H);

/// An empty store with its shares, over copies that were opened and rows that were made, or the refusal of either. It knows the
/// rows by what they can do alone, since they are many types deep, and copies by what they show.
fn over_made<R, C, H, A, S>(
    alloc: A,
    names: Names<S>,
    shares: Vec<Share<S>, A>,
    latest: Version<A, S>,
    opened: Result<(C, H), Refusal>,
    rows: Result<R, Refusal>,
) -> Result<Opening<R, C, H, A, S>, Refusal>
where
    R: AllRows + Drop,
    C: StoredCopies + Drop,
    H: Drop,
    A: Allocator + Copy,
    S: StoreName,
    requires names { (names.0.total ≡ 0) × (names.1 ≡ nothing_written) }
    requires latest { latest ≡ [] }
    requires shown { IfOk opened (λ o. C.shown o.0 ≡ []) }
    requires none { IfErr opened (λ refusal. refusal ≡ Refusal.NoMemory) }
    requires empty { IfOk rows (λ rows. AreEmpty (R.parts rows)) }
    requires sealed { (limit : ℕ) × IfOk rows (λ rows. R.sealed rows ≡ nothing_sealed limit) }
    requires refusal { IfErr rows (λ refusal. refusal ≡ Refusal.NoMemory) }
    ensures empty { IfOk result (λ r. (r.0.forest.journal ≡ []) × (r.0.forest.clock ≡ 0) × (r.0.waiting ≡ [])) }
    ensures fresh { IfOk result (λ r. (r.0.forest.fresh ≡ nothing_fresh) × (r.0.forest.needed ≡ 0) × (r.0.forest.waiting ≡ 0)) }
    ensures readable { IfOk result (λ r. r.0.readable ≡ []) }
    ensures sealed { (limit : ℕ) → IfOk rows (λ rows. R.sealed rows ≡ nothing_sealed limit) → IfOk result (λ r. r.0.forest.sealed ≡ nothing_sealed limit) }
    ensures shares { IfOk result (λ r. r.1 ≡ shares) }
    ensures beside { IfOk result (λ r. IfOk opened (λ o. r.2 ≡ o.1)) }
    ensures opened { is_ok result ≡ true → is_ok opened ≡ true }
    ensures refusal { IfErr result (λ refusal. refusal ≡ Refusal.NoMemory) }
{
    match both(opened, rows) {
        Ok(made) => {
            let ((copies, beside), rows) = made;
            let (book, writer) = names;
            empty_manifests_show_nothing();
            let store = Store {
                forest: Forest::new(alloc, rows),
                tally: Tally::new(book),
                public: Public::empty(writer, copies, latest),
                queue: Queue::new(alloc),
                alloc,
            };
            Ok((store, shares, beside))
        }
        Err(refusal) => Err(refusal),
    }
}

/// The same over rows that are made here. It names them where no version is.
pub(crate) fn over_rows<T, C, H, A, S>(
    alloc: A,
    registries: &Registries<A>,
    names: Names<S>,
    shares: Vec<Share<S>, A>,
    latest: Version<A, S>,
    opened: Result<(C, H), Refusal>,
) -> Result<Opening<Rows<T, A, S>, C, H, A, S>, Refusal>
where
    T: EmptyRows<A> + Drop,
    C: StoredCopies + Drop,
    H: Drop,
    A: Allocator + Copy,
    S: StoreName,
    requires registries { AreShelves S.shelf registries.now }
    requires names { (names.0.total ≡ 0) × (names.1 ≡ nothing_written) }
    requires latest { latest ≡ [] }
    requires shown { IfOk opened (λ o. C.shown o.0 ≡ []) }
    requires none { IfErr opened (λ refusal. refusal ≡ Refusal.NoMemory) }
    ensures empty { IfOk result (λ r. (r.0.forest.journal ≡ []) × (r.0.forest.clock ≡ 0) × (r.0.waiting ≡ [])) }
    ensures fresh { IfOk result (λ r. (r.0.forest.fresh ≡ nothing_fresh) × (r.0.forest.needed ≡ 0) × (r.0.forest.waiting ≡ 0)) }
    ensures readable { IfOk result (λ r. r.0.readable ≡ []) }
    ensures sealed { IfOk result (λ r. r.0.forest.sealed ≡ nothing_sealed registries.now.limit) }
    ensures shares { IfOk result (λ r. r.1 ≡ shares) }
    ensures beside { IfOk result (λ r. IfOk opened (λ o. r.2 ≡ o.1)) }
    ensures opened { is_ok result ≡ true → is_ok opened ≡ true }
    ensures refusal { IfErr result (λ refusal. refusal ≡ Refusal.NoMemory) }
{
    let rows = Rows::new(alloc, registries);
    over_made(alloc, names, shares, latest, opened, rows)
}
