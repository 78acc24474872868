//! What is counted once all workers of a storm are joined.
ghost use Rattle.std.specs.Prelude.{◌≡◌, ◌<◌, vec_len, IfOk};
ghost use Rattle.tf_store.specs.Book.{book_of};

use crate::shared::SharedStore;
use crate::storms::Totals;
use std::alloc::Global;
use tf_crew::{Done, Joined, StormFault};
use tf_rows::MutableRows;
use tf_store::{Share, StoreName, StoredCopies};

/// The sum of all shares of a store, which is its book. It is a function of its own: no other here compares what the store's parts
/// make up.
fn gather<T, C, S>(shared: &mut SharedStore<T, C, Global, S>, shares: Vec<Share<S>, Global>) -> u64
where
    T: MutableRows + Drop,
    C: StoredCopies + Drop,
    S: StoreName,
    requires { (0 < vec_len shares) × (vec_len shares ≡ S.parts) }
    ensures book { result ≡ book_of shared.old.store.forest.journal }
    ensures same { shared.new.store ≡ shared.old.store }
{
    shared.store.gather(shares)
}

/// The store and what was counted, once all workers are joined.
pub(crate) fn settle<T, C, S>(
    shared: SharedStore<T, C, Global, S>,
    clients: u64,
    joined: Result<Joined<Share<S>>, StormFault>,
) -> Result<(SharedStore<T, C, Global, S>, Totals, Vec<Done, Global>), StormFault>
where
    T: MutableRows + Drop,
    C: StoredCopies + Drop,
    S: StoreName,
    requires some { 0 < clients }
    requires all { clients ≡ S.parts }
    requires shares { IfOk joined (λ joined. vec_len joined.shares ≡ clients) }
    ensures clients { IfOk result (λ r. r.1.clients ≡ clients) }
    ensures stored { IfOk result (λ r. r.1.stored ≡ book_of r.0.store.forest.journal) }
    ensures shares { IfOk result (λ r. r.1.shares ≡ r.1.stored) }
{
    match joined {
        Ok(
            Joined {
                shares,
                done,
                complete,
            },
        ) => {
            let mut shared = shared;
            let sum = gather(&mut shared, shares);
            let totals = Totals {
                clients,
                stored: shared.store.facts(),
                shares: sum,
                complete,
            };
            Ok((shared, totals, done))
        }
        Err(fault) => {
            drop(shared);
            Err(fault)
        }
    }
}
