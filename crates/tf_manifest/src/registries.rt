//! The registries of all kinds of values.
ghost use Rattle.std.specs.Prelude.{◌≡◌, ◌≤◌, IfOk, IfErr, min};

use crate::four::four;
use crate::{IdStamp, State, Stored};
use std::alloc::Allocator;
use std::sync::Arc;
use tf_journal::Status;
use tf_records::{Account, Refusal, Sums, Transfer};
use tf_registry::{Pushes, Registry, TableValue};

/// A registry that may have several owners.
type Shared<V, A> = Arc<Registry<V, A>, A>;

/// A registry for each kind of value, and how many tables a store may push into all of them together.
///
/// Who makes a store makes these first. The store's manifests own them too, so they may be let go once it is made.
#[derive(Drop)]
pub struct Registries<A: Allocator> {
    pub stamps: Arc<Registry<u64, A>, A>,
    pub accounts: Arc<Registry<Stored<Account>, A>, A>,
    pub transfers: Arc<Registry<Stored<Transfer>, A>, A>,
    pub ids: Arc<Registry<IdStamp, A>, A>,
    pub units: Arc<Registry<(), A>, A>,
    pub states: Arc<Registry<State, A>, A>,
    pub sums: Arc<Registry<Stored<Sums>, A>, A>,
    pub statuses: Arc<Registry<Stored<Status>, A>, A>,
    /// How many tables may be pushed.
    pub limit: u32,
    pub ghost limited: { limit ≤ 1048576 },
}

impl<A: Allocator + Clone> Registries<A> {
    /// Registries with no tables, under the greatest limit. They take memory for a row of buckets each, and for the count
    /// of its owners. The only refusal is `NoMemory`.
    pub fn new(alloc: A) -> Result<Registries<A>, Refusal>
        ensures limit { IfOk result (λ registries. registries.limit ≡ 1048576) }
        ensures err { IfErr result (λ refusal. refusal ≡ Refusal.NoMemory) }
    {
        Registries::with_limit(alloc, Pushes::MOST)
    }

    /// Registries with no tables, under this limit: a limit above the greatest is the greatest, and at 0 nothing may be
    /// pushed. The only refusal is `NoMemory`.
    pub fn with_limit(alloc: A, limit: u32) -> Result<Registries<A>, Refusal>
        ensures limit { IfOk result (λ registries. registries.limit ≡ min limit 1048576) }
        ensures err { IfErr result (λ refusal. refusal ≡ Refusal.NoMemory) }
    {
        let pairs = four(two(&alloc), two(&alloc), two(&alloc), two(&alloc));
        let Some((records, states)) = pairs else {
            return Err(Refusal::NoMemory);
        };
        let ((stamps, accounts), (transfers, ids)) = records;
        let ((units, states), (sums, statuses)) = states;
        Ok(Registries {
            stamps,
            accounts,
            transfers,
            ids,
            units,
            states,
            sums,
            statuses,
            limit: limit.min(Pushes::MOST),
        })
    }
}

/// Two registries with no tables, each for a kind of value.
type Two<V, W, A> = (Shared<V, A>, Shared<W, A>);

/// Two registries with no tables, if there is memory for them.
fn two<V: TableValue, W: TableValue, A: Allocator + Clone>(alloc: &A) -> Option<Two<V, W, A>> {
    one(alloc).zip(one(alloc))
}

/// A registry with no tables, if there is memory for it.
fn one<V: TableValue, A: Allocator + Clone>(alloc: &A) -> Option<Shared<V, A>> {
    let registry = Registry::new(alloc.clone().ok()?).ok()?;
    Arc::new(alloc.clone().ok()?, registry).ok()
}
