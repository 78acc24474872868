//! The rows of a manifest in two halves of four kinds each, made while there is memory.
ghost use Rattle.std.specs.Prelude.{◌≡◌, [], replicate, IfSome};
ghost use Rattle.std.specs.Arc.{arc_value};
ghost use Rattle.tf_manifest.specs.Halves.{AreRecords, AreStates};
ghost use Rattle.tf_manifest.specs.Registries.{AreShelves};
ghost use Rattle.tf_manifest.specs.View.{no_tables};

use crate::four::four;
use crate::{IdStamp, KindRows, Manifest, Registries, RowValue, StampRow, State, Stored, UnitRow};
use std::alloc::Allocator;
use std::sync::Arc;
use tf_journal::Status;
use tf_records::{Account, Sums, Transfer};
use tf_registry::{Naming, Registry};

/// The rows of two kinds of values.
type Two<V, W, A, N> = (KindRows<V, A, N>, KindRows<W, A, N>);

/// The rows of stamps, accounts, transfers and ids.
pub(crate) type Records<A, N> = (
    Two<u64, Stored<Account>, A, N>,
    Two<Stored<Transfer>, IdStamp, A, N>,
);

/// The rows of units, states, sums and statuses.
pub(crate) type States<A, N> = (
    Two<(), State, A, N>,
    Two<Stored<Sums>, Stored<Status>, A, N>,
);

/// So many rows with no tables, if there is memory for them.
fn new_rows<V: RowValue, A: Allocator + Clone, N: Naming>(
    registry: &Arc<Registry<V, A>, A>,
    count: usize,
    alloc: &A,
) -> Option<KindRows<V, A, N>>
    requires { arc_value registry.now ≡ N.shelf V.kind }
    ensures { IfSome result (λ rows. rows ≡ replicate count []) }
{
    KindRows::new(registry, count, alloc.clone().ok()?).ok()
}

/// The same rows again, if there is memory for them.
fn rows_again<V: RowValue, A: Allocator + Clone, N: Naming>(
    rows: &KindRows<V, A, N>,
    alloc: &A,
) -> Option<KindRows<V, A, N>>
    ensures { IfSome result (λ copy. copy ≡ rows.now) }
{
    rows.again(alloc.clone().ok()?).ok()
}

/// The first half of a manifest with no tables.
pub(crate) fn new_records<A: Allocator + Clone, N: Naming>(
    registries: &Registries<A>,
    alloc: &A,
) -> Option<Records<A, N>>
    requires { AreShelves N.shelf registries.now }
    ensures { IfSome result (AreRecords (no_tables registries.now.limit)) }
{
    let stamps = new_rows(&registries.stamps, StampRow::COUNT, alloc);
    let accounts = new_rows(&registries.accounts, 1, alloc);
    let transfers = new_rows(&registries.transfers, 1, alloc);
    let ids = new_rows(&registries.ids, 1, alloc);
    four(stamps, accounts, transfers, ids)
}

/// The second half of a manifest with no tables.
pub(crate) fn new_states<A: Allocator + Clone, N: Naming>(
    registries: &Registries<A>,
    alloc: &A,
) -> Option<States<A, N>>
    requires { AreShelves N.shelf registries.now }
    ensures { IfSome result (AreStates (no_tables registries.now.limit)) }
{
    let units = new_rows(&registries.units, UnitRow::COUNT, alloc);
    let states = new_rows(&registries.states, 1, alloc);
    let sums = new_rows(&registries.sums, 1, alloc);
    let statuses = new_rows(&registries.statuses, 1, alloc);
    four(units, states, sums, statuses)
}

/// A copy of the first half of a manifest.
pub(crate) fn records_again<A: Allocator + Clone, N: Naming>(
    manifest: &Manifest<A, N>,
    alloc: &A,
) -> Option<Records<A, N>>
    ensures { IfSome result (AreRecords manifest.now) }
{
    let stamps = rows_again(&manifest.stamps, alloc);
    let accounts = rows_again(&manifest.accounts, alloc);
    let transfers = rows_again(&manifest.transfers, alloc);
    let ids = rows_again(&manifest.ids, alloc);
    four(stamps, accounts, transfers, ids)
}

/// A copy of the second half of a manifest.
pub(crate) fn states_again<A: Allocator + Clone, N: Naming>(
    manifest: &Manifest<A, N>,
    alloc: &A,
) -> Option<States<A, N>>
    ensures { IfSome result (AreStates manifest.now) }
{
    let units = rows_again(&manifest.units, alloc);
    let states = rows_again(&manifest.states, alloc);
    let sums = rows_again(&manifest.sums, alloc);
    let statuses = rows_again(&manifest.statuses, alloc);
    four(units, states, sums, statuses)
}
