//! Where the rows of a value are expected in the tables of a row.
ghost use Rattle.std.specs.Prelude.{◌≡◌, ◌≤◌, length};

use std::alloc::Allocator;
use tf_manifest::RowValue;
use tf_registry::{Naming, TableRef, Tables};
use tf_table::{Key, Probe, take_turns};

/// The place at which the first row of a value is expected in a table where none is known.
pub const ANYWHERE: usize = usize::MAX;

/// The place at which the first row of a value is expected in one of the tables of a row, by those of the first tables.
#[inline]
pub fn expected_in(expected: &[usize], table: usize) -> usize {
    match expected.get(table) {
        Some(place) => *place,
        None => ANYWHERE,
    }
}

/// How many searches take turns at once.
const TURNS: usize = 16;

/// Searches in tables for a key, which have not begun.
fn probes<'r, V: RowValue, A: Allocator, N: Naming>(
    references: &'r [TableRef<V, A, N>],
    key: &Key,
) -> [Probe<'r>; TURNS]
    requires { length references.now ≤ 16 }
{
    let mut probes = [Probe::ended(); TURNS];
    for place in 0..references.len() {
        probes[place] = references[place].table().table().probe(key);
    }
    probes
}

/// Where a search has ended in a table, or one behind it where a tombstone stands there.
///
/// So the entry there is read, and those of several tables come from memory together.
#[inline]
fn ended_at<V: RowValue, A: Allocator, N: Naming>(
    reference: &TableRef<V, A, N>,
    probe: &Probe<'_>,
) -> usize {
    let place = probe.place();
    let is_tombstone = reference.table().table().is_tombstone_at(place);
    place.saturating_add(usize::from(is_tombstone))
}

/// Puts the places at which a key is expected in tables at the front of `out`, each at the place of its table.
///
/// The searches for them take turns, so that none waits for what another reads.
fn expect_in_turns<V: RowValue, A: Allocator, N: Naming>(
    references: &[TableRef<V, A, N>],
    key: &Key,
    out: &mut [usize],
)
    requires few { length references.now ≤ 16 }
    requires room { length references.now ≤ length out.old }
    ensures { length out.new ≡ length out.old }
{
    let mut probes = probes(references, key);
    take_turns(&mut probes[..references.len()]);
    for place in 0..references.len() {
        out[place] = ended_at(&references[place], &probes[place]);
    }
}

/// The places at which the first row of a value is expected in the tables of a row, each at the place of its table. They are
/// hints: what is found there says what a table has.
///
/// All tables are searched, 16 at a time, whether they will be read or not, and of each the first entry is read. The searches
/// take turns, so that what they read comes from memory together. It takes as many rounds as the logarithm of the rows of the
/// greatest table, and no memory.
pub fn expected_places<V: RowValue, A: Allocator, N: Naming>(
    tables: &Tables<V, A, N>,
    value: u128,
) -> [usize; 64] {
    let references = tables.references();
    let first = Key {
        value,
        timestamp: 0,
    };
    let mut expected = [ANYWHERE; 64];
    let mut from = 0;
    while from < references.len() {
        let to = (from + TURNS).min(references.len());
        expect_in_turns(&references[from..to], &first, &mut expected[from..to]);
        from = to;
    }
    expected
}
