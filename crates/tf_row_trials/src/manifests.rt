//! A manifest of all 21 rows, of which the row expiry is tried. This stands beside the trait, since a manifest is no type of the
//! crates above.

use crate::outcomes::{Outcome, keep, keep_found, outcome_of};
use crate::subject::{Mergeable, Subject};
use crate::tables::{key, push, put_in_front, table};
use crate::trials::LIMIT;
use std::alloc::Global;
use std::sync::Wait;
use tf_manifest::{Job, Manifest, Merged, Row, UnitRow, Value};
use tf_records::Refusal;
use tf_registry::{Held, Naming};
use tf_table::Key;

impl<N: Naming> Mergeable<Global, Merged<Global, N>> for Job<Global, N> {
    fn merge_into(
        &self,
        alloc: Global,
        place: &mut Option<Merged<Global, N>>,
    ) -> Result<(), Refusal> {
        keep(self.merge(alloc), place)
    }
}

impl<N: Naming> Subject<Global> for Manifest<Global, N> {
    type Job = Job<Global, N>;

    type Merged = Merged<Global, N>;

    fn grow<R: Wait>(&mut self, rt: &R, alloc: Global, number: u64, entry: Option<u64>) -> bool {
        let is_first = self.references(Row::Expiry) == 0;
        match table(alloc, number, entry.map(|_| ()), is_first) {
            Ok(table) => put(rt, self, table),
            Err(_) => false,
        }
    }

    fn next_run(&self, place: &mut Option<Job<Global, N>>) {
        keep_found(self.pick(Row::Expiry), place);
    }

    fn put_in_place<R: Wait>(
        &mut self,
        rt: &R,
        place: &mut Option<Merged<Global, N>>,
    ) -> Option<Outcome> {
        let out = place.take()?;
        Some(outcome_of(self.install(rt, out), place))
    }

    fn copy(&self, alloc: Global, place: &mut Option<Self>) {
        // Without memory there is none.
        let _ = keep(self.again(alloc), place);
    }

    fn value(&self, number: u64) -> Option<Option<u64>> {
        match self.find(Row::Expiry, &key(number)) {
            Some(Value::Unit) => Some(Some(number)),
            _ => None,
        }
    }

    fn looks(&self, tables: u32, numbers: u64, pushed: u32) -> bool {
        self.references(Row::Expiry) == tables
            && all_tables(self) == tables
            && self.pushed() == pushed
            && self.limit() == LIMIT
            && has_keys(self, numbers)
    }
}

/// Pushes a table, and puts it in front of those of the row expiry. It tells whether there was room for it.
fn put<N: Naming, R: Wait>(
    rt: &R,
    manifest: &mut Manifest<Global, N>,
    table: Held<(), Global>,
) -> bool {
    let at = UnitRow::Expiry.index();
    let before = manifest.pushes;
    match push(rt, &manifest.units, at, &mut manifest.pushes, table) {
        Ok(pushed) => {
            put_in_front(&mut manifest.units, at, before, pushed);
            true
        }
        Err(_) => false,
    }
}

/// How many tables all rows have.
fn all_tables<N: Naming>(manifest: &Manifest<Global, N>) -> u32 {
    let mut tables = 0u32;
    for row in Row::ALL {
        tables = tables.saturating_add(manifest.references(row));
    }
    tables
}

/// Whether the row expiry has exactly the keys of the numbers below `keys`, each found, and the first above the one before.
fn has_keys<N: Naming>(manifest: &Manifest<Global, N>, keys: u64) -> bool {
    let mut below = Key::LEAST;
    for number in 0..keys {
        let here = key(number);
        if !has_next(manifest, &below, &here) {
            return false;
        }
        below = here;
    }
    let end = key(keys);
    manifest.find(Row::Expiry, &end).is_none()
        && manifest.first_above(Row::Expiry, &below).is_none()
}

/// Whether the row expiry has a key, and it is the first above the other.
fn has_next<N: Naming>(manifest: &Manifest<Global, N>, below: &Key, here: &Key) -> bool {
    matches!(manifest.find(Row::Expiry, here), Some(Value::Unit))
        && manifest.first_above(Row::Expiry, below) == Some(*here)
}
