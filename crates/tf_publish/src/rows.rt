//! Mutable tables in front of the sealed ones of a manifest.
ghost use Rattle.std.specs.Prelude.{◌≡◌, refl, IfErr, IfOk};
ghost use Rattle.tf_manifest.specs.Registries.{AreShelves};
ghost use Rattle.tf_rows.specs.Counts.{nothing_sealed};
ghost use Rattle.tf_rows.specs.Nest.{AreEmpty, IsTree, fits_row, has_each};
ghost use Rattle.tf_rows.specs.Parts.{parts_of};

use crate::Published;
use std::alloc::Allocator;
use tf_manifest::{Registries, Row, Value};
use tf_records::{Refusal, Transfer};
use tf_registry::Naming;
use tf_rows::{AllRows, Before, EmptyRows, MutableRows, PutTransfer, RowSet};
use tf_table::Key;

/// Rows: what a row's mutable table has at a key comes before what its sealed tables have there.
#[derive(Drop)]
pub struct Rows<F: MutableRows + Drop, A: Allocator, N: Naming> {
    pub fresh: F,
    pub published: Published<A, N>,
}

impl<F: EmptyRows<A> + Drop, A: Allocator + Copy, N: Naming> Rows<F, A, N> {
    /// Mutable tables without entries, which grow on `alloc`, and no sealed ones, with nothing counted. It takes memory as
    /// `Manifest::new` does. The only refusal is `NoMemory`.
    pub fn new(alloc: A, registries: &Registries<A>) -> Result<Rows<F, A, N>, Refusal>
        requires { AreShelves N.shelf registries.now }
        ensures empty { IfOk result (λ rows. AreEmpty (parts_of (F.entries rows.fresh) rows.published.tables)) }
        ensures sealed { IfOk result (λ rows. rows.published ≡ nothing_sealed registries.now.limit) }
        ensures refusal { IfErr result (λ refusal. refusal ≡ Refusal.NoMemory) }
    {
        let published = Published::new(registries, alloc)?;
        Ok(Rows {
            fresh: F::empty(alloc),
            published,
        })
    }
}

impl<F: MutableRows + Drop, A: Allocator, N: Naming> RowSet for Rows<F, A, N> {
    ghost has_row = { has_each };

    ghost fits = { fits_row };

    ghost parts = { λ rows. parts_of (F.entries rows.fresh) rows.published.tables };

    ghost sealed = { λ rows. rows.published };

    ghost takes_any = { IsTree };

    fn has_row(_row: Row) -> bool {
        true
    }

    fn find(&self, row: Row, key: &Key) -> Option<Value> {
        match self.fresh.entry(row, key) {
            Some(entry) => entry,
            None => self.published.manifest().find(row, key),
        }
    }

    fn put(&mut self, row: Row, key: Key, entry: &Option<Value>) -> Result<Before, Refusal> {
        self.fresh.put(row, key, entry)
    }

    fn take_back(&mut self, row: Row, key: &Key, before: Before) {
        self.fresh.take_back(row, key, before);
    }

    fn put_transfer(&mut self, transfer: &Transfer) -> Result<(), Refusal> {
        self.fresh.put_transfer(transfer)
    }

    fn take_transfer(&mut self, transfer: &PutTransfer) {
        self.fresh.take_transfer(transfer);
    }
}

impl<F: MutableRows + Drop, A: Allocator, N: Naming> AllRows for Rows<F, A, N> {
    ghost has_all = { λ row. refl };

    ghost fits_kind = { λ row value fits. fits };

    ghost takes_trees = { λ row tree. tree };
}
