//! References to pushed tables.
ghost use Rattle.std.specs.Prelude.{◌≡◌, ◌==◌, ◌<◌, IfOk};

use crate::description::Description;
use crate::{Body, Held, Naming, TableValue};
use boxcar::Pushed;
use std::alloc::{AllocError, Allocator};
use std::marker::{Model, PhantomData};
use std::sync::Arc;

/// The number of a pushed table, which shows that table for good. It owns no row, so it may be kept when the rows are gone.
#[derive(Drop)]
pub struct Name<V: TableValue, A: Allocator, N: Naming> {
    pub(crate) pushed: Pushed<Description<V, A>, A>,
    pub(crate) of: PhantomData<N>,
}

impl<V: TableValue, A: Allocator, N: Naming> Model for Name<V, A, N> {
    ghost use Rattle.std.specs.Prelude.{◌+◌};
    ghost use Rattle.boxcar.specs.Table.{Shows};
    ghost use Rattle.tf_registry.specs.Table.{Shown, shown};

    ghost Value = { Shown V };

    ghost view = { λ n. shown (n.pushed.index + 1) n.pushed.value };

    ghost invariant = { λ n. Shows (N.shelf V.kind) n.pushed };
}

impl<V: TableValue, A: Allocator, N: Naming> Name<V, A, N> {
    /// The number in the registry, from 1 on.
    #[inline]
    pub fn number(&self) -> u128
        ensures value { result ≡ self.now.number }
        ensures above { 0 < result }
    {
        self.pushed.index() as u128 + 1
    }

    /// The same name again. It takes no memory.
    pub fn again(&self) -> Name<V, A, N>
        ensures { result ≡ self.now }
    {
        Name {
            pushed: self.pushed.again(),
            of: PhantomData,
        }
    }
}

/// A reference to a pushed table, under its number: one of the owners of its rows. It borrows nothing, and needs no lock
/// to be read.
#[derive(Drop)]
pub struct TableRef<V: TableValue, A: Allocator, N: Naming> {
    pub(crate) name: Name<V, A, N>,
    pub(crate) table: Held<V, A>,
}

impl<V: TableValue, A: Allocator, N: Naming> Model for TableRef<V, A, N> {
    ghost use Rattle.std.specs.Prelude.{◌≡◌};
    ghost use Rattle.std.specs.Arc.{arc_value};
    ghost use Rattle.tf_registry.specs.Table.{Shown, shown};

    ghost Value = { Shown V };

    ghost view = { λ t. shown t.name.number (arc_value t.table) };

    ghost invariant = { λ t. t.name.table ≡ arc_value t.table };
}

impl<V: TableValue, A: Allocator, N: Naming> TableRef<V, A, N> {
    /// Its number in the registry, from 1 on.
    #[inline]
    pub fn number(&self) -> u128
        ensures value { result ≡ self.now.number }
        ensures above { 0 < result }
    {
        self.name.number()
    }

    /// The number with what it shows for good, which may be kept when the rows are gone.
    pub fn name(&self) -> &Name<V, A, N>
        ensures { result.now ≡ self.now }
    {
        &self.name
    }

    /// The table.
    #[inline]
    pub fn table(&self) -> &Body<V, A>
        ensures { result.now ≡ self.now.table }
    {
        &self.table
    }

    /// Whether the two are the same table, by their numbers.
    #[inline]
    pub fn is_same(&self, other: &TableRef<V, A, N>) -> bool
        ensures { result ≡ (self.now.number == other.now.number) }
    {
        self.number() == other.number()
    }

    /// Another reference to the table, one more of its owners. It takes no memory.
    ///
    /// It is refused only where the table has 2^63 - 1 owners, of which contracts know nothing.
    pub fn again(&self) -> Result<TableRef<V, A, N>, AllocError>
        ensures { IfOk result (λ copy. copy ≡ self.now) }
    {
        Ok(TableRef {
            name: self.name.again(),
            table: Arc::try_clone(&self.table)?,
        })
    }
}

impl<V: TableValue, A: Allocator, N: Naming> Clone for TableRef<V, A, N> {
    ghost is_clone = { λ reference copy. copy ≡ reference };

    fn clone(&self) -> Result<TableRef<V, A, N>, AllocError> {
        self.again()
    }
}
