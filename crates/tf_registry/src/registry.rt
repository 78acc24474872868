//! The registry of sealed tables.
ghost use Rattle.std.specs.Prelude.{◌≡◌, ◌<◌, IfOk, IfErr};
ghost use Rattle.std.specs.Arc.{arc_value};

use crate::description::Description;
use crate::{Held, Name, Naming, TableRef, TableValue};
use std::alloc::Allocator;
use std::marker::{Model, PhantomData};
use std::sync::Wait;
use tf_records::Refusal;

/// The tables of one kind of value that were pushed. It only grows, by a description of each, and a number shows one table
/// for good. The rows of a table are owned by the references to it alone, and are given back with the last.
#[derive(Drop)]
pub struct Registry<V: TableValue, A: Allocator> {
    tables: boxcar::Vec<Description<V, A>, A>,
}

impl<V: TableValue, A: Allocator> Model for Registry<V, A> {
    ghost use Rattle.boxcar.specs.Table.{Shelves, shelves_coded};

    ghost Value = { Shelves };

    ghost coded = { shelves_coded };

    ghost view = { λ r. r.tables };
}

impl<V: TableValue, A: Allocator + Clone> Registry<V, A> {
    /// A registry with no tables. It takes memory for a row of buckets. The only refusal is `NoMemory`.
    pub fn new(alloc: A) -> Result<Registry<V, A>, Refusal>
        ensures err { IfErr result (λ refusal. refusal ≡ Refusal.NoMemory) }
    {
        Ok(Registry {
            tables: boxcar::Vec::new(alloc)?,
        })
    }

    /// Pushes a table, and gives the first reference to it. It may wait while another push makes room.
    ///
    /// It takes 56 bytes for good, by room for descriptions that doubles. For want of it an `Err` hands the table back, and
    /// nothing was pushed.
    pub fn push<N: Naming, R: Wait>(
        &self,
        rt: &R,
        table: Held<V, A>,
    ) -> Result<TableRef<V, A, N>, Held<V, A>>
        requires { self.now ≡ N.shelf V.kind }
        ensures pushed { IfOk result (λ t. t.table ≡ arc_value table) }
        ensures numbered { IfOk result (λ t. 0 < t.number) }
        ensures back { IfErr result (λ b. b ≡ table) }
    {
        match self.tables.push_shown(rt, Description::of(&table)) {
            Ok(pushed) => Ok(TableRef {
                name: Name {
                    pushed,
                    of: PhantomData,
                },
                table,
            }),
            Err(_) => Err(table),
        }
    }
}

impl<V: TableValue, A: Allocator> Registry<V, A> {
    /// Two references of one number show one table. It only tells the proof so.
    #[inline]
    pub fn agree<N: Naming>(&self, a: &TableRef<V, A, N>, b: &TableRef<V, A, N>)
        requires here { self.now ≡ N.shelf V.kind }
        requires same { a.now.number ≡ b.now.number }
        ensures { a.now ≡ b.now }
    {
        self.agree_for_good(&a.name, &b.name);
    }

    /// Two names of one number show one table, also where its rows are gone, and whenever the two were got. It only tells
    /// the proof so.
    #[inline]
    pub fn agree_for_good<N: Naming>(&self, a: &Name<V, A, N>, b: &Name<V, A, N>)
        requires here { self.now ≡ N.shelf V.kind }
        requires same { a.now.number ≡ b.now.number }
        ensures { a.now ≡ b.now }
    {
        self.tables.agrees(&a.pushed, &b.pushed);
    }

    /// What the registry keeps of a table for good.
    #[inline]
    pub fn description<N: Naming>(&self, name: &Name<V, A, N>) -> &Description<V, A>
        requires { self.now ≡ N.shelf V.kind }
        ensures { result.now ≡ name.now.table }
    {
        self.tables.value(&name.pushed)
    }
}
