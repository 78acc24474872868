//! Tables as they are pushed.
ghost use Rattle.std.specs.Prelude.{◌≡◌, IfOk, IfErr};
ghost use Rattle.std.specs.Arc.{arc_value};

use std::alloc::Allocator;
use std::marker::Model;
use std::sync::Arc;
use tf_records::Refusal;
use tf_table::Sealed;

/// A table that may have several owners. It is given back with the last of them.
pub type Held<V, A> = Arc<Body<V, A>, A>;

/// A sealed table, with its level and whether it is the oldest of its row.
///
/// A table sealed from a mutable one has level 0, and a merge of two has one level more than they have.
#[derive(Drop)]
pub struct Body<V, A: Allocator> {
    table: Sealed<V, A>,
    level: u32,
    oldest: bool,
}

impl<V, A: Allocator> Model for Body<V, A> {
    ghost use Rattle.tf_registry.specs.Table.{Table};

    ghost Value = { Table V };

    ghost view = { λ b. record { rows = b.table; level = b.level; oldest = b.oldest } };
}

impl<V, A: Allocator> Body<V, A> {
    /// A table at this level. It takes no memory.
    pub fn new(table: Sealed<V, A>, level: u32, oldest: bool) -> Body<V, A>
        ensures { result ≡ record { rows = table; level = level; oldest = oldest } }
    {
        Body {
            table,
            level,
            oldest,
        }
    }

    /// Its rows.
    #[inline]
    pub fn table(&self) -> &Sealed<V, A>
        ensures { result.now ≡ self.now.rows }
    {
        &self.table
    }

    /// Its level: 0 of a table that was sealed, and one more than that of the two that it was merged from.
    #[inline]
    pub fn level(&self) -> u32
        ensures { result ≡ self.now.level }
    {
        self.level
    }

    /// Whether it is the oldest table of its row, so that nothing lies below it.
    #[inline]
    pub fn is_oldest(&self) -> bool
        ensures { result ≡ self.now.oldest }
    {
        self.oldest
    }
}

impl<V: Drop, A: Allocator> Body<V, A> {
    /// The table with its first owner, to be pushed. It takes memory for the count of its owners and for what tells where
    /// the rows lie, and copies no row. The only refusal is `NoMemory`.
    pub fn hold(self, alloc: A) -> Result<Held<V, A>, Refusal>
        ensures value { IfOk result (λ held. arc_value held ≡ self) }
        ensures err { IfErr result (λ refusal. refusal ≡ Refusal.NoMemory) }
    {
        match Arc::new(alloc, self) {
            Ok(held) => Ok(held),
            Err(_) => Err(Refusal::NoMemory),
        }
    }
}
