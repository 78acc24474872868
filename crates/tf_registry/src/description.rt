//! What the registry keeps of a table for good.
ghost use Rattle.std.specs.Prelude.{◌≡◌, length};
ghost use Rattle.tf_table.specs.Span.{HasSpan, timestamps};

use crate::Body;
use std::alloc::Allocator;
use std::marker::Model;
use std::snapshot::Snapshot;
use tf_table::{Repeats, Span};

/// What the registry keeps of a table for good: how many rows it has, its level, whether it is the oldest of its row, and
/// the span of its timestamps.
///
/// Contracts see the table that it describes, with its rows, which are here in no bytes.
#[derive(Drop)]
pub struct Description<V, A: Allocator> {
    rows: usize,
    level: u32,
    oldest: bool,
    span: Option<Span>,
    table: Snapshot<Body<V, A>>,
}

impl<V, A: Allocator> Model for Description<V, A> {
    ghost use Rattle.tf_registry.specs.Description.{Describes};
    ghost use Rattle.tf_registry.specs.Table.{Table};

    ghost Value = { Table V };

    ghost view = { λ d. d.table.value };

    ghost invariant = { λ d. Describes d.rows d.level d.oldest d.span d.table.value };
}

impl<V: Repeats, A: Allocator> Description<V, A> {
    /// The description of a table. It takes no memory.
    pub(crate) fn of(body: &Body<V, A>) -> Description<V, A>
        ensures { result ≡ body.now }
    {
        Description {
            rows: body.table().len(),
            level: body.level(),
            oldest: body.is_oldest(),
            span: body.table().span(),
            table: Snapshot::of(body),
        }
    }

    /// How many rows the table has, tombstones included.
    #[inline]
    pub fn rows(&self) -> usize
        ensures { result ≡ length self.now.rows }
    {
        self.rows
    }

    /// Its level.
    #[inline]
    pub fn level(&self) -> u32
        ensures { result ≡ self.now.level }
    {
        self.level
    }

    /// Whether it is the oldest table of its row.
    #[inline]
    pub fn is_oldest(&self) -> bool
        ensures { result ≡ self.now.oldest }
    {
        self.oldest
    }

    /// The earliest and the latest timestamp of its rows, tombstones included, or None where there is no row.
    #[inline]
    pub fn span(&self) -> Option<Span>
        ensures { HasSpan result (timestamps self.now.rows) }
    {
        self.span
    }
}
