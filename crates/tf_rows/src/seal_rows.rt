//! Mutable tables that are sealed row by row.
ghost use Rattle.std.specs.Prelude.{◌≡◌, [], IfOk, IfErr};
ghost use Rattle.tf_rows.specs.SealedRow.{IsSealedOf};
ghost use Rattle.tf_registry.specs.Row.{is_nil};
ghost use Rattle.tf_manifest.specs.declared.row.Row.{Row};

use crate::{MutableRows, SealedRow};
use std::alloc::Allocator;
use tf_manifest::Row;
use tf_records::Refusal;

/// Mutable tables whose rows can be sealed.
pub trait SealRows<A: Allocator>: MutableRows {
    /// Whether a row's table has no entry.
    fn has_none(&self, row: Row) -> bool
        ensures { result ≡ is_nil (Self.entries self.now row) };

    /// A row's entries as a sealed table, with its memory from `alloc`. The entries stay. The only refusal is `NoMemory`.
    fn seal(&mut self, row: Row, alloc: A) -> Result<SealedRow<A>, Refusal>
        ensures sealed { IfOk result (λ sealed. IsSealedOf (Self.entries self.old) row sealed) }
        ensures same { Self.entries self.new ≡ Self.entries self.old }
        ensures refusal { IfErr result (λ refusal. refusal ≡ Refusal.NoMemory) };

    /// Takes all entries of all rows away. It takes no memory, and logs keep their room.
    fn clear(&mut self)
        ensures { (row : Row) → Self.entries self.new row ≡ [] };
}
