//! What ties tables to their registries.
ghost use Rattle.std.specs.Prelude.{ℕ, []};
ghost use Rattle.boxcar.specs.Table.{Shelves};

use std::marker::Brand;
use tf_table::Repeats;

/// The registries that references belong to. Each run picks them, and it has no bytes.
pub trait Naming {
    /// The registry of each kind of value.
    ghost shelf: { ℕ → Shelves };
}

impl Naming for Brand {
    ghost shelf = { λ _. record { tag = []; buckets = [] } };
}

/// What a table has at its keys.
pub trait TableValue: Repeats {
    /// Which registry has its tables: no two kinds of values that one `Naming` names have one number.
    ghost kind: { ℕ };
}

/// A number, as the timestamp of a record.
impl TableValue for u64 {
    ghost kind = { 0 };
}

/// Nothing: a key alone says all.
impl TableValue for () {
    ghost kind = { 4 };
}
