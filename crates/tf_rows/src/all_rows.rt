//! Sets that have all rows.
ghost use Rattle.std.specs.Prelude.{IsTrue};
ghost use Rattle.tf_rows.specs.Nest.{IsTree, fits_row};
ghost use Rattle.tf_manifest.specs.declared.row.Row.{Row};
ghost use Rattle.tf_manifest.specs.declared.value.Value.{Value};

use crate::RowSet;

/// All 21 rows, each of its own kind of value. The mutable tables of account_ids, account_sums, transfer_ids,
/// pending_status and expiry take an entry for any key.
pub trait AllRows: RowSet {
    /// No row is missing.
    ghost has_all: { (row : Row) → IsTrue (Self.has_row row) };

    /// A row stores the values of its kind.
    ghost fits_kind: { (row : Row) (value : Value) → IsTrue (fits_row row value) → IsTrue (Self.fits row value) };

    /// Those five rows take an entry for any key.
    ghost takes_trees: { (row : Row) → IsTree row → Self.takes_any row };
}
