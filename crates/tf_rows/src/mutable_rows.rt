//! Mutable tables of all rows, each of its own kind of value, that are found, written and taken back by their rows' names.
ghost use Rattle.std.specs.Prelude.{◌≡◌, ◌⊎◌, None, IsTrue, IsSome, IfSome, IfOk, IfErr, OnOk, OnErr};
ghost use Rattle.tf_table.specs.Content.{entry_at};
ghost use Rattle.tf_table.specs.declared.key.Key.{Key};
ghost use Rattle.tf_manifest.specs.declared.row.Row.{Row};
ghost use Rattle.tf_manifest.specs.declared.value.Value.{Value};
ghost use Rattle.tf_rows.specs.Changes.{IsSingle};
ghost use Rattle.tf_rows.specs.Nest.{IsTree, fits_row};
ghost use Rattle.tf_rows.specs.Parts.{Entries, GivesBack, PutsEntry};
ghost use Rattle.tf_rows.specs.Record.{IsFree, IsThere, PutsTransfer, record_edit, without_edit};

use crate::PutTransfer;
use tf_manifest::{Row, Value};
use tf_records::{Refusal, Transfer};
use tf_table::Key;

/// What a row's mutable table had at a key: an entry, which is a value or a tombstone, or none.
pub type Before = Option<Option<Value>>;

/// The mutable tables of the 21 rows, each of its own kind of value. Those of account_ids, account_sums, transfer_ids,
/// pending_status and expiry take an entry for any key. Others take one for a key without an entry alone, and a transfer's object and
/// the keys of its seven indexes are put together.
pub trait MutableRows {
    /// The entries of each row.
    ghost entries: { Self → Entries };

    /// The entry of a key in a row's table: a value, None inside for a tombstone, or none.
    fn entry(&self, row: Row, key: &Key) -> Before
        ensures { result ≡ entry_at key.now (entries self.now row) };

    /// Gives a key of a row an entry, a value or None for a tombstone, and tells the one that it had. The row has nothing of transfers'
    /// records.
    ///
    /// The only refusal is `NoMemory`, and it changes nothing.
    fn put(&mut self, row: Row, key: Key, entry: &Option<Value>) -> Result<Before, Refusal>
        requires single { IsSingle row }
        requires new { (entry_at key (entries self.old row) ≡ None) ⊎ IsTree row }
        requires fits { IfSome entry.now (λ value. IsTrue (fits_row row value)) }
        ensures put { IfOk result (λ before. PutsEntry row key entry.now before (entries self.old) (entries self.new)) }
        ensures kind { IfOk result (λ before. IfSome before (λ entry. IfSome entry (λ value. IsTrue (fits_row row value)))) }
        ensures err { OnErr result (entries self.new ≡ entries self.old) }
        ensures refusal { IfErr result (λ refusal. refusal ≡ Refusal.NoMemory) };

    /// Gives a key of such a row the entry back that `put` told, or none. It takes no memory.
    fn take_back(&mut self, row: Row, key: &Key, before: Before)
        requires single { IsSingle row }
        requires there { IsSome (entry_at key.now (entries self.old row)) }
        requires fits { IfSome before (λ entry. IfSome entry (λ value. IsTrue (fits_row row value))) }
        ensures { GivesBack row key.now before (entries self.old) (entries self.new) };

    /// Puts what a transfer's record alone gives: its object, and a key in each of its seven indexes. None of them is there.
    ///
    /// The only refusal is `NoMemory`, and it changes nothing.
    fn put_transfer(&mut self, transfer: &Transfer) -> Result<(), Refusal>
        requires { (row : Row) → IsFree (record_edit transfer.now row) (entries self.old row) }
        ensures put { OnOk result (PutsTransfer transfer.now (entries self.old) (entries self.new)) }
        ensures err { OnErr result (entries self.new ≡ entries self.old) }
        ensures refusal { IfErr result (λ refusal. refusal ≡ Refusal.NoMemory) };

    /// Takes what `put_transfer` put away again. It takes no memory.
    fn take_transfer(&mut self, transfer: &PutTransfer)
        requires { (row : Row) → IsThere (record_edit transfer.now row) (entries self.old row) }
        ensures { (row : Row) → entries self.new row ≡ without_edit (record_edit transfer.now row) (entries self.old row) };
}
