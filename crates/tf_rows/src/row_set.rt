//! Rows, each of its own kind of value, that are found, written and taken back by their names.
ghost use Rattle.std.specs.Prelude.{◌≡◌, ◌⊎◌, Bool, None, IsTrue, IsSome, IfSome, IfOk, IfErr, OnOk, OnErr};
ghost use Rattle.tf_table.specs.Content.{entry_at};
ghost use Rattle.tf_manifest.specs.declared.row.Row.{Row};
ghost use Rattle.tf_manifest.specs.declared.value.Value.{Value};
ghost use Rattle.tf_rows.specs.Changes.{CanChangeAll, CanTakeRecord, IsSingle, all_changed, without_record};
ghost use Rattle.tf_rows.specs.Counts.{Sealed};
ghost use Rattle.tf_rows.specs.Parts.{IsPut, IsTakenBack, Parts, value_of_part};
ghost use Rattle.tf_rows.specs.Record.{record_changes};

use crate::{Before, PutTransfer};
use tf_manifest::{Row, Value};
use tf_records::{Refusal, Transfer};
use tf_table::Key;

/// Rows, each with its mutable table and its sealed ones.
pub trait RowSet {
    /// Which rows are in the set.
    ghost has_row: { Row → Bool };

    /// Whether a value is of the kind that a row stores.
    ghost fits: { Row → Value → Bool };

    /// What each row has.
    ghost parts: { Self → Parts };

    /// The sealed tables and what was counted of them, which no change of a mutable table touches.
    ghost sealed: { Self → Sealed };

    /// A row whose mutable table takes an entry for any key. Others take one for a key without an entry alone.
    ghost takes_any: { Row → Type 0 };

    /// Whether a row is in the set.
    fn has_row(row: Row) -> bool
        ensures { result ≡ has_row row };

    /// What a row has at a key.
    fn find(&self, row: Row, key: &Key) -> Option<Value>
        requires { IsTrue (has_row row) }
        ensures { result ≡ value_of_part (parts self.now row) key.now };

    /// Gives a key of a row an entry, a value or None for a tombstone, and tells the one that its mutable table had. The row has nothing
    /// of transfers' records.
    ///
    /// The only refusal is `NoMemory`, and it changes nothing.
    fn put(&mut self, row: Row, key: Key, entry: &Option<Value>) -> Result<Before, Refusal>
        requires single { IsSingle row }
        requires has { IsTrue (has_row row) }
        requires new { (entry_at key (parts self.old row).fresh ≡ None) ⊎ takes_any row }
        requires fits { IfSome entry.now (λ value. IsTrue (fits row value)) }
        ensures put { IfOk result (λ before. IsPut row key entry.now before (parts self.old) (parts self.new)) }
        ensures kind { IfOk result (λ before. IfSome before (λ entry. IfSome entry (λ value. IsTrue (fits row value)))) }
        ensures sealed { sealed self.new ≡ sealed self.old }
        ensures err { OnErr result (parts self.new ≡ parts self.old) }
        ensures refusal { IfErr result (λ refusal. refusal ≡ Refusal.NoMemory) };

    /// Gives a key of such a row the entry back that `put` told, or none. It takes no memory.
    fn take_back(&mut self, row: Row, key: &Key, before: Before)
        requires single { IsSingle row }
        requires has { IsTrue (has_row row) }
        requires there { IsSome (entry_at key.now (parts self.old row).fresh) }
        requires fits { IfSome before (λ entry. IfSome entry (λ value. IsTrue (fits row value))) }
        ensures back { IsTakenBack row key.now before (parts self.old) (parts self.new) }
        ensures sealed { sealed self.new ≡ sealed self.old };

    /// Puts what a transfer's record alone gives: its object, and a key in each of its seven indexes.
    ///
    /// The only refusal is `NoMemory`, and it changes nothing.
    fn put_transfer(&mut self, transfer: &Transfer) -> Result<(), Refusal>
        requires { CanChangeAll has_row fits takes_any (record_changes transfer.now) (parts self.old) }
        ensures put { OnOk result (parts self.new ≡ all_changed (record_changes transfer.now) (parts self.old)) }
        ensures there { OnOk result (CanTakeRecord has_row fits takes_any transfer.now (parts self.new)) }
        ensures restores { OnOk result (without_record transfer.now (parts self.new) ≡ parts self.old) }
        ensures sealed { sealed self.new ≡ sealed self.old }
        ensures err { OnErr result (parts self.new ≡ parts self.old) }
        ensures refusal { IfErr result (λ refusal. refusal ≡ Refusal.NoMemory) };

    /// Takes what `put_transfer` put away again. It takes no memory.
    fn take_transfer(&mut self, transfer: &PutTransfer)
        requires { CanTakeRecord has_row fits takes_any transfer.now (parts self.old) }
        ensures back { parts self.new ≡ without_record transfer.now (parts self.old) }
        ensures sealed { sealed self.new ≡ sealed self.old };
}
