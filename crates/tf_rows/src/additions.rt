//! When the changes of an entry can be made in all rows.
//!
//! The mutable table of a row is a tree or a map, which takes an entry for any key, or a log, which takes new keys alone. What an
//! entry changes in the rows of logs are values at keys of its own, so they are new as long as no log has a tombstone.

ghost use Rattle.std.specs.Prelude.{List};
ghost use Rattle.tf_rows.specs.Changes.{CanChangeAll, all_changed};
ghost use Rattle.tf_rows.specs.Nest.{IsTree, LogsHaveValues, fits_row, has_each};
ghost use Rattle.tf_rows.specs.Next.{changes, content_in};
ghost use Rattle.tf_rows.specs.Parts.{Parts};
ghost use Rattle.tf_journal.specs.declared.entry.Entry.{Entry};
ghost use Rattle.tf_journal.specs.Lawful.{IsSound};
ghost use Rattle.tf_journal.specs.Ledger.{CanGrow};
ghost use Rattle.tf_manifest.specs.Shows.{Shows};

use crate::rows_go_back_by_edits;
use tf_journal::transfers_have_their_accounts;

/// The changes of a journal's next entry, of any kind, can be made one after another in rows that show the journal and
/// whose logs have no tombstones. The logs have none afterwards. Does nothing.
pub fn next_entry_can_be_added()
    ensures can { (rows : Parts) (journal : List Entry) (e : Entry) → IsSound journal → CanGrow journal e → Shows (content_in rows) journal → LogsHaveValues rows → CanChangeAll has_each fits_row IsTree (changes journal e) rows }
    ensures values { (rows : Parts) (journal : List Entry) (e : Entry) → LogsHaveValues rows → LogsHaveValues (all_changed (changes journal e) rows) }
{
    rows_go_back_by_edits();
    transfers_have_their_accounts();
    // The keys that an entry adds to a log are those that go when it is taken back.
}
