//! Laws of the rows of a growing journal, each the contract of a function that does nothing.
//!
//! A journal is sound where its timestamps rise and each entry was admitted by those before it. So every journal
//! that a ledger ever holds is sound, between chains and within them.

ghost use Rattle.std.specs.Prelude.{◌≡◌, ◌≤◌, ◌∷◌, ◌++◌, List, [], map, Some, IsSome, ℕ};
ghost use Rattle.std.specs.List.{All};
ghost use Rattle.tf_rows.specs.Back.{edits_back};
ghost use Rattle.tf_rows.specs.Changes.{all_changed};
ghost use Rattle.tf_rows.specs.Due.{due_pairs, transfers_read};
ghost use Rattle.tf_rows.specs.Edits.{edited, edits, found_for, party_of};
ghost use Rattle.tf_rows.specs.Spelled.{pairs_in};
ghost use Rattle.tf_rows.specs.LookUps.{found_read, party_read, pending_read, shown_read, status_read, transfer_read, use_read};
ghost use Rattle.tf_rows.specs.Next.{changes, content_in};
ghost use Rattle.tf_rows.specs.Parts.{Parts};
ghost use Rattle.tf_rows.specs.Range.{LeavesInRange};
ghost use Rattle.tf_rows.specs.Resident.{accounts_after, accounts_before, formers_of};
ghost use Rattle.tf_journal.specs.declared.entry.Entry.{Entry};
ghost use Rattle.tf_journal.specs.Due.{due};
ghost use Rattle.tf_journal.specs.Journal.{last_timestamp};
ghost use Rattle.tf_journal.specs.Lawful.{IsSound};
ghost use Rattle.tf_journal.specs.Ledger.{CanGrow};
ghost use Rattle.tf_journal.specs.Lookup.{id_use_of, shown_with_id, transfer_with_id};
ghost use Rattle.tf_journal.specs.Status.{pending_at, status_at};
ghost use Rattle.tf_manifest.specs.declared.row.Row.{Row};
ghost use Rattle.tf_manifest.specs.Shows.{Content, Shows, value_of};
ghost use Rattle.tf_table.specs.declared.key.Key.{Key};

use tf_journal::journals_are_within_limits;
use tf_manifest::{Row, Value, rows_are_maps};
use tf_table::content_is_a_map;

/// What a journal's next entry changes in the 21 rows: at the key of an edit the row has what the edit says, and at
/// every other key what it had. No two edits of a row contradict each other, so their order says nothing. Does nothing.
pub fn rows_change_by_edits()
    ensures rows { (journal : List Entry) (e : Entry) → IsSound journal → CanGrow journal e → (row : Row) (key : Key) → value_of (journal ++ e ∷ []) row key ≡ edited (edits journal e row) (value_of journal row) key }
    ensures agree { (journal : List Entry) (e : Entry) → IsSound journal → CanGrow journal e → (row : Row) → All (λ edit. value_of (journal ++ e ∷ []) row edit.0 ≡ edit.1) (edits journal e row) }
{
    // Each pair that an entry adds, replaces or removes is that of an edit.
    rows_are_maps();
}

/// What taking back a journal's last entry changes in the 21 rows, by what was looked up for it when it was added: at
/// the key of an edit the row has what it had before the entry, and at every other key what it has. Does nothing.
pub fn rows_go_back_by_edits()
    ensures rows { (journal : List Entry) (e : Entry) → IsSound journal → CanGrow journal e → (row : Row) (key : Key) → value_of journal row key ≡ edited (edits_back journal e row) (value_of (journal ++ e ∷ []) row) key }
    ensures agree { (journal : List Entry) (e : Entry) → IsSound journal → CanGrow journal e → (row : Row) → All (λ edit. value_of journal row edit.0 ≡ edit.1) (edits_back journal e row) }
{
    // The keys that an entry adds are new, and what it replaces was looked up.
    rows_are_maps();
}

/// What the rows that show a journal have at the keys of an account id, a transfer id and a timestamp is what the
/// journal has: the account with its state and as answers show it, the use of the id with the transfer, and the pending
/// transfer with its status. So all that the edits of an entry are computed from is read from the rows. Does nothing.
pub fn rows_answer_look_ups()
    ensures parties { (content : Content) (journal : List Entry) → IsSound journal → Shows content journal → (id : ℕ) → party_read content id ≡ party_of journal id }
    ensures uses { (content : Content) (journal : List Entry) → IsSound journal → Shows content journal → (id : ℕ) → use_read content id ≡ id_use_of journal id }
    ensures transfers { (content : Content) (journal : List Entry) → IsSound journal → Shows content journal → (id : ℕ) → transfer_read content id ≡ transfer_with_id journal id }
    ensures shown { (content : Content) (journal : List Entry) → IsSound journal → Shows content journal → (id : ℕ) → shown_read content id ≡ shown_with_id journal id }
    ensures statuses { (content : Content) (journal : List Entry) → IsSound journal → Shows content journal → (timestamp : ℕ) → status_read content timestamp ≡ status_at journal timestamp }
    ensures pending { (content : Content) (journal : List Entry) → IsSound journal → Shows content journal → (timestamp : ℕ) → pending_read content timestamp ≡ pending_at journal timestamp }
    ensures found { (content : Content) (journal : List Entry) → IsSound journal → Shows content journal → (e : Entry) → found_read content e ≡ found_for journal e }
{
    // An id has the timestamp of its record, under which the record stands.
    rows_are_maps();
}

/// Rows that show a journal show it with its next entry after the changes of that entry, made one after another. So the
/// steps that take them back give rows that show the journal again. Does nothing.
pub fn rows_show_the_next_entry()
    ensures { (rows : Parts) (journal : List Entry) (e : Entry) → IsSound journal → CanGrow journal e → Shows (content_in rows) journal → Shows (content_in (all_changed (changes journal e) rows)) (journal ++ e ∷ []) }
{
    rows_change_by_edits();
    // The changes of an entry are its edits, row by row.
}

/// The sums of the accounts of a journal's next entry, computed from what was looked up for it, are in range: neither
/// what is pending nor what is posted on a side passes `2^128 - 1`. Does nothing.
pub fn entries_leave_sums_in_range()
    ensures { (journal : List Entry) (e : Entry) → IsSound journal → CanGrow journal e → LeavesInRange (found_for journal e) e }
{
    rows_change_by_edits();
    rows_are_maps();
    journals_are_within_limits();
    // Each state that a transfer leaves is one that the rows have afterwards, and no sum of a ledger wraps.
}

/// What a journal's next entry changes in its accounts and their states, by what was looked up for it, and how they were
/// before it. Does nothing.
pub(crate) fn accounts_change_as_found()
    ensures after { (journal : List Entry) (e : Entry) → IsSound journal → CanGrow journal e → (id : ℕ) → accounts_after (found_for journal e) e (party_of journal) id ≡ party_of (journal ++ e ∷ []) id }
    ensures before { (journal : List Entry) (e : Entry) → IsSound journal → CanGrow journal e → (id : ℕ) → accounts_before (formers_of (found_for journal e) e) (party_of (journal ++ e ∷ [])) id ≡ party_of journal id }
{
    rows_are_maps();
    // The states of the accounts are those that the edits of their row say.
}

/// The transfers that are due at a moment, in the order of their expiry, are those of the pairs of expiry whose keys are
/// due, in the order of the keys, each looked up by its key's timestamp. No key of expiry has a timestamp past the
/// greatest. Does nothing.
pub fn rows_tell_what_is_due()
    ensures due { (rows : Parts) (journal : List Entry) → IsSound journal → Shows (content_in rows) journal → (moment : ℕ) → transfers_read (content_in rows) (due_pairs moment (pairs_in rows Row.Expiry)) ≡ map Some (due journal moment) }
    ensures in_range { (content : Content) (journal : List Entry) → IsSound journal → Shows content journal → (key : Key) → IsSome (content Row.Expiry key) → key.timestamp ≤ last_timestamp }
{
    rows_are_maps();
    content_is_a_map::<Value>();
    // Both lists rise by the same order, and have the same members.
}
