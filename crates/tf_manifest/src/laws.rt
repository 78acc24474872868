//! Laws of the rows of a journal, each the contract of a function that does nothing.
//!
//! A journal is sound where its timestamps rise and each entry was admitted by those before it. So every journal
//! that a ledger ever holds is sound, between chains and within them.

ghost use Rattle.std.specs.Prelude.{◌≡◌, ◌↔◌, List, Some};
ghost use Rattle.std.specs.List.{Contains};
ghost use Rattle.tf_journal.specs.declared.entry.Entry.{Entry};
ghost use Rattle.tf_journal.specs.Lawful.{IsSound};
ghost use Rattle.tf_manifest.specs.Rows.{Pair, rows_of};
ghost use Rattle.tf_manifest.specs.Shows.{Content, Lists, Shows, SpellAlike, journal_of, value_of};
ghost use Rattle.tf_manifest.specs.View.{View, ShowsJournal, content_in};
ghost use Rattle.tf_table.specs.declared.key.Key.{Key};

use crate::{Row, Value};
use tf_journal::ids_are_unique;

/// No row of a journal has two values at one key: what it has there is the value of the one pair with that key. Does
/// nothing.
pub fn rows_are_maps()
    ensures { (journal : List Entry) → IsSound journal → (row : Row) (key : Key) (value : Value) → Contains (rows_of journal row) (key, value) ↔ (value_of journal row key ≡ Some value) }
{
    ids_are_unique();
    // The keys of a row tell its records apart.
}

/// Rows show at most one journal. The four rows of accounts, transfers, transfer ids and expiries alone tell which.
/// Does nothing.
pub fn rows_show_one_journal()
    ensures spelled { (first second : List Entry) → IsSound first → IsSound second → SpellAlike (value_of first) (value_of second) → first ≡ second }
    ensures shown { (content : Content) (first second : List Entry) → IsSound first → IsSound second → Shows content first → Shows content second → first ≡ second }
{
    ids_are_unique();
    // Each entry of a journal is found in one of the four rows.
}

/// The journal that rows show is the one that the pairs of four of them spell, by rising timestamp. Does nothing.
pub fn rows_spell_their_journal()
    ensures { (content : Content) (pairs : Row → List Pair) (journal : List Entry) → IsSound journal → Shows content journal → Lists pairs content → journal_of pairs ≡ journal }
{
    ids_are_unique();
    // The pairs of the four rows name each entry once.
}

/// A manifest shows at most one journal, which the pairs of four of its rows spell. Does nothing.
pub fn manifest_shows_one_journal()
    ensures one { (view : View) (first second : List Entry) → IsSound first → IsSound second → ShowsJournal view first → ShowsJournal view second → first ≡ second }
    ensures spelled { (view : View) (pairs : Row → List Pair) (journal : List Entry) → IsSound journal → ShowsJournal view journal → Lists pairs (content_in view) → journal_of pairs ≡ journal }
{
    rows_show_one_journal();
    rows_spell_their_journal();
}
