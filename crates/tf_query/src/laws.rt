//! Laws of lists of timestamps and of the records that have them, each the contract of a function that does nothing.
//!
//! Tables that show a sound journal list its records: under a value the timestamps of those whose field is that value. So
//! what a query joins of such lists is the list of the timestamps of the records that pass a test.

ghost use Rattle.std.specs.Prelude.{◌≡◌, ℕ, Bool, true, List, filter_map, is_some, min, take};
ghost use Rattle.std.specs.List.{filter as keep};
ghost use Rattle.std.specs.Option.{option_and_then, option_map};
ghost use Rattle.tf_journal.specs.declared.entry.Entry.{Entry};
ghost use Rattle.tf_journal.specs.Answer.{account_transfers_of, answer_max, balance_after, found_accounts_of, found_transfers_of, history_of};
ghost use Rattle.tf_journal.specs.Filter.{account_search, is_valid_account_filter, is_valid_query_filter, is_within, query_search, searched_account, searched_transfer};
ghost use Rattle.tf_journal.specs.Journal.{accounts_of, transfers_of};
ghost use Rattle.tf_journal.specs.Lawful.{IsSound};
ghost use Rattle.tf_journal.specs.Lookup.{account_with_id, shown, shown_with_id, transfer_with_id};
ghost use Rattle.tf_manifest.specs.declared.kind.UnitRow.{UnitRow};
ghost use Rattle.tf_manifest.specs.Rows.{has_history, state_of};
ghost use Rattle.tf_manifest.specs.View.{View, ShowsJournal};
ghost use Rattle.tf_query.specs.Asked.{account_fields_at, account_filter_at, transfer_fields_at};
ghost use Rattle.tf_query.specs.Fields.{account_field, has_value, transfer_field};
ghost use Rattle.tf_query.specs.History.{has_sums, history_at, is_on_side};
ghost use Rattle.tf_query.specs.Matches.{AreDated, account_timestamp, direction_of, holds_at, matches_of, record_at, transfer_timestamp};
ghost use Rattle.tf_look_ups.specs.Reads.{account_in, account_stamp_in, balance_in, has_entry, shown_in, state_in, transfer_in, transfer_stamp_in};
ghost use Rattle.tf_query.specs.declared.residual.Tested.{Tested};
ghost use Rattle.tf_query.specs.Residual.{account_lead, account_residual, first_passing, query_lead, query_residual};
ghost use Rattle.tf_query.specs.Version.{journal_shown};
ghost use Rattle.tf_query.specs.Windows.{account_window, query_window};
ghost use Rattle.tf_records.specs.declared.account_filter.AccountFilter.{AccountFilter};
ghost use Rattle.tf_records.specs.declared.query_filter.QueryFilter.{QueryFilter};
ghost use Rattle.tf_scan.specs.declared.direction.Direction.{Direction};
ghost use Rattle.tf_scan.specs.Order.{IsInOrder};
ghost use Rattle.tf_scan.specs.Sets.{is_among};

use tf_manifest::{manifest_shows_one_journal, rows_are_maps};

/// Two lists in order with the same timestamps are one. Does nothing.
pub fn lists_in_order_are_unique()
    ensures { (d : Direction) (ts us : List ℕ) → IsInOrder d ts → IsInOrder d us → ((t : ℕ) → is_among t ts ≡ is_among t us) → ts ≡ us }
{
    // The first of each is the one that none of the other comes before.
}

/// The accounts and the transfers of a sound journal stand oldest first, no two with one timestamp. Does nothing.
pub fn records_are_dated()
    ensures accounts { (journal : List Entry) → IsSound journal → AreDated account_timestamp (accounts_of journal) }
    ensures transfers { (journal : List Entry) → IsSound journal → AreDated transfer_timestamp (transfers_of journal) }
{
    // The timestamps of a journal's entries rise.
}

/// A list in order that has the timestamps of the records that a test accepts, and no others, is the list of their
/// timestamps in that direction. Does nothing.
pub fn scans_list_matches<X>()
    ensures members { (timestamp : X → ℕ) (records : List X) → AreDated timestamp records → (d : Direction) (accepts : X → Bool) (t : ℕ) → is_among t (matches_of timestamp d accepts records) ≡ holds_at timestamp accepts records t }
    ensures list { (timestamp : X → ℕ) (records : List X) → AreDated timestamp records → (d : Direction) (accepts : X → Bool) (left : List ℕ) → IsInOrder d left → ((t : ℕ) → is_among t left ≡ holds_at timestamp accepts records t) → left ≡ matches_of timestamp d accepts records }
{
    // Lists in order with the same timestamps are one.
}

/// An index has something under a value at the timestamps of the records whose field is that value, and nowhere else. Does
/// nothing.
pub fn rows_index_records()
    ensures accounts { (view : View) (journal : List Entry) → IsSound journal → ShowsJournal view journal → (row : UnitRow) → is_some (account_field row) ≡ true → (value t : ℕ) → has_entry view row value t ≡ holds_at account_timestamp (has_value (account_field row) value) (accounts_of journal) t }
    ensures transfers { (view : View) (journal : List Entry) → IsSound journal → ShowsJournal view journal → (row : UnitRow) → is_some (transfer_field row) ≡ true → (value t : ℕ) → has_entry view row value t ≡ holds_at transfer_timestamp (has_value (transfer_field row) value) (transfers_of journal) t }
{
    records_are_dated();
    // A row has a pair for each record, under the field and the timestamp of the record.
}

/// What tables have at a timestamp: the transfer, the account as it was stored, its state, the account as answers show it,
/// and the balance of an account with history right after a transfer on one of its sides. Does nothing.
pub fn rows_give_records()
    ensures transfers { (view : View) (journal : List Entry) → IsSound journal → ShowsJournal view journal → (t : ℕ) → transfer_in view t ≡ record_at transfer_timestamp (transfers_of journal) t }
    ensures accounts { (view : View) (journal : List Entry) → IsSound journal → ShowsJournal view journal → (t : ℕ) → account_in view t ≡ record_at account_timestamp (accounts_of journal) t }
    ensures states { (view : View) (journal : List Entry) → IsSound journal → ShowsJournal view journal → (t : ℕ) → state_in view t ≡ option_map (state_of journal) (record_at account_timestamp (accounts_of journal) t) }
    ensures shown { (view : View) (journal : List Entry) → IsSound journal → ShowsJournal view journal → (t : ℕ) → shown_in view t ≡ option_map (shown journal) (record_at account_timestamp (accounts_of journal) t) }
    ensures balances { (view : View) (journal : List Entry) → IsSound journal → ShowsJournal view journal → (id : ℕ) → has_history journal id ≡ true → (t : ℕ) → holds_at transfer_timestamp (is_on_side id) (transfers_of journal) t ≡ true → balance_in view id t ≡ option_map (balance_after journal id) (record_at transfer_timestamp (transfers_of journal) t) }
{
    rows_are_maps();
    // Each record stands under its timestamp, and so do its state and its balances.
}

/// The row of sums has something of an account with history at the timestamps of the transfers on one of its sides, and
/// nowhere else. So it has those that a filter asks for which names both sides and no field. Does nothing.
pub fn sums_date_history()
    ensures sides { (view : View) (journal : List Entry) → IsSound journal → ShowsJournal view journal → (id : ℕ) → has_history journal id ≡ true → (t : ℕ) → has_sums view id t ≡ holds_at transfer_timestamp (is_on_side id) (transfers_of journal) t }
    ensures asked { (view : View) (journal : List Entry) → IsSound journal → ShowsJournal view journal → (filter : AccountFilter) → has_history journal filter.account_id ≡ true → (t : ℕ) → history_at view filter t ≡ account_filter_at view filter t }
{
    records_are_dated();
    rows_index_records();
    // The row has a pair for each side of a transfer whose account has history, under its id and the transfer's timestamp.
}

/// What tables have under an id: the timestamp of its record, under which they have the record. Does nothing.
pub fn rows_find_ids()
    ensures accounts { (view : View) (journal : List Entry) → IsSound journal → ShowsJournal view journal → (id : ℕ) → option_and_then (account_in view) (account_stamp_in view id) ≡ account_with_id journal id }
    ensures shown { (view : View) (journal : List Entry) → IsSound journal → ShowsJournal view journal → (id : ℕ) → option_and_then (shown_in view) (account_stamp_in view id) ≡ shown_with_id journal id }
    ensures transfers { (view : View) (journal : List Entry) → IsSound journal → ShowsJournal view journal → (id : ℕ) → option_and_then (transfer_in view) (transfer_stamp_in view id) ≡ transfer_with_id journal id }
{
    records_are_dated();
    rows_give_records();
    // The rows of ids have the timestamp of each id's record.
}

/// The answer of a valid filter. A list in order has the timestamps of the records that have what the filter asks for; the
/// first of those that are within its bounds, each replaced by what the tables have there, are the answer. Does nothing.
pub fn scans_answer_filters()
    ensures account_transfers { (view : View) (journal : List Entry) → IsSound journal → ShowsJournal view journal → (filter : AccountFilter) → is_valid_account_filter filter ≡ true → (d : Direction) → d ≡ direction_of (account_search filter).is_reversed → (left : List ℕ) → IsInOrder d left → ((t : ℕ) → is_among t left ≡ account_filter_at view filter t) → filter_map (transfer_in view) (take (min filter.limit answer_max) (keep (is_within filter.timestamp_min filter.timestamp_max) left)) ≡ account_transfers_of journal filter }
    ensures history { (view : View) (journal : List Entry) → IsSound journal → ShowsJournal view journal → (filter : AccountFilter) → is_valid_account_filter filter ≡ true → has_history journal filter.account_id ≡ true → (d : Direction) → d ≡ direction_of (account_search filter).is_reversed → (left : List ℕ) → IsInOrder d left → ((t : ℕ) → is_among t left ≡ account_filter_at view filter t) → filter_map (balance_in view filter.account_id) (take (min filter.limit answer_max) (keep (is_within filter.timestamp_min filter.timestamp_max) left)) ≡ history_of journal filter }
    ensures transfers { (view : View) (journal : List Entry) → IsSound journal → ShowsJournal view journal → (filter : QueryFilter) → is_valid_query_filter filter ≡ true → (d : Direction) → d ≡ direction_of (query_search searched_transfer filter).is_reversed → (left : List ℕ) → IsInOrder d left → ((t : ℕ) → is_among t left ≡ transfer_fields_at view filter t) → filter_map (transfer_in view) (take (min filter.limit answer_max) (keep (is_within filter.timestamp_min filter.timestamp_max) left)) ≡ found_transfers_of journal filter }
    ensures accounts { (view : View) (journal : List Entry) → IsSound journal → ShowsJournal view journal → (filter : QueryFilter) → is_valid_query_filter filter ≡ true → (d : Direction) → d ≡ direction_of (query_search searched_account filter).is_reversed → (left : List ℕ) → IsInOrder d left → ((t : ℕ) → is_among t left ≡ account_fields_at view filter t) → filter_map (shown_in view) (take (min filter.limit answer_max) (keep (is_within filter.timestamp_min filter.timestamp_max) left)) ≡ found_accounts_of journal filter }
{
    records_are_dated();
    rows_index_records();
    rows_give_records();
    // A list in order that has the timestamps of matching records is the list of their timestamps.
}

/// The answer of a valid filter of which a part is tested. A list in order has the timestamps of the records that have what
/// leads to them; of those within the filter's bounds, the first that pass the rest are the answer. Does nothing.
pub fn leads_answer_filters()
    ensures account_transfers { (view : View) (journal : List Entry) → IsSound journal → ShowsJournal view journal → (tested : Tested) (filter : AccountFilter) → is_valid_account_filter filter ≡ true → (left : List ℕ) → IsInOrder (account_window filter).direction left → ((t : ℕ) → is_among t left ≡ account_filter_at view (account_lead tested filter) t) → first_passing view (account_residual tested filter) (account_window filter) left ≡ account_transfers_of journal filter }
    ensures transfers { (view : View) (journal : List Entry) → IsSound journal → ShowsJournal view journal → (tested : Tested) (filter : QueryFilter) → is_valid_query_filter filter ≡ true → (left : List ℕ) → IsInOrder (query_window filter).direction left → ((t : ℕ) → is_among t left ≡ transfer_fields_at view (query_lead tested filter) t) → first_passing view (query_residual tested filter) (query_window filter) left ≡ found_transfers_of journal filter }
{
    records_are_dated();
    rows_index_records();
    rows_give_records();
    // A record has what a filter asks for where it has what leads and passes the rest.
}

/// The journal that a manifest's tables show is the one that they spell. Does nothing.
pub fn manifests_spell_their_journal()
    ensures { (view : View) (journal : List Entry) → IsSound journal → ShowsJournal view journal → journal_shown view ≡ journal }
{
    manifest_shows_one_journal();
    // The pairs of the tables' content, in the order of their keys, are those of the rows.
}
