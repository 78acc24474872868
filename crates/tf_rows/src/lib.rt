//! The 21 rows of a journal: what an entry changes in them, how look-ups are answered from them, and what their mutable tables do.
//!
//! What an entry changes in the rows is computed from what is looked up for it, never from the whole journal.
#![tactic(auto)]

mod account_states;
mod accounts;
mod add;
mod additions;
mod all_rows;
mod change;
mod counts;
mod due;
mod due_set;
mod empty;
mod expiries;
mod floors;
mod former;
mod found;
mod laws;
mod look_ups;
mod mutable_rows;
mod put_transfer;
mod resident;
mod row_change;
mod row_set;
mod seal_rows;
mod sealed_row;
mod spelled;
mod steps;
mod transfers;

pub use add::add_entry;
pub use additions::next_entry_can_be_added;
pub use all_rows::AllRows;
pub use change::{Change, Step, make_changes, take_steps};
pub use counts::Counts;
pub use due::{due_count, next_due};
pub use due_set::DueSet;
pub use empty::EmptyRows;
pub use floors::Floors;
pub use former::{Former, Formers, formers_of};
pub use found::{Found, Party, look_up};
pub use laws::{
    entries_leave_sums_in_range, rows_answer_look_ups, rows_change_by_edits, rows_go_back_by_edits,
    rows_show_the_next_entry, rows_tell_what_is_due,
};
pub use look_ups::{account, id_use, party, pending, shown, status, transfer};
pub use mutable_rows::{Before, MutableRows};
pub use put_transfer::PutTransfer;
pub use resident::Resident;
pub use row_set::RowSet;
pub use seal_rows::SealRows;
pub use sealed_row::SealedRow;
pub use spelled::rows_spell_the_journal_they_show;
pub use steps::Steps;
