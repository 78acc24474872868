//! Versions, and the queries and look-ups on them.
//!
//! A version is a copy of a manifest's references. What it answers is the answer of its journal, whatever is published or
//! merged later. Each filter is answered by one plan: the timestamps that the indexes have under what it asks for are
//! joined, those within its bounds are read in its direction, and each is replaced by its record. Of transfers a ledger or a
//! code that is asked for beside something that leads to fewer is left out there, and tested on the records.
#![tactic(auto)]

mod balances;
mod condition;
mod expected;
mod filters;
mod history;
mod laws;
mod leading;
mod look_ups;
mod passing;
mod published;
mod residual;
mod scans;
mod timestamps;
mod version;
mod walk;
mod window;

pub use laws::{
    lists_in_order_are_unique, manifests_spell_their_journal, records_are_dated, rows_find_ids,
    rows_give_records, rows_index_records, scans_answer_filters, scans_list_matches,
    sums_date_history,
};
pub use published::{empty_manifests_show_nothing, version_of};
pub use version::Version;
