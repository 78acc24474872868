//! Look-ups of records in the sealed tables of a manifest: by timestamps, by ids, and by keys one after another.
//!
//! What is found is said of the tables alone, and not of a journal that they show. Many records lie far from each other in memory:
//! so their entries are found before the first of them is read, and what a look-up learns of the tables it keeps for the next.
#![tactic(auto)]

mod at_once;
mod finder;
mod gapped;
mod look_ups;
mod reads;

pub use finder::{Finder, Part, newest, table_at};
pub use look_ups::{accounts_under_ids, stored_account, transfers_under_ids};
pub use reads::{accounts_at, found_transfer, key_of, push_record, record_of, transfers_at};
