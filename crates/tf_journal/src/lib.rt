//! The journal: what a ledger has stored, and the calls by which it grows.
//!
//! A journal is the flat list of all that was stored, in the order of timestamps. Everything that the
//! ledger answers is a function of it: balances are sums over the list, look-ups and answers are
//! filters of it. The definitions are in `specs/`. The trait [`Ledger`] is what a representation of a
//! journal does, and [`PlainLedger`] the plain one, which keeps the list itself; the plain queries answer over it.
#![tactic(auto)]

mod balances;
mod entry;
mod expiry;
mod filter;
mod flags;
mod history;
mod id_use;
mod laws;
mod ledger;
mod plain;
mod queries;
mod search;
mod side;
mod status;
mod walk;

pub use entry::Entry;
pub use expiry::{expires_at, expiry_of, is_overdue};
pub use filter::{
    is_valid_account_filter, is_valid_query_filter, matches_account, matches_account_filter,
    matches_transfer,
};
pub use flags::{
    has_flag, is_closing, is_marked_closed, is_pending, is_post, is_settling, is_void,
};
pub use id_use::IdUse;
pub use laws::{
    ids_are_unique, journals_are_balanced, journals_are_within_limits,
    pending_transfers_settle_once, transfers_have_their_accounts,
};
pub use ledger::{Ledger, Mark};
pub use plain::PlainLedger;
pub use queries::{
    get_account_balances, get_account_transfers, lookup_accounts, lookup_transfers, query_accounts,
    query_transfers,
};
pub use side::Side;
pub use status::Status;
