//! Pending transfers: how posts and voids are judged, and how pending transfers expire.
//!
//! A pending transfer sets an amount aside until it is posted, voided or expired, once and for good. A post
//! or void is judged by the tables in tf_journal's `specs/Verdict.antt`, and stored with what it leaves out filled
//! in from its pending transfer. A pulse lets those expire whose time is over. All of it stands over any
//! ledger. Restates "Two-Phase Transfers" of TigerBeetle's reference.
#![tactic(auto)]

mod expiring;
mod faults;
mod id;
mod settling;

pub use expiring::pulse;
pub use faults::transfer_fault;
pub use id::used_id_fault;
pub use settling::{judge_settling, stored_settling, verdict_settling};
