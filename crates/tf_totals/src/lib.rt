//! Storms over a store that is used up: what is stored and what the clients' shares count is told, and the store is ended.
//!
//! It is a crate of its own, so that whoever names the types that a store is made of has no function that lets a store go.
#![tactic(auto)]

mod totals;

pub use totals::{Counted, totals_of};
