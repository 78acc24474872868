//! Merges of a store's sealed tables in the thread that asks for them: [`compact`] picks, merges and installs until no row
//! has a run to merge, and shows readers what that left.
#![tactic(auto)]

mod compacting;

pub use compacting::compact;
